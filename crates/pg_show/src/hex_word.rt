//! Bytes as hexadecimal digits.

ghost use Rattle.std.specs.Prelude.{◌≡◌, ◌⊎◌, ◌++◌, None, Some, IfErr, IfOk, OnOk, string_bytes};
ghost use Rattle.pg_show.specs.declared.error.HexError.TheVariants.{BadHex, Memory};
ghost use Rattle.pg_show.specs.Hex as spec;

use crate::error::HexError;
use hex::FromHexError;
use std::alloc::{AllocError, Global};

/// The bytes of a hexadecimal argument: two digits a byte, in either case. `-` and the empty
/// argument are no bytes.
///
/// The errors are `BadHex`, for an odd number of digits or another character, and `Memory`.
pub fn bytes_of_hex(alloc: Global, word: &str) -> Result<Vec<u8>, HexError>
    ensures bytes { IfOk result (λ bytes. spec.bytes_in word.now ≡ Some bytes.items) }
    ensures refused { IfErr result (λ e. (e ≡ Memory)
        ⊎ ((e ≡ BadHex) × (spec.bytes_in word.now ≡ None))) }
{
    if word == "-" {
        return Ok(Vec::new(alloc));
    }
    match hex::decode(alloc, word.as_bytes()) {
        Ok(bytes) => Ok(bytes),
        Err(FromHexError::OutOfMemory) => Err(HexError::Memory),
        Err(_) => Err(HexError::BadHex),
    }
}

/// Adds the digits of the bytes, or `-` for no bytes.
pub(crate) fn push_hex(alloc: Global, text: &mut String, bytes: &[u8]) -> Result<(), AllocError>
    ensures { OnOk result (string_bytes text.new ≡ string_bytes text.old ++ spec.hex_of bytes.now) }
{
    if bytes.is_empty() {
        return text.push_str("-");
    }
    text.push_str(hex::encode(alloc, bytes)?.as_str())
}
