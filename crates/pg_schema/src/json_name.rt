//! JSON names.

ghost use Rattle.std.specs.Prelude.{◌≡◌, IfOk, if◌then◌else◌};
ghost use Rattle.std.specs.Char.{to_ascii_uppercase};
ghost use Rattle.std.specs.String.{string_bytes};
ghost use Rattle.pg_schema.specs.JsonName.{default_json_name, in_camel_case};

use std::alloc::{AllocError, Global};

/// The byte, in upper case where it comes after a `_`.
fn cased(is_behind: bool, byte: u8) -> u8
    ensures { result ≡ (if is_behind then to_ascii_uppercase byte else byte) }
{
    if is_behind {
        byte.to_ascii_uppercase()
    } else {
        byte
    }
}

/// The bytes of a name without its `_`, and the letter after each of them in upper case; the first
/// letter too, where one is said to come before it.
fn cased_bytes(alloc: Global, is_behind: bool, name: &[u8]) -> Result<Vec<u8>, AllocError>
    ensures { IfOk result (λ bytes. bytes.items ≡ in_camel_case is_behind name.now) }
{
    let mut bytes = Vec::with_capacity(alloc, name.len())?;
    let mut behind = is_behind;
    for byte in name {
        if *byte == b'_' {
            behind = true;
            continue;
        }
        bytes.push(cased(behind, *byte))?;
        behind = false;
    }
    Ok(bytes)
}

/// The name without its `_`, and the letter after each of them in upper case; the first letter
/// too, where one is said to come before it.
pub(crate) fn in_camel_case(
    alloc: Global,
    is_behind: bool,
    name: &str,
) -> Result<String, AllocError>
    ensures { IfOk result (λ text. string_bytes text ≡ in_camel_case is_behind name.now) }
{
    let bytes = cased_bytes(alloc, is_behind, name.as_bytes())?;
    match String::from_utf8(bytes) {
        Ok(text) => Ok(text),
        Err(_) => unreachable!(),
    }
}

/// The JSON name of a field of that name where none is stated: without its `_`, and the letter
/// after each of them in upper case (proto3 language guide, "JSON Mapping").
///
/// Refused only where memory is.
pub fn default_json_name(alloc: Global, name: &str) -> Result<String, AllocError>
    ensures { IfOk result (λ text. string_bytes text ≡ default_json_name name.now) }
{
    in_camel_case(alloc, false, name)
}
