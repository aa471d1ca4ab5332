//! Errors of reading hexadecimal arguments.

use std::alloc::{AllocError, AllocFailed};
use thiserror::Error;

/// Why an argument isn't read as bytes.
#[derive(Clone, Copy, Debug, PartialEq, Eq, Drop, Error)]
pub enum HexError {
    /// E001: memory was refused.
    #[error("Out of memory.")]
    Memory,
    /// E905: the argument has an odd number of digits, or another character.
    #[error("The argument is not pairs of hexadecimal digits.")]
    BadHex,
}

impl HexError {
    ghost use Rattle.std.specs.Prelude.{◌≡◌};
    ghost use Rattle.pg_show.specs.Codes.{code_of};

    /// The number after the E in the code that users see.
    pub fn code(self) -> u16
        ensures { result ≡ code_of self }
    {
        match self {
            HexError::Memory => 1,
            HexError::BadHex => 905,
        }
    }
}
