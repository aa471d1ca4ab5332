//! Errors of making, writing and reading messages.

use pg_wire::WireError;
use std::alloc::{AllocError, AllocFailed};
use thiserror::Error;

/// Why a message can't be made, written or read.
#[derive(Clone, Copy, Debug, PartialEq, Eq, Drop, Error)]
pub enum DynError {
    /// E001: memory was refused.
    #[error("Out of memory.")]
    Memory,
    /// E601: the message type has no field of the number.
    #[error("The message type has no such field.")]
    NoSuchField,
    /// E602: a content isn't of its field's kind, or holds a message that isn't one of its type.
    #[error("The item is of the wrong kind.")]
    WrongKind,
    /// E603: an integer is out of the range of its field's type.
    #[error("The number is out of range.")]
    OutOfRange,
    /// E604: the bytes of a string aren't UTF-8. In bytes that are read, `at` is the first byte of
    /// the record that holds the string; of contents that are set, the length of the longest front
    /// of the string that is UTF-8, of several such strings of the first one.
    #[error("The string is not UTF-8.")]
    NotUtf8 { at: usize },
    /// E605: two contents are of one field, or of two members of one oneof.
    #[error("A field or a oneof is set twice.")]
    OneofTwice,
    /// E606: two entries of a map have one key.
    #[error("The map has a key twice.")]
    DuplicateKey,
    /// E607: the encoding has more than 2,147,483,647 bytes.
    #[error("The encoding has more than 2,147,483,647 bytes.")]
    TooLong,
    /// E608: a message is deeper than the limit; `at` is the first byte of its record, and 0
    /// for the root.
    #[error("The message at byte {at} is nested too deep.")]
    TooDeep { at: usize },
    /// E501 to E505: the bytes aren't those of records.
    #[error(transparent)]
    Wire(WireError),
}

impl DynError {
    ghost use Rattle.std.specs.Prelude.{◌≡◌};
    ghost use Rattle.pg_dyn.specs.error.Codes.{code_of, place_of};

    /// The number after the E by which users know the error.
    pub fn code(self) -> u16
        ensures { result ≡ code_of self }
    {
        match self {
            DynError::Memory => 1,
            DynError::NoSuchField => 601,
            DynError::WrongKind => 602,
            DynError::OutOfRange => 603,
            DynError::NotUtf8 { .. } => 604,
            DynError::OneofTwice => 605,
            DynError::DuplicateKey => 606,
            DynError::TooLong => 607,
            DynError::TooDeep { .. } => 608,
            DynError::Wire(error) => error.code(),
        }
    }

    /// The offset that the error names, if it names one: a byte of the input, or of contents that
    /// are set the length of a string's front.
    pub fn at(self) -> Option<usize>
        ensures { result ≡ place_of self }
    {
        match self {
            DynError::NotUtf8 { at } | DynError::TooDeep { at } => Some(at),
            DynError::Wire(error) => Some(error.at()),
            DynError::Memory
            | DynError::NoSuchField
            | DynError::WrongKind
            | DynError::OutOfRange
            | DynError::OneofTwice
            | DynError::DuplicateKey
            | DynError::TooLong => None,
        }
    }
}

impl<T: Drop> From<AllocFailed<T>> for DynError {
    ghost use Rattle.std.specs.Prelude.{◌≡◌};
    ghost use Rattle.pg_dyn.specs.declared.error.DynError.TheVariants.{Memory};

    ghost from_gives = { λ _ e. e ≡ Memory };

    fn from(_e: AllocFailed<T>) -> DynError {
        DynError::Memory
    }
}

impl From<AllocError> for DynError {
    ghost use Rattle.std.specs.Prelude.{◌≡◌};
    ghost use Rattle.pg_dyn.specs.declared.error.DynError.TheVariants.{Memory};

    ghost from_gives = { λ _ e. e ≡ Memory };

    fn from(_e: AllocError) -> DynError {
        DynError::Memory
    }
}
