//! Why a descriptor set can't be written or read.

use pg_check::CheckError;
use pg_dyn::DynError;
use pg_set::SetError;
use std::alloc::{AllocError, AllocFailed};
use thiserror::Error;

/// Why a descriptor set can't be written, or states no schema (descriptor.proto; docs/ERRORS.md).
#[derive(Debug, PartialEq, Eq, Drop, Error)]
pub enum FdsError {
    /// E001: memory was refused.
    #[error("Out of memory.")]
    Memory,
    /// E701: what the codec of messages refuses, with its own code.
    #[error(transparent)]
    Bytes(DynError),
    /// E702: a file of the set isn't proto3.
    #[error("A file of the set is not proto3.")]
    NotProto3,
    /// E703: a field has no type, or a code of a type or a label that isn't taken.
    #[error("A field of the set has an unsupported type or label.")]
    BadType,
    /// E704: an import or a name isn't in the set, occurs twice or is of another kind, imports form
    /// a cycle, an index is out of range, an `optional` field or an entry type isn't in its form,
    /// or an entry type belongs to no field, or to several.
    #[error("The set has an invalid reference.")]
    BadReference,
    /// E705: what the set declares breaks a rule of the language, by the rule's error without a
    /// position.
    #[error(transparent)]
    Rule(CheckError),
}

impl FdsError {
    ghost use Rattle.std.specs.Prelude.{◌≡◌};
    ghost use Rattle.pg_fds.specs.refusals.ErrorCodes.{code_of, place_of};

    /// The number after the E by which users know the error: of the bytes of a set, and of a rule
    /// that it breaks, the one that says what is wrong there.
    pub fn code(&self) -> u16
        ensures { result ≡ code_of self.now }
    {
        match self {
            FdsError::Memory => 1,
            FdsError::Bytes(error) => error.code(),
            FdsError::NotProto3 => 702,
            FdsError::BadType => 703,
            FdsError::BadReference => 704,
            FdsError::Rule(error) => error.code(),
        }
    }

    /// The byte of the set that the error names, if it names one.
    pub fn at(&self) -> Option<usize>
        ensures { result ≡ place_of self.now }
    {
        match self {
            FdsError::Bytes(error) => error.at(),
            FdsError::Memory
            | FdsError::NotProto3
            | FdsError::BadType
            | FdsError::BadReference
            | FdsError::Rule(_) => None,
        }
    }
}

impl<T: Drop> From<AllocFailed<T>> for FdsError {
    ghost use Rattle.std.specs.Prelude.{◌≡◌};
    ghost use Rattle.pg_fds.specs.declared.error.FdsError.TheVariants.{Memory};

    ghost from_gives = { λ _ e. e ≡ Memory };

    fn from(_e: AllocFailed<T>) -> FdsError {
        FdsError::Memory
    }
}

impl From<AllocError> for FdsError {
    ghost use Rattle.std.specs.Prelude.{◌≡◌};
    ghost use Rattle.pg_fds.specs.declared.error.FdsError.TheVariants.{Memory};

    ghost from_gives = { λ _ e. e ≡ Memory };

    fn from(_e: AllocError) -> FdsError {
        FdsError::Memory
    }
}

impl From<SetError> for FdsError {
    ghost use Rattle.std.specs.Prelude.{◌≡◌};
    ghost use Rattle.pg_fds.specs.refusals.SetErrors.{of_set};

    ghost from_gives = { λ set e. e ≡ of_set set };

    fn from(error: SetError) -> FdsError {
        match error {
            SetError::Memory => FdsError::Memory,
            SetError::Bytes(error) => FdsError::Bytes(error),
            SetError::NotProto3 => FdsError::NotProto3,
            SetError::BadType => FdsError::BadType,
            SetError::BadReference => FdsError::BadReference,
        }
    }
}
