//! Why a descriptor set can't be written, or states no parts.

use pg_dyn::DynError;
use std::alloc::{AllocError, AllocFailed};
use thiserror::Error;

/// Why a descriptor set can't be written, or states no parts of a schema (descriptor.proto;
/// docs/ERRORS.md).
#[derive(Debug, PartialEq, Eq, Drop, Error)]
pub enum SetError {
    /// E001: memory was refused.
    #[error("Out of memory.")]
    Memory,
    /// E701: what the codec of messages refuses, with its own code.
    #[error(transparent)]
    Bytes(DynError),
    /// E702: a file of the set isn't proto3.
    #[error("A file of the set is not proto3.")]
    NotProto3,
    /// E703: a field has no type, or a code of a type or a label that isn't taken.
    #[error("A field of the set has an unsupported type or label.")]
    BadType,
    /// E704: an import or a name isn't in the set, occurs twice or is of another kind, imports form
    /// a cycle, an index is out of range, an `optional` field or an entry type isn't in its form,
    /// or an entry type belongs to no field, or to several.
    #[error("The set has an invalid reference.")]
    BadReference,
}

impl SetError {
    ghost use Rattle.std.specs.Prelude.{◌≡◌};
    ghost use Rattle.pg_set.specs.refusals.ErrorCodes.{code_of, place_of};

    /// The number after the E by which users know the error: of the bytes of a set the one that
    /// says what is wrong there.
    pub fn code(&self) -> u16
        ensures { result ≡ code_of self.now }
    {
        match self {
            SetError::Memory => 1,
            SetError::Bytes(error) => error.code(),
            SetError::NotProto3 => 702,
            SetError::BadType => 703,
            SetError::BadReference => 704,
        }
    }

    /// The byte of the set that the error names, if it names one.
    pub fn at(&self) -> Option<usize>
        ensures { result ≡ place_of self.now }
    {
        match self {
            SetError::Bytes(error) => error.at(),
            SetError::Memory | SetError::NotProto3 | SetError::BadType | SetError::BadReference =>
                None,
        }
    }
}

impl<T: Drop> From<AllocFailed<T>> for SetError {
    ghost use Rattle.std.specs.Prelude.{◌≡◌};
    ghost use Rattle.pg_set.specs.declared.error.SetError.TheVariants.{Memory};

    ghost from_gives = { λ _ e. e ≡ Memory };

    fn from(_e: AllocFailed<T>) -> SetError {
        SetError::Memory
    }
}

impl From<AllocError> for SetError {
    ghost use Rattle.std.specs.Prelude.{◌≡◌};
    ghost use Rattle.pg_set.specs.declared.error.SetError.TheVariants.{Memory};

    ghost from_gives = { λ _ e. e ≡ Memory };

    fn from(_e: AllocError) -> SetError {
        SetError::Memory
    }
}

/// Why the messages of a set make no schema.
#[derive(Clone, Copy, Debug, PartialEq, Eq, Drop)]
pub(crate) enum Unstated {
    /// Memory was refused.
    Memory,
    /// A name, an index or a form isn't what it has to be.
    Reference,
}

impl<T: Drop> From<AllocFailed<T>> for Unstated {
    ghost use Rattle.std.specs.Prelude.{◌≡◌};
    ghost use Rattle.pg_set.specs.declared.error.Unstated.TheVariants.{Memory};

    ghost from_gives = { λ _ e. e ≡ Memory };

    fn from(_e: AllocFailed<T>) -> Unstated {
        Unstated::Memory
    }
}

impl From<AllocError> for Unstated {
    ghost use Rattle.std.specs.Prelude.{◌≡◌};
    ghost use Rattle.pg_set.specs.declared.error.Unstated.TheVariants.{Memory};

    ghost from_gives = { λ _ e. e ≡ Memory };

    fn from(_e: AllocError) -> Unstated {
        Unstated::Memory
    }
}

impl From<Unstated> for SetError {
    ghost use Rattle.std.specs.Prelude.{◌≡◌, ◌⊎◌};
    ghost use Rattle.pg_set.specs.declared.error.SetError.TheVariants.{BadReference, Memory};
    ghost use Rattle.pg_set.specs.declared.error.Unstated.TheVariants as unstated;

    ghost from_gives = { λ u e. ((u ≡ unstated.Memory) × (e ≡ Memory))
        ⊎ ((u ≡ unstated.Reference) × (e ≡ BadReference)) };

    fn from(error: Unstated) -> SetError {
        match error {
            Unstated::Memory => SetError::Memory,
            Unstated::Reference => SetError::BadReference,
        }
    }
}
