//! Errors of reading and checking certificates.

use pg_pairs::Pair;
use std::alloc::{AllocError, AllocFailed};
use thiserror::Error;

/// Why a certificate isn't read, or isn't accepted.
#[derive(Clone, Copy, Debug, PartialEq, Eq, Drop, Error)]
pub enum CertError {
    /// E001: memory was refused.
    #[error("Out of memory.")]
    Memory,
    /// E801: the bytes spell no certificate of these schemas.
    #[error("The bytes are not a certificate of these schemas.")]
    BadText,
    /// E802: the table lacks the root.
    #[error("The certificate has no bound for the root.")]
    RootMissing,
    /// E803: the table lacks this child of a pair that it has.
    #[error("The certificate has no bound for a child of a pair.")]
    PairMissing { pair: Pair },
    /// E804: a message that breaks by the case at the number is shorter than the pair's bound says.
    #[error("The bound is too high: a shorter message breaks at field {number} by case {case}.")]
    BoundTooHigh { pair: Pair, number: u32, case: u8 },
    /// E805: no message of the old root without unknown records encodes to the witness.
    #[error("The old writer never writes the witness.")]
    WitnessNotWritten,
    /// E806: the witness has not as many bytes as the root's bound says.
    #[error("The length of the witness is not the bound of the root.")]
    WitnessLength,
    /// E807: the witness doesn't break.
    #[error("The witness does not break.")]
    WitnessKeeps,
}

impl CertError {
    ghost use Rattle.std.specs.Prelude.{◌≡◌};
    ghost use Rattle.pg_cert.specs.Codes.{code_of};

    /// The number after the E by which users know the error.
    pub fn code(self) -> u16
        ensures { result ≡ code_of self }
    {
        match self {
            CertError::Memory => 1,
            CertError::BadText => 801,
            CertError::RootMissing => 802,
            CertError::PairMissing { .. } => 803,
            CertError::BoundTooHigh { .. } => 804,
            CertError::WitnessNotWritten => 805,
            CertError::WitnessLength => 806,
            CertError::WitnessKeeps => 807,
        }
    }
}

impl<T: Drop> From<AllocFailed<T>> for CertError {
    ghost use Rattle.std.specs.Prelude.{◌≡◌};
    ghost use Rattle.pg_cert.specs.declared.error.CertError.TheVariants.{Memory};

    ghost from_gives = { λ _ e. e ≡ Memory };

    fn from(_e: AllocFailed<T>) -> CertError {
        CertError::Memory
    }
}

impl From<AllocError> for CertError {
    ghost use Rattle.std.specs.Prelude.{◌≡◌};
    ghost use Rattle.pg_cert.specs.declared.error.CertError.TheVariants.{Memory};

    ghost from_gives = { λ _ e. e ≡ Memory };

    fn from(_e: AllocError) -> CertError {
        CertError::Memory
    }
}
