//! Why a call has no answer.

use crate::error::GateError;
use pg_cert::CertError;
use pg_dyn::DynError;
use pg_lines::Location;
use std::alloc::{AllocError, AllocFailed};

/// The code of a file that is not there.
const MISSING_FILE: u16 = 301;

/// The code of a source that failed.
pub(crate) const SOURCE_FAILED: u16 = 309;

/// What a certificate's bytes are refused for, of two schemas.
#[derive(Drop)]
pub(crate) struct ClaimFault {
    /// The checker's error, E801 to E807.
    pub error: CertError,
    /// The pair that the error is of, by the full names of its types, or nowhere.
    pub location: Location,
}

/// Why a certificate is not taken.
#[derive(Drop)]
pub(crate) enum CertificateFault {
    /// E301: the old source has no file of this path.
    Missing(String),
    /// E309: the old source failed to give the file.
    Failed(String),
    /// E801 to E807: its bytes are refused.
    Refused(ClaimFault),
}

/// Why a call has no answer: what the gate is refused for, and what only `verify` and `show` are.
#[derive(Drop)]
pub(crate) enum CallError {
    Gate(GateError),
    /// E301, E309, E801 to E807: a certificate is not taken.
    Certificate(CertificateFault),
    /// E501 to E505, E604, E607, E608: bytes that are to be shown aren't read as a message, or the
    /// message has no encoding.
    Bytes(DynError),
}

impl CertificateFault {
    ghost use Rattle.std.specs.Prelude.{◌≡◌};
    ghost use Rattle.pg_gate.specs.print.Codes.{certificate_code};

    /// The number after the E by which users know the fault.
    fn code(&self) -> u16
        ensures { result ≡ certificate_code self.now }
    {
        match self {
            CertificateFault::Missing(_) => MISSING_FILE,
            CertificateFault::Failed(_) => SOURCE_FAILED,
            CertificateFault::Refused(fault) => fault.error.code(),
        }
    }
}

impl CallError {
    ghost use Rattle.std.specs.Prelude.{◌≡◌};
    ghost use Rattle.pg_gate.specs.print.Codes.{call_code};

    /// The number after the E by which users know the error.
    pub(crate) fn code(&self) -> u16
        ensures { result ≡ call_code self.now }
    {
        match self {
            CallError::Gate(error) => error.code(),
            CallError::Certificate(fault) => fault.code(),
            CallError::Bytes(error) => error.code(),
        }
    }
}

impl From<GateError> for CallError {
    ghost use Rattle.std.specs.Prelude.{◌≡◌};
    ghost use Rattle.pg_gate.specs.declared.call_error.CallError.TheVariants.{Gate};

    ghost from_gives = { λ gate error. error ≡ Gate gate };

    fn from(error: GateError) -> CallError {
        CallError::Gate(error)
    }
}

impl<T: Drop> From<AllocFailed<T>> for CallError {
    ghost use Rattle.std.specs.Prelude.{◌≡◌};
    ghost use Rattle.pg_gate.specs.declared.call_error.CallError.TheVariants.{Gate};
    ghost use Rattle.pg_gate.specs.declared.error.GateError.TheVariants.{Memory};

    ghost from_gives = { λ _ error. error ≡ Gate Memory };

    fn from(_error: AllocFailed<T>) -> CallError {
        CallError::Gate(GateError::Memory)
    }
}

impl From<AllocError> for CallError {
    ghost use Rattle.std.specs.Prelude.{◌≡◌};
    ghost use Rattle.pg_gate.specs.declared.call_error.CallError.TheVariants.{Gate};
    ghost use Rattle.pg_gate.specs.declared.error.GateError.TheVariants.{Memory};

    ghost from_gives = { λ _ error. error ≡ Gate Memory };

    fn from(_error: AllocError) -> CallError {
        CallError::Gate(GateError::Memory)
    }
}
