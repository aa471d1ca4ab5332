//! The refusal of an error, and its status.
ghost use Rattle.std.specs.Prelude.{◌≡◌, None};
ghost use Rattle.pg_call.specs.Call.{request_of};
ghost use Rattle.pg_gate.specs.print.Printed as printed;
ghost use Rattle.pg_gate.specs.print.Refusals as refusals;

use crate::call_error::{CallError, SOURCE_FAILED};
use crate::error::GateError;
use crate::print::location::{location_of, location_of_certificate, location_of_fault};
use pg_call::Call;
use pg_dyn::DynError;
use pg_lines::{Location, Refusal};

/// The code of a side that names no file.
const NO_FILE: u16 = 907;

/// The status of arguments that `clap` doesn't take, as of those that ask for help, and of a side
/// that names no file.
pub(crate) const USAGE: u8 = 4;

/// 3 for a fault of a device, 4 for a side that names no file, and else 2.
pub(crate) fn refusal_status(refusal: &Refusal) -> u8
    ensures { result ≡ printed.refusal_status refusal.now }
{
    match refusal.code {
        SOURCE_FAILED => 3,
        NO_FILE => USAGE,
        _ => 2,
    }
}

/// The refusal without its side, for files that are compiled by themselves.
fn without_side(refusal: Refusal) -> Refusal
    ensures { result ≡ refusals.without_side refusal }
{
    alone(refusal.code, refusal.location)
}

/// A refusal without a side.
fn alone(code: u16, location: Location) -> Refusal
    ensures { result ≡ refusals.refusal_by None code location }
{
    Refusal {
        side: None,
        code,
        location,
    }
}

/// The refusal that is printed for an error of the gate with this code. Out of memory and a sink
/// that failed have none.
fn refusal_of_gate(code: u16, error: GateError) -> Option<Refusal>
    ensures { result ≡ refusals.refusal_of_gate code error }
{
    match error {
        GateError::Compile(side, fault) => Some(Refusal {
            side: Some(side),
            code,
            location: location_of_fault(fault),
        }),
        GateError::RootMissingOld | GateError::RootMissingNew | GateError::BadHex => {
            Some(alone(code, Location::Nowhere))
        }
        GateError::Memory | GateError::WriteFailed => None,
    }
}

/// The refusal that is printed for an error of a call with this code. A certificate and bytes are
/// refused without a side.
fn refusal_with(code: u16, error: CallError) -> Option<Refusal>
    ensures { result ≡ refusals.refusal_with code error }
{
    match error {
        CallError::Gate(error) => refusal_of_gate(code, error),
        CallError::Certificate(fault) => Some(alone(code, location_of_certificate(fault))),
        CallError::Bytes(error) => Some(alone(code, location_of(error.at()))),
    }
}

/// The refusal that is printed for bytes that aren't shown.
pub(crate) fn refusal_of_bytes(error: DynError) -> Refusal
    ensures { result ≡ refusals.refusal_of_bytes error }
{
    alone(error.code(), location_of(error.at()))
}

/// The refusal that is printed for an error of a call, if any is.
fn refusal_of(error: CallError) -> Option<Refusal>
    ensures { result ≡ refusals.refusal_of error }
{
    refusal_with(error.code(), error)
}

/// The refusal that is printed for an error of the call.
pub(crate) fn refusal_for(call: &Call<'_>, error: CallError) -> Option<Refusal>
    ensures { result ≡ refusals.refusal_for (request_of call.now) error }
{
    let refusal = refusal_of(error)?;
    match call {
        Call::Compile(_) | Call::Show(_) | Call::Types { .. } => Some(without_side(refusal)),
        Call::Gate(_) | Call::GateAll(_) | Call::Verify { .. } => Some(refusal),
    }
}
