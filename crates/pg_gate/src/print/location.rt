//! Where a fault is.
ghost use Rattle.std.specs.Prelude.{◌≡◌};
ghost use Rattle.pg_gate.specs.print.Refusals as refusals;

use crate::call_error::CertificateFault;
use crate::error::{Fault, ListError};
use pg_lines::Location;
use pg_link::Place;

/// What a position names: a line and a column of its file, or the file as a whole.
fn located(place: Place) -> Location
    ensures { result ≡ refusals.located place }
{
    if place.line == 0 {
        Location::InFile(place.file)
    } else {
        Location::InPlace(place)
    }
}

fn location_at(place: Option<Place>) -> Location
    ensures { result ≡ refusals.location_at place }
{
    match place {
        Some(place) => located(place),
        None => Location::Nowhere,
    }
}

/// A byte, or none.
pub(crate) fn location_of(at: Option<usize>) -> Location
    ensures { result ≡ refusals.location_of at }
{
    match at {
        Some(at) => Location::AtByte(at),
        None => Location::Nowhere,
    }
}

/// Where a list is at fault.
fn location_of_list(error: ListError) -> Location
    ensures { result ≡ refusals.location_of_list error }
{
    match error {
        ListError::NotUtf8(place) | ListError::NoFile(place) => located(place),
    }
}

/// Where a side is at fault. A rule that a set breaks has no position in a source file.
pub(crate) fn location_of_fault(fault: Fault) -> Location
    ensures { result ≡ refusals.location_of_fault fault }
{
    match fault {
        Fault::Link(error) => location_at(error.place()),
        Fault::Check(error) => location_at(error.place()),
        Fault::Set(error) => location_of(error.at()),
        Fault::List(error) => location_of_list(error),
    }
}

/// Where a certificate is at fault. A certificate that isn't given is reported by its file.
pub(crate) fn location_of_certificate(fault: CertificateFault) -> Location
    ensures { result ≡ refusals.location_of_certificate fault }
{
    match fault {
        CertificateFault::Missing(file) | CertificateFault::Failed(file) => Location::InFile(file),
        CertificateFault::Refused(fault) => fault.location,
    }
}
