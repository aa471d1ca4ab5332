//! The codes and positions of faults.

ghost use Rattle.std.specs.Prelude.{◌≡◌};
ghost use Rattle.pg_link.specs.Codes.{code_of, place_of};

use pg_link::{LinkError, Place};

/// What `LinkError::code` answers.
pub fn code(error: &LinkError) -> u16
    ensures { result ≡ code_of error.now }
{
    error.code()
}

/// What `LinkError::place` answers.
pub fn place_of_fault(error: LinkError) -> Option<Place>
    ensures { result ≡ place_of error }
{
    error.place()
}
