//! The codes and offsets of errors.

ghost use Rattle.std.specs.Prelude.{◌≡◌};
ghost use Rattle.pg_dyn.specs.error.Codes.{code_of, place_of};
ghost use Rattle.pg_dyn.specs.declared.error.DynError.TheVariants as errors;

use pg_dyn::DynError;
use std::alloc::{AllocError, AllocFailed};

/// What `DynError::code` answers.
pub fn code(error: DynError) -> u16
    ensures { result ≡ code_of error }
{
    error.code()
}

/// What `DynError::at` answers.
pub fn at(error: DynError) -> Option<usize>
    ensures { result ≡ place_of error }
{
    error.at()
}

/// What `DynError::from` answers of a refused growth.
pub fn error_of(error: AllocError) -> DynError
    ensures { result ≡ errors.Memory }
{
    DynError::from(error)
}

/// What `DynError::from` answers of a refused growth that hands back a value.
pub fn error_of_failed<T: Drop>(failed: AllocFailed<T>) -> DynError
    ensures { result ≡ errors.Memory }
{
    DynError::from(failed)
}
