//! Why a reader stops.

use std::alloc::{AllocError, AllocFailed};

/// Why bytes aren't read as a message: memory was refused, or they have a fault, of which
/// `find_fault` finds the offset.
#[derive(Clone, Copy, Debug, PartialEq, Eq, Drop)]
pub(crate) enum Stop {
    Memory,
    Fault,
}

impl<T: Drop> From<AllocFailed<T>> for Stop {
    ghost use Rattle.std.specs.Prelude.{◌≡◌};
    ghost use Rattle.pg_dyn.specs.declared.reading.stop.Stop.TheVariants.{Memory};

    ghost from_gives = { λ _ e. e ≡ Memory };

    fn from(_e: AllocFailed<T>) -> Stop {
        Stop::Memory
    }
}

impl From<AllocError> for Stop {
    ghost use Rattle.std.specs.Prelude.{◌≡◌};
    ghost use Rattle.pg_dyn.specs.declared.reading.stop.Stop.TheVariants.{Memory};

    ghost from_gives = { λ _ e. e ≡ Memory };

    fn from(_e: AllocError) -> Stop {
        Stop::Memory
    }
}
