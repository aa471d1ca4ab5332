//! Why parts are no valid schema.

ghost use Rattle.std.specs.Prelude.{Some};
ghost use Rattle.pg_schema.specs.ErrorText.{error_text};

use std::error::Error;
use std::fmt;

/// Why parts are no valid schema.
#[derive(Clone, Copy, Debug, PartialEq, Eq)]
pub enum PartsError {
    /// Memory was refused (E001).
    Memory,
    /// The parts don't meet what holds of every schema.
    Invariant,
}

impl PartsError {
    ghost use Rattle.std.specs.Prelude.{◌≡◌};
    ghost use Rattle.pg_schema.specs.Codes.{code_of};

    /// The number after the E by which users know the error. `Invariant` has none: it doesn't say
    /// which rule is broken, and each rule has a number of its own.
    pub fn code(self) -> Option<u16>
        ensures { result ≡ code_of self }
    {
        match self {
            PartsError::Memory => Some(1),
            PartsError::Invariant => None,
        }
    }
}

impl fmt::Display for PartsError {
    ghost output = { λ e. Some (error_text e) };

    fn fmt<W: fmt::Write>(&self, f: &mut fmt::Formatter<W>) -> fmt::Result {
        match self {
            PartsError::Memory => write!(f, "Out of memory."),
            PartsError::Invariant => write!(f, "The parts are not a valid schema."),
        }
    }
}

impl Error for PartsError {}
