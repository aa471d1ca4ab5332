//! What is found of all message types of two sides.
ghost use Rattle.std.specs.Prelude.{◌≡◌};
ghost use Rattle.pg_gate.specs.print.Printed.{all_status};

use crate::print::reply::Readings;
use pg_causes::{Cause, TypeLine};
use pg_lines::{PlacedNote, Step};

/// A cause with the field that breaks; where fields meet in a oneof, the first of them, with the
/// others in rising number. On request, it has its message as both sides read it.
#[derive(Drop)]
pub(crate) struct PlacedCause {
    pub cause: Cause,
    pub field: Step,
    pub others: Vec<Step>,
    pub readings: Option<Readings>,
}

/// What is found of all message types of two sides: each cause by which a message breaks, a line for
/// each type of both sides, and the names that only one side has. On request it has notes of what
/// else changed.
#[derive(Drop)]
pub(crate) struct AllTypes {
    pub causes: Vec<PlacedCause>,
    pub types: Vec<TypeLine>,
    pub removed: Vec<String>,
    pub added: Vec<String>,
    pub notes: Vec<PlacedNote>,
}

impl AllTypes {
    /// 2 where a type is removed, else 1 where there is a cause, and else 0.
    pub(crate) fn status(&self) -> u8
        ensures { result ≡ all_status self.now }
    {
        match (self.removed.is_empty(), self.causes.is_empty()) {
            (false, _) => 2,
            (true, false) => 1,
            (true, true) => 0,
        }
    }
}
