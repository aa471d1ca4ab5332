//! The line of a refusal.
ghost use Rattle.std.specs.Prelude.{Some};
ghost use Rattle.pg_lines.specs.Text as spec;

use crate::location::Location;
use crate::side::Side;
use std::fmt;

/// A refusal: the side that was compiled, the code's number, and where the fault is.
#[derive(Drop)]
pub struct Refusal {
    pub side: Option<Side>,
    pub code: u16,
    pub location: Location,
}

impl fmt::Display for Refusal {
    ghost output = { λ it. Some (spec.refusal_of it) };

    fn fmt<W: fmt::Write>(&self, f: &mut fmt::Formatter<W>) -> fmt::Result {
        let code = self.code;
        let location = &self.location;
        match self.side {
            Some(side) => writeln!(f, "refused {side} E{code}{location}"),
            None => writeln!(f, "refused E{code}{location}"),
        }
    }
}
