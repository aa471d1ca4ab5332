//! The two sides of a comparison.
ghost use Rattle.std.specs.Prelude.{Some};
ghost use Rattle.pg_lines.specs.Text.{side_of};

use std::fmt;

/// The old writer's schema, or the new reader's.
#[derive(Clone, Copy, Debug, PartialEq, Eq)]
pub enum Side {
    Old,
    New,
}

impl fmt::Display for Side {
    ghost output = { λ it. Some (side_of it) };

    fn fmt<W: fmt::Write>(&self, f: &mut fmt::Formatter<W>) -> fmt::Result {
        match self {
            Side::Old => write!(f, "old"),
            Side::New => write!(f, "new"),
        }
    }
}
