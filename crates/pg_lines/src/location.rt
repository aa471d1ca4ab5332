//! Where a fault is.
ghost use Rattle.std.specs.Prelude.{Some};
ghost use Rattle.pg_lines.specs.Text as spec;

use pg_link::Place;
use std::fmt;

/// The full names of an old and a new message type.
#[derive(Drop)]
pub struct PairNames {
    pub old: String,
    pub new: String,
}

/// Where a fault is.
#[derive(Drop)]
pub enum Location {
    /// A fault without a position, as a missing root.
    Nowhere,
    /// A file, with a line and a column from 1 on; columns count bytes.
    InPlace(Place),
    /// A file as a whole.
    InFile(String),
    /// A byte of the input, counted from 0.
    AtByte(usize),
    /// The full names of a pair of types in a certificate.
    AtPair(PairNames),
    /// A choice of a pair: the number of its field, and which of the choices of that field it is.
    AtChoice {
        names: PairNames,
        number: u32,
        case: u8,
    },
}

impl fmt::Display for Location {
    ghost output = { λ it. Some (spec.location_of it) };

    fn fmt<W: fmt::Write>(&self, f: &mut fmt::Formatter<W>) -> fmt::Result {
        match self {
            Location::Nowhere => Ok(()),
            Location::InPlace(place) => write!(
                f,
                " {}:{}:{}",
                place.file, place.line, place.column
            ),
            Location::InFile(file) => {
                if file.is_empty() {
                    Ok(())
                } else {
                    write!(f, " {file}")
                }
            }
            Location::AtByte(at) => write!(f, " at {at}"),
            Location::AtPair(names) => write!(f, " {} {}", names.old, names.new),
            Location::AtChoice {
                names,
                number,
                case,
            } => write!(f, " {} {} {number} {case}", names.old, names.new),
        }
    }
}
