//! The fields on a witness's path.
ghost use Rattle.std.specs.Prelude.{Some};
ghost use Rattle.pg_lines.specs.Text as spec;

use pg_link::Place;
use std::fmt;

/// A field, by its full name, and where it is declared. In a note it may be an enum's value or a
/// method, too.
#[derive(Drop)]
pub struct NamedField {
    pub name: String,
    pub place: Option<Place>,
}

/// A field on a witness's path: by its number, as the old type and the new one have it.
#[derive(Drop)]
pub struct Step {
    pub number: u32,
    pub old: NamedField,
    pub new: NamedField,
}

impl fmt::Display for NamedField {
    ghost output = { λ it. Some (spec.field_of it) };

    fn fmt<W: fmt::Write>(&self, f: &mut fmt::Formatter<W>) -> fmt::Result {
        let name = &self.name;
        match &self.place {
            Some(place) => write!(f, "{name} {}:{}:{}", place.file, place.line, place.column),
            None => write!(f, "{name} -"),
        }
    }
}
