//! A note, and its words.
ghost use Rattle.std.specs.Prelude.{◌≡◌, Some};
ghost use Rattle.pg_lines.specs.Notes as spec;

use crate::step::NamedField;
use pg_notes::Note;
use std::fmt;

/// A change that is noted, with what it names on both sides.
#[derive(Drop)]
pub struct PlacedNote {
    pub note: Note,
    /// The number of the old field or value. `None` of a method.
    pub number: Option<i64>,
    pub old: NamedField,
    /// `None` of what is gone.
    pub new: Option<NamedField>,
}

/// The word of a kind.
pub(crate) fn kind_word(note: Note) -> &'static str
    ensures { result.now ≡ spec.kind_word note }
{
    match note {
        Note::Renamed { .. } => "field-renamed",
        Note::Moved { .. } => "field-moved",
        Note::Unreserved { .. } => "number-unreserved",
        Note::PresenceDropped { .. } => "presence-dropped",
        Note::NumberToList { .. } => "number-to-list",
        Note::ValueRenamed { .. } => "value-renamed",
        Note::ValueGone { .. } => "value-gone",
        Note::MethodGone { now: Some(_), .. } => "method-gone",
        Note::MethodGone { now: None, .. } => "service-gone",
        Note::MethodChanged { .. } => "method-changed",
    }
}

/// A number. A method has none.
#[derive(Clone, Copy)]
struct NumberOrDash(Option<i64>);

impl fmt::Display for NumberOrDash {
    ghost output = { λ it. Some (spec.number_or_dash it.0) };

    fn fmt<W: fmt::Write>(&self, f: &mut fmt::Formatter<W>) -> fmt::Result {
        match self.0 {
            Some(number) => write!(f, "{number}"),
            None => write!(f, "-"),
        }
    }
}

/// A member of the new side. What is gone has neither a name nor a position.
#[derive(Clone, Copy)]
struct NamedOrDashes<'a>(&'a Option<NamedField>);

impl fmt::Display for NamedOrDashes<'_> {
    ghost output = { λ it. Some (spec.named_or_dashes it.0.now) };

    fn fmt<W: fmt::Write>(&self, f: &mut fmt::Formatter<W>) -> fmt::Result {
        match self.0 {
            Some(member) => write!(f, "{member}"),
            None => write!(f, "- -"),
        }
    }
}

/// The number that has a name now, where a note tells of it, after a space.
#[derive(Clone, Copy)]
struct Now(Note);

impl fmt::Display for Now {
    ghost output = { λ it. Some (spec.now_of it.0) };

    fn fmt<W: fmt::Write>(&self, f: &mut fmt::Formatter<W>) -> fmt::Result {
        match self.0 {
            Note::Renamed {
                now: Some(number),
                ..
            }
            | Note::Moved { now: number, .. } => write!(f, " {number}"),
            Note::Renamed { now: None, .. } => write!(f, " -"),
            _ => Ok(()),
        }
    }
}

impl fmt::Display for PlacedNote {
    ghost output = { λ it. Some (spec.note_of it) };

    fn fmt<W: fmt::Write>(&self, f: &mut fmt::Formatter<W>) -> fmt::Result {
        let word = kind_word(self.note);
        let number = NumberOrDash(self.number);
        let old = &self.old;
        let new = NamedOrDashes(&self.new);
        let now = Now(self.note);
        writeln!(f, "note {word} {number} {old} {new}{now}")
    }
}
