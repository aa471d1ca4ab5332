//! A note as JSON.
ghost use Rattle.std.specs.Prelude.{◌≡◌, Some, codes};
ghost use Rattle.pg_lines.specs.Json as spec;

use crate::json::FieldObject;
use crate::note::{PlacedNote, kind_word};
use crate::quoted::{NumberOrNull, Word};
use crate::step::NamedField;
use pg_notes::Note;
use std::fmt;

/// A note, as an object.
#[derive(Clone, Copy)]
pub(crate) struct NoteObject<'a>(pub &'a PlacedNote);

/// A number, which may be negative, or null.
#[derive(Clone, Copy)]
struct SignedOrNull(Option<i64>);

/// A member of the new side, as an object, or null.
#[derive(Clone, Copy)]
struct FieldOrNull<'a>(&'a Option<NamedField>);

/// Of a name that a number lost, the number that has it now.
fn now_of(note: Note) -> Option<usize>
    ensures { result ≡ spec.now_of note }
{
    match note {
        Note::Renamed {
            now: Some(number),
            ..
        }
        | Note::Moved { now: number, .. } => Some(number as usize),
        _ => None,
    }
}

impl fmt::Display for SignedOrNull {
    ghost output = { λ it. Some (spec.signed_or_null it.0) };

    #[tactic(auto, unfolding(crate::specs::Json::signed_or_null))]
    fn fmt<W: fmt::Write>(&self, f: &mut fmt::Formatter<W>) -> fmt::Result {
        match self.0 {
            Some(number) => write!(f, "{number}"),
            None => write!(f, "null"),
        }
    }
}

impl fmt::Display for FieldOrNull<'_> {
    ghost output = { λ it. Some (spec.field_or_null it.0.now) };

    #[tactic(auto, unfolding(crate::specs::Json::field_or_null))]
    fn fmt<W: fmt::Write>(&self, f: &mut fmt::Formatter<W>) -> fmt::Result {
        match self.0 {
            Some(member) => {
                let member = FieldObject(member);
                write!(f, "{member}")
            }
            None => write!(f, "null"),
        }
    }
}

impl fmt::Display for NoteObject<'_> {
    ghost output = { λ it. Some (spec.kind_object (codes "note") (spec.note_members it.0.now)) };

    fn fmt<W: fmt::Write>(&self, f: &mut fmt::Formatter<W>) -> fmt::Result {
        let what = Word(kind_word(self.0.note));
        let number = SignedOrNull(self.0.number);
        let old = FieldObject(&self.0.old);
        let new = FieldOrNull(&self.0.new);
        let now = NumberOrNull(now_of(self.0.note));
        write!(
            f,
            "{{\"kind\":\"note\",\"what\":{what},\"number\":{number},"
        )?;
        write!(f, "\"old\":{old},\"new\":{new},\"now\":{now}}}")
    }
}
