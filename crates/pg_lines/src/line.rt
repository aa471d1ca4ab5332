//! The lines of an answer, and the words of each.
ghost use Rattle.std.specs.Prelude.{◌≡◌, Some};
ghost use Rattle.std.specs.List.{flat_map};
ghost use Rattle.pg_lines.specs.Line as spec;

use crate::hex::Hex;
use crate::note::PlacedNote;
use crate::refusal::Refusal;
use crate::side::Side;
use crate::step::Step;
use std::fmt;

/// What a name is listed as.
#[derive(Clone, Copy)]
pub enum Listed {
    /// A message type that only the old side declares.
    Removed,
    /// A message type that only the new side declares.
    Added,
    /// A message type that files declare.
    Declared,
}

/// A cause, as it is printed.
#[derive(Clone, Copy)]
pub struct PlainCause<'a> {
    /// The word of its reason.
    pub why: &'a str,
    /// The bytes of a message that breaks.
    pub message: &'a [u8],
    /// The field that breaks; where fields meet in a oneof, the first of them.
    pub field: &'a Step,
    /// The others, in rising number.
    pub others: &'a [Step],
}

/// A line of an answer. Readings, certificates and messages that are shown have lines of their own.
#[derive(Clone, Copy)]
pub enum Line<'a> {
    /// No message of the type breaks.
    Compatible { name: &'a str },
    /// A shortest message of the type that breaks has this many bytes.
    Breaks { name: &'a str, length: usize },
    /// Each message of the type that breaks has at least this many bytes.
    Bound { name: &'a str, length: usize },
    /// The bytes of a message that breaks.
    Witness(&'a [u8]),
    /// A field on the path of a witness.
    Step(&'a Step),
    Forward,
    Backward,
    /// A message as a side reads it.
    Reading(Side, &'a str),
    Cause(PlainCause<'a>),
    Name(Listed, &'a str),
    Note(&'a PlacedNote),
    Certificate(&'a str),
    Shown(&'a str),
    Refused(&'a Refusal),
}

impl Listed {
    /// What is before a name in words.
    fn word(self) -> &'static str
        ensures { result.now ≡ spec.listed_word self }
    {
        match self {
            Listed::Removed => "removed ",
            Listed::Added => "added ",
            Listed::Declared => "",
        }
    }
}

/// Fields as both types have them, each after a space.
#[derive(Clone, Copy)]
struct Fields<'a>(&'a [Step]);

impl fmt::Display for Fields<'_> {
    ghost output = { λ it. Some (flat_map spec.both_fields it.0.now) };

    fn fmt<W: fmt::Write>(&self, f: &mut fmt::Formatter<W>) -> fmt::Result {
        for step in self.0 {
            write!(f, " {} {}", step.old, step.new)?;
        }
        Ok(())
    }
}

impl fmt::Display for PlainCause<'_> {
    ghost output = { λ it. Some (spec.cause_of (spec.cause_in it)) };

    fn fmt<W: fmt::Write>(&self, f: &mut fmt::Formatter<W>) -> fmt::Result {
        let why = self.why;
        let length = self.message.len();
        let bytes = Hex(self.message);
        let field = self.field;
        let others = Fields(self.others);
        write!(f, "cause {why} {length} {bytes} ")?;
        writeln!(f, "{} {} {}{others}", field.number, field.old, field.new)
    }
}

impl fmt::Display for Line<'_> {
    ghost output = { λ it. Some (spec.words_of (spec.line_of it)) };

    fn fmt<W: fmt::Write>(&self, f: &mut fmt::Formatter<W>) -> fmt::Result {
        match *self {
            Line::Compatible { name } => writeln!(f, "compatible {name}"),
            Line::Breaks { name, length } => writeln!(f, "breaks {name} {length}"),
            Line::Bound { name, length } => writeln!(f, "bound {name} {length}"),
            Line::Witness(message) => {
                let message = Hex(message);
                writeln!(f, "witness {message}")
            }
            Line::Step(step) => writeln!(f, "step {} {} {}", step.number, step.old, step.new),
            Line::Forward => writeln!(f, "forward"),
            Line::Backward => writeln!(f, "backward"),
            Line::Reading(side, text) => write!(f, "{side}\n{text}"),
            Line::Cause(cause) => write!(f, "{cause}"),
            Line::Name(listed, name) => {
                let word = listed.word();
                writeln!(f, "{word}{name}")
            }
            Line::Note(note) => write!(f, "{note}"),
            Line::Certificate(text) | Line::Shown(text) => write!(f, "{text}"),
            Line::Refused(refusal) => write!(f, "{refusal}"),
        }
    }
}
