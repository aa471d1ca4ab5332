//! The lines of an answer as JSON: an object each.
ghost use Rattle.std.specs.Fmt.{WritesOnOk};
ghost use Rattle.std.specs.Prelude.{◌≡◌, [], ◌∷◌, Some, codes};
ghost use Rattle.std.specs.List.{flat_map};
ghost use Rattle.pg_lines.specs.Json as spec;
ghost use Rattle.pg_lines.specs.Line.{cause_in, line_of, reading};

use crate::line::{Line, Listed, PlainCause};
use crate::location::Location;
use crate::note_object::NoteObject;
use crate::quoted::{NumberOrNull, Quoted, QuotedHex, QuotedOrNull};
use crate::refusal::Refusal;
use crate::sentences::sentence_of;
use crate::side::Side;
use crate::step::{NamedField, Step};
use std::fmt;
use std::fmt::{Formatter, Write};

/// A line, as an object.
#[derive(Clone, Copy)]
pub(crate) struct Json<'a>(pub &'a Line<'a>);

/// A field, as an object.
#[derive(Clone, Copy)]
pub(crate) struct FieldObject<'a>(pub &'a NamedField);

/// A number with its field as both types have it, as an object.
#[derive(Clone, Copy)]
struct StepObject<'a>(&'a Step);

/// Such objects, each after a comma.
#[derive(Clone, Copy)]
struct AfterCommas<'a>(&'a [Step]);

/// An array of such objects.
#[derive(Clone, Copy)]
struct StepsArray<'a>(&'a [Step]);

/// A cause, as an object.
#[derive(Clone, Copy)]
struct CauseObject<'a>(PlainCause<'a>);

/// A side, as a string.
#[derive(Clone, Copy)]
struct SideString(Side);

/// A code, as a string.
#[derive(Clone, Copy)]
struct CodeString(u16);

/// A side, as a string, or null.
#[derive(Clone, Copy)]
struct SideOrNull(Option<Side>);

/// A refusal, as an object.
#[derive(Clone, Copy)]
struct RefusalObject<'a>(&'a Refusal);

/// Where a fault is, part by part.
#[derive(Clone, Copy)]
struct Spot<'a> {
    file: Option<&'a str>,
    line: Option<usize>,
    column: Option<usize>,
    byte: Option<usize>,
    old: Option<&'a str>,
    new: Option<&'a str>,
    number: Option<usize>,
    case: Option<usize>,
}

/// The spot of a fault without a position.
const NOWHERE: Spot<'static> = Spot {
    file: None,
    line: None,
    column: None,
    byte: None,
    old: None,
    new: None,
    number: None,
    case: None,
};

/// The spot of a fault.
fn spot_of(location: &Location) -> Spot<'_>
    ensures { spec.spot_in result ≡ spec.spot_of location.now }
{
    match location {
        Location::Nowhere => NOWHERE,
        Location::InPlace(place) => Spot {
            file: Some(place.file.as_str()),
            line: Some(place.line),
            column: Some(place.column),
            ..NOWHERE
        },
        Location::InFile(file) => Spot {
            file: Some(file.as_str()),
            ..NOWHERE
        },
        Location::AtByte(at) => Spot {
            byte: Some(*at),
            ..NOWHERE
        },
        Location::AtPair(names) => Spot {
            old: Some(names.old.as_str()),
            new: Some(names.new.as_str()),
            ..NOWHERE
        },
        Location::AtChoice {
            names,
            number,
            case,
        } => Spot {
            old: Some(names.old.as_str()),
            new: Some(names.new.as_str()),
            number: Some(*number as usize),
            case: Some(usize::from(*case)),
            ..NOWHERE
        },
    }
}

impl Listed {
    /// The kind of a line with a name.
    fn kind(self) -> &'static str
        ensures { result.now ≡ spec.listed_kind self }
    {
        match self {
            Listed::Removed => "removed",
            Listed::Added => "added",
            Listed::Declared => "declared",
        }
    }
}

impl fmt::Display for FieldObject<'_> {
    ghost output = { λ it. Some (spec.field_object it.0.now) };

    #[tactic(auto, unfolding(crate::specs::Json::field_object))]
    fn fmt<W: fmt::Write>(&self, f: &mut fmt::Formatter<W>) -> fmt::Result {
        let name = Quoted(self.0.name.as_str());
        match &self.0.place {
            Some(place) => {
                let file = Quoted(place.file.as_str());
                write!(f, "{{\"name\":{name},\"file\":{file},")?;
                write!(f, "\"line\":{},\"column\":{}}}", place.line, place.column)
            }
            None => write!(
                f,
                "{{\"name\":{name},\"file\":null,\"line\":null,\"column\":null}}"
            ),
        }
    }
}

impl fmt::Display for StepObject<'_> {
    ghost output = { λ it. Some (spec.step_object it.0.now) };

    #[tactic(auto, unfolding(crate::specs::Json::step_object))]
    fn fmt<W: fmt::Write>(&self, f: &mut fmt::Formatter<W>) -> fmt::Result {
        let number = self.0.number;
        let old = FieldObject(&self.0.old);
        let new = FieldObject(&self.0.new);
        write!(f, "{{\"number\":{number},\"old\":{old},\"new\":{new}}}")
    }
}

impl fmt::Display for AfterCommas<'_> {
    ghost output = { λ it. Some (flat_map spec.after_comma it.0.now) };

    fn fmt<W: fmt::Write>(&self, f: &mut fmt::Formatter<W>) -> fmt::Result {
        for step in self.0 {
            let step = StepObject(step);
            write!(f, ",{step}")?;
        }
        Ok(())
    }
}

impl fmt::Display for StepsArray<'_> {
    ghost output = { λ it. Some (spec.steps_array it.0.now) };

    #[tactic(auto, unfolding(crate::specs::Json::steps_array))]
    fn fmt<W: fmt::Write>(&self, f: &mut fmt::Formatter<W>) -> fmt::Result {
        match self.0 {
            [] => write!(f, "[]"),
            [first, rest @ ..] => {
                let first = StepObject(first);
                let rest = AfterCommas(rest);
                write!(f, "[{first}{rest}]")
            }
        }
    }
}

impl fmt::Display for CauseObject<'_> {
    ghost output = { λ it. Some (spec.kind_object (codes "cause") (spec.cause_members (cause_in it.0))) };

    fn fmt<W: fmt::Write>(&self, f: &mut fmt::Formatter<W>) -> fmt::Result {
        let why = Quoted(self.0.why);
        let length = self.0.message.len();
        let message = QuotedHex(self.0.message);
        let field = self.0.field;
        let old = FieldObject(&field.old);
        let new = FieldObject(&field.new);
        let others = StepsArray(self.0.others);
        write!(f, "{{\"kind\":\"cause\",\"why\":{why},\"length\":{length},")?;
        write!(f, "\"message\":{message},\"number\":{},", field.number)?;
        write!(f, "\"old\":{old},\"new\":{new},\"others\":{others}}}")
    }
}

impl fmt::Display for SideString {
    ghost output = { λ it. Some (spec.side_string it.0) };

    #[tactic(auto, unfolding(crate::specs::Json::side_string, crate::specs::Json::word))]
    fn fmt<W: fmt::Write>(&self, f: &mut fmt::Formatter<W>) -> fmt::Result {
        write!(f, "\"{}\"", self.0)
    }
}

impl fmt::Display for CodeString {
    ghost output = { λ it. Some (spec.code_string it.0) };

    #[tactic(auto, unfolding(crate::specs::Json::code_string))]
    fn fmt<W: fmt::Write>(&self, f: &mut fmt::Formatter<W>) -> fmt::Result {
        write!(f, "\"E{}\"", self.0)
    }
}

impl fmt::Display for SideOrNull {
    ghost output = { λ it. Some (spec.side_or_null it.0) };

    #[tactic(auto, unfolding(crate::specs::Json::side_or_null))]
    fn fmt<W: fmt::Write>(&self, f: &mut fmt::Formatter<W>) -> fmt::Result {
        match self.0 {
            Some(side) => {
                let side = SideString(side);
                write!(f, "{side}")
            }
            None => write!(f, "null"),
        }
    }
}

impl fmt::Display for RefusalObject<'_> {
    ghost output = { λ it. Some (spec.kind_object (codes "refused") (spec.refusal_members it.0.now)) };

    fn fmt<W: fmt::Write>(&self, f: &mut fmt::Formatter<W>) -> fmt::Result {
        let side = SideOrNull(self.0.side);
        let code = CodeString(self.0.code);
        let says = Quoted(sentence_of(self.0.code));
        let spot = spot_of(&self.0.location);
        let file = QuotedOrNull(spot.file);
        let line = NumberOrNull(spot.line);
        let column = NumberOrNull(spot.column);
        let byte = NumberOrNull(spot.byte);
        let old = QuotedOrNull(spot.old);
        let new = QuotedOrNull(spot.new);
        let number = NumberOrNull(spot.number);
        let case = NumberOrNull(spot.case);
        write!(f, "{{\"kind\":\"refused\",\"side\":{side},\"code\":{code},")?;
        write!(f, "\"file\":{file},\"line\":{line},\"column\":{column},")?;
        write!(f, "\"byte\":{byte},\"old\":{old},\"new\":{new},")?;
        write!(f, "\"number\":{number},\"case\":{case},\"says\":{says}}}")
    }
}

/// Writes a line of that kind with a type.
fn write_type<W: Write>(f: &mut Formatter<W>, kind: &str, name: &str) -> fmt::Result
    ensures { WritesOnOk W.write_str_gives f.old result
        (spec.kind_object kind.now (spec.type_member name.now ∷ [])) f.new }
{
    let name = Quoted(name);
    write!(f, "{{\"kind\":\"{kind}\",\"type\":{name}}}")
}

/// Writes a line of that kind with a type and a length.
fn write_length<W: Write>(
    f: &mut Formatter<W>,
    kind: &str,
    name: &str,
    length: usize,
) -> fmt::Result
    ensures { WritesOnOk W.write_str_gives f.old result
        (spec.kind_object kind.now (spec.type_member name.now ∷ spec.length_member length ∷ []))
        f.new }
{
    let name = Quoted(name);
    write!(
        f,
        "{{\"kind\":\"{kind}\",\"type\":{name},\"length\":{length}}}"
    )
}

/// Writes a line of that kind with a text.
fn write_text<W: Write>(f: &mut Formatter<W>, kind: &str, text: &str) -> fmt::Result
    ensures { WritesOnOk W.write_str_gives f.old result
        (spec.kind_object kind.now (spec.text_member text.now ∷ [])) f.new }
{
    let text = Quoted(text);
    write!(f, "{{\"kind\":\"{kind}\",\"text\":{text}}}")
}

/// Writes a step.
fn write_step<W: Write>(f: &mut Formatter<W>, step: &Step) -> fmt::Result
    ensures { WritesOnOk W.write_str_gives f.old result
        (spec.kind_object (codes "step") (spec.step_members step.now)) f.new }
{
    let number = step.number;
    let old = FieldObject(&step.old);
    let new = FieldObject(&step.new);
    write!(
        f,
        "{{\"kind\":\"step\",\"number\":{number},\"old\":{old},\"new\":{new}}}"
    )
}

/// Writes a reading.
fn write_reading<W: Write>(f: &mut Formatter<W>, side: Side, text: &str) -> fmt::Result
    ensures { WritesOnOk W.write_str_gives f.old result
        (spec.line_object (reading side text.now)) f.new }
{
    let side = SideString(side);
    let text = Quoted(text);
    write!(
        f,
        "{{\"kind\":\"reading\",\"side\":{side},\"text\":{text}}}"
    )
}

impl fmt::Display for Json<'_> {
    ghost output = { λ it. Some (spec.line_object (line_of it.0.now)) };

    fn fmt<W: fmt::Write>(&self, f: &mut fmt::Formatter<W>) -> fmt::Result {
        match *self.0 {
            Line::Compatible { name } => write_type(f, "compatible", name),
            Line::Breaks { name, length } => write_length(f, "breaks", name, length),
            Line::Bound { name, length } => write_length(f, "bound", name, length),
            Line::Witness(message) => {
                let message = QuotedHex(message);
                write!(f, "{{\"kind\":\"witness\",\"message\":{message}}}")
            }
            Line::Step(step) => write_step(f, step),
            Line::Forward => write!(f, "{{\"kind\":\"forward\"}}"),
            Line::Backward => write!(f, "{{\"kind\":\"backward\"}}"),
            Line::Reading(side, text) => write_reading(f, side, text),
            Line::Cause(cause) => {
                let cause = CauseObject(cause);
                write!(f, "{cause}")
            }
            Line::Name(listed, name) => write_type(f, listed.kind(), name),
            Line::Note(note) => {
                let note = NoteObject(note);
                write!(f, "{note}")
            }
            Line::Certificate(text) => write_text(f, "certificate", text),
            Line::Shown(text) => write_text(f, "shown", text),
            Line::Refused(refusal) => {
                let refusal = RefusalObject(refusal);
                write!(f, "{refusal}")
            }
        }
    }
}
