//! Which lines an answer has, and how they are printed.
ghost use Rattle.std.specs.Prelude.{◌≡◌, ◌++◌, IfOk, OnOk, map, string_bytes};
ghost use Rattle.std.specs.List.{flat_map};
ghost use Rattle.pg_lines.specs.Json.{json_of};
ghost use Rattle.pg_lines.specs.Line.{cause_in, line_of, lines_in, note, step, words_of};
ghost use Rattle.pg_gate.specs.print.Lines as spec;

use crate::answer::all_types::{AllTypes, PlacedCause};
use crate::answer::verified::Verified;
use crate::print::reply::{Finding, Readings, Reply};
use pg_causes::{Reason, TypeLine};
use pg_cert::Verdict;
use pg_lines::{Line, Listed, PlacedNote, PlainCause, Side, Step, json_of, words_of};
use std::alloc::{AllocError, Global};

/// Adds the lines of the fields on a witness's path.
fn add_steps<'a>(lines: &mut Vec<Line<'a>>, steps: &'a [Step]) -> Result<(), AllocError>
    ensures { OnOk result (lines_in lines.new.items
        ≡ lines_in lines.old.items ++ map step steps.now) }
{
    for step in steps {
        lines.push(Line::Step(step))?;
    }
    Ok(())
}

/// Adds the readings, where there are some.
fn add_readings<'a>(
    lines: &mut Vec<Line<'a>>,
    readings: &'a Option<Readings>,
) -> Result<(), AllocError>
    ensures { OnOk result (lines_in lines.new.items
        ≡ lines_in lines.old.items ++ spec.readings_lines readings.now) }
{
    let Some(readings) = readings else {
        return Ok(());
    };
    lines.push(Line::Reading(Side::Old, readings.old.as_str()))?;
    lines.push(Line::Reading(Side::New, readings.new.as_str()))?;
    Ok(())
}

/// What a certificate shows.
fn verified_line(verified: &Verified) -> Line<'_>
    ensures { line_of result ≡ spec.verified_line verified.now }
{
    let name = verified.name.as_str();
    match verified.verdict {
        Verdict::Compatible => Line::Compatible { name },
        Verdict::Breaks => Line::Breaks {
            name,
            length: verified.length,
        },
        Verdict::AtLeast(bytes) => Line::Bound {
            name,
            length: bytes as usize,
        },
    }
}

/// Adds what is found of the types of this name. A certificate names its own.
fn add_finding<'a>(
    lines: &mut Vec<Line<'a>>,
    root: &'a str,
    finding: &'a Finding,
) -> Result<(), AllocError>
    ensures { OnOk result (lines_in lines.new.items
        ≡ lines_in lines.old.items ++ spec.finding_lines root.now finding.now) }
{
    match finding {
        Finding::Compatible => lines.push(Line::Compatible { name: root })?,
        Finding::Breaks {
            witness,
            steps,
            readings,
        } => {
            lines.push(Line::Breaks {
                name: root,
                length: witness.len(),
            })?;
            lines.push(Line::Witness(witness))?;
            add_steps(lines, steps)?;
            add_readings(lines, readings)?;
        }
        Finding::Certified { text, .. } => lines.push(Line::Certificate(text.as_str()))?,
        Finding::Verified(verified) => lines.push(verified_line(verified))?,
    }
    Ok(())
}

/// Adds what is found forward, and with the sides exchanged.
fn add_both<'a>(
    lines: &mut Vec<Line<'a>>,
    root: &'a str,
    forward: &'a Finding,
    backward: &'a Finding,
) -> Result<(), AllocError>
    ensures { OnOk result (lines_in lines.new.items
        ≡ lines_in lines.old.items ++ spec.both_lines root.now forward.now backward.now) }
{
    lines.push(Line::Forward)?;
    add_finding(lines, root, forward)?;
    lines.push(Line::Backward)?;
    add_finding(lines, root, backward)
}

/// The word of a reason.
fn reason_word(reason: Reason) -> &'static str
    ensures { result.now ≡ spec.reason_word reason }
{
    match reason {
        Reason::Unlike => "unlike",
        Reason::Value => "value",
        Reason::Name => "name",
        Reason::ListToOne => "list-to-one",
        Reason::Map => "map",
        Reason::MapKey => "map-key",
        Reason::MapValue => "map-value",
        Reason::Oneof => "oneof",
    }
}

/// A cause, as it is printed.
fn plain_cause(placed: &PlacedCause) -> PlainCause<'_>
    ensures { cause_in result ≡ spec.plain_cause placed.now }
{
    PlainCause {
        why: reason_word(placed.cause.reason),
        message: &placed.cause.message,
        field: &placed.field,
        others: &placed.others,
    }
}

/// Adds each cause, with its readings.
fn add_causes<'a>(lines: &mut Vec<Line<'a>>, causes: &'a [PlacedCause]) -> Result<(), AllocError>
    ensures { OnOk result (lines_in lines.new.items
        ≡ lines_in lines.old.items ++ flat_map spec.cause_lines causes.now) }
{
    for cause in causes {
        lines.push(Line::Cause(plain_cause(cause)))?;
        add_readings(lines, &cause.readings)?;
    }
    Ok(())
}

/// What is found of a type that both sides declare.
fn type_line(line: &TypeLine) -> Line<'_>
    ensures { line_of result ≡ spec.type_line (string_bytes line.now.name) line.now.bound }
{
    let name = line.name.as_str();
    match line.bound {
        Some(length) => Line::Breaks {
            name,
            length: length as usize,
        },
        None => Line::Compatible { name },
    }
}

/// Adds what is found of each type.
fn add_types<'a>(lines: &mut Vec<Line<'a>>, types: &'a [TypeLine]) -> Result<(), AllocError>
    ensures { OnOk result (lines_in lines.new.items
        ≡ lines_in lines.old.items ++ spec.type_lines types.now) }
{
    for line in types {
        lines.push(type_line(line))?;
    }
    Ok(())
}

/// Adds a line for each name.
fn add_names<'a>(
    lines: &mut Vec<Line<'a>>,
    listed: Listed,
    names: &'a [String],
) -> Result<(), AllocError>
    ensures { OnOk result (lines_in lines.new.items
        ≡ lines_in lines.old.items ++ spec.name_lines listed names.now) }
{
    for name in names {
        lines.push(Line::Name(listed, name.as_str()))?;
    }
    Ok(())
}

/// Adds each note.
fn add_notes<'a>(lines: &mut Vec<Line<'a>>, notes: &'a [PlacedNote]) -> Result<(), AllocError>
    ensures { OnOk result (lines_in lines.new.items
        ≡ lines_in lines.old.items ++ map note notes.now) }
{
    for note in notes {
        lines.push(Line::Note(note))?;
    }
    Ok(())
}

/// Adds what is found of all message types, and what is noted beside.
fn add_all<'a>(lines: &mut Vec<Line<'a>>, all: &'a AllTypes) -> Result<(), AllocError>
    ensures { OnOk result (lines_in lines.new.items
        ≡ lines_in lines.old.items ++ spec.all_lines all.now) }
{
    add_causes(lines, &all.causes)?;
    add_types(lines, &all.types)?;
    add_names(lines, Listed::Removed, &all.removed)?;
    add_names(lines, Listed::Added, &all.added)?;
    add_notes(lines, &all.notes)
}

/// The lines of a reply for the root types of this name. A descriptor set has none.
fn lines_of<'a>(alloc: Global, root: &'a str, reply: &'a Reply) -> Result<Vec<Line<'a>>, AllocError>
    ensures { IfOk result (λ lines. lines_in lines.items ≡ spec.lines_of root.now reply.now) }
{
    let mut lines = Vec::new(alloc);
    match reply {
        Reply::Set(_) => {}
        Reply::Shown(text) => lines.push(Line::Shown(text.as_str()))?,
        Reply::Found(finding) => add_finding(&mut lines, root, finding)?,
        Reply::Both { forward, backward } => add_both(&mut lines, root, forward, backward)?,
        Reply::All(all) => add_all(&mut lines, all)?,
        Reply::Types(names) => add_names(&mut lines, Listed::Declared, names)?,
        Reply::Refused(refusal) => lines.push(Line::Refused(refusal))?,
    }
    Ok(lines)
}

/// The words of a reply's lines, for the root types of this name.
pub(crate) fn words_for(alloc: Global, root: &str, reply: &Reply) -> Result<String, AllocError>
    ensures { IfOk result (λ text. string_bytes text
        ≡ flat_map words_of (spec.lines_of root.now reply.now)) }
{
    let lines = lines_of(alloc, root, reply)?;
    words_of(alloc, &lines)
}

/// A reply's lines as JSON, for the root types of this name.
pub(crate) fn json_for(alloc: Global, root: &str, reply: &Reply) -> Result<String, AllocError>
    ensures { IfOk result (λ text. string_bytes text
        ≡ flat_map json_of (spec.lines_of root.now reply.now)) }
{
    let lines = lines_of(alloc, root, reply)?;
    json_of(alloc, &lines)
}
