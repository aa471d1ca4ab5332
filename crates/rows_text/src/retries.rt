//! Rows that are answered again where memory is refused.
use crate::answer::answer_of;
use crate::parts::{parts_of, shown_made};
use kit_rows::{cut, retry, say, unrolled};
use pg_schema::{Parts, PartsError, Schema};
use std::alloc::AllocError;
use std::io;

/// What `from_parts` makes of the parts; where it lacks memory, of those that came back.
fn made(rt: &HostRuntime, parts: Parts) -> io::Result<Result<Schema, (PartsError, Parts)>> {
    match Schema::from_parts(rt.alloc(), parts) {
        Err((PartsError::Memory, back)) => {
            println!(rt; "Memory {}", back.types.len())?;
            Ok(Schema::from_parts(rt.alloc(), back))
        }
        found => Ok(found),
    }
}

/// `parts | from_parts | PIECES`: with the same parts both times.
fn of_parts(rt: &HostRuntime, parts: Parts) -> io::Result<String> {
    say(rt, "ready")?;
    let found = made(rt, parts)?;
    say(rt, "done")?;
    Ok(shown_made(rt.alloc(), found)?)
}

fn again(rt: &HostRuntime, kind: &str, input: &str) -> io::Result<String> {
    Ok(retry!(rt, Err(AllocError), answer_of(rt.alloc(), kind, input))?)
}

/// Answers the row that follows `retry `, and prints what comes in front of the answer
/// (`kit_rows::retry`).
pub fn answer(rt: &HostRuntime, input: &str) -> io::Result<String> {
    let input = unrolled(rt.alloc(), input)?;
    let (kind, input) = cut(&input);
    match input.strip_prefix("from_parts | ") {
        Some(spelled) if kind == "parts" => of_parts(rt, parts_of(rt.alloc(), spelled)?),
        _ => again(rt, kind, input),
    }
}
