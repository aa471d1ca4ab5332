//! The call that sets a content of a message.
use crate::contents::spelled_content;
use crate::draft::contents_of;
use crate::reading::written;
use crate::row::spelled;
use crate::setting::{set, set_each, shown};
use crate::types::FIRST;
use kit_rows::say;
use pg_dyn::{Content, DynError, Message};
use pg_schema::Schema;
use std::io;

/// Prints `Memory`, the content that came back, and the message as it is then.
fn say_back(
    rt: &HostRuntime,
    schema: &Schema,
    message: &Message,
    back: &Content,
) -> io::Result<()> {
    let back = spelled_content(rt.alloc(), back)?;
    let bytes = spelled(rt.alloc(), written(rt.alloc(), schema, message))?;
    println!(rt; "Memory {back} {bytes}")
}

/// Sets a content; where memory is refused, sets the one that came back.
fn set_last(
    rt: &HostRuntime,
    schema: &Schema,
    message: &mut Message,
    number: u32,
    content: Content,
) -> io::Result<Result<(), (DynError, Content)>> {
    match set(schema, message, number, content) {
        Err((DynError::Memory, back)) => {
            say_back(rt, schema, message, &back)?;
            Ok(set(schema, message, number, back))
        }
        found => Ok(found),
    }
}

/// What is shown of the message once the last content is set in it too.
fn with_last(
    rt: &HostRuntime,
    schema: &Schema,
    message: &mut Message,
    number: u32,
    content: Content,
) -> io::Result<String> {
    say(rt, "ready")?;
    let found = set_last(rt, schema, message, number, content)?;
    say(rt, "done")?;
    let shown = shown(rt.alloc(), schema, message, found);
    Ok(spelled(rt.alloc(), shown)?)
}

/// Sets all contents but the last, and then shows the message with the last one.
fn with_all(
    rt: &HostRuntime,
    schema: &Schema,
    mut contents: Vec<(u32, Content)>,
) -> io::Result<String> {
    let Some((number, last)) = contents.pop() else {
        return Ok(String::from_str(rt.alloc(), "no content")?);
    };
    let mut message = Message::empty(rt.alloc(), FIRST);
    match set_each(schema, &mut message, contents) {
        Ok(()) => with_last(rt, schema, &mut message, number, last),
        refused => Ok(spelled(rt.alloc(), shown(rt.alloc(), schema, &message, refused))?),
    }
}

/// `set WORDS`: the last content is set by a call that is made again where it lacks memory.
pub(super) fn answer(rt: &HostRuntime, schema: &Schema, words: &str) -> io::Result<String> {
    match contents_of(rt.alloc(), schema, words) {
        Ok(contents) => with_all(rt, schema, contents),
        Err(error) => Ok(spelled(rt.alloc(), Err(error))?),
    }
}
