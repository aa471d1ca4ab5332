//! Messages that are made of contents, one by one or as a whole.
use crate::contents::{name_of, spelled_content, spelled_message};
use crate::draft::contents_of;
use crate::reading::{copied, written};
use crate::types::FIRST;
use pg_dyn::{Content, DynError, Message, fits};
use pg_schema::Schema;
use std::alloc::Global;

/// Sets a content of a message that fits; of one that doesn't the call answers `TooLong`.
pub(crate) fn set(
    schema: &Schema,
    message: &mut Message,
    number: u32,
    content: Content,
) -> Result<(), (DynError, Content)> {
    if fits(schema, message) {
        message.set(schema, number, content)
    } else {
        Err((DynError::TooLong, content))
    }
}

/// Sets the contents in turn, up to one that is refused.
pub(crate) fn set_each(
    schema: &Schema,
    message: &mut Message,
    contents: Vec<(u32, Content)>,
) -> Result<(), (DynError, Content)> {
    for (number, content) in contents {
        set(schema, message, number, content)?;
    }
    Ok(())
}

/// A refusal, the content that came back, and the bytes of the message as it is.
fn refused(
    alloc: Global,
    schema: &Schema,
    message: &Message,
    error: DynError,
    back: &Content,
) -> Result<String, DynError> {
    let name = name_of(alloc, error)?;
    let back = spelled_content(alloc, back)?;
    let written = written(alloc, schema, message)?;
    Ok(format!(in alloc; "{name} {back} {written}")?)
}

/// The bytes of the message, or what is shown of a refusal.
pub(crate) fn shown(
    alloc: Global,
    schema: &Schema,
    message: &Message,
    found: Result<(), (DynError, Content)>,
) -> Result<String, DynError> {
    match found {
        Ok(()) => written(alloc, schema, message),
        Err((error, back)) => refused(alloc, schema, message, error, &back),
    }
}

/// The bytes of the message that comes of setting the contents in turn.
fn written_of(
    alloc: Global,
    schema: &Schema,
    contents: Vec<(u32, Content)>,
) -> Result<String, DynError> {
    let mut message = Message::empty(alloc, FIRST);
    let found = set_each(schema, &mut message, contents);
    shown(alloc, schema, &message, found)
}

/// What the message holds that comes of setting the contents in turn.
fn held_of(
    alloc: Global,
    schema: &Schema,
    contents: Vec<(u32, Content)>,
) -> Result<String, DynError> {
    let mut message = Message::empty(alloc, FIRST);
    match set_each(schema, &mut message, contents) {
        Ok(()) => Ok(spelled_message(alloc, &message)?),
        Err((error, _)) => Err(error),
    }
}

/// The bytes of the message of just these contents.
fn whole_of(
    alloc: Global,
    schema: &Schema,
    contents: Vec<(u32, Content)>,
) -> Result<String, DynError> {
    if !schema.has(FIRST) {
        return Err(DynError::NoSuchField);
    }
    let message = Message::whole(alloc, schema, FIRST, contents)?;
    written(alloc, schema, &message)
}

/// The bytes of the copy of the message of just these contents.
fn copy_of(
    alloc: Global,
    schema: &Schema,
    contents: Vec<(u32, Content)>,
) -> Result<String, DynError> {
    if !schema.has(FIRST) {
        return Err(DynError::NoSuchField);
    }
    let message = Message::whole(alloc, schema, FIRST, contents)?;
    copied(alloc, schema, &message)
}

/// What a call makes of the contents that words spell.
pub(crate) fn answer_of_contents(
    alloc: Global,
    schema: &Schema,
    call: &str,
    words: &str,
) -> Result<String, DynError> {
    let contents = contents_of(alloc, schema, words)?;
    match call {
        "set" => written_of(alloc, schema, contents),
        "hold" => held_of(alloc, schema, contents),
        "whole" => whole_of(alloc, schema, contents),
        _ => copy_of(alloc, schema, contents),
    }
}
