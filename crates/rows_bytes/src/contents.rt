//! How messages and their contents are spelled.
use kit_rows::debug;
use pg_dyn::{Content, DynError, Message, UnknownRecord, Value};
use std::alloc::{AllocError, Global};

/// Bytes in hexadecimal, and no bytes as `-`.
pub(crate) fn word(alloc: Global, bytes: &[u8]) -> Result<String, AllocError> {
    if bytes.is_empty() {
        return String::from_str(alloc, "-");
    }
    hex::encode(alloc, bytes)
}

/// The name of an error, with its offset.
pub(crate) fn name_of(alloc: Global, error: DynError) -> Result<String, AllocError> {
    debug(alloc, &error)
}

fn spelled_bytes(alloc: Global, bytes: &[u8]) -> Result<String, AllocError> {
    let digits = hex::encode(alloc, bytes)?;
    format!(in alloc; "#{digits}")
}

/// An integer, `f` or `d` and the bits of a float or a double, `'` and a string, `#` and bytes, or
/// a message.
fn spelled_value(alloc: Global, value: &Value) -> Result<String, AllocError> {
    match value {
        Value::Int(number) => format!(in alloc; "{number}"),
        Value::F32(bits) => format!(in alloc; "f{bits}"),
        Value::F64(bits) => format!(in alloc; "d{bits}"),
        Value::Text(text) => format!(in alloc; "'{text}"),
        Value::Bytes(bytes) => spelled_bytes(alloc, bytes.as_slice()),
        Value::Msg(_) => String::from_str(alloc, "message"),
    }
}

/// The pieces with a space between them.
fn joined(alloc: Global, pieces: &[String]) -> Result<String, AllocError> {
    let mut text = String::new(alloc);
    for piece in pieces {
        if !text.is_empty() {
            text.push_str(" ")?;
        }
        text.push_str(piece.as_str())?;
    }
    Ok(text)
}

fn spelled_list(alloc: Global, values: &[Value]) -> Result<String, AllocError> {
    let mut pieces = Vec::new(alloc);
    for value in values {
        pieces.push(spelled_value(alloc, value)?)?;
    }
    joined(alloc, &pieces)
}

fn spelled_entry(alloc: Global, key: &Value, value: &Value) -> Result<String, AllocError> {
    let key = spelled_value(alloc, key)?;
    let value = spelled_value(alloc, value)?;
    format!(in alloc; "{key}:{value}")
}

fn spelled_entries(alloc: Global, entries: &[(Value, Value)]) -> Result<String, AllocError> {
    let mut pieces = Vec::new(alloc);
    for (key, value) in entries {
        pieces.push(spelled_entry(alloc, key, value)?)?;
    }
    joined(alloc, &pieces)
}

/// An item as it is, a list in brackets, and a map in braces.
pub(crate) fn spelled_content(alloc: Global, content: &Content) -> Result<String, AllocError> {
    match content {
        Content::One(value) => spelled_value(alloc, value),
        Content::Many(values) => format!(in alloc; "[{}]", spelled_list(alloc, values)?),
        Content::Map(entries) => format!(in alloc; "{{{}}}", spelled_entries(alloc, entries)?),
    }
}

fn spelled_field(alloc: Global, number: u32, content: &Content) -> Result<String, AllocError> {
    let content = spelled_content(alloc, content)?;
    format!(in alloc; "{number}={content}")
}

/// An unknown record's number, and where its body begins.
fn spelled_unknown(alloc: Global, record: &UnknownRecord) -> Result<String, AllocError> {
    format!(in alloc; "?{}:{}", record.number, record.body_start)
}

/// `NUMBER=CONTENT` for each field.
fn spelled_fields(alloc: Global, message: &Message) -> Result<Vec<String>, AllocError> {
    let mut pieces = Vec::new(alloc);
    for (number, content) in message.contents() {
        pieces.push(spelled_field(alloc, *number, content)?)?;
    }
    Ok(pieces)
}

/// `NUMBER=CONTENT` for each field, and `?NUMBER:START` for each unknown record; `-` where there
/// are none.
pub(crate) fn spelled_message(alloc: Global, message: &Message) -> Result<String, AllocError> {
    let mut pieces = spelled_fields(alloc, message)?;
    for record in message.unknown() {
        pieces.push(spelled_unknown(alloc, record)?)?;
    }
    if pieces.is_empty() {
        return String::from_str(alloc, "-");
    }
    joined(alloc, &pieces)
}
