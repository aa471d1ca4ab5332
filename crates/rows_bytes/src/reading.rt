//! What is made of bytes by a type.
use crate::beside::is_alike;
use crate::contents::{spelled_message, word};
use crate::setting::set;
use crate::types::{FIRST, Types};
use pg_dyn::{
    Content, DynError, Message, MessageRef, Value, decode, decode_ref, decode_ref_unlimited,
    encode, encode_ref, encode_unshared_ref, fits,
};
use pg_schema::Schema;
use pg_show::{HexError, bytes_of_hex, show};
use std::alloc::{AllocError, Global};

fn text(alloc: Global, text: &str) -> Result<String, DynError> {
    Ok(String::from_str(alloc, text)?)
}

fn word_of(alloc: Global, bytes: &[u8]) -> Result<String, DynError> {
    Ok(word(alloc, bytes)?)
}

fn answer(alloc: Global, holds: bool) -> Result<String, DynError> {
    text(alloc, if holds { "true" } else { "false" })
}

/// The message; `WrongKind` where the one that borrows shows other things or is copied as another.
fn like(
    alloc: Global,
    schema: &Schema,
    lent: &MessageRef<'_>,
    message: Message,
) -> Result<Message, DynError> {
    if !is_alike(lent, &message) || !is_copied(alloc, schema, lent, &message)? {
        return Err(DynError::WrongKind);
    }
    Ok(message)
}

/// Whether the copy of a message that borrows is the other message.
fn is_copied(
    alloc: Global,
    schema: &Schema,
    lent: &MessageRef<'_>,
    message: &Message,
) -> Result<bool, DynError> {
    let copy = lent.to_message(alloc)?;
    if !is_alike(lent, &copy) {
        return Ok(false);
    }
    is_written_as(alloc, schema, &copy, message)
}

/// Whether the same is written of both messages.
fn is_written_as(
    alloc: Global,
    schema: &Schema,
    first: &Message,
    second: &Message,
) -> Result<bool, DynError> {
    let first = written(alloc, schema, first)?;
    let second = written(alloc, schema, second)?;
    Ok(first == second)
}

/// Why neither of two readers reads bytes: `WrongKind` where they give other reasons, unless one of
/// them lacks memory.
fn common(lent: Option<DynError>, owned: Option<DynError>) -> DynError {
    match (lent, owned) {
        (Some(DynError::Memory), _) | (_, Some(DynError::Memory)) => DynError::Memory,
        (Some(lent), Some(owned)) if lent == owned => owned,
        _ => DynError::WrongKind,
    }
}

/// The message of two readers, or why there is none: `WrongKind` where the one whose messages
/// borrow answers otherwise, or gives another message.
fn agreed(
    alloc: Global,
    schema: &Schema,
    lent: Result<MessageRef<'_>, DynError>,
    owned: Result<Message, DynError>,
) -> Result<Message, DynError> {
    match (lent, owned) {
        (Ok(lent), Ok(message)) => like(alloc, schema, &lent, message),
        (lent, owned) => Err(common(lent.err(), owned.err())),
    }
}

/// The message that both readers read bytes as, or why there is none.
fn read(alloc: Global, schema: &Schema, bytes: &[u8], limit: usize) -> Result<Message, DynError> {
    if !schema.has(FIRST) {
        return Err(DynError::NoSuchField);
    }
    let lent = decode_ref(alloc, schema, FIRST, bytes, limit);
    let owned = decode(alloc, schema, FIRST, bytes, limit);
    agreed(alloc, schema, lent, owned)
}

/// The bytes of a message that fits the schema; of one that doesn't fit `WrongKind`.
pub(crate) fn written(
    alloc: Global,
    schema: &Schema,
    message: &Message,
) -> Result<String, DynError> {
    if !fits(schema, message) {
        return Err(DynError::WrongKind);
    }
    let bytes = encode(alloc, schema, message)?;
    word_of(alloc, &bytes)
}

/// What is written again of bytes that are read, by a message that borrows from them.
fn rewritten_lent(alloc: Global, schema: &Schema, bytes: &[u8]) -> Result<String, DynError> {
    if !schema.has(FIRST) {
        return Err(DynError::NoSuchField);
    }
    let message = decode_ref(alloc, schema, FIRST, bytes, 100)?;
    let bytes = encode_ref(alloc, schema, &message)?;
    word_of(alloc, &bytes)
}

/// What is written again of bytes that both readers read; of a message that borrows from them it is
/// the same.
fn rewritten(alloc: Global, schema: &Schema, bytes: &[u8]) -> Result<String, DynError> {
    let message = read(alloc, schema, bytes, 100)?;
    let owned = written(alloc, schema, &message)?;
    let lent = rewritten_lent(alloc, schema, bytes)?;
    if owned != lent {
        return text(alloc, "written otherwise where it borrows");
    }
    Ok(owned)
}

/// What is written again of bytes that are read, or `refused` where they have any fault.
fn again(alloc: Global, schema: &Schema, bytes: &[u8]) -> Result<String, DynError> {
    match rewritten(alloc, schema, bytes) {
        Err(DynError::Wire(_) | DynError::NotUtf8 { .. } | DynError::TooDeep { .. }) => {
            text(alloc, "refused")
        }
        found => found,
    }
}

/// What is written again of bytes, or a complaint where another runtime makes the same of them.
fn apart(alloc: Global, schema: &Schema, bytes: &[u8], theirs: &str) -> Result<String, DynError> {
    let found = again(alloc, schema, bytes)?;
    if found.as_str() == theirs {
        return text(alloc, "as another runtime");
    }
    Ok(found)
}

/// Whether bytes are read within a limit of depth.
fn within(alloc: Global, schema: &Schema, bytes: &[u8], limit: &str) -> Result<String, DynError> {
    let limit = limit.parse::<usize>().unwrap_or(100);
    let _message = read(alloc, schema, bytes, limit)?;
    text(alloc, "read")
}

/// The contents that are read.
fn contents(alloc: Global, schema: &Schema, bytes: &[u8]) -> Result<String, DynError> {
    let message = read(alloc, schema, bytes, 100)?;
    Ok(spelled_message(alloc, &message)?)
}

fn plain(alloc: Global, schema: &Schema, bytes: &[u8]) -> Result<String, DynError> {
    let message = read(alloc, schema, bytes, 100)?;
    answer(alloc, message.is_plain())
}

/// The bytes of a message that fits, written and read again: of its copy.
pub(crate) fn copied(
    alloc: Global,
    schema: &Schema,
    message: &Message,
) -> Result<String, DynError> {
    if !fits(schema, message) {
        return Err(DynError::WrongKind);
    }
    let bytes = encode(alloc, schema, message)?;
    if !schema.has(message.type_id()) {
        return Err(DynError::NoSuchField);
    }
    let lent = decode_ref_unlimited(alloc, schema, message.type_id(), &bytes)?;
    written_copy(alloc, schema, &lent)
}

fn written_copy(alloc: Global, schema: &Schema, lent: &MessageRef<'_>) -> Result<String, DynError> {
    let copy = lent.to_message(alloc)?;
    written(alloc, schema, &copy)
}

/// What is written of the copy of a message.
fn copied_again(alloc: Global, schema: &Schema, bytes: &[u8]) -> Result<String, DynError> {
    let message = read(alloc, schema, bytes, 100)?;
    copied(alloc, schema, &message)
}

/// What is written of the copy of a message that is read without a limit of depth.
fn unlimited(alloc: Global, schema: &Schema, bytes: &[u8]) -> Result<String, DynError> {
    if !schema.has(FIRST) {
        return Err(DynError::NoSuchField);
    }
    let lent = decode_ref_unlimited(alloc, schema, FIRST, bytes);
    let owned = decode(alloc, schema, FIRST, bytes, usize::MAX);
    let message = agreed(alloc, schema, lent, owned)?;
    copied(alloc, schema, &message)
}

/// Whether a message is one of the other schema too.
fn of_both(
    alloc: Global,
    schema: &Schema,
    other: &Schema,
    bytes: &[u8],
) -> Result<String, DynError> {
    let message = read(alloc, schema, bytes, 100)?;
    answer(alloc, fits(other, &message))
}

/// What a schema writes of a message that borrows, where it is one of that schema; of its copy it
/// is the same.
fn written_lent(alloc: Global, schema: &Schema, lent: &MessageRef<'_>) -> Result<String, DynError> {
    let copy = lent.to_message(alloc)?;
    if !fits(schema, &copy) {
        return Err(DynError::WrongKind);
    }
    let bytes = encode_ref(alloc, schema, lent)?;
    same_word(alloc, &bytes, &encode(alloc, schema, &copy)?)
}

fn same_word(alloc: Global, lent: &[u8], owned: &[u8]) -> Result<String, DynError> {
    if lent != owned {
        return text(alloc, "written otherwise where it borrows");
    }
    word_of(alloc, lent)
}

/// What is written by the other schema of a message that borrows, where it is one of that too.
fn across(
    alloc: Global,
    schema: &Schema,
    other: &Schema,
    bytes: &[u8],
) -> Result<String, DynError> {
    if !schema.has(FIRST) {
        return Err(DynError::NoSuchField);
    }
    let lent = decode_ref(alloc, schema, FIRST, bytes, 100)?;
    written_lent(alloc, other, &lent)
}

/// What the other schema writes of an empty message in whose field 1 the message is set.
fn inside(
    alloc: Global,
    schema: &Schema,
    other: &Schema,
    bytes: &[u8],
) -> Result<String, DynError> {
    let child = read(alloc, schema, bytes, 100)?;
    let content = Content::One(Value::Msg(Box::new(alloc, child)?));
    let mut message = Message::empty(alloc, FIRST);
    let found = set(other, &mut message, 1, content);
    crate::setting::shown(alloc, other, &message, found)
}

/// What the other type doesn't have of a message.
fn outside(
    alloc: Global,
    schema: &Schema,
    other: &Schema,
    bytes: &[u8],
) -> Result<String, DynError> {
    if !schema.has(FIRST) {
        return Err(DynError::NoSuchField);
    }
    let message = decode_ref(alloc, schema, FIRST, bytes, 100)?;
    let bytes = encode_unshared_ref(alloc, schema, &message, other, FIRST)?;
    word_of(alloc, &bytes)
}

fn shown(alloc: Global, schema: &Schema, bytes: &[u8]) -> Result<String, DynError> {
    if !schema.has(FIRST) {
        return Err(DynError::NoSuchField);
    }
    let text = show(alloc, schema, FIRST, bytes)?;
    Ok(format!(in alloc; "{}", text.as_bytes().escape_ascii())?)
}

/// What a call makes of bytes, with another word or none.
fn found(
    alloc: Global,
    types: &Types,
    call: &str,
    beside: &str,
    bytes: &[u8],
) -> Result<String, DynError> {
    let (schema, other) = (&types.own, &types.other);
    match call {
        "again" => again(alloc, schema, bytes),
        "within" => within(alloc, schema, bytes, beside),
        "apart" => apart(alloc, schema, bytes, beside),
        "read" => contents(alloc, schema, bytes),
        "plain" => plain(alloc, schema, bytes),
        "copy" => copied_again(alloc, schema, bytes),
        "unlimited" => unlimited(alloc, schema, bytes),
        "fits" => of_both(alloc, schema, other, bytes),
        "across" => across(alloc, schema, other, bytes),
        "inside" => inside(alloc, schema, other, bytes),
        "outside" => outside(alloc, schema, other, bytes),
        _ => shown(alloc, schema, bytes),
    }
}

/// What a call makes of `[WORD] HEX`.
pub(crate) fn answer_of_bytes(
    alloc: Global,
    types: &Types,
    call: &str,
    input: &str,
) -> Result<String, DynError> {
    let (beside, spelled) = input.split_once(' ').unwrap_or(("", input));
    match bytes_of_hex(alloc, spelled) {
        Ok(bytes) => found(alloc, types, call, beside, &bytes),
        Err(HexError::Memory) => Err(DynError::Memory),
        Err(HexError::BadHex) => text(alloc, "no hexadecimal"),
    }
}
