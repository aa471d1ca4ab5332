//! Contents that are spelled by words, each of which takes what the words before it left: a value,
//! as `contents` spells it, or `M` and `N` for a message of the first and the second type with
//! nothing in it; `=5` makes the last value the content of field 5, `=5*` all values a list, and
//! `=5:` a map; and `message` makes a message of the last content alone, which is a value.
use crate::types::{FIRST, SECOND};
use pg_dyn::{Content, DynError, Message, Value};
use pg_schema::{Schema, TypeId};
use pg_show::{HexError, bytes_of_hex};
use std::alloc::{AllocError, Global};
use std::mem::replace;

/// What a word answers that spells nothing.
const UNSPELLED: DynError = DynError::TooLong;

fn boxed(alloc: Global, message: Message) -> Result<Value, DynError> {
    Ok(Value::Msg(Box::new(alloc, message)?))
}

fn empty(alloc: Global, type_id: TypeId) -> Result<Value, DynError> {
    boxed(alloc, Message::empty(alloc, type_id))
}

fn text(alloc: Global, text: &str) -> Result<Value, DynError> {
    Ok(Value::Text(String::from_str(alloc, text)?))
}

fn bytes(alloc: Global, digits: &str) -> Result<Value, DynError> {
    match bytes_of_hex(alloc, digits) {
        Ok(bytes) => Ok(Value::Bytes(bytes)),
        Err(HexError::Memory) => Err(DynError::Memory),
        Err(HexError::BadHex) => Err(UNSPELLED),
    }
}

fn number(spelled: &str) -> Result<Value, DynError> {
    match spelled.parse::<i128>() {
        Ok(number) => Ok(Value::Int(number)),
        Err(_) => Err(UNSPELLED),
    }
}

fn float(bits: &str) -> Result<Value, DynError> {
    match bits.parse::<u32>() {
        Ok(bits) => Ok(Value::F32(bits)),
        Err(_) => Err(UNSPELLED),
    }
}

fn double(bits: &str) -> Result<Value, DynError> {
    match bits.parse::<u64>() {
        Ok(bits) => Ok(Value::F64(bits)),
        Err(_) => Err(UNSPELLED),
    }
}

fn value_of(alloc: Global, spelled: &str) -> Result<Value, DynError> {
    if let Some(spelled) = spelled.strip_prefix("'") {
        return text(alloc, spelled);
    }
    if let Some(digits) = spelled.strip_prefix("#") {
        return bytes(alloc, digits);
    }
    if let Some(bits) = spelled.strip_prefix("f") {
        return float(bits);
    }
    if let Some(bits) = spelled.strip_prefix("d") {
        return double(bits);
    }
    match spelled {
        "M" => empty(alloc, FIRST),
        "N" => empty(alloc, SECOND),
        _ => number(spelled),
    }
}

/// Each two values as a key and a value.
fn paired(alloc: Global, values: Vec<Value>) -> Result<Content, DynError> {
    let mut entries = Vec::new(alloc);
    let mut key = None;
    for value in values {
        key = match key {
            Some(key) => {
                entries.push((key, value))?;
                None
            }
            None => Some(value),
        };
    }
    Ok(Content::Map(entries))
}

fn whole(
    alloc: Global,
    schema: &Schema,
    content: Option<(u32, Content)>,
) -> Result<Message, DynError> {
    let (true, Some(content)) = (schema.has(FIRST), content) else {
        return Err(UNSPELLED);
    };
    Message::whole(alloc, schema, FIRST, vec![in alloc; content]?)
}

/// The content that a word makes of the values.
fn content(alloc: Global, values: &mut Vec<Value>, spelled: &str) -> Result<Content, DynError> {
    if spelled.ends_with("*") {
        return Ok(Content::Many(replace(values, Vec::new(alloc))));
    }
    if spelled.ends_with(":") {
        return paired(alloc, replace(values, Vec::new(alloc)));
    }
    match values.pop() {
        Some(value) => Ok(Content::One(value)),
        None => Err(UNSPELLED),
    }
}

fn put_content(
    alloc: Global,
    values: &mut Vec<Value>,
    contents: &mut Vec<(u32, Content)>,
    spelled: &str,
) -> Result<(), DynError> {
    let content = content(alloc, values, spelled)?;
    match spelled
        .trim_end_matches("*")
        .trim_end_matches(":")
        .parse::<u32>()
    {
        Ok(number) => Ok(contents.push((number, content))?),
        Err(_) => Err(UNSPELLED),
    }
}

fn put_message(
    alloc: Global,
    schema: &Schema,
    values: &mut Vec<Value>,
    content: Option<(u32, Content)>,
) -> Result<(), DynError> {
    let value = boxed(alloc, whole(alloc, schema, content)?)?;
    Ok(values.push(value)?)
}

fn put_value(alloc: Global, values: &mut Vec<Value>, spelled: &str) -> Result<(), DynError> {
    let value = value_of(alloc, spelled)?;
    Ok(values.push(value)?)
}

/// What a word does with the values and the contents that no word has taken yet.
fn take(
    alloc: Global,
    schema: &Schema,
    values: &mut Vec<Value>,
    contents: &mut Vec<(u32, Content)>,
    word: &str,
) -> Result<(), DynError> {
    if word == "message" {
        return put_message(alloc, schema, values, contents.pop());
    }
    match word.strip_prefix("=") {
        Some(spelled) => put_content(alloc, values, contents, spelled),
        None => put_value(alloc, values, word),
    }
}

/// The contents that words spell.
pub(crate) fn contents_of(
    alloc: Global,
    schema: &Schema,
    words: &str,
) -> Result<Vec<(u32, Content)>, DynError> {
    let mut values = Vec::new(alloc);
    let mut contents = Vec::new(alloc);
    for word in words.split(' ') {
        take(alloc, schema, &mut values, &mut contents, word)?;
    }
    Ok(contents)
}
