//! Schemas of files, of which the first is the root.
mod code;

pub use code::refusal;
use kit_rows::{borrowed, cut, debug, files_of, number_of};
use pg_check::{CheckError, build};
use pg_link::{LinkError, Listed, link};
use pg_schema::{EnumId, EnumType, Field, MessageType, Parts, Schema, TypeId};
use std::alloc::{AllocError, Global};

fn shown(alloc: Global, parts: &Parts, asked: &str) -> Result<String, AllocError> {
    match asked {
        "count" => format!(in alloc; "{} types", parts.types.len()),
        "types" => debug(alloc, &parts.types),
        "enums" => debug(alloc, &parts.enums),
        "services" => debug(alloc, &parts.services),
        "files" => debug(alloc, &parts.files),
        _ => String::from_str(alloc, "taken"),
    }
}

fn name_of_type(found: Option<&MessageType>) -> &str {
    match found {
        Some(found) => found.name.as_str(),
        None => "none",
    }
}

fn name_of_enum(found: Option<&EnumType>) -> &str {
    match found {
        Some(found) => found.name.as_str(),
        None => "none",
    }
}

fn name_of_field(found: Option<&Field>) -> &str {
    match found {
        Some(found) => found.name.as_str(),
        None => "none",
    }
}

/// The name of the field that `INDEX NUMBER` spells: its message type and its number.
fn field<'a>(schema: &'a Schema, words: &str) -> &'a str {
    let (place, number) = words.split_once(' ').unwrap_or((words, ""));
    let index = number_of(place);
    name_of_field(schema.field(TypeId { index }, number_of(number)))
}

/// What the schema answers to a call by these words.
fn answered(alloc: Global, schema: &Schema, call: &str, words: &str) -> Result<String, AllocError> {
    let index = number_of(words);
    match call {
        "message" => debug(alloc, &schema.message(words)),
        "has" => debug(alloc, &schema.has(TypeId { index })),
        "type" => String::from_str(alloc, name_of_type(schema.message_type(TypeId { index }))),
        "enum" => {
            let index = index as usize;
            String::from_str(alloc, name_of_enum(schema.enum_type(EnumId { index })))
        }
        _ => String::from_str(alloc, field(schema, words)),
    }
}

fn of_schema(alloc: Global, schema: &Schema, asked: &str) -> Result<String, AllocError> {
    match asked.split_once(' ') {
        Some((call, words)) => answered(alloc, schema, call, words),
        None => shown(alloc, schema.parts(), asked),
    }
}

/// What is shown of a schema, or the refusal.
fn shown_schema(
    alloc: Global,
    found: Result<Schema, CheckError>,
    asked: &str,
) -> Result<String, AllocError> {
    match found {
        Ok(schema) => of_schema(alloc, &schema, asked),
        Err(error) => refusal(alloc, error),
    }
}

fn of_files(alloc: Global, files: &[(&str, &[u8])], asked: &str) -> Result<String, AllocError> {
    let root = files.first().map_or("", |file| file.0);
    match link(alloc, &mut Listed { files }, &[root]) {
        Ok(linked) => shown_schema(alloc, build(alloc, &linked), asked),
        Err(LinkError::Memory) => Err(AllocError),
        Err(_) => String::from_str(alloc, "not linked"),
    }
}

/// What is printed of the row.
pub fn answer(alloc: Global, input: &str) -> Result<String, AllocError> {
    let (spelled, asked) = cut(input);
    let files = files_of(alloc, spelled)?;
    of_files(alloc, &borrowed(alloc, &files)?, asked)
}
