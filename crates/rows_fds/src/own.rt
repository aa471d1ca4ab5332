//! The written schema of descriptor sets itself.
use crate::sets::quoted;
use kit_rows::{bytes_of, number_of};
use pg_dyn::{DynError, Message, decode, encode, fits};
use pg_fds::descriptor_schema;
use pg_schema::{Field, Schema, TypeId};
use std::alloc::{AllocError, Global};

/// The type of a whole set.
const SET: TypeId = TypeId { index: 0 };

fn names_in(alloc: Global, schema: &Schema) -> Result<String, AllocError> {
    let mut names = String::new(alloc);
    for message_type in &schema.parts().types {
        names.push_str(&message_type.name)?;
        names.push(' ')?;
    }
    Ok(names)
}

/// The names of the schema's message types.
pub(crate) fn names_of_types(alloc: Global) -> Result<String, AllocError> {
    names_in(alloc, &descriptor_schema(alloc)?)
}

fn field_of<'a>(schema: &'a Schema, message: &str, number: u32) -> Option<&'a Field> {
    schema.field(schema.message(message)?, number)
}

fn name_of_field<'a>(schema: &'a Schema, message: &str, number: u32) -> &'a str {
    match field_of(schema, message, number) {
        Some(field) => field.name.as_str(),
        None => "none",
    }
}

/// `field MESSAGE NUMBER`: the name of that field.
pub(crate) fn name_of(alloc: Global, words: &str) -> Result<String, AllocError> {
    let (message, number) = words.split_once(' ').unwrap_or((words, ""));
    let schema = descriptor_schema(alloc)?;
    String::from_str(alloc, name_of_field(&schema, message, number_of(number)))
}

/// The bytes of the set, where it has no unknown records.
fn written(alloc: Global, schema: &Schema, set: &Message) -> Result<Option<Vec<u8>>, DynError> {
    if fits(schema, set) && set.unknown().is_empty() {
        Ok(Some(encode(alloc, schema, set)?))
    } else {
        Ok(None)
    }
}

fn read_and_written(
    alloc: Global,
    schema: &Schema,
    bytes: &[u8],
) -> Result<Option<Vec<u8>>, DynError> {
    if !schema.has(SET) {
        return Err(DynError::NoSuchField);
    }
    let set = decode(alloc, schema, SET, bytes, 100)?;
    written(alloc, schema, &set)
}

/// What is shown of the bytes that were written.
fn shown(alloc: Global, found: &Result<Option<Vec<u8>>, DynError>) -> Result<String, AllocError> {
    match found {
        Ok(Some(bytes)) => quoted(alloc, bytes),
        Ok(None) => String::from_str(alloc, "not known whole"),
        Err(DynError::Memory) => Err(AllocError),
        Err(_) => String::from_str(alloc, "no message"),
    }
}

fn of_bytes(alloc: Global, bytes: &[u8]) -> Result<String, AllocError> {
    let schema = descriptor_schema(alloc)?;
    shown(alloc, &read_and_written(alloc, &schema, bytes))
}

/// `decoded SET`: the bytes that are written of the set, once it is read as a message of the
/// schema.
pub(crate) fn decoded(alloc: Global, spelled: &str) -> Result<String, AllocError> {
    of_bytes(alloc, &bytes_of(alloc, spelled)?)
}
