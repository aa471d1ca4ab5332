//! The parts of a schema, and schemas.
use crate::message::{message, name_of};
use pg_schema::{
    EnumId, EnumOptions, EnumType, EnumValue, EnumValueOptions, File, MessageType, Parts,
    PartsError, Schema, TypeId,
};
use std::alloc::{AllocError, Global};

// The list of that item alone.
fn one<T: Drop>(alloc: Global, item: T) -> Result<Vec<T>, AllocError> {
    let mut list = Vec::new(alloc);
    list.push(item)?;
    Ok(list)
}

// The values that a line gives `E` before its types, and the line without them.
fn cut_values(line: &str) -> (&str, &str) {
    match line.strip_prefix("E: ") {
        Some(rest) => rest.split_once("; ").unwrap_or((rest, "")),
        None => ("Z=0", line),
    }
}

// `Z = 0;` of `Z=0`.
fn value_of(alloc: Global, text: &str) -> Result<EnumValue, AllocError> {
    let (name, number) = text.split_once('=').unwrap_or((text, ""));
    Ok(EnumValue {
        name: String::from_str(alloc, name)?,
        number: number.parse().unwrap_or(0),
        options: EnumValueOptions { deprecated: None },
    })
}

fn values_of(alloc: Global, text: &str) -> Result<Vec<EnumValue>, AllocError> {
    let mut values = Vec::new(alloc);
    for value in text.split(", ") {
        values.push(value_of(alloc, value)?)?;
    }
    Ok(values)
}

// `enum E { Z = 0; }` of `Z=0`.
fn enums_of(alloc: Global, text: &str) -> Result<Vec<EnumType>, AllocError> {
    let enum_type = EnumType {
        name: String::from_str(alloc, "E")?,
        values: values_of(alloc, text)?,
        reserved_numbers: Vec::new(alloc),
        reserved_names: Vec::new(alloc),
        options: EnumOptions {
            // A line may give a number two names.
            allow_alias: Some(true),
            deprecated: None,
        },
    };
    one(alloc, enum_type)
}

fn names_of(alloc: Global, line: &str) -> Result<Vec<&str>, AllocError> {
    let mut names = Vec::new(alloc);
    for text in line.split("; ") {
        names.push(name_of(text))?;
    }
    Ok(names)
}

fn messages_of(alloc: Global, names: &[&str], line: &str) -> Result<Vec<MessageType>, AllocError> {
    let mut types = Vec::new(alloc);
    for text in line.split("; ") {
        let message = message(alloc, names, text)?;
        types.push(message)?;
    }
    Ok(types)
}

fn types_of(alloc: Global, line: &str) -> Result<Vec<MessageType>, AllocError> {
    let names = names_of(alloc, line)?;
    messages_of(alloc, &names, line)
}

// The indexes of the types, in their order.
fn places_of(alloc: Global, types: &[MessageType]) -> Result<Vec<TypeId>, AllocError> {
    let mut places = Vec::new(alloc);
    let mut index = 0_u32;
    for _ in types {
        places.push(TypeId { index })?;
        index = index.saturating_add(1);
    }
    Ok(places)
}

fn files_of(alloc: Global, types: &[MessageType]) -> Result<Vec<File>, AllocError> {
    let file = File {
        name: String::from_str(alloc, "m.proto")?,
        package: String::new(alloc),
        imports: Vec::new(alloc),
        types: places_of(alloc, types)?,
        enums: one(alloc, EnumId { index: 0 })?,
        services: Vec::new(alloc),
        options: Vec::new(alloc),
    };
    one(alloc, file)
}

fn parts_of(alloc: Global, line: &str) -> Result<Parts, AllocError> {
    let (values, line) = cut_values(line);
    let types = types_of(alloc, line)?;
    Ok(Parts {
        files: files_of(alloc, &types)?,
        types,
        enums: enums_of(alloc, values)?,
        services: Vec::new(alloc),
    })
}

/// The schema that the line spells; `None` where it spells none.
pub fn schema(alloc: Global, line: &str) -> Result<Option<Schema>, AllocError> {
    let parts = parts_of(alloc, line)?;
    match Schema::from_parts(alloc, parts) {
        Ok(schema) => Ok(Some(schema)),
        Err((PartsError::Memory, _)) => Err(AllocError),
        Err((PartsError::Invariant, _)) => Ok(None),
    }
}

/// The schemas that two lines spell; `None` where one of them spells none.
pub fn schemas(
    alloc: Global,
    old: &str,
    new: &str,
) -> Result<Option<(Schema, Schema)>, AllocError> {
    let old = schema(alloc, old)?;
    let new = schema(alloc, new)?;
    Ok(old.zip(new))
}
