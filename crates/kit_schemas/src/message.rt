//! A message type, spelled `NAME: FIELD, FIELD` or `NAME`.
use crate::field::field;
use pg_schema::{Field, MessageOptions, MessageType};
use std::alloc::{AllocError, Global};

/// The name of the type that the words spell.
pub(crate) fn name_of(text: &str) -> &str {
    text.split_once(": ").unwrap_or((text, "")).0
}

fn fields_of(alloc: Global, types: &[&str], text: &str) -> Result<Vec<Field>, AllocError> {
    let mut fields = Vec::new(alloc);
    for words in text.split(", ") {
        let field = field(alloc, types, words)?;
        fields.push(field)?;
    }
    Ok(fields)
}

fn numbers_of(alloc: Global, fields: &[Field]) -> Result<Vec<u32>, AllocError> {
    let mut numbers = Vec::new(alloc);
    for field in fields {
        numbers.push(field.number)?;
    }
    Ok(numbers)
}

// How many oneofs the fields are members of, where each up to the last has one.
fn count_oneofs(fields: &[Field]) -> u32 {
    let mut count = 0_u32;
    for field in fields {
        if let Some(place) = field.oneof {
            count = count.max(place.saturating_add(1));
        }
    }
    count
}

// The names of so many oneofs.
fn oneofs_of(alloc: Global, count: u32) -> Result<Vec<String>, AllocError> {
    let mut names = Vec::new(alloc);
    for place in 0..count {
        let name = format!(in alloc; "k{place}")?;
        names.push(name)?;
    }
    Ok(names)
}

/// The message type that the words spell, of a schema of these types.
pub(crate) fn message(
    alloc: Global,
    types: &[&str],
    text: &str,
) -> Result<MessageType, AllocError> {
    let (name, words) = text.split_once(": ").unwrap_or((text, ""));
    let fields = if words.is_empty() {
        Vec::new(alloc)
    } else {
        fields_of(alloc, types, words)?
    };
    Ok(MessageType {
        name: String::from_str(alloc, name)?,
        declared: numbers_of(alloc, &fields)?,
        oneofs: oneofs_of(alloc, count_oneofs(&fields))?,
        fields,
        nested_types: Vec::new(alloc),
        nested_enums: Vec::new(alloc),
        reserved_numbers: Vec::new(alloc),
        reserved_names: Vec::new(alloc),
        options: MessageOptions { deprecated: None },
    })
}
