//! Pieces of message types and of their fields.
use kit_rows::number_of;
use pg_schema::{
    Element, EnumId, Field, FieldOptions, MessageOptions, MessageType, Presence, ReservedFields,
    Scalar, TypeId,
};
use std::alloc::{AllocError, Global};

/// A message type of that name, with nothing in it.
pub fn message_type(alloc: Global, name: &str) -> Result<MessageType, AllocError> {
    Ok(MessageType {
        name: String::from_str(alloc, name)?,
        fields: Vec::new(alloc),
        declared: Vec::new(alloc),
        oneofs: Vec::new(alloc),
        nested_types: Vec::new(alloc),
        nested_enums: Vec::new(alloc),
        reserved_numbers: Vec::new(alloc),
        reserved_names: Vec::new(alloc),
        options: MessageOptions { deprecated: None },
    })
}

/// What is named: `M` is the first message type, and `E` the first enum.
pub fn element_of(name: &str) -> Element {
    match name {
        "bool" => Element::Scalar(Scalar::Bool),
        "double" => Element::Scalar(Scalar::Double),
        "bytes" => Element::Scalar(Scalar::Bytes),
        "string" => Element::Scalar(Scalar::String),
        "M" => Element::Message(TypeId { index: 0 }),
        "E" => Element::Enum(EnumId { index: 0 }),
        _ => Element::Scalar(Scalar::Int32),
    }
}

fn presence_of(word: &str) -> Presence {
    match word {
        "explicit" => Presence::Explicit,
        "packed" => Presence::Repeated { packed: true },
        "unpacked" => Presence::Repeated { packed: false },
        "by_text" => Presence::Map {
            key: Scalar::String,
        },
        "by_float" => Presence::Map { key: Scalar::Float },
        _ => Presence::Implicit,
    }
}

/// A field without options, in no oneof.
fn field(
    alloc: Global,
    number: u32,
    name: &str,
    presence: Presence,
    element: Element,
) -> Result<Field, AllocError> {
    Ok(Field {
        number,
        name: String::from_str(alloc, name)?,
        presence,
        element,
        oneof: None,
        json_name: String::from_str(alloc, name)?,
        states_optional: presence == Presence::Explicit,
        options: FieldOptions {
            packed: None,
            deprecated: None,
        },
    })
}

/// The field that `NUMBER NAME PRESENCE TYPE` spells.
fn field_of(alloc: Global, words: &str) -> Result<Field, AllocError> {
    let (number, words) = words.split_once(' ').unwrap_or((words, ""));
    let (name, words) = words.split_once(' ').unwrap_or((words, ""));
    let (presence, element) = words.split_once(' ').unwrap_or((words, ""));
    field(
        alloc,
        number_of(number),
        name,
        presence_of(presence),
        element_of(element),
    )
}

/// The member of the first oneof that `NUMBER NAME` spells.
fn member_of(alloc: Global, words: &str) -> Result<Field, AllocError> {
    let (number, name) = words.split_once(' ').unwrap_or((words, ""));
    let mut field = field(
        alloc,
        number_of(number),
        name,
        Presence::Explicit,
        element_of("int32"),
    )?;
    field.oneof = Some(0);
    field.states_optional = false;
    Ok(field)
}

fn add_field(made: &mut MessageType, field: Field) -> Result<(), AllocError> {
    made.declared.push(field.number)?;
    made.fields.push(field)?;
    Ok(())
}

fn reserved_of(words: &str) -> ReservedFields {
    let (first, last) = words.split_once(' ').unwrap_or((words, ""));
    ReservedFields {
        first: number_of(first),
        last: number_of(last),
    }
}

/// Adds the piece, where it is one of a message type.
pub fn add_to_type(
    alloc: Global,
    made: &mut MessageType,
    piece: &str,
    words: &str,
) -> Result<(), AllocError> {
    match piece {
        "field" => add_field(made, field_of(alloc, words)?)?,
        "member" => add_field(made, member_of(alloc, words)?)?,
        "oneof" => made.oneofs.push(String::from_str(alloc, words)?)?,
        "reserved" => made.reserved_numbers.push(reserved_of(words))?,
        "reserved_name" => made.reserved_names.push(String::from_str(alloc, words)?)?,
        "inner" => made.nested_types.push(TypeId {
            index: number_of(words),
        })?,
        "inner_enum" => made.nested_enums.push(EnumId {
            index: number_of(words) as usize,
        })?,
        "deprecated_type" => made.options.deprecated = Some(false),
        _ => {}
    }
    Ok(())
}

/// Adds the piece, where it is one of a field.
pub fn add_to_field(
    alloc: Global,
    field: &mut Field,
    piece: &str,
    words: &str,
) -> Result<(), AllocError> {
    match piece {
        "json" => field.json_name = String::from_str(alloc, words)?,
        "packed" => field.options.packed = Some(true),
        "unpacked" => field.options.packed = Some(false),
        "deprecated" => field.options.deprecated = Some(false),
        "in_oneof" => field.oneof = Some(0),
        "unstated" => field.states_optional = false,
        _ => {}
    }
    Ok(())
}
