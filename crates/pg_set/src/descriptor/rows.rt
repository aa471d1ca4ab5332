//! Message types and enums of a schema that is written down in rows.

ghost use Rattle.std.specs.Prelude.{◌≡◌, IfOk, map};
ghost use Rattle.pg_schema.specs.declared.parts.field.Field.{Field};
ghost use Rattle.pg_set.specs.descriptor.Descriptor.{type_id};
ghost use Rattle.pg_set.specs.inner.Rows.{enum_in, field_in, type_in, value_in};
ghost use Rattle.pg_set.specs.stated.Views.{enum_view, field_view, type_view, value_view};

use pg_schema::{
    Element, EnumId, EnumOptions, EnumType, EnumValue, EnumValueOptions, Field, FieldOptions,
    MessageOptions, MessageType, Presence, TypeId, default_json_name,
};
use std::alloc::{AllocError, Global};

/// Number, name, presence and element of a field.
pub(crate) type FieldRow<'a> = (u32, &'a str, Presence, Element);

/// The full name of a message type, its fields, and the message types and enums that are declared
/// in it.
pub(crate) type TypeRow<'a> = (&'a str, &'a [FieldRow<'a>], &'a [TypeId], &'a [EnumId]);

/// Number and name of an enum's value.
pub(crate) type ValueRow<'a> = (i32, &'a str);

/// The full name of an enum, and its values.
pub(crate) type EnumRow<'a> = (&'a str, &'a [ValueRow<'a>]);

// The field of a row. Refused only where memory is.
fn field(alloc: Global, row: &FieldRow<'_>) -> Result<Field, AllocError>
    ensures { IfOk result (λ f. field_view f ≡ field_in row.now) }
{
    let (number, name, presence, element) = *row;
    let is_singular = matches!(presence, Presence::Implicit | Presence::Explicit);
    let packed = if is_singular || !element.is_packable() {
        None
    } else {
        Some(false)
    };
    Ok(Field {
        number,
        name: String::from_str(alloc, name)?,
        presence,
        element,
        oneof: None,
        json_name: default_json_name(alloc, name)?,
        states_optional: is_singular && !matches!(element, Element::Message(_)),
        options: FieldOptions {
            packed,
            deprecated: None,
        },
    })
}

// The fields of rows. Refused only where memory is.
fn fields(alloc: Global, rows: &[FieldRow<'_>]) -> Result<Vec<Field>, AllocError>
    ensures { IfOk result (λ fields. map field_view fields.items ≡ map field_in rows.now) }
{
    let mut fields = Vec::new(alloc);
    for row in rows {
        fields.push(field(alloc, row)?)?;
    }
    Ok(fields)
}

/// The numbers of fields, in order. Refused only where memory is.
pub(crate) fn numbers(alloc: Global, fields: &[Field]) -> Result<Vec<u32>, AllocError>
    ensures { IfOk result (λ numbers. numbers.items ≡ map (λ (f : Field). f.number) fields.now) }
{
    let mut numbers = Vec::with_capacity(alloc, fields.len())?;
    for field in fields {
        numbers.push(field.number)?;
    }
    Ok(numbers)
}

// The message type of a row, whose fields are declared in its order. Refused only where memory is.
fn message_type(alloc: Global, row: &TypeRow<'_>) -> Result<MessageType, AllocError>
    ensures { IfOk result (λ t. type_view t ≡ type_in row.now) }
{
    let (name, rows, types, enums) = *row;
    let fields = fields(alloc, rows)?;
    Ok(MessageType {
        name: String::from_str(alloc, name)?,
        declared: numbers(alloc, &fields)?,
        fields,
        oneofs: Vec::new(alloc),
        nested_types: Vec::from_slice(alloc, types)?,
        nested_enums: Vec::from_slice(alloc, enums)?,
        reserved_numbers: Vec::new(alloc),
        reserved_names: Vec::new(alloc),
        options: MessageOptions { deprecated: None },
    })
}

/// The message types of these rows. Refused only where memory is.
pub(crate) fn message_types(
    alloc: Global,
    rows: &[TypeRow<'_>],
) -> Result<Vec<MessageType>, AllocError>
    ensures { IfOk result (λ types. map type_view types.items ≡ map type_in rows.now) }
{
    let mut types = Vec::new(alloc);
    for row in rows {
        types.push(message_type(alloc, row)?)?;
    }
    Ok(types)
}

// The values of rows. Refused only where memory is.
fn values(alloc: Global, rows: &[ValueRow<'_>]) -> Result<Vec<EnumValue>, AllocError>
    ensures { IfOk result (λ values. map value_view values.items ≡ map value_in rows.now) }
{
    let mut values = Vec::new(alloc);
    for row in rows {
        values.push(EnumValue {
            name: String::from_str(alloc, row.1)?,
            number: row.0,
            options: EnumValueOptions { deprecated: None },
        })?;
    }
    Ok(values)
}

// The enum of a row. Refused only where memory is.
fn enum_type(alloc: Global, row: &EnumRow<'_>) -> Result<EnumType, AllocError>
    ensures { IfOk result (λ e. enum_view e ≡ enum_in row.now) }
{
    Ok(EnumType {
        name: String::from_str(alloc, row.0)?,
        values: values(alloc, row.1)?,
        reserved_numbers: Vec::new(alloc),
        reserved_names: Vec::new(alloc),
        options: EnumOptions {
            allow_alias: None,
            deprecated: None,
        },
    })
}

/// The enums of these rows. Refused only where memory is.
pub(crate) fn enum_types(alloc: Global, rows: &[EnumRow<'_>]) -> Result<Vec<EnumType>, AllocError>
    ensures { IfOk result (λ enums. map enum_view enums.items ≡ map enum_in rows.now) }
{
    let mut enums = Vec::new(alloc);
    for row in rows {
        enums.push(enum_type(alloc, row)?)?;
    }
    Ok(enums)
}

/// The message types at these indices. Refused only where memory is.
pub(crate) fn type_ids(alloc: Global, places: &[u32]) -> Result<Vec<TypeId>, AllocError>
    ensures { IfOk result (λ ids. ids.items ≡ map type_id places.now) }
{
    let mut ids = Vec::new(alloc);
    for place in places {
        ids.push(TypeId { index: *place })?;
    }
    Ok(ids)
}
