//! The names that a message type declares in its scope. Each call is refused only where memory is.

ghost use Rattle.std.specs.Prelude.{◌≡◌, ◌++◌, IfOk, OnOk, flat_map, map, slice_get};
ghost use Rattle.std.specs.String.{string_bytes};
ghost use Rattle.pg_schema.specs.declared.parts.field.EnumId.{EnumId};
ghost use Rattle.pg_schema.specs.declared.parts.field.TypeId.{TypeId};
ghost use Rattle.pg_schema.specs.rules.DeclaredNames.{entry_names, values_at};
ghost use Rattle.pg_schema.specs.rules.Enums.{value_names};
ghost use Rattle.pg_schema.specs.rules.Messages.{field_names};
ghost use Rattle.pg_set.specs.writing.Messages.{names_within, own_enum_name, own_type_name, where_found};
ghost use Rattle.pg_set.specs.writing.Places.{declared_in};

use crate::names::own_name;
use pg_schema::{EnumId, EnumValue, Field, MessageType, Presence, Schema, TypeId, entry_name};
use std::alloc::{AllocError, Global};

// Puts the names of the fields after the others.
fn push_fields(names: &mut Vec<String>, fields: &[Field]) -> Result<(), AllocError>
    ensures { OnOk result (map string_bytes names.new.items ≡ map string_bytes names.old.items
        ++ field_names fields.now) }
{
    for field in fields {
        names.push(field.name.clone()?)?;
    }
    Ok(())
}

// Puts these names after the others.
fn push_texts(names: &mut Vec<String>, texts: &[String]) -> Result<(), AllocError>
    ensures { OnOk result (map string_bytes names.new.items ≡ map string_bytes names.old.items
        ++ map string_bytes texts.now) }
{
    for text in texts {
        names.push(text.clone()?)?;
    }
    Ok(())
}

// Puts the names of the map fields' entry types after the others.
fn push_entries(alloc: Global, names: &mut Vec<String>, fields: &[Field]) -> Result<(), AllocError>
    ensures { OnOk result (map string_bytes names.new.items ≡ map string_bytes names.old.items
        ++ entry_names fields.now) }
{
    for field in fields {
        if matches!(field.presence, Presence::Map { .. }) {
            names.push(entry_name(alloc, &field.name)?)?;
        }
    }
    Ok(())
}

// Puts the own names of the message types at these indices after the others.
fn push_types(
    alloc: Global,
    names: &mut Vec<String>,
    source: &Schema,
    ids: &[TypeId],
) -> Result<(), AllocError>
    ensures { OnOk result (map string_bytes names.new.items ≡ map string_bytes names.old.items
        ++ flat_map (λ (id : TypeId). where_found own_type_name
        (slice_get source.now.types.items id.index)) ids.now) }
{
    for id in ids {
        if let Some(declared) = source.message_type(*id) {
            names.push(String::from_str(alloc, own_name(&declared.name))?)?;
        }
    }
    Ok(())
}

// Puts the own names of the enums at these indices after the others.
fn push_enums(
    alloc: Global,
    names: &mut Vec<String>,
    source: &Schema,
    ids: &[EnumId],
) -> Result<(), AllocError>
    ensures { OnOk result (map string_bytes names.new.items ≡ map string_bytes names.old.items
        ++ flat_map (λ (id : EnumId). where_found own_enum_name
        (slice_get source.now.enums.items id.index)) ids.now) }
{
    for id in ids {
        if let Some(declared) = source.enum_type(*id) {
            names.push(String::from_str(alloc, own_name(&declared.name))?)?;
        }
    }
    Ok(())
}

// Puts the names of the values after the others.
fn push_values(names: &mut Vec<String>, values: &[EnumValue]) -> Result<(), AllocError>
    ensures { OnOk result (map string_bytes names.new.items ≡ map string_bytes names.old.items
        ++ value_names values.now) }
{
    for value in values {
        names.push(value.name.clone()?)?;
    }
    Ok(())
}

// Puts the names of the values of the enums at these indices after the others.
fn push_values_at(
    names: &mut Vec<String>,
    source: &Schema,
    ids: &[EnumId],
) -> Result<(), AllocError>
    ensures { OnOk result (map string_bytes names.new.items ≡ map string_bytes names.old.items
        ++ values_at source.now.enums.items ids.now) }
{
    for id in ids {
        if let Some(declared) = source.enum_type(*id) {
            push_values(names, &declared.values)?;
        }
    }
    Ok(())
}

/// The names that a message type declares: of fields, oneofs, entry types, message types, enums and
/// their values.
pub(crate) fn names_within(
    alloc: Global,
    source: &Schema,
    message_type: &MessageType,
) -> Result<Vec<String>, AllocError>
    ensures { IfOk result (λ names. map string_bytes names.items
        ≡ names_within (declared_in source.now) message_type.now) }
{
    let mut names = Vec::new(alloc);
    let to = &mut names;
    push_fields(to, &message_type.fields)?;
    push_texts(to, &message_type.oneofs)?;
    push_entries(alloc, to, &message_type.fields)?;
    push_types(alloc, to, source, &message_type.nested_types)?;
    push_enums(alloc, to, source, &message_type.nested_enums)?;
    push_values_at(to, source, &message_type.nested_enums)?;
    Ok(names)
}
