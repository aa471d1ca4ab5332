//! The full names that files declare.

ghost use Rattle.std.specs.Prelude.{◌≡◌, ◌++◌, IfOk, OnOk, flat_map, map, slice_get};
ghost use Rattle.std.specs.String.{string_bytes};
ghost use Rattle.pg_schema.specs.declared.parts.enum_type.EnumType.{EnumType};
ghost use Rattle.pg_schema.specs.declared.parts.field.Field.{Field};
ghost use Rattle.pg_schema.specs.rules.DeclaredNames.{declared_names, entry_name, entry_names, file_names, method_names, service_names, type_names, values_at, values_of, within};
ghost use Rattle.pg_schema.specs.rules.Enums.{value_names};
ghost use Rattle.pg_schema.specs.rules.Messages.{field_names};

use crate::json_name::in_camel_case;
use crate::parts::Parts;
use crate::parts::enum_type::{EnumType, EnumValue};
use crate::parts::field::{EnumId, Field};
use crate::parts::file::File;
use crate::parts::message_type::MessageType;
use crate::parts::service::{Method, Service};
use std::alloc::{AllocError, Global};

/// The full name of a name that the scope declares: that of the scope, a dot and the name; in the
/// scope without a name the name alone.
///
/// Refused only where memory is.
pub fn full_name(alloc: Global, scope: &str, name: &str) -> Result<String, AllocError>
    ensures { IfOk result (λ full. string_bytes full ≡ within scope.now name.now) }
{
    let room = scope.len().saturating_add(name.len()).saturating_add(1);
    let mut full = String::with_capacity(alloc, room)?;
    full.push_str(scope)?;
    if !scope.is_empty() {
        full.push('.')?;
    }
    full.push_str(name)?;
    Ok(full)
}

/// The name of the message type of a map field's entries, for a field of this name: the field's
/// name without its `_`, its first letter and each after a `_` in upper case, and `Entry`
/// (descriptor.proto, `map_entry`).
///
/// Refused only where memory is.
pub fn entry_name(alloc: Global, name: &str) -> Result<String, AllocError>
    ensures { IfOk result (λ entry. string_bytes entry ≡ entry_name name.now) }
{
    let mut entry = in_camel_case(alloc, true, name)?;
    entry.push_str("Entry")?;
    Ok(entry)
}

/// Appends the full names of the fields.
fn push_field_names(
    alloc: Global,
    names: &mut Vec<String>,
    scope: &str,
    fields: &[Field],
) -> Result<(), AllocError>
    ensures { OnOk result (map string_bytes names.new.items
        ≡ map string_bytes names.old.items ++ map (within scope.now) (field_names fields.now)) }
{
    for field in fields {
        names.push(full_name(alloc, scope, &field.name)?)?;
    }
    Ok(())
}

/// Appends the full names of the oneofs.
fn push_oneof_names(
    alloc: Global,
    names: &mut Vec<String>,
    scope: &str,
    oneofs: &[String],
) -> Result<(), AllocError>
    ensures { OnOk result (map string_bytes names.new.items
        ≡ map string_bytes names.old.items
        ++ map (within scope.now) (map string_bytes oneofs.now)) }
{
    for oneof in oneofs {
        names.push(full_name(alloc, scope, oneof)?)?;
    }
    Ok(())
}

/// Appends the full names of the values.
fn push_value_names(
    alloc: Global,
    names: &mut Vec<String>,
    scope: &str,
    values: &[EnumValue],
) -> Result<(), AllocError>
    ensures { OnOk result (map string_bytes names.new.items
        ≡ map string_bytes names.old.items ++ map (within scope.now) (value_names values.now)) }
{
    for value in values {
        names.push(full_name(alloc, scope, &value.name)?)?;
    }
    Ok(())
}

/// Appends the full names of the methods.
fn push_method_names(
    alloc: Global,
    names: &mut Vec<String>,
    scope: &str,
    methods: &[Method],
) -> Result<(), AllocError>
    ensures { OnOk result (map string_bytes names.new.items
        ≡ map string_bytes names.old.items ++ map (within scope.now) (method_names methods.now)) }
{
    for method in methods {
        names.push(full_name(alloc, scope, &method.name)?)?;
    }
    Ok(())
}

/// Appends the full names of the map fields' entry types.
fn push_entry_names(
    alloc: Global,
    names: &mut Vec<String>,
    scope: &str,
    fields: &[Field],
) -> Result<(), AllocError>
    ensures { OnOk result (map string_bytes names.new.items
        ≡ map string_bytes names.old.items ++ map (within scope.now) (entry_names fields.now)) }
{
    for field in fields {
        if field.presence.is_map() {
            let entry = entry_name(alloc, &field.name)?;
            names.push(full_name(alloc, scope, &entry)?)?;
        }
    }
    Ok(())
}

/// Appends the full names of the values of the enum at that index.
fn push_values_of(
    alloc: Global,
    names: &mut Vec<String>,
    scope: &str,
    enums: &[EnumType],
    id: EnumId,
) -> Result<(), AllocError>
    ensures { OnOk result (map string_bytes names.new.items
        ≡ map string_bytes names.old.items
        ++ map (within scope.now) (values_of (slice_get enums.now id.index))) }
{
    match enums.get(id.index) {
        Some(enum_type) => push_value_names(alloc, names, scope, &enum_type.values),
        None => Ok(()),
    }
}

/// Appends the full names of the values of the enums at these indices.
fn push_values_at(
    alloc: Global,
    names: &mut Vec<String>,
    scope: &str,
    enums: &[EnumType],
    ids: &[EnumId],
) -> Result<(), AllocError>
    ensures { OnOk result (map string_bytes names.new.items
        ≡ map string_bytes names.old.items
        ++ map (within scope.now) (values_at enums.now ids.now)) }
{
    for id in ids {
        push_values_of(alloc, names, scope, enums, *id)?;
    }
    Ok(())
}

/// Appends the full names that a message type declares.
fn push_type_names(
    alloc: Global,
    names: &mut Vec<String>,
    enums: &[EnumType],
    message_type: &MessageType,
) -> Result<(), AllocError>
    ensures { OnOk result (map string_bytes names.new.items
        ≡ map string_bytes names.old.items ++ type_names enums.now message_type.now) }
{
    let scope = message_type.name.as_str();
    names.push(message_type.name.clone()?)?;
    push_field_names(alloc, names, scope, &message_type.fields)?;
    push_oneof_names(alloc, names, scope, &message_type.oneofs)?;
    push_entry_names(alloc, names, scope, &message_type.fields)?;
    push_values_at(alloc, names, scope, enums, &message_type.nested_enums)
}

/// Appends the full names that a service declares.
fn push_service_names(
    alloc: Global,
    names: &mut Vec<String>,
    service: &Service,
) -> Result<(), AllocError>
    ensures { OnOk result (map string_bytes names.new.items
        ≡ map string_bytes names.old.items ++ service_names service.now) }
{
    names.push(service.name.clone()?)?;
    push_method_names(alloc, names, &service.name, &service.methods)
}

/// Appends the full names that the message types declare.
fn push_all_type_names(
    alloc: Global,
    names: &mut Vec<String>,
    enums: &[EnumType],
    types: &[MessageType],
) -> Result<(), AllocError>
    ensures { OnOk result (map string_bytes names.new.items
        ≡ map string_bytes names.old.items ++ flat_map (type_names enums.now) types.now) }
{
    for message_type in types {
        push_type_names(alloc, names, enums, message_type)?;
    }
    Ok(())
}

/// Appends the full names of the enums.
fn push_enum_names(names: &mut Vec<String>, enums: &[EnumType]) -> Result<(), AllocError>
    ensures { OnOk result (map string_bytes names.new.items
        ≡ map string_bytes names.old.items
        ++ map (λ (e : EnumType). string_bytes e.name) enums.now) }
{
    for enum_type in enums {
        names.push(enum_type.name.clone()?)?;
    }
    Ok(())
}

/// Appends the full names that the services declare.
fn push_all_service_names(
    alloc: Global,
    names: &mut Vec<String>,
    services: &[Service],
) -> Result<(), AllocError>
    ensures { OnOk result (map string_bytes names.new.items
        ≡ map string_bytes names.old.items ++ flat_map service_names services.now) }
{
    for service in services {
        push_service_names(alloc, names, service)?;
    }
    Ok(())
}

/// Appends the full names of the values of the files' own enums.
fn push_file_names(
    alloc: Global,
    names: &mut Vec<String>,
    enums: &[EnumType],
    files: &[File],
) -> Result<(), AllocError>
    ensures { OnOk result (map string_bytes names.new.items
        ≡ map string_bytes names.old.items ++ flat_map (file_names enums.now) files.now) }
{
    for file in files {
        push_values_at(alloc, names, &file.package, enums, &file.enums)?;
    }
    Ok(())
}

/// The full names that all files declare.
pub(crate) fn declared_names(alloc: Global, parts: &Parts) -> Result<Vec<String>, AllocError>
    ensures { IfOk result (λ names. map string_bytes names.items ≡ declared_names parts.now) }
{
    let mut names = Vec::new(alloc);
    push_all_type_names(alloc, &mut names, &parts.enums, &parts.types)?;
    push_enum_names(&mut names, &parts.enums)?;
    push_all_service_names(alloc, &mut names, &parts.services)?;
    push_file_names(alloc, &mut names, &parts.enums, &parts.files)?;
    Ok(names)
}
