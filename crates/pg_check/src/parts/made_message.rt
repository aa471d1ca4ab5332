//! What a message declares, as a schema has it.

ghost use Rattle.std.specs.Prelude.{◌≡◌, IfOk, map, string_bytes};
ghost use Rattle.pg_check.specs.inner.Sources.{target_in};
ghost use Rattle.pg_check.specs.parts.MadeFields.{field};
ghost use Rattle.pg_check.specs.parts.MadeMessages as spec;

use crate::parts::made_field::{made_fields, made_numbers};
use crate::parts::made_number::field_ranges;
use crate::parts::made_option::flag_in;
use crate::rules::member::members;
use crate::rules::message::{items, reserved_names};
use crate::rules::types::Targets;
use pg_schema::{EnumId, Field, MessageOptions, MessageType, ReservedFields, TypeId};
use pg_syntax::tree::Part;
use std::alloc::{AllocError, Global};

/// The fields by their numbers.
fn by_number(mut fields: Vec<Field>) -> Result<Vec<Field>, AllocError>
    ensures { IfOk result (λ sorted. spec.AreFields (map field fields.items) sorted.items) }
{
    fields.sort_by_key(|field| field.number)?;
    Ok(fields)
}

/// The names of the oneofs, in order of declaration.
fn oneofs(alloc: Global, body: &[Part]) -> Result<Vec<String>, AllocError>
    ensures { IfOk result (λ names. map string_bytes names.items ≡ spec.oneofs body.now) }
{
    let mut names = Vec::new(alloc);
    for part in body {
        if let Part::Oneof(oneof) = part {
            names.push(String::from_str(alloc, &oneof.name.text)?)?;
        }
    }
    Ok(names)
}

/// Whether the option statements say that the message is deprecated.
fn deprecated(body: &[Part]) -> Option<bool>
    ensures { result ≡ spec.deprecated body.now }
{
    for part in body {
        if let Part::Option(line) = part {
            let flag = flag_in("deprecated", &line.setting);
            if flag.is_some() {
                return flag;
            }
        }
    }
    None
}

/// The reserved items of a message.
fn reserved_numbers(alloc: Global, body: &[Part]) -> Result<Vec<ReservedFields>, AllocError>
    ensures { IfOk result (λ ranges. ranges.items ≡ spec.reserved_numbers body.now) }
{
    let reserved = items(alloc, body)?;
    field_ranges(alloc, &reserved)
}

/// The message type of this full name and body, with these message types and enums in it.
pub(crate) fn made_message(
    alloc: Global,
    targets: &Targets<'_>,
    full: &str,
    body: &[Part],
    nested_types: Vec<TypeId>,
    nested_enums: Vec<EnumId>,
) -> Result<MessageType, AllocError>
    ensures { IfOk result (spec.IsMessage
        (target_in targets.now) full.now body.now nested_types.items nested_enums.items) }
{
    let name = String::from_str(alloc, full)?;
    let list = members(alloc, body)?;
    let fields = by_number(made_fields(alloc, targets, &list)?)?;
    let declared = made_numbers(alloc, &list)?;
    let oneofs = oneofs(alloc, body)?;
    let reserved_numbers = reserved_numbers(alloc, body)?;
    let reserved_names = reserved_names(alloc, body)?;
    Ok(MessageType {
        name,
        fields,
        declared,
        oneofs,
        nested_types,
        nested_enums,
        reserved_numbers,
        reserved_names,
        options: MessageOptions {
            deprecated: deprecated(body),
        },
    })
}
