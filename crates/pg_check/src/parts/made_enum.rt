//! What an enum declares, as a schema has it.

ghost use Rattle.std.specs.Prelude.{◌≡◌, IfOk, map, string_bytes};
ghost use Rattle.pg_check.specs.parts.MadeEnums as spec;

use crate::parts::made_number::{value_number, value_ranges};
use crate::parts::made_option::{bracket_flag, flag_in};
use crate::rules::enumeration::{items, reserved_names};
use crate::rules::numbers::rank_of;
use pg_schema::{EnumOptions, EnumType, EnumValueOptions, ReservedValues};
use pg_syntax::tree::{EnumPart, EnumValue};
use std::alloc::{AllocError, Global};

/// A value.
fn made_value(alloc: Global, value: &EnumValue) -> Result<pg_schema::EnumValue, AllocError>
    ensures { IfOk result (λ made. spec.value made ≡ spec.made_value value.now) }
{
    let name = String::from_str(alloc, &value.name.text)?;
    Ok(pg_schema::EnumValue {
        name,
        number: value_number(rank_of(value.number)),
        options: EnumValueOptions {
            deprecated: bracket_flag("deprecated", &value.settings),
        },
    })
}

/// The values, in order of declaration.
fn made_values(alloc: Global, body: &[EnumPart]) -> Result<Vec<pg_schema::EnumValue>, AllocError>
    ensures { IfOk result (λ values. map spec.value values.items ≡ spec.made_values body.now) }
{
    let mut values = Vec::new(alloc);
    for part in body {
        if let EnumPart::Value(value) = part {
            values.push(made_value(alloc, value)?)?;
        }
    }
    Ok(values)
}

/// What the option statements say of the option of this name.
fn body_flag(name: &str, body: &[EnumPart]) -> Option<bool>
    ensures { result ≡ spec.body_flag name.now body.now }
{
    for part in body {
        if let EnumPart::Option(line) = part {
            let flag = flag_in(name, &line.setting);
            if flag.is_some() {
                return flag;
            }
        }
    }
    None
}

/// The options of an enum, by its body.
fn enum_options(body: &[EnumPart]) -> EnumOptions
    ensures { result ≡ spec.enum_options body.now }
{
    EnumOptions {
        allow_alias: body_flag("allow_alias", body),
        deprecated: body_flag("deprecated", body),
    }
}

/// The reserved items of an enum.
fn reserved_numbers(alloc: Global, body: &[EnumPart]) -> Result<Vec<ReservedValues>, AllocError>
    ensures { IfOk result (λ ranges. ranges.items ≡ spec.reserved_numbers body.now) }
{
    let reserved = items(alloc, body)?;
    value_ranges(alloc, &reserved)
}

/// The enum, under its full name.
pub(crate) fn made_enum(
    alloc: Global,
    full: &str,
    body: &[EnumPart],
) -> Result<EnumType, AllocError>
    ensures { IfOk result (λ made. spec.enumeration made ≡ spec.made_body full.now body.now) }
{
    let name = String::from_str(alloc, full)?;
    let values = made_values(alloc, body)?;
    let reserved_numbers = reserved_numbers(alloc, body)?;
    let reserved_names = reserved_names(alloc, body)?;
    Ok(EnumType {
        name,
        values,
        reserved_numbers,
        reserved_names,
        options: enum_options(body),
    })
}
