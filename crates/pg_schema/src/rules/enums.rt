//! What holds of each enum, taken by itself.

ghost use Rattle.std.specs.Prelude.{◌≡◌, IfOk};
ghost use Rattle.std.specs.List.{list_all};
ghost use Rattle.pg_schema.specs.rules.Enums.{begins_with_zero, is_enum, is_value, value_names};
ghost use Rattle.pg_schema.specs.inner.LentTexts.{lent};
ghost use Rattle.pg_schema.specs.rules.Uses.{is_value_range};

use crate::parts::enum_type::{EnumType, EnumValue, ReservedValues};
use crate::rules::text_sets::are_named_once;
use crate::rules::uses::{enum_uses, is_used_once};
use crate::rules::words::is_word;
use std::alloc::{AllocError, Global};

/// There is a value, and the first is 0.
fn begins_with_zero(values: &[EnumValue]) -> bool
    ensures { result ≡ begins_with_zero values.now }
{
    match values {
        [first, ..] => first.number == 0,
        [] => false,
    }
}

/// The names of the values are words.
fn are_values(values: &[EnumValue]) -> bool
    ensures { result ≡ list_all is_value values.now }
{
    for value in values {
        if !is_word(value.name.as_bytes()) {
            return false;
        }
    }
    true
}

/// No reserved item falls.
fn are_value_ranges(ranges: &[ReservedValues]) -> bool
    ensures { result ≡ list_all is_value_range ranges.now }
{
    for range in ranges {
        if range.last < range.first {
            return false;
        }
    }
    true
}

/// The names of the values.
fn value_names(alloc: Global, values: &[EnumValue]) -> Result<Vec<&str>, AllocError>
    ensures { IfOk result (λ names. lent names.items ≡ value_names values.now) }
{
    let mut names = Vec::with_capacity(alloc, values.len())?;
    for value in values {
        names.push(value.name.as_str())?;
    }
    Ok(names)
}

/// The enum keeps to the rules of an enum.
pub(crate) fn is_enum(alloc: Global, enum_type: &EnumType) -> Result<bool, AllocError>
    ensures { IfOk result (λ b. b ≡ is_enum enum_type.now) }
{
    if !begins_with_zero(&enum_type.values)
        || !are_values(&enum_type.values)
        || !are_value_ranges(&enum_type.reserved_numbers)
    {
        return Ok(false);
    }
    let names = value_names(alloc, &enum_type.values)?;
    if !are_named_once(alloc, &names, &enum_type.reserved_names)? {
        return Ok(false);
    }
    let uses = enum_uses(alloc, &enum_type.values, &enum_type.reserved_numbers)?;
    Ok(is_used_once(enum_type.options.allow_alias.unwrap_or(false), uses))
}

/// Each enum does.
pub(crate) fn are_enums(alloc: Global, enums: &[EnumType]) -> Result<bool, AllocError>
    ensures { IfOk result (λ b. b ≡ list_all is_enum enums.now) }
{
    for enum_type in enums {
        if !is_enum(alloc, enum_type)? {
            return Ok(false);
        }
    }
    Ok(true)
}
