//! The rules that enums break which come from no source file.

ghost use Rattle.std.specs.Prelude.{◌≡◌, IfOk, map};
ghost use Rattle.pg_check.specs.inner.NameFaults as names;
ghost use Rattle.pg_check.specs.admitting.DeclaredParts as of_parts;
ghost use Rattle.pg_check.specs.inner.PartFaults as spec;

use crate::admitting::part_faults::NOWHERE;
use crate::rules::enumeration::{DeclaredEnum, values_fault};
use crate::rules::fault::Fault;
use crate::rules::names::Called;
use crate::rules::numbers::{Keyed, Numbers, rank};
use pg_schema::{EnumType, EnumValue, ReservedValues};
use std::alloc::{AllocError, Global};

/// A value's number counted from -2^64.
fn value_rank(number: i32) -> u128
    ensures { result ≡ of_parts.value_rank number }
{
    rank(number < 0, u64::from(number.unsigned_abs()))
}

/// The values' numbers.
fn keys_of(alloc: Global, values: &[EnumValue]) -> Result<Vec<Keyed>, AllocError>
    ensures { IfOk result (λ keys. keys.items ≡ map of_parts.value_key values.now) }
{
    let mut keys = Vec::new(alloc);
    for value in values {
        keys.push(Keyed {
            key: value_rank(value.number),
            at: NOWHERE,
        })?;
    }
    Ok(keys)
}

/// The reserved numbers.
fn items_of(alloc: Global, ranges: &[ReservedValues]) -> Result<Vec<Numbers>, AllocError>
    ensures { IfOk result (λ items. items.items ≡ map of_parts.value_item ranges.now) }
{
    let mut items = Vec::new(alloc);
    for range in ranges {
        items.push(Numbers {
            first: value_rank(range.first),
            last: value_rank(range.last),
            at: NOWHERE,
        })?;
    }
    Ok(items)
}

/// The values' names.
fn names_of<'a>(alloc: Global, values: &'a [EnumValue]) -> Result<Vec<Called<'a>>, AllocError>
    ensures { IfOk result (λ list. map names.called list.items
        ≡ map of_parts.value_name values.now) }
{
    let mut list = Vec::new(alloc);
    for value in values {
        list.push(Called {
            text: &value.name,
            at: NOWHERE,
        })?;
    }
    Ok(list)
}

/// The first rule that an enum breaks.
pub(crate) fn enum_fault(alloc: Global, one: &EnumType) -> Result<Option<Fault>, AllocError>
    ensures { IfOk result (λ fault. fault ≡ spec.enum_fault one.now) }
{
    let keys = keys_of(alloc, &one.values)?;
    let names = names_of(alloc, &one.values)?;
    let items = items_of(alloc, &one.reserved_numbers)?;
    let declared = DeclaredEnum {
        keys: &keys,
        names: &names,
        items: &items,
        reserved_names: &one.reserved_names,
        has_aliases: one.options.allow_alias.unwrap_or(false),
    };
    values_fault(alloc, NOWHERE, &declared)
}
