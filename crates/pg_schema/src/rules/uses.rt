//! The numbers that a message type or an enum uses.

ghost use Rattle.std.specs.Prelude.{◌≡◌, ◌++◌, IfOk, OnOk, map, true};
ghost use Rattle.std.specs.List.{list_all};
ghost use Rattle.pg_schema.specs.inner.Steps.{all_neighbours};
ghost use Rattle.pg_schema.specs.inner.Steps.{comes_before, is_whole};
ghost use Rattle.pg_schema.specs.rules.Uses.{enum_uses, field_use, from_lowest, is_used_once, message_uses, reserved_use, reserved_values_use, value_use};

use crate::parts::enum_type::{EnumValue, ReservedValues};
use crate::parts::field::Field;
use crate::parts::message_type::ReservedFields;
use std::alloc::{AllocError, Global};

/// Numbers that are used, from the first to the last, both of them too.
#[derive(Clone, Copy, Debug, PartialEq, Eq)]
pub(crate) struct Use {
    /// The lowest. Of an enum counted from -2,147,483,648.
    pub first: u64,
    /// The highest, counted likewise.
    pub last: u64,
    /// Whether the numbers are reserved, and no field's or value's.
    pub is_reserved: bool,
}

/// What the field uses.
fn field_use(field: &Field) -> Use
    ensures { result ≡ field_use field.now }
{
    Use {
        first: u64::from(field.number),
        last: u64::from(field.number),
        is_reserved: false,
    }
}

/// What the reserved item of a message type uses.
fn reserved_use(range: ReservedFields) -> Use
    ensures { result ≡ reserved_use range }
{
    Use {
        first: u64::from(range.first),
        last: u64::from(range.last),
        is_reserved: true,
    }
}

/// Appends what the fields use.
fn push_field_uses(uses: &mut Vec<Use>, fields: &[Field]) -> Result<(), AllocError>
    ensures { OnOk result (uses.new.items ≡ uses.old.items ++ map field_use fields.now) }
{
    for field in fields {
        uses.push(field_use(field))?;
    }
    Ok(())
}

/// What the fields and the reserved items of a message type use.
pub(crate) fn message_uses(
    alloc: Global,
    fields: &[Field],
    reserved: &[ReservedFields],
) -> Result<Vec<Use>, AllocError>
    ensures { IfOk result (λ uses. uses.items ≡ message_uses fields.now reserved.now) }
{
    let mut uses = Vec::new(alloc);
    push_field_uses(&mut uses, fields)?;
    for range in reserved {
        uses.push(reserved_use(*range))?;
    }
    Ok(uses)
}

/// The number counted from -2,147,483,648.
pub(crate) fn from_lowest(number: i32) -> u64
    ensures { result ≡ from_lowest number }
{
    (i64::from(number) + 0x8000_0000) as u64
}

/// What the value uses.
fn value_use(value: &EnumValue) -> Use
    ensures { result ≡ value_use value.now }
{
    let number = from_lowest(value.number);
    Use {
        first: number,
        last: number,
        is_reserved: false,
    }
}

/// What the reserved item uses.
fn reserved_values_use(range: ReservedValues) -> Use
    ensures { result ≡ reserved_values_use range }
{
    Use {
        first: from_lowest(range.first),
        last: from_lowest(range.last),
        is_reserved: true,
    }
}

/// Appends what the values use.
fn push_value_uses(uses: &mut Vec<Use>, values: &[EnumValue]) -> Result<(), AllocError>
    ensures { OnOk result (uses.new.items ≡ uses.old.items ++ map value_use values.now) }
{
    for value in values {
        uses.push(value_use(value))?;
    }
    Ok(())
}

/// What the values and the reserved items of an enum use.
pub(crate) fn enum_uses(
    alloc: Global,
    values: &[EnumValue],
    reserved: &[ReservedValues],
) -> Result<Vec<Use>, AllocError>
    ensures { IfOk result (λ uses. uses.items ≡ enum_uses values.now reserved.now) }
{
    let mut uses = Vec::new(alloc);
    push_value_uses(&mut uses, values)?;
    for range in reserved {
        uses.push(reserved_values_use(*range))?;
    }
    Ok(uses)
}

/// One use comes before the other, or is an alias of it where aliases are allowed.
fn comes_before(aliases: bool, one: Use, other: Use) -> bool
    ensures { result ≡ comes_before aliases one other }
{
    one.last < other.first
        || (aliases && !one.is_reserved && !other.is_reserved && one.last <= other.first)
}

/// Each use comes before the next.
fn are_in_order(aliases: bool, uses: &[Use]) -> bool
    ensures { result ≡ all_neighbours (comes_before aliases) uses.now }
{
    let [first, others @ ..] = uses else {
        return true;
    };
    let mut before = *first;
    for next in others {
        if !comes_before(aliases, before, *next) {
            return false;
        }
        before = *next;
    }
    true
}

/// No number is used twice, but by two values where aliases are allowed.
pub(crate) fn is_used_once(aliases: bool, mut uses: Vec<Use>) -> bool
    requires { list_all is_whole uses.items ≡ true }
    ensures { result ≡ is_used_once aliases uses.items }
{
    uses.sort_unstable_by_key(|one| one.first);
    are_in_order(aliases, &uses)
}
