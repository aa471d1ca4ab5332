//! Numbers as a schema has them. One that its kind can't have comes to 0; a file that breaks no
//! rule has none.

ghost use Rattle.std.specs.Prelude.{◌≡◌, IfOk, map};
ghost use Rattle.pg_check.specs.parts.MadeNumbers as spec;

use crate::rules::numbers::{
    HIGHEST_FIELD, HIGHEST_VALUE, LOWEST_FIELD, LOWEST_VALUE, Numbers, ZERO, is_within,
};
use pg_schema::{ReservedFields, ReservedValues};
use std::alloc::{AllocError, Global};

/// The number of a value or of a reserved item of an enum.
pub(crate) fn value_number(rank: u128) -> i32
    ensures { result ≡ spec.value_number rank }
{
    if !is_within(LOWEST_VALUE, HIGHEST_VALUE, rank) {
        return 0;
    }
    if ZERO <= rank {
        (rank - ZERO) as i32
    } else {
        let below = (ZERO - rank) as i64;
        (-below) as i32
    }
}

/// The number of a field or of a reserved item of a message.
pub(crate) fn field_number(rank: u128) -> u32
    ensures { result ≡ spec.field_number rank }
{
    if is_within(LOWEST_FIELD, HIGHEST_FIELD, rank) {
        (rank - ZERO) as u32
    } else {
        0
    }
}

/// An index of at most 32 bits.
pub(crate) fn index_of(place: usize) -> u32
    ensures { result ≡ spec.index_of place }
{
    if place < 0x1_0000_0000 {
        place as u32
    } else {
        0
    }
}

/// The reserved items of an enum.
pub(crate) fn value_ranges(
    alloc: Global,
    items: &[Numbers],
) -> Result<Vec<ReservedValues>, AllocError>
    ensures { IfOk result (λ ranges. ranges.items ≡ map spec.value_range items.now) }
{
    let mut ranges = Vec::new(alloc);
    for item in items {
        ranges.push(ReservedValues {
            first: value_number(item.first),
            last: value_number(item.last),
        })?;
    }
    Ok(ranges)
}

/// The reserved items of a message.
pub(crate) fn field_ranges(
    alloc: Global,
    items: &[Numbers],
) -> Result<Vec<ReservedFields>, AllocError>
    ensures { IfOk result (λ ranges. ranges.items ≡ map spec.field_range items.now) }
{
    let mut ranges = Vec::new(alloc);
    for item in items {
        ranges.push(ReservedFields {
            first: field_number(item.first),
            last: field_number(item.last),
        })?;
    }
    Ok(ranges)
}
