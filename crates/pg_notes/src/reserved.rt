//! Reserved numbers, each found by one search.

ghost use Rattle.std.specs.Prelude.{◌≡◌, IfOk};
ghost use Rattle.std.specs.List.Sorted.{IsNonDecreasingBy, IsPermutation};
ghost use Rattle.pg_schema.specs.declared.parts.message_type.ReservedFields.{ReservedFields};
ghost use Rattle.pg_notes.specs.FieldNotes.{is_reserved};
ghost use Rattle.pg_notes.specs.inner.Tops.{IsReservedTable, tops_from};

use pg_schema::ReservedFields;
use std::alloc::{AllocError, Global};

/// The reserved numbers of a message type.
#[derive(Drop)]
pub(crate) struct Reserved {
    /// The ranges by rising first number.
    sorted: Vec<ReservedFields>,
    /// For each of these the highest last number of those up to it.
    tops: Vec<u32>,
}

/// The ranges by rising first number.
fn by_first(alloc: Global, ranges: &[ReservedFields]) -> Result<Vec<ReservedFields>, AllocError>
    ensures same { IfOk result (λ sorted. IsPermutation ranges.now sorted.items) }
    ensures order { IfOk result (λ sorted. IsNonDecreasingBy
        (λ (r : ReservedFields). r.first) sorted.items) }
{
    let mut sorted = Vec::from_slice(alloc, ranges)?;
    sorted.sort_unstable_by_key(|range| range.first);
    Ok(sorted)
}

/// How far the ranges up to each of these reach.
fn tops_of(alloc: Global, sorted: &[ReservedFields]) -> Result<Vec<u32>, AllocError>
    ensures { IfOk result (λ tops. tops.items ≡ tops_from 0 sorted.now) }
{
    let mut tops = Vec::new(alloc);
    let mut top = 0;
    for range in sorted {
        top = top.max(range.last);
        tops.push(top)?;
    }
    Ok(tops)
}

/// The numbers that these ranges reserve.
pub(crate) fn reserved_of(alloc: Global, ranges: &[ReservedFields]) -> Result<Reserved, AllocError>
    ensures { IfOk result (IsReservedTable ranges.now) }
{
    let sorted = by_first(alloc, ranges)?;
    let tops = tops_of(alloc, &sorted)?;
    Ok(Reserved { sorted, tops })
}

/// Whether one of the ranges has the number: they come by rising first number.
fn is_held(sorted: &[ReservedFields], tops: &[u32], number: u32) -> bool
    requires order { IsNonDecreasingBy (λ (r : ReservedFields). r.first) sorted.now }
    requires tops { tops.now ≡ tops_from 0 sorted.now }
    ensures { result ≡ is_reserved sorted.now number }
{
    let count = sorted.partition_point(|range| range.first <= number);
    if count == 0 {
        return false;
    }
    number <= tops[count - 1]
}

/// Whether the number is reserved by the ranges that the table is of.
pub(crate) fn is_reserved(ranges: &[ReservedFields], table: &Reserved, number: u32) -> bool
    requires { IsReservedTable ranges.now table.now }
    ensures { result ≡ is_reserved ranges.now number }
{
    // Most types reserve nothing.
    !ranges.is_empty() && is_held(&table.sorted, &table.tops, number)
}
