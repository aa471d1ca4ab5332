//! Reserved items.

ghost use Rattle.std.specs.Prelude.{◌≡◌, ◌++◌, IfOk, OnOk, map, string_bytes};
ghost use Rattle.pg_check.specs.rules.ReservedItems as spec;
ghost use Rattle.pg_check.specs.inner.ItemFaults as item_faults;

use crate::rules::fault::{Fault, Rule, broken, earlier};
use crate::rules::numbers::{Numbers, is_within, rank_of};
use crate::rules::overlaps::first_overlapping;
use pg_syntax::tree::{Bound, Range, ReservedItems, Text};
use std::alloc::{AllocError, Global};

/// The numbers that an item reserves; `max` is the highest.
fn numbers_of(highest: u128, range: &Range) -> Numbers
    ensures { result ≡ spec.numbers_of highest range.now }
{
    let first = rank_of(range.from);
    let last = match &range.to {
        None => first,
        Some(Bound::Number(number)) => rank_of(*number),
        Some(Bound::Max(_)) => highest,
    };
    Numbers {
        first,
        last,
        at: range.span.from,
    }
}

/// Appends the numbers that the items reserve.
fn push_ranges(
    numbers: &mut Vec<Numbers>,
    highest: u128,
    ranges: &[Range],
) -> Result<(), AllocError>
    ensures { OnOk result (numbers.new.items
        ≡ numbers.old.items ++ map (spec.numbers_of highest) ranges.now) }
{
    for range in ranges {
        numbers.push(numbers_of(highest, range))?;
    }
    Ok(())
}

/// Appends the numbers that a list reserves.
pub(crate) fn push_numbers(
    numbers: &mut Vec<Numbers>,
    highest: u128,
    items: &ReservedItems,
) -> Result<(), AllocError>
    ensures { OnOk result (numbers.new.items
        ≡ numbers.old.items ++ spec.numbers_in highest items.now) }
{
    match items {
        ReservedItems::Names { .. } => Ok(()),
        ReservedItems::Ranges { first, more } => {
            numbers.push(numbers_of(highest, first))?;
            push_ranges(numbers, highest, more)
        }
    }
}

/// Appends the names.
fn push_texts(alloc: Global, names: &mut Vec<String>, texts: &[Text]) -> Result<(), AllocError>
    ensures { OnOk result (map string_bytes names.new.items ≡ map string_bytes names.old.items
        ++ map spec.text_of texts.now) }
{
    for text in texts {
        names.push(text.joined(alloc)?)?;
    }
    Ok(())
}

/// Appends the names that a list reserves.
pub(crate) fn push_names(
    alloc: Global,
    names: &mut Vec<String>,
    items: &ReservedItems,
) -> Result<(), AllocError>
    ensures { OnOk result (map string_bytes names.new.items ≡ map string_bytes names.old.items
        ++ spec.names_in items.now) }
{
    match items {
        ReservedItems::Names { first, more } => {
            names.push(first.joined(alloc)?)?;
            push_texts(alloc, names, more)
        }
        ReservedItems::Ranges { .. } => Ok(()),
    }
}

/// The offset of the first item with an end that doesn't lie between these two.
fn first_beyond(lowest: u128, highest: u128, items: &[Numbers]) -> Option<usize>
    ensures { result ≡ item_faults.first_beyond lowest highest items.now }
{
    for item in items {
        if !(is_within(lowest, highest, item.first) && is_within(lowest, highest, item.last)) {
            return Some(item.at);
        }
    }
    None
}

/// The offset of the first item that ends before it begins.
fn first_falling(items: &[Numbers]) -> Option<usize>
    ensures { result ≡ item_faults.first_falling items.now }
{
    for item in items {
        if item.last < item.first {
            return Some(item.at);
        }
    }
    None
}

/// The first rule that reserved items break.
pub(crate) fn items_fault(
    alloc: Global,
    lowest: u128,
    highest: u128,
    items: &[Numbers],
) -> Result<Option<Fault>, AllocError>
    ensures { IfOk result (λ fault. fault ≡ item_faults.items_fault lowest highest items.now) }
{
    let beyond = broken(Rule::BadNumber, first_beyond(lowest, highest, items));
    let falling = broken(Rule::RangeOverlap, first_falling(items));
    let overlapping = broken(Rule::RangeOverlap, first_overlapping(alloc, items)?);
    Ok(earlier(beyond, earlier(falling, overlapping)))
}
