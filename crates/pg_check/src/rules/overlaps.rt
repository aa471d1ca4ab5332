//! Reserved items that have a number in common.

ghost use Rattle.std.specs.Prelude.{◌≡◌, None, IfOk};
ghost use Rattle.std.specs.List.{filter};
ghost use Rattle.pg_check.specs.rules.KeepsRules as keeps;
ghost use Rattle.pg_check.specs.rules.ReservedItems as spec;
ghost use Rattle.pg_check.specs.inner.ItemFaults as item_faults;
ghost use Rattle.pg_check.specs.inner.Rows.{follow};

use crate::rules::numbers::{Numbers, by_first};
use std::alloc::{AllocError, Global};

/// The items that have a number: those that don't end before they begin.
fn rising_of(alloc: Global, items: &[Numbers]) -> Result<Vec<Numbers>, AllocError>
    ensures { IfOk result (λ rising. rising.items ≡ filter keeps.rises items.now) }
{
    let mut rising = Vec::new(alloc);
    for item in items {
        if item.first <= item.last {
            rising.push(*item)?;
        }
    }
    Ok(rising)
}

/// Each of the items begins after the one before it.
fn are_in_a_row(items: &[Numbers]) -> bool
    ensures { result ≡ follow None items.now }
{
    let mut end = None;
    for item in items {
        if let Some(last) = end
            && item.first <= last
        {
            return false;
        }
        end = Some(item.last);
    }
    true
}

/// No two of the items have a number in common.
fn are_apart(alloc: Global, items: &[Numbers]) -> Result<bool, AllocError>
    ensures { IfOk result (λ apart. apart ≡ keeps.are_apart spec.overlap items.now) }
{
    let rising = rising_of(alloc, items)?;
    let sorted = by_first(alloc, &rising)?;
    Ok(are_in_a_row(&sorted))
}

/// The offset of the first item that has a number of one before it. The fewest items with two that
/// have a number in common are found by halves.
pub(crate) fn first_overlapping(
    alloc: Global,
    items: &[Numbers],
) -> Result<Option<usize>, AllocError>
    ensures { IfOk result (λ place. place ≡ item_faults.first_overlapping items.now) }
{
    if are_apart(alloc, items)? {
        return Ok(None);
    }
    let mut low = 0;
    let mut high = items.len();
    while high - low > 1 {
        let middle = low + (high - low) / 2;
        if are_apart(alloc, &items[..middle])? {
            low = middle;
        } else {
            high = middle;
        }
    }
    Ok(Some(items[low].at))
}
