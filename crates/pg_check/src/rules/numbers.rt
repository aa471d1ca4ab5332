//! Numbers of fields and values, and those that are reserved.

ghost use Rattle.std.specs.Prelude.{◌≡◌, ◌<◌, ◌^◌, IfOk, None, nat_eq, true};
ghost use Rattle.std.specs.List.{list_any};
ghost use Rattle.std.specs.List.Sorted.{IsNonDecreasingBy, IsPermutation};
ghost use Rattle.pg_check.specs.declared.rules.numbers.Keyed.{Keyed};
ghost use Rattle.pg_check.specs.declared.rules.numbers.Numbers.{Numbers};
ghost use Rattle.pg_check.specs.rules.Numbers as spec;
ghost use Rattle.pg_check.specs.inner.NumberFaults as number_faults;
ghost use Rattle.pg_check.specs.inner.Tops.{tops_from};

use pg_syntax::tree::Number;
use std::alloc::{AllocError, Global};
use std::collections::BTreeSet;

/// A number, counted from -2^64, and where it is declared.
#[derive(Clone, Copy)]
pub(crate) struct Keyed {
    pub key: u128,
    pub at: usize,
}

/// A reserved item: numbers from the first to the last, both of them too, counted from -2^64, and
/// the byte of the item.
#[derive(Clone, Copy)]
pub(crate) struct Numbers {
    pub first: u128,
    pub last: u128,
    pub at: usize,
}

/// What number 0 is counted as.
pub(crate) const ZERO: u128 = 0x1_0000_0000_0000_0000;

/// The lowest number of a field.
pub(crate) const LOWEST_FIELD: u128 = ZERO + 1;

/// The highest number of a field.
pub(crate) const HIGHEST_FIELD: u128 = ZERO + 536_870_911;

/// The lowest number of a value.
pub(crate) const LOWEST_VALUE: u128 = ZERO - 2_147_483_648;

/// The highest number of a value.
pub(crate) const HIGHEST_VALUE: u128 = ZERO + 2_147_483_647;

/// The number counted from -2^64.
pub(crate) fn rank(is_negative: bool, size: u64) -> u128
    ensures { result ≡ spec.rank is_negative size }
{
    if is_negative {
        ZERO - u128::from(size)
    } else {
        ZERO + u128::from(size)
    }
}

/// The number of a literal counted from -2^64.
pub(crate) fn rank_of(number: Number) -> u128
    ensures { result ≡ spec.rank_of number }
{
    rank(number.is_negative, number.size)
}

/// The number lies between the two, or is one of them.
pub(crate) fn is_within(lowest: u128, highest: u128, number: u128) -> bool
    ensures { result ≡ spec.is_within lowest highest number }
{
    lowest <= number && number <= highest
}

/// The lower of two offsets.
pub(crate) fn least(one: Option<usize>, other: Option<usize>) -> Option<usize>
    ensures { result ≡ number_faults.least one other }
{
    match (one, other) {
        (None, other) => other,
        (Some(one), None) => Some(one),
        (Some(one), Some(other)) => Some(if other < one { other } else { one }),
    }
}

/// The number may be a field's (proto3 language guide, "Assigning Field Numbers").
pub(crate) fn is_field_number(number: u128) -> bool
    ensures { result ≡ spec.is_field_number number }
{
    is_within(LOWEST_FIELD, HIGHEST_FIELD, number)
        && !is_within(ZERO + 19_000, ZERO + 19_999, number)
}

/// The offset of the first number that doesn't lie between these two.
pub(crate) fn first_outside(lowest: u128, highest: u128, keys: &[Keyed]) -> Option<usize>
    ensures { result ≡ number_faults.first_outside lowest highest keys.now }
{
    for one in keys {
        if !is_within(lowest, highest, one.key) {
            return Some(one.at);
        }
    }
    None
}

/// Whether each number lies above the one before, as most do. Then none is there twice.
fn rise(keys: &[Keyed]) -> bool
    ensures { result ≡ true → number_faults.first_twice keys.now ≡ None }
{
    let mut below = 0;
    for one in keys {
        if one.key <= below {
            return false;
        }
        below = one.key;
    }
    true
}

/// So many numbers are compared one by one sooner than they are put into a set.
const FEW: usize = 64;

/// Whether one of these has the number.
fn is_among(key: u128, keys: &[Keyed]) -> bool
    ensures { result ≡ list_any (λ (k : Keyed). nat_eq key k.key) keys.now }
{
    for one in keys {
        if one.key == key {
            return true;
        }
    }
    false
}

/// The offset of the first number that came before, where there are few.
fn first_of_few(keys: &[Keyed]) -> Option<usize>
    ensures { result ≡ number_faults.first_twice keys.now }
{
    for number in 0..keys.len() {
        let one = keys[number];
        if is_among(one.key, &keys[..number]) {
            return Some(one.at);
        }
    }
    None
}

/// The offset of the first number that came before.
pub(crate) fn first_twice(alloc: Global, keys: &[Keyed]) -> Result<Option<usize>, AllocError>
    ensures { IfOk result (λ place. place ≡ number_faults.first_twice keys.now) }
{
    if rise(keys) {
        return Ok(None);
    }
    if keys.len() <= FEW {
        return Ok(first_of_few(keys));
    }
    let mut seen = BTreeSet::new(alloc);
    for one in keys {
        if !seen.insert(one.key)? {
            return Ok(Some(one.at));
        }
    }
    Ok(None)
}

/// How far the items up to each of these reach.
fn tops_of(alloc: Global, sorted: &[Numbers]) -> Result<Vec<u128>, AllocError>
    ensures { IfOk result (λ tops. tops.items ≡ tops_from 0 sorted.now) }
{
    let mut tops = Vec::new(alloc);
    let mut top = 0;
    for item in sorted {
        top = top.max(item.last);
        tops.push(top)?;
    }
    Ok(tops)
}

/// An item has the number; the items are sorted by first numbers.
fn is_held(sorted: &[Numbers], tops: &[u128], number: u128) -> bool
    requires order { IsNonDecreasingBy (λ (r : Numbers). r.first) sorted.now }
    requires tops { tops.now ≡ tops_from 0 sorted.now }
    ensures { result ≡ spec.is_reserved sorted.now number }
{
    let count = sorted.partition_point(|item| item.first <= number);
    if count == 0 {
        return false;
    }
    number <= tops[count - 1]
}

/// The items by rising first numbers.
pub(crate) fn by_first(alloc: Global, items: &[Numbers]) -> Result<Vec<Numbers>, AllocError>
    ensures same { IfOk result (λ sorted. IsPermutation items.now sorted.items) }
    ensures order { IfOk result (λ sorted. IsNonDecreasingBy
        (λ (r : Numbers). r.first) sorted.items) }
{
    let mut sorted = Vec::from_slice(alloc, items)?;
    sorted.sort_unstable_by_key(|item| item.first);
    Ok(sorted)
}

/// The offset of the first number that an item has; the items are sorted by first numbers.
fn first_held(sorted: &[Numbers], tops: &[u128], keys: &[Keyed]) -> Option<usize>
    requires order { IsNonDecreasingBy (λ (r : Numbers). r.first) sorted.now }
    requires tops { tops.now ≡ tops_from 0 sorted.now }
    ensures { result ≡ number_faults.first_reserved sorted.now keys.now }
{
    for one in keys {
        if is_held(sorted, tops, one.key) {
            return Some(one.at);
        }
    }
    None
}

/// The offset of the first number that is reserved.
pub(crate) fn first_reserved(
    alloc: Global,
    reserved: &[Numbers],
    keys: &[Keyed],
) -> Result<Option<usize>, AllocError>
    ensures { IfOk result (λ place. place ≡ number_faults.first_reserved reserved.now keys.now) }
{
    let sorted = by_first(alloc, reserved)?;
    let tops = tops_of(alloc, &sorted)?;
    let place = first_held(&sorted, &tops, keys);
    Ok(place)
}
