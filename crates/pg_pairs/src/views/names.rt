//! The view by names.

ghost use Rattle.std.specs.Prelude.{◌≡◌, ◌&&◌, map, true, false, Some};
ghost use Rattle.std.specs.Ordering.{int_eq};
ghost use Rattle.std.specs.Str.{bytes_eq};
ghost use Rattle.std.specs.String.{string_bytes};
ghost use Rattle.pg_dyn.specs.views.ViewNames.{declares, has_name, named, names_within};
ghost use Rattle.pg_pairs.specs.views.LeastNumbers.{least_number, lesser_of, number_counts, number_word};
ghost use Rattle.pg_pairs.specs.inner.MissingNames.{RiseByWord, is_missing, missing_numbers};

use crate::views::view::View;
use pg_dyn::{ViewName, complement_64};
use pg_schema::{EnumType, EnumValue};

/// The view that finds a number alike where not both enums declare it, or where both give it the
/// same set of names, each without its scope.
#[derive(Clone, Copy, Debug)]
pub struct Names;

/// The word by which messages hold the number of an enum.
fn number_word(number: i32) -> u64
    ensures { result ≡ number_word number }
{
    complement_64(i128::from(number))
}

/// Of two numbers the one with the lesser word, the former where they are equal.
fn lesser_of(former: Option<i32>, later: Option<i32>) -> Option<i32>
    ensures { result ≡ lesser_of former later }
{
    let Some(number) = former else {
        return later;
    };
    match later {
        Some(other) if number_word(other) < number_word(number) => later,
        _ => former,
    }
}

/// Whether one of these values has the number.
fn has_number(values: &[EnumValue], number: i32) -> bool
    ensures { result ≡ declares (map named values.now) number }
{
    for value in values {
        if value.number == number {
            return true;
        }
    }
    false
}

/// Whether the value has the number and the name.
fn is_named(value: &EnumValue, number: i32, name: &str) -> bool
    ensures { result ≡ (int_eq value.now.number number
        && bytes_eq (string_bytes value.now.name) name.now) }
{
    value.number == number && value.name.as_str() == name
}

/// Whether one of these values has the number and the name.
fn has_name(values: &[EnumValue], number: i32, name: &str) -> bool
    ensures { result ≡ has_name (map named values.now) number name.now }
{
    for value in values {
        if is_named(value, number, name) {
            return true;
        }
    }
    false
}

/// Whether these values have the number of this one, but not its name for it.
fn is_missing(others: &[EnumValue], value: &EnumValue) -> bool
    ensures { result ≡ is_missing (map named others.now) (named value.now) }
{
    has_number(others, value.number) && !has_name(others, value.number, &value.name)
}

/// Whether the words of the numbers rise: none is lesser than the one before.
fn rise_by_word(values: &[EnumValue]) -> bool
    ensures { result ≡ true → RiseByWord values.now }
{
    values.is_sorted_by_key(|value| number_word(value.number))
}

/// The values with the number of this one, which are next to each other where the words of the
/// numbers rise.
fn values_beside<'a>(values: &'a [EnumValue], value: &EnumValue) -> &'a [EnumValue]
    requires { RiseByWord values.now }
    ensures { is_missing (map named result.now) (named value.now)
        ≡ is_missing (map named values.now) (named value.now) }
{
    let word = number_word(value.number);
    let start = values.partition_point(|other| number_word(other.number) < word);
    let rest = &values[start..];
    let count = rest.partition_point(|other| number_word(other.number) <= word);
    &rest[..count]
}

/// Whether the value at the index has the number and the name of this one.
fn is_at(others: &[EnumValue], index: usize, value: &EnumValue) -> bool
    ensures { result ≡ true → is_missing (map named others.now) (named value.now) ≡ false }
{
    match others.get(index) {
        Some(other) => is_named(other, value.number, &value.name),
        None => false,
    }
}

/// The index of the value nearest to that index, sought after and before it in turn.
fn nearest_index(others: &[EnumValue], index: usize, value: &EnumValue) -> Option<usize> {
    for distance in 0..others.len() {
        let after = index.saturating_add(distance);
        if is_at(others, after, value) {
            return Some(after);
        }
        let before = index.saturating_sub(distance + 1);
        if is_at(others, before, value) {
            return Some(before);
        }
    }
    None
}

/// Where the values with the number begin, where the words of the numbers rise.
fn start_of(values: &[EnumValue], number: i32) -> usize {
    let word = number_word(number);
    values.partition_point(|value| number_word(value.number) < word)
}

/// The index of the value among the others, sought first after that index and then nearest to it;
/// the index itself where they lack the value. A wrong answer would cost time alone, since the
/// value at the index is compared before anything is said of it.
fn index_of(others: &[EnumValue], rise: bool, value: &EnumValue, index: usize) -> usize
    requires { rise ≡ true → RiseByWord others.now }
{
    let next = index.saturating_add(1);
    if is_at(others, next, value) {
        return next;
    }
    if rise {
        let start = start_of(others, value.number);
        let beside = values_beside(others, value);
        let near = next.saturating_sub(start).min(beside.len());
        return match nearest_index(beside, near, value) {
            Some(found) => start.saturating_add(found),
            None => index,
        };
    }
    nearest_index(others, next.min(others.len()), value).unwrap_or(index)
}

/// What `is_missing` answers, sought first at the index, and then by halving where the words of the
/// others' numbers rise.
fn is_missing_beside(others: &[EnumValue], rise: bool, index: usize, value: &EnumValue) -> bool
    requires { rise ≡ true → RiseByWord others.now }
    ensures { result ≡ is_missing (map named others.now) (named value.now) }
{
    if is_at(others, index, value) {
        return false;
    }
    if rise {
        return is_missing(values_beside(others, value), value);
    }
    is_missing(others, value)
}

/// Whether each name that these values give the number is one that the others give it.
fn names_within(values: &[EnumValue], others: &[EnumValue], number: i32) -> bool
    ensures { result ≡ names_within (map named values.now) (map named others.now) number }
{
    for value in values {
        if value.number == number && !has_name(others, number, &value.name) {
            return false;
        }
    }
    true
}

/// Whether the number counts: 0 does only where `zero` says so.
#[tactic(auto, using(crate::proofs::lemmas::views::LeastByName::counts_so))]
fn counts(number: i32, zero: bool) -> bool
    ensures { result ≡ number_counts zero number }
{
    zero || number != 0
}

/// Whether the number would be the lesser one.
fn is_lesser(number: i32, least: Option<i32>) -> bool
    ensures lesser { result ≡ true → lesser_of least (Some number) ≡ Some number }
    ensures other { result ≡ false → lesser_of least (Some number) ≡ least }
{
    match least {
        Some(least) => number_word(number) < number_word(least),
        None => true,
    }
}

/// The least number that counts and that these values give a name that the others don't give it,
/// though they have it. The values of two enums mostly have much the same order, so a value is
/// sought first after the index at which one was last found.
fn least_missing(values: &[EnumValue], others: &[EnumValue], zero: bool) -> Option<i32>
    ensures { result ≡ least_number (missing_numbers zero (map named values.now)
        (map named others.now)) }
{
    let rise = rise_by_word(others);
    let mut least = None;
    let mut index = 0;
    for value in values {
        if counts(value.number, zero) && is_lesser(value.number, least) {
            index = index_of(others, rise, value, index);
            if is_missing_beside(others, rise, index, value) {
                least = Some(value.number);
            }
        }
    }
    least
}

impl View for Names {
    ghost use Rattle.pg_dyn.specs.declared.view_name.ViewName.TheVariants as views;

    ghost name_of = { λ _. views.Names };

    fn name(&self) -> ViewName {
        ViewName::Names
    }

    fn alike(&self, old: &EnumType, new: &EnumType, number: i32) -> bool {
        !(has_number(&old.values, number) && has_number(&new.values, number))
            || (names_within(&old.values, &new.values, number)
                && names_within(&new.values, &old.values, number))
    }

    fn least(&self, old: &EnumType, new: &EnumType, zero: bool) -> Option<i32> {
        lesser_of(
            least_missing(&old.values, &new.values, zero),
            least_missing(&new.values, &old.values, zero),
        )
    }
}
