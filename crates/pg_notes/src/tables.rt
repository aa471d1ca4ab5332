//! Items by their names and numbers.

ghost use Rattle.std.specs.Prelude.{◌≡◌, ℕ, ℤ, List, IfOk, OnOk, find, slice_get};
ghost use Rattle.std.specs.Option.{option_copied};
ghost use Rattle.std.specs.Str.{bytes_eq};
ghost use Rattle.std.specs.BTreeMap.{get};
ghost use Rattle.std.specs.Ordering.{int_cmp, int_eq};
ghost use Rattle.pg_notes.specs.inner.Tables.{at_name, found_or, IsNameTable, IsNumberTable};

use pg_schema::{EnumType, EnumValue, Field, Method, Service};
use std::alloc::{AllocError, Global};
use std::collections::BTreeMap;

/// The index of the first item of each name.
pub(crate) type Names<'a> = BTreeMap<&'a str, usize>;

/// The index of the first value of each number.
pub(crate) type Numbers = BTreeMap<i32, usize>;

/// What has a name.
pub(crate) trait Named {
    ghost name_of: { Self → List ℕ };

    /// The name.
    fn name(&self) -> &str
        ensures { result.now ≡ name_of self.now };
}

impl Named for Field {
    ghost use Rattle.pg_notes.specs.FieldNotes.{field_name};

    ghost name_of = { field_name };

    fn name(&self) -> &str {
        self.name.as_str()
    }
}

impl Named for EnumValue {
    ghost use Rattle.pg_notes.specs.EnumNotes.{value_name};

    ghost name_of = { value_name };

    fn name(&self) -> &str {
        self.name.as_str()
    }
}

impl Named for Method {
    ghost use Rattle.pg_notes.specs.ServiceNotes.{method_name};

    ghost name_of = { method_name };

    fn name(&self) -> &str {
        self.name.as_str()
    }
}

impl Named for EnumType {
    ghost use Rattle.pg_notes.specs.Notes.{enum_name};

    ghost name_of = { enum_name };

    fn name(&self) -> &str {
        self.name.as_str()
    }
}

impl Named for Service {
    ghost use Rattle.pg_notes.specs.Notes.{service_name};

    ghost name_of = { service_name };

    fn name(&self) -> &str {
        self.name.as_str()
    }
}

/// The index of the first of these items of each name.
pub(crate) fn names_of<'a, T: Named>(alloc: Global, items: &'a [T]) -> Result<Names<'a>, AllocError>
    ensures { IfOk result (IsNameTable T.name_of items.now) }
{
    let mut names = BTreeMap::new(alloc);
    for (index, item) in items.iter().enumerate() {
        let name = item.name();
        if !names.contains_key(name) {
            names.insert(name, index)?;
        }
    }
    Ok(names)
}

/// The item at that index. `None` where there are not so many.
pub(crate) fn item_at<T>(items: &[T], index: usize) -> Option<&T>
    ensures { option_copied result ≡ slice_get items.now index }
{
    items.get(index)
}

/// The index that the table has for the name.
pub(crate) fn place_in(names: &Names<'_>, name: &str) -> Option<usize>
    ensures { result ≡ at_name names.now name.now }
{
    names.get(name).copied()
}

/// The first of these items that has the name, by their table.
pub(crate) fn item_named<'a, T: Named>(
    items: &'a [T],
    names: &Names<'_>,
    name: &str,
) -> Option<&'a T>
    requires { IsNameTable T.name_of items.now names.now }
    ensures { option_copied result
        ≡ find (λ item. bytes_eq name.now (T.name_of item)) items.now }
{
    match place_in(names, name) {
        Some(index) => item_at(items, index),
        None => None,
    }
}

/// Whether both values have one number.
pub(crate) fn is_same_number(value: &EnumValue, other: &EnumValue) -> bool
    ensures { result ≡ int_eq value.now.number other.now.number }
{
    value.number == other.number
}

/// The index that the table has for the number of the value.
pub(crate) fn place_of_number(numbers: &Numbers, value: &EnumValue) -> Option<usize>
    ensures { result ≡ get int_cmp numbers.now value.now.number }
{
    numbers.get(&value.number).copied()
}

/// Adds the index of the value, where none of its number is there.
fn keep_first(numbers: &mut Numbers, value: &EnumValue, index: usize) -> Result<(), AllocError>
    ensures { OnOk result ((number : ℤ) → get int_cmp numbers.new number
        ≡ found_or (get int_cmp numbers.old number) (int_eq number value.now.number) index) }
{
    if !numbers.contains_key(&value.number) {
        numbers.insert(value.number, index)?;
    }
    Ok(())
}

/// The index of the first of these values of each number.
pub(crate) fn numbers_of(alloc: Global, values: &[EnumValue]) -> Result<Numbers, AllocError>
    ensures { IfOk result (IsNumberTable values.now) }
{
    let mut numbers = BTreeMap::new(alloc);
    for (index, value) in values.iter().enumerate() {
        keep_first(&mut numbers, value, index)?;
    }
    Ok(numbers)
}
