//! A message's contents, listed by rising field number.

ghost use Rattle.std.specs.Prelude.{◌≡◌, ◌<◌, ◌≤◌, ℕ, get_or, length, take, drop, IsTrue, OnOk};
ghost use Rattle.std.specs.List.{AllByRecursion};
ghost use Rattle.pg_dyn.specs.declared.message.Content.{Content as TheContent};
ghost use Rattle.pg_dyn.specs.message.FieldList.{HasRoom, put_field, remove_field};
ghost use Rattle.pg_dyn.specs.message.Seen.{Rises};

use crate::message::Content;
use std::alloc::AllocError;

// As many contents as most messages have that are made one by one, so that few lists grow twice.
const FIRST: usize = 6;

/// How many fields have lower numbers. A number above all is found at once.
pub(crate) fn place_of<C>(fields: &[(u32, C)], number: u32) -> usize
    requires { Rises fields.now }
    ensures inside { result ≤ length fields.now }
    ensures below { AllByRecursion (λ f. f.0 < number) (take result fields.now) }
    ensures from_there { AllByRecursion (λ f. number ≤ f.0) (drop result fields.now) }
{
    match fields.last() {
        Some(last) if last.0 < number => fields.len(),
        _ => fields.partition_point(|field| field.0 < number),
    }
}

/// Whether there is a content under the number.
pub(crate) fn holds(fields: &[(u32, Content)], number: u32) -> bool
    requires { Rises fields.now }
    ensures { IsTrue result → (place : ℕ) × (place < length fields.now)
        × ((d : ℕ × TheContent) → (get_or fields.now place d).0 ≡ number) }
{
    let place = place_of(fields, number);
    place < fields.len() && fields[place].0 == number
}

/// Makes room for a content under the number, where there is none.
pub(crate) fn reserve(fields: &mut Vec<(u32, Content)>, number: u32) -> Result<(), AllocError>
    requires { Rises fields.old.items }
    ensures items { fields.new.items ≡ fields.old.items }
    ensures room { OnOk result (HasRoom number fields.new) }
{
    let place = place_of(fields, number);
    if place < fields.len() && fields[place].0 == number {
        return Ok(());
    }
    if fields.is_empty() {
        return fields.reserve(FIRST);
    }
    fields.reserve(1)
}

/// Puts a content under the number, in place of the one that is there.
pub(crate) fn put(fields: &mut Vec<(u32, Content)>, number: u32, content: Content)
    requires rises { Rises fields.old.items }
    requires room { HasRoom number fields.old }
    ensures { fields.new.items ≡ put_field number content fields.old.items }
{
    let place = place_of(fields, number);
    if place < fields.len() && fields[place].0 == number {
        fields[place].1 = content;
        return;
    }
    // There is room for one more.
    let _inserted = fields.insert(place, (number, content));
}

/// Takes out the content under the number, where there is one.
pub(crate) fn remove(fields: &mut Vec<(u32, Content)>, number: u32)
    requires { Rises fields.old.items }
    ensures { fields.new.items ≡ remove_field number fields.old.items }
{
    let place = place_of(fields, number);
    if place < fields.len() && fields[place].0 == number {
        fields.remove(place);
    }
}
