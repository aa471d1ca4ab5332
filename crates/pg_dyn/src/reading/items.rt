//! What a field holds after the items that are read, and the zero of each scalar.

ghost use Rattle.std.specs.Prelude.{◌≡◌, map};
ghost use Rattle.pg_dyn.specs.message_ref.Borrowed.{leaf_of};
ghost use Rattle.pg_dyn.specs.message_ref.BorrowedItems.{IsItemKept, is_zero_value};
ghost use Rattle.pg_dyn.specs.word.Coding.{scalar_form, zero_leaf};
ghost use Rattle.pg_dyn.specs.word.NumberLists.{number_item};
ghost use Rattle.pg_dyn.specs.reading.Held.{IsHeldList, item_left};

use crate::integer::Integer;
use crate::message_ref::{ContentRef, ValueRef};
use crate::number_list::NumberList;
use pg_schema::{Presence, Scalar};

impl<'a> ValueRef<'a> {
    // Whether the item is a zero, as no message is.
    fn is_zero(&self) -> bool
        ensures { result ≡ is_zero_value self.now }
    {
        match self {
            ValueRef::Int(number) => number.get() == 0,
            ValueRef::F32(bits) => *bits == 0,
            ValueRef::F64(bits) => *bits == 0,
            ValueRef::Text(text) => text.is_empty(),
            ValueRef::Bytes(bytes) => bytes.is_empty(),
            ValueRef::Msg(_) => false,
        }
    }
}

// What a singular field holds after an item: the item, but no zero in a field without presence.
pub(crate) fn left<'a>(presence: Presence, value: ValueRef<'a>) -> Option<ContentRef<'a>>
    ensures { result ≡ item_left presence value.entry }
{
    if presence == Presence::Implicit && value.is_zero() {
        return None;
    }
    Some(ContentRef::One(value))
}

// What a list leaves in its field: nothing where it is empty.
pub(crate) fn list_left<'a>(values: Vec<ValueRef<'a>>) -> Option<ContentRef<'a>>
    ensures { IsHeldList values.entry.items result }
{
    if values.is_empty() {
        return None;
    }
    Some(ContentRef::Many(values))
}

// Does so for a list of numbers of the scalar type, by their words.
pub(crate) fn numbers_left<'a>(scalar: Scalar, words: Vec<u64>) -> Option<ContentRef<'a>>
    ensures { IsHeldList (map (number_item (scalar_form scalar)) words.items) result }
{
    if words.is_empty() {
        return None;
    }
    Some(ContentRef::Numbers(NumberList { scalar, words }))
}

// The zero item of a scalar.
pub(crate) fn zero_of<'a>(scalar: Scalar) -> ValueRef<'a>
    ensures leaf { leaf_of result ≡ zero_leaf (scalar_form scalar) }
    ensures item { IsItemKept scalar result }
{
    match scalar {
        Scalar::String => ValueRef::Text(""),
        Scalar::Bytes => ValueRef::Bytes(&[]),
        Scalar::Float => ValueRef::F32(0),
        Scalar::Double => ValueRef::F64(0),
        _ => ValueRef::Int(Integer::new(0)),
    }
}
