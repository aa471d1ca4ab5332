//! Keys of maps, and their order: numbers by value, strings by bytes.

ghost use Rattle.std.specs.Prelude.{◌≡◌, ◌↔◌, IsTrue};
ghost use Rattle.std.specs.declared.cmp.Ordering.TheVariants.{Less};
ghost use Rattle.pg_dyn.specs.message_ref.Borrowed.{leaf_of};
ghost use Rattle.pg_dyn.specs.message_ref.BorrowedItems.{AreAlike, KeysRise};
ghost use Rattle.pg_dyn.specs.reading.Content.{leaf_bytes};
ghost use Rattle.pg_dyn.specs.message.KeyOrder.{AreSame, number_in, rank_cmp};
ghost use Rattle.pg_dyn.specs.message.Message.{key_cmp};

use crate::message_ref::{EntryRef, ValueRef};
use std::cmp::Ordering;

impl<'a> ValueRef<'a> {
    // The number that a key is; a string counts as 0.
    fn number(&self) -> i128
        ensures { result ≡ number_in (leaf_of self.now) }
    {
        match self {
            ValueRef::Int(number) => number.get(),
            _ => 0,
        }
    }

    // The bytes that a key is; a number counts as none.
    fn bytes(&self) -> &[u8]
        ensures { result.now ≡ leaf_bytes (leaf_of self.now) }
    {
        match self {
            ValueRef::Text(text) => text.as_bytes(),
            ValueRef::Bytes(bytes) => bytes,
            _ => &[],
        }
    }

    // An order of all items, which of keys of one type is that of a map.
    pub(crate) fn rank(&self, other: &ValueRef<'a>) -> Ordering
        ensures { result ≡ rank_cmp (leaf_of self.now) (leaf_of other.now) }
    {
        self.number()
            .cmp(&other.number())
            .then(self.bytes().cmp(other.bytes()))
    }

    // The order of two keys of one type.
    pub(crate) fn order(&self, other: &ValueRef<'a>) -> Ordering
        requires { AreSame (leaf_of self.now) (leaf_of other.now) }
        ensures { result ≡ key_cmp (leaf_of self.now) (leaf_of other.now) }
    {
        self.rank(other)
    }

    // Whether the key is below the other one of its type.
    pub(crate) fn is_below(&self, other: &ValueRef<'a>) -> bool
        requires { AreSame (leaf_of self.now) (leaf_of other.now) }
        ensures { IsTrue result ↔ (key_cmp (leaf_of self.now) (leaf_of other.now) ≡ Less) }
    {
        matches!(self.order(other), Ordering::Less)
    }
}

/// Whether each key is below all later ones.
pub(crate) fn keys_rise(entries: &[EntryRef<'_>]) -> bool
    requires { AreAlike entries.now }
    ensures { IsTrue result → KeysRise entries.now }
{
    for next in 1..entries.len() {
        if !entries[next - 1].key.is_below(&entries[next].key) {
            return false;
        }
    }
    true
}
