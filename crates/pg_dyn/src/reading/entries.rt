//! A map's entries by rising key, while they are read.

ghost use Rattle.std.specs.Prelude.{◌≡◌, ◌<◌, ◌≤◌, false, get_or, length, take, drop, IsTrue, OnOk};
ghost use Rattle.std.specs.List.{AllByRecursion};
ghost use Rattle.std.specs.declared.cmp.Ordering.TheVariants.{Equal, Less};
ghost use Rattle.pg_dyn.specs.declared.message_ref.EntryRef.{EntryRef as TheEntry};
ghost use Rattle.pg_dyn.specs.message_ref.Borrowed.{leaf_of};
ghost use Rattle.pg_dyn.specs.message_ref.BorrowedItems.{IsAlike, KeysRise, key_of};
ghost use Rattle.pg_dyn.specs.message.Message.{key_cmp};
ghost use Rattle.pg_dyn.specs.reading.Normalized.{place};

use crate::message_ref::{EntryRef, ValueRef};
use std::alloc::AllocError;
use std::cmp::Ordering;

// How many entries have lower keys. A key above all is found at once.
fn place_of_key<'a>(entries: &[EntryRef<'a>], key: &ValueRef<'a>) -> usize
    requires rises { KeysRise entries.now }
    requires alike { IsAlike (leaf_of key.now) entries.now }
    ensures inside { result ≤ length entries.now }
    ensures below { AllByRecursion (λ e. key_cmp (key_of e) (leaf_of key.now) ≡ Less)
        (take result entries.now) }
    ensures from_there { AllByRecursion (λ e. key_cmp (key_of e) (leaf_of key.now) ≡ Less → ⊥)
        (drop result entries.now) }
{
    let mut low = 0;
    let mut high = entries.len();
    if high > 0 && entries[high - 1].key.is_below(key) {
        return high;
    }
    while low < high {
        let middle = low + (high - low) / 2;
        if entries[middle].key.is_below(key) {
            low = middle + 1;
        } else {
            high = middle;
        }
    }
    low
}

// Whether the entry at the index has the key.
fn has_key<'a>(entries: &[EntryRef<'a>], place: usize, key: &ValueRef<'a>) -> bool
    requires { IsAlike (leaf_of key.now) entries.now }
    ensures here { IsTrue result → (place < length entries.now)
        × ((d : TheEntry) → key_cmp (leaf_of key.now) (key_of (get_or entries.now place d))
        ≡ Equal) }
    ensures not_here { result ≡ false → (d : TheEntry) → place < length entries.now
        → key_cmp (leaf_of key.now) (key_of (get_or entries.now place d)) ≡ Equal → ⊥ }
{
    if place < entries.len() {
        return key.order(&entries[place].key) == Ordering::Equal;
    }
    false
}

/// Puts the entry by rising key, instead of the one of its key.
pub(crate) fn put_in<'a>(
    entries: &mut Vec<EntryRef<'a>>,
    entry: EntryRef<'a>,
) -> Result<(), AllocError>
    requires rises { KeysRise entries.old.items }
    requires alike { IsAlike (key_of entry) entries.old.items }
    ensures { OnOk result (entries.new.items ≡ place key_of entry.entry entries.old.items) }
{
    let place = place_of_key(entries, &entry.key);
    if has_key(entries, place, &entry.key) {
        entries[place] = entry;
        return Ok(());
    }
    entries.insert(place, entry)?;
    Ok(())
}
