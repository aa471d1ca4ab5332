//! Keys of maps: their order, and whether one is there twice.

ghost use Rattle.std.specs.Prelude.{◌≡◌, ◌⊎◌, map, false, IfErr, IfOk, IsTrue, OnOk};
ghost use Rattle.std.specs.List.Sorted.{IsPermutation, IsSortedBy};
ghost use Rattle.pg_dyn.specs.declared.error.DynError.TheVariants.{DuplicateKey, Memory};
ghost use Rattle.pg_dyn.specs.reading.Content.{leaf_bytes};
ghost use Rattle.pg_dyn.specs.setting.ContentFaults.{HasEntryTwice, HasKeyTwice};
ghost use Rattle.pg_dyn.specs.fitting.ContentFits.{KeysRise};
ghost use Rattle.pg_dyn.specs.message.KeyOrder.{AreAlike, KeysAlike, number_in, rank_cmp, ranks_below};
ghost use Rattle.pg_dyn.specs.message.Seen.{leaf_of};

use crate::error::DynError;
use crate::fitting::keys_rise;
use crate::message::{Content, Value};
use std::alloc::{AllocError, Global};
use std::cmp::Ordering;

impl Value {
    // The number that a key is; a string counts as 0.
    fn number(&self) -> i128
        ensures { result ≡ number_in (leaf_of self.now) }
    {
        match self {
            Value::Int(number) => *number,
            _ => 0,
        }
    }

    // The bytes that a key is; a number counts as none.
    fn bytes(&self) -> &[u8]
        ensures { result.now ≡ leaf_bytes (leaf_of self.now) }
    {
        match self {
            Value::Text(text) => text.as_bytes(),
            Value::Bytes(bytes) => bytes.as_slice(),
            _ => &[],
        }
    }

    // An order of all items, which of keys of one type is that of a map: numbers by value, strings
    // by bytes.
    pub(crate) fn rank(&self, other: &Value) -> Ordering
        ensures { result ≡ rank_cmp (leaf_of self.now) (leaf_of other.now) }
    {
        self.number()
            .cmp(&other.number())
            .then(self.bytes().cmp(other.bytes()))
    }
}

// The entries, each by a reference, in the order of their keys.
fn in_order<'a>(
    alloc: Global,
    entries: &'a [(Value, Value)],
) -> Result<Vec<&'a (Value, Value)>, AllocError>
    ensures moved { IfOk result (λ v. IsPermutation entries.now (map (λ e. e.now) v.items)) }
    ensures sorted { IfOk result (λ v. IsSortedBy ranks_below (map (λ e. e.now) v.items)) }
{
    let mut sorted = Vec::with_capacity(alloc, entries.len())?;
    for entry in entries {
        sorted.push(entry)?;
    }
    sorted.sort_unstable_by(|first, second| first.0.rank(&second.0));
    Ok(sorted)
}

// Whether two neighbours have one key.
fn has_equal_neighbours(sorted: &[&(Value, Value)]) -> bool
    requires alike { AreAlike (map (λ e. e.now) sorted.now) }
    requires sorted { IsSortedBy ranks_below (map (λ e. e.now) sorted.now) }
    ensures twice { IsTrue result → HasEntryTwice (map (λ e. e.now) sorted.now) }
    ensures once { result ≡ false → HasEntryTwice (map (λ e. e.now) sorted.now) → ⊥ }
{
    for next in 1..sorted.len() {
        if matches!(sorted[next - 1].0.rank(&sorted[next].0), Ordering::Equal) {
            return true;
        }
    }
    false
}

/// Whether no key is twice in the content. The error is `DuplicateKey`, or `Memory`: keys out
/// of order are sorted by references, since the content may have to be handed back as it is.
pub(crate) fn check_keys(alloc: Global, content: &Content) -> Result<(), DynError>
    requires { KeysAlike content.now }
    ensures ok { OnOk result (HasKeyTwice content.now → ⊥) }
    ensures err { IfErr result (λ e. (e ≡ Memory)
        ⊎ ((e ≡ DuplicateKey) × HasKeyTwice content.now)) }
{
    let Content::Map(entries) = content else {
        return Ok(());
    };
    if keys_rise(entries) {
        return Ok(());
    }
    let Ok(sorted) = in_order(alloc, entries) else {
        return Err(DynError::Memory);
    };
    if has_equal_neighbours(&sorted) {
        Err(DynError::DuplicateKey)
    } else {
        Ok(())
    }
}

/// The entries by rising key. Takes no memory.
pub(crate) fn sorted(entries: Vec<(Value, Value)>) -> Vec<(Value, Value)>
    requires alike { AreAlike entries.items }
    requires once { HasEntryTwice entries.items → ⊥ }
    ensures moved { IsPermutation entries.items result.items }
    ensures rise { KeysRise result.items }
{
    let mut sorted = entries;
    if !keys_rise(&sorted) {
        sorted.sort_unstable_by(|first, second| first.0.rank(&second.0));
    }
    sorted
}
