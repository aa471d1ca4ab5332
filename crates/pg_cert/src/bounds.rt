//! Tables of bounds.

ghost use Rattle.std.specs.Prelude.{◌≡◌, true, false, length, map, nat_eq, slice_get, IfErr, IfOk, Option};
ghost use Rattle.pg_cert.specs.declared.bounds.BoundsError.TheVariants.{Invariant};
ghost use Rattle.pg_cert.specs.Certificate.{are_bounds, is_bound, bound_in};
ghost use Rattle.pg_cert.specs.inner.Entries.{bound_of};

use crate::pair_keys::PairKeys;
use indexmap::IndexMap;
use pg_dyn::MAX_ENCODING_LEN;
use pg_pairs::{Pair, Table};
use pg_schema::TypeId;
use std::alloc::Global;
use std::marker::Model;

/// A pair of types and its bound: how many bytes each message has at least that breaks, from 1 to
/// 2,147,483,647, or `None` where no message breaks.
#[derive(Clone, Copy, Debug, PartialEq, Eq)]
pub struct PairBound {
    pub pair: Pair,
    pub bound: Option<u32>,
}

/// Why bounds are no table.
#[derive(Clone, Copy, Debug, PartialEq, Eq)]
pub enum BoundsError {
    /// E001: memory was refused.
    Memory,
    /// A pair is there twice, or a number isn't from 1 to 2,147,483,647.
    Invariant,
}

type Entries = IndexMap<(u32, u32), Option<u32>, PairKeys>;

/// Bounds of distinct pairs, in an order. Contracts see the list.
#[derive(Drop)]
pub struct Bounds {
    entries: Entries,
}

impl Model for Bounds {
    ghost use Rattle.std.specs.Prelude.{◌≡◌, List, true, map};
    ghost use Rattle.pg_cert.specs.declared.bounds.PairBound.{PairBound};

    ghost Value = { List PairBound };

    ghost use Rattle.pg_cert.specs.Certificate.{are_bounds};
    ghost use Rattle.pg_cert.specs.inner.Entries.{bound_of};

    ghost view = { λ b. map bound_of b.entries.entries };

    ghost invariant = { λ b. are_bounds (map bound_of b.entries.entries) ≡ true };
}

/// Whether a bound is 'none' or a number from 1 to 2,147,483,647.
fn is_bound(bound: Option<u32>) -> bool
    ensures { result ≡ is_bound bound }
{
    match bound {
        Some(bytes) => 1 <= bytes && bytes as usize <= MAX_ENCODING_LEN,
        None => true,
    }
}

/// The entries of distinct pairs with bounds in range; `None` where the bounds aren't so.
fn entries_of(alloc: Global, bounds: &[PairBound]) -> Result<Entries, BoundsError>
    ensures ok { IfOk result (λ entries. (map bound_of entries.entries ≡ bounds.now)
        × (are_bounds bounds.now ≡ true)) }
    ensures broken { IfErr result (λ e. e ≡ Invariant → are_bounds bounds.now ≡ false) }
{
    let keys = PairKeys::of(bounds);
    let Ok(mut entries) = IndexMap::with_capacity_and_hasher(alloc, bounds.len(), keys) else {
        return Err(BoundsError::Memory);
    };
    for line in bounds {
        if !is_bound(line.bound) {
            return Err(BoundsError::Invariant);
        }
        let key = (line.pair.old.index, line.pair.new.index);
        match entries.insert(key, line.bound) {
            Ok(None) => {}
            Ok(Some(_)) => return Err(BoundsError::Invariant),
            Err(_) => return Err(BoundsError::Memory),
        }
    }
    Ok(entries)
}

impl Bounds {
    /// The table of these bounds, in this order.
    ///
    /// Refused, the list comes back: `Memory` where memory was refused, `Invariant` only where a
    /// pair is there twice or a number isn't from 1 to 2,147,483,647.
    pub fn new(
        alloc: Global,
        bounds: Vec<PairBound>,
    ) -> Result<Bounds, (BoundsError, Vec<PairBound>)>
        ensures table { IfOk result (λ table. table ≡ bounds.items) }
        ensures checked { IfOk result (λ table. are_bounds table ≡ true) }
        ensures back { IfErr result (λ refused. refused.1 ≡ bounds) }
        ensures broken { IfErr result
            (λ refused. refused.0 ≡ Invariant → are_bounds bounds.items ≡ false) }
    {
        match entries_of(alloc, &bounds) {
            Ok(entries) => Ok(Bounds { entries }),
            Err(error) => Err((error, bounds)),
        }
    }

    /// How many pairs it has.
    pub fn len(&self) -> usize
        ensures len { result ≡ length self.now }
        ensures checked { are_bounds self.now ≡ true }
    {
        self.entries.len()
    }

    /// Whether it has no pair.
    pub fn is_empty(&self) -> bool
        ensures { result ≡ nat_eq (length self.now) 0 }
    {
        self.entries.is_empty()
    }

    /// The pair at the index, counted from 0, and its bound. `None` where there are not so many.
    pub fn get(&self, at: usize) -> Option<PairBound>
        ensures { result ≡ slice_get self.now at }
    {
        let (key, bound) = self.entries.get_index(at)?;
        Some(PairBound {
            pair: Pair {
                old: TypeId { index: key.0 },
                new: TypeId { index: key.1 },
            },
            bound: *bound,
        })
    }
}

impl Table for Bounds {
    ghost bounds = { bound_in };

    fn bound(&self, pair: Pair) -> Option<Option<u32>> {
        self.entries.get(&(pair.old.index, pair.new.index)).copied()
    }
}
