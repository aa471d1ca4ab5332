//! Indices of pairs that wait, each with a cost, of which the least comes first.

ghost use Rattle.std.specs.Prelude.{◌≡◌, ◌+◌, [], IfSome, IfNone, OnOk, OnSome};
ghost use Rattle.std.specs.BinaryHeap.{IsHeap, heap_items, heap_len};
ghost use Rattle.std.proofs.Props.{props};
ghost use Rattle.pg_least.specs.inner.Queues.{by_cost, IsOneMore, IsLeastTaken};

use std::alloc::{AllocError, Global};
use std::cmp::Reverse;
use std::collections::BinaryHeap;

/// Indices with costs, the least cost first.
#[derive(Drop)]
pub(crate) struct Queue {
    heap: BinaryHeap<Reverse<(u32, usize)>>,
    ghost ordered: { IsHeap by_cost (heap_items heap) } by { Prim.hlevel props },
}

impl Queue {
    /// With nothing in it.
    pub(crate) fn new(alloc: Global) -> Queue
        ensures { heap_items result.heap ≡ [] }
    {
        Queue {
            heap: BinaryHeap::new(alloc),
        }
    }

    /// Adds an index.
    pub(crate) fn push(&mut self, cost: u32, at: usize) -> Result<(), AllocError>
        ensures { OnOk result (IsOneMore (heap_items self.old.heap) cost at
            (heap_items self.new.heap)) }
    {
        self.heap.push(Reverse((cost, at)))?;
        Ok(())
    }

    /// Takes an index of the least cost.
    pub(crate) fn pop(&mut self) -> Option<(u32, usize)>
        ensures len { OnSome result (heap_len self.new.heap + 1 ≡ heap_len self.old.heap) }
        ensures least { IfSome result
            (λ e. IsLeastTaken (heap_items self.old.heap) e.0 e.1 (heap_items self.new.heap)) }
        ensures none { IfNone result (heap_items self.old.heap ≡ []) }
        ensures unchanged { IfNone result (heap_items self.new.heap ≡ heap_items self.old.heap) }
    {
        let Reverse((cost, at)) = self.heap.pop()?;
        Some((cost, at))
    }
}
