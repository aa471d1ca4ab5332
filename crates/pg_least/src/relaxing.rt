//! Settling costs, the least first.

ghost use Rattle.std.specs.Prelude.{◌≡◌, ◌+◌, ◌++◌, ◌<◌, ◌^◌, ℕ, List, length, slice_set as set, true, false, Bool, Option, Some, IfOk, IfSome, IfNone, OnOk};
ghost use Rattle.std.specs.List.{AllByRecursion};
ghost use Rattle.std.specs.BinaryHeap.{heap_items};
ghost use Rattle.pg_pairs.specs.graph.Works.{relaxed_more};
ghost use Rattle.pg_least.specs.declared.arcs.Arc.{Arc};
ghost use Rattle.pg_pairs.specs.bounds.Covering.{IsAmong};
ghost use Rattle.pg_pairs.specs.bounds.LeastCosts.{IsNoMore};
ghost use Rattle.pg_least.specs.inner.Relaxing.{Arcs, AreNumbers, IsBalanced, IsLess, IsRelaxed, Stands, cost_at, is_set, waits};
ghost use Rattle.pg_least.specs.inner.Graphs.{AreByChild, IsArc, arcs_by, arcs_to_numbers, relaxed_by};

use crate::arcs::{Arc, arcs_to};
use crate::queue::Queue;
use pg_pairs::{Prices, Work};
use std::alloc::{AllocError, Global};

/// How far settling has got: the indices that wait, and the work so far.
#[derive(Drop)]
struct Progress {
    queue: Queue,
    work: Work,
}

/// Whether there is a number that is no more.
fn is_no_more(bound: Option<u32>, cost: u32) -> bool
    ensures no_more { result ≡ true → IsNoMore bound (Some cost) }
    ensures less { result ≡ false → IsLess cost bound }
{
    match bound {
        Some(bound) => bound <= cost,
        None => false,
    }
}

/// Lowers the cost of the arc's pair to what the arc costs at that bound, where this is less.
fn relax<G: Prices>(
    graph: &G,
    arc: &Arc,
    bound: u32,
    costs: &mut [Option<u32>],
    progress: &mut Progress,
) -> Result<(), AllocError>
    requires arc { IsArc (G.is_known graph.now) (G.edges_of graph.now) (length costs.old) arc.now }
    requires room { progress.old.work.relaxed + 1 < 2 ^ 64 }
    ensures relaxed { OnOk result (IsRelaxed arc.now.from
        (G.price_of graph.now arc.now.edge bound) costs.old (heap_items progress.old.queue.heap)
        costs.new (heap_items progress.new.queue.heap)) }
    ensures counted { OnOk result (progress.new.work ≡ relaxed_more progress.old.work) }
{
    let Some(cost) = graph.edge_cost(&arc.edge, bound, &mut progress.work) else {
        return Ok(());
    };
    let former = costs[arc.from];
    if is_no_more(former, cost) {
        return Ok(());
    }
    costs[arc.from] = Some(cost);
    progress.queue.push(cost, arc.from)
}

/// Lowers the costs by each of those arcs.
fn relax_all<G: Prices>(
    graph: &G,
    arcs: &[Arc],
    bound: u32,
    costs: &mut [Option<u32>],
    progress: &mut Progress,
) -> Result<(), AllocError>
    requires arcs { AllByRecursion (IsArc (G.is_known graph.now) (G.edges_of graph.now)
        (length costs.old)) arcs.now }
    requires room { progress.old.work.relaxed + length arcs.now < 2 ^ 64 }
    ensures stands { OnOk result ((all done : List Arc) (bases : List (Option ℕ))
        (settled : List Bool) → AllByRecursion
        (λ a. IsAmong a all × (is_set settled a.child ≡ true)
        × (cost_at costs.old a.child ≡ Some bound)) arcs.now
        → Stands (arcs_by (G.price_of graph.now)) all bases done costs.old settled
        (heap_items progress.old.queue.heap) bound
        → Stands (arcs_by (G.price_of graph.now)) all bases (done ++ arcs.now) costs.new settled
        (heap_items progress.new.queue.heap) bound) }
    ensures counted { OnOk result (progress.new.work
        ≡ relaxed_by (length arcs.now) progress.old.work) }
{
    for arc in arcs {
        relax(graph, arc, bound, costs, progress)?;
    }
    Ok(())
}

/// Whether an index of that cost still waits.
fn is_live(costs: &[Option<u32>], settled: &[bool], cost: u32, at: usize) -> bool
    requires { length settled.now ≡ length costs.now }
    ensures within { result ≡ true → at < length costs.now }
    ensures fresh { result ≡ true → is_set settled.now at ≡ false }
    ensures costs { result ≡ true → cost_at costs.now at ≡ Some cost }
    ensures stale { result ≡ false → is_set settled.now at ≡ false
        → cost_at costs.now at ≡ Some cost → ⊥ }
{
    at < costs.len() && !settled[at] && costs[at] == Some(cost)
}

/// Takes the index of the least cost out of those that wait.
fn next_live(queue: &mut Queue, costs: &[Option<u32>], settled: &[bool]) -> Option<(u32, usize)>
    requires { length settled.now ≡ length costs.now }
    ensures within { IfSome result (λ e. e.1 < length costs.now) }
    ensures fresh { IfSome result (λ e. is_set settled.now e.1 ≡ false) }
    ensures costs { IfSome result (λ e. cost_at costs.now e.1 ≡ Some e.0) }
    ensures settles { IfSome result (λ e. (g : Arcs Arc) (all done : List Arc)
        (bases : List (Option ℕ)) (level : ℕ)
        → Stands g all bases done costs.now settled.now (heap_items queue.old.heap) level
        → Stands g all bases done costs.now (set settled.now e.1 true)
        (heap_items queue.new.heap) e.0) }
    ensures none { IfNone result ((g : Arcs Arc) (all done : List Arc) (bases : List (Option ℕ))
        (level : ℕ) → Stands g all bases done costs.now settled.now
        (heap_items queue.old.heap) level → (i c : ℕ) → cost_at costs.now i ≡ Some c
        → is_set settled.now i ≡ true) }
{
    while let Some((cost, at)) = queue.pop() {
        if is_live(costs, settled, cost, at) {
            return Some((cost, at));
        }
    }
    None
}

/// All indices that have a cost.
fn waiting(alloc: Global, costs: &[Option<u32>]) -> Result<Queue, AllocError>
    ensures { IfOk result (λ queue. (i c : ℕ) → cost_at costs.now i ≡ Some c
        → waits (heap_items queue.heap) c i ≡ true) }
{
    let mut queue = Queue::new(alloc);
    for at in 0..costs.len() {
        if let Some(cost) = costs[at] {
            queue.push(cost, at)?;
        }
    }
    Ok(queue)
}

/// Lowers the costs of pairs, which are those that they have without an arc, until each is the
/// least of this and of what its arcs cost at the costs of their children. The arcs are in the
/// order of the indices that they lead to.
///
/// Refused only where memory is.
pub(crate) fn settle_all<G: Prices>(
    alloc: Global,
    graph: &G,
    arcs: &[Arc],
    costs: &mut [Option<u32>],
    work: &mut Work,
) -> Result<(), AllocError>
    requires by_child { AreByChild arcs.now }
    requires arcs { AllByRecursion (IsArc (G.is_known graph.now) (G.edges_of graph.now)
        (length costs.old)) arcs.now }
    requires numbers { AreNumbers costs.old }
    requires room { work.old.relaxed + length arcs.now < 2 ^ 64 }
    ensures balanced { OnOk result (IsBalanced
        (arcs_by (G.price_of graph.now)) arcs.now costs.old costs.new) }
    ensures counted { OnOk result (work.new
        ≡ relaxed_by (length (arcs_to_numbers arcs.now costs.new)) work.old) }
{
    let mut settled = vec![in alloc; false; costs.len()]?;
    let queue = waiting(alloc, costs)?;
    let mut progress = Progress { queue, work: *work };
    while let Some((bound, at)) = next_live(&mut progress.queue, costs, &settled) {
        settled[at] = true;
        relax_all(graph, arcs_to(arcs, at), bound, costs, &mut progress)?;
    }
    *work = progress.work;
    Ok(())
}
