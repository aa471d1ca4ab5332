//! The pairs that root pairs lead to.

ghost use Rattle.std.specs.Prelude.{◌≡◌, ◌++◌, true, IfOk, OnOk};
ghost use Rattle.std.specs.List.{AllByRecursion};
ghost use Rattle.pg_pairs.specs.bounds.Covering.{distinct};
ghost use Rattle.pg_pairs.specs.graph.Reached.{IsReachedFrom, IsReachedInOrder};
ghost use Rattle.pg_pairs.specs.graph.Walks.{AreClosed};
ghost use Rattle.pg_pairs.specs.inner.Seen.{AreSeen};

use crate::choices::choice::Pair;
use crate::graph::prices::Prices;
use std::alloc::{AllocError, Global};
use std::collections::BTreeSet;

/// Adds those of the pairs found that weren't seen yet, in their order.
pub(crate) fn add_unseen(
    pairs: &mut Vec<Pair>,
    seen: &mut BTreeSet<(u32, u32)>,
    found: &[Pair],
) -> Result<(), AllocError>
    requires once { distinct pairs.old.items ≡ pairs.old.items }
    requires seen { AreSeen pairs.old.items seen.old }
    ensures added { OnOk result (pairs.new.items ≡ distinct (pairs.old.items ++ found.now)) }
    ensures seen { OnOk result (AreSeen pairs.new.items seen.new) }
{
    for pair in found {
        if seen.insert((pair.old.index, pair.new.index))? {
            pairs.push(*pair)?;
        }
    }
    Ok(())
}

/// The roots, which the graph knows, in their order, then the children of each pair in turn, each
/// pair once, where it was first seen. The graph knows them all.
///
/// Refused only where memory is.
pub fn reached_from<G: Prices>(
    alloc: Global,
    graph: &G,
    roots: &[Pair],
) -> Result<Vec<Pair>, AllocError>
    requires { AllByRecursion (λ p. G.is_known graph.now p ≡ true) roots.now }
    ensures in_order { IfOk result (λ pairs. IsReachedFrom
        (G.children_of graph.now) roots.now pairs.items) }
    ensures once { IfOk result (λ pairs. distinct pairs.items ≡ pairs.items) }
    ensures closed { IfOk result (λ pairs. AreClosed (G.children_of graph.now) pairs.items) }
    ensures known { IfOk result (λ pairs. AllByRecursion
        (λ p. G.is_known graph.now p ≡ true) pairs.items) }
{
    let mut pairs = Vec::new(alloc);
    let mut seen = BTreeSet::new(alloc);
    add_unseen(&mut pairs, &mut seen, roots)?;
    for at in 0..usize::MAX {
        let Some(pair) = pairs.get(at).copied() else {
            break;
        };
        let found = graph.children(alloc, pair)?;
        add_unseen(&mut pairs, &mut seen, &found)?;
    }
    Ok(pairs)
}

/// The root, which the graph knows, then the children of each pair in turn, each pair once, where
/// it was first seen. The graph knows them all.
///
/// Refused only where memory is.
pub fn reached_pairs<G: Prices>(
    alloc: Global,
    graph: &G,
    root: Pair,
) -> Result<Vec<Pair>, AllocError>
    requires { G.is_known graph.now root ≡ true }
    ensures in_order { IfOk result (λ pairs. IsReachedInOrder
        (G.children_of graph.now) root pairs.items) }
    ensures once { IfOk result (λ pairs. distinct pairs.items ≡ pairs.items) }
    ensures closed { IfOk result (λ pairs. AreClosed (G.children_of graph.now) pairs.items) }
    ensures known { IfOk result (λ pairs. AllByRecursion
        (λ p. G.is_known graph.now p ≡ true) pairs.items) }
{
    reached_from(alloc, graph, &[root])
}
