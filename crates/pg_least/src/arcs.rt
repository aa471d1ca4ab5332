//! Edges between pairs, by the indices of the pairs in a list.

ghost use Rattle.std.specs.Prelude.{◌≡◌, ◌<◌, ℕ, List, length, map, flat_map, slice_get, ◌++◌, is_some, true, Some, IfOk, OnOk};
ghost use Rattle.std.specs.BTreeMap.{get};
ghost use Rattle.std.specs.List.{AllByRecursion};
ghost use Rattle.std.specs.List.Sorted.{IsPermutation};
ghost use Rattle.pg_pairs.specs.declared.choices.choice.Pair.{Pair};
ghost use Rattle.pg_pairs.specs.declared.graph.edge.Edge.{Edge};
ghost use Rattle.pg_pairs.specs.bounds.Covering.{IsAmong};
ghost use Rattle.pg_pairs.specs.laws.ByIndices.{by_indices};
ghost use Rattle.pg_pairs.specs.graph.Walks.{AreClosed};
ghost use Rattle.pg_least.specs.declared.arcs.Arc.{Arc};
ghost use Rattle.pg_least.specs.inner.Graphs.{AreByChild, arcs_to};
ghost use Rattle.pg_least.specs.inner.Places.{ArePlaces, IsPlaced};

use pg_pairs::{Edge, Pair, Prices};
use std::alloc::{AllocError, Global};
use std::collections::BTreeMap;

/// An edge, with the indices of its pairs.
#[derive(Clone, Copy, Debug, PartialEq, Eq)]
pub(crate) struct Arc {
    pub from: usize,
    pub child: usize,
    pub edge: Edge,
}

/// An index of each pair.
fn places_of(alloc: Global, pairs: &[Pair]) -> Result<BTreeMap<(u32, u32), usize>, AllocError>
    ensures { IfOk result (ArePlaces pairs.now (length pairs.now)) }
{
    let mut places = BTreeMap::new(alloc);
    for at in 0..pairs.len() {
        let pair = pairs[at];
        places.insert((pair.old.index, pair.new.index), at)?;
    }
    Ok(places)
}

/// The index of a pair that has one.
fn place_of(places: &BTreeMap<(u32, u32), usize>, pair: Pair) -> usize
    requires { is_some (get by_indices places.now (pair.old.index, pair.new.index)) ≡ true }
    ensures { get by_indices places.now (pair.old.index, pair.new.index) ≡ Some result }
{
    let found = places.get(&(pair.old.index, pair.new.index)).copied();
    match found {
        Some(at) => at,
        None => unreachable!(),
    }
}

/// Adds the edges of the pair of that index to the arcs.
fn add_arcs(
    arcs: &mut Vec<Arc>,
    places: &BTreeMap<(u32, u32), usize>,
    from: usize,
    edges: &[Edge],
) -> Result<(), AllocError>
    requires { AllByRecursion (λ (e : Edge).
        is_some (get by_indices places.now (e.child.old.index, e.child.new.index)) ≡ true)
        edges.now }
    ensures edges { OnOk result (map (λ a. a.edge) arcs.new.items ≡ map (λ a. a.edge) arcs.old.items
        ++ edges.now) }
    ensures placed { OnOk result ((pairs : List Pair) → ArePlaces pairs (length pairs) places.now
        → AllByRecursion (λ (e : Edge). slice_get pairs from ≡ Some e.from) edges.now
        → AllByRecursion (IsPlaced pairs) arcs.old.items
        → AllByRecursion (IsPlaced pairs) arcs.new.items) }
{
    for edge in edges {
        let child = place_of(places, edge.child);
        arcs.push(Arc {
            from,
            child,
            edge: *edge,
        })?;
    }
    Ok(())
}

/// The edges of those pairs in their order, with the indices of the pairs that they lead from and
/// to.
fn arcs_in_order<G: Prices>(
    alloc: Global,
    graph: &G,
    pairs: &[Pair],
) -> Result<Vec<Arc>, AllocError>
    requires known { AllByRecursion (λ p. G.is_known graph.now p ≡ true) pairs.now }
    requires closed { AreClosed (G.children_of graph.now) pairs.now }
    ensures edges { IfOk result (λ arcs. map (λ a. a.edge) arcs.items
        ≡ flat_map (G.edges_of graph.now) pairs.now) }
    ensures placed { IfOk result (λ arcs. AllByRecursion (IsPlaced pairs.now) arcs.items) }
{
    let places = places_of(alloc, pairs)?;
    let mut arcs = Vec::new(alloc);
    for at in 0..pairs.len() {
        let edges = graph.edges(alloc, pairs[at])?;
        add_arcs(&mut arcs, &places, at, &edges)?;
    }
    Ok(arcs)
}

/// The edges of those pairs, with the indices of the pairs that they lead from and to, by the
/// indices that they lead to.
pub(crate) fn arcs_of<G: Prices>(
    alloc: Global,
    graph: &G,
    pairs: &[Pair],
) -> Result<Vec<Arc>, AllocError>
    requires known { AllByRecursion (λ p. G.is_known graph.now p ≡ true) pairs.now }
    requires closed { AreClosed (G.children_of graph.now) pairs.now }
    ensures edges { IfOk result (λ arcs. IsPermutation (flat_map (G.edges_of graph.now) pairs.now)
        (map (λ a. a.edge) arcs.items)) }
    ensures placed { IfOk result (λ arcs. AllByRecursion (IsPlaced pairs.now) arcs.items) }
    ensures by_child { IfOk result (λ arcs. AreByChild arcs.items) }
{
    let mut arcs = arcs_in_order(alloc, graph, pairs)?;
    arcs.sort_unstable_by_key(|arc| arc.child);
    Ok(arcs)
}

/// The arcs to the pair of that index, of arcs in the order of the pairs that they lead to.
pub(crate) fn arcs_to(arcs: &[Arc], at: usize) -> &[Arc]
    requires { AreByChild arcs.now }
    ensures { result.now ≡ arcs_to arcs.now at }
{
    let start = arcs.partition_point(|arc| arc.child < at);
    let rest = &arcs[start..];
    let count = rest.partition_point(|arc| arc.child <= at);
    &rest[..count]
}
