//! Least bounds over a graph that is known by its prices alone.

ghost use Rattle.std.specs.Prelude.{◌≡◌, ◌+◌, ◌++◌, ◌∷◌, [], ◌<◌, ◌^◌, List, length, map, filter, flat_map, is_some, true, Option, IfOk, OnOk};
ghost use Rattle.std.specs.List.{AllByRecursion};
ghost use Rattle.pg_pairs.specs.bounds.Covering.{distinct};
ghost use Rattle.pg_pairs.specs.graph.Works.{opened_more};
ghost use Rattle.pg_cert.specs.Certificate.{is_bound};
ghost use Rattle.pg_least.specs.From.{IsSettledFrom};
ghost use Rattle.pg_least.specs.Least.{IsCounted, IsSettled};
ghost use Rattle.pg_least.specs.inner.Graphs.{lines, opened_by};

use crate::arcs::arcs_of;
use crate::relaxing::settle_all;
use pg_cert::{Bounds, BoundsError, PairBound};
use pg_pairs::laws::from_one_root;
use pg_pairs::{Pair, Prices, Work, reached_from};
use std::alloc::{AllocError, Global};

/// Adds what the pair costs without a child to the other costs.
fn add_base<G: Prices>(
    alloc: Global,
    graph: &G,
    pair: Pair,
    costs: &mut Vec<Option<u32>>,
    work: &mut Work,
) -> Result<(), AllocError>
    requires known { G.is_known graph.now pair ≡ true }
    requires room { work.old.opened + 1 < 2 ^ 64 }
    ensures base { OnOk result (costs.new.items
        ≡ costs.old.items ++ G.base_of graph.now pair ∷ []) }
    ensures counted { OnOk result (work.new ≡ opened_more work.old) }
{
    let cost = graph.base(alloc, pair, work)?;
    costs.push(cost)?;
    Ok(())
}

/// What each pair costs without a child.
fn bases_of<G: Prices>(
    alloc: Global,
    graph: &G,
    pairs: &[Pair],
    work: &mut Work,
) -> Result<Vec<Option<u32>>, AllocError>
    requires known { AllByRecursion (λ p. G.is_known graph.now p ≡ true) pairs.now }
    requires room { work.old.opened + length pairs.now < 2 ^ 64 }
    ensures bases { IfOk result (λ costs. costs.items ≡ map (G.base_of graph.now) pairs.now) }
    ensures counted { OnOk result (work.new ≡ opened_by (length pairs.now) work.old) }
{
    let mut costs = Vec::with_capacity(alloc, pairs.len())?;
    for pair in pairs {
        add_base(alloc, graph, *pair, &mut costs, work)?;
    }
    Ok(costs)
}

/// The table of those pairs with those costs.
fn table_of(alloc: Global, pairs: &[Pair], costs: &[Option<u32>]) -> Result<Bounds, AllocError>
    requires once { distinct pairs.now ≡ pairs.now }
    requires long { length costs.now ≡ length pairs.now }
    requires bounds { AllByRecursion (λ o. is_bound o ≡ true) costs.now }
    ensures { IfOk result (λ bounds. bounds ≡ lines pairs.now costs.now) }
{
    let mut bounds = Vec::with_capacity(alloc, pairs.len())?;
    for at in 0..pairs.len() {
        bounds.push(PairBound {
            pair: pairs[at],
            bound: costs[at],
        })?;
    }
    match Bounds::new(alloc, bounds) {
        Ok(bounds) => Ok(bounds),
        Err((BoundsError::Memory, _)) => Err(AllocError),
        // Each pair is there once, and each number is one that a message may have.
        Err((BoundsError::Invariant, _)) => unreachable!(),
    }
}

/// How many costs are numbers.
fn count_numbers(costs: &[Option<u32>]) -> u64
    ensures { result ≡ length (filter is_some costs.now) }
{
    let mut count = 0;
    for cost in costs {
        if cost.is_some() {
            count += 1;
        }
    }
    count
}

/// The least bounds of pairs that the graph knows, the roots, and of the pairs that they lead to,
/// breadth first, each the least of the pair's base and of what its edges cost at the bounds of
/// their children, 'none' where there is none; and the work that they took: the pairs whose bound
/// is a number, the edges whose child's bound is one, and the pairs.
///
/// Refused only where memory is.
pub fn settle_from<G: Prices>(
    alloc: Global,
    graph: &G,
    roots: &[Pair],
) -> Result<(Bounds, Work), AllocError>
    requires { AllByRecursion (λ p. G.is_known graph.now p ≡ true) roots.now }
    ensures settled { IfOk result (λ found. IsSettledFrom (G.children_of graph.now)
        (G.edges_of graph.now) (G.base_of graph.now) (G.price_of graph.now) roots.now found.0) }
    ensures counted { IfOk result (λ found. IsCounted (G.edges_of graph.now) found.0 found.1) }
{
    let mut work = Work {
        settled: 0,
        relaxed: 0,
        opened: 0,
    };
    let pairs = reached_from(alloc, graph, roots)?;
    let mut costs = bases_of(alloc, graph, &pairs, &mut work)?;
    let arcs = arcs_of(alloc, graph, &pairs)?;
    settle_all(alloc, graph, &arcs, &mut costs, &mut work)?;
    work.settled = count_numbers(&costs);
    Ok((table_of(alloc, &pairs, &costs)?, work))
}

/// The least bounds of a pair that the graph knows and of the pairs that it leads to, breadth
/// first, each the least of the pair's base and of what its edges cost at the bounds of their
/// children, 'none' where there is none; and the work that they took: the pairs whose bound is a
/// number, the edges whose child's bound is one, and the pairs.
///
/// Refused only where memory is.
pub fn settle<G: Prices>(alloc: Global, graph: &G, root: Pair) -> Result<(Bounds, Work), AllocError>
    requires { G.is_known graph.now root ≡ true }
    ensures settled { IfOk result (λ found. IsSettled (G.children_of graph.now)
        (G.edges_of graph.now) (G.base_of graph.now) (G.price_of graph.now) root found.0) }
    ensures counted { IfOk result (λ found. IsCounted (G.edges_of graph.now) found.0 found.1) }
{
    // The pairs reached from one root alone are those that it leads to.
    from_one_root();
    settle_from(alloc, graph, &[root])
}
