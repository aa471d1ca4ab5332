//! What the graph of two schemas answers.

ghost use Rattle.std.specs.Prelude.{◌≡◌, ◌+◌, ◌<◌, ◌^◌, true, IfOk, OnErr, OnOk};
ghost use Rattle.std.specs.List.{AllByRecursion};
ghost use Rattle.pg_schema.specs.Parts.{shape_of};
ghost use Rattle.pg_pairs.specs.bounds.Covering.{IsAmong};
ghost use Rattle.pg_pairs.specs.choices.Choices.{no_bounds};
ghost use Rattle.pg_pairs.specs.bounds.Covering as covering;
ghost use Rattle.pg_pairs.specs.graph.Edges as prices;
ghost use Rattle.pg_pairs.specs.graph.GraphView.{seen};
ghost use Rattle.pg_pairs.specs.bounds.LeastCosts.{least_cost};
ghost use Rattle.pg_pairs.specs.graph.Reached.{IsReachedFrom, IsReachedInOrder};
ghost use Rattle.pg_pairs.specs.graph.Walks.{AreClosed};
ghost use Rattle.pg_pairs.specs.graph.Works.{opened_more, relaxed_more};

use pg_pairs::{Edge, Pair, Priced, Prices, View, Work};
use pg_schema::Schema;
use std::alloc::{AllocError, Global};

/// The graph of two schemas under a view.
pub fn priced<'a, V: View>(view: &V, old: &'a Schema, new: &'a Schema) -> Priced<'a>
    ensures view { result.view ≡ V.name_of view.now }
    ensures old { result.old.now ≡ old.now }
    ensures new { result.new.now ≡ new.now }
{
    Priced::new(view, old, new)
}

/// Whether it knows the pair.
pub fn knows(graph: &Priced<'_>, pair: Pair) -> bool
    ensures { result ≡ prices.is_pair (shape_of graph.now.old.now)
        (shape_of graph.now.new.now) pair }
{
    graph.knows(pair)
}

/// The children of the pair.
pub fn children(alloc: Global, graph: &Priced<'_>, pair: Pair) -> Result<Vec<Pair>, AllocError>
    requires { prices.is_pair (shape_of graph.now.old.now) (shape_of graph.now.new.now) pair
        ≡ true }
    ensures { IfOk result (λ pairs. pairs.items
        ≡ covering.children (shape_of graph.now.old.now) (shape_of graph.now.new.now) pair) }
{
    graph.children(alloc, pair)
}

/// The edges of the pair.
pub fn edges(alloc: Global, graph: &Priced<'_>, pair: Pair) -> Result<Vec<Edge>, AllocError>
    requires { prices.is_pair (shape_of graph.now.old.now) (shape_of graph.now.new.now) pair
        ≡ true }
    ensures { IfOk result (λ edges. edges.items
        ≡ prices.edges (shape_of graph.now.old.now) (shape_of graph.now.new.now) pair) }
{
    graph.edges(alloc, pair)
}

/// What the pair costs without a child.
pub fn base(
    alloc: Global,
    graph: &Priced<'_>,
    pair: Pair,
    work: &mut Work,
) -> Result<Option<u32>, AllocError>
    requires known { prices.is_pair (shape_of graph.now.old.now) (shape_of graph.now.new.now) pair
        ≡ true }
    requires room { work.old.opened + 1 < 2 ^ 64 }
    ensures cost { IfOk result (λ cost. cost
        ≡ least_cost (seen graph.now)
        no_bounds (shape_of graph.now.old.now) (shape_of graph.now.new.now) pair) }
    ensures counted { OnOk result (work.new ≡ opened_more work.old) }
    ensures unchanged { OnErr result (work.new ≡ work.old) }
{
    graph.base(alloc, pair, work)
}

/// What the edge costs at that bound of its child.
pub fn edge_cost(graph: &Priced<'_>, edge: &Edge, bound: u32, work: &mut Work) -> Option<u32>
    requires known { prices.is_pair (shape_of graph.now.old.now)
        (shape_of graph.now.new.now) edge.now.from ≡ true }
    requires edge { IsAmong edge.now
        (prices.edges (shape_of graph.now.old.now) (shape_of graph.now.new.now) edge.now.from) }
    requires room { work.old.relaxed + 1 < 2 ^ 64 }
    ensures cost { result ≡ prices.edge_price (shape_of graph.now.old.now) edge.now bound }
    ensures counted { work.new ≡ relaxed_more work.old }
{
    graph.edge_cost(edge, bound, work)
}

/// What `reached_pairs` answers.
pub fn reached_pairs<G: Prices>(
    alloc: Global,
    graph: &G,
    root: Pair,
) -> Result<Vec<Pair>, AllocError>
    requires { G.is_known graph.now root ≡ true }
    ensures in_order { IfOk result (λ pairs. IsReachedInOrder
        (G.children_of graph.now) root pairs.items) }
    ensures once { IfOk result (λ pairs. covering.distinct pairs.items ≡ pairs.items) }
    ensures closed { IfOk result (λ pairs. AreClosed (G.children_of graph.now) pairs.items) }
    ensures known { IfOk result (λ pairs. AllByRecursion
        (λ p. G.is_known graph.now p ≡ true) pairs.items) }
{
    pg_pairs::reached_pairs(alloc, graph, root)
}

/// What `reached_from` answers.
pub fn reached_from<G: Prices>(
    alloc: Global,
    graph: &G,
    roots: &[Pair],
) -> Result<Vec<Pair>, AllocError>
    requires { AllByRecursion (λ p. G.is_known graph.now p ≡ true) roots.now }
    ensures in_order { IfOk result (λ pairs. IsReachedFrom
        (G.children_of graph.now) roots.now pairs.items) }
    ensures once { IfOk result (λ pairs. covering.distinct pairs.items ≡ pairs.items) }
    ensures closed { IfOk result (λ pairs. AreClosed (G.children_of graph.now) pairs.items) }
    ensures known { IfOk result (λ pairs. AllByRecursion
        (λ p. G.is_known graph.now p ≡ true) pairs.items) }
{
    pg_pairs::reached_from(alloc, graph, roots)
}
