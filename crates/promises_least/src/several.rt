//! What a search from several roots answers.

ghost use Rattle.std.specs.Prelude.{◌≡◌, true, IfOk};
ghost use Rattle.std.specs.List.{AllByRecursion};
ghost use Rattle.pg_schema.specs.Parts.{shape_of};
ghost use Rattle.pg_pairs.specs.graph.Edges.{edges, is_pair};
ghost use Rattle.pg_pairs.specs.graph.GraphView.{seen};
ghost use Rattle.pg_least.specs.From.{AreBoundsFrom, IsSettledFrom};
ghost use Rattle.pg_least.specs.Least.{IsCounted};

use pg_cert::Bounds;
use pg_pairs::{Pair, Priced, Prices, Work};
use std::alloc::{AllocError, Global};

/// What `settle_from` answers.
pub fn settle_from<G: Prices>(
    alloc: Global,
    graph: &G,
    roots: &[Pair],
) -> Result<(Bounds, Work), AllocError>
    requires { AllByRecursion (λ p. G.is_known graph.now p ≡ true) roots.now }
    ensures settled { IfOk result (λ found. IsSettledFrom (G.children_of graph.now)
        (G.edges_of graph.now) (G.base_of graph.now) (G.price_of graph.now) roots.now found.0) }
    ensures counted { IfOk result (λ found. IsCounted (G.edges_of graph.now) found.0 found.1) }
{
    pg_least::settle_from(alloc, graph, roots)
}

/// What `bounds_from` answers.
pub fn bounds_from(
    alloc: Global,
    graph: &Priced<'_>,
    roots: &[Pair],
) -> Result<(Bounds, Work), AllocError>
    requires { AllByRecursion (λ r. is_pair (shape_of graph.now.old.now)
        (shape_of graph.now.new.now) r ≡ true) roots.now }
    ensures bounds { IfOk result (λ found. AreBoundsFrom (seen graph.now)
        (shape_of graph.now.old.now) (shape_of graph.now.new.now) roots.now found.0) }
    ensures counted { IfOk result (λ found. IsCounted
        (edges (shape_of graph.now.old.now) (shape_of graph.now.new.now)) found.0 found.1) }
{
    pg_least::bounds_from(alloc, graph, roots)
}
