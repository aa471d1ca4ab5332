//! The search from several roots.

ghost use Rattle.std.specs.Prelude.{◌≡◌, true, IfOk};
ghost use Rattle.std.specs.List.{AllByRecursion};
ghost use Rattle.pg_schema.specs.Parts.{shape_of};
ghost use Rattle.pg_pairs.specs.graph.Edges.{edges, is_pair};
ghost use Rattle.pg_pairs.specs.graph.GraphView.{seen};
ghost use Rattle.pg_least.specs.From.{AreBoundsFrom};
ghost use Rattle.pg_least.specs.Least.{IsCounted};

use crate::least_bounds::settle_from;
use pg_cert::Bounds;
use pg_pairs::laws::{
    exact_is_least, least_costs_are_exact, least_costs_by_edges, none_is_compatible, sees,
};
use pg_pairs::{Pair, Priced, Work};
use std::alloc::{AllocError, Global};

/// The bounds of all pairs that the roots lead to under the graph's view, found by one search: each
/// the length of the shortest message of its pair that breaks, or 'none' where no message does; and
/// the work that they took. Both types of each root have to be there.
///
/// Refused only where memory is.
pub fn bounds_from(
    alloc: Global,
    graph: &Priced<'_>,
    roots: &[Pair],
) -> Result<(Bounds, Work), AllocError>
    requires { AllByRecursion (λ r. is_pair (shape_of graph.now.old.now)
        (shape_of graph.now.new.now) r ≡ true) roots.now }
    ensures bounds { IfOk result (λ found. AreBoundsFrom (seen graph.now)
        (shape_of graph.now.old.now) (shape_of graph.now.new.now) roots.now found.0) }
    ensures counted { IfOk result (λ found. IsCounted
        (edges (shape_of graph.now.old.now) (shape_of graph.now.new.now)) found.0 found.1) }
{
    // What holds of every schema, every view, all choices and every table.
    graph.old.parts();
    graph.new.parts();
    sees(graph);
    least_costs_are_exact();
    least_costs_by_edges();
    exact_is_least();
    none_is_compatible();
    settle_from(alloc, graph, roots)
}
