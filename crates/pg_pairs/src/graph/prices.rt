//! Graphs of pairs, known by what they cost.

ghost use Rattle.std.specs.Prelude.{◌≡◌, ◌+◌, ◌<◌, ◌≤◌, ◌^◌, ℕ, Bool, true, List, length, Option, Some, IfOk, IfSome, OnErr, OnOk};
ghost use Rattle.std.specs.List.{AllByRecursion};
ghost use Rattle.pg_dyn.specs.encoding.Encoding.{cap};
ghost use Rattle.pg_pairs.specs.declared.choices.choice.Pair.{Pair};
ghost use Rattle.pg_pairs.specs.declared.graph.edge.Edge.{Edge};
ghost use Rattle.pg_pairs.specs.bounds.Covering.{IsAmong, distinct};
ghost use Rattle.pg_pairs.specs.graph.Works.{opened_more, relaxed_more};

use crate::choices::choice::Pair;
use crate::graph::edge::Edge;
use crate::graph::work::Work;
use std::alloc::{AllocError, Global};

/// A graph of pairs: which it knows, their children, and what each costs: a base of its own, or
/// what an edge to a child costs at the child's bound.
///
/// The laws: children of known pairs are known; at most 2^24 pairs are, and a known pair has at
/// most 2^30 edges, each from the pair to one of its children; costs are above 0 and at most
/// 2,147,483,647, and at a bound above 0 an edge costs more than this.
pub trait Prices {
    ghost is_known: { Self → Pair → Bool };

    ghost children_of: { Self → Pair → List Pair };

    ghost edges_of: { Self → Pair → List Edge };

    ghost base_of: { Self → Pair → Option ℕ };

    ghost price_of: { Self → Edge → ℕ → Option ℕ };

    ghost known_are_few: { (graph : Self) (pairs : List Pair) → distinct pairs ≡ pairs
        → AllByRecursion (λ p. is_known graph p ≡ true) pairs → length pairs ≤ 2 ^ 24 };

    ghost children_are_known: { (graph : Self) (pair child : Pair) → is_known graph pair ≡ true
        → IsAmong child (children_of graph pair) → is_known graph child ≡ true };

    ghost edges_are_few: { (graph : Self) (pair : Pair) → is_known graph pair ≡ true
        → length (edges_of graph pair) ≤ 2 ^ 30 };

    ghost edges_lead_to_children: { (graph : Self) (pair : Pair) (edge : Edge)
        → is_known graph pair ≡ true → IsAmong edge (edges_of graph pair)
        → (edge.from ≡ pair) × IsAmong edge.child (children_of graph pair) };

    ghost bases_are_lengths: { (graph : Self) (pair : Pair) → is_known graph pair ≡ true
        → IfSome (base_of graph pair) (λ cost. (1 ≤ cost) × (cost ≤ cap)) };

    ghost edges_cost_more: { (graph : Self) (pair : Pair) (edge : Edge) (bound : ℕ) → 1 ≤ bound
        → is_known graph pair ≡ true → IsAmong edge (edges_of graph pair)
        → IfSome (price_of graph edge bound) (λ cost. (bound < cost) × (cost ≤ cap)) };

    /// Whether the pair is known.
    fn knows(&self, pair: Pair) -> bool
        ensures { result ≡ is_known self.now pair };

    /// The pairs that a known pair leads to.
    fn children(&self, alloc: Global, pair: Pair) -> Result<Vec<Pair>, AllocError>
        requires { is_known self.now pair ≡ true }
        ensures { IfOk result (λ pairs. pairs.items ≡ children_of self.now pair) };

    /// The edges of a known pair.
    fn edges(&self, alloc: Global, pair: Pair) -> Result<Vec<Edge>, AllocError>
        requires { is_known self.now pair ≡ true }
        ensures { IfOk result (λ edges. edges.items ≡ edges_of self.now pair) };

    /// What a known pair costs without a child; `None` where nothing does. The pair counts as
    /// opened, but not where memory is refused.
    fn base(&self, alloc: Global, pair: Pair, work: &mut Work) -> Result<Option<u32>, AllocError>
        requires known { is_known self.now pair ≡ true }
        requires room { work.old.opened + 1 < 2 ^ 64 }
        ensures cost { IfOk result (λ cost. cost ≡ base_of self.now pair) }
        ensures counted { OnOk result (work.new ≡ opened_more work.old) }
        ensures unchanged { OnErr result (work.new ≡ work.old) };

    /// What an edge of a known pair costs where its child has that bound; `None` where this is no
    /// cost. The edge counts as relaxed.
    fn edge_cost(&self, edge: &Edge, bound: u32, work: &mut Work) -> Option<u32>
        requires known { is_known self.now edge.now.from ≡ true }
        requires edge { IsAmong edge.now (edges_of self.now edge.now.from) }
        requires room { work.old.relaxed + 1 < 2 ^ 64 }
        ensures cost { result ≡ price_of self.now edge.now bound }
        ensures counted { work.new ≡ relaxed_more work.old };
}
