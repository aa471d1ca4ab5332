//! Two schemas as a graph of pairs.

ghost use Rattle.std.specs.Prelude.{◌≡◌, ◌<◌, ◌^◌, map, flat_map, option_map, IfOk};
ghost use Rattle.pg_schema.specs.Parts.{field_shape, shape_of};
ghost use Rattle.pg_schema.specs.Shape.{field_at, fields};
ghost use Rattle.pg_pairs.specs.bounds.Covering.{children, children_beside};
ghost use Rattle.pg_pairs.specs.graph.Edges.{ArePriced, edge_price, edge_to, edges, is_pair, part_of};
ghost use Rattle.pg_pairs.specs.choices.Choices.{no_bounds};
ghost use Rattle.pg_pairs.specs.bounds.LeastCosts.{least_cost};

use crate::choices::choice::{Choice, Pair};
use crate::choices::cost::{one_item, with_length};
use crate::choices::least_cost::cheapest;
use crate::graph::children::{child_beside, children};
use crate::graph::edge::{Edge, Part};
use crate::graph::prices::Prices;
use crate::graph::table::NoBounds;
use crate::graph::work::Work;
use crate::views::view::View;
use pg_dyn::{MAX_ENCODING_LEN, ViewName};
use pg_schema::{Field, Presence, Schema};
use std::alloc::{AllocError, Global};

/// Two schemas under a view, as a graph of the pairs of their message types. Without a child a pair
/// costs the least that its choices do; it has an edge for each field that holds messages in both
/// types, in maps as values under like keys, which costs what the choice of such a child does.
#[derive(Drop)]
pub struct Priced<'a> {
    pub view: ViewName,
    pub old: &'a Schema,
    pub new: &'a Schema,
    ghost priced: { ∥ ArePriced (shape_of old.now) (shape_of new.now) ∥₁ },
}

impl<'a> Priced<'a> {
    /// The graph of these schemas under the view.
    pub fn new<V: View>(view: &V, old: &'a Schema, new: &'a Schema) -> Self
        ensures view { result.view ≡ V.name_of view.now }
        ensures old { result.old.now ≡ old.now }
        ensures new { result.new.now ≡ new.now }
    {
        // What holds of every schema.
        old.parts();
        new.parts();
        Priced {
            view: view.name(),
            old,
            new,
        }
    }
}

/// What of a field with that presence an edge goes by.
fn part_of(presence: Presence) -> Part
    ensures { result ≡ part_of presence }
{
    match presence {
        Presence::Map { .. } => Part::Value,
        _ => Part::Whole,
    }
}

/// The edges of those fields of the pair.
fn edges_of(
    alloc: Global,
    new: &Schema,
    pair: Pair,
    list: &[Field],
) -> Result<Vec<Edge>, AllocError>
    ensures { IfOk result (λ edges. edges.items
        ≡ flat_map (λ f. map (edge_to pair f)
        (children_beside f (field_at (fields (shape_of new.now) pair.new) f.number)))
        (map field_shape list.now)) }
{
    let mut edges = Vec::new(alloc);
    for field in list {
        if let Some(child) = child_beside(new, pair.new, field) {
            edges.push(Edge {
                from: pair,
                child,
                number: field.number,
                part: part_of(field.presence),
            })?;
        }
    }
    Ok(edges)
}

/// What the edge costs at that bound, where an encoding may have so many bytes.
fn price(old: &Schema, edge: &Edge, bound: u32) -> Option<u32>
    ensures { result ≡ edge_price (shape_of old.now) edge.now bound }
{
    // What holds of every schema: a number is below 2^29.
    old.parts();
    let field = old.field(edge.from.old, edge.number)?;
    let cost = one_item(field, with_length(u64::from(bound)));
    if cost > MAX_ENCODING_LEN as u64 {
        return None;
    }
    Some(cost as u32)
}

/// The cost of a choice, where there is one.
fn cost_of(choice: Option<Choice>) -> Option<u32>
    ensures { result ≡ option_map (λ c. c.cost) choice }
{
    choice.map(|choice| choice.cost)
}

impl<'a> Prices for Priced<'a> {
    ghost use Rattle.std.proofs.Math.Logic.{∥∥₁_elim};
    ghost use Rattle.std.proofs.Props.{props};
    ghost use Rattle.pg_pairs.specs.laws.EdgeChildren.{edge_leads};
    ghost use Rattle.pg_pairs.specs.views.NamedView.{seen_under};

    ghost is_known = { λ it pair. is_pair (shape_of it.old.now) (shape_of it.new.now) pair };

    ghost children_of = { λ it pair. children (shape_of it.old.now) (shape_of it.new.now) pair };

    ghost edges_of = { λ it pair. edges (shape_of it.old.now) (shape_of it.new.now) pair };

    ghost base_of = { λ it pair. least_cost
        (seen_under it.view it.old.now it.new.now)
        no_bounds (shape_of it.old.now) (shape_of it.new.now) pair };

    ghost price_of = { λ it edge bound. edge_price (shape_of it.old.now) edge bound };

    ghost known_are_few = { λ it pairs once known. ∥∥₁_elim it.priced (Prim.hlevel props)
        (λ priced. priced.pairs_few pairs once known) };

    ghost children_are_known = { λ it pair child known among. ∥∥₁_elim it.priced (Prim.hlevel props)
        (λ priced. priced.children_there pair child among) };

    ghost edges_are_few = { λ it pair known. ∥∥₁_elim it.priced (Prim.hlevel props)
        (λ priced. priced.edges_few pair) };

    ghost edges_lead_to_children = { λ it pair edge known among. edge_leads (shape_of it.old.now)
        (shape_of it.new.now) pair edge among };

    ghost bases_are_lengths = { λ it pair known. ∥∥₁_elim it.priced (Prim.hlevel props)
        (λ priced. priced.bases_are_lengths
        (seen_under it.view it.old.now it.new.now)
        pair) };

    ghost edges_cost_more = { λ it pair edge bound some known among. ∥∥₁_elim it.priced
        (Prim.hlevel props) (λ priced. priced.costs_more edge bound) };

    fn knows(&self, pair: Pair) -> bool {
        self.old.has(pair.old) && self.new.has(pair.new)
    }

    fn children(&self, alloc: Global, pair: Pair) -> Result<Vec<Pair>, AllocError> {
        children(alloc, self.old, self.new, pair)
    }

    fn edges(&self, alloc: Global, pair: Pair) -> Result<Vec<Edge>, AllocError> {
        match self.old.message_type(pair.old) {
            Some(message_type) => edges_of(alloc, self.new, pair, &message_type.fields),
            None => Ok(Vec::new(alloc)),
        }
    }

    fn base(&self, alloc: Global, pair: Pair, work: &mut Work) -> Result<Option<u32>, AllocError> {
        let choice = cheapest(alloc, self, pair, &NoBounds)?;
        work.opened += 1;
        Ok(cost_of(choice))
    }

    fn edge_cost(&self, edge: &Edge, bound: u32, work: &mut Work) -> Option<u32> {
        work.relaxed += 1;
        price(self.old, edge, bound)
    }
}
