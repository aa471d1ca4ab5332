//! A graph that is drawn by hand, and its least bounds.

ghost use Rattle.std.specs.Prelude.{◌≡◌, ◌∷◌, [], map, IfOk};
ghost use Rattle.rows_answer.specs.Drawn.{base_at, edges_from, pair, price, to};

use crate::searches::shown_bounds;
use crate::spelled::number_at;
use pg_least::settle;
use pg_pairs::{Edge, Pair, Part, Prices, Work};
use pg_schema::TypeId;
use std::alloc::{AllocError, Global};

/// Nine pairs. Pair 0 costs 50, or three times what pair 1 does, which costs 7. Pairs 2 and 3 lead
/// to each other and cost nothing else. Pair 4 costs 190, or 200 less what pair 5 or pair 6 costs,
/// which cost 30 and 60. Pair 7 costs three times what pair 8 does, which costs 2^30: more than an
/// encoding may have.
struct Drawn;

fn pair(number: u32) -> Pair
    ensures { result ≡ pair number }
{
    Pair {
        old: TypeId { index: 0 },
        new: TypeId { index: number },
    }
}

/// An edge to the pair of that number, by the field of that number.
fn to(from: Pair, child: u32, number: u32) -> Edge
    ensures { result ≡ to from child number }
{
    Edge {
        from,
        child: pair(child),
        number,
        part: Part::Whole,
    }
}

fn one(alloc: Global, edge: Edge) -> Result<Vec<Edge>, AllocError>
    ensures { IfOk result (λ edges. edges.items ≡ edge ∷ []) }
{
    let mut edges = Vec::new(alloc);
    edges.push(edge)?;
    Ok(edges)
}

fn edges_from(alloc: Global, from: Pair) -> Result<Vec<Edge>, AllocError>
    ensures { IfOk result (λ edges. edges.items ≡ edges_from from) }
{
    if from.new.index == 0 {
        return one(alloc, to(from, 1, 1));
    }
    if from.new.index == 2 {
        return one(alloc, to(from, 3, 1));
    }
    if from.new.index == 3 {
        return one(alloc, to(from, 2, 1));
    }
    if from.new.index == 7 {
        return one(alloc, to(from, 8, 1));
    }
    if from.new.index != 4 {
        return Ok(Vec::new(alloc));
    }
    let mut edges = one(alloc, to(from, 5, 2))?;
    edges.push(to(from, 6, 2))?;
    Ok(edges)
}

fn children_of(alloc: Global, edges: &[Edge]) -> Result<Vec<Pair>, AllocError>
    ensures { IfOk result (λ children. children.items ≡ map (λ e. e.child) edges.now) }
{
    let mut children = Vec::new(alloc);
    for edge in edges {
        children.push(edge.child)?;
    }
    Ok(children)
}

fn base_at(number: u32) -> Option<u32>
    ensures { result ≡ base_at number }
{
    match number {
        0 => Some(50),
        1 => Some(7),
        4 => Some(190),
        5 => Some(30),
        6 => Some(60),
        8 => Some(0x4000_0000),
        _ => None,
    }
}

fn price(number: u32, bound: u32) -> Option<u32>
    ensures { result ≡ price number bound }
{
    if number == 1 {
        let cost = 3 * u64::from(bound);
        if cost > 0x7fff_ffff {
            return None;
        }
        return Some(cost as u32);
    }
    if bound < 100 {
        return Some(200 - bound);
    }
    None
}

impl Prices for Drawn {
    ghost use Rattle.std.proofs.Common.{refl};
    ghost use Rattle.rows_answer.specs.Drawn.{base_at, base_is_length, child_is_drawn, children_from, drawn_are_few, edge_leads, edges_are_few, edges_from, is_drawn, price, price_is_more};

    ghost is_known = { λ _ pair. is_drawn pair };

    ghost children_of = { λ _ pair. children_from pair };

    ghost edges_of = { λ _ pair. edges_from pair };

    ghost base_of = { λ _ pair. base_at pair.new.index };

    ghost price_of = { λ _ edge bound. price edge.number bound };

    ghost known_are_few = { λ _ pairs once known. drawn_are_few pairs once known };

    ghost children_are_known = { λ _ pair child known among. child_is_drawn pair child among };

    ghost edges_are_few = { λ _ pair known. edges_are_few pair };

    ghost edges_lead_to_children = { λ _ pair edge known among. edge_leads pair edge among };

    ghost bases_are_lengths = { λ _ pair known. base_is_length pair.new.index };

    ghost edges_cost_more = { λ _ pair edge bound some known among.
        price_is_more edge.number bound some };

    fn knows(&self, pair: Pair) -> bool {
        pair.old.index == 0 && pair.new.index < 9
    }

    fn children(&self, alloc: Global, pair: Pair) -> Result<Vec<Pair>, AllocError> {
        children_of(alloc, &edges_from(alloc, pair)?)
    }

    fn edges(&self, alloc: Global, pair: Pair) -> Result<Vec<Edge>, AllocError> {
        edges_from(alloc, pair)
    }

    fn base(&self, _alloc: Global, pair: Pair, work: &mut Work) -> Result<Option<u32>, AllocError> {
        work.opened += 1;
        Ok(base_at(pair.new.index))
    }

    fn edge_cost(&self, edge: &Edge, bound: u32, work: &mut Work) -> Option<u32> {
        work.relaxed += 1;
        price(edge.number, bound)
    }
}

/// `drawn | NUMBER`: over the graph drawn by hand, the least bounds of the pairs that the pair of
/// that number leads to, and their work as `counts` shows it.
pub(crate) fn drawn_bounds(alloc: Global, words: &str) -> Result<String, AllocError> {
    let root = pair(number_at(words, 0));
    if !Drawn.knows(root) {
        return String::from_str(alloc, "no such pair");
    }
    shown_bounds(alloc, &settle(alloc, &Drawn, root)?)
}
