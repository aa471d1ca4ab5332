//! Where pairs lead to, what they cost, and whether their messages return.
use crate::searches::shown_bounds;
use crate::shown::list_or_none;
use crate::spelled::pair_of;
use kit_rows::cut;
use pg_cert::Bounds;
use pg_least::{bounds_from, settle_from};
use pg_pairs::{Pair, Priced, Prices, Work, children, reached_from, reached_pairs, returns};
use std::alloc::{AllocError, Global};

/// `children | OLD | NEW | PAIR`: the children of the pair.
pub(crate) fn child_pairs(
    alloc: Global,
    graph: &Priced<'_>,
    words: &str,
) -> Result<String, AllocError> {
    list_or_none(
        alloc,
        &children(alloc, graph.old, graph.new, pair_of(words))?,
    )
}

/// `returns | OLD | NEW | PAIR`: `yes` where the pair returns, else `no`.
pub(crate) fn may_return(
    alloc: Global,
    graph: &Priced<'_>,
    words: &str,
) -> Result<String, AllocError> {
    let answer = returns(alloc, graph.old, graph.new, pair_of(words))?;
    String::from_str(alloc, if answer { "yes" } else { "no" })
}

/// The children of the edges of a pair that is known.
fn edge_children(alloc: Global, graph: &Priced<'_>, pair: Pair) -> Result<Vec<Pair>, AllocError> {
    let mut pairs = Vec::new(alloc);
    if graph.knows(pair) {
        for edge in &graph.edges(alloc, pair)? {
            pairs.push(edge.child)?;
        }
    }
    Ok(pairs)
}

/// `Prices::edges | OLD | NEW | PAIR`: the child of each edge of the pair.
pub(crate) fn edges_of(
    alloc: Global,
    graph: &Priced<'_>,
    words: &str,
) -> Result<String, AllocError> {
    list_or_none(alloc, &edge_children(alloc, graph, pair_of(words))?)
}

/// `Prices::children | OLD | NEW | PAIR` and `reached_pairs | OLD | NEW | PAIR`: the pairs that the
/// pair leads to by one edge, or by any number of them.
pub(crate) fn pairs_from(
    alloc: Global,
    graph: &Priced<'_>,
    call: &str,
    words: &str,
) -> Result<String, AllocError> {
    let pair = pair_of(words);
    if !graph.knows(pair) {
        return String::from_str(alloc, "no such pair");
    }
    let found = match call {
        "reached_pairs" => reached_pairs(alloc, graph, pair),
        _ => graph.children(alloc, pair),
    };
    listed(alloc, found)
}

/// The bounds that are found, and the work that they took.
fn shown_found(
    alloc: Global,
    found: Result<(Bounds, Work), AllocError>,
) -> Result<String, AllocError> {
    shown_bounds(alloc, &found?)
}

/// The pairs that are found.
fn listed(alloc: Global, found: Result<Vec<Pair>, AllocError>) -> Result<String, AllocError> {
    list_or_none(alloc, &found?)
}

/// `reached_from | OLD | NEW | PAIR | PAIR`: the pairs that both lead to; `settle_from` and
/// `bounds_from`: their least bounds, with the work that these took.
pub(crate) fn from_two(
    alloc: Global,
    graph: &Priced<'_>,
    call: &str,
    words: &str,
) -> Result<String, AllocError> {
    let (first, second) = cut(words);
    let roots = [pair_of(first), pair_of(second)];
    if !graph.knows(roots[0]) || !graph.knows(roots[1]) {
        return String::from_str(alloc, "no such pair");
    }
    match call {
        "reached_from" => listed(alloc, reached_from(alloc, graph, &roots)),
        "settle_from" => shown_found(alloc, settle_from(alloc, graph, &roots)),
        _ => shown_found(alloc, bounds_from(alloc, graph, &roots)),
    }
}
