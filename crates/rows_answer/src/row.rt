//! Which call a row is of.
use crate::{certificates, choices, drawn, enum_view, gaps, graphs, messages, searches};
use kit_rows::{cut, unrolled};
use kit_schemas::schemas;
use pg_pairs::{Names, Numbers, Priced};
use pg_schema::Schema;
use std::alloc::{AllocError, Global};

/// What a call of choices or of messages answers.
fn chosen(
    alloc: Global,
    graph: &Priced<'_>,
    call: &str,
    words: &str,
) -> Result<String, AllocError> {
    match call {
        "choices" => choices::choices(alloc, graph, words),
        "cheapest" => choices::cheapest_choice(alloc, graph, words),
        "causes" => choices::causes_of(alloc, graph, words),
        "carry_cause" => choices::carry_first_cause(alloc, graph, words),
        "message" => messages::message(alloc, graph, words),
        "carry" => messages::carry_choice(alloc, graph, words),
        "breaks" => messages::break_or_keep(alloc, graph, words),
        "breaks_as_written" => messages::break_as_written(alloc, graph, words),
        "enum_view" => enum_view::enum_view(alloc, graph, words),
        _ => String::from_str(alloc, "no such call"),
    }
}

/// What a call answers over the graph.
fn over(alloc: Global, graph: &Priced<'_>, call: &str, words: &str) -> Result<String, AllocError> {
    match call {
        "children" => graphs::child_pairs(alloc, graph, words),
        "returns" => graphs::may_return(alloc, graph, words),
        "Prices::edges" => graphs::edges_of(alloc, graph, words),
        "Prices::children" | "reached_pairs" => graphs::pairs_from(alloc, graph, call, words),
        "reached_from" | "settle_from" | "bounds_from" => {
            graphs::from_two(alloc, graph, call, words)
        }
        "check" => certificates::check_parts(alloc, graph, words),
        "text" => certificates::text(alloc, graph, words),
        "fronts" => certificates::fronts(alloc, graph, words),
        "search" => searches::search_pair(alloc, graph, words),
        "path" => searches::path_down(alloc, graph, words),
        "counts" => searches::counts(alloc, graph, words),
        _ => chosen(alloc, graph, call, words),
    }
}

/// What a call answers over the schemas: with `names ` in front of it by names, else by numbers.
pub(crate) fn between(
    alloc: Global,
    call: &str,
    old: &Schema,
    new: &Schema,
    words: &str,
) -> Result<String, AllocError> {
    match call.strip_prefix("names ") {
        Some(call) => over(alloc, &Priced::new(&Names, old, new), call, words),
        None => over(alloc, &Priced::new(&Numbers, old, new), call, words),
    }
}

/// What a call without schemas answers.
pub(crate) fn alone(alloc: Global, call: &str, words: &str) -> Result<String, AllocError> {
    match call {
        "gaps" => gaps::gaps(alloc, words),
        "drawn" => drawn::drawn_bounds(alloc, words),
        _ => certificates::table(alloc, words),
    }
}

/// What is shown of a row.
pub(crate) fn answer(alloc: Global, row: &str) -> Result<String, AllocError> {
    let row = unrolled(alloc, row)?;
    let (_, row) = cut(&row);
    let (call, words) = cut(row);
    if matches!(call, "gaps" | "drawn" | "table") {
        return alone(alloc, call, words);
    }
    let (old, words) = cut(words);
    let (new, words) = cut(words);
    match schemas(alloc, old, new)? {
        Some((old, new)) => between(alloc, call, &old, &new, words),
        None => String::from_str(alloc, "no schemas"),
    }
}
