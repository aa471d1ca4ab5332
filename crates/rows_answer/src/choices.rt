//! Choices and causes.
use crate::messages::spelled;
use crate::shown::{Shown, list_or_none};
use crate::spelled::{pair_of, table_of};
use kit_rows::cut;
use pg_cert::Bounds;
use pg_dyn::Message;
use pg_pairs::laws::causes_are_told;
use pg_pairs::{Choice, Pair, Priced, carry_cause, cheapest, choice_child, options, told_causes};
use std::alloc::{AllocError, Global};

/// The choices of the pair by this table.
fn listed(
    alloc: Global,
    graph: &Priced<'_>,
    pair: Pair,
    table: &Bounds,
) -> Result<String, AllocError> {
    let choices = options(alloc, graph, pair, table)?;
    list_or_none(alloc, &choices)
}

/// `choices | OLD | NEW | PAIR | BOUNDS`: the choices of the pair.
pub(crate) fn choices(
    alloc: Global,
    graph: &Priced<'_>,
    words: &str,
) -> Result<String, AllocError> {
    let (pair, bounds) = cut(words);
    match table_of(alloc, bounds)? {
        Some(table) => listed(alloc, graph, pair_of(pair), &table),
        None => String::from_str(alloc, "no table"),
    }
}

/// The choice and its child.
fn with_pair(alloc: Global, choice: &str, child: Pair) -> Result<String, AllocError> {
    format!(in alloc; "{choice} child {} {}", child.old.index, child.new.index)
}

/// The choice, and its child where it has one.
fn with_child(alloc: Global, choice: &Choice, child: Option<Pair>) -> Result<String, AllocError> {
    let choice = choice.shown(alloc)?;
    match child {
        Some(child) => with_pair(alloc, &choice, child),
        None => Ok(choice),
    }
}

fn cheapest_shown(
    alloc: Global,
    graph: &Priced<'_>,
    pair: Pair,
    found: Option<Choice>,
) -> Result<String, AllocError> {
    match found {
        Some(choice) => {
            let child = choice_child(graph.old, graph.new, pair, &choice);
            with_child(alloc, &choice, child)
        }
        None => String::from_str(alloc, "none"),
    }
}

/// `cheapest | OLD | NEW | PAIR | BOUNDS`: the cheapest choice of the pair, and the child that its
/// message holds.
pub(crate) fn cheapest_choice(
    alloc: Global,
    graph: &Priced<'_>,
    words: &str,
) -> Result<String, AllocError> {
    let (pair, bounds) = cut(words);
    let pair = pair_of(pair);
    match table_of(alloc, bounds)? {
        Some(table) => cheapest_shown(alloc, graph, pair, cheapest(alloc, graph, pair, &table)?),
        None => String::from_str(alloc, "no table"),
    }
}

/// `causes | OLD | NEW | PAIR`: the causes of the pair as they are told.
pub(crate) fn causes_of(
    alloc: Global,
    graph: &Priced<'_>,
    words: &str,
) -> Result<String, AllocError> {
    list_or_none(alloc, &told_causes(alloc, graph, pair_of(words))?)
}

/// The message of the first cause of the pair, as it is told, where there is one.
fn first_carried(
    alloc: Global,
    graph: &Priced<'_>,
    pair: Pair,
) -> Result<Option<Message>, AllocError> {
    // The choice of what is told is a cause.
    causes_are_told();
    let causes = told_causes(alloc, graph, pair)?;
    match causes.first() {
        Some(cause) => Ok(Some(carry_cause(alloc, graph, pair, &cause.choice)?)),
        None => Ok(None),
    }
}

/// `carry_cause | OLD | NEW | PAIR`: the message of the first cause of the pair.
pub(crate) fn carry_first_cause(
    alloc: Global,
    graph: &Priced<'_>,
    words: &str,
) -> Result<String, AllocError> {
    match first_carried(alloc, graph, pair_of(words))? {
        Some(message) => spelled(alloc, graph.old, &message),
        None => String::from_str(alloc, "no cause"),
    }
}
