//! The messages of choices, and messages that break.
ghost use Rattle.std.specs.Prelude.{IfOk, IfSome};
ghost use Rattle.pg_schema.specs.Parts.{shape_of};
ghost use Rattle.pg_dyn.specs.fitting.Fits.{Fits};
ghost use Rattle.pg_pairs.specs.witness.CarriedChoices.{IsChoiceOf};
ghost use Rattle.pg_pairs.specs.graph.GraphView.{seen};

use crate::spelled::{choice_of, hex_bytes, number_at, pair_of, table_of};
use kit_rows::cut;
use pg_cert::Bounds;
use pg_dyn::{
    DynError, Message, MessageRef, decode, decode_ref_unlimited, encode, encode_ref, fits,
};
use pg_pairs::{
    Choice, Pair, Priced, breaks, breaks_as_written, carry, cheapest, choice_child, options,
};
use pg_schema::{Schema, TypeId};
use std::alloc::{AllocError, Global};

/// The bytes of the message.
pub(crate) fn spelled(
    alloc: Global,
    schema: &Schema,
    message: &Message,
) -> Result<String, AllocError> {
    if !fits(schema, message) {
        return String::from_str(alloc, "misfit");
    }
    match encode(alloc, schema, message) {
        Ok(bytes) => hex::encode(alloc, bytes),
        Err(DynError::Memory) => Err(AllocError),
        Err(_) => String::from_str(alloc, "no encoding"),
    }
}

/// Whether the message breaks between the pair's types, in a word.
fn verdict(
    alloc: Global,
    graph: &Priced<'_>,
    pair: Pair,
    message: &Message,
) -> Result<&'static str, AllocError> {
    if !fits(graph.old, message) {
        return Ok("misfit");
    }
    match breaks(alloc, graph, pair, message) {
        Ok(true) => Ok("breaks"),
        Ok(false) => Ok("kept"),
        Err(DynError::Memory) => Err(AllocError),
        Err(_) => Ok("no encoding"),
    }
}

/// The message of the type `M` that the bytes of `M | BYTES` spell.
fn read_words(alloc: Global, schema: &Schema, words: &str) -> Result<Option<Message>, AllocError> {
    let (index, digits) = cut(words);
    let type_id = TypeId {
        index: number_at(index, 0),
    };
    let bytes = hex_bytes(alloc, digits)?;
    if !schema.has(type_id) {
        return Ok(None);
    }
    match decode(alloc, schema, type_id, &bytes, 100) {
        Ok(message) => Ok(Some(message)),
        Err(DynError::Memory) => Err(AllocError),
        Err(_) => Ok(None),
    }
}

/// The choice, if it is one of the pair's under the table.
fn chosen(
    alloc: Global,
    graph: &Priced<'_>,
    pair: Pair,
    table: &Bounds,
    wanted: &Choice,
) -> Result<Option<Choice>, AllocError>
    ensures { IfOk result (λ found. IfSome found (IsChoiceOf (seen graph.now)
        (shape_of graph.now.old.now) (shape_of graph.now.new.now) pair)) }
{
    for choice in &options(alloc, graph, pair, table)? {
        if choice == wanted {
            return Ok(Some(*choice));
        }
    }
    Ok(None)
}

/// The choice's message round the child, where this is a child of the choice.
fn carried(
    alloc: Global,
    graph: &Priced<'_>,
    pair: Pair,
    choice: &Choice,
    child: Option<Message>,
) -> Result<Option<Message>, AllocError>
    requires { IsChoiceOf (seen graph.now) (shape_of graph.now.old.now)
        (shape_of graph.now.new.now) pair choice.now }
{
    match (choice_child(graph.old, graph.new, pair, choice), child) {
        (None, None) => Ok(Some(carry(alloc, graph, pair, choice, None)?)),
        (Some(wanted), Some(child)) => {
            if child.type_id() != wanted.old || !fits(graph.old, &child) {
                return Ok(None);
            }
            Ok(Some(carry(alloc, graph, pair, choice, Some(child))?))
        }
        _ => Ok(None),
    }
}

/// The message's bytes, whether it breaks, and what its choice costs.
fn with_verdict(
    alloc: Global,
    graph: &Priced<'_>,
    pair: Pair,
    message: &Message,
    cost: u32,
) -> Result<String, AllocError> {
    let verdict = verdict(alloc, graph, pair, message)?;
    let bytes = spelled(alloc, graph.old, message)?;
    format!(in alloc; "{bytes} {verdict} at {cost}")
}

/// What is shown of the choice, which is the pair's under the table and has no child.
fn childless(
    alloc: Global,
    graph: &Priced<'_>,
    pair: Pair,
    table: &Bounds,
    choice: &Choice,
) -> Result<String, AllocError> {
    let Some(choice) = chosen(alloc, graph, pair, table, choice)? else {
        return String::from_str(alloc, "no choice");
    };
    match carried(alloc, graph, pair, &choice, None)? {
        Some(message) => with_verdict(alloc, graph, pair, &message, choice.cost),
        None => String::from_str(alloc, "no message"),
    }
}

fn cheapest_message(
    alloc: Global,
    graph: &Priced<'_>,
    pair: Pair,
    table: &Bounds,
) -> Result<String, AllocError> {
    match cheapest(alloc, graph, pair, table)? {
        Some(choice) => childless(alloc, graph, pair, table, &choice),
        None => String::from_str(alloc, "none"),
    }
}

/// `message | OLD | NEW | PAIR | BOUNDS`: the message of the pair's cheapest choice, which holds no
/// child.
pub(crate) fn message(
    alloc: Global,
    graph: &Priced<'_>,
    words: &str,
) -> Result<String, AllocError> {
    let (pair, bounds) = cut(words);
    match table_of(alloc, bounds)? {
        Some(table) => cheapest_message(alloc, graph, pair_of(pair), &table),
        None => String::from_str(alloc, "no table"),
    }
}

/// The message of the choice, if it is one of the pair's under the table, round the child that
/// `TYPE | BYTES` spells; without these, round none.
fn carried_round(
    alloc: Global,
    graph: &Priced<'_>,
    pair: Pair,
    choice: Option<Choice>,
    child: &str,
) -> Result<Option<Message>, AllocError>
    requires { IfSome choice (IsChoiceOf (seen graph.now) (shape_of graph.now.old.now)
        (shape_of graph.now.new.now) pair) }
{
    let Some(choice) = choice else {
        return Ok(None);
    };
    if child.is_empty() {
        return carried(alloc, graph, pair, &choice, None);
    }
    carried(
        alloc,
        graph,
        pair,
        &choice,
        read_words(alloc, graph.old, child)?,
    )
}

/// The message of the choice in `CHOICE [| TYPE | BYTES]`, round the child that `TYPE | BYTES`
/// spells, if one is given.
fn carry_words(
    alloc: Global,
    graph: &Priced<'_>,
    pair: Pair,
    table: &Bounds,
    words: &str,
) -> Result<Option<Message>, AllocError> {
    let (choice, child) = cut(words);
    match choice_of(choice) {
        Some(wanted) => {
            let choice = chosen(alloc, graph, pair, table, &wanted)?;
            carried_round(alloc, graph, pair, choice, child)
        }
        None => Ok(None),
    }
}

fn carried_message(
    alloc: Global,
    graph: &Priced<'_>,
    pair: Pair,
    table: &Bounds,
    words: &str,
) -> Result<String, AllocError> {
    match carry_words(alloc, graph, pair, table, words)? {
        Some(message) => spelled(alloc, graph.old, &message),
        None => String::from_str(alloc, "none"),
    }
}

/// `carry | OLD | NEW | PAIR | BOUNDS | CHOICE [| TYPE | BYTES]`: the message of a choice that the
/// pair has under the bounds, round the child that the bytes spell, if one is given.
pub(crate) fn carry_choice(
    alloc: Global,
    graph: &Priced<'_>,
    words: &str,
) -> Result<String, AllocError> {
    let (pair, words) = cut(words);
    let (bounds, words) = cut(words);
    match table_of(alloc, bounds)? {
        Some(table) => carried_message(alloc, graph, pair_of(pair), &table, words),
        None => String::from_str(alloc, "no table"),
    }
}

/// `breaks | OLD | NEW | PAIR | TYPE | BYTES`: whether the old type's message that the bytes spell
/// breaks between the pair's types.
pub(crate) fn break_or_keep(
    alloc: Global,
    graph: &Priced<'_>,
    words: &str,
) -> Result<String, AllocError> {
    let (pair, words) = cut(words);
    match read_words(alloc, graph.old, words)? {
        Some(message) => String::from_str(alloc, verdict(alloc, graph, pair_of(pair), &message)?),
        None => String::from_str(alloc, "no message"),
    }
}

/// Whether a message that borrows breaks as it is written.
fn verdict_as_written(
    alloc: Global,
    graph: &Priced<'_>,
    pair: Pair,
    message: &MessageRef<'_>,
) -> Result<&'static str, AllocError>
    requires { Fits (shape_of graph.now.old.now) message.now }
{
    let bytes = match encode_ref(alloc, graph.old, message) {
        Ok(bytes) => bytes,
        Err(DynError::Memory) => return Err(AllocError),
        Err(_) => return Ok("no encoding"),
    };
    let answer = breaks_as_written(alloc, graph, pair, message, &bytes)?;
    Ok(if answer { "breaks" } else { "kept" })
}

/// `breaks_as_written | OLD | NEW | PAIR | TYPE | BYTES`: whether a message that borrows from the
/// bytes breaks between the pair's types as it is written.
pub(crate) fn break_as_written(
    alloc: Global,
    graph: &Priced<'_>,
    words: &str,
) -> Result<String, AllocError> {
    let (pair, words) = cut(words);
    let (index, digits) = cut(words);
    let type_id = TypeId {
        index: number_at(index, 0),
    };
    let bytes = hex_bytes(alloc, digits)?;
    if !graph.old.has(type_id) {
        return String::from_str(alloc, "no message");
    }
    let verdict = match decode_ref_unlimited(alloc, graph.old, type_id, &bytes) {
        Ok(message) => verdict_as_written(alloc, graph, pair_of(pair), &message)?,
        Err(DynError::Memory) => return Err(AllocError),
        Err(_) => "no message",
    };
    String::from_str(alloc, verdict)
}
