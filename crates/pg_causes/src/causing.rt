//! The causes of breaking, each with its message.

ghost use Rattle.std.specs.Prelude.{◌≡◌, ◌≤◌, [], length, map, flat_map, Some, None, IfOk};
ghost use Rattle.std.specs.List.{AllByRecursion};
ghost use Rattle.pg_schema.specs.Parts.{shape_of};
ghost use Rattle.pg_dyn.specs.encoding.Encoding.{cap, enc};
ghost use Rattle.pg_dyn.specs.fitting.Fits.{Fits};
ghost use Rattle.pg_dyn.specs.message.Kept.{message_of, type_of};
ghost use Rattle.pg_pairs.specs.bounds.Covering.{IsAmong};
ghost use Rattle.pg_pairs.specs.choices.Causes.{causes};
ghost use Rattle.pg_pairs.specs.choices.Told.{told_causes, told_of};
ghost use Rattle.pg_pairs.specs.declared.choices.told.FieldCause.{FieldCause};
ghost use Rattle.pg_pairs.specs.graph.GraphView.{seen};
ghost use Rattle.pg_cert.specs.Certificate.{bound_in};
ghost use Rattle.pg_least.specs.Searched.{pairs_of};
ghost use Rattle.pg_causes.specs.Causes.{IsCause, causes_at, in_pair, told_in};
ghost use Rattle.pg_causes.specs.declared.overview.Cause.{Cause};
ghost use Rattle.pg_pairs.specs.declared.choices.choice.Pair.{Pair};

use crate::overview::Cause;
use crate::reason::reason_of;
use pg_cert::{Bounds, PairBound};
use pg_dyn::{DynError, Message, encode};
use pg_least::PairChoice;
use pg_pairs::laws::causes_are_told;
use pg_pairs::{FieldCause, Pair, Priced, carry_cause, told_causes};
use pg_schema::Schema;
use std::alloc::{AllocError, Global};

/// The bytes of a message that an encoding has room for.
fn written(alloc: Global, schema: &Schema, message: &Message) -> Result<Vec<u8>, AllocError>
    requires fits { Fits (shape_of schema.now) message.now }
    requires room { length (enc (shape_of schema.now) (type_of message.now)
        (message_of message.now)) ≤ cap }
    ensures { IfOk result (λ bytes. bytes.items
        ≡ enc (shape_of schema.now) (type_of message.now) (message_of message.now)) }
{
    match encode(alloc, schema, message) {
        Ok(bytes) => Ok(bytes),
        Err(DynError::Memory) => Err(AllocError),
        Err(_) => unreachable!(),
    }
}

/// The cause of the pair that is told so.
fn cause_at(
    alloc: Global,
    graph: &Priced<'_>,
    pair: Pair,
    told: FieldCause,
) -> Result<Cause, AllocError>
    requires { IsAmong told.choice (causes (seen graph.now) (shape_of graph.now.old.now)
        (shape_of graph.now.new.now) pair) }
    ensures told { IfOk result (λ cause. told_in cause ≡ in_pair pair (told_of told)) }
    ensures cause { IfOk result (IsCause (seen graph.now) graph.now.old.now graph.now.new.now) }
{
    let FieldCause { numbers, choice } = told;
    let at = PairChoice { pair, choice };
    let message = carry_cause(alloc, graph, pair, &choice)?;
    Ok(Cause {
        at,
        numbers,
        reason: reason_of(graph.old, graph.new, &at),
        message: written(alloc, graph.old, &message)?,
    })
}

/// The causes of the pair that are told so.
fn causes_told(
    alloc: Global,
    graph: &Priced<'_>,
    pair: Pair,
    told: Vec<FieldCause>,
) -> Result<Vec<Cause>, AllocError>
    requires { AllByRecursion (λ (t : FieldCause). IsAmong t.choice (causes (seen graph.now)
        (shape_of graph.now.old.now) (shape_of graph.now.new.now) pair)) told.items }
    ensures are { IfOk result (λ list. map told_in list.items
        ≡ map (λ t. in_pair pair (told_of t)) told.items) }
    ensures each { IfOk result (λ list. AllByRecursion
        (IsCause (seen graph.now) graph.now.old.now graph.now.new.now) list.items) }
{
    let mut list = Vec::with_capacity(alloc, told.len())?;
    for cause in told {
        list.push(cause_at(alloc, graph, pair, cause)?)?;
    }
    Ok(list)
}

/// The causes of the pair.
fn causes_of(alloc: Global, graph: &Priced<'_>, pair: Pair) -> Result<Vec<Cause>, AllocError>
    ensures are { IfOk result (λ list. map told_in list.items
        ≡ causes_at (seen graph.now) (shape_of graph.now.old.now) (shape_of graph.now.new.now)
        pair) }
    ensures each { IfOk result (λ list. AllByRecursion
        (IsCause (seen graph.now) graph.now.old.now graph.now.new.now) list.items) }
{
    // What is told is a cause.
    causes_are_told();
    let told = told_causes(alloc, graph, pair)?;
    let list = causes_told(alloc, graph, pair, told)?;
    Ok(list)
}

/// The causes of the line's pair, which has none where its bound is 'none'.
fn causes_of_line(
    alloc: Global,
    graph: &Priced<'_>,
    line: PairBound,
) -> Result<Vec<Cause>, AllocError>
    requires { line.bound ≡ None → told_causes (seen graph.now) (shape_of graph.now.old.now)
        (shape_of graph.now.new.now) line.pair ≡ [] }
    ensures are { IfOk result (λ told. map told_in told.items
        ≡ causes_at (seen graph.now) (shape_of graph.now.old.now) (shape_of graph.now.new.now)
        line.pair) }
    ensures each { IfOk result (λ told. AllByRecursion
        (IsCause (seen graph.now) graph.now.old.now graph.now.new.now) told.items) }
{
    match line.bound {
        Some(_) => causes_of(alloc, graph, line.pair),
        None => Ok(Vec::new(alloc)),
    }
}

/// The causes of the pairs in the table, line by line.
pub(crate) fn causes_in(
    alloc: Global,
    graph: &Priced<'_>,
    bounds: &Bounds,
) -> Result<Vec<Cause>, AllocError>
    requires { (pair : Pair) → bound_in bounds.now pair ≡ Some None
        → told_causes (seen graph.now) (shape_of graph.now.old.now)
        (shape_of graph.now.new.now) pair ≡ [] }
    ensures are { IfOk result (λ told. map told_in told.items
        ≡ flat_map (causes_at (seen graph.now) (shape_of graph.now.old.now)
        (shape_of graph.now.new.now)) (pairs_of bounds.now)) }
    ensures each { IfOk result (λ told. AllByRecursion
        (IsCause (seen graph.now) graph.now.old.now graph.now.new.now) told.items) }
{
    let mut told = Vec::new(alloc);
    for index in 0..bounds.len() {
        if let Some(line) = bounds.get(index) {
            let mut more = causes_of_line(alloc, graph, line)?;
            told.append(&mut more)?;
        }
    }
    Ok(told)
}
