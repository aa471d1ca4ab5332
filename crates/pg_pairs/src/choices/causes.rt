//! The message by which a cause of a pair is reached: a choice that needs no child.

ghost use Rattle.std.specs.Prelude.{◌≡◌, None, IfOk};
ghost use Rattle.pg_schema.specs.Parts.{shape_of};
ghost use Rattle.pg_dyn.specs.fitting.Fits.{Fits};
ghost use Rattle.pg_dyn.specs.message.Kept.{message_of, type_of};
ghost use Rattle.pg_pairs.specs.bounds.Covering.{IsAmong};
ghost use Rattle.pg_pairs.specs.witness.Carried.{carried};
ghost use Rattle.pg_pairs.specs.choices.Causes.{causes};
ghost use Rattle.pg_pairs.specs.bounds.Laws.{ReachedBy};
ghost use Rattle.pg_pairs.specs.graph.GraphView.{seen};

use crate::choices::choice::{Choice, Pair};
use crate::graph::priced::Priced;
use crate::laws::{causes_are_own, sees};
use crate::witness::message::carry;
use pg_dyn::Message;
use std::alloc::{AllocError, Global};

/// The message by which the cause is reached, a message of the pair's old type. It breaks and has
/// just the cause's cost. The cause has to be a choice of the pair that needs no child, as those
/// that `told_causes` gives.
///
/// Refused only where memory is.
pub fn carry_cause(
    alloc: Global,
    graph: &Priced<'_>,
    pair: Pair,
    cause: &Choice,
) -> Result<Message, AllocError>
    requires { IsAmong cause.now (causes (seen graph.now)
        (shape_of graph.now.old.now) (shape_of graph.now.new.now) pair) }
    ensures fits { IfOk result (λ m. Fits (shape_of graph.now.old.now) m) }
    ensures type_is { IfOk result (λ m. type_of m ≡ pair.old) }
    ensures made { IfOk result (λ m. message_of m
        ≡ carried (seen graph.now) (shape_of graph.now.old.now)
        (shape_of graph.now.new.now) pair cause.now None) }
    ensures reached { IfOk result (λ m. ReachedBy (seen graph.now) (shape_of graph.now.old.now)
        (shape_of graph.now.new.now) pair (message_of m) cause.now.cost) }
{
    // What holds of every schema, every view and every cause.
    graph.old.parts();
    graph.new.parts();
    sees(graph);
    causes_are_own();
    carry(alloc, graph, pair, cause, None)
}
