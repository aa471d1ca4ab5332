//! What is answered of causes.

ghost use Rattle.std.specs.Prelude.{◌≡◌, map, None, IfOk};
ghost use Rattle.pg_schema.specs.Parts.{shape_of};
ghost use Rattle.pg_dyn.specs.fitting.Fits.{Fits};
ghost use Rattle.pg_dyn.specs.message.Kept.{message_of, type_of};
ghost use Rattle.pg_pairs.specs.bounds.Covering.{IsAmong};
ghost use Rattle.pg_pairs.specs.witness.Carried.{carried};
ghost use Rattle.pg_pairs.specs.choices.Causes as own;
ghost use Rattle.pg_pairs.specs.choices.Told as spec;
ghost use Rattle.pg_pairs.specs.bounds.Laws.{ReachedBy};
ghost use Rattle.pg_pairs.specs.graph.GraphView.{seen};

use pg_dyn::Message;
use pg_pairs::{Choice, FieldCause, Pair, Priced};
use std::alloc::{AllocError, Global};

/// What `told_causes` answers.
pub fn told_causes(
    alloc: Global,
    graph: &Priced<'_>,
    pair: Pair,
) -> Result<Vec<FieldCause>, AllocError>
    ensures { IfOk result (λ told. map spec.told_of told.items
        ≡ spec.told_causes (seen graph.now)
        (shape_of graph.now.old.now) (shape_of graph.now.new.now) pair) }
{
    pg_pairs::told_causes(alloc, graph, pair)
}

/// What `carry_cause` answers.
pub fn carry_cause(
    alloc: Global,
    graph: &Priced<'_>,
    pair: Pair,
    cause: &Choice,
) -> Result<Message, AllocError>
    requires { IsAmong cause.now (own.causes (seen graph.now)
        (shape_of graph.now.old.now) (shape_of graph.now.new.now) pair) }
    ensures fits { IfOk result (λ m. Fits (shape_of graph.now.old.now) m) }
    ensures type_is { IfOk result (λ m. type_of m ≡ pair.old) }
    ensures made { IfOk result (λ m. message_of m
        ≡ carried (seen graph.now) (shape_of graph.now.old.now)
        (shape_of graph.now.new.now) pair cause.now None) }
    ensures reached { IfOk result (λ m. ReachedBy (seen graph.now) (shape_of graph.now.old.now)
        (shape_of graph.now.new.now) pair (message_of m) cause.now.cost) }
{
    pg_pairs::carry_cause(alloc, graph, pair, cause)
}
