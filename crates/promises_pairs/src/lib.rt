//! The promises of `pg_pairs`, said again of calls of it: the edits of `must-fail` turn each
//! answer, and every one must be refused.
#![tactic(auto)]

mod causing;
mod graph;
mod names;
mod returning;

ghost use Rattle.std.specs.Prelude.{◌≡◌, ◌↔◌, ◌⊎◌, ◌<◌, ◌≤◌, length, option_map, true, None, IsTrue, IfErr, IfOk, OnOk};
ghost use Rattle.pg_schema.specs.Parts.{shape_of};
ghost use Rattle.pg_dyn.specs.declared.error.DynError.TheVariants as errors;
ghost use Rattle.pg_dyn.specs.views.Breaking.{Breaks};
ghost use Rattle.pg_dyn.specs.encoding.Encoding.{cap, enc};
ghost use Rattle.pg_dyn.specs.fitting.Fits.{Fits};
ghost use Rattle.pg_dyn.specs.message.Kept.{message_of, type_of};
ghost use Rattle.pg_pairs.specs.bounds.Covering.{IsAmong};
ghost use Rattle.pg_pairs.specs.witness.Carried as carried;
ghost use Rattle.pg_pairs.specs.witness.CarriedChoices.{ChildGiven, ChildReached, IsChoiceOf};
ghost use Rattle.pg_pairs.specs.choices.Choices as least;
ghost use Rattle.pg_pairs.specs.choices.Choices.{Table, case_number, choices};
ghost use Rattle.pg_pairs.specs.bounds.Covering as covering;
ghost use Rattle.pg_pairs.specs.gaps.Gaps as gaps;
ghost use Rattle.pg_pairs.specs.bounds.Laws.{ReachedBy};
ghost use Rattle.pg_pairs.specs.gaps.TrueGaps.{IsTrueOf};
ghost use Rattle.pg_pairs.specs.graph.GraphView.{seen};

pub use causing::{carry_cause, told_causes};
pub use graph::{base, edge_cost, edges, knows, priced, reached_from, reached_pairs};
pub use names::{
    alike_as_named, alike_by_name, least_as_named, least_by_name, name, name_of_names,
};
use pg_dyn::{DynError, Message, MessageRef};
use pg_pairs::{Case, Choice, Gap, Numbers, Pair, Priced, Table, View};
use pg_schema::{EnumType, Scalar, Schema};
pub use returning::returns;
use std::alloc::{AllocError, Global};

/// What `Case::number` answers.
pub fn number(case: Case) -> u8
    ensures { result ≡ case_number case }
{
    case.number()
}

/// What `breaks` answers.
pub fn breaks(
    alloc: Global,
    graph: &Priced<'_>,
    pair: Pair,
    message: &Message,
) -> Result<bool, DynError>
    requires { Fits (shape_of graph.now.old.now) message.now }
    ensures exact { IfOk result (λ b. IsTrue b
        ↔ ((type_of message.now ≡ pair.old)
        × Breaks (seen graph.now).alike (shape_of graph.now.old.now)
        (shape_of graph.now.new.now) pair.old pair.new (message_of message.now))) }
    ensures encoded { OnOk result (length
        (enc (shape_of graph.now.old.now) (type_of message.now) (message_of message.now)) ≤ cap) }
    ensures refused { IfErr result (λ e. (e ≡ errors.Memory)
        ⊎ ((e ≡ errors.TooLong) × (cap < length
        (enc (shape_of graph.now.old.now) (type_of message.now) (message_of message.now))))) }
{
    pg_pairs::breaks(alloc, graph, pair, message)
}

/// What `breaks_as_written` answers.
pub fn breaks_as_written(
    alloc: Global,
    graph: &Priced<'_>,
    pair: Pair,
    message: &MessageRef<'_>,
    bytes: &[u8],
) -> Result<bool, AllocError>
    requires fits { Fits (shape_of graph.now.old.now) message.now }
    requires written { enc (shape_of graph.now.old.now) (type_of message.now)
        (message_of message.now) ≡ bytes.now }
    requires within { length (enc (shape_of graph.now.old.now) (type_of message.now)
        (message_of message.now)) ≤ cap }
    ensures { IfOk result (λ b. IsTrue b
        ↔ ((type_of message.now ≡ pair.old)
        × Breaks (seen graph.now).alike (shape_of graph.now.old.now)
        (shape_of graph.now.new.now) pair.old pair.new (message_of message.now))) }
{
    pg_pairs::breaks_as_written(alloc, graph, pair, message, bytes)
}

/// What `carry` answers.
pub fn carry(
    alloc: Global,
    graph: &Priced<'_>,
    pair: Pair,
    choice: &Choice,
    child: Option<Message>,
) -> Result<Message, AllocError>
    requires choice { IsChoiceOf
        (seen graph.now)
        (shape_of graph.now.old.now) (shape_of graph.now.new.now) pair choice.now }
    requires child { ChildGiven (shape_of graph.now.old.now) (carried.choice_child
        (shape_of graph.now.old.now) (shape_of graph.now.new.now) pair choice.now) child }
    ensures fits { IfOk result (λ m. Fits (shape_of graph.now.old.now) m) }
    ensures type_is { IfOk result (λ m. type_of m ≡ pair.old) }
    ensures made { IfOk result (λ m. message_of m
        ≡ carried.carried (seen graph.now) (shape_of graph.now.old.now)
        (shape_of graph.now.new.now) pair choice.now (option_map message_of child)) }
    ensures reached { IfOk result (λ m. (table : Table) →
        IsAmong choice.now (choices (seen graph.now) table
        (shape_of graph.now.old.now) (shape_of graph.now.new.now) pair)
        → ChildReached (seen graph.now) (shape_of graph.now.old.now)
        (shape_of graph.now.new.now) table (carried.choice_child (shape_of graph.now.old.now)
        (shape_of graph.now.new.now) pair choice.now) (option_map message_of child)
        → ReachedBy (seen graph.now) (shape_of graph.now.old.now)
        (shape_of graph.now.new.now) pair (message_of m) choice.now.cost) }
{
    pg_pairs::carry(alloc, graph, pair, choice, child)
}

/// What `children` answers.
pub fn children(
    alloc: Global,
    old: &Schema,
    new: &Schema,
    pair: Pair,
) -> Result<Vec<Pair>, AllocError>
    ensures { IfOk result (λ pairs. pairs.items
        ≡ covering.children (shape_of old.now) (shape_of new.now) pair) }
{
    pg_pairs::children(alloc, old, new, pair)
}

/// What `choice_child` answers.
pub fn choice_child(old: &Schema, new: &Schema, pair: Pair, choice: &Choice) -> Option<Pair>
    ensures { result ≡ carried.choice_child (shape_of old.now) (shape_of new.now) pair choice.now }
{
    pg_pairs::choice_child(old, new, pair, choice)
}

/// What `cheapest` answers.
pub fn cheapest<T: Table>(
    alloc: Global,
    graph: &Priced<'_>,
    pair: Pair,
    table: &T,
) -> Result<Option<Choice>, AllocError>
    ensures { IfOk result (λ found. found
        ≡ least.cheapest (choices (seen graph.now)
        (T.bounds table.now) (shape_of graph.now.old.now) (shape_of graph.now.new.now) pair)) }
{
    pg_pairs::cheapest(alloc, graph, pair, table)
}

/// What `options` answers.
pub fn options<T: Table>(
    alloc: Global,
    graph: &Priced<'_>,
    pair: Pair,
    table: &T,
) -> Result<Vec<Choice>, AllocError>
    ensures { IfOk result (λ cs. cs.items
        ≡ choices (seen graph.now)
        (T.bounds table.now) (shape_of graph.now.old.now) (shape_of graph.now.new.now) pair) }
{
    pg_pairs::options(alloc, graph, pair, table)
}

/// What `gap` answers.
pub fn gap(old: Scalar, new: Scalar) -> Gap
    ensures table { result ≡ gaps.gap old new }
    ensures exact { IsTrueOf old new result }
{
    pg_pairs::gap(old, new)
}

/// Which numbers are alike by `Numbers`: all.
pub fn alike(old: &EnumType, new: &EnumType, number: i32) -> bool
    ensures { result ≡ true }
{
    Numbers.alike(old, new, number)
}

/// The least number that isn't alike by `Numbers`: none.
pub fn least(old: &EnumType, new: &EnumType, zero: bool) -> Option<i32>
    ensures { result ≡ None }
{
    Numbers.least(old, new, zero)
}
