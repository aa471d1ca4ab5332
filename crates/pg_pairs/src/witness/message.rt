//! The messages that reach choices.

ghost use Rattle.std.specs.Prelude.{◌≡◌, length, true, is_some, option_map, Option, Some, IfOk, OnOk};
ghost use Rattle.pg_schema.specs.Invariant.{IsSchema};
ghost use Rattle.pg_schema.specs.Parts.{field_shape, shape_of};
ghost use Rattle.pg_schema.specs.ShapeRules.{ElementFits};
ghost use Rattle.pg_schema.specs.Shape.{field_at, fields};
ghost use Rattle.pg_dyn.specs.fitting.Fits.{Fits};
ghost use Rattle.pg_dyn.specs.message.Kept.{message_of, type_of};
ghost use Rattle.pg_dyn.specs.message.Message as parts;
ghost use Rattle.pg_dyn.specs.setting.Setting.{IsSetTo};
ghost use Rattle.pg_pairs.specs.witness.Carried.{carried, choice_child};
ghost use Rattle.pg_pairs.specs.witness.CarriedChoices.{ChildGiven, ChildReached, IsChoiceOf};
ghost use Rattle.pg_pairs.specs.inner.CarriedItems.{IsTakenBy, LeastIsSet};
ghost use Rattle.pg_pairs.specs.choices.Choices.{Table, choices, is_oneof};
ghost use Rattle.pg_pairs.specs.bounds.Laws.{ReachedBy};
ghost use Rattle.pg_pairs.specs.bounds.Covering.{IsAmong};
ghost use Rattle.pg_pairs.specs.graph.GraphView.{seen};

use crate::choices::beside::Beside;
use crate::choices::case::Case;
use crate::choices::choice::{Choice, Pair};
use crate::graph::priced::Priced;
use crate::witness::content::{broken_content, least_content};
use pg_dyn::{Content, Message};
use pg_schema::{Field, Schema, TypeId};
use std::alloc::{AllocError, Global};

/// Sets a content that is one of the field.
fn add(
    message: &mut Message,
    schema: &Schema,
    field: &Field,
    content: Content,
) -> Result<(), AllocError>
    requires fits { Fits (shape_of schema.now) message.old }
    requires found { field_at (fields (shape_of schema.now) (type_of message.old)) field.now.number
        ≡ Some (field_shape field.now) }
    requires taken { IsTakenBy (shape_of schema.now) field.now.presence field.now.element content }
    ensures set { OnOk result (IsSetTo (shape_of schema.now) field.now.number content message.old
        message.new) }
    ensures fits { OnOk result (Fits (shape_of schema.now) message.new) }
    ensures type_is { OnOk result (type_of message.new ≡ type_of message.old) }
{
    match message.put(schema, field.number, content) {
        Ok(()) => Ok(()),
        // What is taken is refused where memory is, and nowhere else.
        Err(_) => Err(AllocError),
    }
}

/// The field of a number that the type has.
fn field_there(schema: &Schema, type_id: TypeId, number: u32) -> &Field
    requires { is_some (field_at (fields (shape_of schema.now) type_id) number) ≡ true }
    ensures found { field_at (fields (shape_of schema.now) type_id) number
        ≡ Some (field_shape result.now) }
    ensures own { result.now.number ≡ number }
    ensures element { ElementFits (length (shape_of schema.now)) result.now.element }
{
    // What holds of every schema.
    schema.parts();
    match schema.field(type_id, number) {
        Some(field) => field,
        None => unreachable!(),
    }
}

/// Sets the field's least content.
fn add_least(
    message: &mut Message,
    alloc: Global,
    schema: &Schema,
    field: &Field,
) -> Result<(), AllocError>
    requires fits { Fits (shape_of schema.now) message.old }
    requires found { field_at (fields (shape_of schema.now) (type_of message.old)) field.now.number
        ≡ Some (field_shape field.now) }
    requires element { ElementFits (length (shape_of schema.now)) field.now.element }
    ensures set { OnOk result (LeastIsSet (shape_of schema.now) (field_shape field.now) message.old
        message.new) }
    ensures fits { OnOk result (Fits (shape_of schema.now) message.new) }
    ensures type_is { OnOk result (type_of message.new ≡ type_of message.old) }
{
    let content = least_content(alloc, field)?;
    add(message, schema, field, content)
}

/// The message of a choice of two fields that meet, with the least contents of both.
fn carry_two(
    alloc: Global,
    graph: &Priced<'_>,
    pair: Pair,
    choice: &Choice,
) -> Result<Message, AllocError>
    requires old_schema { IsSchema graph.now.old.now }
    requires new_schema { IsSchema graph.now.new.now }
    requires choice { IsChoiceOf (seen graph.now) (shape_of graph.now.old.now)
        (shape_of graph.now.new.now) pair choice.now }
    requires two { is_oneof choice.now.case ≡ true }
    ensures fits { IfOk result (λ m. Fits (shape_of graph.now.old.now) m) }
    ensures type_is { IfOk result (λ m. type_of m ≡ pair.old) }
    ensures made { IfOk result (λ m. (child : Option parts.Message) → message_of m
        ≡ carried (seen graph.now) (shape_of graph.now.old.now)
        (shape_of graph.now.new.now) pair choice.now child) }
{
    let old = graph.old;
    let field = field_there(old, pair.old, choice.number);
    let other = field_there(old, pair.old, choice.part);
    let mut message = Message::empty(alloc, pair.old);
    add_least(&mut message, alloc, old, field)?;
    add_least(&mut message, alloc, old, other)?;
    Ok(message)
}

/// The message by which the choice is reached, a message of the pair's old type, built round the
/// child. It breaks and has just the choice's cost, if the child breaks and has the length of the
/// bound of its pair.
///
/// The choice has to be one that `options` gives for the pair under this view and some table. A
/// child has to come just where the choice has one (`choice_child`), and to be a message of the old
/// type of that pair.
///
/// Refused only where memory is; then the child is dropped.
pub fn carry(
    alloc: Global,
    graph: &Priced<'_>,
    pair: Pair,
    choice: &Choice,
    child: Option<Message>,
) -> Result<Message, AllocError>
    requires choice { IsChoiceOf (seen graph.now) (shape_of graph.now.old.now)
        (shape_of graph.now.new.now) pair choice.now }
    requires child { ChildGiven (shape_of graph.now.old.now)
        (choice_child (shape_of graph.now.old.now) (shape_of graph.now.new.now) pair choice.now)
        child }
    ensures fits { IfOk result (λ m. Fits (shape_of graph.now.old.now) m) }
    ensures type_is { IfOk result (λ m. type_of m ≡ pair.old) }
    ensures made { IfOk result (λ m. message_of m
        ≡ carried (seen graph.now) (shape_of graph.now.old.now)
        (shape_of graph.now.new.now) pair choice.now (option_map message_of child)) }
    ensures reached { IfOk result (λ m. (table : Table) →
        IsAmong choice.now (choices (seen graph.now) table
        (shape_of graph.now.old.now) (shape_of graph.now.new.now) pair)
        → ChildReached (seen graph.now) (shape_of graph.now.old.now)
        (shape_of graph.now.new.now) table (choice_child (shape_of graph.now.old.now)
        (shape_of graph.now.new.now) pair choice.now) (option_map message_of child)
        → ReachedBy (seen graph.now) (shape_of graph.now.old.now)
        (shape_of graph.now.new.now) pair (message_of m) choice.now.cost) }
{
    let (old, new) = (graph.old, graph.new);
    // What holds of every schema.
    old.parts();
    new.parts();
    if choice.case == Case::Oneof {
        return carry_two(alloc, graph, pair, choice);
    }
    let field = field_there(old, pair.old, choice.number);
    let fields = Beside {
        old: field,
        new: field_there(new, pair.new, choice.number),
    };
    let found = broken_content(alloc, graph, &fields, choice, child)?;
    let mut message = Message::empty(alloc, pair.old);
    let Some(content) = found else {
        return Ok(message);
    };
    add(&mut message, old, field, content)?;
    Ok(message)
}
