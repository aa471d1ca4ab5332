//! The causes of a pair as they are told: all fields that come into one new oneof are one cause.

ghost use Rattle.std.specs.Prelude.{◌≡◌, ◌++◌, ◌<◌, ◌^◌, List, flat_map, map, reverse, IfOk, OnOk};
ghost use Rattle.std.specs.List.{AllByRecursion};
ghost use Rattle.pg_schema.specs.declared.parts.field.Field.{Field};
ghost use Rattle.pg_schema.specs.Parts.{field_shape, shape_of};
ghost use Rattle.pg_schema.specs.Shape.{FieldShape, fields};
ghost use Rattle.pg_pairs.specs.choices.Told.{told_alone, told_at, told_causes, told_of, told_oneof, told_own};
ghost use Rattle.pg_pairs.specs.graph.GraphView.{seen};
ghost use Rattle.pg_pairs.specs.inner.Coming.{AreGathered};
ghost use Rattle.pg_pairs.specs.choices.NewOneof.{new_oneof};

use crate::choices::choice::{Choice, Pair};
use crate::choices::coming::{Coming, gathered};
use crate::choices::field_choice::offer_beside;
use crate::choices::new_oneof::new_oneof;
use crate::graph::priced::Priced;
use crate::graph::table::NoBounds;
use pg_schema::{Field, TypeId};
use std::alloc::{AllocError, Global};
use std::collections::HashMap;

/// A cause of breaking: the fields that break, and a cheapest way in which they do.
#[derive(Debug, PartialEq, Eq, Drop)]
pub struct FieldCause {
    /// The number of the field. Where fields meet in a oneof of the new type, the numbers of all
    /// that come into it, in rising order: each of them meets another one.
    pub numbers: Vec<u32>,
    /// The field's choice; of fields that meet the first of the least cost.
    pub choice: Choice,
}

/// A cause of one field.
fn alone(alloc: Global, choice: Choice) -> Result<FieldCause, AllocError>
    ensures { IfOk result (λ cause. told_of cause ≡ told_alone choice) }
{
    let mut numbers = Vec::with_capacity(alloc, 1)?;
    numbers.push(choice.number)?;
    Ok(FieldCause { numbers, choice })
}

/// Adds each choice as a cause of its own.
fn tell_each(
    alloc: Global,
    told: &mut Vec<FieldCause>,
    choices: &[Choice],
) -> Result<(), AllocError>
    ensures { OnOk result (map told_of told.new.items
        ≡ map told_of told.old.items ++ map told_alone choices.now) }
{
    for choice in choices {
        told.push(alone(alloc, *choice)?)?;
    }
    Ok(())
}

/// Adds the causes of a field by itself.
fn tell_own(
    alloc: Global,
    graph: &Priced<'_>,
    told: &mut Vec<FieldCause>,
    type_id: TypeId,
    field: &Field,
) -> Result<(), AllocError>
    requires { field.now.number < 2 ^ 29 }
    ensures { OnOk result (map told_of told.new.items ≡ map told_of told.old.items
        ++ told_own (seen graph.now) (fields (shape_of graph.now.new.now) type_id)
        (field_shape field.now)) }
{
    let mut choices = Vec::new(alloc);
    offer_beside(graph, &NoBounds, &mut choices, type_id, field)?;
    tell_each(alloc, told, &choices)
}

/// The numbers, the last one first.
fn turned(alloc: Global, numbers: &[u32]) -> Result<Vec<u32>, AllocError>
    ensures { IfOk result (λ list. list.items ≡ reverse numbers.now) }
{
    let mut list = Vec::with_capacity(alloc, numbers.len())?;
    let mut at = numbers.len();
    while at > 0 {
        at -= 1;
        list.push(numbers[at])?;
    }
    Ok(list)
}

/// Adds the cause of a new oneof, where the field is the first that comes into it and two of its
/// fields meet.
fn tell_oneof(
    alloc: Global,
    told: &mut Vec<FieldCause>,
    gathered: &HashMap<u32, Coming>,
    oneof: Option<u32>,
    number: u32,
) -> Result<(), AllocError>
    ensures { OnOk result ((gs fs : List FieldShape) (f : FieldShape)
        → oneof ≡ new_oneof gs f → number ≡ f.number → AreGathered gs fs gathered.now
        → map told_of told.new.items ≡ map told_of told.old.items ++ told_oneof gs fs f) }
{
    let Some(oneof) = oneof else {
        return Ok(());
    };
    let Some(coming) = gathered.get(&oneof) else {
        return Ok(());
    };
    if coming.first != number {
        return Ok(());
    }
    let Some(choice) = coming.choice else {
        return Ok(());
    };
    let numbers = turned(alloc, &coming.numbers)?;
    told.push(FieldCause { numbers, choice })?;
    Ok(())
}

/// The causes of those fields.
fn told_of_fields(
    alloc: Global,
    graph: &Priced<'_>,
    type_id: TypeId,
    list: &[Field],
) -> Result<Vec<FieldCause>, AllocError>
    requires { AllByRecursion (λ (f : Field). f.number < 2 ^ 29) list.now }
    ensures { IfOk result (λ told. map told_of told.items ≡ flat_map
        (told_at (seen graph.now) (fields (shape_of graph.now.new.now) type_id)
        (map field_shape list.now)) (map field_shape list.now)) }
{
    let gathered = gathered(alloc, graph.new, type_id, list)?;
    let mut told = Vec::new(alloc);
    for at in 0..list.len() {
        let field = &list[at];
        let oneof = new_oneof(graph.new, type_id, field);
        tell_own(alloc, graph, &mut told, type_id, field)?;
        tell_oneof(alloc, &mut told, &gathered, oneof, field.number)?;
    }
    Ok(told)
}

/// The ways in which a message of the pair's old type can break beside its new one without a child,
/// by the first number, case and part, each with what a shortest message costs that breaks so (the
/// law `ways_are_told`). All fields that come into one oneof of the new type and meet there are one
/// cause.
///
/// Refused only where memory is.
pub fn told_causes(
    alloc: Global,
    graph: &Priced<'_>,
    pair: Pair,
) -> Result<Vec<FieldCause>, AllocError>
    ensures { IfOk result (λ told. map told_of told.items ≡ told_causes (seen graph.now)
        (shape_of graph.now.old.now) (shape_of graph.now.new.now) pair) }
{
    // What holds of every schema.
    graph.old.parts();
    match graph.old.message_type(pair.old) {
        Some(message_type) => told_of_fields(alloc, graph, pair.new, &message_type.fields),
        None => Ok(Vec::new(alloc)),
    }
}
