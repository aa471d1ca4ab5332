//! The choices of a pair.

ghost use Rattle.std.specs.Prelude.{◌≡◌, ◌<◌, ◌^◌, map, IfOk};
ghost use Rattle.std.specs.List.{AllByRecursion};
ghost use Rattle.pg_schema.specs.declared.parts.field.Field.{Field};
ghost use Rattle.pg_schema.specs.Parts.{field_shape, shape_of};
ghost use Rattle.pg_schema.specs.Shape.{fields};
ghost use Rattle.pg_pairs.specs.choices.Choices.{affordable, all_choices, choices};
ghost use Rattle.pg_pairs.specs.graph.GraphView.{seen};

use crate::choices::choice::{Choice, Pair};
use crate::choices::field_choice::offer_beside;
use crate::choices::meeting::offer_joined;
use crate::choices::oneof_links::links_of;
use crate::graph::priced::Priced;
use crate::graph::table::Table;
use pg_schema::{Field, TypeId};
use std::alloc::{AllocError, Global};

/// The choices of those fields.
fn choices_of<T: Table>(
    alloc: Global,
    graph: &Priced<'_>,
    table: &T,
    type_id: TypeId,
    list: &[Field],
) -> Result<Vec<Choice>, AllocError>
    requires { AllByRecursion (λ (f : Field). f.number < 2 ^ 29) list.now }
    ensures { IfOk result (λ choices. choices.items
        ≡ affordable (all_choices (seen graph.now) (T.bounds table.now)
        (fields (shape_of graph.now.new.now) type_id) (map field_shape list.now))) }
{
    let links = links_of(alloc, graph.new, type_id, list)?;
    let mut choices = Vec::new(alloc);
    for at in 0..list.len() {
        offer_beside(graph, table, &mut choices, type_id, &list[at])?;
        offer_joined(&mut choices, list, &links, at)?;
    }
    Ok(choices)
}

/// The ways in which a message of the pair's old type can break beside its new one, each with the
/// bytes of the message that `carry` makes of it, by number, case and part. Children cost what the
/// table says of them.
///
/// Refused only where memory is.
pub fn options<T: Table>(
    alloc: Global,
    graph: &Priced<'_>,
    pair: Pair,
    table: &T,
) -> Result<Vec<Choice>, AllocError>
    ensures { IfOk result (λ cs. cs.items
        ≡ choices (seen graph.now) (T.bounds table.now) (shape_of graph.now.old.now)
        (shape_of graph.now.new.now) pair) }
{
    // What holds of every schema.
    graph.old.parts();
    match graph.old.message_type(pair.old) {
        Some(message_type) => choices_of(alloc, graph, table, pair.new, &message_type.fields),
        None => Ok(Vec::new(alloc)),
    }
}
