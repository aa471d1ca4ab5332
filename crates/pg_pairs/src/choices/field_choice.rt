//! The choices of one field.

ghost use Rattle.std.specs.Prelude.{◌≡◌, ◌++◌, ◌<◌, ◌^◌, OnOk, IfSome, option_map};
ghost use Rattle.pg_schema.specs.Parts.{field_shape, shape_of};
ghost use Rattle.pg_schema.specs.Shape.{field_at, fields};
ghost use Rattle.pg_pairs.specs.choices.Choices.{affordable, choice_of, choices_beside, field_choices, map_choices, plain_choices, singular_cost, unlike_cost, zero_counts};
ghost use Rattle.pg_pairs.specs.choices.Costs.{entry_cost, least_body, one_item};
ghost use Rattle.pg_pairs.specs.graph.GraphView.{seen};

use crate::choices::beside::Beside;
use crate::choices::case::Case;
use crate::choices::choice::Choice;
use crate::choices::cost::{entry_cost, least_body, least_content, nonzero_body, one_item};
use crate::gaps::gap_cost::{child_body, gap_body};
use crate::gaps::likeness::are_like;
use crate::graph::priced::Priced;
use crate::graph::table::Table;
use pg_dyn::MAX_ENCODING_LEN;
use pg_schema::{Element, Field, Presence, Scalar, TypeId};
use std::alloc::AllocError;

/// Whether zero counts as an item of the old field beside the new one.
pub(crate) fn zero_counts(old: &Field, new: &Field) -> bool
    ensures { result ≡ zero_counts (field_shape old.now) (field_shape new.now) }
{
    match (old.presence, new.presence) {
        (Presence::Implicit, _) => false,
        (Presence::Explicit, Presence::Implicit) => false,
        _ => true,
    }
}

/// The least content of unlike fields that isn't kept.
fn unlike_cost(old: &Field, new: &Field) -> u64
    requires { old.now.number < 2 ^ 29 }
    ensures bytes { result ≡ unlike_cost (field_shape old.now) (field_shape new.now) }
    ensures few { result < 2 ^ 40 }
{
    if zero_counts(old, new) {
        least_content(old)
    } else {
        one_item(old, nonzero_body(old.element))
    }
}

/// A list where the new type has one item.
fn singular_cost(old: &Field, new: &Field) -> Option<u64>
    requires { old.now.number < 2 ^ 29 }
    ensures bytes { result ≡ singular_cost (field_shape old.now) (field_shape new.now) }
    ensures few { IfSome result (λ cost. cost < 2 ^ 41) }
{
    let Presence::Repeated { packed } = old.presence else {
        return None;
    };
    match new.presence {
        Presence::Explicit if !packed => Some(2 * least_content(old)),
        Presence::Explicit | Presence::Implicit => Some(least_content(old)),
        Presence::Repeated { .. } | Presence::Map { .. } => None,
    }
}

/// A content of one item with that body, where there is one.
fn item_cost(field: &Field, body: Option<u64>) -> Option<u64>
    requires number { field.now.number < 2 ^ 29 }
    requires body { IfSome body (λ body. body < 2 ^ 33) }
    ensures { result ≡ option_map (one_item (field_shape field.now)) body }
{
    Some(one_item(field, body?))
}

/// An entry whose key has that body, where there is one, with a least value.
fn key_cost(field: &Field, body: Option<u64>) -> Option<u64>
    requires number { field.now.number < 2 ^ 29 }
    requires body { IfSome body (λ body. body < 2 ^ 33) }
    ensures { result ≡ option_map (λ body. entry_cost field.now.number body
        (least_body field.now.element)) body }
{
    Some(entry_cost(field.number, body?, least_body(field.element)))
}

/// Appends a choice of that cost, where there is one that an encoding may have.
pub(crate) fn offer(
    choices: &mut Vec<Choice>,
    number: u32,
    case: Case,
    part: u32,
    cost: Option<u64>,
) -> Result<(), AllocError>
    ensures { OnOk result (choices.new.items
        ≡ choices.old.items ++ affordable (choice_of number case part cost)) }
{
    let Some(cost) = cost else {
        return Ok(());
    };
    if cost > MAX_ENCODING_LEN as u64 {
        return Ok(());
    }
    choices.push(Choice {
        number,
        case,
        part,
        cost: cost as u32,
    })?;
    Ok(())
}

/// The choices of a field that is no map in either type.
fn offer_plain<T: Table>(
    graph: &Priced<'_>,
    table: &T,
    choices: &mut Vec<Choice>,
    fields: &Beside<'_>,
) -> Result<(), AllocError>
    requires { fields.now.old.now.number < 2 ^ 29 }
    ensures { OnOk result (choices.new.items
        ≡ choices.old.items ++ affordable
        (plain_choices (seen graph.now) (T.bounds table.now) (field_shape fields.now.old.now)
        (field_shape fields.now.new.now))) }
{
    let (old, new) = (fields.old, fields.new);
    let number = old.number;
    let elements = (old.element, new.element);
    if !are_like(old.element, new.element) {
        return offer(
            choices,
            number,
            Case::Unlike,
            0,
            Some(unlike_cost(old, new)),
        );
    }
    let zero = zero_counts(old, new);
    let gap = gap_body(graph, zero, elements);
    let child = child_body(table, elements);
    offer(choices, number, Case::Gap, 0, item_cost(old, gap))?;
    offer(choices, number, Case::Child, 0, item_cost(old, child))?;
    offer(choices, number, Case::List, 0, singular_cost(old, new))
}

/// The choices of a field that is a map in both types, with those keys.
fn offer_map<T: Table>(
    graph: &Priced<'_>,
    table: &T,
    choices: &mut Vec<Choice>,
    fields: &Beside<'_>,
    keys: (Scalar, Scalar),
) -> Result<(), AllocError>
    requires { fields.now.old.now.number < 2 ^ 29 }
    ensures { OnOk result (choices.new.items
        ≡ choices.old.items ++ affordable
        (map_choices (seen graph.now)
        (T.bounds table.now) (field_shape fields.now.old.now)
        (field_shape fields.now.new.now) keys.0 keys.1)) }
{
    let (old, new) = (fields.old, fields.new);
    let number = old.number;
    let keys = (Element::Scalar(keys.0), Element::Scalar(keys.1));
    let values = (old.element, new.element);
    if !are_like(keys.0, keys.1) || !are_like(values.0, values.1) {
        return offer(choices, number, Case::Map, 0, Some(least_content(old)));
    }
    let key_gap = gap_body(graph, true, keys);
    let value_gap = gap_body(graph, true, values);
    let child = child_body(table, values);
    offer(choices, number, Case::Map, 1, key_cost(old, key_gap))?;
    offer(choices, number, Case::Map, 2, item_cost(old, value_gap))?;
    offer(choices, number, Case::Map, 2, item_cost(old, child))
}

/// Appends the choices of the field with one number, by case and part.
pub(crate) fn offer_field<T: Table>(
    graph: &Priced<'_>,
    table: &T,
    choices: &mut Vec<Choice>,
    fields: &Beside<'_>,
) -> Result<(), AllocError>
    requires { fields.now.old.now.number < 2 ^ 29 }
    ensures { OnOk result (choices.new.items
        ≡ choices.old.items ++ affordable
        (field_choices (seen graph.now) (T.bounds table.now) (field_shape fields.now.old.now)
        (field_shape fields.now.new.now))) }
{
    let (old, new) = (fields.old, fields.new);
    match (old.presence, new.presence) {
        (Presence::Map { key: old_key }, Presence::Map { key: new_key }) => {
            offer_map(graph, table, choices, fields, (old_key, new_key))
        }
        (Presence::Map { .. }, _) | (_, Presence::Map { .. }) => {
            offer(
                choices,
                old.number,
                Case::Unlike,
                0,
                Some(unlike_cost(old, new)),
            )
        }
        _ => offer_plain(graph, table, choices, fields),
    }
}

/// Appends the choices of a field with the new type's field of its number.
pub(crate) fn offer_beside<T: Table>(
    graph: &Priced<'_>,
    table: &T,
    choices: &mut Vec<Choice>,
    type_id: TypeId,
    field: &Field,
) -> Result<(), AllocError>
    requires { field.now.number < 2 ^ 29 }
    ensures { OnOk result (choices.new.items
        ≡ choices.old.items ++ affordable
        (choices_beside (seen graph.now) (T.bounds table.now) (field_shape field.now)
        (field_at (fields (shape_of graph.now.new.now) type_id) field.now.number))) }
{
    let Some(beside) = graph.new.field(type_id, field.number) else {
        return Ok(());
    };
    let fields = Beside {
        old: field,
        new: beside,
    };
    offer_field(graph, table, choices, &fields)
}
