//! The pairs that a pair leads to.

ghost use Rattle.std.specs.Prelude.{◌≡◌, map, IfOk, option_to_list};
ghost use Rattle.pg_schema.specs.Parts.{field_shape, shape_of};
ghost use Rattle.pg_schema.specs.Shape.{field_at, fields};
ghost use Rattle.pg_pairs.specs.witness.Carried.{choice_child, has_child};
ghost use Rattle.pg_pairs.specs.choices.Choices.{child_pair};
ghost use Rattle.pg_pairs.specs.bounds.Covering.{all_children, children, children_beside, distinct, field_children};

use crate::choices::case::Case;
use crate::choices::choice::{Choice, Pair};
use crate::gaps::likeness::are_like;
use crate::graph::walking::add_unseen;
use pg_schema::{Element, Field, Presence, Schema, TypeId};
use std::alloc::{AllocError, Global};
use std::collections::BTreeSet;

/// The pair of two elements that are messages.
pub(crate) fn child_pair(old: Element, new: Element) -> Option<Pair>
    ensures { result ≡ child_pair old new }
{
    match (old, new) {
        (Element::Message(old), Element::Message(new)) => Some(Pair { old, new }),
        _ => None,
    }
}

/// The child of two fields: messages in both, in maps under like keys.
fn field_child(old: &Field, new: &Field) -> Option<Pair>
    ensures { option_to_list result ≡ field_children (field_shape old.now) (field_shape new.now) }
{
    match (old.presence, new.presence) {
        (Presence::Map { key: old_key }, Presence::Map { key: new_key }) => {
            if !are_like(Element::Scalar(old_key), Element::Scalar(new_key)) {
                return None;
            }
            child_pair(old.element, new.element)
        }
        (Presence::Map { .. }, _) | (_, Presence::Map { .. }) => None,
        _ => child_pair(old.element, new.element),
    }
}

/// The child of a field beside the new type's field of its number.
pub(crate) fn child_beside(new: &Schema, type_id: TypeId, field: &Field) -> Option<Pair>
    ensures { option_to_list result ≡ children_beside (field_shape field.now)
        (field_at (fields (shape_of new.now) type_id) field.now.number) }
{
    field_child(field, new.field(type_id, field.number)?)
}

/// The children of those fields, each once, in the order in which they come first.
fn children_of(
    alloc: Global,
    new: &Schema,
    type_id: TypeId,
    list: &[Field],
) -> Result<Vec<Pair>, AllocError>
    ensures { IfOk result (λ pairs. pairs.items
        ≡ distinct (all_children (fields (shape_of new.now) type_id) (map field_shape list.now))) }
{
    let mut found = Vec::new(alloc);
    for field in list {
        if let Some(child) = child_beside(new, type_id, field) {
            found.push(child)?;
        }
    }
    let mut pairs = Vec::new(alloc);
    let mut seen = BTreeSet::new(alloc);
    add_unseen(&mut pairs, &mut seen, &found)?;
    Ok(pairs)
}

/// The pairs of types of the messages in shared fields of a pair, each once, by the
/// least number of such a field.
///
/// Refused only where memory is.
pub fn children(
    alloc: Global,
    old: &Schema,
    new: &Schema,
    pair: Pair,
) -> Result<Vec<Pair>, AllocError>
    ensures { IfOk result (λ pairs. pairs.items
        ≡ children (shape_of old.now) (shape_of new.now) pair) }
{
    match old.message_type(pair.old) {
        Some(message_type) => children_of(alloc, new, pair.new, &message_type.fields),
        None => Ok(Vec::new(alloc)),
    }
}

/// Whether a choice of that case and part has a child: an item that is one, or the value of an
/// entry.
fn has_child(case: Case, part: u32) -> bool
    ensures { result ≡ has_child case part }
{
    match case {
        Case::Child => true,
        Case::Map => part == 2,
        Case::Unlike | Case::Gap | Case::List | Case::Oneof => false,
    }
}

/// The pair of the child that the message of the choice holds; `None` where it holds none.
pub fn choice_child(old: &Schema, new: &Schema, pair: Pair, choice: &Choice) -> Option<Pair>
    ensures { result ≡ choice_child (shape_of old.now) (shape_of new.now) pair choice.now }
{
    let field = old.field(pair.old, choice.number)?;
    let beside = new.field(pair.new, choice.number)?;
    if !has_child(choice.case, choice.part) {
        return None;
    }
    child_pair(field.element, beside.element)
}
