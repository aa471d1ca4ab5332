//! The contents that break in the messages of choices.

ghost use Rattle.std.specs.Prelude.{◌≡◌, ℕ, length, true, false, option_map, Some, None, IfOk, IfSome};
ghost use Rattle.pg_schema.specs.Parts.{field_shape};
ghost use Rattle.pg_schema.specs.ShapeRules.{ElementFits};
ghost use Rattle.pg_schema.specs.Shape.{Shape, is_map};
ghost use Rattle.pg_dyn.specs.word.Coding.{scalar_form, zero_leaf};
ghost use Rattle.pg_dyn.specs.fitting.ContentFits.{ItemFits};
ghost use Rattle.pg_dyn.specs.message.Kept.{message_of};
ghost use Rattle.pg_dyn.specs.message.Message.{with_part};
ghost use Rattle.pg_dyn.specs.fitting.ScalarItems.{IsItemOf};
ghost use Rattle.pg_dyn.specs.message.Seen.{leaf_of, IsKey};
ghost use Rattle.pg_pairs.specs.witness.Carried.{alone, apart_item, apart_leaf, broken_value, carried_field, entry_message, item_alone, item_by, key_alone, key_of, least_key, least_part, lost_onto, unlike_message};
ghost use Rattle.pg_pairs.specs.inner.CarriedItems.{apart_small, content_alone, found_alone, IsChildOf, IsPlacedBy, IsTakenBy, leaf_by, Puts, value_item};
ghost use Rattle.pg_pairs.specs.gaps.Gaps.{gap_item};
ghost use Rattle.pg_pairs.specs.graph.GraphView.{seen};

use crate::choices::beside::Beside;
use crate::choices::case::Case;
use crate::choices::choice::Choice;
use crate::choices::field_choice::zero_counts;
use crate::gaps::likeness::are_like;
use crate::graph::priced::Priced;
use crate::witness::item::{Small, child_item, gap_item, small_item, small_leaf};
use pg_dyn::{Content, Message, Value};
use pg_schema::{Element, Field, Presence, Scalar};
use std::alloc::{AllocError, Global};

/// A content of one item, of a field that is no map.
fn plain_content(alloc: Global, field: &Field, value: Value) -> Result<Content, AllocError>
    ensures seen { IfOk result (λ content. Puts field.now.number content
        (with_part field.now.number None (value_item value))) }
    ensures taken { IfOk result (λ content. (shape : Shape) → is_map field.now.presence ≡ false
        → ItemFits shape field.now.element value
        → IsTakenBy shape field.now.presence field.now.element content) }
{
    if let Presence::Repeated { .. } = field.presence {
        let mut values = Vec::new(alloc);
        values.push(value)?;
        return Ok(Content::Many(values));
    }
    Ok(Content::One(value))
}

/// A content of one entry.
fn entry_content(alloc: Global, key: Value, value: Value) -> Result<Content, AllocError>
    ensures seen { IfOk result (λ content. (number : ℕ)
        → Puts number content (with_part number (Some (leaf_of key)) (value_item value))) }
    ensures taken { IfOk result (λ content. (shape : Shape) (scalar : Scalar) (element : Element)
        → IsItemOf scalar key → ItemFits shape element value
        → IsTakenBy shape (Presence.Map scalar) element content) }
{
    let mut entries = Vec::new(alloc);
    entries.push((key, value))?;
    Ok(Content::Map(entries))
}

/// A content of one item that is short so, in a map under zero.
fn small_content(alloc: Global, field: &Field, small: Small) -> Result<Content, AllocError>
    ensures seen { IfOk result (λ content. Puts field.now.number content
        (with_part field.now.number (least_key field.now.presence)
        (item_by (leaf_by small) field.now.element))) }
    ensures taken { IfOk result (λ content. (shape : Shape)
        → ElementFits (length shape) field.now.element
        → IsTakenBy shape field.now.presence field.now.element content) }
{
    let value = small_item(alloc, field.element, small)?;
    match field.presence {
        Presence::Map { key } => entry_content(alloc, small_leaf(alloc, key, Small::Zero)?, value),
        _ => plain_content(alloc, field, value),
    }
}

/// The least content of a field.
pub(crate) fn least_content(alloc: Global, field: &Field) -> Result<Content, AllocError>
    ensures seen { IfOk result (λ content. Puts field.now.number content
        (least_part (field_shape field.now))) }
    ensures taken { IfOk result (λ content. (shape : Shape)
        → ElementFits (length shape) field.now.element
        → IsTakenBy shape field.now.presence field.now.element content) }
{
    match field.presence {
        Presence::Implicit => small_content(alloc, field, Small::NotZero),
        _ => small_content(alloc, field, Small::Zero),
    }
}

/// The least content of a field beside an unlike one; where zero doesn't count an item that isn't
/// zero.
fn unlike_content(alloc: Global, old: &Field, new: &Field) -> Result<Content, AllocError>
    ensures seen { IfOk result (λ content. content_alone old.now.number content
        ≡ unlike_message (field_shape old.now) (field_shape new.now)) }
    ensures taken { IfOk result (λ content. (shape : Shape)
        → ElementFits (length shape) old.now.element
        → IsTakenBy shape old.now.presence old.now.element content) }
{
    let small = if zero_counts(old, new) {
        Small::Zero
    } else {
        Small::NotZero
    };
    small_content(alloc, old, small)
}

/// A content of that item, where there is one, of a field that is no map.
fn item_content(
    alloc: Global,
    field: &Field,
    item: Option<Value>,
) -> Result<Option<Content>, AllocError>
    ensures seen { IfOk result (λ found. found_alone field.now.number found
        ≡ item_alone field.now.number None (option_map value_item item)) }
    ensures taken { IfOk result (λ found. (shape : Shape) → is_map field.now.presence ≡ false
        → IfSome item (ItemFits shape field.now.element)
        → IfSome found (IsTakenBy shape field.now.presence field.now.element)) }
{
    match item {
        Some(value) => Ok(Some(plain_content(alloc, field, value)?)),
        None => Ok(None),
    }
}

/// The content of a list that the new field doesn't keep: two zeros beside an explicit field, of
/// which one is read, else one.
fn lost_items(alloc: Global, old: &Field, new: &Field) -> Result<Content, AllocError>
    ensures seen { IfOk result (λ content. content_alone old.now.number content
        ≡ lost_onto old.now.number old.now.presence new.now.presence
        (item_by zero_leaf old.now.element)) }
    ensures taken { IfOk result (λ content. (shape : Shape) → is_map old.now.presence ≡ false
        → ElementFits (length shape) old.now.element
        → IsTakenBy shape old.now.presence old.now.element content) }
{
    let zero = small_item(alloc, old.element, Small::Zero)?;
    match (old.presence, new.presence) {
        (Presence::Repeated { packed: false }, Presence::Explicit) => {
            let mut values = Vec::new(alloc);
            values.push(zero)?;
            values.push(small_item(alloc, old.element, Small::Zero)?)?;
            Ok(Content::Many(values))
        }
        _ => plain_content(alloc, old, zero),
    }
}

/// The key of a map; of another field any scalar.
fn key_of(presence: Presence) -> Scalar
    ensures { result ≡ key_of presence }
{
    match presence {
        Presence::Map { key } => key,
        _ => Scalar::Int32,
    }
}

/// An entry with that key, where there is one.
fn key_content(
    alloc: Global,
    element: Element,
    key: Option<Value>,
) -> Result<Option<Content>, AllocError>
    ensures seen { IfOk result (λ found. (number : ℕ) → found_alone number found
        ≡ key_alone number element (option_map leaf_of key)) }
    ensures taken { IfOk result (λ found. (shape : Shape) (scalar : Scalar)
        → ElementFits (length shape) element → IfSome key (IsItemOf scalar)
        → IfSome found (IsTakenBy shape (Presence.Map scalar) element)) }
{
    match key {
        Some(key) => {
            let value = small_item(alloc, element, Small::Zero)?;
            Ok(Some(entry_content(alloc, key, value)?))
        }
        None => Ok(None),
    }
}

/// An entry with that value under zero, where there is one.
fn value_content(
    alloc: Global,
    key: Scalar,
    value: Option<Value>,
) -> Result<Option<Content>, AllocError>
    ensures seen { IfOk result (λ found. (number : ℕ) → found_alone number found
        ≡ item_alone number (Some (zero_leaf (scalar_form key))) (option_map value_item value)) }
    ensures taken { IfOk result (λ found. (shape : Shape) (element : Element)
        → IfSome value (ItemFits shape element)
        → IfSome found (IsTakenBy shape (Presence.Map key) element)) }
{
    match value {
        Some(value) => {
            let key = small_leaf(alloc, key, Small::Zero)?;
            Ok(Some(entry_content(alloc, key, value)?))
        }
        None => Ok(None),
    }
}

/// The value of an entry that breaks: the child, or else the gap's item, where there is one.
fn broken_value(
    alloc: Global,
    graph: &Priced<'_>,
    elements: (Element, Element),
    child: Option<Message>,
) -> Result<Option<Value>, AllocError>
    ensures seen { IfOk result (λ value. option_map value_item value
        ≡ broken_value (option_map message_of child)
        (gap_item (seen graph.now) true
        elements.0 elements.1)) }
    ensures fits { IfOk result (λ value. (shape : Shape)
        → IfSome child (IsChildOf shape elements.0) → IfSome value (ItemFits shape elements.0)) }
{
    match child {
        Some(_) => child_item(alloc, child),
        None => gap_item(alloc, graph, true, elements),
    }
}

/// Zero where the new element is like the old one, else what isn't an integer's default.
fn apart_small(old: Element, new: Element) -> Small
    ensures { result ≡ apart_small old new }
{
    if are_like(old, new) {
        Small::Zero
    } else {
        Small::Far
    }
}

/// An entry whose unlike key or value isn't an integer's default.
fn apart_content(
    alloc: Global,
    fields: &Beside<'_>,
    keys: (Scalar, Scalar),
) -> Result<Content, AllocError>
    ensures seen { IfOk result (λ content. content_alone fields.now.old.now.number content
        ≡ alone fields.now.old.now.number
        (Some (apart_leaf (Element.Scalar keys.0) (Element.Scalar keys.1)))
        (apart_item fields.now.old.now.element fields.now.new.now.element)) }
    ensures taken { IfOk result (λ content. (shape : Shape)
        → ElementFits (length shape) fields.now.old.now.element
        → IsTakenBy shape (Presence.Map keys.0) fields.now.old.now.element content) }
{
    let (old, new) = (fields.old, fields.new);
    let far_key = apart_small(Element::Scalar(keys.0), Element::Scalar(keys.1));
    let far_value = apart_small(old.element, new.element);
    let key = small_leaf(alloc, keys.0, far_key)?;
    let value = small_item(alloc, old.element, far_value)?;
    entry_content(alloc, key, value)
}

/// The entry of a choice of a map, where there is what breaks in it.
fn broken_entry(
    alloc: Global,
    graph: &Priced<'_>,
    fields: &Beside<'_>,
    part: u32,
    child: Option<Message>,
) -> Result<Option<Content>, AllocError>
    ensures seen { IfOk result (λ found. found_alone fields.now.old.now.number found
        ≡ entry_message (seen graph.now)
        fields.now.old.now.number (key_of fields.now.old.now.presence)
        (key_of fields.now.new.now.presence) fields.now.old.now.element fields.now.new.now.element
        part (option_map message_of child)) }
    ensures taken { IfOk result (λ found. (shape : Shape)
        → ElementFits (length shape) fields.now.old.now.element
        → IfSome child (IsChildOf shape fields.now.old.now.element)
        → IfSome found (IsTakenBy shape (Presence.Map (key_of fields.now.old.now.presence))
        fields.now.old.now.element)) }
{
    let (old, new) = (fields.old, fields.new);
    let keys = (key_of(old.presence), key_of(new.presence));
    match part {
        1 => {
            let keys = (Element::Scalar(keys.0), Element::Scalar(keys.1));
            key_content(alloc, old.element, gap_item(alloc, graph, true, keys)?)
        }
        2 => {
            let value = broken_value(alloc, graph, (old.element, new.element), child)?;
            value_content(alloc, keys.0, value)
        }
        _ => Ok(Some(apart_content(alloc, fields, keys)?)),
    }
}

/// The content of the old field that breaks in the message of a choice of that case and part, round
/// the child where it has one; `None` where the choice has no gap and no child.
pub(crate) fn broken_content(
    alloc: Global,
    graph: &Priced<'_>,
    fields: &Beside<'_>,
    choice: &Choice,
    child: Option<Message>,
) -> Result<Option<Content>, AllocError>
    ensures seen { IfOk result (λ found. found_alone fields.now.old.now.number found
        ≡ carried_field (seen graph.now)
        (field_shape fields.now.old.now)
        (field_shape fields.now.new.now) choice.now.case choice.now.part
        (option_map message_of child)) }
    ensures taken { IfOk result (λ found. (shape : Shape)
        → ElementFits (length shape) fields.now.old.now.element
        → IsPlacedBy fields.now.old.now.presence choice.now.case
        → IfSome child (IsChildOf shape fields.now.old.now.element)
        → IfSome found (IsTakenBy shape fields.now.old.now.presence fields.now.old.now.element)) }
{
    let (old, new) = (fields.old, fields.new);
    match choice.case {
        Case::Unlike => Ok(Some(unlike_content(alloc, old, new)?)),
        Case::Gap => {
            let zero = zero_counts(old, new);
            let item = gap_item(alloc, graph, zero, (old.element, new.element))?;
            item_content(alloc, old, item)
        }
        Case::Child => item_content(alloc, old, child_item(alloc, child)?),
        Case::List => Ok(Some(lost_items(alloc, old, new)?)),
        Case::Map => broken_entry(alloc, graph, fields, choice.part, child),
        Case::Oneof => Ok(None),
    }
}
