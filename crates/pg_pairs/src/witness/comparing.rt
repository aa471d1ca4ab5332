//! An old message beside what a new type reads of it.

ghost use Rattle.std.specs.Prelude.{ℕ, ◌≡◌, [], ◌++◌, false, Some, IfOk, IfSome, OnOk};
ghost use Rattle.std.specs.List.{AllByRecursion, list_all};
ghost use Rattle.std.specs.Option.{option_copied};
ghost use Rattle.std.specs.Str.{bytes_eq};
ghost use Rattle.pg_schema.specs.Invariant.{IsSchema};
ghost use Rattle.pg_schema.specs.Parts.{field_shape, shape_of};
ghost use Rattle.pg_schema.specs.Shape.{field_at, fields};
ghost use Rattle.pg_dyn.specs.message_ref.Borrowed.{IsKey, leaf_of};
ghost use Rattle.pg_dyn.specs.message_ref.BorrowedItems.{ItemFits};
ghost use Rattle.pg_dyn.specs.views.Comparison.{records_outside, unshared_bytes};
ghost use Rattle.pg_dyn.specs.fitting.Fits.{Fits};
ghost use Rattle.pg_dyn.specs.message.Kept.{message_of, type_of};
ghost use Rattle.pg_dyn.specs.message.KeptParts.{of_number, unknown_of};
ghost use Rattle.pg_dyn.specs.encoding.Writing.{bytes_of};
ghost use Rattle.pg_pairs.specs.inner.Comparing.{all_match, HasEncoding, HeldFits, is_alike_leaf, is_same, is_same_beside, is_same_if, ItemHasEncoding, items_match, keyed, keyed_if, outside_record};

use crate::choices::beside::Beside;
use crate::graph::priced::Priced;
use crate::views::view::View;
use crate::witness::same_contents::{count, held_at, is_same_key, is_same_leaf, shown};
use pg_dyn::{ContentRef, DynError, MessageRef, ValueRef, encode_unshared_ref};
use pg_schema::{Element, Field, Schema, TypeId};
use pg_wire::Record;
use std::alloc::{AllocError, Global};

/// Whether the view finds the number alike in the two enums; one that isn't there has no say.
fn is_alike(graph: &Priced<'_>, fields: &Beside<'_>, value: &ValueRef<'_>) -> bool
    requires key { IsKey value.now }
    requires fits { ItemFits (shape_of graph.now.old.now) fields.now.old.now.element value.now }
    ensures { result ≡ is_alike_leaf graph.now.view graph.now.old.now graph.now.new.now
        fields.now.old.now.element fields.now.new.now.element (leaf_of value.now) }
{
    let (Element::Enum(old), Element::Enum(new)) = (fields.old.element, fields.new.element) else {
        return true;
    };
    let (Some(from), Some(to)) = (graph.old.enum_type(old), graph.new.enum_type(new)) else {
        return true;
    };
    match value {
        ValueRef::Int(number) => graph.view.alike(from, to, number.get() as i32),
        _ => true,
    }
}

/// Adds the bytes of a record whose number the type hasn't.
fn push_outside(
    bytes: &mut Vec<u8>,
    schema: &Schema,
    type_id: TypeId,
    found: &Record<'_>,
) -> Result<(), AllocError>
    ensures { OnOk result (bytes.new.items
        ≡ bytes.old.items ++ outside_record (fields (shape_of schema.now) type_id) found.now) }
{
    match schema.field(type_id, found.number) {
        Some(_) => Ok(()),
        None => bytes.extend_from_slice(found.bytes),
    }
}

/// The bytes of the records whose numbers the type of the message hasn't.
fn outside_bytes(
    alloc: Global,
    schema: &Schema,
    message: &MessageRef<'_>,
) -> Result<Vec<u8>, AllocError>
    ensures { IfOk result (λ bytes. bytes.items
        ≡ bytes_of (records_outside (fields (shape_of schema.now) (type_of message.now))
        (unknown_of message.now))) }
{
    let type_id = message.type_id();
    let unknown = message.unknown();
    let mut bytes = Vec::new(alloc);
    for found in unknown {
        push_outside(&mut bytes, schema, type_id, found)?;
    }
    Ok(bytes)
}

/// Whether the reader keeps just what was written of the fields that its type hasn't.
#[tactic(auto, using(crate::proofs::lemmas::witness::SameLengths::unshared_within))]
fn is_same_outside(
    alloc: Global,
    graph: &Priced<'_>,
    message: &MessageRef<'_>,
    read: &MessageRef<'_>,
) -> Result<bool, AllocError>
    requires fits { Fits (shape_of graph.now.old.now) message.now }
    requires encoded { HasEncoding (shape_of graph.now.old.now) message.now }
    ensures { IfOk result (λ is. is ≡ bytes_eq
        (bytes_of (records_outside (fields (shape_of graph.now.new.now) (type_of read.now))
        (unknown_of read.now))) (unshared_bytes (shape_of graph.now.old.now) (type_of message.now)
        (fields (shape_of graph.now.new.now) (type_of read.now)) (message_of message.now))) }
{
    let kept = outside_bytes(alloc, graph.new, read)?;
    match encode_unshared_ref(alloc, graph.old, message, graph.new, read.type_id()) {
        Ok(written) => Ok(kept.as_slice() == written.as_slice()),
        Err(DynError::Memory) => Err(AllocError),
        // A part of an encoding isn't too long.
        Err(_) => unreachable!(),
    }
}

/// Whether the new field's item is what the old one's means.
#[cycle(same)]
fn is_same_item(
    alloc: Global,
    graph: &Priced<'_>,
    fields: &Beside<'_>,
    value: &ValueRef<'_>,
    read: &ValueRef<'_>,
) -> Result<bool, AllocError>
    requires old_schema { IsSchema graph.now.old.now }
    requires new_schema { IsSchema graph.now.new.now }
    requires fits { ItemFits (shape_of graph.now.old.now) fields.now.old.now.element value.now }
    requires encoded { ItemHasEncoding (shape_of graph.now.old.now) value.now }
    requires read_fits { ItemFits (shape_of graph.now.new.now) fields.now.new.now.element read.now }
    ensures { IfOk result (λ is. is ≡ items_match graph.now.view graph.now.old.now graph.now.new.now
        (field_shape fields.now.old.now) (field_shape fields.now.new.now) value.now read.now) }
{
    match (value, read) {
        (ValueRef::Msg(child), ValueRef::Msg(other)) => is_same_message(alloc, graph, child, other),
        (ValueRef::Msg(_), _) | (_, ValueRef::Msg(_)) => Ok(false),
        _ => Ok(is_same_leaf(value, read) && is_alike(graph, fields, value)),
    }
}

/// Whether the new field's content shows what the old one's means.
#[cycle(same)]
fn is_same_content(
    alloc: Global,
    graph: &Priced<'_>,
    fields: &Beside<'_>,
    content: &ContentRef<'_>,
    read: &ContentRef<'_>,
) -> Result<bool, AllocError>
    requires old_schema { IsSchema graph.now.old.now }
    requires new_schema { IsSchema graph.now.new.now }
    requires fits { AllByRecursion (HeldFits (shape_of graph.now.old.now)
        fields.now.old.now.element) (keyed content.now) }
    requires encoded { AllByRecursion (λ x. ItemHasEncoding (shape_of graph.now.old.now) x.1)
        (keyed content.now) }
    requires read_fits { AllByRecursion (HeldFits (shape_of graph.now.new.now)
        fields.now.new.now.element) (keyed read.now) }
    ensures { IfOk result (λ is. is ≡ all_match graph.now.view graph.now.old.now graph.now.new.now
        (field_shape fields.now.old.now) (field_shape fields.now.new.now) (keyed content.now)
        (keyed read.now)) }
{
    let len = count(content);
    if len != count(read) {
        return Ok(false);
    }
    for at in 0..len {
        let first = held_at(content, at);
        let second = held_at(read, at);
        if !is_same_key(first.key, second.key) {
            return Ok(false);
        }
        let item = first.item.value();
        let other = second.item.value();
        if !is_same_item(alloc, graph, fields, item, other)? {
            return Ok(false);
        }
    }
    Ok(true)
}

/// Whether the new type's field of the number shows what the old field means; where there is none,
/// nothing is shown.
#[cycle(same)]
fn is_same_field(
    alloc: Global,
    graph: &Priced<'_>,
    field: &Field,
    message: &MessageRef<'_>,
    read: &MessageRef<'_>,
) -> Result<bool, AllocError>
    requires old_schema { IsSchema graph.now.old.now }
    requires new_schema { IsSchema graph.now.new.now }
    requires fits { Fits (shape_of graph.now.old.now) message.now }
    requires encoded { HasEncoding (shape_of graph.now.old.now) message.now }
    requires read_fits { Fits (shape_of graph.now.new.now) read.now }
    requires found { field_at (fields (shape_of graph.now.old.now) (type_of message.now))
        field.now.number ≡ Some (field_shape field.now) }
    ensures { IfOk result (λ is. is ≡ is_same_beside graph.now.view graph.now.old.now
        graph.now.new.now message.now read.now (field_shape field.now)
        (field_at (fields (shape_of graph.now.new.now) (type_of read.now)) field.now.number)) }
{
    let Some(beside) = graph.new.field(read.type_id(), field.number) else {
        return Ok(true);
    };
    let fields = Beside {
        old: field,
        new: beside,
    };
    let content = shown(&fields, message.get(field.number));
    let other = shown(&fields, read.get(field.number));
    match (content, other) {
        (Some(content), Some(other)) => is_same_content(alloc, graph, &fields, content, other),
        (None, None) => Ok(true),
        _ => Ok(false),
    }
}

/// Whether the new type shows what the old type's field of the number means; where the old type has
/// none, nothing is asked.
#[cycle(same)]
fn is_same_at(
    alloc: Global,
    graph: &Priced<'_>,
    number: u32,
    message: &MessageRef<'_>,
    read: &MessageRef<'_>,
) -> Result<bool, AllocError>
    requires old_schema { IsSchema graph.now.old.now }
    requires new_schema { IsSchema graph.now.new.now }
    requires fits { Fits (shape_of graph.now.old.now) message.now }
    requires encoded { HasEncoding (shape_of graph.now.old.now) message.now }
    requires read_fits { Fits (shape_of graph.now.new.now) read.now }
    ensures { IfOk result (λ is. is ≡ is_same_if graph.now.view graph.now.old.now graph.now.new.now
        message.now read.now
        (field_at (fields (shape_of graph.now.old.now) (type_of message.now)) number)) }
{
    match graph.old.field(message.type_id(), number) {
        Some(field) => is_same_field(alloc, graph, field, message, read),
        None => Ok(true),
    }
}

/// Whether the new type shows what the old type's field of the number means. Where the old message
/// has a content of the field, this is known.
#[cycle(same)]
fn is_same_other(
    alloc: Global,
    graph: &Priced<'_>,
    number: u32,
    message: &MessageRef<'_>,
    read: &MessageRef<'_>,
) -> Result<bool, AllocError>
    requires old_schema { IsSchema graph.now.old.now }
    requires new_schema { IsSchema graph.now.new.now }
    requires fits { Fits (shape_of graph.now.old.now) message.now }
    requires encoded { HasEncoding (shape_of graph.now.old.now) message.now }
    requires read_fits { Fits (shape_of graph.now.new.now) read.now }
    requires held { is_same_if graph.now.view graph.now.old.now graph.now.new.now message.now
        read.now (field_at (fields (shape_of graph.now.old.now) (type_of message.now)) number)
        ≡ false → of_number number message.now ≡ [] }
    ensures { IfOk result (λ is. is ≡ is_same_if graph.now.view graph.now.old.now graph.now.new.now
        message.now read.now
        (field_at (fields (shape_of graph.now.old.now) (type_of message.now)) number)) }
{
    match message.get(number) {
        Some(_) => Ok(true),
        None => is_same_at(alloc, graph, number, message, read),
    }
}

/// Whether each old field whose number these contents have is shown as it is meant.
#[cycle(same)]
fn are_same_contents(
    alloc: Global,
    graph: &Priced<'_>,
    contents: &[(u32, ContentRef<'_>)],
    message: &MessageRef<'_>,
    read: &MessageRef<'_>,
) -> Result<bool, AllocError>
    requires old_schema { IsSchema graph.now.old.now }
    requires new_schema { IsSchema graph.now.new.now }
    requires fits { Fits (shape_of graph.now.old.now) message.now }
    requires encoded { HasEncoding (shape_of graph.now.old.now) message.now }
    requires read_fits { Fits (shape_of graph.now.new.now) read.now }
    ensures { IfOk result (λ is. is ≡ list_all
        (λ c. is_same_if graph.now.view graph.now.old.now graph.now.new.now message.now read.now
        (field_at (fields (shape_of graph.now.old.now) (type_of message.now)) c.0)) contents.now) }
{
    for (number, _) in contents {
        if !is_same_at(alloc, graph, *number, message, read)? {
            return Ok(false);
        }
    }
    Ok(true)
}

/// Whether each old field whose number these contents have is shown as it is meant. Those of
/// which the old message has a content are known to be.
#[cycle(same)]
fn are_same_others(
    alloc: Global,
    graph: &Priced<'_>,
    others: &[(u32, ContentRef<'_>)],
    message: &MessageRef<'_>,
    read: &MessageRef<'_>,
) -> Result<bool, AllocError>
    requires old_schema { IsSchema graph.now.old.now }
    requires new_schema { IsSchema graph.now.new.now }
    requires fits { Fits (shape_of graph.now.old.now) message.now }
    requires encoded { HasEncoding (shape_of graph.now.old.now) message.now }
    requires read_fits { Fits (shape_of graph.now.new.now) read.now }
    requires held { (n : ℕ) → is_same_if graph.now.view graph.now.old.now graph.now.new.now
        message.now read.now
        (field_at (fields (shape_of graph.now.old.now) (type_of message.now)) n) ≡ false
        → of_number n message.now ≡ [] }
    ensures { IfOk result (λ is. is ≡ list_all
        (λ c. is_same_if graph.now.view graph.now.old.now graph.now.new.now message.now read.now
        (field_at (fields (shape_of graph.now.old.now) (type_of message.now)) c.0)) others.now) }
{
    for (number, _) in others {
        if !is_same_other(alloc, graph, *number, message, read)? {
            return Ok(false);
        }
    }
    Ok(true)
}

/// Whether the new message shows what the old one means, at every depth. The old message has to
/// have an encoding.
///
/// Refused only where memory is.
#[cycle(same)]
pub(crate) fn is_same_message(
    alloc: Global,
    graph: &Priced<'_>,
    message: &MessageRef<'_>,
    read: &MessageRef<'_>,
) -> Result<bool, AllocError>
    requires old_schema { IsSchema graph.now.old.now }
    requires new_schema { IsSchema graph.now.new.now }
    requires fits { Fits (shape_of graph.now.old.now) message.now }
    requires encoded { HasEncoding (shape_of graph.now.old.now) message.now }
    requires read_fits { Fits (shape_of graph.now.new.now) read.now }
    ensures { IfOk result (λ is. is ≡ is_same graph.now.view graph.now.old.now graph.now.new.now
        message.now read.now) }
{
    // A type may have many more fields than a message has contents, so only these are gone through.
    if !are_same_contents(alloc, graph, message.contents(), message, read)? {
        return Ok(false);
    }
    if !are_same_others(alloc, graph, read.contents(), message, read)? {
        return Ok(false);
    }
    is_same_outside(alloc, graph, message, read)
}
