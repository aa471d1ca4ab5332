//! Where bytes have a fault: in the record that has it itself, of several the first.

ghost use Rattle.std.specs.Prelude.{◌≡◌, ◌+◌, ◌^◌, ◌<◌, ◌∷◌, [], length, suc, true, false, is_some, None, Some, OnOk, IfErr, MatchOption};
ghost use Rattle.std.specs.Str.{is_utf8};
ghost use Rattle.pg_schema.specs.Invariant.{IsSchema};
ghost use Rattle.pg_schema.specs.Parts.{field_shape, shape_of};
ghost use Rattle.pg_schema.specs.Shape.{field_at};
ghost use Rattle.pg_schema.specs.declared.parts.field.Presence.TheVariants as presences;
ghost use Rattle.pg_wire.specs.Reads.{seen_record};
ghost use Rattle.pg_wire.specs.Records.{IsRecord};
ghost use Rattle.pg_dyn.specs.word.Coding.{Text, form, form_wire, leaf_in, scalar_form};
ghost use Rattle.pg_dyn.specs.reading.Content.{same_wire, takes, entry_fields};
ghost use Rattle.pg_dyn.specs.reading.Decoding.{all_readable, dec};
ghost use Rattle.pg_dyn.specs.reading.Faults.{body_start};
ghost use Rattle.pg_dyn.specs.inner.FaultSteps.{HolderReads, ItemReads, held_fields, part_field};
ghost use Rattle.pg_dyn.specs.reading.Steps.{FieldReads, IsShallow, IsShallowIn, IsShallowItem, IsShallowRecord, RefusedIn, RefusedItem, RefusedOf, RefusedRecord};
ghost use Rattle.pg_dyn.specs.declared.error.DynError.TheVariants as errors;

use crate::accept::{accepts, is_own};
use crate::error::DynError;
use crate::reading::elements::scalar_of;
use crate::reading::packed::check_packed;
use pg_schema::{Element, Field, Presence, Scalar, Schema, TypeId};
use pg_wire::{Record, Records};

/// What holds records: a message of the type, or an entry of a map.
#[derive(Clone, Copy, Debug, Drop)]
pub(crate) enum Holder {
    Message(TypeId),
    Entry { key: Scalar, element: Element },
}

// The element of an entry's part with that number: of its key or its value.
fn part_at(key: Scalar, element: Element, number: u32) -> Option<Element>
    ensures { MatchOption result (field_at (entry_fields key element) number ≡ None)
        (λ part. field_at (entry_fields key element) number ≡ Some (part_field number part)) }
{
    match number {
        1 => Some(Element::Scalar(key)),
        2 => Some(element),
        _ => None,
    }
}

// Where a record's body begins, if the record begins at that offset.
fn body_place(found: &Record<'_>, at: usize) -> usize
    requires record { IsRecord (seen_record found.now) }
    requires room { at + length found.now.bytes.now < 2 ^ 64 }
    ensures start { result ≡ at + body_start (seen_record found.now) }
    ensures room { result + length found.now.body.now ≡ at + length found.now.bytes.now }
{
    at + (found.bytes.len() - found.body.len())
}

// Refuses a string that isn't UTF-8, whose record begins at that offset.
fn check_scalar(scalar: Scalar, found: &Record<'_>, at: usize) -> Result<(), DynError>
    ensures readable { OnOk result (is_some (leaf_in (scalar_form scalar) found.now.body.now)
        ≡ true) }
    ensures err { IfErr result (λ e. (e ≡ errors.NotUtf8 at) × (scalar_form scalar ≡ Text)
        × (is_utf8 found.now.body.now ≡ false)) }
{
    match scalar {
        Scalar::String => match simdutf8::compat::from_utf8(found.body) {
            Ok(_) => Ok(()),
            Err(_) => Err(DynError::NotUtf8 { at }),
        },
        _ => Ok(()),
    }
}

// Refuses a record of the element's own wire type that has a fault. There may be as many levels of
// messages below the message that holds the item.
#[cycle(faults)]
fn check_item(
    schema: &Schema,
    element: Element,
    found: &Record<'_>,
    at: usize,
    levels: usize,
) -> Result<(), DynError>
    requires is_schema { IsSchema schema.now }
    requires is_record { IsRecord (seen_record found.now) }
    requires wire { same_wire found.now.wire_type (form_wire (form element)) ≡ true }
    requires room { at + length found.now.bytes.now < 2 ^ 64 }
    ensures readable { OnOk result (ItemReads (shape_of schema.now) element
        (seen_record found.now)) }
    ensures shallow { OnOk result (IsShallowItem (shape_of schema.now) levels element
        (seen_record found.now)) }
    ensures err { IfErr result (RefusedItem (shape_of schema.now) levels element
        (seen_record found.now) at) }
{
    match element {
        Element::Scalar(_) | Element::Enum(_) => check_scalar(scalar_of(element), found, at),
        Element::Message(type_id) => {
            if levels == 0 {
                return Err(DynError::TooDeep { at });
            }
            let holder = Holder::Message(type_id);
            find_fault(
                schema,
                holder,
                found.body,
                body_place(found, at),
                levels - 1,
            )
        }
    }
}

// Refuses a record of a map field that has a fault. Where the entry lacks a value that is a
// message, the empty one stands for it.
#[cycle(faults)]
fn check_entry(
    schema: &Schema,
    field: &Field,
    key: Scalar,
    found: &Record<'_>,
    at: usize,
    levels: usize,
) -> Result<(), DynError>
    requires is_schema { IsSchema schema.now }
    requires is_record { IsRecord (seen_record found.now) }
    requires of_map { field.now.presence ≡ presences.Map key }
    requires room { at + length found.now.bytes.now < 2 ^ 64 }
    ensures readable { OnOk result (FieldReads (shape_of schema.now) (field_shape field.now)
        (seen_record found.now)) }
    ensures shallow { OnOk result (IsShallow (shape_of schema.now) levels (field_shape field.now)
        (seen_record found.now)) }
    ensures err { IfErr result (RefusedOf (shape_of schema.now) levels (field_shape field.now)
        (seen_record found.now) at) }
{
    let element = field.element;
    let holder = Holder::Entry { key, element };
    find_fault(schema, holder, found.body, body_place(found, at), levels)?;
    match element {
        Element::Message(_) => {
            if levels > 0 {
                return Ok(());
            }
            // A value that is there is too deep itself, and so found already.
            Err(DynError::TooDeep { at })
        }
        Element::Scalar(_) | Element::Enum(_) => Ok(()),
    }
}

// Refuses a record that the field takes and that has a fault.
#[cycle(faults)]
fn check_known(
    schema: &Schema,
    field: &Field,
    found: &Record<'_>,
    at: usize,
    levels: usize,
) -> Result<(), DynError>
    requires is_schema { IsSchema schema.now }
    requires is_record { IsRecord (seen_record found.now) }
    requires taken { takes (field_shape field.now) (seen_record found.now) ≡ true }
    requires room { at + length found.now.bytes.now < 2 ^ 64 }
    ensures readable { OnOk result (FieldReads (shape_of schema.now) (field_shape field.now)
        (seen_record found.now)) }
    ensures shallow { OnOk result (IsShallow (shape_of schema.now) levels (field_shape field.now)
        (seen_record found.now)) }
    ensures err { IfErr result (RefusedOf (shape_of schema.now) levels (field_shape field.now)
        (seen_record found.now) at) }
{
    if let Presence::Map { key } = field.presence {
        return check_entry(schema, field, key, found, at, levels);
    }
    if is_own(found.wire_type, field.element) {
        return check_item(schema, field.element, found, at, levels);
    }
    check_packed(scalar_of(field.element), found.body, at)
}

// Refuses a record that has a fault.
#[cycle(faults)]
fn check_record(
    schema: &Schema,
    holder: Holder,
    found: &Record<'_>,
    at: usize,
    levels: usize,
) -> Result<(), DynError>
    requires is_schema { IsSchema schema.now }
    requires is_record { IsRecord (seen_record found.now) }
    requires room { at + length found.now.bytes.now < 2 ^ 64 }
    ensures readable { OnOk result (all_readable (dec (shape_of schema.now))
        (held_fields (shape_of schema.now) holder) (seen_record found.now ∷ []) ≡ true) }
    ensures shallow { OnOk result (IsShallowRecord (shape_of schema.now) levels
        (held_fields (shape_of schema.now) holder) (seen_record found.now)) }
    ensures err { IfErr result (RefusedRecord (shape_of schema.now) levels
        (held_fields (shape_of schema.now) holder) (seen_record found.now) at) }
{
    match holder {
        Holder::Message(type_id) => match schema.field(type_id, found.number) {
            Some(field) if accepts(field, found.wire_type) => {
                check_known(schema, field, found, at, levels)
            }
            _ => Ok(()),
        },
        Holder::Entry { key, element } => match part_at(key, element, found.number) {
            Some(part) if is_own(found.wire_type, part) => {
                check_item(schema, part, found, at, levels)
            }
            _ => Ok(()),
        },
    }
}

/// Refuses bytes, which begin at that offset, that have a fault, or a message that is more than
/// as many levels below theirs: the fault with its offset, of several the first in the bytes. An
/// entry is on the level of the message that holds it.
#[cycle(faults)]
pub(crate) fn find_fault(
    schema: &Schema,
    holder: Holder,
    bytes: &[u8],
    start: usize,
    levels: usize,
) -> Result<(), DynError>
    requires is_schema { IsSchema schema.now }
    requires room { start + length bytes.now < 2 ^ 64 }
    ensures readable { OnOk result (HolderReads (shape_of schema.now) holder bytes.now) }
    ensures shallow { OnOk result (IsShallowIn (shape_of schema.now) (suc levels)
        (held_fields (shape_of schema.now) holder) bytes.now) }
    ensures err { IfErr result (RefusedIn (shape_of schema.now) (suc levels)
        (held_fields (shape_of schema.now) holder) bytes.now start) }
{
    let mut at = start;
    for found in Records::new(bytes) {
        match found {
            Ok(record) => {
                check_record(schema, holder, &record, at, levels)?;
                at += record.bytes.len();
            }
            Err(error) => return Err(DynError::Wire(error.after(start))),
        }
    }
    Ok(())
}
