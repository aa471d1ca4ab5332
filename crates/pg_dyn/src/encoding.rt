//! How a message that fits is written: its records, counted first.

pub(crate) mod body;
pub(crate) mod counting;
pub(crate) mod lending;
mod numbers;
mod records;
pub(crate) mod unshared;

ghost use Rattle.std.specs.Prelude.{◌≡◌, ℕ, ◌≤◌, ◌++◌, List, length, flat_map, IfOk, IfErr};
ghost use Rattle.std.specs.List.{AllByRecursion};
ghost use Rattle.pg_schema.specs.Invariant.{IsSchema};
ghost use Rattle.pg_schema.specs.Parts.{field_shape, shape_of};
ghost use Rattle.pg_wire.specs.declared.record.WireType.TheVariants.{Len};
ghost use Rattle.pg_wire.specs.Records.{written};
ghost use Rattle.pg_dyn.specs.word.Coding.{InRange, scalar_form};
ghost use Rattle.pg_dyn.specs.encoding.Encoding.{cap, enc};
ghost use Rattle.pg_dyn.specs.fitting.Fits.{Fits};
ghost use Rattle.pg_dyn.specs.message.Kept.{message_of, type_of};
ghost use Rattle.pg_dyn.specs.encoding.Lending.{Child, bare_leaf};
ghost use Rattle.pg_dyn.specs.fitting.PartsFit.{IsPartOf};
ghost use Rattle.pg_dyn.specs.encoding.Written.{Adds, BareFits, CanBePacked, MayNotAdd, MayNotWrite, capped, entry_record, field_lengths, field_written, inner_lengths, item_body, item_bytes, item_lengths, own_bytes};

use self::counting::{MAX_ENCODING_LEN, body_len, count_message, entry_len, saturated_len};
use self::lending::Lends;
use self::numbers::push_numbers;
use self::records::{not_too_long, push_front, push_item, push_packed, push_unknown};
use crate::accept::{element_wire_type, is_packed, map_key};
use crate::error::DynError;
use crate::message::Message;
use crate::message_ref::MessageRef;
use crate::reading::elements::scalar_of;
use pg_schema::{Element, Field, Scalar, Schema};
use pg_wire::WireType;
use std::alloc::Global;

// How many bytes the item's body takes, as it was counted: of a message the first of the lengths.
#[inline(always)]
fn counted_len<M: Lends>(
    value: &M::Value,
    schema: &Schema,
    element: Element,
    lengths: &[usize],
) -> usize
    requires { BareFits (shape_of schema.now) element (M.item value.now) }
    ensures { (rest : List ℕ) → lengths.now ≡ item_lengths (shape_of schema.now) (M.item value.now)
        ++ rest → result ≡ capped (length
        (item_body (shape_of schema.now) element (M.item value.now))) }
{
    match element {
        Element::Message(_) => match lengths {
            [len, ..] => *len,
            [] => 0,
        },
        Element::Scalar(scalar) => saturated_len(body_len(scalar, M::leaf(value))),
        Element::Enum(_) => saturated_len(body_len(Scalar::Int32, M::leaf(value))),
    }
}

// Adds the record of a message inside. The lengths begin with those that were noted of it; what is
// left of them is answered.
#[cycle(write)]
#[inline(always)]
fn write_child<'a, M: Lends>(
    child: &M,
    out: &mut Vec<u8>,
    schema: &Schema,
    number: u32,
    lengths: &'a [usize],
) -> Result<&'a [usize], DynError>
    requires is_schema { IsSchema schema.now }
    requires fits { Fits (shape_of schema.now) (M.kept child.now) }
    ensures ok { IfOk result (λ left. Adds lengths.now
        (item_lengths (shape_of schema.now) (Child (M.kept child.now))) out.old.items
        (written number Len (own_bytes (shape_of schema.now) (M.kept child.now))).bytes
        out.new.items left.now) }
    ensures err { IfErr result (MayNotAdd lengths.now
        (item_lengths (shape_of schema.now) (Child (M.kept child.now)))
        (written number Len (own_bytes (shape_of schema.now) (M.kept child.now))).bytes) }
{
    match lengths {
        [len, inner @ ..] => {
            push_front(out, number, WireType::Len, not_too_long(*len)?)?;
            write_message(child, out, schema, inner)
        }
        [] => Ok(lengths),
    }
}

// Adds the record of an item, likewise.
#[cycle(write)]
fn write_item<'a, M: Lends>(
    value: &M::Value,
    out: &mut Vec<u8>,
    schema: &Schema,
    number: u32,
    element: Element,
    lengths: &'a [usize],
) -> Result<&'a [usize], DynError>
    requires is_schema { IsSchema schema.now }
    requires fits { BareFits (shape_of schema.now) element (M.item value.now) }
    ensures ok { IfOk result (λ left. Adds lengths.now
        (item_lengths (shape_of schema.now) (M.item value.now)) out.old.items
        (item_bytes (shape_of schema.now) number element (M.item value.now)) out.new.items
        left.now) }
    ensures err { IfErr result (MayNotAdd lengths.now
        (item_lengths (shape_of schema.now) (M.item value.now))
        (item_bytes (shape_of schema.now) number element (M.item value.now))) }
{
    match (element, M::child(value)) {
        (Element::Message(_), Some(child)) => write_child(child, out, schema, number, lengths),
        (Element::Message(_), None) => Ok(lengths),
        (Element::Scalar(scalar), _) => {
            push_item::<M>(out, number, scalar, value)?;
            Ok(lengths)
        }
        (Element::Enum(_), _) => {
            push_item::<M>(out, number, Scalar::Int32, value)?;
            Ok(lengths)
        }
    }
}

// Writes items, each of a field of that number.
#[cycle(write)]
#[inline(always)]
fn write_items<'a, M: Lends>(
    values: &[M::Value],
    out: &mut Vec<u8>,
    schema: &Schema,
    number: u32,
    element: Element,
    lengths: &'a [usize],
) -> Result<&'a [usize], DynError>
    requires is_schema { IsSchema schema.now }
    requires fit { AllByRecursion (λ v. BareFits (shape_of schema.now) element (M.item v))
        values.now }
    ensures ok { IfOk result (λ left. Adds lengths.now
        (flat_map (λ v. item_lengths (shape_of schema.now) (M.item v)) values.now) out.old.items
        (flat_map (λ v. item_bytes (shape_of schema.now) number element (M.item v)) values.now)
        out.new.items left.now) }
    ensures err { IfErr result (MayNotAdd lengths.now
        (flat_map (λ v. item_lengths (shape_of schema.now) (M.item v)) values.now)
        (flat_map (λ v. item_bytes (shape_of schema.now) number element (M.item v)) values.now)) }
{
    let mut left = lengths;
    for value in values {
        left = write_item::<M>(value, out, schema, number, element, left)?;
    }
    Ok(left)
}

// Writes an entry of a map.
#[cycle(write)]
#[inline(always)]
fn write_entry<'a, M: Lends>(
    entry: &M::Entry,
    out: &mut Vec<u8>,
    schema: &Schema,
    number: u32,
    key: Scalar,
    element: Element,
    lengths: &'a [usize],
) -> Result<&'a [usize], DynError>
    requires is_schema { IsSchema schema.now }
    requires key { InRange (scalar_form key) (bare_leaf (M.item (M.key_of entry.now))) }
    requires fits { BareFits (shape_of schema.now) element (M.item (M.value_of entry.now)) }
    ensures ok { IfOk result (λ left. Adds lengths.now
        (item_lengths (shape_of schema.now) (M.item (M.value_of entry.now))) out.old.items
        (entry_record (shape_of schema.now) number key element
        (bare_leaf (M.item (M.key_of entry.now))) (M.item (M.value_of entry.now))) out.new.items
        left.now) }
    ensures err { IfErr result (MayNotAdd lengths.now
        (item_lengths (shape_of schema.now) (M.item (M.value_of entry.now)))
        (entry_record (shape_of schema.now) number key element
        (bare_leaf (M.item (M.key_of entry.now))) (M.item (M.value_of entry.now)))) }
{
    let entry_key = M::key(entry);
    let item = M::value(entry);
    let value_len = counted_len::<M>(item, schema, element, lengths);
    let len = entry_len(
        key,
        M::leaf(entry_key),
        element_wire_type(element),
        value_len,
    );
    push_front(out, number, WireType::Len, not_too_long(len)?)?;
    push_item::<M>(out, 1, key, entry_key)?;
    write_item::<M>(item, out, schema, 2, element, lengths)
}

// Does so for a map's entries.
#[cycle(write)]
#[inline(always)]
fn write_entries<'a, M: Lends>(
    entries: &[M::Entry],
    out: &mut Vec<u8>,
    schema: &Schema,
    number: u32,
    key: Scalar,
    element: Element,
    lengths: &'a [usize],
) -> Result<&'a [usize], DynError>
    requires is_schema { IsSchema schema.now }
    requires keys { AllByRecursion (λ e. InRange (scalar_form key)
        (bare_leaf (M.item (M.key_of e)))) entries.now }
    requires fit { AllByRecursion (λ e. BareFits (shape_of schema.now) element
        (M.item (M.value_of e))) entries.now }
    ensures ok { IfOk result (λ left. Adds lengths.now
        (flat_map (λ e. item_lengths (shape_of schema.now) (M.item (M.value_of e))) entries.now)
        out.old.items (flat_map (λ e. entry_record (shape_of schema.now) number key element
        (bare_leaf (M.item (M.key_of e))) (M.item (M.value_of e))) entries.now) out.new.items
        left.now) }
    ensures err { IfErr result (MayNotAdd lengths.now
        (flat_map (λ e. item_lengths (shape_of schema.now) (M.item (M.value_of e))) entries.now)
        (flat_map (λ e. entry_record (shape_of schema.now) number key element
        (bare_leaf (M.item (M.key_of e))) (M.item (M.value_of e))) entries.now)) }
{
    let mut left = lengths;
    for entry in entries {
        left = write_entry::<M>(entry, out, schema, number, key, element, left)?;
    }
    Ok(left)
}

/// Adds the records of a field's content, likewise.
#[cycle(write)]
pub(crate) fn write_content<'a, M: Lends>(
    content: &M::Content,
    out: &mut Vec<u8>,
    schema: &Schema,
    field: &Field,
    lengths: &'a [usize],
) -> Result<&'a [usize], DynError>
    requires is_schema { IsSchema schema.now }
    requires packed { CanBePacked field.now.presence field.now.element }
    requires fit { AllByRecursion (IsPartOf (shape_of schema.now) (field_shape field.now))
        (M.parts field.now.number content.now) }
    ensures ok { IfOk result (λ left. Adds lengths.now
        (field_lengths (shape_of schema.now) (field_shape field.now)
        (M.parts field.now.number content.now)) out.old.items
        (field_written (shape_of schema.now) (field_shape field.now)
        (M.parts field.now.number content.now)) out.new.items left.now) }
    ensures err { IfErr result (MayNotAdd lengths.now
        (field_lengths (shape_of schema.now) (field_shape field.now)
        (M.parts field.now.number content.now))
        (field_written (shape_of schema.now) (field_shape field.now)
        (M.parts field.now.number content.now))) }
{
    let number = field.number;
    let element = field.element;
    match map_key(field.presence) {
        Some(key) => {
            let held = M::entries(content);
            write_entries::<M>(held, out, schema, number, key, element, lengths)
        }
        None => {
            let packed = is_packed(field.presence);
            if let Some(numbers) = M::numbers(content) {
                let scalar = scalar_of(element);
                return push_numbers(out, number, scalar, packed, numbers, lengths);
            }
            let values = M::items(content);
            if packed {
                return push_packed::<M>(out, number, element, values, lengths);
            }
            write_items::<M>(values, out, schema, number, element, lengths)
        }
    }
}

// Adds the encoding of a message that fits, likewise.
#[cycle(write)]
fn write_message<'a, M: Lends>(
    message: &M,
    out: &mut Vec<u8>,
    schema: &Schema,
    lengths: &'a [usize],
) -> Result<&'a [usize], DynError>
    requires is_schema { IsSchema schema.now }
    requires fits { Fits (shape_of schema.now) (M.kept message.now) }
    ensures ok { IfOk result (λ left. Adds lengths.now
        (inner_lengths (shape_of schema.now) (M.kept message.now)) out.old.items
        (own_bytes (shape_of schema.now) (M.kept message.now)) out.new.items left.now) }
    ensures err { IfErr result (MayNotAdd lengths.now
        (inner_lengths (shape_of schema.now) (M.kept message.now))
        (own_bytes (shape_of schema.now) (M.kept message.now))) }
{
    let type_id = message.message_type();
    let mut left = lengths;
    for (number, content) in message.fields() {
        let Some(field) = schema.field(type_id, *number) else {
            // A message that fits has just contents of its type's fields.
            unreachable!();
        };
        left = write_content::<M>(content, out, schema, field, left)?;
    }
    push_unknown::<M>(out, message.records())?;
    Ok(left)
}

// The encoding of a message that fits the schema.
fn encode_lent<M: Lends>(alloc: Global, schema: &Schema, message: &M) -> Result<Vec<u8>, DynError>
    requires { Fits (shape_of schema.now) (M.kept message.now) }
    ensures ok { IfOk result (λ bytes.
        (bytes.items ≡ own_bytes (shape_of schema.now) (M.kept message.now))
        × (length bytes.items ≤ cap)) }
    ensures err { IfErr result (MayNotWrite
        (length (own_bytes (shape_of schema.now) (M.kept message.now)))) }
{
    // What holds of every schema.
    schema.parts();
    let mut lengths = Vec::new(alloc);
    let len = count_message(message, schema, &mut lengths)?;
    if len > MAX_ENCODING_LEN {
        return Err(DynError::TooLong);
    }
    // With room for the longest varint after the last byte, so that none makes it grow.
    let mut out = Vec::with_capacity(alloc, len + 9)?;
    write_message(message, &mut out, schema, &lengths)?;
    Ok(out)
}

/// The encoding of a message that fits the schema: the records of its fields by rising number with
/// the shortest varints, packed lists in one record, the entries of maps by rising key, always with
/// key and value, and then the unknown records as they were read; likewise of each message inside
/// (Protocol Buffers encoding guide, "Message Structure", "Packed Repeated Fields", "Maps").
///
/// The errors are `TooLong`, only where the encoding has more than 2,147,483,647 bytes, and
/// `Memory`.
pub fn encode(alloc: Global, schema: &Schema, message: &Message) -> Result<Vec<u8>, DynError>
    requires { Fits (shape_of schema.now) message.now }
    ensures ok { IfOk result (λ bytes.
        (bytes.items ≡ enc (shape_of schema.now) (type_of message.now) (message_of message.now))
        × (length bytes.items ≤ cap)) }
    ensures err { IfErr result (λ e.
        MayNotWrite (length (enc (shape_of schema.now) (type_of message.now)
        (message_of message.now))) e) }
{
    encode_lent(alloc, schema, message)
}

/// The encoding of a message that borrows, as `encode` gives it of one that owns its parts. The
/// condition and the errors are the same.
pub fn encode_ref(
    alloc: Global,
    schema: &Schema,
    message: &MessageRef<'_>,
) -> Result<Vec<u8>, DynError>
    requires { Fits (shape_of schema.now) message.now }
    ensures ok { IfOk result (λ bytes.
        (bytes.items ≡ enc (shape_of schema.now) (type_of message.now) (message_of message.now))
        × (length bytes.items ≤ cap)) }
    ensures err { IfErr result (λ e.
        MayNotWrite (length (enc (shape_of schema.now) (type_of message.now)
        (message_of message.now))) e) }
{
    encode_lent(alloc, schema, message)
}
