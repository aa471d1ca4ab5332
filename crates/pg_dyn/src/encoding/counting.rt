//! Lengths of encodings, counted before anything is written. A length above the most is counted as
//! one more than it.

ghost use Rattle.std.specs.Prelude.{◌≡◌, ℕ, ◌+◌, ◌^◌, ◌<◌, ◌++◌, List, length, flat_map, true, IfOk, OnOk};
ghost use Rattle.std.specs.List.{AllByRecursion};
ghost use Rattle.pg_schema.specs.Invariant.{IsSchema};
ghost use Rattle.pg_schema.specs.Parts.{field_shape, shape_of};
ghost use Rattle.pg_schema.specs.Shape.{is_packable};
ghost use Rattle.pg_wire.specs.declared.record.WireType.TheVariants.{Len};
ghost use Rattle.pg_wire.specs.Records.{length_before, written};
ghost use Rattle.pg_dyn.specs.word.Coding.{InRange, body, form, scalar_form, word_bytes};
ghost use Rattle.pg_dyn.specs.fitting.Fits.{Fits};
ghost use Rattle.pg_dyn.specs.encoding.Lending.{bare_leaf, leaf_lent};
ghost use Rattle.pg_dyn.specs.fitting.PartsFit.{IsPartOf};
ghost use Rattle.pg_dyn.specs.word.WordOf.{HasBits};
ghost use Rattle.pg_dyn.specs.encoding.Writing.{item_record};
ghost use Rattle.pg_dyn.specs.encoding.Written.{BareFits, CanBePacked, IsLeafOf, LeavesFit, capped, entry_record, field_lengths, field_written, inner_lengths, item_body, item_bytes, item_lengths, own_bytes, packed_body, packed_bytes, packed_lengths};
ghost use Rattle.pg_schema.specs.declared.parts.field.Element.TheVariants as elements;

use crate::accept::{element_wire_type, is_packed, map_key};
use crate::encoding::body::wire_type_of;
use crate::encoding::lending::{LeafRef, Lends};
use crate::encoding::numbers::count_numbers;
use crate::reading::elements::scalar_of;
use crate::word::word_of;
use pg_schema::{Element, Field, Scalar, Schema};
use pg_wire::{WireType, tag_len, varint_len};
use std::alloc::AllocError;

/// The most bytes that an encoding has (Protocol Buffers encoding guide, "Message Structure").
pub const MAX_ENCODING_LEN: usize = 2_147_483_647;

/// A length, or one more than the most.
pub(crate) fn saturated_len(len: usize) -> usize
    ensures { result ≡ capped len }
{
    if len > MAX_ENCODING_LEN {
        MAX_ENCODING_LEN + 1
    } else {
        len
    }
}

/// The sum of two lengths that are counted so.
pub(crate) fn add(first: usize, second: usize) -> usize
    ensures { (m n : ℕ) → first ≡ capped m → second ≡ capped n → result ≡ capped (m + n) }
{
    saturated_len(saturated_len(first) + saturated_len(second))
}

// How many bytes a word takes as a body.
#[tactic(auto, unfolding(crate::specs::word::Coding::word_bytes))]
fn word_len(wire_type: WireType, word: u64) -> usize
    requires { HasBits wire_type word }
    ensures { result ≡ length (word_bytes wire_type word) }
{
    match wire_type {
        WireType::Varint => varint_len(word),
        WireType::I64 => 8,
        WireType::I32 => 4,
        WireType::Len => 0,
    }
}

/// How many bytes an item's body takes.
pub(crate) fn body_len(scalar: Scalar, leaf: LeafRef<'_>) -> usize
    requires { InRange (scalar_form scalar) (leaf_lent leaf) }
    ensures { result ≡ length (body (scalar_form scalar) (leaf_lent leaf.entry)) }
{
    match leaf {
        LeafRef::Int(number) => word_len(wire_type_of(scalar), word_of(scalar, number)),
        LeafRef::F32(bits) => word_len(WireType::I32, u64::from(bits)),
        LeafRef::F64(bits) => word_len(WireType::I64, bits),
        LeafRef::Bytes(bytes) => bytes.len(),
    }
}

// How many bytes the length before a body of as many takes, which only LEN records have.
fn length_len(wire_type: WireType, len: usize) -> usize
    ensures { (bytes : List ℕ) → length bytes ≡ len
        → result ≡ length (length_before wire_type bytes) }
{
    match wire_type {
        WireType::Len => varint_len(len as u64),
        WireType::Varint | WireType::I64 | WireType::I32 => 0,
    }
}

/// How many bytes the record of a body of that length takes.
pub(crate) fn record_len(number: u32, wire_type: WireType, len: usize) -> usize
    requires { number < 2 ^ 29 }
    ensures { (bytes : List ℕ) → len ≡ capped (length bytes)
        → result ≡ capped (length (written number wire_type bytes).bytes) }
{
    let before = saturated_len(tag_len(number)) + saturated_len(length_len(wire_type, len));
    saturated_len(before + saturated_len(len))
}

/// How many bytes the body of an item takes that is no message.
pub(crate) fn leaf_len(element: Element, leaf: LeafRef<'_>) -> usize
    requires { IsLeafOf element (leaf_lent leaf) }
    ensures { result ≡ length (body (form element) (leaf_lent leaf.entry)) }
{
    match element {
        Element::Scalar(scalar) => body_len(scalar, leaf),
        Element::Enum(_) => body_len(Scalar::Int32, leaf),
        Element::Message(_) => 0,
    }
}

// How many bytes the bodies of a list take, counted one by one.
#[inline(always)]
fn each_len<M: Lends>(element: Element, values: &[M::Value]) -> usize
    requires { LeavesFit M.item element values.now }
    ensures { result ≡ capped (length (packed_body M.item element values.now)) }
{
    let mut total = 0;
    for value in values {
        total = add(total, saturated_len(leaf_len(element, M::leaf(value))));
    }
    total
}

// The same, by a loop for each scalar whose bodies are varints.
fn bodies_len<M: Lends>(element: Element, values: &[M::Value]) -> usize
    requires { LeavesFit M.item element values.now }
    ensures { result ≡ capped (length (packed_body M.item element values.now)) }
{
    match element {
        Element::Scalar(Scalar::Int32) => each_len::<M>(Element::Scalar(Scalar::Int32), values),
        Element::Scalar(Scalar::Int64) => each_len::<M>(Element::Scalar(Scalar::Int64), values),
        Element::Scalar(Scalar::Uint32) => each_len::<M>(Element::Scalar(Scalar::Uint32), values),
        Element::Scalar(Scalar::Uint64) => each_len::<M>(Element::Scalar(Scalar::Uint64), values),
        Element::Scalar(Scalar::Sint32) => each_len::<M>(Element::Scalar(Scalar::Sint32), values),
        Element::Scalar(Scalar::Sint64) => each_len::<M>(Element::Scalar(Scalar::Sint64), values),
        Element::Scalar(Scalar::Bool) => each_len::<M>(Element::Scalar(Scalar::Bool), values),
        _ => each_len::<M>(element, values),
    }
}

// How many bytes the bodies of a packed list take.
fn packed_len<M: Lends>(element: Element, values: &[M::Value]) -> usize
    requires { LeavesFit M.item element values.now }
    ensures { result ≡ capped (length (packed_body M.item element values.now)) }
{
    match element_wire_type(element) {
        WireType::I64 => saturated_len(values.len().saturating_mul(8)),
        WireType::I32 => saturated_len(values.len().saturating_mul(4)),
        WireType::Varint | WireType::Len => bodies_len::<M>(element, values),
    }
}

// How many bytes the record of a packed list takes, which an empty one doesn't have. The length of
// its body comes after the others.
fn count_packed<M: Lends>(
    number: u32,
    element: Element,
    values: &[M::Value],
    inner: &mut Vec<usize>,
) -> Result<usize, AllocError>
    requires number { number < 2 ^ 29 }
    requires fit { LeavesFit M.item element values.now }
    ensures len { IfOk result (λ len. len
        ≡ capped (length (packed_bytes M.item number element values.now))) }
    ensures inner { OnOk result (inner.new.items
        ≡ inner.old.items ++ packed_lengths M.item element values.now) }
{
    if values.is_empty() {
        return Ok(0);
    }
    let len = packed_len::<M>(element, values);
    inner.push(len)?;
    Ok(record_len(number, WireType::Len, len))
}

/// How many bytes the body of an entry takes, of which the value's takes as many.
pub(crate) fn entry_len(key: Scalar, leaf: LeafRef<'_>, wire_type: WireType, len: usize) -> usize
    requires { InRange (scalar_form key) (leaf_lent leaf) }
    ensures { (bytes : List ℕ) → len ≡ capped (length bytes)
        → result ≡ capped (length ((item_record 1 (elements.Scalar key)
        (leaf_lent leaf.entry)).bytes ++ (written 2 wire_type bytes).bytes)) }
{
    let first = record_len(1, wire_type_of(key), saturated_len(body_len(key, leaf)));
    let second = record_len(2, wire_type, len);
    add(first, second)
}

// How many bytes the records take.
fn unknown_len<M: Lends>(records: &[M::Unknown]) -> usize
    ensures { result ≡ capped (length (flat_map (λ r. (M.record_of r).bytes) records.now)) }
{
    let mut total = 0;
    for found in records {
        total = add(total, saturated_len(M::record_bytes(found).len()));
    }
    total
}

// How many bytes the item's body takes. The lengths of the messages in it come after the others.
#[cycle(count)]
fn count_item<M: Lends>(
    value: &M::Value,
    schema: &Schema,
    element: Element,
    inner: &mut Vec<usize>,
) -> Result<usize, AllocError>
    requires is_schema { IsSchema schema.now }
    requires fits { BareFits (shape_of schema.now) element (M.item value.now) }
    ensures len { IfOk result (λ len. len
        ≡ capped (length (item_body (shape_of schema.now) element (M.item value.now)))) }
    ensures inner { IfOk result (λ len. inner.new.items
        ≡ inner.old.items ++ item_lengths (shape_of schema.now) (M.item value.now)) }
{
    match (element, M::child(value)) {
        (Element::Message(_), Some(child)) => {
            let slot = inner.len();
            inner.push(0)?;
            let len = count_message(child, schema, inner)?;
            inner[slot] = len;
            Ok(len)
        }
        (Element::Message(_), None) => Ok(0),
        (Element::Scalar(scalar), _) => Ok(saturated_len(body_len(scalar, M::leaf(value)))),
        (Element::Enum(_), _) => Ok(saturated_len(body_len(Scalar::Int32, M::leaf(value)))),
    }
}

// Counts the records of items, each of a field of that number.
#[cycle(count)]
#[inline(always)]
fn count_items<M: Lends>(
    values: &[M::Value],
    schema: &Schema,
    number: u32,
    element: Element,
    inner: &mut Vec<usize>,
) -> Result<usize, AllocError>
    requires is_schema { IsSchema schema.now }
    requires number { number < 2 ^ 29 }
    requires fit { AllByRecursion (λ v. BareFits (shape_of schema.now) element (M.item v))
        values.now }
    ensures len { IfOk result (λ len. len
        ≡ capped (length (flat_map (λ v. item_bytes (shape_of schema.now) number element (M.item v))
        values.now))) }
    ensures inner { IfOk result (λ len. inner.new.items
        ≡ inner.old.items ++ flat_map
        (λ v. item_lengths (shape_of schema.now) (M.item v)) values.now) }
{
    let wire_type = element_wire_type(element);
    let mut total = 0;
    for value in values {
        let len = count_item::<M>(value, schema, element, inner)?;
        total = add(total, record_len(number, wire_type, len));
    }
    Ok(total)
}

// Does so for a map's entries.
#[cycle(count)]
#[inline(always)]
fn count_entries<M: Lends>(
    entries: &[M::Entry],
    schema: &Schema,
    number: u32,
    key: Scalar,
    element: Element,
    inner: &mut Vec<usize>,
) -> Result<usize, AllocError>
    requires is_schema { IsSchema schema.now }
    requires number { number < 2 ^ 29 }
    requires keys { AllByRecursion (λ e. InRange (scalar_form key)
        (bare_leaf (M.item (M.key_of e)))) entries.now }
    requires fit { AllByRecursion (λ e. BareFits (shape_of schema.now) element
        (M.item (M.value_of e))) entries.now }
    ensures len { IfOk result (λ len. len
        ≡ capped (length (flat_map (λ e. entry_record (shape_of schema.now) number key element
        (bare_leaf (M.item (M.key_of e))) (M.item (M.value_of e))) entries.now))) }
    ensures inner { IfOk result (λ len. inner.new.items
        ≡ inner.old.items ++ flat_map
        (λ e. item_lengths (shape_of schema.now) (M.item (M.value_of e))) entries.now) }
{
    let wire_type = element_wire_type(element);
    let mut total = 0;
    for entry in entries {
        let len = count_item::<M>(M::value(entry), schema, element, inner)?;
        let body = entry_len(key, M::leaf(M::key(entry)), wire_type, len);
        total = add(total, record_len(number, WireType::Len, body));
    }
    Ok(total)
}

/// How many bytes the records of a field's content take. The lengths of the messages in it, or of
/// the body of a packed list, come after the others.
#[cycle(count)]
pub(crate) fn count_content<M: Lends>(
    content: &M::Content,
    schema: &Schema,
    field: &Field,
    inner: &mut Vec<usize>,
) -> Result<usize, AllocError>
    requires is_schema { IsSchema schema.now }
    requires number { field.now.number < 2 ^ 29 }
    requires packed { CanBePacked field.now.presence field.now.element }
    requires fit { AllByRecursion (IsPartOf (shape_of schema.now) (field_shape field.now))
        (M.parts field.now.number content.now) }
    ensures len { IfOk result (λ len. len
        ≡ capped (length (field_written (shape_of schema.now) (field_shape field.now)
        (M.parts field.now.number content.now)))) }
    ensures inner { IfOk result (λ len. inner.new.items
        ≡ inner.old.items ++ field_lengths (shape_of schema.now) (field_shape field.now)
        (M.parts field.now.number content.now)) }
{
    match map_key(field.presence) {
        Some(key) => {
            let held = M::entries(content);
            count_entries::<M>(held, schema, field.number, key, field.element, inner)
        }
        None => {
            let packed = is_packed(field.presence);
            if let Some(numbers) = M::numbers(content) {
                let scalar = scalar_of(field.element);
                return count_numbers(field.number, scalar, packed, numbers, inner);
            }
            let values = M::items(content);
            if packed {
                return count_packed::<M>(field.number, field.element, values, inner);
            }
            count_items::<M>(values, schema, field.number, field.element, inner)
        }
    }
}

/// How many bytes the encoding of a message that fits takes. The lengths of the messages in it and
/// of the bodies of its packed lists come after the others, in the order in which they are
/// written.
#[cycle(count)]
pub(crate) fn count_message<M: Lends>(
    message: &M,
    schema: &Schema,
    inner: &mut Vec<usize>,
) -> Result<usize, AllocError>
    requires is_schema { IsSchema schema.now }
    requires fits { Fits (shape_of schema.now) (M.kept message.now) }
    ensures len { IfOk result (λ len. len
        ≡ capped (length (own_bytes (shape_of schema.now) (M.kept message.now)))) }
    ensures inner { IfOk result (λ len. inner.new.items
        ≡ inner.old.items ++ inner_lengths (shape_of schema.now) (M.kept message.now)) }
{
    let type_id = message.message_type();
    let mut total = 0;
    for (number, content) in message.fields() {
        let Some(field) = schema.field(type_id, *number) else {
            // A message that fits has just contents of its type's fields.
            unreachable!();
        };
        let len = count_content::<M>(content, schema, field, inner)?;
        total = add(total, len);
    }
    Ok(add(total, unknown_len::<M>(message.records())))
}
