//! The records of what is no message, and the front of those that are.

ghost use Rattle.std.specs.Prelude.{◌≡◌, ℕ, ◌<◌, ◌++◌, List, length, flat_map, OnOk, IfOk, IfErr};
ghost use Rattle.pg_schema.specs.declared.parts.field.Element.TheVariants as elements;
ghost use Rattle.pg_wire.specs.declared.record.WireType.TheVariants.{Len};
ghost use Rattle.pg_wire.specs.Records.{length_before, tag, wire_code};
ghost use Rattle.pg_dyn.specs.word.Coding.{InRange, body, form, scalar_form};
ghost use Rattle.pg_dyn.specs.encoding.Lending.{bare_leaf, leaf_lent};
ghost use Rattle.pg_dyn.specs.encoding.Writing.{item_record};
ghost use Rattle.pg_dyn.specs.encoding.Written.{Adds, IsLeafOf, LeavesFit, MayNotAdd, MayNotWrite, capped, packed_body, packed_bytes, packed_lengths};

use crate::encoding::body::{push_body, push_varint, wire_type_of};
use crate::encoding::counting::{MAX_ENCODING_LEN, body_len};
use crate::encoding::lending::{LeafRef, Lends};
use crate::error::DynError;
use pg_schema::{Element, Scalar};
use pg_wire::WireType;
use std::alloc::AllocError;

// Adds the length before a body of as many bytes, which only LEN records have.
fn push_length(out: &mut Vec<u8>, wire_type: WireType, len: usize) -> Result<(), AllocError>
    ensures ok { OnOk result ((bytes : List ℕ) → length bytes ≡ len
        → out.new.items ≡ out.old.items ++ length_before wire_type bytes) }
{
    match wire_type {
        WireType::Len => push_varint(out, len as u64),
        WireType::Varint | WireType::I64 | WireType::I32 => Ok(()),
    }
}

// The code of a wire type in a tag.
fn wire_code(wire_type: WireType) -> u64
    ensures code { result ≡ wire_code wire_type }
    ensures small { result < 8 }
{
    match wire_type {
        WireType::Varint => 0,
        WireType::I64 => 1,
        WireType::Len => 2,
        WireType::I32 => 5,
    }
}

// Adds the tag of a record and, where it is LEN, the length of its body.
pub(crate) fn push_front(
    out: &mut Vec<u8>,
    number: u32,
    wire_type: WireType,
    len: usize,
) -> Result<(), AllocError>
    ensures ok { OnOk result ((bytes : List ℕ) → length bytes ≡ len
        → out.new.items ≡ out.old.items
        ++ (tag number wire_type ++ length_before wire_type bytes)) }
{
    push_varint(out, 8 * u64::from(number) + wire_code(wire_type))?;
    push_length(out, wire_type, len)
}

// Adds the record of an item that is no message.
#[inline(always)]
pub(crate) fn push_record(
    out: &mut Vec<u8>,
    number: u32,
    scalar: Scalar,
    leaf: LeafRef<'_>,
) -> Result<(), AllocError>
    requires { InRange (scalar_form scalar) (leaf_lent leaf) }
    ensures ok { OnOk result (out.new.items
        ≡ out.old.items ++ (item_record number (elements.Scalar scalar)
        (leaf_lent leaf.entry)).bytes) }
{
    push_front(out, number, wire_type_of(scalar), body_len(scalar, leaf))?;
    push_body(out, scalar, leaf)
}

// Writes a lent item. Not inlined, so that a level of messages takes no more of the stack for
// it.
#[inline(never)]
pub(crate) fn push_item<M: Lends>(
    out: &mut Vec<u8>,
    number: u32,
    scalar: Scalar,
    value: &M::Value,
) -> Result<(), AllocError>
    requires { InRange (scalar_form scalar) (bare_leaf (M.item value.now)) }
    ensures ok { OnOk result (out.new.items
        ≡ out.old.items ++ (item_record number (elements.Scalar scalar)
        (bare_leaf (M.item value.now))).bytes) }
{
    push_record(out, number, scalar, M::leaf(value))
}

// Adds the body of an item that is no message.
#[inline(always)]
fn push_leaf(out: &mut Vec<u8>, element: Element, leaf: LeafRef<'_>) -> Result<(), AllocError>
    requires { IsLeafOf element (leaf_lent leaf) }
    ensures ok { OnOk result (out.new.items
        ≡ out.old.items ++ body (form element) (leaf_lent leaf.entry)) }
{
    match element {
        Element::Scalar(scalar) => push_body(out, scalar, leaf),
        Element::Enum(_) => push_body(out, Scalar::Int32, leaf),
        Element::Message(_) => Ok(()),
    }
}

// Adds the body of each item of a list.
#[inline(always)]
fn push_each<M: Lends>(
    out: &mut Vec<u8>,
    element: Element,
    values: &[M::Value],
) -> Result<(), AllocError>
    requires { LeavesFit M.item element values.now }
    ensures ok { OnOk result (out.new.items
        ≡ out.old.items ++ packed_body M.item element values.now) }
{
    for value in values {
        push_leaf(out, element, M::leaf(value))?;
    }
    Ok(())
}

// Writes items of a scalar type.
#[inline(always)]
fn push_scalars<M: Lends>(
    out: &mut Vec<u8>,
    scalar: Scalar,
    values: &[M::Value],
) -> Result<(), AllocError>
    requires { LeavesFit M.item (elements.Scalar scalar) values.now }
    ensures ok { OnOk result (out.new.items
        ≡ out.old.items ++ packed_body M.item (elements.Scalar scalar) values.now) }
{
    push_each::<M>(out, Element::Scalar(scalar), values)
}

// The same by a loop for each scalar type of which lists are packed.
#[inline(always)]
fn push_packables<M: Lends>(
    out: &mut Vec<u8>,
    scalar: Scalar,
    values: &[M::Value],
) -> Result<(), AllocError>
    requires { LeavesFit M.item (elements.Scalar scalar) values.now }
    ensures ok { OnOk result (out.new.items
        ≡ out.old.items ++ packed_body M.item (elements.Scalar scalar) values.now) }
{
    match scalar {
        Scalar::Double => push_scalars::<M>(out, Scalar::Double, values),
        Scalar::Float => push_scalars::<M>(out, Scalar::Float, values),
        Scalar::Int32 => push_scalars::<M>(out, Scalar::Int32, values),
        Scalar::Int64 => push_scalars::<M>(out, Scalar::Int64, values),
        Scalar::Uint32 => push_scalars::<M>(out, Scalar::Uint32, values),
        Scalar::Uint64 => push_scalars::<M>(out, Scalar::Uint64, values),
        Scalar::Sint32 => push_scalars::<M>(out, Scalar::Sint32, values),
        Scalar::Sint64 => push_scalars::<M>(out, Scalar::Sint64, values),
        Scalar::Fixed32 => push_scalars::<M>(out, Scalar::Fixed32, values),
        Scalar::Fixed64 => push_scalars::<M>(out, Scalar::Fixed64, values),
        Scalar::Sfixed32 => push_scalars::<M>(out, Scalar::Sfixed32, values),
        Scalar::Sfixed64 => push_scalars::<M>(out, Scalar::Sfixed64, values),
        Scalar::Bool => push_scalars::<M>(out, Scalar::Bool, values),
        Scalar::String | Scalar::Bytes => push_scalars::<M>(out, scalar, values),
    }
}

// Adds the bodies of a list. Not inlined, as `push_item`.
#[inline(never)]
fn push_bodies<M: Lends>(
    out: &mut Vec<u8>,
    element: Element,
    values: &[M::Value],
) -> Result<(), AllocError>
    requires { LeavesFit M.item element values.now }
    ensures ok { OnOk result (out.new.items
        ≡ out.old.items ++ packed_body M.item element values.now) }
{
    match element {
        Element::Scalar(scalar) => push_packables::<M>(out, scalar, values),
        Element::Enum(_) | Element::Message(_) => push_each::<M>(out, element, values),
    }
}

// Adds the record of a packed list, where it isn't empty. The lengths then begin with that of its
// body; what is left of them is answered.
pub(crate) fn push_packed<'a, M: Lends>(
    out: &mut Vec<u8>,
    number: u32,
    element: Element,
    values: &[M::Value],
    lengths: &'a [usize],
) -> Result<&'a [usize], DynError>
    requires { LeavesFit M.item element values.now }
    ensures ok { IfOk result (λ left. Adds lengths.now
        (packed_lengths M.item element values.now) out.old.items
        (packed_bytes M.item number element values.now) out.new.items left.now) }
    ensures err { IfErr result (MayNotAdd lengths.now (packed_lengths M.item element values.now)
        (packed_bytes M.item number element values.now)) }
{
    if values.is_empty() {
        return Ok(lengths);
    }
    match lengths {
        [len, left @ ..] => {
            push_front(out, number, WireType::Len, not_too_long(*len)?)?;
            push_bodies::<M>(out, element, values)?;
            Ok(left)
        }
        [] => Ok(lengths),
    }
}

// A counted length, where it isn't too long.
pub(crate) fn not_too_long(len: usize) -> Result<usize, DynError>
    ensures ok { IfOk result (λ counted. (n : ℕ) → len ≡ capped n → counted ≡ n) }
    ensures err { IfErr result (λ e. (n : ℕ) → len ≡ capped n → MayNotWrite n e) }
{
    if len > MAX_ENCODING_LEN {
        return Err(DynError::TooLong);
    }
    Ok(len)
}

// Adds the records at the end.
pub(crate) fn push_unknown<M: Lends>(
    out: &mut Vec<u8>,
    records: &[M::Unknown],
) -> Result<(), AllocError>
    ensures ok { OnOk result (out.new.items
        ≡ out.old.items ++ flat_map (λ r. (M.record_of r).bytes) records.now) }
{
    for found in records {
        out.extend_from_slice(M::record_bytes(found))?;
    }
    Ok(())
}
