//! Bodies of scalar items, as they are written.

ghost use Rattle.std.specs.Prelude.{◌≡◌, ◌++◌, ◌+◌, ◌<◌, ◌≤◌, vec_len, OnOk, OnErr};
ghost use Rattle.std.specs.Vec.{vec_capacity};
ghost use Rattle.pg_wire.specs.Varint.{varint};
ghost use Rattle.pg_dyn.specs.word.Coding.{InRange, body, form_wire, scalar_form, word_bytes};
ghost use Rattle.pg_dyn.specs.encoding.Lending.{leaf_lent};
ghost use Rattle.pg_dyn.specs.word.WordOf.{HasBits};

use crate::encoding::lending::LeafRef;
use crate::word::word_of;
use pg_schema::Scalar;
use pg_wire::WireType;
use std::alloc::AllocError;

// Adds a varint at the end, where there is room for the longest. Its bytes go there one by one,
// since a copy of so few takes longer.
#[inline(always)]
fn put_varint(out: &mut Vec<u8>, value: u64)
    requires { vec_len out.old + 10 ≤ vec_capacity out.old }
    ensures { out.new.items ≡ out.old.items ++ varint value }
{
    let mut rest = value;
    while rest >= 128 {
        out.push_reserved((128 + rest % 128) as u8);
        rest /= 128;
    }
    out.push_reserved(rest as u8);
}

// Adds a varint at the end.
#[inline(always)]
pub(crate) fn push_varint(out: &mut Vec<u8>, value: u64) -> Result<(), AllocError>
    ensures ok { OnOk result (out.new.items ≡ out.old.items ++ varint value) }
    ensures err { OnErr result (out.new.items ≡ out.old.items) }
{
    out.reserve(10)?;
    put_varint(out, value);
    Ok(())
}

// Adds the few bytes of a word at the end, one by one as those of a varint.
#[inline(always)]
fn push_fixed(out: &mut Vec<u8>, bytes: &[u8]) -> Result<(), AllocError>
    ensures ok { OnOk result (out.new.items ≡ out.old.items ++ bytes.now) }
    ensures err { OnErr result (out.new.items ≡ out.old.items) }
{
    out.reserve(bytes.len())?;
    for byte in bytes {
        out.push_reserved(*byte);
    }
    Ok(())
}

// Adds a word at the end, as a body of this wire type. Inlined, as `push_body` is, where the scalar
// of a list is known.
#[inline(always)]
#[tactic(auto, unfolding(crate::specs::word::Coding::word_bytes))]
fn push_word(out: &mut Vec<u8>, wire_type: WireType, word: u64) -> Result<(), AllocError>
    requires { HasBits wire_type word }
    ensures ok { OnOk result (out.new.items ≡ out.old.items ++ word_bytes wire_type word) }
    ensures err { OnErr result (out.new.items ≡ out.old.items) }
{
    match wire_type {
        WireType::Varint => push_varint(out, word),
        WireType::I64 => push_fixed(out, &word.to_le_bytes()),
        WireType::I32 => push_fixed(out, &(word as u32).to_le_bytes()),
        WireType::Len => Ok(()),
    }
}

// The wire type of a scalar's own records.
pub(crate) fn wire_type_of(scalar: Scalar) -> WireType
    ensures { result ≡ form_wire (scalar_form scalar) }
{
    match scalar {
        Scalar::Double | Scalar::Fixed64 | Scalar::Sfixed64 => WireType::I64,
        Scalar::Float | Scalar::Fixed32 | Scalar::Sfixed32 => WireType::I32,
        Scalar::String | Scalar::Bytes => WireType::Len,
        Scalar::Int32
        | Scalar::Int64
        | Scalar::Uint32
        | Scalar::Uint64
        | Scalar::Sint32
        | Scalar::Sint64
        | Scalar::Bool => WireType::Varint,
    }
}

/// Adds the body of a scalar item at the end.
#[inline(always)]
pub(crate) fn push_body(
    out: &mut Vec<u8>,
    scalar: Scalar,
    leaf: LeafRef<'_>,
) -> Result<(), AllocError>
    requires { InRange (scalar_form scalar) (leaf_lent leaf) }
    ensures ok { OnOk result (out.new.items
        ≡ out.old.items ++ body (scalar_form scalar) (leaf_lent leaf.entry)) }
    ensures err { OnErr result (out.new.items ≡ out.old.items) }
{
    match leaf {
        LeafRef::Int(number) => push_word(out, wire_type_of(scalar), word_of(scalar, number)),
        LeafRef::F32(bits) => push_word(out, WireType::I32, u64::from(bits)),
        LeafRef::F64(bits) => push_word(out, WireType::I64, bits),
        LeafRef::Bytes(bytes) => out.extend_from_slice(bytes),
    }
}
