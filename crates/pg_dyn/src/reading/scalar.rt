//! Scalar items, as they are read from words and bodies.

ghost use Rattle.std.specs.Prelude.{◌≡◌, ◌<◌, ℕ, List, true, Some, IfOk, IfErr, is_some};
ghost use Rattle.pg_schema.specs.declared.parts.field.Element.TheVariants as elements;
ghost use Rattle.pg_schema.specs.Shape.{is_packable};
ghost use Rattle.pg_dyn.specs.word.Coding.{Text, form_wire, leaf_in, scalar_form, word_in, HasShape};
ghost use Rattle.pg_dyn.specs.declared.error.DynError.TheVariants as errors;
ghost use Rattle.pg_dyn.specs.message_ref.Borrowed.{leaf_of};
ghost use Rattle.pg_dyn.specs.message_ref.BorrowedItems.{IsItemKept};
ghost use Rattle.pg_dyn.specs.reading.ByFields.{StopsFor};
ghost use Rattle.pg_dyn.specs.word.WordOf.{HasBits};

use crate::encoding::body::wire_type_of;
use crate::message_ref::ValueRef;
use crate::number_list::word_number;
use crate::reading::stop::Stop;
use pg_schema::Scalar;
use pg_wire::{WireType, read_varint};

/// The word in a body of the wire type.
#[tactic(auto, unfolding(crate::specs::word::Coding::word_in))]
pub(crate) fn body_word(wire_type: WireType, body: &[u8]) -> u64
    requires { HasShape wire_type body.now }
    ensures word { result ≡ word_in wire_type body.now }
    ensures bits { HasBits wire_type result }
{
    match wire_type {
        WireType::Varint => match read_varint(body) {
            Ok((word, _)) => word,
            Err(_) => 0,
        },
        WireType::I64 => match body.split_first_chunk::<8>() {
            Some((bytes, _)) => u64::from_le_bytes(*bytes),
            None => 0,
        },
        WireType::I32 => match body.split_first_chunk::<4>() {
            Some((bytes, _)) => u64::from(u32::from_le_bytes(*bytes)),
            None => 0,
        },
        WireType::Len => 0,
    }
}

// The item that a reader makes of a word, which is no string and no bytes.
fn word_item<'a>(scalar: Scalar, word: u64) -> ValueRef<'a>
    requires packable { is_packable (elements.Scalar scalar) ≡ true }
    requires bits { HasBits (form_wire (scalar_form scalar)) word }
    ensures leaf { (body : List ℕ) → word_in (form_wire (scalar_form scalar)) body ≡ word
        → leaf_in (scalar_form scalar) body ≡ Some (leaf_of result) }
    ensures item { IsItemKept scalar result }
{
    word_number(scalar, word).item()
}

/// The item of a body of the scalar's own wire type. Not inlined, so that a level of messages takes
/// no more of the stack for it.
#[inline(never)]
pub(crate) fn item_in<'a>(scalar: Scalar, body: &'a [u8]) -> Result<ValueRef<'a>, Stop>
    requires { HasShape (form_wire (scalar_form scalar)) body.now }
    ensures ok { IfOk result (λ value.
        (leaf_in (scalar_form scalar) body.now ≡ Some (leaf_of value)) × IsItemKept scalar value) }
    ensures err { IfErr result (StopsFor (is_some (leaf_in (scalar_form scalar) body.now) ≡ true)) }
{
    match scalar {
        Scalar::String => match simdutf8::compat::from_utf8(body) {
            Ok(text) => Ok(ValueRef::Text(text)),
            Err(_) => Err(Stop::Fault),
        },
        Scalar::Bytes => Ok(ValueRef::Bytes(body)),
        _ => Ok(word_item(scalar, body_word(wire_type_of(scalar), body))),
    }
}
