//! Lists of numbers, as a message that borrows keeps them.

ghost use Rattle.std.specs.Prelude.{◌≡◌, ◌<◌, length, slice_get, Some};
ghost use Rattle.pg_dyn.specs.word.Coding.{scalar_form};
ghost use Rattle.pg_dyn.specs.encoding.Lending.{bare_leaf, leaf_lent, lent_item};
ghost use Rattle.pg_dyn.specs.word.NumberLists.{IsNumber, item_of, low_bits, number_item, numbers_in};
ghost use Rattle.pg_dyn.specs.word.WordOf.{HasBits};

use crate::encoding::body::wire_type_of;
use crate::encoding::lending::LeafRef;
use crate::integer::Integer;
use crate::message_ref::ValueRef;
use crate::word::number_of;
use pg_schema::Scalar;
use pg_wire::WireType;
use std::alloc::Global;

/// A list of numbers. Each is kept as the word that was read, of which the scalar type makes the
/// number.
#[derive(Drop)]
pub struct NumberList {
    pub(crate) scalar: Scalar,
    pub(crate) words: Vec<u64>,
}

/// An item that is a number.
#[derive(Clone, Copy)]
pub(crate) enum Number {
    Int(i128),
    F32(u32),
    F64(u64),
}

impl Number {
    // The number as a writer takes it.
    #[inline(always)]
    pub(crate) fn leaf<'b>(self) -> LeafRef<'b>
        ensures { leaf_lent result ≡ bare_leaf (lent_item (item_of self)) }
    {
        match self {
            Number::Int(number) => LeafRef::Int(number),
            Number::F32(bits) => LeafRef::F32(bits),
            Number::F64(bits) => LeafRef::F64(bits),
        }
    }

    // The number as an item of a message that borrows.
    #[inline(always)]
    pub(crate) fn item<'a>(self) -> ValueRef<'a>
        ensures item { result ≡ item_of self }
        ensures number { IsNumber result }
    {
        match self {
            Number::Int(number) => ValueRef::Int(Integer::new(number)),
            Number::F32(bits) => ValueRef::F32(bits),
            Number::F64(bits) => ValueRef::F64(bits),
        }
    }
}

// The part of a word that a body of the wire type has.
#[inline(always)]
fn low_bits(wire_type: WireType, word: u64) -> u64
    ensures low { result ≡ low_bits wire_type word }
    ensures bits { HasBits wire_type result }
{
    match wire_type {
        WireType::I32 => word % 0x1_0000_0000,
        WireType::Varint | WireType::I64 | WireType::Len => word,
    }
}

/// The number that a word says. Inlined, so that there is a loop for each scalar.
#[inline(always)]
pub(crate) fn word_number(scalar: Scalar, word: u64) -> Number
    ensures { item_of result ≡ number_item (scalar_form scalar) word }
{
    let low = low_bits(wire_type_of(scalar), word);
    match scalar {
        Scalar::Float => Number::F32(low as u32),
        Scalar::Double => Number::F64(low),
        _ => Number::Int(number_of(scalar, low)),
    }
}

impl NumberList {
    /// How many numbers there are.
    pub fn len(&self) -> usize
        ensures { result ≡ length (numbers_in self.now) }
    {
        self.words.len()
    }

    /// The number at an index, as an item.
    pub fn get<'a>(&self, at: usize) -> ValueRef<'a>
        requires { at < length (numbers_in self.now) }
        ensures item { slice_get (numbers_in self.now) at ≡ Some result }
        ensures number { IsNumber result }
    {
        word_number(self.scalar, self.words[at]).item()
    }
}
