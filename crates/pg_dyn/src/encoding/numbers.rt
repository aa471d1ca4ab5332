//! The records of lists of numbers.

ghost use Rattle.std.specs.Prelude.{◌≡◌, ◌++◌, ◌^◌, ◌<◌, length, IfOk, IfErr, OnOk};
ghost use Rattle.pg_schema.specs.declared.parts.field.Element.TheVariants as elements;
ghost use Rattle.pg_dyn.specs.word.NumberLists.{numbers_in};
ghost use Rattle.pg_dyn.specs.encoding.Lending.{lent_item, word_item};
ghost use Rattle.pg_dyn.specs.encoding.Written.{Adds, LeavesFit, MayNotAdd, capped, number_bytes, number_lengths, packed_body, packed_bytes, packed_lengths, single_bytes};

use crate::encoding::body::{push_body, wire_type_of};
use crate::encoding::counting::{add, body_len, record_len, saturated_len};
use crate::encoding::records::{not_too_long, push_front, push_record};
use crate::error::DynError;
use crate::number_list::{NumberList, word_number};
use pg_schema::Scalar;
use pg_wire::WireType;
use std::alloc::AllocError;

// How many bytes the bodies of numbers of a scalar type take, whose words are of another.
#[inline(always)]
fn words_len(scalar: Scalar, from: Scalar, words: &[u64]) -> usize
    requires { LeavesFit (word_item from) (elements.Scalar scalar) words.now }
    ensures { result
        ≡ capped (length (packed_body (word_item from) (elements.Scalar scalar) words.now)) }
{
    let mut total = 0;
    for word in words {
        let len = body_len(scalar, word_number(from, *word).leaf());
        total = add(total, saturated_len(len));
    }
    total
}

// Does so for words of the scalar type itself, by a loop for each whose bodies are varints.
fn own_len(scalar: Scalar, words: &[u64]) -> usize
    requires { LeavesFit (word_item scalar) (elements.Scalar scalar) words.now }
    ensures { result
        ≡ capped (length (packed_body (word_item scalar) (elements.Scalar scalar) words.now)) }
{
    match scalar {
        Scalar::Int32 => words_len(Scalar::Int32, Scalar::Int32, words),
        Scalar::Int64 => words_len(Scalar::Int64, Scalar::Int64, words),
        Scalar::Uint32 => words_len(Scalar::Uint32, Scalar::Uint32, words),
        Scalar::Uint64 => words_len(Scalar::Uint64, Scalar::Uint64, words),
        Scalar::Sint32 => words_len(Scalar::Sint32, Scalar::Sint32, words),
        Scalar::Sint64 => words_len(Scalar::Sint64, Scalar::Sint64, words),
        Scalar::Bool => words_len(Scalar::Bool, Scalar::Bool, words),
        _ => words_len(scalar, scalar, words),
    }
}

// How many bytes the bodies of a packed list take.
fn bodies_len(scalar: Scalar, numbers: &NumberList) -> usize
    requires { LeavesFit lent_item (elements.Scalar scalar) (numbers_in numbers.now) }
    ensures { result ≡ capped (length (packed_body lent_item (elements.Scalar scalar)
        (numbers_in numbers.now))) }
{
    match wire_type_of(scalar) {
        WireType::I64 => saturated_len(numbers.words.len().saturating_mul(8)),
        WireType::I32 => saturated_len(numbers.words.len().saturating_mul(4)),
        WireType::Varint | WireType::Len => {
            if numbers.scalar == scalar {
                own_len(scalar, &numbers.words)
            } else {
                words_len(scalar, numbers.scalar, &numbers.words)
            }
        }
    }
}

// How many bytes the record of a packed list takes, which an empty one doesn't have. The length of
// its body comes after the others.
fn count_packed(
    number: u32,
    scalar: Scalar,
    numbers: &NumberList,
    inner: &mut Vec<usize>,
) -> Result<usize, AllocError>
    requires number { number < 2 ^ 29 }
    requires fit { LeavesFit lent_item (elements.Scalar scalar) (numbers_in numbers.now) }
    ensures len { IfOk result (λ len. len ≡ capped (length
        (packed_bytes lent_item number (elements.Scalar scalar) (numbers_in numbers.now)))) }
    ensures inner { OnOk result (inner.new.items ≡ inner.old.items
        ++ packed_lengths lent_item (elements.Scalar scalar) (numbers_in numbers.now)) }
{
    if numbers.len() == 0 {
        return Ok(0);
    }
    let len = bodies_len(scalar, numbers);
    inner.push(len)?;
    Ok(record_len(number, WireType::Len, len))
}

// How many bytes the records of words take, one for each.
fn records_len(number: u32, scalar: Scalar, from: Scalar, words: &[u64]) -> usize
    requires number { number < 2 ^ 29 }
    requires fit { LeavesFit (word_item from) (elements.Scalar scalar) words.now }
    ensures { result ≡ capped (length
        (single_bytes (word_item from) number (elements.Scalar scalar) words.now)) }
{
    let wire_type = wire_type_of(scalar);
    let mut total = 0;
    for word in words {
        let len = body_len(scalar, word_number(from, *word).leaf());
        total = add(total, record_len(number, wire_type, saturated_len(len)));
    }
    total
}

/// How many bytes the records of a list of numbers take, packed or not. The length of a packed
/// body comes after the others. Not inlined, so that a level of messages takes no more of the
/// stack for it.
#[inline(never)]
pub(crate) fn count_numbers(
    number: u32,
    scalar: Scalar,
    packed: bool,
    numbers: &NumberList,
    inner: &mut Vec<usize>,
) -> Result<usize, AllocError>
    requires number { number < 2 ^ 29 }
    requires fit { LeavesFit lent_item (elements.Scalar scalar) (numbers_in numbers.now) }
    ensures len { IfOk result (λ len. len ≡ capped (length
        (number_bytes packed number (elements.Scalar scalar) numbers.now))) }
    ensures inner { OnOk result (inner.new.items ≡ inner.old.items
        ++ number_lengths packed (elements.Scalar scalar) numbers.now) }
{
    if packed {
        return count_packed(number, scalar, numbers, inner);
    }
    Ok(records_len(number, scalar, numbers.scalar, &numbers.words))
}

// Adds the bodies of numbers of a scalar type, whose words are of another.
#[inline(always)]
fn push_words(
    out: &mut Vec<u8>,
    scalar: Scalar,
    from: Scalar,
    words: &[u64],
) -> Result<(), AllocError>
    requires { LeavesFit (word_item from) (elements.Scalar scalar) words.now }
    ensures ok { OnOk result (out.new.items
        ≡ out.old.items ++ packed_body (word_item from) (elements.Scalar scalar) words.now) }
{
    for word in words {
        push_body(out, scalar, word_number(from, *word).leaf())?;
    }
    Ok(())
}

// Does so for words of the scalar type itself, by a loop for each.
fn push_own(out: &mut Vec<u8>, scalar: Scalar, words: &[u64]) -> Result<(), AllocError>
    requires { LeavesFit (word_item scalar) (elements.Scalar scalar) words.now }
    ensures ok { OnOk result (out.new.items
        ≡ out.old.items ++ packed_body (word_item scalar) (elements.Scalar scalar) words.now) }
{
    match scalar {
        Scalar::Double => push_words(out, Scalar::Double, Scalar::Double, words),
        Scalar::Float => push_words(out, Scalar::Float, Scalar::Float, words),
        Scalar::Int32 => push_words(out, Scalar::Int32, Scalar::Int32, words),
        Scalar::Int64 => push_words(out, Scalar::Int64, Scalar::Int64, words),
        Scalar::Uint32 => push_words(out, Scalar::Uint32, Scalar::Uint32, words),
        Scalar::Uint64 => push_words(out, Scalar::Uint64, Scalar::Uint64, words),
        Scalar::Sint32 => push_words(out, Scalar::Sint32, Scalar::Sint32, words),
        Scalar::Sint64 => push_words(out, Scalar::Sint64, Scalar::Sint64, words),
        Scalar::Fixed32 => push_words(out, Scalar::Fixed32, Scalar::Fixed32, words),
        Scalar::Fixed64 => push_words(out, Scalar::Fixed64, Scalar::Fixed64, words),
        Scalar::Sfixed32 => push_words(out, Scalar::Sfixed32, Scalar::Sfixed32, words),
        Scalar::Sfixed64 => push_words(out, Scalar::Sfixed64, Scalar::Sfixed64, words),
        Scalar::Bool => push_words(out, Scalar::Bool, Scalar::Bool, words),
        Scalar::String | Scalar::Bytes => push_words(out, scalar, scalar, words),
    }
}

// Adds the bodies of a packed list.
fn push_bodies(out: &mut Vec<u8>, scalar: Scalar, numbers: &NumberList) -> Result<(), AllocError>
    requires { LeavesFit lent_item (elements.Scalar scalar) (numbers_in numbers.now) }
    ensures ok { OnOk result (out.new.items ≡ out.old.items
        ++ packed_body lent_item (elements.Scalar scalar) (numbers_in numbers.now)) }
{
    if numbers.scalar == scalar {
        push_own(out, scalar, &numbers.words)
    } else {
        push_words(out, scalar, numbers.scalar, &numbers.words)
    }
}

// Adds the record of a packed list, where it isn't empty. The lengths then begin with that of its
// body; what is left of them is answered.
fn push_packed<'a>(
    out: &mut Vec<u8>,
    number: u32,
    scalar: Scalar,
    numbers: &NumberList,
    lengths: &'a [usize],
) -> Result<&'a [usize], DynError>
    requires { LeavesFit lent_item (elements.Scalar scalar) (numbers_in numbers.now) }
    ensures ok { IfOk result (λ left. Adds lengths.now
        (packed_lengths lent_item (elements.Scalar scalar) (numbers_in numbers.now)) out.old.items
        (packed_bytes lent_item number (elements.Scalar scalar) (numbers_in numbers.now))
        out.new.items left.now) }
    ensures err { IfErr result (MayNotAdd lengths.now
        (packed_lengths lent_item (elements.Scalar scalar) (numbers_in numbers.now))
        (packed_bytes lent_item number (elements.Scalar scalar) (numbers_in numbers.now))) }
{
    if numbers.len() == 0 {
        return Ok(lengths);
    }
    match lengths {
        [len, left @ ..] => {
            push_front(out, number, WireType::Len, not_too_long(*len)?)?;
            push_bodies(out, scalar, numbers)?;
            Ok(left)
        }
        [] => Ok(lengths),
    }
}

// Adds the records of words, one for each.
fn push_records(
    out: &mut Vec<u8>,
    number: u32,
    scalar: Scalar,
    from: Scalar,
    words: &[u64],
) -> Result<(), AllocError>
    requires { LeavesFit (word_item from) (elements.Scalar scalar) words.now }
    ensures ok { OnOk result (out.new.items ≡ out.old.items
        ++ single_bytes (word_item from) number (elements.Scalar scalar) words.now) }
{
    for word in words {
        push_record(out, number, scalar, word_number(from, *word).leaf())?;
    }
    Ok(())
}

/// Adds the records of a list of numbers, packed or not. The lengths begin with those that were
/// noted of it; what is left of them is answered. Not inlined, so that a level of messages takes no
/// more of the stack for it.
#[inline(never)]
pub(crate) fn push_numbers<'a>(
    out: &mut Vec<u8>,
    number: u32,
    scalar: Scalar,
    packed: bool,
    numbers: &NumberList,
    lengths: &'a [usize],
) -> Result<&'a [usize], DynError>
    requires { LeavesFit lent_item (elements.Scalar scalar) (numbers_in numbers.now) }
    ensures ok { IfOk result (λ left. Adds lengths.now
        (number_lengths packed (elements.Scalar scalar) numbers.now) out.old.items
        (number_bytes packed number (elements.Scalar scalar) numbers.now) out.new.items
        left.now) }
    ensures err { IfErr result (MayNotAdd lengths.now
        (number_lengths packed (elements.Scalar scalar) numbers.now)
        (number_bytes packed number (elements.Scalar scalar) numbers.now)) }
{
    if packed {
        return push_packed(out, number, scalar, numbers, lengths);
    }
    push_records(out, number, scalar, numbers.scalar, &numbers.words)?;
    Ok(lengths)
}
