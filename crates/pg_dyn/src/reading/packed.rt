//! Reading packed lists.

ghost use Rattle.std.specs.Prelude.{◌≡◌, ◌<◌, ◌≤◌, true, Ok, Err, Some, is_some, take, drop, length, OnOk, IfOk, IfErr};
ghost use Rattle.pg_schema.specs.declared.parts.field.Element.TheVariants as elements;
ghost use Rattle.pg_schema.specs.Shape.{is_packable};
ghost use Rattle.pg_wire.specs.Errors.{error_at};
ghost use Rattle.pg_wire.specs.Reading.{Fault};
ghost use Rattle.pg_wire.specs.declared.error.WireError.TheVariants as wire_errors;
ghost use Rattle.pg_dyn.specs.reading.ByFields.{StopsFor};
ghost use Rattle.pg_dyn.specs.word.Coding.{element_at, form_wire, scalar_form, word_in};
ghost use Rattle.pg_dyn.specs.reading.Content.{packed_leaves};
ghost use Rattle.pg_dyn.specs.reading.Steps.{IsRow, RowReads, RowRefused, WordsRead};
ghost use Rattle.pg_dyn.specs.word.WordOf.{HasBits};

use crate::encoding::body::wire_type_of;
use crate::error::DynError;
use crate::reading::stop::Stop;
use pg_schema::Scalar;
use pg_wire::{WireError, WireType, read_varint};

// The word at the front of a packed list, and how many bytes it takes.
#[inline(always)]
#[tactic(auto, unfolding(crate::specs::word::Coding::word_in))]
fn front_word(wire_type: WireType, bytes: &[u8]) -> Result<(u64, usize), WireError>
    ensures ok { IfOk result (λ read.
        (element_at wire_type bytes.now ≡ Ok (take read.1 bytes.now, drop read.1 bytes.now))
        × (1 ≤ read.1)
        × (read.1 ≤ length bytes.now)) }
    ensures word { IfOk result (λ read. (word_in wire_type (take read.1 bytes.now) ≡ read.0)
        × HasBits wire_type read.0) }
    ensures err { IfErr result (λ e. (fault : Fault) × (element_at wire_type bytes.now ≡ Err fault)
        × (e ≡ error_at fault 0)) }
{
    match wire_type {
        WireType::Varint => read_varint(bytes),
        WireType::I64 => match bytes.split_first_chunk::<8>() {
            Some((word, _)) => Ok((u64::from_le_bytes(*word), 8)),
            None => Err(WireError::Truncated { at: 0 }),
        },
        WireType::I32 => match bytes.split_first_chunk::<4>() {
            Some((word, _)) => Ok((u64::from(u32::from_le_bytes(*word)), 4)),
            None => Err(WireError::Truncated { at: 0 }),
        },
        WireType::Len => Err(WireError::Truncated { at: 0 }),
    }
}

// How many of the bytes end a varint: these are below 128.
fn ends_in(piece: &[u8]) -> u8
    requires { length piece.now ≤ 128 }
{
    let mut count = 0;
    for place in 0..piece.len() {
        count += u8::from(piece[place] < 128);
    }
    count
}

// How many varints end in the bytes. They are counted in pieces, of which each count is a byte: so
// many bytes are added at a time.
fn varints_in(body: &[u8]) -> usize {
    let mut count: usize = 0;
    for piece in body.chunks(128) {
        count = count.saturating_add(usize::from(ends_in(piece)));
    }
    count
}

// How many items a packed list has, where it is one.
fn row_len(wire_type: WireType, body: &[u8]) -> usize {
    match wire_type {
        WireType::Varint => varints_in(body),
        WireType::I64 => body.len() / 8,
        WireType::I32 => body.len() / 4,
        WireType::Len => 0,
    }
}

// Reads a packed list after the words. Inlined, so that there is a loop for each wire type.
#[inline(always)]
fn push_words(wire_type: WireType, words: &mut Vec<u64>, body: &[u8]) -> Result<(), Stop>
    ensures ok { OnOk result (WordsRead wire_type body.now words.old.items words.new.items) }
    ensures err { IfErr result (StopsFor (IsRow wire_type body.now)) }
{
    let mut start = 0;
    while start < body.len() {
        let (word, len) = match front_word(wire_type, &body[start..]) {
            Ok(read) => read,
            Err(_) => return Err(Stop::Fault),
        };
        words.push(word)?;
        start += len;
    }
    Ok(())
}

// The same, by the loop of the wire type.
fn push_row(wire_type: WireType, words: &mut Vec<u64>, body: &[u8]) -> Result<(), Stop>
    ensures ok { OnOk result (WordsRead wire_type body.now words.old.items words.new.items) }
    ensures err { IfErr result (StopsFor (IsRow wire_type body.now)) }
{
    match wire_type {
        WireType::Varint => push_words(WireType::Varint, words, body),
        WireType::I64 => push_words(WireType::I64, words, body),
        WireType::I32 => push_words(WireType::I32, words, body),
        WireType::Len => push_words(WireType::Len, words, body),
    }
}

/// Reads a packed list of numbers of the scalar type after the words (Protocol Buffers encoding
/// guide, "Packed Repeated Fields"). Room for all of them is made at once. Not inlined, so that a
/// level of messages takes no more of the stack for it.
#[inline(never)]
pub(crate) fn push_packed(scalar: Scalar, words: &mut Vec<u64>, body: &[u8]) -> Result<(), Stop>
    requires { is_packable (elements.Scalar scalar) ≡ true }
    ensures ok { OnOk result (RowReads scalar body.now words.old.items words.new.items) }
    ensures err { IfErr result (StopsFor
        (is_some (packed_leaves (scalar_form scalar) body.now) ≡ true)) }
{
    let wire_type = wire_type_of(scalar);
    words.reserve(row_len(wire_type, body))?;
    push_row(wire_type, words, body)
}

/// Refuses a packed list that isn't one, of the record at that offset.
pub(crate) fn check_packed(scalar: Scalar, body: &[u8], at: usize) -> Result<(), DynError>
    requires { is_packable (elements.Scalar scalar) ≡ true }
    ensures readable { OnOk result (is_some (packed_leaves (scalar_form scalar) body.now) ≡ true) }
    ensures err { IfErr result (RowRefused scalar body.now at) }
{
    let wire_type = wire_type_of(scalar);
    let mut start = 0;
    while start < body.len() {
        match front_word(wire_type, &body[start..]) {
            Ok((_, len)) => start += len,
            Err(error) => return Err(DynError::Wire(error.after(at))),
        }
    }
    Ok(())
}
