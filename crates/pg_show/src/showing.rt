//! Messages shown by their schema.

ghost use Rattle.std.specs.Prelude.{◌≡◌, ◌<◌, ◌++◌, length, ℕ, true, is_some, IfErr, IfOk, OnOk, string_bytes};
ghost use Rattle.pg_schema.specs.Parts.{shape_of};
ghost use Rattle.pg_schema.specs.Shape.{fields};
ghost use Rattle.pg_dyn.specs.reading.Decoding.{dec};
ghost use Rattle.pg_dyn.specs.reading.Faults.{TooDeepIn};
ghost use Rattle.pg_dyn.specs.declared.error.DynError.TheVariants as errors;
ghost use Rattle.pg_show.specs.Shown.{Refuses, Shows, again_line, most_levels, names_of};

use crate::hex_word::push_hex;
use crate::lines::{Level, push_message};
use pg_dyn::{DEFAULT_DEPTH_LIMIT, DynError, decode_ref, encode_ref};
use pg_schema::{Schema, TypeId};
use std::alloc::{AllocError, Global};

/// Adds the line of the message's encoding.
fn push_again(alloc: Global, text: &mut String, bytes: &[u8]) -> Result<(), AllocError>
    ensures { OnOk result (string_bytes text.new ≡ string_bytes text.old ++ again_line bytes.now) }
{
    text.push_str("again ")?;
    push_hex(alloc, text, bytes)?;
    text.push_str("\n")
}

/// The lines of the message that bytes are read as, by a type of the schema: a line for each item,
/// by rising number and in a map by rising key; after a nested message its own lines, two spaces
/// further in; the unknown records; and at the end the message's encoding.
///
/// A line is `NUMBER NAME ITEM`, in a map `NUMBER NAME key ITEM value ITEM`. `ITEM` is `int` and
/// the number in decimal (a bool is 0 or 1, an enum's value its number), `f32` and `f64` with the
/// bits as a number of 8 and 16 hexadecimal digits, `text` and `bytes` with their bytes, or `msg`.
/// The other lines are `unknown` with all bytes of a record, and `again` with the encoding. Bytes
/// are two digits each, in lower case, and no bytes are `-`.
///
/// The errors are those of `decode`, with the limit of 100 levels; `TooLong`, only where the
/// message's encoding has more than 2,147,483,647 bytes; and `Memory`, only where the bytes have no
/// fault.
pub fn show(
    alloc: Global,
    schema: &Schema,
    type_id: TypeId,
    bytes: &[u8],
) -> Result<String, DynError>
    requires type_id { type_id.index < length (shape_of schema.now) }
    ensures text { IfOk result (λ text. Shows (names_of schema.now)
        (shape_of schema.now) type_id bytes.now (string_bytes text)) }
    ensures within { OnOk result ((place : ℕ)
        → TooDeepIn (shape_of schema.now) most_levels
        (fields (shape_of schema.now) type_id) bytes.now place → ⊥) }
    ensures refused { IfErr result (Refuses (shape_of schema.now) type_id bytes.now) }
    ensures lacking { IfErr result (λ e. e ≡ errors.Memory
        → (is_some (dec (shape_of schema.now) type_id bytes.now) ≡ true)
        × ((place : ℕ) → TooDeepIn (shape_of schema.now) most_levels
        (fields (shape_of schema.now) type_id) bytes.now place → ⊥)) }
{
    let message = decode_ref(alloc, schema, type_id, bytes, DEFAULT_DEPTH_LIMIT)?;
    let again = encode_ref(alloc, schema, &message)?;
    let level = Level {
        alloc,
        schema,
        type_id,
        indent: "",
    };
    let mut text = String::new(alloc);
    push_message(&mut text, &level, &message)?;
    push_again(alloc, &mut text, &again)?;
    Ok(text)
}
