//! Reading a message from bytes: borrowed from them, or with parts of its own.

ghost use Rattle.std.specs.Prelude.{◌≡◌, ◌<◌, ℕ, length, true, is_some, Some, OnOk, IfOk, IfErr};
ghost use Rattle.pg_schema.specs.Parts.{shape_of};
ghost use Rattle.pg_schema.specs.Shape.{fields};
ghost use Rattle.pg_dyn.specs.reading.Decoding.{dec};
ghost use Rattle.pg_dyn.specs.fitting.Fits.{Fits};
ghost use Rattle.pg_dyn.specs.message.Kept.{message_of, type_of};
ghost use Rattle.pg_dyn.specs.reading.Refusals.{MayRefuse};
ghost use Rattle.pg_dyn.specs.reading.Faults.{TooDeepIn};
ghost use Rattle.pg_dyn.specs.declared.error.DynError.TheVariants as errors;

use crate::error::DynError;
use crate::message::Message;
use crate::message_ref::MessageRef;
use crate::reading::faults::{Holder, find_fault};
use crate::reading::read_message;
use crate::reading::stop::Stop;
use pg_schema::{Schema, TypeId};
use std::alloc::Global;

/// A limit of depth for callers that have none of their own, as Protocol Buffers' C++ and Java
/// readers have one of 100. The message that is read has depth 1.
pub const DEFAULT_DEPTH_LIMIT: usize = 100;

/// The message that bytes are read as, by the type, which the schema has (Protocol Buffers encoding
/// guide, "Message Structure", "Last One Wins", "Packed Repeated Fields", "Maps"). Its strings,
/// bytes and unknown records are those of the bytes; none is copied. Records that no field of the
/// type accepts are kept as they are. Messages nested deeper than `limit` are refused; the message
/// itself has depth 1, a message inside one more than the message that holds it, and the entry of a
/// map adds nothing.
///
/// The errors are `Wire`, `NotUtf8` and `TooDeep`, of several the one of the first record in byte
/// order that has one, with the offset of that record, which has the fault itself; and, where the
/// bytes have none, `Memory`.
pub fn decode_ref<'a>(
    alloc: Global,
    schema: &Schema,
    type_id: TypeId,
    bytes: &'a [u8],
    limit: usize,
) -> Result<MessageRef<'a>, DynError>
    requires type_id { type_id.index < length (shape_of schema.now) }
    ensures message { IfOk result (λ m. dec (shape_of schema.now) type_id bytes.now
        ≡ Some (message_of m)) }
    ensures fits { IfOk result (λ m. Fits (shape_of schema.now) m × (type_of m ≡ type_id)) }
    ensures within { OnOk result ((place : ℕ)
        → TooDeepIn (shape_of schema.now) limit
        (fields (shape_of schema.now) type_id) bytes.now place → ⊥) }
    ensures refused { IfErr result (λ e.
        MayRefuse (shape_of schema.now) type_id limit bytes.now e) }
    ensures lacking { IfErr result (λ e. e ≡ errors.Memory
        → (is_some (dec (shape_of schema.now) type_id bytes.now) ≡ true)
        × ((place : ℕ) → TooDeepIn (shape_of schema.now) limit
        (fields (shape_of schema.now) type_id) bytes.now place → ⊥)) }
{
    if limit == 0 {
        return Err(DynError::TooDeep { at: 0 });
    }
    // What holds of every schema.
    schema.parts();
    match read_message(alloc, schema, type_id, bytes, limit - 1) {
        Ok(message) => Ok(message),
        Err(stop) => {
            // The first fault in the bytes is reported; where they have none, memory was refused.
            find_fault(schema, Holder::Message(type_id), bytes, 0, limit - 1)?;
            match stop {
                Stop::Memory => Err(DynError::Memory),
                Stop::Fault => unreachable!(),
            }
        }
    }
}

/// The message that bytes are read as, as `decode_ref` reads it, with strings, bytes and unknown
/// records of its own.
///
/// The errors are those of `decode_ref`.
pub fn decode(
    alloc: Global,
    schema: &Schema,
    type_id: TypeId,
    bytes: &[u8],
    limit: usize,
) -> Result<Message, DynError>
    requires type_id { type_id.index < length (shape_of schema.now) }
    ensures message { IfOk result (λ m. dec (shape_of schema.now) type_id bytes.now
        ≡ Some (message_of m)) }
    ensures fits { IfOk result (λ m. Fits (shape_of schema.now) m × (type_of m ≡ type_id)) }
    ensures within { OnOk result ((place : ℕ)
        → TooDeepIn (shape_of schema.now) limit
        (fields (shape_of schema.now) type_id) bytes.now place → ⊥) }
    ensures refused { IfErr result (λ e.
        MayRefuse (shape_of schema.now) type_id limit bytes.now e) }
    ensures lacking { IfErr result (λ e. e ≡ errors.Memory
        → (is_some (dec (shape_of schema.now) type_id bytes.now) ≡ true)
        × ((place : ℕ) → TooDeepIn (shape_of schema.now) limit
        (fields (shape_of schema.now) type_id) bytes.now place → ⊥)) }
{
    match decode_ref(alloc, schema, type_id, bytes, limit) {
        Ok(lent) => match lent.into_message(alloc) {
            Ok(message) => Ok(message),
            Err(_) => Err(DynError::Memory),
        },
        Err(error) => Err(error),
    }
}
