//! What is read of bytes.

ghost use Rattle.std.specs.Prelude.{◌≡◌, ◌<◌, ℕ, length, true, is_some, None, Some};
ghost use Rattle.std.specs.Prelude.{OnOk, IfOk, IfErr};
ghost use Rattle.pg_schema.specs.Parts.{shape_of};
ghost use Rattle.pg_schema.specs.Shape.{fields};
ghost use Rattle.pg_dyn.specs.reading.Decoding.{dec};
ghost use Rattle.pg_dyn.specs.fitting.Fits.{Fits};
ghost use Rattle.pg_dyn.specs.message.Kept.{message_of, type_of};
ghost use Rattle.pg_dyn.specs.reading.Refusals.{MayRefuse, MayRefuseUnlimited};
ghost use Rattle.pg_dyn.specs.reading.Faults.{TooDeepIn};
ghost use Rattle.pg_dyn.specs.declared.error.DynError.TheVariants as errors;

use pg_dyn::{DynError, Message, MessageRef};
use pg_schema::{Schema, TypeId};
use std::alloc::Global;

/// What `decode_ref` answers.
pub fn decode_ref<'a>(
    alloc: Global,
    schema: &Schema,
    type_id: TypeId,
    bytes: &'a [u8],
    limit: usize,
) -> Result<MessageRef<'a>, DynError>
    requires type_id { type_id.index < length (shape_of schema.now) }
    ensures message { IfOk result (λ m. dec (shape_of schema.now) type_id bytes.now
        ≡ Some (message_of m)) }
    ensures fits { IfOk result (λ m. Fits (shape_of schema.now) m × (type_of m ≡ type_id)) }
    ensures within { OnOk result ((place : ℕ)
        → TooDeepIn (shape_of schema.now) limit
        (fields (shape_of schema.now) type_id) bytes.now place → ⊥) }
    ensures refused { IfErr result (λ e.
        MayRefuse (shape_of schema.now) type_id limit bytes.now e) }
    ensures lacking { IfErr result (λ e. e ≡ errors.Memory
        → (is_some (dec (shape_of schema.now) type_id bytes.now) ≡ true)
        × ((place : ℕ) → TooDeepIn (shape_of schema.now) limit
        (fields (shape_of schema.now) type_id) bytes.now place → ⊥)) }
{
    pg_dyn::decode_ref(alloc, schema, type_id, bytes, limit)
}

/// What `decode` answers.
pub fn decode(
    alloc: Global,
    schema: &Schema,
    type_id: TypeId,
    bytes: &[u8],
    limit: usize,
) -> Result<Message, DynError>
    requires type_id { type_id.index < length (shape_of schema.now) }
    ensures message { IfOk result (λ m. dec (shape_of schema.now) type_id bytes.now
        ≡ Some (message_of m)) }
    ensures fits { IfOk result (λ m. Fits (shape_of schema.now) m × (type_of m ≡ type_id)) }
    ensures within { OnOk result ((place : ℕ)
        → TooDeepIn (shape_of schema.now) limit
        (fields (shape_of schema.now) type_id) bytes.now place → ⊥) }
    ensures refused { IfErr result (λ e.
        MayRefuse (shape_of schema.now) type_id limit bytes.now e) }
    ensures lacking { IfErr result (λ e. e ≡ errors.Memory
        → (is_some (dec (shape_of schema.now) type_id bytes.now) ≡ true)
        × ((place : ℕ) → TooDeepIn (shape_of schema.now) limit
        (fields (shape_of schema.now) type_id) bytes.now place → ⊥)) }
{
    pg_dyn::decode(alloc, schema, type_id, bytes, limit)
}

/// What `decode_ref_unlimited` answers.
pub fn decode_ref_unlimited<'a>(
    alloc: Global,
    schema: &Schema,
    type_id: TypeId,
    bytes: &'a [u8],
) -> Result<MessageRef<'a>, DynError>
    requires type_id { type_id.index < length (shape_of schema.now) }
    ensures message { IfOk result (λ m. dec (shape_of schema.now) type_id bytes.now
        ≡ Some (message_of m)) }
    ensures fits { IfOk result (λ m. Fits (shape_of schema.now) m × (type_of m ≡ type_id)) }
    ensures refused { IfErr result (λ e.
        MayRefuseUnlimited (shape_of schema.now) type_id bytes.now e) }
    ensures unread { IfErr result (λ e. (e ≡ errors.Memory → ⊥)
        → dec (shape_of schema.now) type_id bytes.now ≡ None) }
    ensures lacking { IfErr result (λ e. e ≡ errors.Memory
        → is_some (dec (shape_of schema.now) type_id bytes.now) ≡ true) }
{
    pg_dyn::decode_ref_unlimited(alloc, schema, type_id, bytes)
}
