//! Reading without a limit of depth.

ghost use Rattle.std.specs.Prelude.{◌≡◌, ◌<◌, length, true, is_some, None, Some, IfErr, IfOk};
ghost use Rattle.pg_schema.specs.Parts.{shape_of};
ghost use Rattle.pg_dyn.specs.reading.Decoding.{dec};
ghost use Rattle.pg_dyn.specs.fitting.Fits.{Fits};
ghost use Rattle.pg_dyn.specs.message.Kept.{message_of, type_of};
ghost use Rattle.pg_dyn.specs.reading.Refusals.{MayRefuseUnlimited};
ghost use Rattle.pg_dyn.specs.declared.error.DynError.TheVariants as errors;

use crate::error::DynError;
use crate::message_ref::MessageRef;
use crate::reading::decoding::decode_ref;
use pg_schema::{Schema, TypeId};
use std::alloc::Global;

/// The message that bytes are read as, by the type, which the schema has, however deep its messages
/// are nested. Its strings, bytes and unknown records are those of the bytes; none is copied.
///
/// The errors are `Wire` and `NotUtf8`, of bytes that have no reading, as `decode_ref` reports
/// them; and, of bytes that have one, `Memory`.
pub fn decode_ref_unlimited<'a>(
    alloc: Global,
    schema: &Schema,
    type_id: TypeId,
    bytes: &'a [u8],
) -> Result<MessageRef<'a>, DynError>
    requires type_id { type_id.index < length (shape_of schema.now) }
    ensures message { IfOk result (λ m. dec (shape_of schema.now) type_id bytes.now
        ≡ Some (message_of m)) }
    ensures fits { IfOk result (λ m. Fits (shape_of schema.now) m × (type_of m ≡ type_id)) }
    ensures refused { IfErr result (λ e.
        MayRefuseUnlimited (shape_of schema.now) type_id bytes.now e) }
    ensures unread { IfErr result (λ e. (e ≡ errors.Memory → ⊥)
        → dec (shape_of schema.now) type_id bytes.now ≡ None) }
    ensures lacking { IfErr result (λ e. e ≡ errors.Memory
        → is_some (dec (shape_of schema.now) type_id bytes.now) ≡ true) }
{
    // No message is deeper than the bytes are many.
    decode_ref(alloc, schema, type_id, bytes, bytes.len() + 1)
}
