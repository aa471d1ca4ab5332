//! The bytes of the fields that another type doesn't have.

ghost use Rattle.std.specs.Prelude.{◌≡◌, ◌++◌, length, OnOk, IfOk, IfErr};
ghost use Rattle.pg_schema.specs.Invariant.{IsSchema};
ghost use Rattle.pg_schema.specs.Parts.{shape_of};
ghost use Rattle.pg_schema.specs.Shape.{fields};
ghost use Rattle.pg_dyn.specs.views.Comparison.{unshared_bytes};
ghost use Rattle.pg_dyn.specs.fitting.Fits.{Fits};
ghost use Rattle.pg_dyn.specs.message.Kept.{message_of, type_of};
ghost use Rattle.pg_dyn.specs.encoding.Unshared.{outside_written};
ghost use Rattle.pg_dyn.specs.encoding.Lending.{HoldsParts};
ghost use Rattle.pg_dyn.specs.encoding.Written.{MayNotWrite, parts_written};

use crate::encoding::counting::{MAX_ENCODING_LEN, count_content};
use crate::encoding::lending::Lends;
use crate::encoding::write_content;
use crate::error::DynError;
use crate::message_ref::MessageRef;
use pg_schema::{Schema, TypeId};
use std::alloc::Global;

// Adds the records of a content that the type's field of the number holds.
fn push_content<M: Lends>(
    alloc: Global,
    out: &mut Vec<u8>,
    schema: &Schema,
    type_id: TypeId,
    held: &(u32, M::Content),
) -> Result<(), DynError>
    requires is_schema { IsSchema schema.now }
    requires holds { HoldsParts (shape_of schema.now) type_id held.now.0
        (M.parts held.now.0 held.now.1) }
    ensures ok { OnOk result (out.new.items
        ≡ out.old.items ++ parts_written (shape_of schema.now) type_id held.now.0
        (M.parts held.now.0 held.now.1)) }
    ensures err { IfErr result (λ e.
        MayNotWrite (length (parts_written (shape_of schema.now) type_id held.now.0
        (M.parts held.now.0 held.now.1))) e) }
{
    let (number, content) = held;
    let Some(field) = schema.field(type_id, *number) else {
        return Ok(());
    };
    let mut lengths = Vec::new(alloc);
    let len = count_content::<M>(content, schema, field, &mut lengths)?;
    if len > MAX_ENCODING_LEN {
        return Err(DynError::TooLong);
    }
    write_content::<M>(content, out, schema, field, &lengths)?;
    Ok(())
}

// The same, where another type has no field of the number; else nothing.
fn push_outside<M: Lends>(
    alloc: Global,
    out: &mut Vec<u8>,
    schemas: &Other<'_>,
    type_id: TypeId,
    held: &(u32, M::Content),
) -> Result<(), DynError>
    requires is_schema { IsSchema schemas.now.own.now }
    requires holds { HoldsParts (shape_of schemas.now.own.now) type_id held.now.0
        (M.parts held.now.0 held.now.1) }
    ensures ok { OnOk result (out.new.items
        ≡ out.old.items ++ outside_written M.parts (shape_of schemas.now.own.now) type_id
        (fields (shape_of schemas.now.other.now) schemas.now.other_type) held.now) }
    ensures err { IfErr result (λ e.
        MayNotWrite (length (outside_written M.parts (shape_of schemas.now.own.now) type_id
        (fields (shape_of schemas.now.other.now) schemas.now.other_type) held.now)) e) }
{
    match schemas.other.field(schemas.other_type, held.0) {
        Some(_) => Ok(()),
        None => push_content::<M>(alloc, out, schemas.own, type_id, held),
    }
}

/// A schema, and another with a type of its own.
#[derive(Drop)]
struct Other<'a> {
    own: &'a Schema,
    other: &'a Schema,
    other_type: TypeId,
}

// Of a message's encoding the records of the fields whose numbers another type doesn't have.
fn encode_unshared_lent<M: Lends>(
    alloc: Global,
    message: &M,
    schemas: &Other<'_>,
) -> Result<Vec<u8>, DynError>
    requires { Fits (shape_of schemas.now.own.now) (M.kept message.now) }
    ensures ok { IfOk result (λ bytes. bytes.items
        ≡ unshared_bytes (shape_of schemas.now.own.now) (type_of (M.kept message.now))
        (fields (shape_of schemas.now.other.now) schemas.now.other_type)
        (message_of (M.kept message.now))) }
    ensures err { IfErr result (λ e. MayNotWrite (length
        (unshared_bytes (shape_of schemas.now.own.now) (type_of (M.kept message.now))
        (fields (shape_of schemas.now.other.now) schemas.now.other_type)
        (message_of (M.kept message.now)))) e) }
{
    // What holds of every schema.
    schemas.own.parts();
    let type_id = message.message_type();
    let mut out = Vec::new(alloc);
    for held in message.fields() {
        push_outside::<M>(alloc, &mut out, schemas, type_id, held)?;
    }
    Ok(out)
}

/// Of a message's encoding the records of the fields whose numbers another type doesn't have, in
/// their order: what a reader of that type keeps as unknown (proto3 language guide, "Unknown
/// Fields"). The message borrows.
///
/// The errors are `TooLong`, only where these records have more than 2,147,483,647 bytes, and
/// `Memory`.
pub fn encode_unshared_ref(
    alloc: Global,
    schema: &Schema,
    message: &MessageRef<'_>,
    other: &Schema,
    other_type: TypeId,
) -> Result<Vec<u8>, DynError>
    requires { Fits (shape_of schema.now) message.now }
    ensures ok { IfOk result (λ bytes. bytes.items
        ≡ unshared_bytes (shape_of schema.now) (type_of message.now)
        (fields (shape_of other.now) other_type) (message_of message.now)) }
    ensures err { IfErr result (λ e.
        MayNotWrite (length (unshared_bytes (shape_of schema.now) (type_of message.now)
        (fields (shape_of other.now) other_type) (message_of message.now))) e) }
{
    let schemas = Other {
        own: schema,
        other,
        other_type,
    };
    encode_unshared_lent(alloc, message, &schemas)
}
