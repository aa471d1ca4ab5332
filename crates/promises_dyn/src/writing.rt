//! What is written of messages.

ghost use Rattle.std.specs.Prelude.{◌≡◌, ◌≤◌, length, IfOk, IfErr};
ghost use Rattle.pg_schema.specs.Parts.{shape_of};
ghost use Rattle.pg_schema.specs.Shape.{fields};
ghost use Rattle.pg_dyn.specs.views.Comparison.{unshared_bytes};
ghost use Rattle.pg_dyn.specs.encoding.Encoding.{cap, enc};
ghost use Rattle.pg_dyn.specs.fitting.Fits.{Fits};
ghost use Rattle.pg_dyn.specs.message.Kept.{message_of, type_of};
ghost use Rattle.pg_dyn.specs.encoding.Written.{MayNotWrite};

use pg_dyn::{DynError, Message, MessageRef};
use pg_schema::{Schema, TypeId};
use std::alloc::Global;

/// What `encode` answers.
pub fn encode(alloc: Global, schema: &Schema, message: &Message) -> Result<Vec<u8>, DynError>
    requires { Fits (shape_of schema.now) message.now }
    ensures ok { IfOk result (λ bytes.
        (bytes.items ≡ enc (shape_of schema.now) (type_of message.now) (message_of message.now))
        × (length bytes.items ≤ cap)) }
    ensures err { IfErr result (λ e.
        MayNotWrite (length (enc (shape_of schema.now) (type_of message.now)
        (message_of message.now))) e) }
{
    pg_dyn::encode(alloc, schema, message)
}

/// What `encode_ref` answers.
pub fn encode_ref(
    alloc: Global,
    schema: &Schema,
    message: &MessageRef<'_>,
) -> Result<Vec<u8>, DynError>
    requires { Fits (shape_of schema.now) message.now }
    ensures ok { IfOk result (λ bytes.
        (bytes.items ≡ enc (shape_of schema.now) (type_of message.now) (message_of message.now))
        × (length bytes.items ≤ cap)) }
    ensures err { IfErr result (λ e.
        MayNotWrite (length (enc (shape_of schema.now) (type_of message.now)
        (message_of message.now))) e) }
{
    pg_dyn::encode_ref(alloc, schema, message)
}

/// What `encode_unshared_ref` answers.
pub fn encode_unshared_ref(
    alloc: Global,
    schema: &Schema,
    message: &MessageRef<'_>,
    other: &Schema,
    other_type: TypeId,
) -> Result<Vec<u8>, DynError>
    requires { Fits (shape_of schema.now) message.now }
    ensures ok { IfOk result (λ bytes. bytes.items
        ≡ unshared_bytes (shape_of schema.now) (type_of message.now)
        (fields (shape_of other.now) other_type) (message_of message.now)) }
    ensures err { IfErr result (λ e.
        MayNotWrite (length (unshared_bytes (shape_of schema.now) (type_of message.now)
        (fields (shape_of other.now) other_type) (message_of message.now))) e) }
{
    pg_dyn::encode_unshared_ref(alloc, schema, message, other, other_type)
}
