//! Whether a message breaks.

ghost use Rattle.std.specs.Prelude.{◌≡◌, ◌↔◌, ◌⊎◌, ◌<◌, ◌≤◌, length, IsTrue, IfErr, IfOk, OnOk};
ghost use Rattle.pg_schema.specs.Parts.{shape_of};
ghost use Rattle.pg_dyn.specs.declared.error.DynError.TheVariants as errors;
ghost use Rattle.pg_dyn.specs.views.Breaking.{Breaks};
ghost use Rattle.pg_dyn.specs.encoding.Encoding.{cap, enc};
ghost use Rattle.pg_dyn.specs.fitting.Fits.{Fits};
ghost use Rattle.pg_dyn.specs.message.Kept.{message_of, type_of};
ghost use Rattle.pg_pairs.specs.graph.GraphView.{seen};

use crate::choices::choice::Pair;
use crate::graph::priced::Priced;
use crate::witness::comparing::is_same_message;
use pg_dyn::laws::reads_again;
use pg_dyn::{DynError, Message, MessageRef, decode_ref_unlimited, encode};
use std::alloc::{AllocError, Global};

/// Whether the message breaks of which those bytes are the encoding: it is one of the pair's old
/// type without unknown records, and the new type's reader, at any depth, can't read the bytes or
/// reads something else in them than was meant. The message is one of the old schema; of another
/// type it doesn't break, nor where the new schema hasn't the pair's new type.
///
/// Refused only where memory is.
pub fn breaks_as_written(
    alloc: Global,
    graph: &Priced<'_>,
    pair: Pair,
    message: &MessageRef<'_>,
    bytes: &[u8],
) -> Result<bool, AllocError>
    requires fits { Fits (shape_of graph.now.old.now) message.now }
    requires written { enc (shape_of graph.now.old.now) (type_of message.now)
        (message_of message.now) ≡ bytes.now }
    requires within { length (enc (shape_of graph.now.old.now) (type_of message.now)
        (message_of message.now)) ≤ cap }
    ensures { IfOk result (λ b. IsTrue b
        ↔ ((type_of message.now ≡ pair.old)
        × Breaks (seen graph.now).alike (shape_of graph.now.old.now)
        (shape_of graph.now.new.now) pair.old pair.new (message_of message.now))) }
{
    // What holds of every schema.
    graph.old.parts();
    graph.new.parts();
    if message.type_id() != pair.old || !message.is_plain() || !graph.new.has(pair.new) {
        return Ok(false);
    }
    match decode_ref_unlimited(alloc, graph.new, pair.new, bytes) {
        Ok(read) => Ok(!is_same_message(alloc, graph, message, &read)?),
        Err(error) => match error {
            DynError::Memory => Err(AllocError),
            _ => Ok(true),
        },
    }
}

/// Whether the message breaks, as `breaks_as_written` says of its encoding. The message is one of
/// the old schema; of another type it doesn't break, nor where the new schema hasn't the pair's new
/// type.
///
/// The errors are `TooLong`, just where the message's encoding has more than 2,147,483,647 bytes,
/// and `Memory`.
pub fn breaks(
    alloc: Global,
    graph: &Priced<'_>,
    pair: Pair,
    message: &Message,
) -> Result<bool, DynError>
    requires { Fits (shape_of graph.now.old.now) message.now }
    ensures exact { IfOk result (λ b. IsTrue b
        ↔ ((type_of message.now ≡ pair.old)
        × Breaks (seen graph.now).alike (shape_of graph.now.old.now)
        (shape_of graph.now.new.now) pair.old pair.new (message_of message.now))) }
    ensures encoded { OnOk result (length
        (enc (shape_of graph.now.old.now) (type_of message.now) (message_of message.now)) ≤ cap) }
    ensures refused { IfErr result (λ e. (e ≡ errors.Memory)
        ⊎ ((e ≡ errors.TooLong) × (cap < length
        (enc (shape_of graph.now.old.now) (type_of message.now) (message_of message.now))))) }
{
    // What holds of every schema, and of what a type writes.
    graph.old.parts();
    reads_again();
    let bytes = encode(alloc, graph.old, message)?;
    let written = bytes.as_slice();
    match decode_ref_unlimited(alloc, graph.old, message.type_id(), written) {
        Ok(lent) => Ok(breaks_as_written(alloc, graph, pair, &lent, written)?),
        Err(error) => match error {
            DynError::Memory => Err(error),
            // An encoding is read without a fault.
            _ => unreachable!(),
        },
    }
}
