//! The messages inside a message type: its entry types, and its other message types.

ghost use Rattle.std.specs.Prelude.{◌≡◌, IfOk, filter, map};
ghost use Rattle.pg_dyn.specs.message.Kept.{message_of};
ghost use Rattle.pg_set.specs.stated.TypeMessages.{is_entry, is_no_entry};

use crate::descriptor::access::{SetMessage, option};
use crate::descriptor::proto;
use std::alloc::{AllocError, Global};

// Whether the message is marked `map_entry`.
fn is_entry(message: &SetMessage<'_, '_>) -> bool
    ensures { result ≡ is_entry (message_of message.now) }
{
    match option(message, proto::MESSAGE_OPTIONS, proto::MESSAGE_MAP_ENTRY) {
        Some(flag) => flag,
        None => false,
    }
}

/// The messages that are entry types, in their order.
pub(crate) fn entries_of<'b, 'a>(
    alloc: Global,
    messages: &[SetMessage<'b, 'a>],
) -> Result<Vec<SetMessage<'b, 'a>>, AllocError>
    ensures { IfOk result (λ found. map message_of found.items
        ≡ filter is_entry (map message_of messages.now)) }
{
    let mut found = Vec::new(alloc);
    for message in messages {
        if is_entry(message) {
            found.push(message.reborrow())?;
        }
    }
    Ok(found)
}

/// The messages that aren't entry types, in their order.
pub(crate) fn types_of<'b, 'a>(
    alloc: Global,
    messages: &[SetMessage<'b, 'a>],
) -> Result<Vec<SetMessage<'b, 'a>>, AllocError>
    ensures { IfOk result (λ found. map message_of found.items
        ≡ filter is_no_entry (map message_of messages.now)) }
{
    let mut found = Vec::new(alloc);
    for message in messages {
        if !is_entry(message) {
            found.push(message.reborrow())?;
        }
    }
    Ok(found)
}
