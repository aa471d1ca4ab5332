//! Which files of a set are left out of its schema, and which imports.

ghost use Rattle.std.specs.Prelude.{◌≡◌, ◌&&◌, IfOk, filter, map, not};
ghost use Rattle.std.specs.List.{list_any};
ghost use Rattle.pg_dyn.specs.message.Kept.{message_of};
ghost use Rattle.pg_set.specs.stated.FileMessages.{is_descriptor, is_proto3, is_skipped};

use crate::descriptor::access::{SetMessage, text};
use crate::descriptor::proto;
use std::alloc::{AllocError, Global};

// Whether the path is that of descriptor.proto.
fn is_descriptor(path: &str) -> bool
    ensures { result ≡ is_descriptor path.now }
{
    path == "google/protobuf/descriptor.proto"
}

/// Whether the file is proto3.
pub(crate) fn is_proto3(message: &SetMessage<'_, '_>) -> bool
    ensures { result ≡ is_proto3 (message_of message.now) }
{
    text(message, proto::FILE_SYNTAX) == "proto3"
}

// Whether the file is skipped: descriptor.proto, where it isn't proto3.
fn is_skipped(message: &SetMessage<'_, '_>) -> bool
    ensures { result ≡ is_skipped (message_of message.now) }
{
    is_descriptor(text(message, proto::FILE_NAME)) && !is_proto3(message)
}

/// Whether one of the files is skipped.
pub(crate) fn skips(files: &[SetMessage<'_, '_>]) -> bool
    ensures { result ≡ list_any is_skipped (map message_of files.now) }
{
    for file in files {
        let skipped = is_skipped(file);
        if skipped {
            return true;
        }
    }
    false
}

/// The files that aren't skipped, in their order.
pub(crate) fn kept<'b, 'a>(
    alloc: Global,
    files: &[SetMessage<'b, 'a>],
) -> Result<Vec<SetMessage<'b, 'a>>, AllocError>
    ensures { IfOk result (λ kept. map message_of kept.items
        ≡ filter (λ m. not (is_skipped m)) (map message_of files.now)) }
{
    let mut kept = Vec::new(alloc);
    for file in files {
        if !is_skipped(file) {
            kept.push(file.reborrow())?;
        }
    }
    Ok(kept)
}

/// Whether an import of the path is left out, where descriptor.proto is skipped or not.
pub(crate) fn is_left_out(skips: bool, path: &str) -> bool
    ensures { result ≡ (skips && is_descriptor path.now) }
{
    if !skips {
        return false;
    }
    is_descriptor(path)
}
