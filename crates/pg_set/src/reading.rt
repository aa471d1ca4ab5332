//! Descriptor sets, read.

mod codes;
mod declare;
mod inner_types;
mod made_entries;
mod made_fields;
mod made_files;
mod made_oneofs;
mod made_parts;
mod made_types;
mod name_lookup;
mod named_entries;
mod names_table;
mod order;
mod outline;
mod set_files;
mod set_names;
mod walk;

ghost use Rattle.std.specs.Prelude.{◌≡◌, ◌⊎◌, ◌<◌, ℕ, List, None, Some, IfErr, IfOk, OnOk, length, map};
ghost use Rattle.std.specs.List.{AllByRecursion, list_all};
ghost use Rattle.pg_schema.specs.declared.parts.Parts.{Parts as StatedParts};
ghost use Rattle.pg_dyn.specs.reading.Decoding.{dec};
ghost use Rattle.pg_dyn.specs.reading.Refusals.{MayRefuse};
ghost use Rattle.pg_dyn.specs.message.Kept.{message_of};
ghost use Rattle.pg_schema.specs.standing.Places.{most_deep};
ghost use Rattle.pg_set.specs.declared.error.Unstated.TheVariants.{Memory};
ghost use Rattle.pg_set.specs.round_trip.Readable.{IsReadable};
ghost use Rattle.pg_set.specs.descriptor.Descriptor.{written_shape, file_set};
ghost use Rattle.pg_set.specs.stated.Reads.{IsNotTooDeep, fds_reads};
ghost use Rattle.pg_set.specs.inner.reading.Held.{IsHeldMessage};
ghost use Rattle.pg_set.specs.inner.reading.OutlinedRows.{files_at};
ghost use Rattle.pg_set.specs.refusals.Refused.{MayRefuseFiles, MayRefuseParts, NoPartsAreStated};
ghost use Rattle.pg_set.specs.inner.reading.RefusedParts.{IsOfParts};
ghost use Rattle.pg_set.specs.stated.FileMessages.{is_proto3, kept_files, skips};
ghost use Rattle.pg_set.specs.stated.Stated.{declared_by, stated, stated_files, stated_of};
ghost use Rattle.pg_set.specs.stated.Views.{parts_view};

use crate::descriptor::access::{SetMessage, children};
use crate::descriptor::places::SET;
use crate::descriptor::{descriptor_schema, proto};
use crate::error::{SetError, Unstated};
use crate::reading::codes::files_have_types;
use crate::reading::made_parts::made_parts;
use crate::reading::names_table::SetKeys;
use crate::reading::order::order;
use crate::reading::outline::outline_files;
use crate::reading::set_files::{is_proto3, kept, skips};
use pg_dyn::laws::faults_are_real;
use pg_dyn::{DEFAULT_DEPTH_LIMIT, DynError, MessageRef, decode_ref};
use pg_schema::Parts;
use std::alloc::Global;

// What is reported of bytes that the codec refuses so.
fn undecoded(error: DynError) -> SetError
    ensures { (bytes : List ℕ) → MayRefuse written_shape file_set most_deep bytes error
        → MayRefuseParts bytes result }
{
    match error {
        DynError::Memory => SetError::Memory,
        _ => SetError::Bytes(error),
    }
}

// The message of a set.
fn decoded(alloc: Global, bytes: &[u8]) -> Result<MessageRef<'_>, SetError>
    ensures message { IfOk result (λ set. dec written_shape file_set bytes.now
        ≡ Some (message_of set)) }
    ensures texts { IfOk result IsHeldMessage }
    ensures level { OnOk result (IsNotTooDeep bytes.now) }
    ensures refused { IfErr result (MayRefuseParts bytes.now) }
{
    let table = descriptor_schema(alloc)?;
    match decode_ref(alloc, &table, SET, bytes, DEFAULT_DEPTH_LIMIT) {
        Ok(set) => Ok(set),
        Err(error) => Err(undecoded(error)),
    }
}

// Whether the files are all proto3.
fn are_proto3(files: &[SetMessage<'_, '_>]) -> bool
    ensures { result ≡ list_all is_proto3 (map message_of files.now) }
{
    for file in files {
        let proto3 = is_proto3(file);
        if !proto3 {
            return false;
        }
    }
    true
}

// The parts that the files declare, in that order. Refused, memory aside, only where they declare
// none.
fn parts(
    alloc: Global,
    keys: SetKeys,
    skips: bool,
    files: &[SetMessage<'_, '_>],
    order: &[usize],
) -> Result<Parts, Unstated>
    requires { AllByRecursion (λ place. place < length files.now) order.now }
    ensures made { IfOk result (λ made.
        declared_by skips (files_at (map message_of files.now) order.now)
        ≡ Some (parts_view made)) }
    ensures none { IfErr result (λ e. (e ≡ Memory)
        ⊎ (declared_by skips (files_at (map message_of files.now) order.now) ≡ None)) }
{
    let outline = outline_files(alloc, keys, DEFAULT_DEPTH_LIMIT, files, order)?;
    made_parts(alloc, skips, &outline)
}

// The parts that the files state, which are proto3 and have types that are taken.
fn kept_parts(
    alloc: Global,
    keys: SetKeys,
    skips: bool,
    files: &[SetMessage<'_, '_>],
) -> Result<Parts, SetError>
    ensures ok { IfOk result (λ parts. stated_of skips (map message_of files.now)
        ≡ Some (parts_view parts)) }
    ensures refused { IfErr result (IsOfParts skips (map message_of files.now)) }
{
    let order = order(alloc, skips, files)?;
    let parts = parts(alloc, keys, skips, files, order.as_slice())?;
    Ok(parts)
}

// The parts that the files state.
fn files_parts(
    alloc: Global,
    keys: SetKeys,
    skips: bool,
    files: &[SetMessage<'_, '_>],
) -> Result<Parts, SetError>
    ensures ok { IfOk result (λ parts. stated_files skips (map message_of files.now)
        ≡ Some (parts_view parts)) }
    ensures refused { IfErr result (MayRefuseFiles skips (map message_of files.now)) }
{
    let proto3 = are_proto3(files);
    if !proto3 {
        return Err(SetError::NotProto3);
    }
    let typed = files_have_types(alloc, files)?;
    if !typed {
        return Err(SetError::BadType);
    }
    kept_parts(alloc, keys, skips, files)
}

// The parts that a set's message states.
fn set_parts(alloc: Global, keys: SetKeys, set: &SetMessage<'_, '_>) -> Result<Parts, SetError>
    ensures ok { IfOk result (λ parts. stated (message_of set.now) ≡ Some (parts_view parts)) }
    ensures refused { IfErr result (MayRefuseFiles (skips (message_of set.now))
        (kept_files (message_of set.now))) }
{
    let all_files = children(alloc, set, proto::SET_FILE)?;
    let all = all_files.as_slice();
    let skips = skips(all);
    let kept_files = kept(alloc, all)?;
    let files = kept_files.as_slice();
    files_parts(alloc, keys, skips, files)
}

// The parts that the bytes state.
fn bytes_parts(alloc: Global, bytes: &[u8]) -> Result<Parts, SetError>
    ensures ok { IfOk result (λ parts. fds_reads bytes.now parts) }
    ensures level { OnOk result (IsNotTooDeep bytes.now) }
    ensures refused { IfErr result (MayRefuseParts bytes.now) }
{
    let set = decoded(alloc, bytes)?;
    let message = SetMessage::new(&set);
    let keys = SetKeys::of(bytes);
    set_parts(alloc, keys, &message)
}

/// The parts of the schema that the bytes of a descriptor set state (descriptor.proto;
/// docs/PROOFS.md, "Descriptor sets"); which rules they keep isn't looked at. Files may come in any
/// order; those of the schema are in post-order of imports, begun at the set's in their order. File
/// after file, message types and services are numbered in order of declaration, a message type
/// before those inside it, and enums scope by scope, those of the package before those of each
/// message type.
///
/// The errors, over the whole set and in this order: `Bytes` where the codec refuses the bytes,
/// with messages nested at most 100 deep; `NotProto3` where a file isn't proto3; `BadType` where a
/// field has a type or a label that isn't taken, or no type; `BadReference` where the files state
/// nothing, since an import or a name isn't there, occurs twice or is of another kind, imports form
/// a cycle, an index is out of range, an `optional` field or an entry type isn't in its form, or an
/// entry type belongs to no field, or to several. A file `google/protobuf/descriptor.proto` that
/// isn't proto3 is left out, as are imports of it. `Memory` may come in place of any. The others,
/// but for messages nested too deep, come only where the bytes state no parts. The parts that are
/// answered are those that they state. Where they keep to the rules of a schema, that schema's own
/// set states them again.
pub fn read_parts(alloc: Global, bytes: &[u8]) -> Result<Parts, SetError>
    ensures ok { IfOk result (λ parts. fds_reads bytes.now parts) }
    ensures level { OnOk result (IsNotTooDeep bytes.now) }
    ensures refused { IfErr result (MayRefuseParts bytes.now) }
    ensures same { IfOk result (λ made. (parts : StatedParts) → fds_reads bytes.now parts
        → parts_view made ≡ parts_view parts) }
    ensures readable { IfOk result IsReadable }
    ensures none_stated { IfErr result (NoPartsAreStated bytes.now) }
{
    // Bytes whose first fault is another than a message too deep have no reading.
    faults_are_real();
    bytes_parts(alloc, bytes)
}
