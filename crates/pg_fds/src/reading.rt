//! Descriptor sets, read.

ghost use Rattle.std.specs.Prelude.{◌≡◌, IfErr, IfOk, OnOk};
ghost use Rattle.pg_schema.specs.declared.parts.Parts.{Parts as StatedParts};
ghost use Rattle.pg_schema.specs.rules.Sound.{IsSound};
ghost use Rattle.pg_check.specs.admitting.PartErrors.{IsRefusedOf};
ghost use Rattle.pg_set.specs.round_trip.Readable.{IsReadable};
ghost use Rattle.pg_set.specs.stated.Reads.{IsNotTooDeep, fds_reads};
ghost use Rattle.pg_set.specs.stated.Views.{parts_view};
ghost use Rattle.pg_fds.specs.inner.OfRules.{IsOfRules};
ghost use Rattle.pg_fds.specs.refusals.Refused.{MayRefuseSet, NoneIsStated};

use crate::error::FdsError;
use pg_check::{CheckError, admit};
use pg_schema::{Parts, Schema};
use pg_set::laws::alike_are_sound;
use pg_set::read_parts;
use std::alloc::Global;

// What is reported of parts that are refused so.
fn reported(error: CheckError) -> FdsError
    ensures { (parts : StatedParts) → IsRefusedOf parts error → IsOfRules parts result }
{
    match error {
        CheckError::Memory => FdsError::Memory,
        _ => FdsError::Rule(error),
    }
}

// The schema of the parts, where they keep to the rules.
fn admitted(alloc: Global, parts: Parts) -> Result<Schema, FdsError>
    ensures ok { IfOk result (λ schema. schema ≡ parts) }
    ensures sound { IfOk result IsSound }
    ensures refused { IfErr result (IsOfRules parts) }
{
    match admit(alloc, parts) {
        Ok(schema) => Ok(schema),
        Err(error) => Err(reported(error)),
    }
}

/// The schema that the bytes of a descriptor set state (descriptor.proto; docs/PROOFS.md,
/// "Descriptor sets"). Files may come in any order; those of the schema are in post-order of
/// imports, begun at the set's in their order. File after file, message types and services are
/// numbered in order of declaration, a message type before those inside it, and enums scope by
/// scope, those of the package before those of each message type.
///
/// The errors, over the whole set and in this order: `Bytes` where the codec refuses the bytes,
/// with messages nested at most 100 deep; `NotProto3` where a file isn't proto3; `BadType` where a
/// field has a type or a label that isn't taken, or no type; `BadReference` where the files state
/// nothing, since an import or a name isn't there, occurs twice or is of another kind, imports form
/// a cycle, an index is out of range, an `optional` field or an entry type isn't in its form, or an
/// entry type belongs to no field, or to several; `Rule` with the error of the first rule that what
/// they state breaks. A file `google/protobuf/descriptor.proto` that isn't proto3 is left out, as
/// are imports of it. `Memory` may come in place of any. The others, but for messages nested too
/// deep, come only where the bytes state no schema. The schema that is answered is the one that
/// they state, and one whose own set states it again: so `read_again` gives it back where message
/// types are nested at most 64 deep.
pub fn read(alloc: Global, bytes: &[u8]) -> Result<Schema, FdsError>
    ensures ok { IfOk result (λ schema. fds_reads bytes.now schema) }
    ensures sound { IfOk result IsSound }
    ensures level { OnOk result (IsNotTooDeep bytes.now) }
    ensures refused { IfErr result (MayRefuseSet bytes.now) }
    ensures same { IfOk result (λ schema. (parts : StatedParts) → fds_reads bytes.now parts
        → parts_view schema ≡ parts_view parts) }
    ensures readable { IfOk result IsReadable }
    ensures none_stated { IfErr result (NoneIsStated bytes.now) }
{
    // What keeps to the rules is told by what is shown.
    alike_are_sound();
    // The message of the set is dropped with this call, so that it takes no memory while the rules
    // are tested.
    let parts = read_parts(alloc, bytes)?;
    admitted(alloc, parts)
}
