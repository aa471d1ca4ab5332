//! Descriptor sets, written.

mod draft;
mod entries;
mod enums;
pub(crate) mod fields;
mod files;
mod messages;
mod records;
mod scope;
mod services;
mod synthetic;

ghost use Rattle.std.specs.Prelude.{◌≡◌, ◌⊎◌, false, true, IfErr, IfOk};
ghost use Rattle.std.specs.List.{list_all};
ghost use Rattle.pg_dyn.specs.declared.error.DynError.TheVariants as faults;
ghost use Rattle.pg_schema.specs.standing.Nesting.{are_shallow};
ghost use Rattle.pg_set.specs.declared.error.SetError.TheVariants as errors;
ghost use Rattle.pg_set.specs.round_trip.Readable.{IsReadable};
ghost use Rattle.pg_set.specs.stated.Reads.{IsNotTooDeep, fds_reads};
ghost use Rattle.pg_set.specs.inner.writing.Drafts.{IsEncodingOf};
ghost use Rattle.pg_set.specs.writing.Set.{fds};
ghost use Rattle.pg_set.specs.writing.Written.{HasNoSet};
ghost use Rattle.pg_set.specs.inner.writing.PutParts.{set_items};
ghost use Rattle.pg_set.specs.inner.writing.Writable.{has_counted_imports};

use crate::descriptor::places::SET;
use crate::descriptor::proto;
use crate::error::SetError;
use crate::writing::draft::Writer;
use crate::writing::files::files;
use pg_dyn::laws::{encoding_spells, reads_again, writing_splits};
use pg_dyn::{DynError, MAX_ENCODING_LEN};
use pg_schema::{File, Parts, Schema};
use pg_wire::laws::lengths_grow;
use std::alloc::{AllocError, Global};

// An int32 counts up to this.
const MAX_COUNT: usize = 2147483647;

// The indices of each file's imports are those of an int32.
fn have_counted_imports(files: &[File]) -> bool
    ensures { result ≡ list_all has_counted_imports files.now }
{
    for file in files {
        if file.imports.len() > MAX_COUNT {
            return false;
        }
    }
    true
}

// The indices of imports are those of an int32. Where they aren't, the set is too long: an import
// takes two bytes at least.
#[tactic(auto, using(crate::proofs::lemmas::writing::LongSets::set_too_long))]
fn are_counted(parts: &Parts) -> bool
    ensures counted { result ≡ list_all has_counted_imports parts.now.files.items }
    ensures too_long { result ≡ false → HasNoSet parts.now }
{
    lengths_grow();
    have_counted_imports(&parts.files)
}

// The bytes of the set's message.
fn set(alloc: Global, source: &Schema) -> Result<Vec<u8>, AllocError>
    requires { list_all has_counted_imports source.now.files.items ≡ true }
    ensures { IfOk result (λ bytes. IsEncodingOf SET (set_items source.now) bytes.items) }
{
    // What holds of every schema.
    let parts = source.parts();
    let writer = Writer::new(alloc, source);
    let mut draft = writer.draft(SET);
    draft.put_children(proto::SET_FILE, files(&writer, &parts.files)?)?;
    Ok(draft.into_bytes())
}

/// The bytes of the schema's descriptor set: a `FileDescriptorSet` of its files, in their order
/// (descriptor.proto; docs/PROOFS.md, "Descriptor sets"). They are those of the definition, and at
/// most 2,147,483,647. They state the schema, as `read_parts` asks it of a set, where each file
/// comes after those that it imports, no path twice, messages are nested at most 100 deep, and all
/// is numbered as `read_parts` numbers it. Where messages are nested at most 64 deep, no message of
/// the set is deeper than `read_parts` takes.
///
/// The errors are `Memory`, and `Bytes` of `TooLong`: only where the set would have more than
/// 2,147,483,647 bytes.
pub fn write(alloc: Global, schema: &Schema) -> Result<Vec<u8>, SetError>
    ensures ok { IfOk result (λ bytes. fds schema.now bytes.items) }
    ensures stated { IfOk result (λ bytes. IsReadable schema.now
        → fds_reads bytes.items schema.now) }
    ensures shallow { IfOk result (λ bytes. are_shallow schema.now ≡ true
        → IsNotTooDeep bytes.items) }
    ensures err { IfErr result (λ e. (e ≡ errors.Memory)
        ⊎ ((e ≡ errors.Bytes faults.TooLong) × HasNoSet schema.now)) }
{
    // What holds of every schema.
    let parts = schema.parts();
    if !are_counted(parts) {
        return Err(SetError::Bytes(DynError::TooLong));
    }
    // What holds of what is written.
    reads_again();
    encoding_spells();
    writing_splits();
    let bytes = set(alloc, schema)?;
    if bytes.len() > MAX_ENCODING_LEN {
        return Err(SetError::Bytes(DynError::TooLong));
    }
    Ok(bytes)
}
