//! Descriptor sets, written.

ghost use Rattle.std.specs.Prelude.{◌≡◌, ◌⊎◌, true, IfErr, IfOk};
ghost use Rattle.pg_dyn.specs.declared.error.DynError.TheVariants as faults;
ghost use Rattle.pg_schema.specs.standing.Nesting.{are_shallow};
ghost use Rattle.pg_fds.specs.declared.error.FdsError.TheVariants as errors;
ghost use Rattle.pg_set.specs.round_trip.Readable.{IsReadable};
ghost use Rattle.pg_set.specs.stated.Reads.{IsNotTooDeep, fds_reads};
ghost use Rattle.pg_set.specs.writing.Set.{fds};
ghost use Rattle.pg_set.specs.writing.Written.{HasNoSet};

use crate::error::FdsError;
use pg_schema::Schema;
use std::alloc::Global;

/// The bytes of the schema's descriptor set: a `FileDescriptorSet` of its files, in their order
/// (descriptor.proto; docs/PROOFS.md, "Descriptor sets"). They are those of the definition, and at
/// most 2,147,483,647. They state the schema, as `read` asks it of a set, where each file
/// comes after those that it imports, no path twice, messages are nested at most 100 deep, and all
/// is numbered as `read` numbers it. Where messages are nested at most 64 deep, no message of the
/// set is deeper than `read` takes.
///
/// The errors are `Memory`, and `Bytes` of `TooLong`: only where the set would have more than
/// 2,147,483,647 bytes.
pub fn write(alloc: Global, schema: &Schema) -> Result<Vec<u8>, FdsError>
    ensures ok { IfOk result (λ bytes. fds schema.now bytes.items) }
    ensures stated { IfOk result (λ bytes. IsReadable schema.now
        → fds_reads bytes.items schema.now) }
    ensures shallow { IfOk result (λ bytes. are_shallow schema.now ≡ true
        → IsNotTooDeep bytes.items) }
    ensures err { IfErr result (λ e. (e ≡ errors.Memory)
        ⊎ ((e ≡ errors.Bytes faults.TooLong) × HasNoSet schema.now)) }
{
    match pg_set::write(alloc, schema) {
        Ok(bytes) => Ok(bytes),
        Err(error) => Err(FdsError::from(error)),
    }
}
