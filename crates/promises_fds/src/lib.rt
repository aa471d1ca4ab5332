//! The promises of `pg_fds` said again of calls of it: the edits of `must-fail` turn each answer,
//! and every one must be refused.
#![tactic(auto)]

ghost use Rattle.std.specs.Prelude.{◌≡◌, ◌⊎◌, true, IfErr, IfOk, OnOk};
ghost use Rattle.pg_dyn.specs.declared.error.DynError.TheVariants as faults;
ghost use Rattle.pg_schema.specs.declared.parts.Parts.{Parts as StatedParts};
ghost use Rattle.pg_schema.specs.standing.Nesting.{are_shallow};
ghost use Rattle.pg_schema.specs.rules.Sound.{IsSound};
ghost use Rattle.pg_fds.specs.declared.error.FdsError.TheVariants as errors;
ghost use Rattle.pg_fds.specs.round_trip.ReadAgain.{IsTooLong, MayRefuseAgain, SetStates};
ghost use Rattle.pg_fds.specs.refusals.ErrorCodes as codes;
ghost use Rattle.pg_fds.specs.refusals.Refused.{MayRefuseSet, NoneIsStated};
ghost use Rattle.pg_fds.specs.refusals.SetErrors.{of_set};
ghost use Rattle.pg_set.specs.round_trip.Readable.{IsReadAgain, IsReadable};
ghost use Rattle.pg_set.specs.stated.Reads.{IsNotTooDeep, fds_reads};
ghost use Rattle.pg_set.specs.stated.Views.{parts_view};
ghost use Rattle.pg_set.specs.writing.Set.{fds};
ghost use Rattle.pg_set.specs.writing.Written.{HasNoSet};

use pg_fds::FdsError;
use pg_schema::Schema;
use pg_set::SetError;
use std::alloc::{AllocError, AllocFailed, Global};

/// What `FdsError::code` answers.
pub fn code(error: &FdsError) -> u16
    ensures { result ≡ codes.code_of error.now }
{
    error.code()
}

/// What `FdsError::at` answers.
pub fn at(error: &FdsError) -> Option<usize>
    ensures { result ≡ codes.place_of error.now }
{
    error.at()
}

/// What `FdsError::from` answers of a refused growth.
pub fn error_of(error: AllocError) -> FdsError
    ensures { result ≡ errors.Memory }
{
    FdsError::from(error)
}

/// What `FdsError::from` answers of a refused growth that hands back a value.
pub fn error_of_failed<T: Drop>(failed: AllocFailed<T>) -> FdsError
    ensures { result ≡ errors.Memory }
{
    FdsError::from(failed)
}

/// What `FdsError::from` answers of a set that can't be written, or states no parts.
pub fn error_of_set(set: SetError) -> FdsError
    ensures { result ≡ of_set set }
{
    FdsError::from(set)
}

/// What `write` answers.
pub fn write(alloc: Global, written: &Schema) -> Result<Vec<u8>, FdsError>
    ensures ok { IfOk result (λ bytes. fds written.now bytes.items) }
    ensures stated { IfOk result (λ bytes. IsReadable written.now
        → fds_reads bytes.items written.now) }
    ensures shallow { IfOk result (λ bytes. are_shallow written.now ≡ true
        → IsNotTooDeep bytes.items) }
    ensures err { IfErr result (λ e. (e ≡ errors.Memory)
        ⊎ ((e ≡ errors.Bytes faults.TooLong) × HasNoSet written.now)) }
{
    pg_fds::write(alloc, written)
}

/// What `read` answers: a schema that the set states, and that its own set states again.
pub fn read(alloc: Global, bytes: &[u8]) -> Result<Schema, FdsError>
    ensures stated { IfOk result (λ schema. fds_reads bytes.now schema) }
    ensures readable { IfOk result IsReadable }
{
    pg_fds::read(alloc, bytes)
}

/// How deep the messages are nested in a set of which `read` answers a schema.
pub fn read_level(alloc: Global, nested: &[u8]) -> Result<Schema, FdsError>
    ensures { OnOk result (IsNotTooDeep nested.now) }
{
    pg_fds::read(alloc, nested)
}

/// The one view of all parts that a set states, which the schema has that `read` answers.
pub fn read_same(alloc: Global, stating: &[u8]) -> Result<Schema, FdsError>
    ensures { IfOk result (λ schema. (parts : StatedParts) → fds_reads stating.now parts
        → parts_view schema ≡ parts_view parts) }
{
    pg_fds::read(alloc, stating)
}

/// What `read` refuses.
pub fn read_refused(alloc: Global, bad: &[u8]) -> Result<Schema, FdsError>
    ensures refused { IfErr result (MayRefuseSet bad.now) }
    ensures none_stated { IfErr result (NoneIsStated bad.now) }
{
    pg_fds::read(alloc, bad)
}

/// What `read_again` answers.
pub fn read_again(alloc: Global, schema: &Schema) -> Result<Schema, FdsError>
    ensures stated { IfOk result (SetStates schema.now) }
    ensures sound { IfOk result IsSound }
    ensures same { IfOk result (λ made. IsReadAgain schema.now
        → parts_view made ≡ parts_view schema.now) }
{
    pg_fds::read_again(alloc, schema)
}

/// What `read_again` refuses.
pub fn read_again_refused(alloc: Global, standing: &Schema) -> Result<Schema, FdsError>
    ensures refused { IfErr result (λ e. IsReadAgain standing.now
        → (e ≡ errors.Memory) ⊎ IsTooLong standing.now e) }
    ensures reported { IfErr result (MayRefuseAgain standing.now) }
{
    pg_fds::read_again(alloc, standing)
}
