//! The promises of `pg_set` said again of calls of it: the edits of `must-fail` turn each answer,
//! and every one must be refused.
#![tactic(auto)]

ghost use Rattle.std.specs.Prelude.{◌≡◌, ◌⊎◌, true, IfErr, IfOk, OnOk};
ghost use Rattle.pg_schema.specs.Parts.{shape_of};
ghost use Rattle.pg_schema.specs.declared.parts.Parts.{Parts as StatedParts};
ghost use Rattle.pg_dyn.specs.declared.error.DynError.TheVariants as faults;
ghost use Rattle.pg_schema.specs.standing.Nesting.{are_shallow};
ghost use Rattle.pg_set.specs.declared.error.SetError.TheVariants as errors;
ghost use Rattle.pg_set.specs.round_trip.Readable.{IsReadable};
ghost use Rattle.pg_set.specs.stated.Reads.{IsNotTooDeep, fds_reads};
ghost use Rattle.pg_set.specs.refusals.ErrorCodes as codes;
ghost use Rattle.pg_set.specs.refusals.Refused.{MayRefuseParts, NoPartsAreStated};
ghost use Rattle.pg_set.specs.descriptor.Descriptor.{descriptor_shape};
ghost use Rattle.pg_set.specs.descriptor.DescriptorParts.{descriptor_parts};
ghost use Rattle.pg_set.specs.writing.Set.{fds};
ghost use Rattle.pg_set.specs.stated.Views.{parts_view};
ghost use Rattle.pg_set.specs.writing.Written.{HasNoSet};

use memchr::memmem;
use pg_schema::{Parts, Schema};
use pg_set::SetError;
use std::alloc::{AllocError, AllocFailed, Global};

/// The offset of the part's first occurrence, or 0 where there is none. Only edits ask for it.
pub fn place_of(bytes: &[u8], part: &[u8]) -> usize {
    memmem::find(bytes, part).unwrap_or(0)
}

/// What `SetError::code` answers.
pub fn code(error: &SetError) -> u16
    ensures { result ≡ codes.code_of error.now }
{
    error.code()
}

/// What `SetError::at` answers.
pub fn at(error: &SetError) -> Option<usize>
    ensures { result ≡ codes.place_of error.now }
{
    error.at()
}

/// What `descriptor_schema` answers.
pub fn descriptor_schema(alloc: Global) -> Result<Schema, AllocError>
    ensures parts { IfOk result (λ schema. parts_view schema ≡ descriptor_parts) }
    ensures shape { IfOk result (λ schema. shape_of schema ≡ descriptor_shape) }
{
    pg_set::descriptor_schema(alloc)
}

/// What `write` answers: the set.
pub fn write(alloc: Global, schema: &Schema) -> Result<Vec<u8>, SetError>
    ensures { IfOk result (λ bytes. fds schema.now bytes.items) }
{
    pg_set::write(alloc, schema)
}

/// What is read of what `write` answers.
pub fn write_stated(alloc: Global, readable: &Schema) -> Result<Vec<u8>, SetError>
    ensures { IfOk result (λ bytes. IsReadable readable.now
        → fds_reads bytes.items readable.now) }
{
    pg_set::write(alloc, readable)
}

/// How deep the messages are nested in what `write` answers.
pub fn write_shallow(alloc: Global, nested: &Schema) -> Result<Vec<u8>, SetError>
    ensures { IfOk result (λ bytes. are_shallow nested.now ≡ true → IsNotTooDeep bytes.items) }
{
    pg_set::write(alloc, nested)
}

/// What `write` refuses.
pub fn write_refused(alloc: Global, too_long: &Schema) -> Result<Vec<u8>, SetError>
    ensures { IfErr result (λ e. (e ≡ errors.Memory)
        ⊎ ((e ≡ errors.Bytes faults.TooLong) × HasNoSet too_long.now)) }
{
    pg_set::write(alloc, too_long)
}

/// What `read_parts` answers: parts that the set states.
pub fn read_parts(alloc: Global, set: &[u8]) -> Result<Parts, SetError>
    ensures stated { IfOk result (λ parts. fds_reads set.now parts) }
    ensures readable { IfOk result IsReadable }
{
    pg_set::read_parts(alloc, set)
}

/// How deep the messages are nested in a set of which `read_parts` answers parts.
pub fn read_parts_level(alloc: Global, nested: &[u8]) -> Result<Parts, SetError>
    ensures { OnOk result (IsNotTooDeep nested.now) }
{
    pg_set::read_parts(alloc, nested)
}

/// The one view of all parts that a set states, which those have that `read_parts` answers.
pub fn read_parts_same(alloc: Global, stating: &[u8]) -> Result<Parts, SetError>
    ensures { IfOk result (λ made. (parts : StatedParts) → fds_reads stating.now parts
        → parts_view made ≡ parts_view parts) }
{
    pg_set::read_parts(alloc, stating)
}

/// What `read_parts` refuses.
pub fn read_parts_refused(alloc: Global, bad: &[u8]) -> Result<Parts, SetError>
    ensures refused { IfErr result (MayRefuseParts bad.now) }
    ensures none_stated { IfErr result (NoPartsAreStated bad.now) }
{
    pg_set::read_parts(alloc, bad)
}

/// What `SetError::from` answers of a refused growth.
pub fn error_of(error: AllocError) -> SetError
    ensures { result ≡ errors.Memory }
{
    SetError::from(error)
}

/// What `SetError::from` answers of a refused growth that hands back a value.
pub fn error_of_failed<T: Drop>(failed: AllocFailed<T>) -> SetError
    ensures { result ≡ errors.Memory }
{
    SetError::from(failed)
}
