//! Sides that are descriptor sets.
ghost use Rattle.std.specs.Prelude.{◌≡◌, Some, IfErr, IfOk, option_map};
ghost use Rattle.pg_gate.specs.Failures.{side_failures};
ghost use Rattle.pg_call.specs.Paths.{paths_in, paths_of};
ghost use Rattle.pg_gate.specs.answer.Files.{IsErrorOf, IsSideBy, IsSideFaultBy, IsStated};
ghost use Rattle.pg_gate.specs.answer.Files as spec;
ghost use Rattle.pg_link.specs.walk.Reads.{Reads};
ghost use Rattle.pg_link.specs.walk.Walk.{Gives};
ghost use Rattle.pg_gate.specs.inner.Sources.{world_of};
ghost use Rattle.pg_gate.specs.inner.Faults.{IsFaultOfBytes, IsGivenFault};

use crate::answer::folders::read_including;
use crate::error::{Fault, GateError};
use pg_call::Files;
use pg_fds::{FdsError, read};
use pg_lines::Side;
use pg_link::{LinkError, Sources};
use pg_schema::Schema;
use std::alloc::Global;

/// Whether a file of this path is a source file. Any other is a descriptor set.
fn is_source_file(path: &str) -> bool
    ensures { result ≡ spec.is_source_file path.now }
{
    path.as_bytes().ends_with(b".proto")
}

/// The path of the set, where a side of these paths is one.
pub(crate) fn set_at<'a>(paths: &[&'a str]) -> Option<&'a str>
    ensures { option_map (λ path. path.now) result ≡ spec.set_at (paths_of paths.now) }
{
    match paths {
        [path] if !is_source_file(path) => Some(path),
        _ => None,
    }
}

/// The bytes of the set.
#[tactic(auto, using(crate::proofs::lemmas::ErrorLemmas::if_same_side))]
fn bytes_of<S: Sources>(
    alloc: Global,
    source: &mut S,
    side: Side,
    files: &Files<'_>,
    path: &str,
) -> Result<Vec<u8>, GateError>
    ensures given { IfOk result (λ bytes.
        Gives (world_of S.Sources source.old (paths_in files.now)) path.now bytes.items) }
    ensures refused { IfErr result (IsErrorOf
        (IsGivenFault (world_of S.Sources source.old (paths_in files.now)) path.now) side) }
    ensures reads { Reads S.Sources source.old source.new (side_failures side result) }
{
    match read_including(alloc, source, files.folder, files.includes, path) {
        Ok(bytes) => Ok(bytes),
        Err(LinkError::Memory) => Err(GateError::Memory),
        Err(error) => Err(GateError::Compile(side, Fault::Link(error))),
    }
}

/// The schema that the bytes state, which keeps to the rules.
fn stated(alloc: Global, side: Side, bytes: &[u8]) -> Result<Schema, GateError>
    ensures stated { IfOk result (IsStated bytes.now) }
    ensures refused { IfErr result (IsErrorOf (IsFaultOfBytes bytes.now) side) }
{
    match read(alloc, bytes) {
        Ok(schema) => Ok(schema),
        Err(FdsError::Memory) => Err(GateError::Memory),
        Err(error) => Err(GateError::Compile(side, Fault::Set(error))),
    }
}

/// The schema of the set at this path of the files.
#[tactic(auto, using(crate::proofs::lemmas::ErrorLemmas::if_same_zero))]
pub(crate) fn read_set<S: Sources>(
    alloc: Global,
    source: &mut S,
    side: Side,
    files: &Files<'_>,
    path: &str,
) -> Result<Schema, GateError>
    ensures stated { IfOk result (IsSideBy (Some path.now)
        (world_of S.Sources source.old (paths_in files.now))) }
    ensures refused { IfErr result (IsErrorOf (IsSideFaultBy (Some path.now)
        (world_of S.Sources source.old (paths_in files.now))) side) }
    ensures reads { Reads S.Sources source.old source.new (side_failures side result) }
{
    let bytes = bytes_of(alloc, source, side, files, path)?;
    stated(alloc, side, &bytes)
}
