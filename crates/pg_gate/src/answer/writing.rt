//! The descriptor set of files.
ghost use Rattle.std.specs.Prelude.{IfErr, IfOk};
ghost use Rattle.pg_gate.specs.Failures.{side_failures};
ghost use Rattle.pg_call.specs.Paths.{paths_in};
ghost use Rattle.pg_gate.specs.answer.Files.{IsErrorOf, IsFaultOfSet, IsSetOf};
ghost use Rattle.pg_link.specs.walk.Reads.{Reads};
ghost use Rattle.pg_gate.specs.inner.Sources.{world_of};

use crate::answer::compile::compile_sources;
use crate::error::{Fault, GateError};
use pg_call::Files;
use pg_fds::{FdsError, write};
use pg_lines::Side;
use pg_link::Sources;
use std::alloc::Global;

/// The set of the source files at these paths, and of all that they import.
pub(crate) fn written<S: Sources>(
    alloc: Global,
    source: &mut S,
    files: &Files<'_>,
) -> Result<Vec<u8>, GateError>
    ensures written { IfOk result (λ bytes.
        IsSetOf (world_of S.Sources source.old (paths_in files.now)) bytes.items) }
    ensures refused { IfErr result (IsErrorOf
        (IsFaultOfSet (world_of S.Sources source.old (paths_in files.now))) Side.Old) }
    ensures reads { Reads S.Sources source.old source.new (side_failures Side.Old result) }
{
    // The files go before the set is made, which takes as much memory.
    let schema = compile_sources(alloc, source, Side::Old, files)?.schema;
    match write(alloc, &schema) {
        Ok(bytes) => Ok(bytes),
        Err(FdsError::Memory) => Err(GateError::Memory),
        Err(error) => Err(GateError::Compile(Side::Old, Fault::Set(error))),
    }
}
