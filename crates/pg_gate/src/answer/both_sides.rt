//! Two sides that are compiled, the old one first.
ghost use Rattle.std.specs.Prelude.{IfErr, IfOk};
ghost use Rattle.pg_gate.specs.Failures.{side_failures};
ghost use Rattle.pg_call.specs.Paths.{paths_in};
ghost use Rattle.pg_gate.specs.answer.Files.{IsSide};
ghost use Rattle.pg_gate.specs.answer.Grants.{IsSidesError};
ghost use Rattle.pg_link.specs.walk.Reads.{Reads};
ghost use Rattle.pg_gate.specs.inner.Sources.{world_of};

use crate::answer::compile::{Compiled, compile_files};
use crate::error::GateError;
use pg_call::BothFiles;
use pg_lines::Side;
use pg_link::Sources;
use std::alloc::Global;

/// Two sides that compiled.
#[derive(Drop)]
pub(crate) struct BothSides {
    pub old: Compiled,
    pub new: Compiled,
}

/// The schemas of two sides. Their linked files are kept only where that is asked for.
pub(crate) fn compile_both<S: Sources, T: Sources>(
    alloc: Global,
    files: &BothFiles<'_>,
    keep_files: bool,
    old: &mut S,
    new: &mut T,
) -> Result<BothSides, GateError>
    ensures old_compiled { IfOk result (λ both. IsSide
        (world_of S.Sources old.old (paths_in files.now.old)) both.old.schema) }
    ensures new_compiled { IfOk result (λ both. IsSide
        (world_of T.Sources new.old (paths_in files.now.new)) both.new.schema) }
    ensures refused { IfErr result (IsSidesError
        (world_of S.Sources old.old (paths_in files.now.old))
        (world_of T.Sources new.old (paths_in files.now.new))) }
    ensures old_reads { Reads S.Sources old.old old.new (side_failures Side.Old result) }
    ensures new_reads { Reads T.Sources new.old new.new (side_failures Side.New result) }
{
    let compiled = compile_files(alloc, old, Side::Old, &files.old)?;
    let old_side = compiled.with_files(keep_files);
    let new_side = compile_files(alloc, new, Side::New, &files.new)?;
    Ok(BothSides {
        old: old_side,
        new: new_side.with_files(keep_files),
    })
}
