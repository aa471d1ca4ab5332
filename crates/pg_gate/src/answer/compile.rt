//! A side's schema, from the source files or the descriptor set that its source gives.
ghost use Rattle.std.specs.Prelude.{◌≡◌, Some, IfErr, IfOk};
ghost use Rattle.pg_link.specs.Linked.{IsLinkedUp};
ghost use Rattle.pg_link.specs.walk.Walk.{IsLinked};
ghost use Rattle.pg_check.specs.Declares.{Declares};
ghost use Rattle.pg_check.specs.parts.Sources.{linked_sources};
ghost use Rattle.pg_gate.specs.Failures.{side_failures};
ghost use Rattle.pg_call.specs.Paths.{paths_in};
ghost use Rattle.pg_gate.specs.answer.Files.{IsCompiled, IsErrorOf, IsFaultOf, IsSide, IsSideBy, IsSideError, IsSideFaultBy};
ghost use Rattle.pg_link.specs.walk.Reads.{Reads};
ghost use Rattle.pg_gate.specs.inner.Sources.{world_of};
ghost use Rattle.pg_gate.specs.inner.Faults.{IsOfLink, IsOfRules};

use crate::answer::folders::link_including;
use crate::answer::sets::{read_set, set_at};
use crate::error::{Fault, GateError};
use pg_call::Files;
use pg_check::{CheckError, build};
use pg_lines::Side;
use pg_link::{LinkError, Linked, Sources};
use pg_schema::Schema;
use std::alloc::Global;

/// The linked files of a side.
#[tactic(auto, using(crate::proofs::lemmas::ErrorLemmas::if_same_side))]
fn linked_files<S: Sources>(
    alloc: Global,
    source: &mut S,
    side: Side,
    files: &Files<'_>,
) -> Result<Linked, GateError>
    ensures linked { IfOk result (λ linked.
        IsLinked (world_of S.Sources source.old (paths_in files.now)) linked.files) }
    ensures settled { IfOk result IsLinkedUp }
    ensures refused { IfErr result (IsErrorOf
        (IsOfLink (world_of S.Sources source.old (paths_in files.now))) side) }
    ensures reads { Reads S.Sources source.old source.new (side_failures side result) }
{
    match link_including(alloc, source, files.folder, files.includes, files.paths) {
        Ok(linked) => Ok(linked),
        Err(LinkError::Memory) => Err(GateError::Memory),
        Err(error) => Err(GateError::Compile(side, Fault::Link(error))),
    }
}

/// The schema that linked files declare.
fn schema_of(alloc: Global, side: Side, linked: &Linked) -> Result<Schema, GateError>
    ensures declared { IfOk result (Declares (linked_sources linked.now.files)) }
    ensures refused { IfErr result (IsErrorOf (IsOfRules linked.now.files) side) }
{
    match build(alloc, linked) {
        Ok(schema) => Ok(schema),
        Err(CheckError::Memory) => Err(GateError::Memory),
        Err(error) => Err(GateError::Compile(side, Fault::Check(error))),
    }
}

/// A side that compiled: its schema, and the files that declare it, where these are kept. A
/// descriptor set has none.
#[derive(Drop)]
pub(crate) struct Compiled {
    pub schema: Schema,
    pub files: Option<Linked>,
}

impl Compiled {
    /// The side without its files, unless they are to be kept.
    pub(crate) fn with_files(self, keep: bool) -> Compiled
        ensures { result.schema ≡ self.schema }
    {
        if keep {
            return self;
        }
        Compiled {
            schema: self.schema,
            files: None,
        }
    }
}

/// The schema of linked files, with its files.
fn compile_linked(alloc: Global, side: Side, linked: Linked) -> Result<Compiled, GateError>
    ensures declared { IfOk result (λ compiled.
        Declares (linked_sources linked.files) compiled.schema) }
    ensures refused { IfErr result (IsErrorOf (IsOfRules linked.files) side) }
{
    match schema_of(alloc, side, &linked) {
        Ok(schema) => Ok(Compiled {
            schema,
            files: Some(linked),
        }),
        Err(error) => Err(error),
    }
}

/// The schema of source files, with these: those at the paths, and all that they import.
#[tactic(auto, using(crate::proofs::lemmas::ErrorLemmas::if_same_zero))]
pub(crate) fn compile_sources<S: Sources>(
    alloc: Global,
    source: &mut S,
    side: Side,
    files: &Files<'_>,
) -> Result<Compiled, GateError>
    ensures compiled { IfOk result (λ compiled.
        IsCompiled (world_of S.Sources source.old (paths_in files.now)) compiled.schema) }
    ensures refused { IfErr result (IsErrorOf
        (IsFaultOf (world_of S.Sources source.old (paths_in files.now))) side) }
    ensures reads { Reads S.Sources source.old source.new (side_failures side result) }
{
    match linked_files(alloc, source, side, files) {
        Ok(linked) => compile_linked(alloc, side, linked),
        Err(error) => Err(error),
    }
}

/// The schema of the descriptor set at this path of the files, which has no source files.
fn compile_set<S: Sources>(
    alloc: Global,
    source: &mut S,
    side: Side,
    files: &Files<'_>,
    path: &str,
) -> Result<Compiled, GateError>
    ensures stated { IfOk result (λ compiled. IsSideBy (Some path.now)
        (world_of S.Sources source.old (paths_in files.now)) compiled.schema) }
    ensures refused { IfErr result (IsErrorOf (IsSideFaultBy (Some path.now)
        (world_of S.Sources source.old (paths_in files.now))) side) }
    ensures reads { Reads S.Sources source.old source.new (side_failures side result) }
{
    let schema = read_set(alloc, source, side, files, path)?;
    Ok(Compiled {
        schema,
        files: None,
    })
}

/// A side's schema with its files: that of the set at its path, or else of the source files at its
/// paths and all that they import.
pub(crate) fn compile_files<S: Sources>(
    alloc: Global,
    source: &mut S,
    side: Side,
    files: &Files<'_>,
) -> Result<Compiled, GateError>
    ensures compiled { IfOk result (λ compiled.
        IsSide (world_of S.Sources source.old (paths_in files.now)) compiled.schema) }
    ensures refused { IfErr result (IsSideError
        (world_of S.Sources source.old (paths_in files.now)) side) }
    ensures reads { Reads S.Sources source.old source.new (side_failures side result) }
{
    match set_at(files.paths) {
        Some(path) => compile_set(alloc, source, side, files, path),
        None => compile_sources(alloc, source, side, files),
    }
}
