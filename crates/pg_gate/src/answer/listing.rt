//! What is answered of all files of a side, with those that its list names.
ghost use Rattle.std.specs.Prelude.{◌≡◌, IfErr, IfOk};
ghost use Rattle.pg_call.specs.Paths.{both_paths, paths_in};
ghost use Rattle.pg_link.specs.walk.Reads.{Reads};
ghost use Rattle.pg_gate.specs.Failures.{side_failures};
ghost use Rattle.pg_gate.specs.answer.AllTypes.{IsAllTypes};
ghost use Rattle.pg_gate.specs.answer.Files.{IsErrorOf, IsFaultOfSet, IsFaultOfSide, IsSetOf};
ghost use Rattle.pg_gate.specs.answer.Grants.{Between, IsAllError, IsListedFault, Listed, OfSide, seen};
ghost use Rattle.pg_gate.specs.answer.TypeNames.{ListsTypes};

use crate::answer::all_types::AllTypes;
use crate::answer::dispatch::find_all;
use crate::answer::lists::{all_paths, at_paths, copied, list_of};
use crate::answer::type_names::type_names;
use crate::answer::writing::written;
use crate::error::GateError;
use pg_call::{BothFiles, Files, GateAllCall};
use pg_lines::Side;
use pg_link::Sources;
use std::alloc::Global;

/// The descriptor set of all files of a side.
pub(crate) fn all_written<S: Sources>(
    alloc: Global,
    source: &mut S,
    files: &Files<'_>,
) -> Result<Vec<u8>, GateError>
    ensures written { IfOk result (λ bytes. Listed (S.may_give source.old)
        (S.may_lack source.old) (paths_in files.now) (λ w. IsSetOf w bytes.items)) }
    ensures refused { IfErr result (IsErrorOf (IsListedFault (S.may_give source.old)
        (S.may_lack source.old) (paths_in files.now) IsFaultOfSet) Side.Old) }
    ensures reads { Reads S.Sources source.old source.new (side_failures Side.Old result) }
{
    let list = list_of(alloc, source, Side::Old, files)?;
    let paths = all_paths(alloc, Side::Old, files, &list)?;
    let includes = copied(alloc, files.includes)?;
    written(alloc, source, &at_paths(files.folder, &includes, &paths))
}

/// The names of the message types of all files of a side.
pub(crate) fn all_names<S: Sources>(
    alloc: Global,
    source: &mut S,
    files: &Files<'_>,
) -> Result<Vec<String>, GateError>
    ensures named { IfOk result (λ names. Listed (S.may_give source.old) (S.may_lack source.old)
        (paths_in files.now) (λ w. OfSide w (λ schema. ListsTypes schema names.items))) }
    ensures refused { IfErr result (IsErrorOf (IsListedFault (S.may_give source.old)
        (S.may_lack source.old) (paths_in files.now) IsFaultOfSide) Side.Old) }
    ensures reads { Reads S.Sources source.old source.new (side_failures Side.Old result) }
{
    let list = list_of(alloc, source, Side::Old, files)?;
    let paths = all_paths(alloc, Side::Old, files, &list)?;
    let includes = copied(alloc, files.includes)?;
    type_names(alloc, source, &at_paths(files.folder, &includes, &paths))
}

/// What is found of all message types of all files of two sides.
pub(crate) fn all_found<S: Sources, T: Sources>(
    alloc: Global,
    asked: &GateAllCall<'_>,
    old: &mut S,
    new: &mut T,
) -> Result<AllTypes, GateError>
    ensures found { IfOk result (λ all. Listed (S.may_give old.old) (S.may_lack old.old)
        (paths_in asked.now.files.old) (λ v. Listed (T.may_give new.old) (T.may_lack new.old)
        (paths_in asked.now.files.new) (λ w. Between v w (λ a b. IsAllTypes asked.now.view a b
        asked.now.explain asked.now.notes all)))) }
    ensures refused { IfErr result (IsAllError (seen S.Sources old.old old.new)
        (seen T.Sources new.old new.new) (both_paths asked.now.files)) }
    ensures old_reads { Reads S.Sources old.old old.new (side_failures Side.Old result) }
    ensures new_reads { Reads T.Sources new.old new.new (side_failures Side.New result) }
{
    let old_list = list_of(alloc, old, Side::Old, &asked.files.old)?;
    let old_paths = all_paths(alloc, Side::Old, &asked.files.old, &old_list)?;
    let new_list = list_of(alloc, new, Side::New, &asked.files.new)?;
    let new_paths = all_paths(alloc, Side::New, &asked.files.new, &new_list)?;
    let old_includes = copied(alloc, asked.files.old.includes)?;
    let new_includes = copied(alloc, asked.files.new.includes)?;
    let files = BothFiles {
        old: at_paths(asked.files.old.folder, &old_includes, &old_paths),
        new: at_paths(asked.files.new.folder, &new_includes, &new_paths),
    };
    find_all(alloc, &GateAllCall { files, ..*asked }, old, new)
}
