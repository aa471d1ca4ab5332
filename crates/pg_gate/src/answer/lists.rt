//! The files of a side that a list names.
ghost use Rattle.std.specs.Prelude.{◌≡◌, ◌++◌, ◌<◌, None, length, option_map, IfErr, IfOk, IsTrue, IsUtf8, OnOk, string_bytes};
ghost use Rattle.pg_call.specs.Paths.{first, paths_in, paths_of};
ghost use Rattle.pg_link.specs.walk.Reads.{Reads};
ghost use Rattle.pg_gate.specs.Failures.{side_failures};
ghost use Rattle.pg_gate.specs.answer.Files.{IsErrorOf};
ghost use Rattle.pg_gate.specs.answer.Lists as spec;
ghost use Rattle.pg_gate.specs.inner.Lists as inner;

use crate::error::{Fault, GateError, ListError};
use pg_call::Files;
use pg_lines::Side;
use pg_link::{LinkError, Place, Sources, place_in, read_file};
use std::alloc::{AllocError, Global};

/// The bytes of the list at this path, for which the source is asked as it is given.
#[tactic(auto, using(crate::proofs::lemmas::ErrorLemmas::if_same_side))]
fn bytes_of<S: Sources>(
    alloc: Global,
    source: &mut S,
    side: Side,
    path: &str,
) -> Result<Vec<u8>, GateError>
    ensures given { IfOk result (λ bytes. IsTrue (S.may_give source.old path.now bytes.items)) }
    ensures refused { IfErr result (IsErrorOf
        (inner.IsOfPath (S.may_lack source.old) path.now) side) }
    ensures reads { Reads S.Sources source.old source.new (side_failures side result) }
{
    match read_file(alloc, source, ".", path) {
        Ok(bytes) => Ok(bytes),
        Err(LinkError::Memory) => Err(GateError::Memory),
        Err(error) => Err(GateError::Compile(side, Fault::Link(error))),
    }
}

/// The fault of a list that isn't UTF-8 from this byte on.
fn not_utf8(alloc: Global, path: &str, bytes: &[u8], at: usize) -> Result<Fault, AllocError>
    ensures { IfOk result (inner.IsNotUtf8 path.now bytes.now at) }
{
    let place = place_in(alloc, path, bytes, at)?;
    Ok(Fault::List(ListError::NotUtf8(place)))
}

/// The bytes as a string, which a list is.
fn text_of(alloc: Global, side: Side, path: &str, bytes: &[u8]) -> Result<String, GateError>
    ensures same { IfOk result (λ text. string_bytes text ≡ bytes.now) }
    ensures text { OnOk result (IsUtf8 bytes.now) }
    ensures refused { IfErr result (IsErrorOf (inner.IsNoText path.now bytes.now) side) }
{
    match str::from_utf8(bytes) {
        Ok(text) => Ok(String::from_str(alloc, text)?),
        Err(error) => {
            let fault = not_utf8(alloc, path, bytes, error.valid_up_to())?;
            Err(GateError::Compile(side, fault))
        }
    }
}

/// The text of the list at this path.
#[tactic(auto, using(crate::proofs::lemmas::ErrorLemmas::if_same_zero))]
fn list_at<S: Sources>(
    alloc: Global,
    source: &mut S,
    side: Side,
    path: &str,
) -> Result<String, GateError>
    ensures given { IfOk result (λ text. spec.IsText
        (S.may_give source.old) path.now (string_bytes text)) }
    ensures refused { IfErr result (IsErrorOf (spec.IsUnreadable
        (S.may_give source.old) (S.may_lack source.old) path.now) side) }
    ensures reads { Reads S.Sources source.old source.new (side_failures side result) }
{
    let bytes = bytes_of(alloc, source, side, path)?;
    text_of(alloc, side, path, &bytes)
}

/// The text of a side's list, where it has one.
pub(crate) fn list_of<S: Sources>(
    alloc: Global,
    source: &mut S,
    side: Side,
    files: &Files<'_>,
) -> Result<Option<String>, GateError>
    ensures given { IfOk result (λ list. spec.IsTextIf (S.may_give source.old)
        (first (paths_of files.now.list.now)) (option_map string_bytes list)) }
    ensures refused { IfErr result (IsErrorOf (spec.IsUnreadableIf (S.may_give source.old)
        (S.may_lack source.old) (first (paths_of files.now.list.now))) side) }
    ensures reads { Reads S.Sources source.old source.new (side_failures side result) }
{
    match files.list {
        [path, ..] => Ok(Some(list_at(alloc, source, side, path)?)),
        [] => Ok(None),
    }
}

/// The lines of a list that aren't empty.
fn names_in<'a>(alloc: Global, list: &'a str) -> Result<Vec<&'a str>, AllocError>
    ensures { IfOk result (λ names. paths_of names.items ≡ spec.names_in list.now) }
{
    list.lines().filter(|name| !name.is_empty()).collect(alloc)
}

/// The names in a side's list, where it has one.
fn listed<'a>(alloc: Global, list: &'a Option<String>) -> Result<Vec<&'a str>, AllocError>
    ensures { IfOk result (λ names. paths_of names.items
        ≡ spec.names_if (option_map string_bytes list.now)) }
{
    match list {
        Some(text) => names_in(alloc, text.as_str()),
        None => Ok(Vec::new(alloc)),
    }
}

/// The fault of a side that names no file: at its list as a whole, where it has one.
fn no_file(alloc: Global, files: &Files<'_>) -> Result<Fault, AllocError>
    ensures { IfOk result (spec.IsNoFile (first (paths_of files.now.list.now))) }
{
    let path = match files.list {
        [path, ..] => *path,
        [] => "",
    };
    Ok(Fault::List(ListError::NoFile(Place {
        file: String::from_str(alloc, path)?,
        line: 0,
        column: 0,
    })))
}

/// Whether a side names a file: by its list, where it has one, and else by a word.
fn names_some(files: &Files<'_>, list: &Option<String>, names: &[&str]) -> bool
    ensures { result ≡ inner.names_some (option_map string_bytes list.now)
        (paths_of files.now.paths.now) (paths_of names.now) }
{
    match list {
        Some(_) => !names.is_empty(),
        None => !files.paths.is_empty(),
    }
}

/// The same paths, in a list of one's own.
pub(crate) fn copied<'a>(alloc: Global, paths: &'a [&str]) -> Result<Vec<&'a str>, AllocError>
    ensures { IfOk result (λ all. paths_of all.items ≡ paths_of paths.now) }
{
    let mut all = Vec::new(alloc);
    for path in paths {
        all.push(*path)?;
    }
    Ok(all)
}

/// The paths of all files of a side: those that are words, and then those that its list names.
pub(crate) fn all_paths<'a>(
    alloc: Global,
    side: Side,
    files: &'a Files<'_>,
    list: &'a Option<String>,
) -> Result<Vec<&'a str>, GateError>
    ensures all { IfOk result (λ all. paths_of all.items ≡ paths_of files.now.paths.now
        ++ spec.names_if (option_map string_bytes list.now)) }
    ensures some { OnOk result (0 < length (spec.namers (paths_of files.now.paths.now)
        (option_map string_bytes list.now))) }
    ensures refused { IfErr result (IsErrorOf (inner.IsUnnamed (paths_of files.now.paths.now)
        (first (paths_of files.now.list.now)) (option_map string_bytes list.now)) side) }
{
    let names = listed(alloc, list)?;
    if !names_some(files, list, &names) {
        let fault = no_file(alloc, files)?;
        return Err(GateError::Compile(side, fault));
    }
    let mut all = copied(alloc, files.paths)?;
    all.extend_from_slice(&names)?;
    Ok(all)
}

/// Files below a folder, without a list.
pub(crate) fn at_paths<'a>(
    folder: &'a str,
    includes: &'a [&'a str],
    paths: &'a [&'a str],
) -> Files<'a>
    ensures { paths_in result ≡ record {
      folder = folder.now;
      includes = paths_of includes.now;
      files = paths_of paths.now;
      list = None;
    } }
{
    Files {
        folder,
        includes,
        paths,
        list: &[],
    }
}
