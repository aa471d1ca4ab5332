//! The order of a set's files: each after those that it imports.

ghost use Rattle.std.specs.Prelude.{◌≡◌, ◌⊎◌, ◌<◌, false, true, ℕ, List, Some, None, IfErr, IfOk, OnOk, length, map};
ghost use Rattle.std.specs.List.{AllByRecursion, list_all};
ghost use Rattle.pg_schema.specs.rules.Pairs.{are_distinct};
ghost use Rattle.pg_schema.specs.rules.TextSets.{is_among};
ghost use Rattle.pg_dyn.specs.message.Kept.{message_of};
ghost use Rattle.pg_set.specs.declared.descriptor.proto.TheConstants.{FILE_DEPENDENCY};
ghost use Rattle.pg_set.specs.declared.error.Unstated.TheVariants as errors;
ghost use Rattle.pg_set.specs.inner.Lent.{lent};
ghost use Rattle.pg_set.specs.inner.reading.FilePlaces.{ImportsAt, IsIndex, StandAt, importer, importers, HasNoOrder};
ghost use Rattle.pg_set.specs.inner.reading.OutlinedRows.{files_at};
ghost use Rattle.pg_set.specs.stated.PostOrder.{importer_of, imports_once, kept_paths, paths_of};
ghost use Rattle.pg_set.specs.stated.SetMessages.{texts_at};
ghost use Rattle.pg_set.specs.stated.StatedOrder.{in_post_order};
ghost use Rattle.pg_set.specs.inner.reading.Walks.{lists_of};

use crate::descriptor::access::{SetMessage, text, texts};
use crate::descriptor::proto;
use crate::error::Unstated;
use crate::reading::set_files::is_left_out;
use crate::reading::walk::post_order;
use std::alloc::{AllocError, Global};
use std::collections::{BTreeMap, BTreeSet};

// A file by its name, with the paths that it imports.
#[derive(Drop)]
struct Importing<'a> {
    name: &'a str,
    paths: Vec<&'a str>,
}

// The indices of files by their names, of which none occurs twice.
fn places(alloc: Global, files: &[Importing<'_>]) -> Result<BTreeMap<String, usize>, Unstated>
    ensures index { IfOk result (λ places. IsIndex (paths_of (importers files.now)) places) }
    ensures once { OnOk result (are_distinct (paths_of (importers files.now)) ≡ true) }
    ensures refused { IfErr result (λ e. (e ≡ errors.Memory)
        ⊎ (are_distinct (paths_of (importers files.now)) ≡ false)) }
{
    let mut places = BTreeMap::new(alloc);
    for (place, file) in files.iter().enumerate() {
        let name = String::from_str(alloc, file.name)?;
        match places.insert(name, place)? {
            None => {}
            Some(_) => return Err(Unstated::Reference),
        }
    }
    Ok(places)
}

// No path occurs twice.
fn are_apart(alloc: Global, paths: &[&str]) -> Result<(), Unstated>
    ensures once { OnOk result (are_distinct (lent paths.now) ≡ true) }
    ensures refused { IfErr result (λ e. (e ≡ errors.Memory)
        ⊎ (are_distinct (lent paths.now) ≡ false)) }
{
    let mut seen = BTreeSet::new(alloc);
    for path in paths {
        let is_new = seen.insert(String::from_str(alloc, path)?)?;
        if !is_new {
            return Err(Unstated::Reference);
        }
    }
    Ok(())
}

// The indices of the files of these paths, of which each is there.
fn imported(
    alloc: Global,
    places: &BTreeMap<String, usize>,
    paths: &[&str],
) -> Result<Vec<usize>, Unstated>
    ensures ok { IfOk result (λ own. (all : List (List ℕ)) → IsIndex all places.now
        → StandAt all own.items (lent paths.now)) }
    ensures refused { IfErr result (λ e. (e ≡ errors.Memory)
        ⊎ ((all : List (List ℕ)) → IsIndex all places.now
        → list_all (is_among all) (lent paths.now) ≡ false)) }
{
    let mut imported = Vec::new(alloc);
    for path in paths {
        match places.get(*path) {
            Some(place) => imported.push(*place)?,
            None => return Err(Unstated::Reference),
        }
    }
    Ok(imported)
}

// What each file imports.
fn all_imported(alloc: Global, files: &[Importing<'_>]) -> Result<Vec<Vec<usize>>, Unstated>
    ensures ok { IfOk result (λ all. ImportsAt (importers files.now) (lists_of all.items)) }
    ensures once { OnOk result (are_distinct (paths_of (importers files.now)) ≡ true) }
    ensures imports_once { OnOk result (list_all imports_once (importers files.now) ≡ true) }
    ensures refused { IfErr result (λ e. (e ≡ errors.Memory)
        ⊎ HasNoOrder (importers files.now)) }
{
    let places = places(alloc, files)?;
    let mut all = Vec::new(alloc);
    for file in files {
        are_apart(alloc, &file.paths)?;
        all.push(imported(alloc, &places, &file.paths)?)?;
    }
    Ok(all)
}

// The paths that a file imports, without those that are left out.
fn kept_imports<'b, 'a>(
    alloc: Global,
    skips: bool,
    file: &SetMessage<'b, 'a>,
) -> Result<Vec<&'a str>, AllocError>
    ensures { IfOk result (λ kept. lent kept.items
        ≡ kept_paths skips (texts_at FILE_DEPENDENCY (message_of file.now))) }
{
    let paths = texts(alloc, file, proto::FILE_DEPENDENCY)?;
    let mut kept = Vec::new(alloc);
    for path in &paths {
        if !is_left_out(skips, path) {
            kept.push(*path)?;
        }
    }
    Ok(kept)
}

// What a file says of its name and its imports.
fn importing_file<'b, 'a>(
    alloc: Global,
    skips: bool,
    file: &SetMessage<'b, 'a>,
) -> Result<Importing<'a>, AllocError>
    ensures { IfOk result (λ i. importer i ≡ importer_of skips (message_of file.now)) }
{
    let name = text(file, proto::FILE_NAME);
    let paths = kept_imports(alloc, skips, file)?;
    Ok(Importing { name, paths })
}

// What each file says of its name and its imports.
fn importing_files<'b, 'a>(
    alloc: Global,
    skips: bool,
    files: &[SetMessage<'b, 'a>],
) -> Result<Vec<Importing<'a>>, AllocError>
    ensures { IfOk result (λ found. importers found.items
        ≡ map (importer_of skips) (map message_of files.now)) }
{
    let mut found = Vec::new(alloc);
    for file in files {
        let importing = importing_file(alloc, skips, file)?;
        found.push(importing)?;
    }
    Ok(found)
}

/// The indices of the files in post-order of imports, begun at the files in their order: each is
/// after those that it imports. Refused, memory aside, only where they have no order.
pub(crate) fn order(
    alloc: Global,
    skips: bool,
    files: &[SetMessage<'_, '_>],
) -> Result<Vec<usize>, Unstated>
    ensures within { IfOk result (λ order.
        AllByRecursion (λ place. place < length files.now) order.items) }
    ensures in_order { IfOk result (λ order. in_post_order skips (map message_of files.now)
        ≡ Some (files_at (map message_of files.now) order.items)) }
    ensures none { IfErr result (λ e. (e ≡ errors.Memory)
        ⊎ (in_post_order skips (map message_of files.now) ≡ None)) }
{
    let found = importing_files(alloc, skips, files)?;
    let imported = all_imported(alloc, &found)?;
    post_order(alloc, &imported)
}
