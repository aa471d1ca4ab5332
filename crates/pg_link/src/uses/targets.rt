//! What the uses of all files resolve to.
ghost use Rattle.std.specs.Prelude.{◌≡◌, IfErr, IfOk, List, None, Some, length, map};
ghost use Rattle.pg_link.specs.inner.Index.{names_seen};
ghost use Rattle.pg_link.specs.inner.VisibleFiles.{AreVisibleFiles};
ghost use Rattle.pg_link.specs.inner.Indexed.{IsNumbered, Lists, declared_in};
ghost use Rattle.pg_link.specs.names.Standing.{NoneTwice, Standing, all_standings};
ghost use Rattle.pg_link.specs.uses.Targets.{file_places, file_targets, target_in};
ghost use Rattle.pg_link.specs.uses.UseFaults.{IsUseFault, IsUseFaultIn};
ghost use Rattle.pg_link.specs.inner.Refusals.{Says};
ghost use Rattle.pg_link.specs.uses.Uses.{file_uses};

use crate::error::{LinkError, place_in};
use crate::names::index::{Index, Visible};
use crate::names::resolve::Unresolved;
use crate::uses::target::Target;
use crate::uses::uses_of;
use crate::walk::SourceFile;
use indexmap::IndexMap;
use std::alloc::Global;

/// The fault of a use that resolves to nothing.
fn use_fault(alloc: Global, path: &str, text: &[u8], at: usize, why: Unresolved) -> LinkError
    ensures { Says why path.now text.now at result }
{
    let Ok(place) = place_in(alloc, path, text, at) else {
        return LinkError::Memory;
    };
    match why {
        Unresolved::UnknownName => LinkError::UnknownName(place),
        Unresolved::NotAType => LinkError::NotAType(place),
        Unresolved::NotImported => LinkError::NotImported(place),
        Unresolved::Memory => LinkError::Memory,
    }
}

/// What the uses of a file resolve to, in order, and the byte at which each begins.
#[derive(Debug, Drop)]
pub(crate) struct FileTargets {
    pub targets: Vec<Target>,
    pub places: Vec<usize>,
}

/// What the uses of a file resolve to, in the order of its bytes.
fn targets_of(
    alloc: Global,
    index: &Index,
    visible: Visible<'_>,
    path: &str,
    file: &SourceFile,
) -> Result<FileTargets, LinkError>
    ensures found { IfOk result (λ found. (all : List Standing) → IsNumbered index.now all
        → map Some found.targets.items ≡ map
        (target_in (declared_in all) (names_seen index.now.names (Some visible.entry.marks.now)))
        (file_uses file.now.tree)) }
    ensures placed { IfOk result
        (λ found. found.places.items ≡ map (λ u. u.at) (file_uses file.now.tree)) }
    // The fault is that of the first use that resolves to nothing.
    ensures fault { IfErr result (λ e. (all : List Standing) → IsNumbered index.now all
        → IsUseFault (target_in (declared_in all)
        (names_seen index.now.names (Some visible.entry.marks.now)))
        (names_seen index.now.names (Some visible.entry.marks.now))
        (names_seen index.now.names None) path.now file.now.bytes.items file.now.tree e) }
{
    let sites = uses_of(alloc, &file.tree)?;
    let mut targets = Vec::with_capacity(alloc, sites.len())?;
    let mut places = Vec::with_capacity(alloc, sites.len())?;
    let mut last = None;
    for site in &sites {
        let at = site.name.span.from;
        match index.target(alloc, visible, site, &mut last) {
            Ok(target) => targets.push(target)?,
            Err(why) => return Err(use_fault(alloc, path, &file.bytes, at, why)),
        }
        places.push(at)?;
    }
    Ok(FileTargets { targets, places })
}

/// What the uses of all files resolve to, file by file, by the names that are visible in each.
pub(crate) fn all_targets(
    alloc: Global,
    files: &IndexMap<String, SourceFile>,
    index: &Index,
    visible_files: &[Vec<bool>],
) -> Result<Vec<FileTargets>, LinkError>
    requires lists { Lists index.now (all_standings files.now.entries) }
    requires once { NoneTwice (all_standings files.now.entries) }
    requires visible_files { AreVisibleFiles files.now.entries
        (map (λ m. m.items) visible_files.now) }
    requires same_length { length visible_files.now ≡ length files.now.entries }
    ensures resolved { IfOk result
        (λ found. map (map Some) (map (λ f. f.targets.items) found.items)
        ≡ map (file_targets files.now.entries) files.now.entries) }
    ensures placed { IfOk result
        (λ found. map (λ f. f.places.items) found.items ≡ map file_places files.now.entries) }
    // The fault is that of the first use that resolves to nothing, in the order of the files.
    ensures fault { IfErr result (IsUseFaultIn files.now.entries) }
{
    let mut targets = Vec::new(alloc);
    for number in 0..files.len() {
        let Some((path, file)) = files.get_index(number) else {
            continue;
        };
        let visible = Visible {
            own: number,
            marks: &visible_files[number],
        };
        let own = targets_of(alloc, index, visible, path.as_str(), file)?;
        targets.push(own)?;
    }
    Ok(targets)
}
