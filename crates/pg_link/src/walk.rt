//! The imports, followed depth first, each path read once.
ghost use Rattle.std.specs.Prelude.{◌≡◌, IfErr, IfOk, OnOk, ◌++◌, ◌∷◌, [], List, ℕ, false, map, string_bytes};
ghost use Rattle.pg_link.specs.names.Files.{Differ, is_path_of};
ghost use Rattle.pg_link.specs.names.Names.{texts};
ghost use Rattle.pg_link.specs.walk.Reads.{Reads, ReadsApart, ReadsEach, world_of};
ghost use Rattle.pg_link.specs.inner.Walking.{ReadsAll, ReadsNew};
ghost use Rattle.pg_link.specs.walk.Walk as spec;
ghost use Rattle.pg_link.specs.inner.Walking as walking;
ghost use Rattle.pg_link.specs.declared.error.LinkError.TheVariants as error;

pub(crate) mod folder_path;
pub(crate) mod imports;
pub(crate) mod reading;

use crate::Sources;
use crate::error::{LinkError, place_in};
use crate::walk::reading::{NewFile, read_new};
use indexmap::{IndexMap, IndexSet};
use pg_syntax::tree::FileTree;
use std::alloc::Global;

/// The most files that are linked.
pub(crate) const MAX_FILES: usize = 1024;

/// The bytes of a file that was read, and its tree.
#[derive(Debug, Drop)]
pub struct SourceFile {
    pub bytes: Vec<u8>,
    pub tree: FileTree,
}

/// An import that asks for a path: its file, the bytes of that, and the offset of its literal.
#[derive(Clone, Copy)]
pub(crate) struct Asking<'a> {
    pub file: &'a str,
    pub text: &'a [u8],
    pub at: usize,
}

/// The files that were read, and how far.
#[derive(Drop)]
pub(crate) struct Walk {
    /// By path, each after those that it imports.
    pub files: IndexMap<String, SourceFile>,
    /// The paths from a root to here, each of which imports the next.
    opened: IndexSet<String>,
}

impl Walk {
    /// Notes that the imports of a file are followed from here on.
    fn begin(&mut self, alloc: Global, path: &str) -> Result<(), LinkError>
        requires { is_path_of (walking.open_paths self.old) path.now ≡ false }
        ensures opened { OnOk result
            (walking.open_paths self.new ≡ path.now ∷ walking.open_paths self.old) }
        ensures same { OnOk result (walking.entries self.new ≡ walking.entries self.old) }
        ensures failure { IfErr result (λ e. e ≡ error.Memory) }
    {
        let path = String::from_str(alloc, path)?;
        self.opened.insert(path)?;
        Ok(())
    }

    /// Keeps a file whose imports were followed.
    fn end(&mut self, alloc: Global, path: &str, file: SourceFile) -> Result<(), LinkError>
        ensures opened { OnOk result ((p : List ℕ) (ps : List (List ℕ))
            → walking.open_paths self.old ≡ p ∷ ps → walking.open_paths self.new ≡ ps) }
        ensures comes { OnOk result (walking.ComesLast self.old self.new path.now file) }
        ensures failure { IfErr result (λ e. e ≡ error.Memory) }
    {
        let path = String::from_str(alloc, path)?;
        self.opened.pop();
        self.files.insert(path, file)?;
        Ok(())
    }

    /// Whether the next import may be followed: its path is none of those before it in the file,
    /// and none whose imports are still followed.
    fn check(
        &self,
        alloc: Global,
        before: &mut IndexSet<String>,
        asking: Asking<'_>,
        path: &str,
    ) -> Result<(), LinkError>
        ensures closed { OnOk result (is_path_of (walking.open_paths self.now) path.now ≡ false) }
        ensures first { OnOk result (is_path_of (map string_bytes before.old.keys) path.now
            ≡ false) }
        ensures noted { OnOk result (map string_bytes before.new.keys
            ≡ map string_bytes before.old.keys ++ path.now ∷ []) }
        ensures fault { IfErr result
            (walking.IsImportFault (walking.open_paths self.now)
            (map string_bytes before.old.keys) asking.entry path.now) }
    {
        let seen = String::from_str(alloc, path)?;
        if !before.insert(seen)? {
            let place = place_in(alloc, asking.file, asking.text, asking.at)?;
            return Err(LinkError::DuplicateImport(place));
        }
        if self.opened.contains(path) {
            let place = place_in(alloc, asking.file, asking.text, asking.at)?;
            return Err(LinkError::ImportCycle(place));
        }
        Ok(())
    }
}

/// Reads a file and, one by one, what it imports, unless it was read.
#[cycle(visits)]
fn visit<S: Sources>(
    alloc: Global,
    source: &mut S,
    folder: &str,
    path: &str,
    asking: Option<Asking<'_>>,
    walk: &mut Walk,
) -> Result<(), LinkError>
    requires { is_path_of (walking.open_paths walk.old) path.now ≡ false }
    ensures sound { OnOk result ((roots : List (List ℕ))
        → walking.Follows (world_of S.Sources source.old folder.now roots) walk.old asking.entry
        path.now
        → walking.IsSound (world_of S.Sources source.old folder.now roots)
        (walking.open_paths walk.old) (walking.entries walk.new)) }
    // Each refusal comes only where what it names is there, at its position.
    ensures refused { IfErr result (λ e. (roots : List (List ℕ))
        → walking.Follows (world_of S.Sources source.old folder.now roots) walk.old asking.entry
        path.now
        → spec.Refuses (world_of S.Sources source.old folder.now roots) e) }
    ensures opened { OnOk result (walking.open_paths walk.new ≡ walking.open_paths walk.old) }
    ensures extends { OnOk result (walking.Extends walk.old walk.new) }
    // Files come in post-order of imports.
    ensures lists { OnOk result
        (walking.VisitLists (walking.listed_paths walk.old) (path.now ∷ []) walk.new) }
    // Whatever is answered, the source was asked for no path twice, and for none that was begun.
    ensures reads_new { ReadsNew folder.now (S.reads source.old) (S.reads source.new) walk.old }
    ensures reads_all { OnOk result (ReadsAll folder.now (S.reads source.old)
        (S.reads source.new) walk.old walk.new) }
    ensures reads { Reads S.Sources source.old source.new (spec.failures_of result) }
{
    if walk.files.contains_key(path) {
        return Ok(());
    }
    let others = walk.opened.len() + walk.files.len();
    let read = read_new(alloc, source, folder, path, asking, others)?;
    walk.begin(alloc, path)?;
    visit_imports(alloc, source, folder, path, &read, walk)?;
    walk.end(alloc, path, read.file)?;
    Ok(())
}

/// Visits what a new file imports, one by one, in its order. It is apart so that each proof has few
/// values to drop.
#[cycle(visits)]
fn visit_imports<S: Sources>(
    alloc: Global,
    source: &mut S,
    folder: &str,
    path: &str,
    read: &NewFile,
    walk: &mut Walk,
) -> Result<(), LinkError>
    ensures sound { OnOk result ((roots : List (List ℕ))
        → walking.Imports (world_of S.Sources source.old folder.now roots) walk.old path.now
        read.now
        → walking.IsSound (world_of S.Sources source.old folder.now roots)
        (walking.open_paths walk.old) (walking.entries walk.new)) }
    ensures refused { IfErr result (λ e. (roots : List (List ℕ))
        → walking.Imports (world_of S.Sources source.old folder.now roots) walk.old path.now
        read.now
        → spec.Refuses (world_of S.Sources source.old folder.now roots) e) }
    ensures opened { OnOk result (walking.open_paths walk.new ≡ walking.open_paths walk.old) }
    ensures extends { OnOk result (walking.Extends walk.old walk.new) }
    ensures lists { OnOk result
        (walking.VisitLists (walking.listed_paths walk.old) (walking.lines_paths read.now)
        walk.new) }
    ensures apart { OnOk result (Differ (walking.lines_paths read.now)) }
    ensures reads_new { ReadsNew folder.now (S.reads source.old) (S.reads source.new) walk.old }
    ensures reads_all { OnOk result (ReadsAll folder.now (S.reads source.old)
        (S.reads source.new) walk.old walk.new) }
    ensures reads { Reads S.Sources source.old source.new (spec.failures_of result) }
{
    let mut before = IndexSet::new(alloc);
    let mut index = 0;
    'lines: while index < read.lines.len() {
        let line = &read.lines[index];
        let here = Asking {
            file: path,
            text: &read.file.bytes,
            at: line.at,
        };
        let next = line.path.as_str();
        walk.check(alloc, &mut before, here, next)?;
        visit(alloc, source, folder, next, Some(here), walk)?;
        index += 1;
    }
    Ok(())
}

/// Reads the roots below the folder, and all that they import, each path once. Imports are followed
/// depth first, in the order of their statements; a file's own bytes are looked at before its
/// imports. The files come in post-order of imports: each after those that it imports.
///
/// E301 to E303, E308 and E309 are answered, and the faults of the files, at the position at
/// which `LinkError` has them.
pub(crate) fn follow_imports<S: Sources>(
    alloc: Global,
    source: &mut S,
    folder: &str,
    roots: &[&str],
) -> Result<Walk, LinkError>
    // The bytes of each file are such as the source may give for its path, and its tree is theirs.
    // Each root and import is among the files, each path once, and no other is. They are in
    // post-order of imports, no file imports one twice, none is on a circle, and 1,024 is the most.
    ensures linked { IfOk result (λ walk.
        spec.IsLinked (world_of S.Sources source.old folder.now (texts roots.now))
        (walking.entries walk)) }
    // Each refusal comes only where what it names is there, at its position.
    ensures refused { IfErr result (spec.Refuses
        (world_of S.Sources source.old folder.now (texts roots.now))) }
    // Whatever is answered, the source was asked for no path twice; and where all is read, for just
    // the paths of the files.
    ensures reads_apart { ReadsApart (S.reads source.old) (S.reads source.new) }
    ensures reads_each { IfOk result
        (λ walk. ReadsEach folder.now (S.reads source.old) (S.reads source.new)
        (walking.entries walk)) }
    // A failure of the source is reported as one, and nothing else is.
    ensures reads { Reads S.Sources source.old source.new (spec.failures_of result) }
{
    let mut walk = Walk {
        files: IndexMap::new(alloc),
        opened: IndexSet::new(alloc),
    };
    for root in roots {
        visit(alloc, source, folder, root, None, &mut walk)?;
    }
    Ok(walk)
}
