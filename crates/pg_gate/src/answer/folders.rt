//! Folders of a source, in which paths are looked for in turn.
ghost use Rattle.std.specs.Prelude.{◌≡◌, ◌∷◌, [], None, Some, IfErr, IfOk, IsErrOf, IsTrue, codes};
ghost use Rattle.pg_call.specs.Paths.{paths_of};
ghost use Rattle.pg_link.specs.Linked.{IsLinkedUp};
ghost use Rattle.pg_link.specs.Sources.{failures_in};
ghost use Rattle.pg_link.specs.uses.UseFaults.{LinkRefuses};
ghost use Rattle.pg_link.specs.walk.FolderPath.{path_below};
ghost use Rattle.pg_link.specs.walk.Reads.{Reads};
ghost use Rattle.pg_link.specs.walk.Walk as walk;
ghost use Rattle.pg_link.specs.walk.Walk.{IsLinked, IsReadFault};
ghost use Rattle.pg_gate.specs.answer.Folders.{folder_including, given_in, given_including, lacked_in, lacked_including, world_including, world_through};
ghost use Rattle.pg_gate.specs.inner.Folders.{given_by, kept_give, kept_lack, lacked_by, world_of_folders};

use pg_link::{GhostPaths, LinkError, Linked, SourceError, Sources, link_below, read_file};
use std::alloc::Global;

/// The bytes of the file of this path below the folder.
fn read_below<S: Sources>(
    alloc: Global,
    source: &mut S,
    folder: &str,
    path: &str,
) -> Result<Vec<u8>, SourceError>
    ensures given { IfOk result (λ bytes.
        IsTrue (S.may_give source.old (path_below folder.now path.now) bytes.items)) }
    ensures lacked { IsErrOf result SourceError.Missing
        → IsTrue (S.may_lack source.old (path_below folder.now path.now)) }
    ensures reads { Reads S.Sources source.old source.new (failures_in result) }
{
    match read_file(alloc, source, folder, path) {
        Ok(bytes) => Ok(bytes),
        Err(LinkError::MissingFile(_)) => Err(SourceError::Missing),
        Err(LinkError::SourceFailed(_)) => Err(SourceError::Failed),
        Err(_) => Err(SourceError::Memory),
    }
}

/// The bytes of the file of this path below the first of the folders that has it.
fn read_in_turn<S: Sources>(
    alloc: Global,
    source: &mut S,
    folders: &[&str],
    path: &str,
) -> Result<Vec<u8>, SourceError>
    ensures given { IfOk result (λ bytes. IsTrue (given_in (S.may_give source.old)
        (S.may_lack source.old) (paths_of folders.now) path.now bytes.items)) }
    ensures lacked { IsErrOf result SourceError.Missing
        → IsTrue (lacked_in (S.may_lack source.old) (paths_of folders.now) path.now) }
    ensures reads { Reads S.Sources source.old source.new (failures_in result) }
{
    for folder in folders {
        match read_below(alloc, source, folder, path) {
            Err(SourceError::Missing) => {}
            answer => return answer,
        }
    }
    Err(SourceError::Missing)
}

/// A source with a folder in it, and the included ones. It looks for `/PATH` in each in turn: the
/// first that has it gives it. It has no other path.
#[derive(Drop)]
pub(crate) struct Folders<'a, S> {
    source: &'a mut S,
    folder: &'a str,
    includes: &'a [&'a str],
    asked: GhostPaths,
}

impl<S: Sources> Sources for Folders<'_, S> {
    ghost may_give = { λ it. kept_give (S.may_give it.source.now) (S.may_lack it.source.now)
        (it.folder.now ∷ paths_of it.includes.now) };

    ghost may_lack = { λ it. kept_lack (S.may_lack it.source.now)
        (it.folder.now ∷ paths_of it.includes.now) };

    ghost failures = { λ it. S.failures it.source.now };

    // The name of the source comes first: a read leaves the same source.
    ghost reads = { λ it. Some ((it.source.ghost_name ∷ []) ∷ it.asked.paths) };

    fn read(&mut self, alloc: Global, path: &str) -> Result<Vec<u8>, SourceError> {
        self.asked.note(path.as_bytes());
        let Some(below) = path.strip_prefix("/") else {
            return Err(SourceError::Missing);
        };
        match read_below(alloc, &mut *self.source, self.folder, below) {
            Err(SourceError::Missing) => read_in_turn(
                alloc,
                &mut *self.source,
                self.includes,
                below,
            ),
            answer => answer,
        }
    }
}

/// The files at these paths, linked, and all that they import, each looked for in the folders.
fn link_in<S: Sources>(
    alloc: Global,
    folders: &mut Folders<'_, S>,
    paths: &[&str],
) -> Result<Linked, LinkError>
    ensures linked { IfOk result (λ linked. IsLinked
        (world_of_folders S.Sources folders.old (paths_of paths.now)) linked.files) }
    ensures settled { IfOk result IsLinkedUp }
    ensures refused { IfErr result
        (LinkRefuses (world_of_folders S.Sources folders.old (paths_of paths.now))) }
    ensures same_source { folders.new.source.ghost_name ≡ folders.old.source.ghost_name }
    ensures reads { Reads S.Sources folders.old.source.now folders.new.source.now
        (walk.failures_of result) }
{
    link_below(alloc, folders, "", paths)
}

/// The files at these paths, linked, and all that they import: each from the first that has it, of
/// the folder and the included ones.
fn link_through<S: Sources>(
    alloc: Global,
    source: &mut S,
    folder: &str,
    includes: &[&str],
    paths: &[&str],
) -> Result<Linked, LinkError>
    ensures linked { IfOk result (λ linked. IsLinked (world_through (S.may_give source.old)
        (S.may_lack source.old) (folder.now ∷ paths_of includes.now) (paths_of paths.now))
        linked.files) }
    ensures settled { IfOk result IsLinkedUp }
    ensures refused { IfErr result (LinkRefuses (world_through (S.may_give source.old)
        (S.may_lack source.old) (folder.now ∷ paths_of includes.now) (paths_of paths.now))) }
    ensures reads { Reads S.Sources source.old source.new (walk.failures_of result) }
{
    let mut folders = Folders {
        source,
        folder,
        includes,
        asked: GhostPaths::new(),
    };
    link_in(alloc, &mut folders, paths)
}

/// The bytes of the file at this path, which is looked for in the folders.
fn read_in<S: Sources>(
    alloc: Global,
    folders: &mut Folders<'_, S>,
    path: &str,
) -> Result<Vec<u8>, LinkError>
    ensures given { IfOk result (λ bytes.
        IsTrue (given_by S.Sources folders.old path.now bytes.items)) }
    ensures refused { IfErr result
        (IsReadFault (lacked_by S.Sources folders.old) (codes ".") None path.now) }
    ensures same_source { folders.new.source.ghost_name ≡ folders.old.source.ghost_name }
    ensures reads { Reads S.Sources folders.old.source.now folders.new.source.now
        (walk.failures_of result) }
{
    read_file(alloc, folders, "", path)
}

/// The bytes of the file at this path, from the first that has it, of the folder and the included
/// ones.
fn read_through<S: Sources>(
    alloc: Global,
    source: &mut S,
    folder: &str,
    includes: &[&str],
    path: &str,
) -> Result<Vec<u8>, LinkError>
    ensures given { IfOk result (λ bytes. IsTrue (given_in (S.may_give source.old)
        (S.may_lack source.old) (folder.now ∷ paths_of includes.now) path.now bytes.items)) }
    ensures refused { IfErr result (IsReadFault (lacked_in (S.may_lack source.old)
        (folder.now ∷ paths_of includes.now)) (codes ".") None path.now) }
    ensures reads { Reads S.Sources source.old source.new (walk.failures_of result) }
{
    let mut folders = Folders {
        source,
        folder,
        includes,
        asked: GhostPaths::new(),
    };
    read_in(alloc, &mut folders, path)
}

/// The files at these paths, linked, and all that they import: those below the folder, and with
/// included ones, each from the first that has it.
pub(crate) fn link_including<S: Sources>(
    alloc: Global,
    source: &mut S,
    folder: &str,
    includes: &[&str],
    paths: &[&str],
) -> Result<Linked, LinkError>
    ensures linked { IfOk result (λ linked. IsLinked
        (world_including (S.may_give source.old)
        (S.may_lack source.old) folder.now (paths_of includes.now)
        (paths_of paths.now)) linked.files) }
    ensures settled { IfOk result IsLinkedUp }
    ensures refused { IfErr result (LinkRefuses
        (world_including (S.may_give source.old)
        (S.may_lack source.old) folder.now (paths_of includes.now) (paths_of paths.now))) }
    ensures reads { Reads S.Sources source.old source.new (walk.failures_of result) }
{
    if includes.is_empty() {
        link_below(alloc, source, folder, paths)
    } else {
        link_through(alloc, source, folder, includes, paths)
    }
}

/// The bytes of the file at this path: that below the folder, and with included ones, that of the
/// first that has it.
pub(crate) fn read_including<S: Sources>(
    alloc: Global,
    source: &mut S,
    folder: &str,
    includes: &[&str],
    path: &str,
) -> Result<Vec<u8>, LinkError>
    ensures given { IfOk result (λ bytes. IsTrue
        (given_including (S.may_give source.old) (S.may_lack source.old) folder.now
        (paths_of includes.now)
        (path_below (folder_including folder.now (paths_of includes.now)) path.now)
        bytes.items)) }
    ensures refused { IfErr result (IsReadFault
        (lacked_including (S.may_lack source.old) folder.now (paths_of includes.now))
        (folder_including folder.now (paths_of includes.now)) None path.now) }
    ensures reads { Reads S.Sources source.old source.new (walk.failures_of result) }
{
    if includes.is_empty() {
        read_file(alloc, source, folder, path)
    } else {
        read_through(alloc, source, folder, includes, path)
    }
}
