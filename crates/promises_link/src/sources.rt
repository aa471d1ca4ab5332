//! Sources, and what is read from them.

ghost use Rattle.std.specs.Prelude.{◌≡◌, ◌+◌, [], ◌∷◌, IfErr, IfOk, IsErrOf, IsTrue, None, OnOk, Some, codes};
ghost use Rattle.pg_link.specs.walk.FolderPath.{path_below};
ghost use Rattle.pg_link.specs.names.Names.{texts};
ghost use Rattle.pg_link.specs.Linked.{IsLinkedUp};
ghost use Rattle.pg_link.specs.Listed.{gives, lacks};
ghost use Rattle.pg_link.specs.walk.Reads.{ReadsApart, ReadsEach, world_of};
ghost use Rattle.pg_link.specs.walk.PostOrder.{IsPostOrder};
ghost use Rattle.pg_link.specs.Sources.{also, AtMostOne, failures_in};
ghost use Rattle.pg_link.specs.uses.UseFaults.{LinkRefuses};
ghost use Rattle.pg_link.specs.walk.Walk as spec;
ghost use Rattle.pg_link.specs.declared.error.LinkError.TheVariants as link_errors;
ghost use Rattle.pg_link.specs.declared.sources.SourceError.TheVariants as source_errors;

use pg_link::{Folder, LinkError, Linked, Listed, Place, SourceError, Sources};
use std::alloc::{AllocError, AllocFailed, Global};
use std::rt::Files;

/// What `link` answers.
pub fn link<S: Sources>(alloc: Global, source: &mut S, roots: &[&str]) -> Result<Linked, LinkError>
    ensures linked { IfOk result (λ linked.
        spec.IsLinked (world_of S.Sources source.old (codes ".") (texts roots.now)) linked.files) }
    ensures settled { IfOk result IsLinkedUp }
    ensures refused { IfErr result (LinkRefuses
        (world_of S.Sources source.old (codes ".") (texts roots.now))) }
    ensures reads_apart { ReadsApart (S.reads source.old) (S.reads source.new) }
    ensures reads_each { IfOk result
        (λ linked. ReadsEach (codes ".") (S.reads source.old) (S.reads source.new) linked.files) }
    ensures counted { S.failures source.new ≡ S.failures source.old + spec.failures_of result }
    ensures same_given { S.may_give source.new ≡ S.may_give source.old }
    ensures same_lacked { S.may_lack source.new ≡ S.may_lack source.old }
{
    pg_link::link(alloc, source, roots)
}

/// In which order `link` answers files.
pub fn link_order<S: Sources>(
    alloc: Global,
    source: &mut S,
    ordered: &[&str],
) -> Result<Linked, LinkError>
    ensures { IfOk result (λ linked.
        IsPostOrder (texts ordered.now) (spec.files_in_order linked.files)) }
{
    let linked = pg_link::link(alloc, source, ordered)?;
    Ok(linked)
}

/// What `link_below` answers.
pub fn link_below<S: Sources>(
    alloc: Global,
    source: &mut S,
    folder: &str,
    roots: &[&str],
) -> Result<Linked, LinkError>
    ensures linked { IfOk result (λ linked.
        spec.IsLinked (world_of S.Sources source.old folder.now (texts roots.now)) linked.files) }
    ensures settled { IfOk result IsLinkedUp }
    ensures reads_apart { ReadsApart (S.reads source.old) (S.reads source.new) }
    ensures reads_each { IfOk result
        (λ linked. ReadsEach folder.now (S.reads source.old) (S.reads source.new) linked.files) }
    ensures counted { S.failures source.new ≡ S.failures source.old + spec.failures_of result }
    ensures same_given { S.may_give source.new ≡ S.may_give source.old }
    ensures same_lacked { S.may_lack source.new ≡ S.may_lack source.old }
{
    pg_link::link_below(alloc, source, folder, roots)
}

/// What `link` refuses.
pub fn link_refused<S: Sources>(
    alloc: Global,
    source: &mut S,
    folder: &str,
    bad: &[&str],
) -> Result<Linked, LinkError>
    ensures { IfErr result (LinkRefuses
        (world_of S.Sources source.old folder.now (texts bad.now))) }
{
    pg_link::link_below(alloc, source, folder, bad)
}

/// What `read_file` answers.
pub fn read_file<S: Sources>(
    alloc: Global,
    source: &mut S,
    folder: &str,
    path: &str,
) -> Result<Vec<u8>, LinkError>
    ensures given { IfOk result (λ bytes.
        IsTrue (S.may_give source.old (path_below folder.now path.now) bytes.items)) }
    ensures fault { IfErr result (spec.IsReadFault
        (S.may_lack source.old) folder.now None path.now) }
    ensures counted { S.failures source.new ≡ S.failures source.old + spec.failures_of result }
    ensures asked { OnOk result (S.reads source.new
        ≡ also (path_below folder.now path.now ∷ []) (S.reads source.old)) }
    ensures asked_once { AtMostOne (path_below folder.now path.now) (S.reads source.old)
        (S.reads source.new) }
    ensures same_given { S.may_give source.new ≡ S.may_give source.old }
    ensures same_lacked { S.may_lack source.new ≡ S.may_lack source.old }
{
    pg_link::read_file(alloc, source, folder, path)
}

/// What `place_in` answers.
pub fn place_in(alloc: Global, file: &str, text: &[u8], at: usize) -> Result<Place, AllocError>
    ensures { IfOk result (λ place. spec.IsPlace place file.now text.now at) }
{
    pg_link::place_in(alloc, file, text, at)
}

/// What `Folder::new` answers. Only an edit uses the memory.
pub fn folder<'a, R: Files>(_alloc: Global, files: &'a R) -> Folder<'a, R>
    ensures failures { result.failures.count ≡ 0 }
    ensures reads { result.reads.paths ≡ [] }
{
    Folder::new(files)
}

/// What `Folder::read` answers: the clauses of `Sources`, of a folder.
pub fn folder_read<R: Files>(
    source: &mut Folder<'_, R>,
    alloc: Global,
    path: &str,
) -> Result<Vec<u8>, SourceError>
    ensures counted { source.new.failures.count ≡ source.old.failures.count + failures_in result }
    ensures asked { Some source.new.reads.paths
        ≡ also (path.now ∷ []) (Some source.old.reads.paths) }
{
    source.read(alloc, path)
}

/// What `Listed::read` answers: the clauses of `Sources`, of a list.
pub fn listed_read(list: &mut Listed<'_>, alloc: Global, path: &str) -> Result<Vec<u8>, SourceError>
    ensures given { IfOk result (λ bytes. IsTrue (gives list.old.files.now path.now bytes.items)) }
    ensures lacked { IsErrOf result SourceError.Missing
        → IsTrue (lacks list.old.files.now path.now) }
    ensures counted { 0 ≡ 0 + failures_in result }
    ensures same_given { gives list.new.files.now ≡ gives list.old.files.now }
    ensures same_lacked { lacks list.new.files.now ≡ lacks list.old.files.now }
{
    list.read(alloc, path)
}

/// What `SourceError::from` answers of a refused growth.
pub fn source_error_of(error: AllocError) -> SourceError
    ensures { result ≡ source_errors.Memory }
{
    SourceError::from(error)
}

/// What `SourceError::from` answers of a refused growth that hands back a value.
pub fn source_error_of_failed<T: Drop>(failed: AllocFailed<T>) -> SourceError
    ensures { result ≡ source_errors.Memory }
{
    SourceError::from(failed)
}

/// What `LinkError::from` answers of a refused growth. Only an edit uses the memory.
pub fn link_error_of(_alloc: Global, error: AllocError) -> LinkError
    ensures { result ≡ link_errors.Memory }
{
    LinkError::from(error)
}

/// What `LinkError::from` answers of a refused growth that hands back a value. Only an edit uses
/// the memory.
pub fn link_error_of_failed<T: Drop>(_alloc: Global, failed: AllocFailed<T>) -> LinkError
    ensures { result ≡ link_errors.Memory }
{
    LinkError::from(failed)
}
