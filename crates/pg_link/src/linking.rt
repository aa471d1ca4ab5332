//! Files, linked.
ghost use Rattle.std.specs.Prelude.{◌≡◌, ◌+◌, IfErr, IfOk, codes};
ghost use Rattle.pg_link.specs.names.Names.{texts};
ghost use Rattle.pg_link.specs.Linked.{IsLinkedUp};
ghost use Rattle.pg_link.specs.walk.Reads.{ReadsApart, ReadsEach, world_of};
ghost use Rattle.pg_link.specs.uses.UseFaults.{LinkRefuses};
ghost use Rattle.pg_link.specs.walk.Walk as spec;

use crate::Sources;
use crate::error::LinkError;
use crate::linked::Linked;
use crate::walk::follow_imports;
use std::alloc::Global;

/// Reads the roots and all that they import, each path once, and settles their names: which
/// names are visible in each file, and what each use of a type name resolves to. `link_below`
/// does so in a folder.
///
/// Imports are followed depth first, in the order of their statements, and the bytes of a file are
/// looked at before its imports. So files come in post-order of imports, begun at the roots in
/// their order. Names that are declared twice are reported next, by order of declaration, and then
/// uses that resolve to nothing, by their order.
///
/// # Errors
///
/// The source is as its reads left it, and its count of failures rose by one where it failed.
/// - Of a file, while imports are followed: `LinkError::Lex` (E101 to E108), `LinkError::Syntax`
///   (E201 to E207).
/// - Of an import or a root, meanwhile: `LinkError::MissingFile` (E301), `LinkError::ImportCycle`
///   (E302), `LinkError::DuplicateImport` (E303), `LinkError::TooManyFiles` (E308).
/// - `LinkError::SourceFailed` (E309), only where the source failed in this call.
/// - `LinkError::DuplicateName` (E304): a name is declared twice.
/// - Of a use: `LinkError::UnknownName` (E305), `LinkError::NotAType` (E306),
///   `LinkError::NotImported` (E307).
/// - `LinkError::Memory` (E001): no memory is left. It may come in place of any other.
pub fn link<S: Sources>(alloc: Global, source: &mut S, roots: &[&str]) -> Result<Linked, LinkError>
    // The bytes of each file are such as the source may give for its path, and its tree is theirs.
    // Each root and import is among the files, each path once, and no other is. The files come in
    // post-order of imports: the roots in their order, each after what its imports lead to, and
    // these in the order of their statements.
    ensures linked { IfOk result (λ linked.
        spec.IsLinked (world_of S.Sources source.old (codes ".") (texts roots.now)) linked.files) }
    // No name is declared twice, and each use resolves to its target.
    ensures settled { IfOk result IsLinkedUp }
    // Each refusal comes only where what it names is there, at its position: of names that are
    // declared twice the first is reported, and where there is none the first use that resolves to
    // nothing.
    ensures refused { IfErr result (LinkRefuses
        (world_of S.Sources source.old (codes ".") (texts roots.now))) }
    // Whatever is answered, the source was asked for no path twice; and where files are linked, for
    // just their paths.
    ensures reads_apart { ReadsApart (S.reads source.old) (S.reads source.new) }
    ensures reads_each { IfOk result
        (λ linked. ReadsEach (codes ".") (S.reads source.old) (S.reads source.new) linked.files) }
    // A failure of the source is reported as one, and nothing else is.
    ensures counted { S.failures source.new ≡ S.failures source.old + spec.failures_of result }
    ensures same_given { S.may_give source.new ≡ S.may_give source.old }
    ensures same_lacked { S.may_lack source.new ≡ S.may_lack source.old }
{
    link_below(alloc, source, ".", roots)
}

/// Reads the roots below the folder, and all that they import there, as `link` does: the source is
/// asked for the folder, a slash and the path, or for the path alone where the folder is `.`.
/// Positions name paths without the folder.
///
/// # Errors
///
/// The errors of `link`, each when it comes there.
pub fn link_below<S: Sources>(
    alloc: Global,
    source: &mut S,
    folder: &str,
    roots: &[&str],
) -> Result<Linked, LinkError>
    // The bytes of each file are such as the source may give for its path, and its tree is theirs.
    // Each root and import is among the files, each path once, and no other is. The files come in
    // post-order of imports: the roots in their order, each after what its imports lead to, and
    // these in the order of their statements.
    ensures linked { IfOk result (λ linked.
        spec.IsLinked (world_of S.Sources source.old folder.now (texts roots.now)) linked.files) }
    // No name is declared twice, and each use resolves to its target.
    ensures settled { IfOk result IsLinkedUp }
    // Each refusal comes only where what it names is there, at its position: of names that are
    // declared twice the first is reported, and where there is none the first use that resolves to
    // nothing.
    ensures refused { IfErr result (LinkRefuses
        (world_of S.Sources source.old folder.now (texts roots.now))) }
    // Whatever is answered, the source was asked for no path twice; and where files are linked, for
    // just their paths.
    ensures reads_apart { ReadsApart (S.reads source.old) (S.reads source.new) }
    ensures reads_each { IfOk result
        (λ linked. ReadsEach folder.now (S.reads source.old) (S.reads source.new) linked.files) }
    // A failure of the source is reported as one, and nothing else is.
    ensures counted { S.failures source.new ≡ S.failures source.old + spec.failures_of result }
    ensures same_given { S.may_give source.new ≡ S.may_give source.old }
    ensures same_lacked { S.may_lack source.new ≡ S.may_lack source.old }
{
    let walk = follow_imports(alloc, source, folder, roots)?;
    let linked = Linked::of(alloc, walk.files)?;
    Ok(linked)
}
