//! Linked files.
ghost use Rattle.std.specs.Prelude.{◌≡◌, ◌<◌, ◌∷◌, IfErr, IfNone, IfOk, IfSome, Some, length, map, slice_get, string_bytes, true};
ghost use Rattle.pg_link.specs.Linked.{IsDeclaredAt, IsDeclaredNowhere, IsLinkedUp};
ghost use Rattle.pg_link.specs.inner.Index.{files_of};
ghost use Rattle.pg_link.specs.inner.Refusals.{Refuses, SaysOf};
ghost use Rattle.pg_link.specs.inner.Settled.{HasFirst, IsFirstPlace, IsRead};
ghost use Rattle.pg_link.specs.names.Files.{all_names, visible_names};
ghost use Rattle.pg_link.specs.names.Names.{texts, without_dot};
ghost use Rattle.pg_link.specs.names.Resolves.{Resolves, reference};
ghost use Rattle.pg_link.specs.uses.Targets.{all_declared, enum_names, file_places, file_targets};
ghost use Rattle.pg_link.specs.uses.UseFaults.{IsNameFault, IsNoName};
ghost use Rattle.pg_link.specs.walk.Walk.{Entry, outlines, path_of};

use crate::error::{LinkError, Place};
use crate::names::Named;
use crate::names::index::{Index, Visible, behind_dot};
use crate::names::indexing::index_names;
use crate::names::resolve::Unresolved;
use crate::names::visible_files::visible_files_of;
use crate::uses::target::Target;
use crate::uses::targets::{FileTargets, all_targets};
use crate::walk::SourceFile;
use indexmap::IndexMap;
use pg_lex::place;
use pg_syntax::tree::TypeName;
use std::alloc::Global;
use std::marker::Model;

/// Whether a full name is this one with a dot in front.
fn is_behind_dot(full: &str, name: &str) -> bool
    ensures only { result ≡ true → full.now ≡ 46 ∷ name.now }
    ensures each { full.now ≡ 46 ∷ name.now → result ≡ true }
{
    match full.strip_prefix(".") {
        Some(rest) => rest == name,
        None => false,
    }
}

/// Where what bears a name is first declared.
fn first_place<'a>(
    files: &'a IndexMap<String, SourceFile>,
    named: &Named,
) -> Option<(&'a str, usize, usize)>
    ensures place { IfSome result (λ p. IsFirstPlace files.now.entries
        (files_of named.now) named.now.at p.0.now p.1 p.2) }
    ensures absent { IfNone result (HasFirst files.now.entries (files_of named.now) → ⊥) }
{
    let (path, file) = files.get_index(named.file)?;
    let (line, column) = place(&file.bytes, named.at);
    Some((path.as_str(), line, column))
}

/// The fault of a name that doesn't resolve in a file.
fn name_fault(alloc: Global, path: &str, why: Unresolved) -> LinkError
    ensures { SaysOf why path.now result }
{
    let Ok(file) = String::from_str(alloc, path) else {
        return LinkError::Memory;
    };
    let place = Place {
        file,
        line: 0,
        column: 0,
    };
    match why {
        Unresolved::UnknownName => LinkError::UnknownName(place),
        Unresolved::NotAType => LinkError::NotAType(place),
        Unresolved::NotImported => LinkError::NotImported(place),
        Unresolved::Memory => LinkError::Memory,
    }
}

/// Files whose imports, names and uses are settled. Contracts see the files, each after those
/// that it imports, and for each what its uses of type names resolve to.
#[derive(Debug, Drop)]
pub struct Linked {
    files: IndexMap<String, SourceFile>,
    index: Index,
    visible_files: Vec<Vec<bool>>,
    targets: Vec<FileTargets>,
}

impl Model for Linked {
    ghost use Rattle.std.specs.Prelude.{map};
    ghost use Rattle.std.specs.Coded.{codes};
    ghost use Rattle.pg_syntax.specs.contracts.tree.Part as part;
    ghost use Rattle.pg_link.specs.Linked.{LinkedFiles};
    ghost use Rattle.pg_link.specs.inner.Settled.{IsSettled};

    ghost Value = { LinkedFiles };

    ghost coded = { Prim.hlevel (codes, part.the_row.coded) };

    ghost view = { λ l. record {
      files = l.files.entries;
      targets = map (λ f. f.targets.items) l.targets.items;
    } };

    ghost invariant = { λ l. IsSettled l.files.entries l.index
        (map (λ m. m.items) l.visible_files.items) (map (λ f. f.targets.items) l.targets.items)
        (map (λ f. f.places.items) l.targets.items) };
}

impl Linked {
    /// Settles the names and the uses of files that were read.
    pub(crate) fn of(
        alloc: Global,
        files: IndexMap<String, SourceFile>,
    ) -> Result<Linked, LinkError>
        requires { IsRead files.entries }
        ensures files { IfOk result (λ linked. linked.files ≡ files.entries) }
        ensures linked { IfOk result IsLinkedUp }
        ensures fault { IfErr result (IsNameFault files.entries) }
    {
        let index = index_names(alloc, &files)?;
        let visible_files = visible_files_of(alloc, &files)?;
        let targets = all_targets(alloc, &files, &index, &visible_files)?;
        Ok(Linked {
            files,
            index,
            visible_files,
            targets,
        })
    }

    /// The files by path, each with its bytes and its tree, each after those that it imports.
    pub fn files(&self) -> &IndexMap<String, SourceFile>
        ensures files { result.now.entries ≡ self.now.files }
        ensures linked { IsLinkedUp self.now }
    {
        &self.files
    }

    /// What the uses of type names in a file resolve to, in the order of its bytes: the types of
    /// fields and of members of oneofs, keys and values of maps, what rpcs take and return. Scalar
    /// words in fields and maps are no uses. The file is given by its number.
    pub fn targets(&self, file: usize) -> &[Target]
        requires { file < length self.now.files }
        ensures targets { slice_get self.now.targets file ≡ Some result.now }
        ensures resolved { (e : Entry) → slice_get self.now.files file ≡ Some e
            → map Some result.now ≡ file_targets self.now.files e }
    {
        &self.targets[file].targets
    }

    /// The byte at which each use of a type name in a file begins, in the order of its
    /// bytes: each belongs to the element of `targets` with its index. The file is given by
    /// its number.
    pub fn places(&self, file: usize) -> &[usize]
        requires { file < length self.now.files }
        ensures { (e : Entry) → slice_get self.now.files file ≡ Some e
            → result.now ≡ file_places e }
    {
        &self.targets[file].places
    }

    /// The full names of all enums, without a dot in front, as `Target::Enum` counts them.
    pub fn enum_names(&self) -> &[String]
        ensures { map string_bytes result.now
            ≡ map without_dot (enum_names (all_declared self.now.files)) }
    {
        &self.index.enums
    }

    /// The path of a file.
    fn path_of(&self, file: usize) -> &str
        ensures { (e : Entry) → slice_get self.now.files file ≡ Some e → result.now ≡ path_of e }
    {
        match self.files.get_index(file) {
            Some((path, _)) => path.as_str(),
            None => "",
        }
    }

    /// The full name that a name means in a scope of a file, with a dot in front, or why there is
    /// none.
    fn look_up(
        &self,
        alloc: Global,
        file: usize,
        scope: &[&str],
        name: &TypeName,
    ) -> Result<&str, Unresolved>
        requires { file < length self.now.files }
        ensures resolves { IfOk result (λ full. (e : Entry) → slice_get self.now.files file ≡ Some e
            → Resolves (visible_names (outlines self.now.files) (path_of e)) (texts scope.now)
            (reference name.now) full.now) }
        ensures refused { IfErr result (λ why. (e : Entry) → slice_get self.now.files file ≡ Some e
            → Refuses (visible_names (outlines self.now.files) (path_of e))
            (all_names (outlines self.now.files)) (texts scope.now) (reference name.now) why) }
    {
        let visible = Visible {
            own: file,
            marks: &self.visible_files[file],
        };
        self.index.resolve(alloc, visible, scope, name)
    }

    /// The full name, without a dot in front, of the message type or enum that a name names in a
    /// scope of a file. The file is given by its number, the scope by its words.
    ///
    /// E305 where nothing that is seen has what it names and no file has a type of that name, E306
    /// where it names what is neither, E307 where a file has such a type that this one doesn't see;
    /// line and column are 0.
    pub fn resolve(
        &self,
        alloc: Global,
        file: usize,
        scope: &[&str],
        name: &TypeName,
    ) -> Result<&str, LinkError>
        requires { file < length self.now.files }
        ensures resolves { IfOk result (λ full. (e : Entry) → slice_get self.now.files file ≡ Some e
            → Resolves (visible_names (outlines self.now.files) (path_of e)) (texts scope.now)
            (reference name.now) (46 ∷ full.now)) }
        ensures refused { IfErr result
            (λ error. (e : Entry) → slice_get self.now.files file ≡ Some e
            → IsNoName (visible_names (outlines self.now.files) (path_of e))
            (all_names (outlines self.now.files)) (texts scope.now) (reference name.now)
            (path_of e) error) }
    {
        match self.look_up(alloc, file, scope, name) {
            Ok(full) => Ok(behind_dot(full)),
            Err(why) => Err(name_fault(alloc, self.path_of(file), why)),
        }
    }

    /// The file, line and column of a word that declares a full name, which is given without a dot
    /// in front: a part of packages may have several. `None` where no file declares it. It takes no
    /// memory, and goes by the names one by one.
    pub fn place(&self, full_name: &str) -> Option<(&str, usize, usize)>
        ensures place { IfSome result
            (λ p. IsDeclaredAt self.now.files full_name.now p.0.now p.1 p.2) }
        ensures absent { IfNone result (IsDeclaredNowhere self.now.files full_name.now) }
    {
        for number in 0..self.index.names.len() {
            let Some((name, named)) = self.index.names.get_index(number) else {
                continue;
            };
            if is_behind_dot(name.as_str(), full_name) {
                return first_place(&self.files, named);
            }
        }
        None
    }
}
