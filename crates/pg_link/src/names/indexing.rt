//! The names of files, put into an index one by one.
ghost use Rattle.std.specs.Prelude.{◌≡◌, ◌+◌, ◌++◌, IfErr, IfOk, IfSome, OnOk, Some, None, false, length, map, string_bytes};
ghost use Rattle.pg_link.specs.names.Files.{Declared};
ghost use Rattle.pg_link.specs.names.Names.{is_package, without_dot};
ghost use Rattle.pg_link.specs.inner.Made.{declared_of};
ghost use Rattle.pg_link.specs.names.Standing as spec;
ghost use Rattle.pg_link.specs.inner.Indexed as indexed;
ghost use Rattle.pg_link.specs.uses.Targets.{is_enum, is_message};

use crate::error::{LinkError, place_in};
use crate::names::declares::{DeclaredName, declared_names};
use crate::names::index::{Index, behind_dot};
use crate::names::text_keys::TextKeys;
use crate::names::{Kind, Named};
use crate::walk::SourceFile;
use indexmap::IndexMap;
use std::alloc::{AllocError, Global};

/// What bears a name that this file declares first.
fn first(alloc: Global, file: usize, declared: &DeclaredName, number: usize) -> Named
    ensures added { indexed.view result
        ≡ indexed.added (spec.standing file (declared_of declared.now)) None }
    ensures number { result.number ≡ number }
{
    Named {
        kind: declared.kind,
        at: declared.at,
        file,
        others: Vec::new(alloc),
        number,
    }
}

/// What bears a name once this file declares it too.
fn again(file: usize, named: Named, number: usize) -> Result<Named, AllocError>
    ensures added { IfOk result (λ n. (d : Declared)
        → indexed.view n ≡ indexed.added (spec.standing file d) (Some (indexed.view named))) }
    ensures number { IfOk result (λ n. n.number ≡ number) }
{
    let mut others = named.others;
    others.push(file)?;
    Ok(Named {
        kind: named.kind,
        at: named.at,
        file: named.file,
        others,
        number,
    })
}

/// Whether both are parts of packages, which one name may be of several files.
fn may_share(old: Kind, new: Kind) -> bool
    ensures { result ≡ spec.may_share old new }
{
    old.is_package() && new.is_package()
}

impl Index {
    /// The number of the next that is declared as this.
    fn next_number(&self, kind: Kind) -> usize
        ensures { result ≡ indexed.next_number self.now kind }
    {
        match kind {
            Kind::Message => self.messages.len(),
            Kind::Enum => self.enums.len(),
            _ => 0,
        }
    }

    /// Counts one more that is declared, and keeps the name of an enum.
    fn count(&mut self, alloc: Global, declared: &DeclaredName) -> Result<(), AllocError>
        ensures names { OnOk result (self.new.names ≡ self.old.names) }
        ensures messages { OnOk result
            (length self.new.messages.items
            ≡ length self.old.messages.items + indexed.one_if (is_message declared.now.kind)) }
        ensures enums { OnOk result (map string_bytes self.new.enums.items
            ≡ map string_bytes self.old.enums.items ++ indexed.name_if (is_enum declared.now.kind)
            (without_dot (string_bytes declared.now.name))) }
    {
        match declared.kind {
            Kind::Message => {
                let place = self.names.len();
                self.messages.push(place)?;
            }
            Kind::Enum => {
                let name = String::from_str(alloc, behind_dot(&declared.name))?;
                self.enums.push(name)?;
            }
            _ => {}
        }
        Ok(())
    }

    /// Appends a part of a package. The list of its files stays where it is and grows, however many
    /// share the name. False where the name is declared twice.
    fn add_part(
        &mut self,
        alloc: Global,
        file: usize,
        declared: DeclaredName,
    ) -> Result<bool, AllocError>
        ensures { IfOk result (λ may. indexed.Adds self.old self.new
            (spec.standing file (declared_of declared)) may) }
    {
        let number = self.next_number(declared.kind);
        let alone = first(alloc, file, &declared, number);
        self.count(alloc, &declared)?;
        let name = declared.name.clone()?;
        match self.names.insert(name, alone)? {
            None => Ok(true),
            Some(named) => {
                if !may_share(named.kind, declared.kind) {
                    return Ok(false);
                }
                let more = again(file, named, number)?;
                self.names.insert(declared.name, more)?;
                Ok(true)
            }
        }
    }

    /// Appends a name that no other may share, so that it is hashed once. False where it is
    /// declared twice.
    fn add_alone(
        &mut self,
        alloc: Global,
        file: usize,
        declared: DeclaredName,
    ) -> Result<bool, AllocError>
        requires { is_package declared.kind ≡ false }
        ensures { IfOk result (λ may. indexed.Adds self.old self.new
            (spec.standing file (declared_of declared)) may) }
    {
        let number = self.next_number(declared.kind);
        let named = first(alloc, file, &declared, number);
        self.count(alloc, &declared)?;
        match self.names.insert(declared.name, named)? {
            Some(_) => return Ok(false),
            None => {}
        }
        Ok(true)
    }

    /// Appends a name that a file declares. False where the name is declared twice.
    pub(crate) fn add(
        &mut self,
        alloc: Global,
        file: usize,
        declared: DeclaredName,
    ) -> Result<bool, AllocError>
        ensures { IfOk result (λ may. indexed.Adds self.old self.new
            (spec.standing file (declared_of declared)) may) }
    {
        if declared.kind.is_package() {
            self.add_part(alloc, file, declared)
        } else {
            self.add_alone(alloc, file, declared)
        }
    }
}

impl Index {
    /// Appends the names that a file declares. `number` is the file's.
    fn add_file(
        &mut self,
        alloc: Global,
        number: usize,
        path: &str,
        file: &SourceFile,
    ) -> Result<(), LinkError>
        ensures holds { OnOk result (indexed.AddsAll self.old self.new
            (spec.standings number file.now.tree)) }
        ensures twice { IfErr result
            (indexed.IsTwice self.old number path.now file.now.bytes.items
            (spec.standings number file.now.tree)) }
    {
        let names = declared_names(alloc, &file.tree)?;
        self.names.reserve(names.len())?;
        for declared in names {
            let at = declared.at;
            if !self.add(alloc, number, declared)? {
                let place = place_in(alloc, path, &file.bytes, at)?;
                return Err(LinkError::DuplicateName(place));
            }
        }
        Ok(())
    }
}

/// The names of all files, by their full names and in the order in which they are declared.
/// `files` are in the order in which their names are looked at; the number of each is its
/// index.
///
/// E304 where a name is declared twice, and not both times as a part of a package: at the later of
/// the two.
pub(crate) fn index_names(
    alloc: Global,
    files: &IndexMap<String, SourceFile>,
) -> Result<Index, LinkError>
    // The index holds just the names that the files declare, and none is declared twice.
    ensures holds { IfOk result (λ index. indexed.Holds index.names
        (spec.all_standings files.now.entries)) }
    ensures once { OnOk result (spec.NoneTwice (spec.all_standings files.now.entries)) }
    // Each message type and enum has its number.
    ensures numbered { IfOk result (λ index. indexed.IsNumbered index
        (spec.all_standings files.now.entries)) }
    // A name is refused only where it is the first that is declared twice, at its position.
    ensures twice { IfErr result (spec.IsTwiceIn files.now.entries) }
{
    let mut index = Index {
        names: IndexMap::with_hasher(alloc, TextKeys::of(files)),
        messages: Vec::new(alloc),
        enums: Vec::new(alloc),
    };
    for number in 0..files.len() {
        let Some((path, file)) = files.get_index(number) else {
            continue;
        };
        index.add_file(alloc, number, path.as_str(), file)?;
    }
    Ok(index)
}
