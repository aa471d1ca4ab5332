//! What a type name that a file uses resolves to.
ghost use Rattle.std.specs.Prelude.{◌≡◌, IfErr, IfOk, List, None, OnOk, Some};
ghost use Rattle.pg_link.specs.inner.Index.{names_seen};
ghost use Rattle.pg_link.specs.names.Names.{texts, Names};
ghost use Rattle.pg_link.specs.inner.FoundScope.{Recalls};
ghost use Rattle.pg_link.specs.names.Resolves.{found, reference};
ghost use Rattle.pg_link.specs.inner.Made.{use_of};
ghost use Rattle.pg_link.specs.inner.Indexed.{IsNumbered, declared_in, taken_by};
ghost use Rattle.pg_link.specs.names.Standing.{Standing};
ghost use Rattle.pg_link.specs.uses.Targets.{target_in};
ghost use Rattle.pg_link.specs.inner.Refusals.{Refuses, RefusesUse};

use crate::names::index::{Index, Visible};
use crate::names::resolve::Unresolved;
use crate::names::{Kind, Named};
use crate::uses::Site;
use crate::uses::found_scope::FoundScope;
use pg_syntax::tree::TypeName;
use std::alloc::Global;

/// A message type or an enum, by its number: how many message types (enums) are declared before it,
/// in all files in their order.
#[derive(Clone, Copy, Debug, PartialEq, Eq)]
pub enum Target {
    Message(usize),
    Enum(usize),
}

/// What is named, where it is a message type, or an enum that may be used there.
fn target_of(named: &Named, takes_enums: bool) -> Option<Target>
    ensures { result ≡ taken_by takes_enums named.now.kind named.now.number }
{
    match named.kind {
        Kind::Message => Some(Target::Message(named.number)),
        Kind::Enum => {
            if takes_enums {
                Some(Target::Enum(named.number))
            } else {
                None
            }
        }
        _ => None,
    }
}

impl Index {
    /// Why a name isn't found in the files that are seen.
    pub(crate) fn unseen(&self, alloc: Global, scope: &[&str], name: &TypeName) -> Unresolved
        ensures { (visible : Names) → found visible (texts scope.now) (reference name.now) ≡ None
            → Refuses visible (names_seen self.now.names None) (texts scope.now)
            (reference name.now) result }
    {
        match self.found(alloc, None, scope, name) {
            Ok(Some((_, named))) => {
                if named.kind.is_type() {
                    Unresolved::NotImported
                } else {
                    Unresolved::UnknownName
                }
            }
            Ok(None) => Unresolved::UnknownName,
            Err(_) => Unresolved::Memory,
        }
    }

    /// What a use resolves to, by the names in the files that are seen. `last` is what was last
    /// found for a dotted name, by the same names.
    pub(crate) fn target<'a>(
        &self,
        alloc: Global,
        visible: Visible<'_>,
        site: &Site<'a>,
        last: &mut Option<FoundScope<'a>>,
    ) -> Result<Target, Unresolved>
        requires { Recalls (names_seen self.now.names (Some visible.marks.now)) last.old }
        ensures recalls { OnOk result
            (Recalls (names_seen self.now.names (Some visible.entry.marks.now)) last.new) }
        ensures target { IfOk result (λ target. (all : List Standing) → IsNumbered self.now all
            → target_in (declared_in all) (names_seen self.now.names (Some visible.entry.marks.now))
            (use_of site.now) ≡ Some target) }
        ensures refused { IfErr result
            (RefusesUse (names_seen self.now.names (Some visible.entry.marks.now))
            (names_seen self.now.names None) (use_of site.now)) }
    {
        match self.found_for(alloc, visible, site, last)? {
            Some((_, named)) => match target_of(named, site.takes_enums) {
                Some(target) => Ok(target),
                None => Err(Unresolved::NotAType),
            },
            None => Err(self.unseen(alloc, &site.scope, site.name)),
        }
    }
}
