//! The scope in which the first part of a dotted name was last found. Names of one package mostly
//! follow one another in a scope, and are then looked for but once in the scopes around it.
ghost use Rattle.std.specs.HashMap.{get_by_text};
ghost use Rattle.std.specs.Option.{option_map};
ghost use Rattle.std.specs.Prelude.{◌≡◌, IfOk, IfSome, OnOk, Some, string_bytes, true};
ghost use Rattle.pg_link.specs.inner.Index.{names_seen};
ghost use Rattle.pg_link.specs.names.Names.{texts};
ghost use Rattle.pg_link.specs.inner.FoundScope as spec;
ghost use Rattle.pg_link.specs.names.Resolves.{found, reference};

use crate::names::Named;
use crate::names::index::{Index, ROOM, Visible, push_name};
use crate::uses::Site;
use pg_syntax::tree::TypeName;
use std::alloc::{AllocError, Global};
use std::rc::Rc;

/// The full name of the innermost scope that has a word, as the first part of a dotted name, where
/// there is one; and the word and the scope for which it was looked for.
#[derive(Drop)]
pub(crate) struct FoundScope<'a> {
    pub scope: Rc<Vec<&'a str>>,
    pub word: &'a str,
    pub full: Option<String>,
}

/// Whether a name has several parts, and no dot in front.
fn is_dotted(name: &TypeName) -> bool
    ensures { result ≡ true → spec.IsDotted name.now }
{
    !name.is_full && !name.path.more.is_empty()
}

/// Whether both are the same words.
fn are_same(some: &[&str], others: &[&str]) -> bool
    ensures { result ≡ true → texts some.now ≡ texts others.now }
{
    some == others
}

/// Whether it was found for the first part of this name in its scope.
fn is_for(last: &Option<FoundScope<'_>>, site: &Site<'_>) -> bool
    ensures { result ≡ true → spec.IsFor last.now (texts site.now.scope.value.items)
        (string_bytes site.now.name.now.path.first.text) }
{
    let Some(outer) = last else {
        return false;
    };
    if outer.word != site.name.path.first.text.as_str() {
        return false;
    }
    are_same(&outer.scope, &site.scope)
}

/// The full name of a scope, without what was found there.
fn scope_of(found: Option<(String, &str, &Named)>) -> Option<String>
    ensures { result ≡ option_map (λ f. f.0) found.entry }
{
    found.map(|found| found.0)
}

impl Index {
    /// Looks for the first part of a dotted name in the scopes around it, unless it was just found.
    fn recall<'a>(
        &self,
        alloc: Global,
        visible: Visible<'_>,
        site: &Site<'a>,
        last: &mut Option<FoundScope<'a>>,
    ) -> Result<(), AllocError>
        requires recalls { spec.Recalls (names_seen self.now.names (Some visible.marks.now))
            last.old }
        requires dotted { spec.IsDotted site.now.name.now }
        ensures { OnOk result (spec.RecallsFor
            (names_seen self.now.names (Some visible.entry.marks.now))
            (texts site.now.scope.value.items) (string_bytes site.now.name.now.path.first.text)
            last.new) }
    {
        if is_for(last, site) {
            return Ok(());
        }
        let path = &site.name.path;
        let word = path.first.text.as_str();
        let found = self.innermost(alloc, Some(visible), &path.more, word, &site.scope)?;
        let full = scope_of(found);
        let scope = site.scope.clone()?;
        *last = Some(FoundScope { scope, word, full });
        Ok(())
    }

    /// What a dotted name names, whose first part was found.
    fn found_in(
        &self,
        alloc: Global,
        visible: Visible<'_>,
        last: &Option<FoundScope<'_>>,
        name: &TypeName,
    ) -> Result<Option<(&str, &Named)>, AllocError>
        ensures found { IfOk result (λ f. option_map (λ f. (f.0.now, f.1.now.kind)) f
            ≡ spec.found_in (names_seen self.now.names (Some visible.entry.marks.now)) last.now
            (reference name.now)) }
        ensures held { IfOk result (λ f. IfSome f
            (λ f. get_by_text self.now.names f.0.now ≡ Some f.1.now)) }
    {
        let Some(outer) = last else {
            return Ok(None);
        };
        let Some(scope) = &outer.full else {
            return Ok(None);
        };
        let mut full = String::with_capacity(alloc, ROOM)?;
        full.push_str(scope.as_str())?;
        push_name(&mut full, name)?;
        Ok(self.seen(Some(visible), full.as_str()))
    }

    /// What the name of a use names in its scope, of the files that are seen.
    pub(crate) fn found_for<'a>(
        &self,
        alloc: Global,
        visible: Visible<'_>,
        site: &Site<'a>,
        last: &mut Option<FoundScope<'a>>,
    ) -> Result<Option<(&str, &Named)>, AllocError>
        requires { spec.Recalls (names_seen self.now.names (Some visible.marks.now)) last.old }
        ensures recalls { OnOk result (spec.Recalls
            (names_seen self.now.names (Some visible.entry.marks.now)) last.new) }
        ensures found { IfOk result (λ f. option_map (λ f. (f.0.now, f.1.now.kind)) f
            ≡ found (names_seen self.now.names (Some visible.entry.marks.now))
            (texts site.now.scope.value.items) (reference site.now.name.now)) }
        ensures held { IfOk result (λ f. IfSome f
            (λ f. get_by_text self.now.names f.0.now ≡ Some f.1.now)) }
    {
        if !is_dotted(site.name) {
            return self.found(alloc, Some(visible), &site.scope, site.name);
        }
        self.recall(alloc, visible, site, last)?;
        self.found_in(alloc, visible, last, site.name)
    }
}
