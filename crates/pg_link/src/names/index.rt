//! The names of all files, by their full names.
ghost use Rattle.std.specs.HashMap.{get_by_text};
ghost use Rattle.std.specs.Prelude.{◌≡◌, ◌++◌, IfOk, IfSome, List, OnOk, Some, None, [], ◌∷◌, string_bytes, false, true, ℕ};
ghost use Rattle.std.specs.Option.{is_some, option_map};
ghost use Rattle.pg_link.specs.inner.Index as spec;
ghost use Rattle.pg_link.specs.names.Names as names;
ghost use Rattle.pg_link.specs.names.Resolves as resolves;

use crate::names::text_keys::TextKeys;
use crate::names::{Kind, Named};
use indexmap::IndexMap;
use pg_syntax::tree::{Name, TypeName};
use std::alloc::{AllocError, Global};

/// What is visible in a file: its own number, and for each file whether it is visible.
#[derive(Clone, Copy)]
pub(crate) struct Visible<'a> {
    pub own: usize,
    pub marks: &'a [bool],
}

/// A full name without the dot in front.
pub(crate) fn behind_dot(full: &str) -> &str
    ensures { result.now ≡ names.without_dot full.now }
{
    full.strip_prefix(".").unwrap_or(full)
}

/// Whether the file that asks is one of these, and is visible in itself.
fn is_own(visible: Visible<'_>, files: &[usize]) -> bool
    ensures { result ≡ true → spec.sees_one visible.entry.marks.now files.now ≡ true }
{
    match files.binary_search(&visible.own) {
        Ok(_) => visible.marks.get(visible.own).copied().unwrap_or(false),
        Err(_) => false,
    }
}

/// Whether one of the files is visible. A part of a package may be in all files, and mostly is
/// in the one that asks, so that is looked at first.
fn sees_one(visible: Visible<'_>, files: &[usize]) -> bool
    ensures { result ≡ spec.sees_one visible.entry.marks.now files.now }
{
    if is_own(visible, files) {
        return true;
    }
    for file in files {
        if visible.marks.get(*file).copied().unwrap_or(false) {
            return true;
        }
    }
    false
}

/// Whether one of the files that declare a name is seen. Where no file looks, all are.
fn is_seen(visible: Option<Visible<'_>>, named: &Named) -> bool
    ensures { result ≡ spec.is_seen (spec.visible_of visible.entry) (spec.files_of named.now) }
{
    let Some(visible) = visible else {
        return true;
    };
    if visible.marks.get(named.file).copied().unwrap_or(false) {
        return true;
    }
    sees_one(visible, &named.others)
}

/// Whether the search for the first part of a name ends at this kind, by the parts after it.
fn ends_at(kind: Kind, parts: &[Name]) -> bool
    ensures { result ≡ resolves.sought_among (resolves.part_words parts.now) kind }
{
    match parts {
        [] => kind.ends_word(),
        [_, ..] => kind.ends_part(),
    }
}

/// Appends a dot and the word to the name.
pub(crate) fn push_word(text: &mut String, word: &str) -> Result<(), AllocError>
    ensures { OnOk result (string_bytes text.new
        ≡ string_bytes text.old ++ names.called (word.now ∷ [])) }
{
    text.push_str(".")?;
    text.push_str(word)
}

/// As many bytes as most full names have, so that few names grow twice.
pub(crate) const ROOM: usize = 128;

/// The full name of these words.
fn called(alloc: Global, words: &[&str]) -> Result<String, AllocError>
    ensures { IfOk result (λ text. string_bytes text ≡ names.called (names.texts words.now)) }
{
    let mut text = String::with_capacity(alloc, ROOM)?;
    for word in words {
        push_word(&mut text, word)?;
    }
    Ok(text)
}

/// Takes a dot and the word after it away from the end of the name.
fn pop_word(text: &mut String, word: &str)
    requires { (front : List ℕ) × (string_bytes text.old ≡ front ++ names.called (word.now ∷ [])) }
    ensures { (front : List ℕ) → string_bytes text.old ≡ front ++ names.called (word.now ∷ [])
        → string_bytes text.new ≡ front }
{
    text.truncate(text.len() - word.len() - 1);
}

/// Appends a name to another, as it would be written after a dot.
pub(crate) fn push_name(text: &mut String, name: &TypeName) -> Result<(), AllocError>
    ensures { OnOk result (string_bytes text.new
        ≡ string_bytes text.old ++ resolves.written (resolves.reference name.now)) }
{
    push_word(text, name.path.first.text.as_str())?;
    for part in &name.path.more {
        push_word(text, part.text.as_str())?;
    }
    Ok(())
}

/// The names of all files, in the order in which they were first declared, the indices among them
/// of the message types, and the full names of the enums without a dot in front.
#[derive(Debug, Drop)]
pub(crate) struct Index {
    pub names: IndexMap<String, Named, TextKeys>,
    pub messages: Vec<usize>,
    pub enums: Vec<String>,
}

impl Index {
    /// What bears the name in the files that are seen.
    pub(crate) fn seen(&self, visible: Option<Visible<'_>>, full: &str) -> Option<(&str, &Named)>
        ensures borne { option_map (λ f. (f.0.now, f.1.now.kind)) result
            ≡ resolves.borne (spec.names_seen self.now.names (spec.visible_of visible.entry))
            full.now }
        ensures held { IfSome result (λ f. get_by_text self.now.names full.now ≡ Some f.1.now) }
    {
        let (name, named) = self.names.get_key_value(full)?;
        if is_seen(visible, named) {
            Some((name.as_str(), named))
        } else {
            None
        }
    }

    /// What bears the name in the files that are seen, where the search for the first part of a
    /// name ends at it, by the parts after that. As what it is declared is looked at first: a part
    /// of a package, which may be in many files, ends no search for a word alone.
    fn ended(
        &self,
        visible: Option<Visible<'_>>,
        full: &str,
        parts: &[Name],
    ) -> Option<(&str, &Named)>
        ensures borne { IfSome result (λ f. Some (f.0.now, f.1.now.kind) ≡ resolves.borne
            (spec.names_seen self.now.names (spec.visible_of visible.entry)) full.now) }
        ensures ends { is_some result ≡ names.bears
            (spec.names_seen self.now.names (spec.visible_of visible.entry))
            (resolves.sought_among (resolves.part_words parts.now)) full.now }
        ensures held { IfSome result (λ f. get_by_text self.now.names f.0.now ≡ Some f.1.now) }
    {
        let (name, named) = self.names.get_key_value(full)?;
        if ends_at(named.kind, parts) && is_seen(visible, named) {
            Some((name.as_str(), named))
        } else {
            None
        }
    }

    /// The full name of the innermost scope in which the search for a word ends, and what bears the
    /// word there.
    pub(crate) fn innermost(
        &self,
        alloc: Global,
        visible: Option<Visible<'_>>,
        parts: &[Name],
        word: &str,
        scope: &[&str],
    ) -> Result<Option<(String, &str, &Named)>, AllocError>
        ensures outer { IfOk result (λ f. option_map (λ f. string_bytes f.0) f
            ≡ option_map names.called
            (resolves.innermost (spec.names_seen self.now.names (spec.visible_of visible.entry))
            (resolves.sought_among (resolves.part_words parts.now)) (names.called (word.now ∷ []))
            (names.texts scope.now))) }
        ensures borne { IfOk result (λ f. IfSome f (λ f. Some (f.1.now, f.2.now.kind)
            ≡ resolves.borne (spec.names_seen self.now.names (spec.visible_of visible.entry))
            (string_bytes f.0 ++ names.called (word.now ∷ [])))) }
        ensures held { IfOk result (λ f. IfSome f
            (λ f. get_by_text self.now.names f.1.now ≡ Some f.2.now)) }
    {
        let mut full = called(alloc, scope)?;
        let mut len = scope.len();
        'scopes: loop {
            push_word(&mut full, word)?;
            let ended = self.ended(visible, full.as_str(), parts);
            pop_word(&mut full, word);
            if let Some((name, named)) = ended {
                return Ok(Some((full, name, named)));
            }
            if len == 0 {
                return Ok(None);
            }
            len -= 1;
            pop_word(&mut full, scope[len]);
        }
    }

    /// What a name names in a scope, of the files that are seen. With a dot in front it is a full
    /// name; a word alone is looked for but once in each scope.
    pub(crate) fn found(
        &self,
        alloc: Global,
        visible: Option<Visible<'_>>,
        scope: &[&str],
        name: &TypeName,
    ) -> Result<Option<(&str, &Named)>, AllocError>
        ensures found { IfOk result (λ f. option_map (λ f. (f.0.now, f.1.now.kind)) f
            ≡ resolves.found
            (spec.names_seen self.now.names (spec.visible_of visible.entry))
            (names.texts scope.now) (resolves.reference name.now)) }
        ensures held { IfOk result (λ f. IfSome f
            (λ f. get_by_text self.now.names f.0.now ≡ Some f.1.now)) }
    {
        if name.is_full {
            let mut text = String::with_capacity(alloc, ROOM)?;
            push_name(&mut text, name)?;
            return Ok(self.seen(visible, text.as_str()));
        }
        let first = name.path.first.text.as_str();
        let parts: &[Name] = &name.path.more;
        let Some((mut full, word, named)) = self.innermost(alloc, visible, parts, first, scope)?
        else {
            return Ok(None);
        };
        if parts.is_empty() {
            return Ok(Some((word, named)));
        }
        push_name(&mut full, name)?;
        Ok(self.seen(visible, full.as_str()))
    }
}
