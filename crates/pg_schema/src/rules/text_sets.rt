//! Sets of strings.

ghost use Rattle.std.specs.Prelude.{◌≡◌, IfOk, IfSome, is_some, map, not};
ghost use Rattle.std.specs.List.{list_all};
ghost use Rattle.std.specs.String.{string_bytes};
ghost use Rattle.pg_schema.specs.rules.Pairs.{are_distinct};
ghost use Rattle.pg_schema.specs.inner.LentTexts.{has_lent, IsLentSetOf, lent};
ghost use Rattle.pg_schema.specs.rules.TextSets.{are_named_once};

use std::alloc::{AllocError, Global};
use std::collections::BTreeSet;

/// The strings, lent.
pub(crate) fn lent(alloc: Global, texts: &[String]) -> Result<Vec<&str>, AllocError>
    ensures { IfOk result (λ found. lent found.items ≡ map string_bytes texts.now) }
{
    let mut found = Vec::with_capacity(alloc, texts.len())?;
    for text in texts {
        found.push(text.as_str())?;
    }
    Ok(found)
}

/// The set of these strings. `None` where one is there twice.
pub(crate) fn set_of<'a>(
    alloc: Global,
    texts: &[&'a str],
) -> Result<Option<BTreeSet<&'a str>>, AllocError>
    ensures distinct { IfOk result (λ set. is_some set ≡ are_distinct (lent texts.now)) }
    ensures held { IfOk result (λ found. IfSome found (IsLentSetOf (lent texts.now))) }
{
    let mut set = BTreeSet::new(alloc);
    for text in texts {
        let is_new = set.insert(*text)?;
        if !is_new {
            return Ok(None);
        }
    }
    Ok(Some(set))
}

/// None of the strings is in the set.
pub(crate) fn holds_none(set: &BTreeSet<&str>, texts: &[String]) -> bool
    ensures { result ≡ list_all (λ text. not (has_lent set.now (string_bytes text))) texts.now }
{
    for text in texts {
        if set.contains(text.as_str()) {
            return false;
        }
    }
    true
}

/// Each name is there once, and none is reserved.
pub(crate) fn are_named_once(
    alloc: Global,
    names: &[&str],
    reserved: &[String],
) -> Result<bool, AllocError>
    ensures { IfOk result (λ b. b ≡ are_named_once (lent names.now)
        (map string_bytes reserved.now)) }
{
    match set_of(alloc, names)? {
        Some(set) => Ok(holds_none(&set, reserved)),
        None => Ok(false),
    }
}
