//! Names that are reserved, and names that are there twice.

ghost use Rattle.std.specs.Prelude.{◌≡◌, IfOk, map, string_bytes};
ghost use Rattle.pg_schema.specs.rules.TextSets.{IsSetOf};
ghost use Rattle.pg_check.specs.inner.NameFaults as spec;

use std::alloc::{AllocError, Global};
use std::collections::BTreeSet;

/// A name, and where it is declared.
#[derive(Clone, Copy)]
pub(crate) struct Called<'a> {
    pub text: &'a str,
    pub at: usize,
}

/// A JSON name, and where its field is declared.
#[derive(Drop)]
pub(crate) struct Titled {
    pub text: String,
    pub at: usize,
}

/// The set of these names.
fn set_of(alloc: Global, texts: &[String]) -> Result<BTreeSet<String>, AllocError>
    ensures { IfOk result (λ set. IsSetOf (map string_bytes texts.now) set) }
{
    let mut set = BTreeSet::new(alloc);
    for text in texts {
        set.insert(text.clone()?)?;
    }
    Ok(set)
}

/// The offset of the first name that is reserved.
pub(crate) fn first_among(
    alloc: Global,
    reserved: &[String],
    names: &[Called<'_>],
) -> Result<Option<usize>, AllocError>
    ensures { IfOk result (λ place. place
        ≡ spec.first_among (map string_bytes reserved.now) (map spec.called names.now)) }
{
    let set = set_of(alloc, reserved)?;
    for name in names {
        if set.contains(name.text) {
            return Ok(Some(name.at));
        }
    }
    Ok(None)
}

/// The offset of the first name that came before.
pub(crate) fn first_twice(alloc: Global, texts: &[Titled]) -> Result<Option<usize>, AllocError>
    ensures { IfOk result (λ place. place ≡ spec.first_twice (map spec.titled texts.now)) }
{
    let mut seen = BTreeSet::new(alloc);
    for one in texts {
        if !seen.insert(one.text.as_str())? {
            return Ok(Some(one.at));
        }
    }
    Ok(None)
}
