//! Names in sets.

ghost use Rattle.std.specs.Prelude.{◌≡◌, ◌∷◌, ◌<◌, IfOk, map};
ghost use Rattle.std.specs.String.{string_bytes};
ghost use Rattle.pg_schema.specs.rules.DeclaredNames.{within};
ghost use Rattle.pg_set.specs.writing.Messages.{own_name};

use std::alloc::{AllocError, Global};

/// What comes after the last dot of a full name.
pub(crate) fn own_name(name: &str) -> &str
    ensures { result.now ≡ own_name name.now }
{
    match name.rsplit_once('.') {
        Some((_, own)) => own,
        None => name,
    }
}

/// A full name with a dot in front.
pub(crate) fn dotted(alloc: Global, name: &str) -> Result<String, AllocError>
    ensures { IfOk result (λ full. string_bytes full ≡ 46 ∷ name.now) }
{
    dotted_with_room(alloc, name, name.len().saturating_add(1))
}

// A full name with a dot in front, in a string that has room for so many bytes.
fn dotted_with_room(alloc: Global, name: &str, room: usize) -> Result<String, AllocError>
    ensures { IfOk result (λ full. string_bytes full ≡ 46 ∷ name.now) }
{
    let mut full = String::with_capacity(alloc, room)?;
    full.push('.')?;
    full.push_str(name)?;
    Ok(full)
}

/// The full name of a name that the scope declares, with a dot in front.
pub(crate) fn dotted_within(alloc: Global, scope: &str, name: &str) -> Result<String, AllocError>
    ensures { IfOk result (λ full. string_bytes full ≡ 46 ∷ within scope.now name.now) }
{
    let room = scope.len().saturating_add(name.len()).saturating_add(2);
    let mut full = dotted_with_room(alloc, scope, room)?;
    if !scope.is_empty() {
        full.push('.')?;
    }
    full.push_str(name)?;
    Ok(full)
}
