//! Where enums are in a schema, which has them scope by scope.

ghost use Rattle.std.specs.Prelude.{◌≡◌, ◌++◌, ℕ, IfOk, List, OnOk, flat_map, map, string_bytes};
ghost use Rattle.std.specs.BTreeMap.{get_by_text};
ghost use Rattle.std.specs.List.{position_from};
ghost use Rattle.std.specs.Str.{bytes_eq};
ghost use Rattle.pg_check.specs.parts.EnumPlaces as spec;
ghost use Rattle.pg_check.specs.inner.CodeViews.{enumeration};

use crate::rules::outline::{FoundEnum, file_messages, scoped_enums};
use indexmap::IndexMap;
use pg_link::{Linked, SourceFile};
use std::alloc::{AllocError, Global};
use std::collections::BTreeMap;

/// Appends the full names of enums.
fn push_names(names: &mut Vec<String>, found: &[FoundEnum<'_>]) -> Result<(), AllocError>
    ensures { OnOk result (map string_bytes names.new.items
        ≡ map string_bytes names.old.items ++ map spec.enum_full (map enumeration found.now)) }
{
    for one in found {
        names.push(one.full.clone()?)?;
    }
    Ok(())
}

/// The full names of all enums, scope by scope.
fn scoped_names(
    alloc: Global,
    files: &IndexMap<String, SourceFile>,
) -> Result<Vec<String>, AllocError>
    ensures { IfOk result (λ names. map string_bytes names.items
        ≡ spec.scoped_names files.now.entries) }
{
    let mut names = Vec::new(alloc);
    for number in 0..files.len() {
        let Some((_, file)) = files.get_index(number) else {
            continue;
        };
        let messages = file_messages(alloc, &file.tree)?;
        let found = scoped_enums(alloc, &file.tree, &messages)?;
        push_names(&mut names, &found)?;
    }
    Ok(names)
}

/// The index of each name, of its first one.
fn places_of(alloc: Global, mut names: Vec<String>) -> Result<BTreeMap<String, usize>, AllocError>
    ensures { IfOk result (λ places. (name : List ℕ)
        → get_by_text places name ≡ position_from (bytes_eq name) 0
        (map string_bytes names.items)) }
{
    let mut places = BTreeMap::new(alloc);
    'names: while let Some(name) = names.pop() {
        places.insert(name, names.len())?;
    }
    Ok(places)
}

/// For each enum in order of declaration its index scope by scope.
pub(crate) fn enum_places(alloc: Global, linked: &Linked) -> Result<Vec<usize>, AllocError>
    ensures { IfOk result (λ places. places.items ≡ spec.enum_places linked.now.files) }
{
    let declared = linked.enum_names();
    if declared.is_empty() {
        return Ok(Vec::new(alloc));
    }
    let scoped = places_of(alloc, scoped_names(alloc, linked.files())?)?;
    let mut places = Vec::new(alloc);
    for name in declared {
        places.push(scoped.get(name.as_str()).copied().unwrap_or(0))?;
    }
    Ok(places)
}
