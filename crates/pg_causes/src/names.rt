//! The message types of two schemas by their names.

ghost use Rattle.std.specs.Prelude.{◌≡◌, ℕ, List, map, Some, string_bytes, IfOk};
ghost use Rattle.std.specs.List.{AllByRecursion};
ghost use Rattle.pg_schema.specs.Parts.{name_at};
ghost use Rattle.pg_least.specs.Loss.{AreRoots};
ghost use Rattle.pg_pairs.specs.declared.choices.choice.Pair.{Pair};
ghost use Rattle.pg_causes.specs.Names.{only, shared};

use pg_pairs::Pair;
use pg_schema::{Schema, TypeId};
use std::alloc::{AllocError, Global};

/// The message types of each name that both schemas declare, in the old order of declaration.
pub(crate) fn roots_of(alloc: Global, old: &Schema, new: &Schema) -> Result<Vec<Pair>, AllocError>
    ensures in_order { IfOk result (λ roots.
        map (λ (p : Pair). name_at old.now.types.items p.old) roots.items
        ≡ map Some (shared old.now new.now)) }
    ensures alike { IfOk result (λ roots.
        AllByRecursion (λ p. (name : List ℕ) × AreRoots old.now new.now name p) roots.items) }
{
    let types = old.parts().types.as_slice();
    let mut roots = Vec::new(alloc);
    for index in 0..types.len() {
        if let Some(new_type) = new.message(types[index].name.as_str()) {
            roots.push(Pair {
                old: TypeId {
                    index: index as u32,
                },
                new: new_type,
            })?;
        }
    }
    Ok(roots)
}

/// The full names of the message types of one schema that the other doesn't declare, in order of
/// declaration.
pub(crate) fn names_only(
    alloc: Global,
    one: &Schema,
    other: &Schema,
) -> Result<Vec<String>, AllocError>
    ensures { IfOk result (λ names. map string_bytes names.items ≡ only one.now other.now) }
{
    let types = one.parts().types.as_slice();
    let mut names = Vec::new(alloc);
    for message_type in types {
        let name = message_type.name.as_str();
        if other.message(name).is_none() {
            names.push(String::from_str(alloc, name)?)?;
        }
    }
    Ok(names)
}
