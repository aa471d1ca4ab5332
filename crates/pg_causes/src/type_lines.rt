//! The lines of the message types that both schemas declare.

ghost use Rattle.std.specs.Prelude.{◌≡◌, ◌<◌, true, is_some, length, map, Some, string_bytes, IfOk};
ghost use Rattle.std.specs.List.{AllByRecursion};
ghost use Rattle.pg_schema.specs.Parts.{name_at, shape_of};
ghost use Rattle.pg_pairs.specs.declared.choices.choice.Pair.{Pair};
ghost use Rattle.pg_cert.specs.Certificate.{bound_in};
ghost use Rattle.pg_causes.specs.declared.overview.TypeLine.{TypeLine};

use crate::overview::TypeLine;
use pg_cert::Bounds;
use pg_pairs::{Pair, Table};
use pg_schema::Schema;
use std::alloc::{AllocError, Global};

/// The line of a pair that is in the table, by the name of its old type.
fn type_line(
    alloc: Global,
    old: &Schema,
    root: Pair,
    bounds: &Bounds,
) -> Result<TypeLine, AllocError>
    requires old_type { root.old.index < length (shape_of old.now) }
    requires bound { is_some (bound_in bounds.now root) ≡ true }
    ensures name { IfOk result (λ line. name_at old.now.types.items root.old
        ≡ Some (string_bytes line.name)) }
    ensures bound { IfOk result (λ line. bound_in bounds.now root ≡ Some line.bound) }
{
    match (old.message_type(root.old), bounds.bound(root)) {
        (Some(message_type), Some(bound)) => Ok(TypeLine {
            name: String::from_str(alloc, message_type.name.as_str())?,
            bound,
        }),
        _ => unreachable!(),
    }
}

/// A line for each of the roots, which are in the table, by the names of their old types.
pub(crate) fn type_lines(
    alloc: Global,
    old: &Schema,
    roots: &[Pair],
    bounds: &Bounds,
) -> Result<Vec<TypeLine>, AllocError>
    requires old_types { AllByRecursion (λ (p : Pair). p.old.index < length (shape_of old.now))
        roots.now }
    requires bounds { AllByRecursion (λ p. is_some (bound_in bounds.now p) ≡ true) roots.now }
    ensures names { IfOk result (λ lines. map (λ (l : TypeLine). Some (string_bytes l.name))
        lines.items ≡ map (λ (p : Pair). name_at old.now.types.items p.old) roots.now) }
    ensures bounds { IfOk result (λ lines. map (λ (l : TypeLine). Some l.bound) lines.items
        ≡ map (bound_in bounds.now) roots.now) }
{
    let mut lines = Vec::with_capacity(alloc, roots.len())?;
    for root in roots {
        lines.push(type_line(alloc, old, *root, bounds)?)?;
    }
    Ok(lines)
}
