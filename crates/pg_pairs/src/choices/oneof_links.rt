//! From a field to the later ones that come into its new oneof.

ghost use Rattle.std.specs.Prelude.{◌≡◌, ◌≤◌, ℕ, length, List, Option, if◌then◌else◌, IfOk, OnOk};
ghost use Rattle.pg_schema.specs.Parts.{field_shape, shape_of};
ghost use Rattle.pg_schema.specs.Shape.{FieldShape, fields};
ghost use Rattle.pg_dyn.specs.reading.Content.{same_oneof};
ghost use Rattle.pg_pairs.specs.choices.NewOneof.{new_oneof};
ghost use Rattle.pg_pairs.specs.inner.OneofLinks.{AreLinks, IsAny, IsBeside, IsOutside, Passes, first_in};

use crate::choices::new_oneof::{new_oneof, same_oneof};
use pg_schema::{Field, Schema, TypeId};
use std::alloc::{AllocError, Global};
use std::collections::HashMap;

/// The indices of later fields of a field's new oneof; the length of the list where there is none.
#[derive(Clone, Copy, Debug, PartialEq, Eq)]
pub(crate) struct Link {
    /// The next field.
    pub next: usize,
    /// The next field outside the field's old oneof.
    pub other: usize,
}

/// The index of the former first field of that new oneof; the field at the index is then the first.
fn next_of(
    first: &mut HashMap<u32, usize>,
    oneof: Option<u32>,
    at: usize,
    none: usize,
) -> Result<usize, AllocError>
    ensures former { IfOk result (λ next. next ≡ first_in first.old oneof none) }
    ensures kept { OnOk result ((other : Option ℕ) → first_in first.new other none
        ≡ (if same_oneof oneof other then at else first_in first.old other none)) }
{
    match oneof {
        Some(oneof) => Ok(first.insert(oneof, at)?.unwrap_or(none)),
        None => Ok(none),
    }
}

/// From the next field of a new oneof on the first field outside an old one. That is the next field
/// itself or the one that follows it so.
#[tactic(auto, using(crate::proofs::lemmas::choices::OneofLinks::outside_by, crate::proofs::lemmas::choices::OneofLinks::outside_over))]
fn other_from(list: &[Field], links: &[Link], field: &Field, next: usize) -> usize
    requires { length links.now ≡ length list.now }
    ensures passes { (gs : List FieldShape) (n : ℕ) → AreLinks gs list.now n links.now → n ≤ next
        → Passes gs list.now (new_oneof gs (field_shape field.now)) IsAny n next
        → Passes gs list.now (new_oneof gs (field_shape field.now)) (IsBeside field.now) n result }
    ensures outside { (gs : List FieldShape) (n : ℕ) → AreLinks gs list.now n links.now → n ≤ next
        → IsOutside list.now field.now result }
{
    if next >= list.len() {
        return next;
    }
    let beside = &list[next];
    if same_oneof(field.oneof, beside.oneof) {
        return links[next].other;
    }
    next
}

/// The links of all fields, made from the last field on.
pub(crate) fn links_of(
    alloc: Global,
    new: &Schema,
    type_id: TypeId,
    list: &[Field],
) -> Result<Vec<Link>, AllocError>
    ensures { IfOk result (λ links. AreLinks
        (fields (shape_of new.now) type_id) list.now 0 links.items) }
{
    let none = list.len();
    let mut first = HashMap::new(alloc);
    let mut links = vec![in alloc; Link {
        next: none,
        other: none
    }; none]?;
    let mut at = none;
    while at > 0 {
        at -= 1;
        let field = &list[at];
        let next = next_of(&mut first, new_oneof(new, type_id, field), at, none)?;
        let other = other_from(list, &links, field, next);
        links[at] = Link { next, other };
    }
    Ok(links)
}
