//! Which member of each oneof of a message was set last, so that it is found without going over all
//! contents.

ghost use Rattle.std.specs.Prelude.{◌≡◌, ◌<◌, ℕ, true, get_or, length, IfSome};
ghost use Rattle.pg_schema.specs.Parts.{field_shape, shape_of};
ghost use Rattle.pg_schema.specs.Shape.{fields};
ghost use Rattle.pg_dyn.specs.declared.message.Content.{Content as TheContent};
ghost use Rattle.pg_dyn.specs.message.Replacing.{is_sibling_number};
ghost use Rattle.pg_dyn.specs.message.Seen.{Rises};

use crate::field_list::holds;
use crate::message::Content;
use crate::setting::oneof_siblings::is_sibling;
use pg_schema::{Field, Schema, TypeId};
use std::alloc::Global;

/// Of fewer contents none is noted: to go over them costs little.
pub(crate) const FEW: usize = 32;

// The member of the field's oneof that was noted last.
fn last_set_member(last_set: &[u32], field: &Field) -> Option<u32> {
    let place = field.oneof? as usize;
    if place < last_set.len() {
        return Some(last_set[place]);
    }
    None
}

/// The other member of the field's oneof that was noted last, where a content is under its
/// number.
pub(crate) fn last_set_sibling(
    contents: &[(u32, Content)],
    last_set: &[u32],
    schema: &Schema,
    type_id: TypeId,
    field: &Field,
) -> Option<u32>
    requires { Rises contents.now }
    ensures sibling { IfSome result (λ number. is_sibling_number
        (fields (shape_of schema.now) type_id) (field_shape field.now) number ≡ true) }
    ensures there { IfSome result (λ number. (place : ℕ) × (place < length contents.now)
        × ((d : ℕ × TheContent) → (get_or contents.now place d).0 ≡ number)) }
{
    let number = last_set_member(last_set, field)?;
    if is_sibling(schema, type_id, field, number) && holds(contents, number) {
        return Some(number);
    }
    None
}

/// The members of oneofs among the contents. Where memory is refused, fewer are noted.
#[inline(never)]
pub(crate) fn last_set_members(
    alloc: Global,
    schema: &Schema,
    type_id: TypeId,
    contents: &[(u32, Content)],
) -> Vec<u32> {
    let mut last_set = Vec::new(alloc);
    if contents.len() < FEW {
        return last_set;
    }
    for (number, _) in contents {
        if let Some(field) = schema.field(type_id, *number) {
            note(&mut last_set, contents.len(), field);
        }
    }
    last_set
}

/// Notes the field as the member of its oneof that was set last, in a message of so many contents.
pub(crate) fn note(last_set: &mut Vec<u32>, contents: usize, field: &Field) {
    let Some(oneof) = field.oneof else {
        return;
    };
    if contents < FEW {
        return;
    }
    let place = oneof as usize;
    // A message of a type with far more oneofs than contents notes none of the last: that would
    // take more than it saves.
    if place >= contents.saturating_mul(8) {
        return;
    }
    if place >= last_set.len() && last_set.resize(place + 1, 0).is_err() {
        return;
    }
    last_set[place] = field.number;
}
