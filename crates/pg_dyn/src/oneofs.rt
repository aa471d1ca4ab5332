//! Members of oneofs among the contents of a message.

ghost use Rattle.std.specs.Prelude.{◌≡◌, ◌↔◌, ℕ, ◌+◌, ◌^◌, ◌<◌, ◌≤◌, length, false, option_and_then, IfSome, IsTrue};
ghost use Rattle.pg_schema.specs.Parts.{shape_of};
ghost use Rattle.pg_schema.specs.Shape.{field_at, fields};
ghost use Rattle.pg_dyn.specs.reading.Content.{same_oneof};
ghost use Rattle.pg_dyn.specs.setting.ContentFaults.{members};
ghost use Rattle.pg_dyn.specs.fitting.ContentFits.{NoneSiblings};
ghost use Rattle.pg_dyn.specs.message.Seen.{Rises};

use crate::message::Content;
use pg_schema::{Schema, TypeId};

// Whether both are one oneof.
pub(crate) fn is_same_oneof(first: Option<u32>, second: Option<u32>) -> bool
    ensures { result ≡ same_oneof first second }
{
    match (first, second) {
        (Some(first), Some(second)) => first == second,
        _ => false,
    }
}

// The oneof of which the field of the number is a member.
fn oneof_of(schema: &Schema, type_id: TypeId, number: u32) -> Option<u32>
    ensures { result ≡ option_and_then
        (λ f. f.oneof) (field_at (fields (shape_of schema.now) type_id) number) }
{
    match schema.field(type_id, number) {
        Some(field) => field.oneof,
        None => None,
    }
}

// The larger of a number and the one above a oneof.
fn end_with(end: usize, oneof: Option<u32>) -> usize
    requires { end ≤ 2 ^ 32 }
    ensures bound { result ≤ 2 ^ 32 }
    ensures grows { end ≤ result }
    ensures above { IfSome oneof (λ o. o < result) }
{
    match oneof {
        Some(oneof) if end <= oneof as usize => oneof as usize + 1,
        _ => end,
    }
}

// A number above each oneof of which a content is a member.
fn oneofs_end(schema: &Schema, type_id: TypeId, contents: &[(u32, Content)]) -> usize
    ensures bound { result ≤ 2 ^ 32 }
    ensures none { (oneof : ℕ) → result ≤ oneof
        → length (members (fields (shape_of schema.now) type_id) oneof contents.now) ≡ 0 }
{
    let mut end = 0;
    for (number, _) in contents {
        end = end_with(end, oneof_of(schema, type_id, *number));
    }
    end
}

// How many oneofs are looked at in one walk over the contents.
const WINDOW: usize = 1024;

// Whether each oneof of the window that begins with this one has one content at most.
#[inline(never)]
fn once_in_window(
    schema: &Schema,
    type_id: TypeId,
    contents: &[(u32, Content)],
    first: usize,
) -> bool
    ensures twice { result ≡ false → (oneof : ℕ)
        × (1 < length (members (fields (shape_of schema.now) type_id) oneof contents.now)) }
    ensures once { IsTrue result → (oneof : ℕ) → first ≤ oneof → oneof < first + 1024
        → length (members (fields (shape_of schema.now) type_id) oneof contents.now) ≤ 1 }
{
    let mut has_member = [false; WINDOW];
    for (number, _) in contents {
        if let Some(oneof) = oneof_of(schema, type_id, *number) {
            let oneof = oneof as usize;
            if first <= oneof && oneof - first < WINDOW {
                if has_member[oneof - first] {
                    return false;
                }
                has_member[oneof - first] = true;
            }
        }
    }
    true
}

/// Whether each oneof has one content at most.
pub(crate) fn each_oneof_once(schema: &Schema, type_id: TypeId, contents: &[(u32, Content)]) -> bool
    ensures twice { result ≡ false → (oneof : ℕ)
        × (1 < length (members (fields (shape_of schema.now) type_id) oneof contents.now)) }
    ensures once { IsTrue result → (oneof : ℕ)
        → length (members (fields (shape_of schema.now) type_id) oneof contents.now) ≤ 1 }
{
    let end = oneofs_end(schema, type_id, contents);
    let mut first = 0;
    while first < end {
        if !once_in_window(schema, type_id, contents, first) {
            return false;
        }
        first += WINDOW;
    }
    true
}

/// Whether no two of the contents are of members of one oneof.
pub(crate) fn none_siblings(schema: &Schema, type_id: TypeId, contents: &[(u32, Content)]) -> bool
    requires { Rises contents.now }
    ensures { IsTrue result ↔ NoneSiblings (fields (shape_of schema.now) type_id) contents.now }
{
    each_oneof_once(schema, type_id, contents)
}
