//! Whether messages that a new type relays return to the old one.

ghost use Rattle.std.specs.Prelude.{◌≡◌, ◌↔◌, IsTrue, IfOk};
ghost use Rattle.std.specs.List.{list_any};
ghost use Rattle.pg_schema.specs.Parts.{field_shape, shape_of};
ghost use Rattle.pg_schema.specs.Shape.{field_at, fields};
ghost use Rattle.pg_dyn.specs.encoding.Writing.{is_packed};
ghost use Rattle.pg_pairs.specs.home.Returns.{Returns, becomes_packed, packs};

use crate::choices::choice::Pair;
use crate::graph::priced::Priced;
use crate::graph::prices::Prices;
use crate::graph::walking::reached_pairs;
use crate::views::view::Numbers;
use pg_schema::{Field, Presence, Schema, TypeId};
use std::alloc::{AllocError, Global};

/// Whether the field is a packed list.
fn is_packed(field: &Field) -> bool
    ensures { result ≡ is_packed field.now.presence }
{
    match field.presence {
        Presence::Repeated { packed } => packed,
        _ => false,
    }
}

/// Whether the field is singular, and packed in the new type.
fn becomes_packed(new: &Schema, type_id: TypeId, field: &Field) -> bool
    ensures { result ≡ becomes_packed (field_shape field.now)
        (field_at (fields (shape_of new.now) type_id) field.now.number) }
{
    match new.field(type_id, field.number) {
        Some(beside) => field.presence.is_singular() && is_packed(beside),
        None => false,
    }
}

/// Whether one of those fields becomes packed.
fn one_becomes_packed(new: &Schema, type_id: TypeId, list: &[Field]) -> bool
    ensures { result ≡ list_any (λ f. becomes_packed (field_shape f)
        (field_at (fields (shape_of new.now) type_id) f.number)) list.now }
{
    for field in list {
        if becomes_packed(new, type_id, field) {
            return true;
        }
    }
    false
}

/// Whether a field of the pair becomes packed.
fn packs(old: &Schema, new: &Schema, pair: Pair) -> bool
    ensures { result ≡ packs (shape_of old.now) (shape_of new.now) pair }
{
    match old.message_type(pair.old) {
        Some(message_type) => one_becomes_packed(new, pair.new, &message_type.fields),
        None => false,
    }
}

/// Whether a field of one of those pairs becomes packed.
fn one_packs(old: &Schema, new: &Schema, pairs: &[Pair]) -> bool
    ensures { result ≡ list_any (packs (shape_of old.now) (shape_of new.now)) pairs.now }
{
    for pair in pairs {
        if packs(old, new, *pair) {
            return true;
        }
    }
    false
}

/// Whether a message of the pair's old type that a program with the new one relays can return:
/// neither in the pair nor in one that it leads to by children is a field singular in the old type
/// and packed in the new one. A reader takes a packed record for a repeated field alone.
///
/// Refused only where memory is.
pub fn returns(alloc: Global, old: &Schema, new: &Schema, pair: Pair) -> Result<bool, AllocError>
    ensures { IfOk result (λ b. IsTrue b ↔ Returns (shape_of old.now) (shape_of new.now) pair) }
{
    let graph = Priced::new(&Numbers, old, new);
    if !graph.knows(pair) {
        // A type that isn't there has no fields.
        return Ok(true);
    }
    let pairs = reached_pairs(alloc, &graph, pair)?;
    Ok(!one_packs(old, new, &pairs))
}
