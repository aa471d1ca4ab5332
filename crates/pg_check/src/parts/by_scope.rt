//! What is in which scope.

ghost use Rattle.std.specs.Prelude.{◌≡◌, ℕ, List, IfOk, length, map};
ghost use Rattle.pg_check.specs.parts.ByScope as spec;
ghost use Rattle.pg_check.specs.inner.Grouped as kept;
ghost use Rattle.pg_check.specs.rules.Outline as outline;
ghost use Rattle.pg_check.specs.inner.CodeViews as views;

use crate::parts::made_number::index_of;
use crate::rules::outline::{FoundEnum, FoundMessage};
use pg_schema::{EnumId, EnumType, MessageType, TypeId};
use std::alloc::{AllocError, Global};
use std::collections::BTreeMap;

/// The indexes of what each scope declares.
pub(crate) type ByScope = BTreeMap<String, Vec<usize>>;

/// The scopes of message types, with their indexes behind those that come before.
pub(crate) fn placed_messages(
    alloc: Global,
    before: &[MessageType],
    found: &[FoundMessage<'_>],
) -> Result<Vec<(String, usize)>, AllocError>
    ensures { IfOk result (λ list. map kept.placed list.items ≡ spec.placed_from
        (length before.now) (map outline.message_scope (map views.message found.now))) }
{
    let mut list = Vec::new(alloc);
    for (index, one) in found.iter().enumerate() {
        list.push((one.scope.clone()?, before.len() + index))?;
    }
    Ok(list)
}

/// The scopes of enums, with their indexes behind those that come before.
pub(crate) fn placed_enums(
    alloc: Global,
    before: &[EnumType],
    found: &[FoundEnum<'_>],
) -> Result<Vec<(String, usize)>, AllocError>
    ensures { IfOk result (λ list. map kept.placed list.items ≡ spec.placed_from
        (length before.now) (map outline.enum_scope (map views.enumeration found.now))) }
{
    let mut list = Vec::new(alloc);
    for (index, one) in found.iter().enumerate() {
        list.push((one.scope.clone()?, before.len() + index))?;
    }
    Ok(list)
}

/// The indexes by their scopes.
pub(crate) fn grouped(alloc: Global, list: &[(String, usize)]) -> Result<ByScope, AllocError>
    ensures { IfOk result (λ by_scope. (scope : List ℕ)
        → kept.in_scope by_scope scope ≡ spec.places_in scope (map kept.placed list.now)) }
{
    let mut by_scope: ByScope = BTreeMap::new(alloc);
    for (scope, place) in list {
        by_scope.entry(scope.clone()?)?.or_default().push(*place)?;
    }
    Ok(by_scope)
}

/// The message types at these indexes.
fn type_ids(alloc: Global, places: &[usize]) -> Result<Vec<TypeId>, AllocError>
    ensures { IfOk result (λ ids. ids.items ≡ map spec.type_id places.now) }
{
    let mut ids = Vec::new(alloc);
    for place in places {
        ids.push(TypeId {
            index: index_of(*place),
        })?;
    }
    Ok(ids)
}

/// The enums at these indexes.
fn enum_ids(alloc: Global, places: &[usize]) -> Result<Vec<EnumId>, AllocError>
    ensures { IfOk result (λ ids. ids.items ≡ map spec.enum_id places.now) }
{
    let mut ids = Vec::new(alloc);
    for place in places {
        ids.push(EnumId { index: *place })?;
    }
    Ok(ids)
}

/// The message types that the scope declares.
pub(crate) fn types_in(
    alloc: Global,
    by_scope: &ByScope,
    scope: &str,
) -> Result<Vec<TypeId>, AllocError>
    ensures { IfOk result (λ ids. ids.items
        ≡ map spec.type_id (kept.in_scope by_scope.now scope.now)) }
{
    match by_scope.get(scope) {
        Some(places) => type_ids(alloc, places),
        None => Ok(Vec::new(alloc)),
    }
}

/// The enums that the scope declares.
pub(crate) fn enums_in(
    alloc: Global,
    by_scope: &ByScope,
    scope: &str,
) -> Result<Vec<EnumId>, AllocError>
    ensures { IfOk result (λ ids. ids.items
        ≡ map spec.enum_id (kept.in_scope by_scope.now scope.now)) }
{
    match by_scope.get(scope) {
        Some(places) => enum_ids(alloc, places),
        None => Ok(Vec::new(alloc)),
    }
}
