//! Where message types, enums and services are declared.

ghost use Rattle.std.specs.Prelude.{◌≡◌, ◌++◌, IfOk, OnOk, length, map, nat_lt};
ghost use Rattle.std.specs.List.{list_all};
ghost use Rattle.pg_schema.specs.rules.Scopes.{are_declared_once, are_each_once, are_enums_in, are_services_in, are_types_in, declared_enums, declared_services, declared_types, enum_places, enum_name, file_enums, file_types, is_dot_and_word, is_file_scope, is_in, is_named_in, is_type_scope, nested_enums, nested_types, service_name, type_name, service_places, type_places};
ghost use Rattle.pg_schema.specs.inner.Steps.{place_use};

use crate::parts::enum_type::EnumType;
use crate::parts::field::{EnumId, TypeId};
use crate::parts::file::File;
use crate::parts::message_type::MessageType;
use crate::parts::service::{Service, ServiceId};
use crate::rules::uses::{Use, is_used_once};
use crate::rules::words::is_word;
use std::alloc::{AllocError, Global};

/// The bytes are a dot and a word.
fn is_dot_and_word(bytes: &[u8]) -> bool
    ensures { result ≡ is_dot_and_word bytes.now }
{
    match bytes {
        [first, others @ ..] => *first == b'.' && is_word(others),
        [] => false,
    }
}

/// The name is that scope, a dot and a word; a word alone where the scope has no name.
fn is_in(scope: &[u8], name: &[u8]) -> bool
    ensures { result ≡ is_in scope.now name.now }
{
    if scope.is_empty() {
        return is_word(name);
    }
    if name.len() < scope.len() {
        return false;
    }
    let (front, others) = name.split_at(scope.len());
    front == scope && is_dot_and_word(others)
}

/// There is such a message type, and it is in the scope.
fn is_type_in(types: &[MessageType], scope: &str, id: TypeId) -> bool
    ensures { result ≡ is_named_in scope.now (type_name types.now id) }
{
    match types.get(id.index as usize) {
        Some(message_type) => is_in(scope.as_bytes(), message_type.name.as_bytes()),
        None => false,
    }
}

/// There is such an enum, and it is in the scope.
fn is_enum_in(enums: &[EnumType], scope: &str, id: EnumId) -> bool
    ensures { result ≡ is_named_in scope.now (enum_name enums.now id) }
{
    match enums.get(id.index) {
        Some(enum_type) => is_in(scope.as_bytes(), enum_type.name.as_bytes()),
        None => false,
    }
}

/// There is such a service, and it is in the scope.
fn is_service_in(services: &[Service], scope: &str, id: ServiceId) -> bool
    ensures { result ≡ is_named_in scope.now (service_name services.now id) }
{
    match services.get(id.index) {
        Some(service) => is_in(scope.as_bytes(), service.name.as_bytes()),
        None => false,
    }
}

/// The message types at these indices are in the scope.
fn are_types_in(types: &[MessageType], scope: &str, ids: &[TypeId]) -> bool
    ensures { result ≡ are_types_in types.now scope.now ids.now }
{
    for id in ids {
        if !is_type_in(types, scope, *id) {
            return false;
        }
    }
    true
}

/// The enums at these indices are in the scope.
fn are_enums_in(enums: &[EnumType], scope: &str, ids: &[EnumId]) -> bool
    ensures { result ≡ are_enums_in enums.now scope.now ids.now }
{
    for id in ids {
        if !is_enum_in(enums, scope, *id) {
            return false;
        }
    }
    true
}

/// The services at these indices are in the scope.
fn are_services_in(services: &[Service], scope: &str, ids: &[ServiceId]) -> bool
    ensures { result ≡ are_services_in services.now scope.now ids.now }
{
    for id in ids {
        if !is_service_in(services, scope, *id) {
            return false;
        }
    }
    true
}

/// What each message type declares is in it.
pub(crate) fn are_type_scopes(types: &[MessageType], enums: &[EnumType]) -> bool
    ensures { result ≡ list_all (is_type_scope types.now enums.now) types.now }
{
    for message_type in types {
        let name = message_type.name.as_str();
        if !are_types_in(types, name, &message_type.nested_types)
            || !are_enums_in(enums, name, &message_type.nested_enums)
        {
            return false;
        }
    }
    true
}

/// What each file declares is in its package.
pub(crate) fn are_file_scopes(
    files: &[File],
    types: &[MessageType],
    enums: &[EnumType],
    services: &[Service],
) -> bool
    ensures { result ≡ list_all (is_file_scope types.now enums.now services.now) files.now }
{
    for file in files {
        let package = file.package.as_str();
        if !are_types_in(types, package, &file.types)
            || !are_enums_in(enums, package, &file.enums)
            || !are_services_in(services, package, &file.services)
        {
            return false;
        }
    }
    true
}

/// Appends the indices of these message types.
fn push_type_places(places: &mut Vec<usize>, ids: &[TypeId]) -> Result<(), AllocError>
    ensures { OnOk result (places.new.items ≡ places.old.items ++ type_places ids.now) }
{
    for id in ids {
        places.push(id.index as usize)?;
    }
    Ok(())
}

/// Appends the indices of these enums.
fn push_enum_places(places: &mut Vec<usize>, ids: &[EnumId]) -> Result<(), AllocError>
    ensures { OnOk result (places.new.items ≡ places.old.items ++ enum_places ids.now) }
{
    for id in ids {
        places.push(id.index)?;
    }
    Ok(())
}

/// Appends the indices of these services.
fn push_service_places(places: &mut Vec<usize>, ids: &[ServiceId]) -> Result<(), AllocError>
    ensures { OnOk result (places.new.items ≡ places.old.items ++ service_places ids.now) }
{
    for id in ids {
        places.push(id.index)?;
    }
    Ok(())
}

/// Appends the indices of the message types that files declare.
fn push_file_types(places: &mut Vec<usize>, files: &[File]) -> Result<(), AllocError>
    ensures { OnOk result (places.new.items ≡ places.old.items ++ file_types files.now) }
{
    for file in files {
        push_type_places(places, &file.types)?;
    }
    Ok(())
}

/// Appends the indices of the message types that message types declare.
fn push_nested_types(places: &mut Vec<usize>, types: &[MessageType]) -> Result<(), AllocError>
    ensures { OnOk result (places.new.items ≡ places.old.items ++ nested_types types.now) }
{
    for message_type in types {
        push_type_places(places, &message_type.nested_types)?;
    }
    Ok(())
}

/// The indices of the message types that files and message types declare.
fn declared_types(
    alloc: Global,
    files: &[File],
    types: &[MessageType],
) -> Result<Vec<usize>, AllocError>
    ensures { IfOk result (λ places. places.items ≡ declared_types files.now types.now) }
{
    let mut places = Vec::new(alloc);
    push_file_types(&mut places, files)?;
    push_nested_types(&mut places, types)?;
    Ok(places)
}

/// Appends the indices of the enums that files declare.
fn push_file_enums(places: &mut Vec<usize>, files: &[File]) -> Result<(), AllocError>
    ensures { OnOk result (places.new.items ≡ places.old.items ++ file_enums files.now) }
{
    for file in files {
        push_enum_places(places, &file.enums)?;
    }
    Ok(())
}

/// Appends the indices of the enums that message types declare.
fn push_nested_enums(places: &mut Vec<usize>, types: &[MessageType]) -> Result<(), AllocError>
    ensures { OnOk result (places.new.items ≡ places.old.items ++ nested_enums types.now) }
{
    for message_type in types {
        push_enum_places(places, &message_type.nested_enums)?;
    }
    Ok(())
}

/// The indices of the enums that files and message types declare.
fn declared_enums(
    alloc: Global,
    files: &[File],
    types: &[MessageType],
) -> Result<Vec<usize>, AllocError>
    ensures { IfOk result (λ places. places.items ≡ declared_enums files.now types.now) }
{
    let mut places = Vec::new(alloc);
    push_file_enums(&mut places, files)?;
    push_nested_enums(&mut places, types)?;
    Ok(places)
}

/// The indices of the services that files declare.
fn declared_services(alloc: Global, files: &[File]) -> Result<Vec<usize>, AllocError>
    ensures { IfOk result (λ places. places.items ≡ declared_services files.now) }
{
    let mut places = Vec::new(alloc);
    for file in files {
        push_service_places(&mut places, &file.services)?;
    }
    Ok(places)
}

/// The indices are below the count.
fn are_below(count: usize, places: &[usize]) -> bool
    ensures { result ≡ list_all (λ place. nat_lt place count) places.now }
{
    for place in places {
        if count <= *place {
            return false;
        }
    }
    true
}

/// The indices, each as a number that is used.
fn place_uses(alloc: Global, places: &[usize]) -> Result<Vec<Use>, AllocError>
    ensures { IfOk result (λ uses. uses.items ≡ map place_use places.now) }
{
    let mut uses = Vec::new(alloc);
    for place in places {
        uses.push(Use {
            first: *place as u64,
            last: *place as u64,
            is_reserved: false,
        })?;
    }
    Ok(uses)
}

/// The indices are so many, all below that count, and each is there once.
fn are_each_once(alloc: Global, count: usize, places: &[usize]) -> Result<bool, AllocError>
    ensures { IfOk result (λ b. b ≡ are_each_once count places.now) }
{
    if places.len() != count || !are_below(count, places) {
        return Ok(false);
    }
    let uses = place_uses(alloc, places)?;
    Ok(is_used_once(false, uses))
}

/// Each message type, enum and service is declared once.
pub(crate) fn are_declared_once(
    alloc: Global,
    files: &[File],
    types: &[MessageType],
    enums: usize,
    services: usize,
) -> Result<bool, AllocError>
    ensures { IfOk result (λ b. b ≡ are_declared_once files.now types.now enums services) }
{
    let places = declared_types(alloc, files, types)?;
    if !are_each_once(alloc, types.len(), &places)? {
        return Ok(false);
    }
    let places = declared_enums(alloc, files, types)?;
    if !are_each_once(alloc, enums, &places)? {
        return Ok(false);
    }
    let places = declared_services(alloc, files)?;
    are_each_once(alloc, services, &places)
}
