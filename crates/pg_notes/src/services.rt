//! What is told of the methods of a service.

ghost use Rattle.std.specs.Prelude.{◌≡◌, [], ◌++◌, slice_get, None, OnOk};
ghost use Rattle.std.specs.List.{cons_option};
ghost use Rattle.pg_notes.specs.ServiceNotes.{changed, gone_notes, is_same_call, method_name, method_notes, service_notes, type_name};
ghost use Rattle.pg_notes.specs.declared.note.Note.TheVariants.{MethodGone};
ghost use Rattle.pg_notes.specs.inner.Tables.{IsNameTable};

use crate::note::{Note, ServicePair};
use crate::tables::{Names, item_at, names_of, place_in};
use pg_schema::{Method, Schema, Service, ServiceId, TypeId};
use std::alloc::{AllocError, Global};

/// Two schemas.
#[derive(Clone, Copy)]
pub(crate) struct Schemas<'a> {
    /// The old one.
    pub old: &'a Schema,
    /// The new one.
    pub new: &'a Schema,
}

/// The new service of a pair.
#[derive(Drop)]
struct NewService<'a> {
    /// The schemas.
    schemas: Schemas<'a>,
    /// The pair.
    services: ServicePair,
    /// The new methods.
    methods: &'a [Method],
    /// The new methods by their names.
    names: Names<'a>,
}

/// The full name of a message type.
fn type_name(schema: &Schema, id: TypeId) -> &str
    ensures { result.now ≡ type_name schema.now id }
{
    match schema.message_type(id) {
        Some(message_type) => message_type.name.as_str(),
        None => "",
    }
}

/// Whether a call sends and answers the same: messages of the same full names, as streams or not.
fn is_same_call(schemas: Schemas<'_>, method: &Method, other: &Method) -> bool
    ensures { result ≡ is_same_call schemas.entry.old.now schemas.entry.new.now
        method.now other.now }
{
    type_name(schemas.old, method.input) == type_name(schemas.new, other.input)
        && type_name(schemas.old, method.output) == type_name(schemas.new, other.output)
        && method.client_streaming == other.client_streaming
        && method.server_streaming == other.server_streaming
}

/// The note of an old method, where it changed: beside the new method at that index.
fn changed(new: &NewService<'_>, index: usize, method: &Method, now: usize) -> Option<Note>
    ensures { cons_option result [] ≡ changed new.now.schemas.old.now new.now.schemas.new.now
        new.now.services index method.now now (slice_get new.now.methods.now now) }
{
    match item_at(new.methods, now) {
        Some(other) if !is_same_call(new.schemas, method, other) => Some(Note::MethodChanged {
            services: new.services,
            method: index,
            now,
        }),
        _ => None,
    }
}

/// The note of an old method, where it changed or went: beside the new method of its name.
fn method_note(new: &NewService<'_>, index: usize, method: &Method) -> Option<Note>
    requires { IsNameTable method_name new.now.methods.now new.now.names }
    ensures { cons_option result [] ≡ method_notes new.now.schemas.old.now
        new.now.schemas.new.now new.now.services new.now.methods.now index method.now }
{
    match place_in(&new.names, method.name.as_str()) {
        Some(now) => changed(new, index, method, now),
        None => Some(Note::MethodGone {
            service: new.services.old,
            method: index,
            now: Some(new.services.new),
        }),
    }
}

/// Appends what is told of the old method at that index.
fn tell_method(
    told: &mut Vec<Note>,
    new: &NewService<'_>,
    index: usize,
    method: &Method,
) -> Result<(), AllocError>
    requires { IsNameTable method_name new.now.methods.now new.now.names }
    ensures { OnOk result (told.new.items ≡ told.old.items
        ++ method_notes new.now.schemas.old.now new.now.schemas.new.now new.now.services
        new.now.methods.now index method.now) }
{
    if let Some(note) = method_note(new, index, method) {
        told.push(note)?;
    }
    Ok(())
}

/// The note of a method that went with its service.
fn gone(service: ServiceId, method: usize) -> Note
    ensures { result ≡ MethodGone service method None }
{
    Note::MethodGone {
        service,
        method,
        now: None,
    }
}

/// Appends that each method of a service went with it.
pub(crate) fn tell_gone(
    told: &mut Vec<Note>,
    service: ServiceId,
    methods: &[Method],
) -> Result<(), AllocError>
    ensures { OnOk result (told.new.items ≡ told.old.items ++ gone_notes service methods.now) }
{
    for index in 0..methods.len() {
        told.push(gone(service, index))?;
    }
    Ok(())
}

/// Appends what is told of the methods of an old service, beside the new one.
pub(crate) fn tell_service(
    alloc: Global,
    told: &mut Vec<Note>,
    schemas: Schemas<'_>,
    services: ServicePair,
    methods: &[Method],
) -> Result<(), AllocError>
    ensures { OnOk result (told.new.items ≡ told.old.items
        ++ service_notes schemas.entry.old.now schemas.entry.new.now services methods.now
        (slice_get schemas.entry.new.now.services.items services.new.index)) }
{
    let new_services = schemas.new.parts().services.as_slice();
    let Some(service) = item_at(new_services, services.new.index) else {
        return Ok(());
    };
    let new_methods = service.methods.as_slice();
    let new = NewService {
        schemas,
        services,
        methods: new_methods,
        names: names_of(alloc, new_methods)?,
    };
    for (index, method) in methods.iter().enumerate() {
        tell_method(told, &new, index, method)?;
    }
    Ok(())
}
