//! What a note names: a member of a message type, an enum or a service.
ghost use Rattle.std.specs.Prelude.{◌≡◌, IfOk, string_bytes};
ghost use Rattle.std.specs.Option.{option_copied};
ghost use Rattle.pg_gate.specs.answer.Notes as spec;

use crate::answer::stepping::field_name;
use pg_notes::Note;
use pg_schema::{EnumId, EnumValue, Method, Schema, Service, ServiceId, TypeId};
use std::alloc::{AllocError, Global};

/// A member of what a schema declares.
#[derive(Clone, Copy)]
pub(crate) enum Member {
    /// The field of that number of a message type.
    Field { id: TypeId, number: u32 },
    /// The value at that index of an enum.
    Value { id: EnumId, index: usize },
    /// The method at that index of a service.
    Method { id: ServiceId, index: usize },
}

/// What the note names in the old schema.
pub(crate) fn old_member(note: Note) -> Member
    ensures { result ≡ spec.old_member note }
{
    match note {
        Note::Renamed { types, number, .. }
        | Note::Moved { types, number, .. }
        | Note::Unreserved { types, number }
        | Note::PresenceDropped { types, number }
        | Note::NumberToList { types, number } => Member::Field {
            id: types.old,
            number,
        },
        Note::ValueRenamed { enums, value, .. } | Note::ValueGone { enums, value } => {
            Member::Value {
                id: enums.old,
                index: value,
            }
        }
        Note::MethodGone {
            service,
            method,
            ..
        } => Member::Method {
            id: service,
            index: method,
        },
        Note::MethodChanged {
            services,
            method,
            ..
        } => Member::Method {
            id: services.old,
            index: method,
        },
    }
}

/// What the note names in the new schema. `None` of what is gone.
pub(crate) fn new_member(note: Note) -> Option<Member>
    ensures { result ≡ spec.new_member note }
{
    match note {
        Note::Renamed { types, number, .. }
        | Note::PresenceDropped { types, number }
        | Note::NumberToList { types, number } => Some(Member::Field {
            id: types.new,
            number,
        }),
        Note::Moved { types, now, .. } => Some(Member::Field {
            id: types.new,
            number: now,
        }),
        Note::ValueRenamed { enums, now, .. } => Some(Member::Value {
            id: enums.new,
            index: now,
        }),
        Note::MethodChanged { services, now, .. } => Some(Member::Method {
            id: services.new,
            index: now,
        }),
        Note::Unreserved { .. } | Note::ValueGone { .. } | Note::MethodGone { .. } => None,
    }
}

/// The full name of what declares a member, a dot, and the member's own name.
fn dotted(alloc: Global, owner: &str, own: &str) -> Result<String, AllocError>
    ensures { IfOk result (λ name. string_bytes name ≡ spec.dotted owner.now own.now) }
{
    let mut name = String::from_str(alloc, owner)?;
    name.push_str(".")?;
    name.push_str(own)?;
    Ok(name)
}

/// The value at that index of an enum.
fn value_at(schema: &Schema, id: EnumId, index: usize) -> Option<&EnumValue>
    ensures { option_copied result ≡ spec.value_at schema.now id index }
{
    match schema.enum_type(id) {
        Some(enum_type) => enum_type.values.as_slice().get(index),
        None => None,
    }
}

fn value_name(
    alloc: Global,
    schema: &Schema,
    id: EnumId,
    index: usize,
) -> Result<String, AllocError>
    ensures { IfOk result (λ name. string_bytes name ≡ spec.value_name schema.now id index) }
{
    let owner = match schema.enum_type(id) {
        Some(enum_type) => enum_type.name.as_str(),
        None => "",
    };
    let own = match value_at(schema, id, index) {
        Some(value) => value.name.as_str(),
        None => "",
    };
    dotted(alloc, owner, own)
}

fn service_at(schema: &Schema, id: ServiceId) -> Option<&Service>
    ensures { option_copied result ≡ spec.service_at schema.now id }
{
    schema.parts().services.as_slice().get(id.index)
}

/// The method at that index of a service.
fn method_at(schema: &Schema, id: ServiceId, index: usize) -> Option<&Method>
    ensures { option_copied result ≡ spec.method_at schema.now id index }
{
    match service_at(schema, id) {
        Some(service) => service.methods.as_slice().get(index),
        None => None,
    }
}

fn method_name(
    alloc: Global,
    schema: &Schema,
    id: ServiceId,
    index: usize,
) -> Result<String, AllocError>
    ensures { IfOk result (λ name. string_bytes name ≡ spec.method_name schema.now id index) }
{
    let owner = match service_at(schema, id) {
        Some(service) => service.name.as_str(),
        None => "",
    };
    let own = match method_at(schema, id, index) {
        Some(method) => method.name.as_str(),
        None => "",
    };
    dotted(alloc, owner, own)
}

/// The full name of a member.
pub(crate) fn member_name(
    alloc: Global,
    schema: &Schema,
    member: Member,
) -> Result<String, AllocError>
    ensures { IfOk result (λ name. string_bytes name ≡ spec.member_name schema.now member) }
{
    match member {
        Member::Field { id, number } => field_name(alloc, schema, id, number),
        Member::Value { id, index } => value_name(alloc, schema, id, index),
        Member::Method { id, index } => method_name(alloc, schema, id, index),
    }
}

/// The number of a field or of an enum's value. A method has none.
pub(crate) fn number_of(schema: &Schema, member: Member) -> Option<i64>
    ensures { result ≡ spec.number_of schema.now member }
{
    match member {
        Member::Field { number, .. } => Some(i64::from(number)),
        Member::Value { id, index } => match value_at(schema, id, index) {
            Some(value) => Some(i64::from(value.number)),
            None => None,
        },
        Member::Method { .. } => None,
    }
}
