//! Messages of fields, `FieldDescriptorProto` of descriptor.proto. Each call is refused only where
//! memory is.

ghost use Rattle.std.specs.Prelude.{◌≡◌, ◌<◌, ◌≤◌, ◌^◌, IfOk, OnOk, option_map};
ghost use Rattle.std.specs.String.{string_bytes};
ghost use Rattle.pg_set.specs.inner.writing.Drafts.{IsDraftOf, put};
ghost use Rattle.pg_set.specs.writing.Fields.{element_code, element_name, field_items, label, named_type, oneof_place, scalar_code, type_code};
ghost use Rattle.pg_set.specs.writing.Places.{declared_in};
ghost use Rattle.pg_set.specs.inner.writing.PutParts.{kind_items};
ghost use Rattle.pg_set.specs.inner.writing.Small.{HasSmallNumbers};

use crate::descriptor::places::{FIELD, FIELD_OPTIONS};
use crate::descriptor::proto::{
    FIELD_DEPRECATED, FIELD_JSON_NAME, FIELD_LABEL, FIELD_NAME, FIELD_NUMBER, FIELD_ONEOF_INDEX,
    FIELD_PACKED, FIELD_PROTO3_OPTIONAL, FIELD_TYPE, FIELD_TYPE_NAME,
};
use crate::descriptor::{LABEL, NUMBER, TYPE, proto};
use crate::names::{dotted, dotted_within};
use crate::writing::draft::{Draft, Writer};
use pg_schema::{Element, Field, Presence, Scalar, entry_name};
use std::alloc::AllocError;

/// LABEL_OPTIONAL or LABEL_REPEATED.
pub(crate) fn label(presence: Presence) -> u32
    ensures value { result ≡ label presence }
    ensures small { result ≤ 3 }
{
    match presence {
        Presence::Implicit | Presence::Explicit => 1,
        Presence::Repeated { .. } | Presence::Map { .. } => 3,
    }
}

/// TYPE_DOUBLE and the others.
pub(crate) fn scalar_code(scalar: Scalar) -> u32
    ensures value { result ≡ scalar_code scalar }
    ensures small { result ≤ 18 }
{
    match scalar {
        Scalar::Double => 1,
        Scalar::Float => 2,
        Scalar::Int64 => 3,
        Scalar::Uint64 => 4,
        Scalar::Int32 => 5,
        Scalar::Fixed64 => 6,
        Scalar::Fixed32 => 7,
        Scalar::Bool => 8,
        Scalar::String => 9,
        Scalar::Bytes => 12,
        Scalar::Uint32 => 13,
        Scalar::Sfixed32 => 15,
        Scalar::Sfixed64 => 16,
        Scalar::Sint32 => 17,
        Scalar::Sint64 => 18,
    }
}

/// The code of an element: that of its scalar, TYPE_MESSAGE or TYPE_ENUM.
pub(crate) fn element_code(element: Element) -> u32
    ensures value { result ≡ element_code element }
    ensures small { result ≤ 18 }
{
    match element {
        Element::Scalar(scalar) => scalar_code(scalar),
        Element::Message(_) => 11,
        Element::Enum(_) => 14,
    }
}

/// The code of a field's type: a map field is one of entries.
pub(crate) fn type_code(presence: Presence, element: Element) -> u32
    ensures value { result ≡ type_code presence element }
    ensures small { result ≤ 18 }
{
    match presence {
        Presence::Map { .. } => 11,
        _ => element_code(element),
    }
}

/// What an element is called, where it is an enum or a message: its full name with a dot in front.
pub(crate) fn element_name(
    writer: &Writer<'_>,
    element: Element,
) -> Result<Option<String>, AllocError>
    ensures { IfOk result (λ name. option_map string_bytes name
        ≡ element_name (declared_in writer.now) element) }
{
    match element {
        Element::Scalar(_) => Ok(None),
        Element::Enum(id) => match writer.source.enum_type(id) {
            Some(declared) => Ok(Some(dotted(writer.alloc, &declared.name)?)),
            None => Ok(None),
        },
        Element::Message(id) => match writer.source.message_type(id) {
            Some(declared) => Ok(Some(dotted(writer.alloc, &declared.name)?)),
            None => Ok(None),
        },
    }
}

/// What a field's type is called, in a message of that full name.
pub(crate) fn named_type(
    writer: &Writer<'_>,
    scope: &str,
    field: &Field,
) -> Result<Option<String>, AllocError>
    ensures { IfOk result (λ name. option_map string_bytes name
        ≡ named_type (declared_in writer.now) scope.now field.now) }
{
    match field.presence {
        Presence::Map { .. } => {
            let entry = entry_name(writer.alloc, &field.name)?;
            Ok(Some(dotted_within(writer.alloc, scope, &entry)?))
        }
        _ => element_name(writer, field.element),
    }
}

// The index of the oneof that a field is in, where the next synthetic one has that index.
fn oneof_place(next: u32, field: &Field) -> Option<u32>
    ensures { result ≡ oneof_place next field.now }
{
    if field.states_optional {
        Some(next)
    } else {
        field.oneof
    }
}

// Puts how often a field's items occur and what they are: its label, its type, and what that is
// called in a message of that full name.
fn put_kind(
    writer: &Writer<'_>,
    to: &mut Draft,
    scope: &str,
    field: &Field,
) -> Result<(), AllocError>
    requires of_type { to.old.type ≡ FIELD }
    requires behind { to.old.last < 4 }
    ensures { OnOk result (to.new
        ≡ put 6 (kind_items (declared_in writer.now) scope.now field.now) to.old) }
{
    to.put_count(FIELD_LABEL, LABEL, label(field.presence))?;
    to.put_count(FIELD_TYPE, TYPE, type_code(field.presence, field.element))?;
    to.put_maybe_text(FIELD_TYPE_NAME, named_type(writer, scope, field)?)
}

/// The message of a field, in a message of that full name, where the next synthetic oneof has that
/// index.
pub(crate) fn field_message(
    writer: &Writer<'_>,
    scope: &str,
    next: u32,
    field: &Field,
) -> Result<Draft, AllocError>
    requires small { HasSmallNumbers field.now }
    requires next { next < 2 ^ 31 }
    ensures { IfOk result (IsDraftOf FIELD
        (field_items (declared_in writer.now) scope.now next field.now)) }
{
    let mut draft = writer.draft(FIELD);
    draft.put_text(FIELD_NAME, &field.name)?;
    draft.put_count(FIELD_NUMBER, NUMBER, field.number)?;
    put_kind(writer, &mut draft, scope, field)?;
    let mut options = writer.draft(FIELD_OPTIONS);
    options.put_stated(FIELD_PACKED, field.options.packed)?;
    options.put_stated(FIELD_DEPRECATED, field.options.deprecated)?;
    draft.put_options(proto::FIELD_OPTIONS, options)?;
    draft.put_maybe_count(FIELD_ONEOF_INDEX, oneof_place(next, field))?;
    draft.put_text(FIELD_JSON_NAME, &field.json_name)?;
    draft.put_mark(FIELD_PROTO3_OPTIONAL, field.states_optional)?;
    Ok(draft)
}
