//! Messages of message types, `DescriptorProto` of descriptor.proto. Each call is refused only
//! where memory is.

ghost use Rattle.std.specs.Prelude.{◌≡◌, ◌+◌, ◌<◌, ◌≤◌, ◌^◌, ◌++◌, IfOk, OnOk, Some, length, map};
ghost use Rattle.std.specs.List.{AllByRecursion};
ghost use Rattle.std.specs.String.{string_bytes};
ghost use Rattle.pg_schema.specs.Lookups.{type_at};
ghost use Rattle.pg_set.specs.inner.writing.Drafts.{IsDraftOf, listed, put};
ghost use Rattle.pg_set.specs.writing.Fields.{fields_items};
ghost use Rattle.pg_set.specs.inner.Lent.{lent};
ghost use Rattle.pg_set.specs.writing.Messages.{declared_fields, field_range, oneof_items, oneof_names, type_items};
ghost use Rattle.pg_set.specs.writing.Places.{declared_in};
ghost use Rattle.pg_set.specs.inner.writing.PutParts.{type_rest};
ghost use Rattle.pg_set.specs.inner.writing.Small.{HasSmallNumbers, IsSmallRange, IsSmallType};

use crate::descriptor::places::{FIELD, FIELD_RANGE, MESSAGE, MESSAGE_OPTIONS, ONEOF};
use crate::descriptor::proto::{
    MESSAGE_DEPRECATED, MESSAGE_ENUM_TYPE, MESSAGE_FIELD, MESSAGE_NAME, MESSAGE_NESTED_TYPE,
    MESSAGE_ONEOF_DECL, MESSAGE_RESERVED_NAME, MESSAGE_RESERVED_RANGE, ONEOF_NAME, RANGE_END,
    RANGE_START,
};
use crate::descriptor::{NUMBER, proto};
use crate::names::own_name;
use crate::writing::draft::{Children, Draft, Writer};
use crate::writing::entries::push_entries;
use crate::writing::enums::enums;
use crate::writing::fields::field_message;
use crate::writing::scope::names_within;
use crate::writing::synthetic::synthetic_oneofs;
use pg_schema::{Field, MessageType, ReservedFields, Schema, TypeId};
use std::alloc::{AllocError, Global};

// The message of reserved numbers, whose end is the first number after them.
fn range_message(writer: &Writer<'_>, range: &ReservedFields) -> Result<Draft, AllocError>
    requires { IsSmallRange range.now }
    ensures { IfOk result (IsDraftOf FIELD_RANGE (field_range range.now)) }
{
    let mut draft = writer.draft(FIELD_RANGE);
    draft.put_count(RANGE_START, NUMBER, range.first)?;
    draft.put_count(RANGE_END, NUMBER, range.last + 1)?;
    Ok(draft)
}

// The messages of reserved numbers, in order.
fn ranges(writer: &Writer<'_>, ranges: &[ReservedFields]) -> Result<Children, AllocError>
    requires { AllByRecursion IsSmallRange ranges.now }
    ensures { IfOk result (λ made. made ≡ listed FIELD_RANGE (map field_range ranges.now)) }
{
    let mut made = Children::with_capacity(writer.alloc, FIELD_RANGE, ranges.len())?;
    for range in ranges {
        made.push(range_message(writer, range)?)?;
    }
    Ok(made)
}

// Puts the messages of oneofs of these names after the others.
fn push_oneofs(writer: &Writer<'_>, made: &mut Children, names: &[String]) -> Result<(), AllocError>
    requires { made.old.type ≡ ONEOF }
    ensures { OnOk result (made.new ≡ listed ONEOF
        (made.old.items ++ map oneof_items (map string_bytes names.now))) }
{
    for name in names {
        let mut draft = writer.draft(ONEOF);
        draft.put_text(ONEOF_NAME, name)?;
        made.push(draft)?;
    }
    Ok(())
}

// The messages of the real oneofs of a message type, and then of the synthetic ones of its fields.
fn oneofs(
    writer: &Writer<'_>,
    message_type: &MessageType,
    fields: &[&Field],
) -> Result<Children, AllocError>
    requires { lent fields.now ≡ declared_fields message_type.now }
    ensures { IfOk result (λ made. made ≡ listed ONEOF
        (map oneof_items (oneof_names (declared_in writer.now) message_type.now))) }
{
    let names = names_within(writer.alloc, writer.source, message_type)?;
    let synthetic = synthetic_oneofs(writer.alloc, &names, fields)?;
    let mut made = Children::new(writer.alloc, ONEOF);
    push_oneofs(writer, &mut made, &message_type.oneofs)?;
    push_oneofs(writer, &mut made, &synthetic)?;
    Ok(made)
}

// The fields of the message type at that index, in order of declaration. Refused only where memory
// is.
fn declared_fields<'a>(
    alloc: Global,
    source: &'a Schema,
    id: TypeId,
    message_type: &MessageType,
) -> Result<Vec<&'a Field>, AllocError>
    requires { type_at source.now id ≡ Some message_type.now }
    ensures { IfOk result (λ fields. lent fields.items ≡ declared_fields message_type.now) }
{
    let mut fields = Vec::new(alloc);
    for number in &message_type.declared {
        if let Some(field) = source.field(id, *number) {
            fields.push(field)?;
        }
    }
    Ok(fields)
}

// The fields of the message type at that index, in order of declaration.
fn fields_of<'a>(
    alloc: Global,
    source: &'a Schema,
    id: TypeId,
    message_type: &MessageType,
) -> Result<Vec<&'a Field>, AllocError>
    requires there { type_at source.now id ≡ Some message_type.now }
    requires small { AllByRecursion HasSmallNumbers message_type.now.fields.items }
    ensures fields { IfOk result (λ fields. lent fields.items ≡ declared_fields message_type.now) }
    ensures small { IfOk result (λ fields. AllByRecursion HasSmallNumbers (lent fields.items)) }
    ensures few { IfOk result (λ fields. length fields.items
        ≤ length message_type.now.declared.items) }
{
    let fields = declared_fields(alloc, source, id, message_type)?;
    Ok(fields)
}

// The messages of these fields of a message type, where the first synthetic oneof has that index.
fn fields(
    writer: &Writer<'_>,
    scope: &str,
    first: u32,
    fields: &[&Field],
) -> Result<Children, AllocError>
    requires small { AllByRecursion HasSmallNumbers (lent fields.now) }
    requires places { first + length fields.now < 2 ^ 31 }
    ensures { IfOk result (λ made. made ≡ listed FIELD
        (fields_items (declared_in writer.now) scope.now first (lent fields.now))) }
{
    let mut made = Children::with_capacity(writer.alloc, FIELD, fields.len())?;
    let mut next = first;
    for field in fields {
        made.push(field_message(writer, scope, next, field)?)?;
        if field.states_optional {
            next += 1;
        }
    }
    Ok(made)
}

// Puts what comes after the enums: options, oneofs and what is reserved.
fn put_rest(
    writer: &Writer<'_>,
    to: &mut Draft,
    message_type: &MessageType,
    fields: &[&Field],
) -> Result<(), AllocError>
    requires of_type { to.old.type ≡ MESSAGE }
    requires behind { to.old.last < 7 }
    requires small { IsSmallType message_type.now }
    requires fields { lent fields.now ≡ declared_fields message_type.now }
    ensures { OnOk result (to.new
        ≡ put 10 (type_rest (declared_in writer.now) message_type.now) to.old) }
{
    let mut options = writer.draft(MESSAGE_OPTIONS);
    options.put_stated(MESSAGE_DEPRECATED, message_type.options.deprecated)?;
    to.put_options(proto::MESSAGE_OPTIONS, options)?;
    to.put_children(MESSAGE_ONEOF_DECL, oneofs(writer, message_type, fields)?)?;
    let ranges = ranges(writer, &message_type.reserved_numbers)?;
    to.put_children(MESSAGE_RESERVED_RANGE, ranges)?;
    to.put_texts(MESSAGE_RESERVED_NAME, &message_type.reserved_names)
}

/// The message of the message type at that index, with the messages of the message types inside it.
pub(crate) fn type_message(
    writer: &Writer<'_>,
    id: TypeId,
    message_type: &MessageType,
    nested: Children,
) -> Result<Draft, AllocError>
    requires there { type_at writer.now id ≡ Some message_type.now }
    requires small { IsSmallType message_type.now }
    requires nested { nested.type ≡ MESSAGE }
    ensures { IfOk result (IsDraftOf MESSAGE
        (type_items (declared_in writer.now) nested.items message_type.now)) }
{
    let mut draft = writer.draft(MESSAGE);
    draft.put_text(MESSAGE_NAME, own_name(&message_type.name))?;
    let declared = fields_of(writer.alloc, writer.source, id, message_type)?;
    let real = message_type.oneofs.len() as u32;
    let own = fields(writer, &message_type.name, real, &declared)?;
    draft.put_children(MESSAGE_FIELD, own)?;
    let mut types = nested;
    push_entries(writer, &mut types, &declared)?;
    draft.put_children(MESSAGE_NESTED_TYPE, types)?;
    draft.put_children(
        MESSAGE_ENUM_TYPE,
        enums(writer, &message_type.nested_enums)?,
    )?;
    put_rest(writer, &mut draft, message_type, &declared)?;
    Ok(draft)
}
