//! Messages of enums, `EnumDescriptorProto` of descriptor.proto. Each call is refused only where
//! memory is.

ghost use Rattle.std.specs.Prelude.{◌≡◌, IfOk, map};
ghost use Rattle.pg_set.specs.inner.writing.Drafts.{IsDraftOf, listed};
ghost use Rattle.pg_set.specs.writing.Messages.{enum_items, enums_items, value_items, value_range};
ghost use Rattle.pg_set.specs.writing.Places.{declared_in};

use crate::descriptor::places::{ENUM, ENUM_OPTIONS, VALUE, VALUE_OPTIONS, VALUE_RANGE};
use crate::descriptor::proto;
use crate::descriptor::proto::{
    ENUM_ALLOW_ALIAS, ENUM_DEPRECATED, ENUM_NAME, ENUM_RESERVED_NAME, ENUM_RESERVED_RANGE,
    ENUM_VALUE, RANGE_END, RANGE_START, VALUE_DEPRECATED, VALUE_NAME, VALUE_NUMBER,
};
use crate::names::own_name;
use crate::writing::draft::{Children, Draft, Writer};
use pg_schema::{EnumId, EnumType, EnumValue, ReservedValues};
use std::alloc::AllocError;

// The message of a value.
fn value_message(writer: &Writer<'_>, value: &EnumValue) -> Result<Draft, AllocError>
    ensures { IfOk result (IsDraftOf VALUE (value_items value.now)) }
{
    let mut draft = writer.draft(VALUE);
    draft.put_text(VALUE_NAME, &value.name)?;
    draft.put_whole(VALUE_NUMBER, value.number)?;
    let mut options = writer.draft(VALUE_OPTIONS);
    options.put_stated(VALUE_DEPRECATED, value.options.deprecated)?;
    draft.put_options(proto::VALUE_OPTIONS, options)?;
    Ok(draft)
}

// The message of reserved numbers, both ends of which are in it.
fn range_message(writer: &Writer<'_>, range: &ReservedValues) -> Result<Draft, AllocError>
    ensures { IfOk result (IsDraftOf VALUE_RANGE (value_range range.now)) }
{
    let mut draft = writer.draft(VALUE_RANGE);
    draft.put_whole(RANGE_START, range.first)?;
    draft.put_whole(RANGE_END, range.last)?;
    Ok(draft)
}

// The messages of values, in order.
fn values(writer: &Writer<'_>, values: &[EnumValue]) -> Result<Children, AllocError>
    ensures { IfOk result (λ made. made ≡ listed VALUE (map value_items values.now)) }
{
    let mut made = Children::with_capacity(writer.alloc, VALUE, values.len())?;
    for value in values {
        made.push(value_message(writer, value)?)?;
    }
    Ok(made)
}

// The messages of reserved numbers, in order.
fn ranges(writer: &Writer<'_>, ranges: &[ReservedValues]) -> Result<Children, AllocError>
    ensures { IfOk result (λ made. made ≡ listed VALUE_RANGE (map value_range ranges.now)) }
{
    let mut made = Children::with_capacity(writer.alloc, VALUE_RANGE, ranges.len())?;
    for range in ranges {
        made.push(range_message(writer, range)?)?;
    }
    Ok(made)
}

// The message of an enum.
fn enum_message(writer: &Writer<'_>, declared: &EnumType) -> Result<Draft, AllocError>
    ensures { IfOk result (IsDraftOf ENUM (enum_items declared.now)) }
{
    let mut draft = writer.draft(ENUM);
    draft.put_text(ENUM_NAME, own_name(&declared.name))?;
    draft.put_children(ENUM_VALUE, values(writer, &declared.values)?)?;
    let mut options = writer.draft(ENUM_OPTIONS);
    options.put_stated(ENUM_ALLOW_ALIAS, declared.options.allow_alias)?;
    options.put_stated(ENUM_DEPRECATED, declared.options.deprecated)?;
    draft.put_options(proto::ENUM_OPTIONS, options)?;
    let ranges = ranges(writer, &declared.reserved_numbers)?;
    draft.put_children(ENUM_RESERVED_RANGE, ranges)?;
    draft.put_texts(ENUM_RESERVED_NAME, &declared.reserved_names)?;
    Ok(draft)
}

/// The messages of the schema's enums at these indices, in order.
pub(crate) fn enums(writer: &Writer<'_>, ids: &[EnumId]) -> Result<Children, AllocError>
    ensures { IfOk result (λ made. made
        ≡ listed ENUM (enums_items (declared_in writer.now) ids.now)) }
{
    let mut made = Children::with_capacity(writer.alloc, ENUM, ids.len())?;
    for id in ids {
        if let Some(declared) = writer.source.enum_type(*id) {
            made.push(enum_message(writer, declared)?)?;
        }
    }
    Ok(made)
}
