//! The items of a set's fields, and its entry types.

ghost use Rattle.std.specs.Prelude.{◌≡◌, [], None, IfOk, OnErr, OnOk, option_map, map};
ghost use Rattle.pg_schema.specs.declared.parts.field.Element.TheVariants.{Scalar as ScalarElement};
ghost use Rattle.pg_dyn.specs.message.Kept.{message_of};
ghost use Rattle.pg_set.specs.declared.descriptor.proto.TheConstants as proto;
ghost use Rattle.pg_set.specs.inner.reading.Owners.{means_of};
ghost use Rattle.pg_dyn.specs.message.Message.{parts};
ghost use Rattle.pg_set.specs.stated.SetMessages.{item_at, items_at, number_at, options_at};
ghost use Rattle.pg_set.specs.stated.StatedEntries.{element, entry, has_fields_alone, is_entry_field, key_and_value, key_of, may_say, named_element, of_code, pair_of, says, scalar_of};
ghost use Rattle.pg_set.specs.stated.StatedNames.{element_of_named};

use crate::descriptor::access::{
    SetMessage, child_in, children, content, flag, item, maybe_text, number, option, text,
};
use crate::descriptor::proto;
use crate::error::Unstated;
use crate::reading::codes::{label_of, scalar_of};
use crate::reading::name_lookup::meant;
use crate::reading::names_table::NameTable;
use crate::reading::outline::Named;
use crate::writing::fields::element_code;
use pg_schema::{Element, Scalar};
use std::alloc::{AllocError, Global};

// ---- items

// The element that a name means.
fn element_of(named: Named) -> Option<Element>
    ensures { result ≡ element_of_named named }
{
    match named {
        Named::Type(id) => Some(Element::Message(id)),
        Named::Enum(id) => Some(Element::Enum(id)),
        Named::Package | Named::Entry | Named::Other => None,
    }
}

// The element, where its code is that of the field's type.
fn of_its_code(message: &SetMessage<'_, '_>, element: Element) -> Option<Element>
    ensures { result ≡ of_code (number_at proto.FIELD_TYPE (message_of message.now)) element }
{
    let code = element_code(element);
    if number(message, proto::FIELD_TYPE) != i128::from(code) {
        return None;
    }
    Some(element)
}

// The items of a field that names a type.
fn named_element(names: &NameTable, message: &SetMessage<'_, '_>) -> Option<Element>
    ensures { result ≡ named_element (means_of names.now) (message_of message.now) }
{
    let named = meant(names, message, proto::FIELD_TYPE_NAME)?;
    let element = element_of(named)?;
    of_its_code(message, element)
}

// The scalar element of a field that names no type.
fn scalar_element(message: &SetMessage<'_, '_>) -> Option<Element>
    ensures { result ≡ option_map ScalarElement
        (scalar_of (number_at proto.FIELD_TYPE (message_of message.now))) }
{
    match scalar_of(message) {
        Some(scalar) => Some(Element::Scalar(scalar)),
        None => None,
    }
}

/// The items of a field that is no map, or of an entry type's field.
pub(crate) fn element(names: &NameTable, message: &SetMessage<'_, '_>) -> Option<Element>
    ensures { result ≡ element (means_of names.now) (message_of message.now) }
{
    match item(message, proto::FIELD_TYPE_NAME) {
        Some(_) => named_element(names, message),
        None => scalar_element(message),
    }
}

// ---- what is missing

// The singular field is missing.
fn lacks(message: &SetMessage<'_, '_>, number: u32) -> Result<(), Unstated>
    ensures ok { OnOk result (item_at number (message_of message.now) ≡ None) }
    ensures refused { OnErr result (item_at number (message_of message.now) ≡ None → ⊥) }
{
    match item(message, number) {
        None => Ok(()),
        Some(_) => Err(Unstated::Reference),
    }
}

// The repeated field is missing.
fn lacks_all(message: &SetMessage<'_, '_>, number: u32) -> Result<(), Unstated>
    ensures ok { OnOk result (items_at number (message_of message.now) ≡ []) }
    ensures refused { OnErr result (items_at number (message_of message.now) ≡ [] → ⊥) }
{
    match content(message, number) {
        None => Ok(()),
        Some(_content) => Err(Unstated::Reference),
    }
}

// The message has no content.
fn is_empty(message: &SetMessage<'_, '_>) -> Result<(), Unstated>
    ensures ok { OnOk result (parts (message_of message.now) ≡ []) }
    ensures refused { OnErr result (parts (message_of message.now) ≡ [] → ⊥) }
{
    let contents = message.contents();
    for content in contents {
        lacks_all(message, content.0)?;
    }
    Ok(())
}

// The options are missing, or none is in them.
fn has_no_options(message: &SetMessage<'_, '_>, number: u32) -> Result<(), Unstated>
    ensures ok { OnOk result (parts (options_at number (message_of message.now)) ≡ []) }
    ensures refused { OnErr result (parts (options_at number (message_of message.now)) ≡ [] → ⊥) }
{
    match item(message, number) {
        Some(found) => match child_in(&found) {
            Some(child) => is_empty(&child),
            None => Ok(()),
        },
        None => Ok(()),
    }
}

// ---- entry types

/// The string of the field is that one.
pub(crate) fn says(message: &SetMessage<'_, '_>, number: u32, stated: &str) -> bool
    ensures { result ≡ says number (message_of message.now) stated.now }
{
    text(message, number) == stated
}

// The string of the field is that one, or missing.
fn may_say(message: &SetMessage<'_, '_>, number: u32, stated: &str) -> bool
    ensures { result ≡ may_say number (message_of message.now) stated.now }
{
    match maybe_text(message, number) {
        Some(text) => text == stated,
        None => true,
    }
}

// The field `key` or `value` of an entry type, but for its items: it has no options, and is in
// no oneof.
fn is_entry_field(message: &SetMessage<'_, '_>, name: &str, place: u32) -> bool
    ensures { result ≡ is_entry_field name.now place (message_of message.now) }
{
    let is_named = says(message, proto::FIELD_NAME, name);
    let is_plain = has_no_options(message, proto::FIELD_OPTIONS).is_ok();
    let is_free = lacks(message, proto::FIELD_ONEOF_INDEX).is_ok();
    let has_json_name = may_say(message, proto::FIELD_JSON_NAME, name);
    is_named
        && number(message, proto::FIELD_NUMBER) == i128::from(place)
        && label_of(message) == 1
        && is_plain
        && is_free
        && has_json_name
        && !flag(message, proto::FIELD_PROTO3_OPTIONAL)
}

// What a map's keys are. A type that may not be one is answered as that of floats, which
// may not either.
fn key_of(element: Element) -> Scalar
    ensures { result ≡ key_of element }
{
    match element {
        Element::Scalar(scalar) => scalar,
        Element::Enum(_) | Element::Message(_) => Scalar::Float,
    }
}

// The key and the value, by their two fields.
fn pair(
    names: &NameTable,
    first: &SetMessage<'_, '_>,
    second: &SetMessage<'_, '_>,
) -> Option<(Scalar, Element)>
    ensures { result ≡ pair_of (means_of names.now) (message_of first.now) (message_of second.now) }
{
    let is_key = is_entry_field(first, "key", 1);
    let is_value = is_entry_field(second, "value", 2);
    if !is_key || !is_value {
        return None;
    }
    let key = element(names, first)?;
    let value = element(names, second)?;
    Some((key_of(key), value))
}

// The same, of an entry type's fields.
fn key_and_value(names: &NameTable, fields: &[SetMessage<'_, '_>]) -> Option<(Scalar, Element)>
    ensures { result ≡ key_and_value (means_of names.now) (map message_of fields.now) }
{
    match fields {
        [first, second] => pair(names, first, second),
        _ => None,
    }
}

// The message has nothing but fields.
fn has_fields_alone(entry: &SetMessage<'_, '_>) -> bool
    ensures { result ≡ has_fields_alone (message_of entry.now) }
{
    let no_types = lacks_all(entry, proto::MESSAGE_NESTED_TYPE).is_ok();
    let no_enums = lacks_all(entry, proto::MESSAGE_ENUM_TYPE).is_ok();
    let no_mark = option(entry, proto::MESSAGE_OPTIONS, proto::MESSAGE_DEPRECATED).is_none();
    let no_oneofs = lacks_all(entry, proto::MESSAGE_ONEOF_DECL).is_ok();
    let no_ranges = lacks_all(entry, proto::MESSAGE_RESERVED_RANGE).is_ok();
    let no_names = lacks_all(entry, proto::MESSAGE_RESERVED_NAME).is_ok();
    no_types && no_enums && no_mark && no_oneofs && no_ranges && no_names
}

/// The key and the value of an entry type, where it has its form.
pub(crate) fn entry(
    alloc: Global,
    names: &NameTable,
    message: &SetMessage<'_, '_>,
) -> Result<Option<(Scalar, Element)>, AllocError>
    ensures { IfOk result (λ found. found
        ≡ entry (means_of names.now) (message_of message.now)) }
{
    if !has_fields_alone(message) {
        return Ok(None);
    }
    let fields = children(alloc, message, proto::MESSAGE_FIELD)?;
    Ok(key_and_value(names, &fields))
}
