//! The rules that parts break which come from no source file.

ghost use Rattle.std.specs.Prelude.{◌≡◌, IfOk, map, string_bytes};
ghost use Rattle.std.specs.List.{list_all};
ghost use Rattle.pg_schema.specs.rules.Files.{is_file_option};
ghost use Rattle.pg_check.specs.inner.Faults.{first_fault};
ghost use Rattle.pg_check.specs.inner.MessageFaults as messages;
ghost use Rattle.pg_check.specs.inner.NameFaults as names;
ghost use Rattle.pg_check.specs.admitting.DeclaredParts as of_parts;
ghost use Rattle.pg_check.specs.admitting.KeepsParts as keeps;
ghost use Rattle.pg_check.specs.inner.PartFaults as spec;

use crate::admitting::enum_part_faults::enum_fault;
use crate::admitting::oneof_members::have_members;
use crate::rules::fault::{Fault, Rule, broken, earlier};
use crate::rules::message::numbers_fault;
use crate::rules::names::{Called, Titled, first_among, first_twice};
use crate::rules::numbers::{self, Keyed, Numbers, rank};
use pg_schema::{
    EnumType, Field, File, FileOption, MAX_MESSAGE_TYPES, MessageType, OptionValue, Parts,
    Presence, ReservedFields, Scalar,
};
use std::alloc::{AllocError, Global};

/// The one position of all that no source file declares.
pub(crate) const NOWHERE: usize = 0;

/// The fault of the rule where this doesn't hold, at no position.
fn fault_unless(rule: Rule, holds: bool) -> Option<Fault>
    ensures { result ≡ spec.fault_unless rule holds }
{
    if holds {
        None
    } else {
        broken(rule, Some(NOWHERE))
    }
}

/// The fields' numbers.
fn keys_of(alloc: Global, fields: &[Field]) -> Result<Vec<Keyed>, AllocError>
    ensures { IfOk result (λ keys. keys.items ≡ map of_parts.key_of fields.now) }
{
    let mut keys = Vec::new(alloc);
    for field in fields {
        keys.push(Keyed {
            key: rank(false, u64::from(field.number)),
            at: NOWHERE,
        })?;
    }
    Ok(keys)
}

/// The reserved numbers.
fn items_of(alloc: Global, ranges: &[ReservedFields]) -> Result<Vec<Numbers>, AllocError>
    ensures { IfOk result (λ items. items.items ≡ map of_parts.item_of ranges.now) }
{
    let mut items = Vec::new(alloc);
    for range in ranges {
        items.push(Numbers {
            first: rank(false, u64::from(range.first)),
            last: rank(false, u64::from(range.last)),
            at: NOWHERE,
        })?;
    }
    Ok(items)
}

/// The fields' names.
fn names_of<'a>(alloc: Global, fields: &'a [Field]) -> Result<Vec<Called<'a>>, AllocError>
    ensures { IfOk result (λ list. map names.called list.items ≡ map of_parts.name_of fields.now) }
{
    let mut list = Vec::new(alloc);
    for field in fields {
        list.push(Called {
            text: &field.name,
            at: NOWHERE,
        })?;
    }
    Ok(list)
}

/// The fields' JSON names.
fn json_names_of(alloc: Global, fields: &[Field]) -> Result<Vec<Titled>, AllocError>
    ensures { IfOk result (λ list. map names.titled list.items
        ≡ map of_parts.json_name_of fields.now) }
{
    let mut list = Vec::new(alloc);
    for field in fields {
        list.push(Titled {
            text: field.json_name.clone()?,
            at: NOWHERE,
        })?;
    }
    Ok(list)
}

/// A map's key is of an integral type, bool or string.
fn has_key(field: &Field) -> bool
    ensures { result ≡ keeps.field_has_key field.now }
{
    match field.presence {
        Presence::Map { key } => !matches!(key, Scalar::Double | Scalar::Float | Scalar::Bytes),
        Presence::Implicit | Presence::Explicit | Presence::Repeated { .. } => true,
    }
}

/// A member of a oneof is singular, and not `optional`.
fn may_be_member(field: &Field) -> bool
    ensures { result ≡ keeps.may_be_member field.now }
{
    field.oneof.is_none() || (field.presence.is_singular() && !field.states_optional)
}

/// What is packed, or stated to be, may be.
fn is_packed_rightly(field: &Field) -> bool
    ensures { result ≡ keeps.is_packed_rightly field.now }
{
    let stated = field.options.packed.unwrap_or(false);
    match field.presence {
        Presence::Repeated { packed } => !(packed || stated) || field.element.is_packable(),
        Presence::Implicit | Presence::Explicit | Presence::Map { .. } => !stated,
    }
}

/// Each map has a key that may be one.
fn have_keys(fields: &[Field]) -> bool
    ensures { result ≡ list_all keeps.field_has_key fields.now }
{
    fields.iter().all(|field| has_key(field))
}

/// Each member of a oneof may be one.
fn may_be_members(fields: &[Field]) -> bool
    ensures { result ≡ list_all keeps.may_be_member fields.now }
{
    fields.iter().all(|field| may_be_member(field))
}

/// What is packed, or stated to be, may be, in each field.
fn are_packed_rightly(fields: &[Field]) -> bool
    ensures { result ≡ list_all keeps.is_packed_rightly fields.now }
{
    fields.iter().all(|field| is_packed_rightly(field))
}

/// The first rule that the names break.
fn names_fault(alloc: Global, one: &MessageType) -> Result<Option<Fault>, AllocError>
    ensures { IfOk result (λ fault. fault
        ≡ messages.names_fault (map string_bytes one.now.reserved_names.items)
        (map of_parts.name_of one.now.fields.items)
        (map of_parts.json_name_of one.now.fields.items)) }
{
    let called = names_of(alloc, &one.fields)?;
    let among = first_among(alloc, &one.reserved_names, &called)?;
    let titles = json_names_of(alloc, &one.fields)?;
    let twice = first_twice(alloc, &titles)?;
    Ok(earlier(
        broken(Rule::ReservedName, among),
        broken(Rule::JsonNameClash, twice),
    ))
}

/// The first rule that the fields and oneofs break by themselves.
fn shapes_fault(alloc: Global, one: &MessageType) -> Result<Option<Fault>, AllocError>
    ensures { IfOk result (λ fault. fault ≡ spec.shapes_fault one.now) }
{
    let has_members = have_members(alloc, &one.fields, one.oneofs.as_slice().len())?;
    let has_oneofs = may_be_members(&one.fields) && has_members;
    let members = fault_unless(Rule::BadOneofMember, has_oneofs);
    let packed = fault_unless(Rule::PackedNotAllowed, are_packed_rightly(&one.fields));
    let of_keys = fault_unless(Rule::BadMapKey, have_keys(&one.fields));
    Ok(earlier(of_keys, earlier(members, packed)))
}

/// The first rule that a message type breaks.
fn message_fault(alloc: Global, one: &MessageType) -> Result<Option<Fault>, AllocError>
    ensures { IfOk result (λ fault. fault ≡ spec.message_fault one.now) }
{
    let keys = keys_of(alloc, &one.fields)?;
    let items = items_of(alloc, &one.reserved_numbers)?;
    let of_numbers = numbers_fault(alloc, &keys, &items)?;
    let of_names = names_fault(alloc, one)?;
    let of_shapes = shapes_fault(alloc, one)?;
    Ok(earlier(earlier(of_numbers, of_names), of_shapes))
}

/// The first rule that the message types break.
fn messages_fault(alloc: Global, types: &[MessageType]) -> Result<Option<Fault>, AllocError>
    ensures { IfOk result (λ fault. fault ≡ first_fault spec.message_fault types.now) }
{
    for one in types {
        let fault = message_fault(alloc, one)?;
        if fault.is_some() {
            return Ok(fault);
        }
    }
    Ok(None)
}

/// The first rule that the enums break.
fn enums_fault(alloc: Global, enums: &[EnumType]) -> Result<Option<Fault>, AllocError>
    ensures { IfOk result (λ fault. fault ≡ first_fault spec.enum_fault enums.now) }
{
    for one in enums {
        let fault = enum_fault(alloc, one)?;
        if fault.is_some() {
            return Ok(fault);
        }
    }
    Ok(None)
}

/// The option of that number is in the table of a file's options, and takes such a value.
fn is_right(option: &FileOption) -> bool
    ensures { result ≡ is_file_option option.now }
{
    match &option.value {
        OptionValue::Flag(_) => matches!(option.number, 10 | 23 | 31),
        OptionValue::Mode(_) => option.number == 9,
        OptionValue::Text(_) => {
            matches!(option.number, 1 | 8 | 11 | 36 | 37 | 39 | 40 | 41 | 45)
        }
    }
}

/// Each option is.
fn are_right(options: &[FileOption]) -> bool
    ensures { result ≡ list_all is_file_option options.now }
{
    options.iter().all(|option| is_right(option))
}

/// The options' numbers.
fn option_keys(alloc: Global, options: &[FileOption]) -> Result<Vec<Keyed>, AllocError>
    ensures { IfOk result (λ keys. keys.items ≡ map of_parts.option_key options.now) }
{
    let mut keys = Vec::new(alloc);
    for option in options {
        keys.push(Keyed {
            key: u128::from(option.number),
            at: NOWHERE,
        })?;
    }
    Ok(keys)
}

/// The first rule that a file breaks.
fn file_fault(alloc: Global, file: &File) -> Result<Option<Fault>, AllocError>
    ensures { IfOk result (λ fault. fault ≡ spec.file_fault file.now) }
{
    let keys = option_keys(alloc, &file.options)?;
    let twice = numbers::first_twice(alloc, &keys)?;
    let bad = fault_unless(Rule::BadOption, are_right(&file.options));
    Ok(earlier(bad, broken(Rule::BadOption, twice)))
}

/// The first rule that the files break.
fn files_fault(alloc: Global, files: &[File]) -> Result<Option<Fault>, AllocError>
    ensures { IfOk result (λ fault. fault ≡ first_fault spec.file_fault files.now) }
{
    for file in files {
        let fault = file_fault(alloc, file)?;
        if fault.is_some() {
            return Ok(fault);
        }
    }
    Ok(None)
}

/// The first rule that the parts break.
pub(crate) fn parts_fault(alloc: Global, parts: &Parts) -> Result<Option<Fault>, AllocError>
    ensures { IfOk result (λ fault. fault ≡ spec.parts_fault parts.now) }
{
    if parts.types.as_slice().len() > MAX_MESSAGE_TYPES {
        return Ok(broken(Rule::TooManyTypes, Some(NOWHERE)));
    }
    let of_types = messages_fault(alloc, &parts.types)?;
    if of_types.is_some() {
        return Ok(of_types);
    }
    let of_enums = enums_fault(alloc, &parts.enums)?;
    if of_enums.is_some() {
        return Ok(of_enums);
    }
    files_fault(alloc, &parts.files)
}
