//! What holds of each message type, taken by itself.

ghost use Rattle.std.specs.Prelude.{◌≡◌, ◌∷◌, IfOk, length};
ghost use Rattle.std.specs.BTreeSet.{contains};
ghost use Rattle.std.specs.Ordering.{nat_cmp};
ghost use Rattle.pg_schema.specs.declared.parts.field.Field.{Field};
ghost use Rattle.std.specs.List.{list_all};
ghost use Rattle.std.specs.String.{string_bytes};
ghost use Rattle.pg_schema.specs.inner.Sets.{AreMarks, IsNumberSet};
ghost use Rattle.pg_schema.specs.rules.Messages.{field_names, has_fields, has_oneofs, has_reserved, have_members, is_declared, is_field, is_message_type, json_names, numbers};
ghost use Rattle.pg_schema.specs.rules.Pairs.{are_distinct, is_rising};
ghost use Rattle.pg_schema.specs.inner.LentTexts.{lent};
ghost use Rattle.pg_schema.specs.rules.Uses.{is_reserved_range};
ghost use Rattle.pg_schema.specs.rules.Words.{is_word};

use crate::parts::field::Field;
use crate::parts::message_type::{MessageType, ReservedFields};
use crate::rules::fields::{has_presence, is_field_number, is_known, is_oneof, is_packed};
use crate::rules::text_sets::{are_named_once, set_of};
use crate::rules::uses::{is_used_once, message_uses};
use crate::rules::words::is_word;
use std::alloc::{AllocError, Global};
use std::collections::BTreeSet;

/// The field keeps to the rules of a field, in a message of so many oneofs, among so many message
/// types and enums.
fn is_field(field: &Field, oneofs: usize, types: usize, enums: usize) -> bool
    ensures { result ≡ is_field oneofs types enums field.now }
{
    is_field_number(field.number)
        && is_word(field.name.as_bytes())
        && has_presence(
            field.presence,
            field.element,
            field.oneof.is_some(),
            field.states_optional,
        )
        && is_packed(field.presence, field.element, field.options.packed)
        && is_known(types, enums, field.element)
        && is_oneof(oneofs, field.oneof)
}

/// Each field does.
pub(crate) fn are_fields(fields: &[Field], oneofs: usize, types: usize, enums: usize) -> bool
    ensures { result ≡ list_all (is_field oneofs types enums) fields.now }
{
    for field in fields {
        if !is_field(field, oneofs, types, enums) {
            return false;
        }
    }
    true
}

/// Each string is a word.
pub(crate) fn are_words(texts: &[String]) -> bool
    ensures { result ≡ list_all (λ text. is_word (string_bytes text)) texts.now }
{
    for text in texts {
        if !is_word(text.as_bytes()) {
            return false;
        }
    }
    true
}

/// Each reserved item lies within the bounds of field numbers and doesn't fall.
pub(crate) fn are_reserved_ranges(ranges: &[ReservedFields]) -> bool
    ensures { result ≡ list_all is_reserved_range ranges.now }
{
    for range in ranges {
        if range.first < 1 || range.last < range.first || 0x2000_0000 <= range.last {
            return false;
        }
    }
    true
}

/// The fields come by rising number, from 1 on.
pub(crate) fn is_rising(fields: &[Field]) -> bool
    ensures { result ≡ is_rising (0 ∷ numbers fields.now) }
{
    let mut below = 0;
    for field in fields {
        if field.number <= below {
            return false;
        }
        below = field.number;
    }
    true
}

/// Whether each oneof has a member, by its index.
fn members(alloc: Global, fields: &[Field], oneofs: usize) -> Result<Vec<bool>, AllocError>
    ensures { IfOk result (λ marks. AreMarks fields.now oneofs marks.items) }
{
    let mut marks = vec![in alloc; false; oneofs]?;
    for field in fields {
        if let Some(place) = field.oneof {
            if (place as usize) < marks.len() {
                marks[place as usize] = true;
            }
        }
    }
    Ok(marks)
}

/// Each of these flags is set.
fn are_set(flags: &[bool]) -> bool
    ensures { result ≡ list_all (λ flag. flag) flags.now }
{
    for flag in flags {
        if !*flag {
            return false;
        }
    }
    true
}

/// Each oneof has a member.
pub(crate) fn have_members(
    alloc: Global,
    fields: &[Field],
    oneofs: usize,
) -> Result<bool, AllocError>
    ensures { IfOk result (λ b. b ≡ have_members oneofs fields.now) }
{
    let marks = members(alloc, fields, oneofs)?;
    Ok(are_set(&marks))
}

/// The names of the fields.
fn field_names(alloc: Global, fields: &[Field]) -> Result<Vec<&str>, AllocError>
    ensures { IfOk result (λ names. lent names.items ≡ field_names fields.now) }
{
    let mut names = Vec::with_capacity(alloc, fields.len())?;
    for field in fields {
        names.push(field.name.as_str())?;
    }
    Ok(names)
}

/// The JSON names of the fields.
fn json_names(alloc: Global, fields: &[Field]) -> Result<Vec<&str>, AllocError>
    ensures { IfOk result (λ names. lent names.items ≡ json_names fields.now) }
{
    let mut names = Vec::with_capacity(alloc, fields.len())?;
    for field in fields {
        names.push(field.json_name.as_str())?;
    }
    Ok(names)
}

/// No JSON name is there twice.
pub(crate) fn have_distinct_json_names(alloc: Global, fields: &[Field]) -> Result<bool, AllocError>
    ensures { IfOk result (λ b. b ≡ are_distinct (json_names fields.now)) }
{
    let names = json_names(alloc, fields)?;
    let set = set_of(alloc, &names)?;
    Ok(set.is_some())
}

/// The set of these numbers.
fn number_set(alloc: Global, numbers: &[u32]) -> Result<BTreeSet<u32>, AllocError>
    ensures { IfOk result (IsNumberSet numbers.now) }
{
    let mut set = BTreeSet::new(alloc);
    for number in numbers {
        set.insert(*number)?;
    }
    Ok(set)
}

/// The set has the number of each field.
fn has_numbers(set: &BTreeSet<u32>, fields: &[Field]) -> bool
    ensures { result ≡ list_all (λ (f : Field). contains nat_cmp set.now f.number) fields.now }
{
    for field in fields {
        if !set.contains(&field.number) {
            return false;
        }
    }
    true
}

/// The declared numbers are those of the fields.
fn are_declared(alloc: Global, declared: &[u32], fields: &[Field]) -> Result<bool, AllocError>
    ensures { IfOk result (λ b. b ≡ is_declared declared.now fields.now) }
{
    if declared.len() != fields.len() {
        return Ok(false);
    }
    let set = number_set(alloc, declared)?;
    Ok(has_numbers(&set, fields))
}

/// The fields keep to the rules of fields, and are in order.
fn has_fields(
    alloc: Global,
    message_type: &MessageType,
    types: usize,
    enums: usize,
) -> Result<bool, AllocError>
    ensures { IfOk result (λ b. b ≡ has_fields types enums message_type.now) }
{
    let oneofs = message_type.oneofs.len();
    if !are_fields(&message_type.fields, oneofs, types, enums) || !is_rising(&message_type.fields) {
        return Ok(false);
    }
    are_declared(alloc, &message_type.declared, &message_type.fields)
}

/// Each oneof is a word and has a member.
fn has_oneofs(alloc: Global, message_type: &MessageType) -> Result<bool, AllocError>
    ensures { IfOk result (λ b. b ≡ has_oneofs message_type.now) }
{
    if !are_words(&message_type.oneofs) {
        return Ok(false);
    }
    have_members(alloc, &message_type.fields, message_type.oneofs.len())
}

/// No number and no name is used twice, and none that is reserved.
fn has_reserved(alloc: Global, message_type: &MessageType) -> Result<bool, AllocError>
    ensures { IfOk result (λ b. b ≡ has_reserved message_type.now) }
{
    if !are_reserved_ranges(&message_type.reserved_numbers) {
        return Ok(false);
    }
    let uses = message_uses(alloc, &message_type.fields, &message_type.reserved_numbers)?;
    if !is_used_once(false, uses) {
        return Ok(false);
    }
    let names = field_names(alloc, &message_type.fields)?;
    are_named_once(alloc, &names, &message_type.reserved_names)
}

/// The message type keeps to the rules of a message type, among so many and so many enums.
fn is_message_type(
    alloc: Global,
    message_type: &MessageType,
    types: usize,
    enums: usize,
) -> Result<bool, AllocError>
    ensures { IfOk result (λ b. b ≡ is_message_type types enums message_type.now) }
{
    if !has_fields(alloc, message_type, types, enums)? || !has_oneofs(alloc, message_type)? {
        return Ok(false);
    }
    if !has_reserved(alloc, message_type)? {
        return Ok(false);
    }
    have_distinct_json_names(alloc, &message_type.fields)
}

/// Each message type does, with so many enums.
pub(crate) fn are_message_types(
    alloc: Global,
    message_types: &[MessageType],
    enums: usize,
) -> Result<bool, AllocError>
    ensures { IfOk result (λ b. b ≡ list_all
        (is_message_type (length message_types.now) enums) message_types.now) }
{
    for message_type in message_types {
        if !is_message_type(alloc, message_type, message_types.len(), enums)? {
            return Ok(false);
        }
    }
    Ok(true)
}
