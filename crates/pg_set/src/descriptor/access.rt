//! What the messages of a set say, by the numbers of their fields. An item of another kind than is
//! asked for says what its kind says of that: a number no string, a string no number.
//!
//! The messages are as a decoded set has them: the written schema has strings, numbers of 32 bits
//! and messages, and nothing else.

ghost use Rattle.std.specs.Prelude.{◌≡◌, [], ◌<◌, false, pos, true, FitsSigned, IfOk, IfSome, MatchOption, OnErr, OnOk, Some, length, map, option_map, slice_get};
ghost use Rattle.std.specs.Int.{w32};
ghost use Rattle.std.specs.List.{AllByRecursion};
ghost use Rattle.std.specs.Option.{option_copied};
ghost use Rattle.pg_dyn.specs.message.Kept.{message_of};
ghost use Rattle.pg_dyn.specs.message.KeptParts.{of_number};
ghost use Rattle.pg_dyn.specs.message_ref.Borrowed.{IsFilled, content_seen};
ghost use Rattle.pg_dyn.specs.message.Message.{Int, Plain};
ghost use Rattle.pg_dyn.specs.word.NumberLists.{IsNumber, numbers_in};
ghost use Rattle.pg_set.specs.inner.Lent.{lent};
ghost use Rattle.pg_set.specs.stated.SetMessages.{child_in, children_at, flag_at, item_at, items_at, maybe_flag_at, maybe_number_at, maybe_text_at, natural, number_at, number_of, numbers_at, options_at, text_at, text_of, texts_at};
ghost use Rattle.pg_set.specs.stated.FileMessages.{is_place};
ghost use Rattle.pg_set.specs.inner.reading.Held.{AreSaid, IsSaid, items_in, value_item, values_in};
ghost use Rattle.pg_set.specs.inner.reading.SetItems.{said};

use crate::error::Unstated;
use pg_dyn::{ContentRef, MessageRef, NumberList, ValueRef};
use std::alloc::{AllocError, Global};
use std::marker::Model;

/// A message of a set, which has at any depth nothing but strings and numbers of 32 bits. Contracts
/// see what the message keeps.
#[derive(Drop)]
pub(crate) struct SetMessage<'b, 'a> {
    message: &'b MessageRef<'a>,
}

impl<'b, 'a> Model for SetMessage<'b, 'a> {
    ghost use Rattle.pg_dyn.specs.message.Kept.{Kept};
    ghost use Rattle.pg_dyn.specs.message.KeptCode.{kept_code};
    ghost use Rattle.pg_set.specs.inner.reading.Held.{IsHeldMessage};

    ghost Value = { Kept };

    ghost coded = { kept_code };

    ghost view = { λ s. s.message.now };

    ghost invariant = { λ s. IsHeldMessage s.message.now };
}

impl<'b, 'a> SetMessage<'b, 'a> {
    ghost use Rattle.std.specs.Prelude.{◌≡◌};
    ghost use Rattle.pg_dyn.specs.message.Kept.{ends, type_of};
    ghost use Rattle.pg_dyn.specs.message.KeptParts.{unknown_of};
    ghost use Rattle.pg_dyn.specs.message_ref.Borrowed.{fields_onto};
    ghost use Rattle.pg_set.specs.inner.reading.Held.{IsHeldMessage};

    /// What is said by such a message.
    pub(crate) fn new(message: &'b MessageRef<'a>) -> SetMessage<'b, 'a>
        requires { IsHeldMessage message.now }
        ensures { result ≡ message.now }
    {
        SetMessage { message }
    }

    /// The same message.
    pub(crate) fn reborrow(&self) -> SetMessage<'b, 'a>
        ensures { result ≡ self.now }
    {
        SetMessage {
            message: self.message,
        }
    }

    /// The contents of its fields.
    pub(crate) fn contents(&self) -> &'b [(u32, ContentRef<'a>)]
        ensures { self.now
            ≡ fields_onto result.now (ends (type_of self.now) (unknown_of self.now)) }
    {
        self.message.contents()
    }
}

/// An item of such a message.
#[derive(Drop)]
pub(crate) enum SetItem<'b, 'a> {
    /// A number, a mark as 0 or 1, or the number of an enum value.
    Number(i32),
    Text(&'a str),
    Message(SetMessage<'b, 'a>),
}

/// What has to hold of a set that states a schema.
pub(crate) fn ensure(holds: bool) -> Result<(), Unstated>
    ensures ok { OnOk result (holds ≡ true) }
    ensures refused { OnErr result (holds ≡ false) }
{
    if !holds {
        return Err(Unstated::Reference);
    }
    Ok(())
}

// ---- items

/// The content of a field.
pub(crate) fn content<'b, 'a>(
    message: &SetMessage<'b, 'a>,
    number: u32,
) -> Option<&'b ContentRef<'a>>
    ensures content { MatchOption result (of_number number message.now ≡ [])
        (λ content. of_number number message.now ≡ content_seen number content.now) }
    ensures filled { IfSome result (λ content. IsFilled content.now) }
    ensures said { IfSome result (λ content. AreSaid content.now) }
{
    message.message.get(number)
}

// A number of 32 bits.
fn narrow(found: i128) -> i32
    requires { FitsSigned w32 found }
    ensures { result ≡ found }
{
    match i32::try_from(found) {
        Ok(number) => number,
        Err(_) => unreachable!(),
    }
}

// The item that a value is.
fn lent_item<'b, 'a>(value: &'b ValueRef<'a>) -> SetItem<'b, 'a>
    requires { IsSaid value.now }
    ensures { said result ≡ value_item value.now }
{
    match value {
        ValueRef::Int(found) => SetItem::Number(narrow(found.get())),
        ValueRef::Text(text) => SetItem::Text(*text),
        ValueRef::Msg(child) => SetItem::Message(SetMessage { message: &**child }),
        _ => unreachable!(),
    }
}

// The number that a value is.
fn number_of_value(value: &ValueRef<'_>) -> i32
    requires number { IsNumber value.now }
    requires said { IsSaid value.now }
    ensures { value_item value.now ≡ Plain (Int result) }
{
    match value {
        ValueRef::Int(found) => narrow(found.get()),
        _ => unreachable!(),
    }
}

// The number at an index of a list.
fn listed_number(numbers: &NumberList, at: usize) -> i32
    requires within { at < length (numbers_in numbers.now) }
    requires said { AllByRecursion IsSaid (numbers_in numbers.now) }
    ensures { slice_get (map value_item (numbers_in numbers.now)) at ≡ Some (Plain (Int result)) }
{
    let value = numbers.get(at);
    number_of_value(&value)
}

// How many items a content has.
fn item_count(content: &ContentRef<'_>) -> usize
    ensures { result ≡ length (values_in content.now) }
{
    match content {
        ContentRef::One(_) => 1,
        ContentRef::Many(values) => values.len(),
        ContentRef::Map(entries) => entries.len(),
        ContentRef::Numbers(numbers) => numbers.len(),
    }
}

// The item of a content at an index, an entry's being its value.
fn item_of<'b, 'a>(content: &'b ContentRef<'a>, at: usize) -> SetItem<'b, 'a>
    requires within { at < length (values_in content.now) }
    requires said { AreSaid content.now }
    ensures { slice_get (items_in content.now) at ≡ Some (said result) }
{
    match content {
        ContentRef::One(value) => lent_item(value),
        ContentRef::Many(values) => lent_item(&values[at]),
        ContentRef::Map(entries) => lent_item(&entries[at].value),
        ContentRef::Numbers(numbers) => SetItem::Number(listed_number(numbers, at)),
    }
}

/// The item of a singular field: the first, where there are more.
pub(crate) fn item<'b, 'a>(message: &SetMessage<'b, 'a>, number: u32) -> Option<SetItem<'b, 'a>>
    ensures { option_map said result ≡ item_at number (message_of message.now) }
{
    match content(message, number) {
        None => None,
        Some(content) => Some(item_of(content, 0)),
    }
}

// ---- what an item is

/// The message that an item is.
pub(crate) fn child_in<'b, 'a>(item: &SetItem<'b, 'a>) -> Option<SetMessage<'b, 'a>>
    ensures { option_map message_of result ≡ child_in (said item.now) }
{
    match item {
        SetItem::Message(child) => Some(child.reborrow()),
        _ => None,
    }
}

/// The string that an item is.
pub(crate) fn text_in<'b, 'a>(item: &SetItem<'b, 'a>) -> &'a str
    ensures { result.now ≡ text_of (said item.now) }
{
    match item {
        SetItem::Text(text) => *text,
        _ => "",
    }
}

// The number that an item is, 0 where it is none.
fn whole_in(item: &SetItem<'_, '_>) -> i32
    ensures { number_of (said item.now) ≡ result }
{
    match item {
        SetItem::Number(found) => *found,
        _ => 0,
    }
}

/// The same as a number of more bits.
pub(crate) fn number_in(item: &SetItem<'_, '_>) -> i128
    ensures { result ≡ number_of (said item.now) }
{
    i128::from(whole_in(item))
}

// ---- messages

/// The messages of a repeated field.
pub(crate) fn children<'b, 'a>(
    alloc: Global,
    message: &SetMessage<'b, 'a>,
    number: u32,
) -> Result<Vec<SetMessage<'b, 'a>>, AllocError>
    ensures { IfOk result (λ found. map message_of found.items
        ≡ children_at number (message_of message.now)) }
{
    let Some(content) = content(message, number) else {
        return Ok(Vec::new(alloc));
    };
    let count = item_count(content);
    let mut children = Vec::with_capacity(alloc, count)?;
    for at in 0..count {
        if let SetItem::Message(child) = item_of(content, at) {
            children.push(child)?;
        }
    }
    Ok(children)
}

// ---- strings

/// The string of a singular field, where there is one.
pub(crate) fn maybe_text<'b, 'a>(message: &SetMessage<'b, 'a>, number: u32) -> Option<&'a str>
    ensures { option_copied result ≡ maybe_text_at number (message_of message.now) }
{
    match item(message, number) {
        None => None,
        Some(value) => Some(text_in(&value)),
    }
}

/// The string of a singular field, empty where it is missing.
pub(crate) fn text<'b, 'a>(message: &SetMessage<'b, 'a>, number: u32) -> &'a str
    ensures { result.now ≡ text_at number (message_of message.now) }
{
    match maybe_text(message, number) {
        Some(text) => text,
        None => "",
    }
}

/// The strings of a repeated field.
pub(crate) fn texts<'b, 'a>(
    alloc: Global,
    message: &SetMessage<'b, 'a>,
    number: u32,
) -> Result<Vec<&'a str>, AllocError>
    ensures { IfOk result (λ found. lent found.items ≡ texts_at number (message_of message.now)) }
{
    let Some(content) = content(message, number) else {
        return Ok(Vec::new(alloc));
    };
    let count = item_count(content);
    let mut texts = Vec::with_capacity(alloc, count)?;
    for at in 0..count {
        texts.push(text_in(&item_of(content, at)))?;
    }
    Ok(texts)
}

// ---- numbers

/// The number of a singular field, where there is one.
pub(crate) fn maybe_number(message: &SetMessage<'_, '_>, number: u32) -> Option<i128>
    ensures { result ≡ maybe_number_at number (message_of message.now) }
{
    match item(message, number) {
        None => None,
        Some(value) => Some(number_in(&value)),
    }
}

/// The number of a singular field, 0 where it is missing.
pub(crate) fn number(message: &SetMessage<'_, '_>, number: u32) -> i128
    ensures { result ≡ number_at number (message_of message.now) }
{
    match maybe_number(message, number) {
        Some(found) => found,
        None => 0,
    }
}

/// The same as a number of 32 bits, which it is.
pub(crate) fn whole(message: &SetMessage<'_, '_>, field: u32) -> i32
    ensures { number_at field (message_of message.now) ≡ result }
{
    match item(message, field) {
        None => 0,
        Some(value) => whole_in(&value),
    }
}

/// The number of a singular field, which is above 0 and one of 32 bits; 0 for any other.
pub(crate) fn count(message: &SetMessage<'_, '_>, field: u32) -> u32
    ensures { result ≡ natural (number_at field (message_of message.now)) }
{
    u32::try_from(number(message, field)).unwrap_or(0)
}

/// The numbers of a repeated field.
pub(crate) fn numbers(
    alloc: Global,
    message: &SetMessage<'_, '_>,
    number: u32,
) -> Result<Vec<i128>, AllocError>
    ensures { IfOk result (λ found. found.items ≡ numbers_at number (message_of message.now)) }
{
    let Some(content) = content(message, number) else {
        return Ok(Vec::new(alloc));
    };
    let count = item_count(content);
    let mut numbers = Vec::with_capacity(alloc, count)?;
    for at in 0..count {
        numbers.push(number_in(&item_of(content, at)))?;
    }
    Ok(numbers)
}

/// The index that a number is, among so many. Refused is a number of none.
pub(crate) fn place_in(number: &i128, count: usize) -> Result<usize, Unstated>
    ensures ok { IfOk result (λ place. number.now ≡ pos place) }
    ensures within { IfOk result (λ place. place < count) }
    ensures refused { OnErr result (is_place count number.now ≡ false) }
{
    match usize::try_from(*number) {
        Ok(place) if place < count => Ok(place),
        _ => Err(Unstated::Reference),
    }
}

// ---- marks

/// The mark of a singular field, where there is one.
pub(crate) fn maybe_flag(message: &SetMessage<'_, '_>, number: u32) -> Option<bool>
    ensures { result ≡ maybe_flag_at number (message_of message.now) }
{
    match maybe_number(message, number) {
        None => None,
        Some(found) => Some(found != 0),
    }
}

/// The mark of a singular field, false where it is missing.
pub(crate) fn flag(message: &SetMessage<'_, '_>, number: u32) -> bool
    ensures { result ≡ flag_at number (message_of message.now) }
{
    match maybe_flag(message, number) {
        Some(flag) => flag,
        None => false,
    }
}

/// The mark with the second number in the options of the first, where both are there.
pub(crate) fn option(message: &SetMessage<'_, '_>, options: u32, number: u32) -> Option<bool>
    ensures { result ≡ maybe_flag_at number (options_at options (message_of message.now)) }
{
    match item(message, options) {
        Some(found) => match child_in(&found) {
            Some(child) => maybe_flag(&child, number),
            None => None,
        },
        None => None,
    }
}
