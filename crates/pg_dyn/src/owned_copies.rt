//! Messages that borrow, copied into ones that own their parts.

ghost use Rattle.std.specs.Prelude.{◌≡◌, map, true, IfOk};
ghost use Rattle.std.specs.List.{AllByRecursion};
ghost use Rattle.pg_wire.specs.Reads.{seen_record};
ghost use Rattle.pg_wire.specs.Records.{IsRecord};
ghost use Rattle.pg_dyn.specs.inner.Copies.{AreEntryCopies, IsContentCopy, IsEntryCopy, IsItemCopy};
ghost use Rattle.pg_dyn.specs.message_ref.Borrowed as borrowed;
ghost use Rattle.pg_dyn.specs.word.NumberLists.{item_of, numbers_in};
ghost use Rattle.pg_dyn.specs.message.Seen.{HasBody, item_seen, record_seen};

use crate::message::{Content, Message, UnknownRecord, Value};
use crate::message_ref::{ContentRef, EntryRef, MessageRef, ValueRef};
use crate::number_list::{Number, NumberList, word_number};
use pg_wire::Record;
use std::alloc::{AllocError, Global};

// A record with all its bytes.
fn owned_record(alloc: Global, found: &Record<'_>) -> Result<UnknownRecord, AllocError>
    requires { IsRecord (seen_record found.now) }
    ensures seen { IfOk result (λ owned. record_seen owned ≡ seen_record found.now) }
    ensures body { IfOk result HasBody }
{
    Ok(UnknownRecord {
        number: found.number,
        wire_type: found.wire_type,
        body_start: found.bytes.len() - found.body.len(),
        bytes: Vec::from_slice(alloc, found.bytes)?,
    })
}

// The records, each with bytes of its own.
pub(crate) fn owned_records(
    alloc: Global,
    records: &[Record<'_>],
) -> Result<Vec<UnknownRecord>, AllocError>
    requires { AllByRecursion IsRecord (map seen_record records.now) }
    ensures seen { IfOk result
        (λ owned. map record_seen owned.items ≡ map seen_record records.now) }
    ensures bodies { IfOk result (λ owned. AllByRecursion HasBody owned.items) }
{
    let mut owned = Vec::with_capacity(alloc, records.len())?;
    for found in records {
        owned.push(owned_record(alloc, found)?)?;
    }
    Ok(owned)
}

impl Number {
    // The number as an item that a message owns.
    #[inline(always)]
    fn to_value(self) -> Value
        ensures { IsItemCopy (item_of self) result }
    {
        match self {
            Number::Int(number) => Value::Int(number),
            Number::F32(bits) => Value::F32(bits),
            Number::F64(bits) => Value::F64(bits),
        }
    }
}

impl NumberList {
    // The items of the list's numbers. Not inlined, so that a level of messages takes no more of
    // the stack for it.
    #[inline(never)]
    pub(crate) fn to_values(&self, alloc: Global) -> Result<Vec<Value>, AllocError>
        ensures { IfOk result (λ owned. map (item_seen true) owned.items
            ≡ map (borrowed.item_seen true) (numbers_in self.now)) }
    {
        let mut owned = Vec::with_capacity(alloc, self.words.len())?;
        for word in &self.words {
            owned.push(word_number(self.scalar, *word).to_value())?;
        }
        Ok(owned)
    }
}

impl<'a> ValueRef<'a> {
    // The item with a string, bytes or a message of its own. Inlined, so that numbers are copied
    // without a call.
    #[cycle(owning)]
    #[inline(always)]
    fn to_value(&self, alloc: Global) -> Result<Value, AllocError>
        ensures { IfOk result (IsItemCopy self.now) }
    {
        match self {
            ValueRef::Int(number) => Ok(Value::Int(number.get())),
            ValueRef::F32(bits) => Ok(Value::F32(*bits)),
            ValueRef::F64(bits) => Ok(Value::F64(*bits)),
            ValueRef::Text(text) => Ok(Value::Text(String::from_str(alloc, text)?)),
            ValueRef::Bytes(bytes) => Ok(Value::Bytes(Vec::from_slice(alloc, bytes)?)),
            ValueRef::Msg(child) => Ok(Value::Msg(child.to_boxed(alloc)?)),
        }
    }
}

impl<'a> EntryRef<'a> {
    // The entry with a key and a value of its own.
    #[cycle(owning)]
    fn to_entry(&self, alloc: Global) -> Result<(Value, Value), AllocError>
        ensures { IfOk result (IsEntryCopy self.now) }
    {
        let key = self.key.to_value(alloc)?;
        let value = self.value.to_value(alloc)?;
        Ok((key, value))
    }
}

impl<'a> ContentRef<'a> {
    // The items of a list, each with parts of its own.
    #[cycle(owning)]
    fn to_values(values: &[ValueRef<'a>], alloc: Global) -> Result<Vec<Value>, AllocError>
        ensures { IfOk result (λ owned. map (item_seen true) owned.items
            ≡ map (borrowed.item_seen true) values.now) }
    {
        let mut owned = Vec::with_capacity(alloc, values.len())?;
        for value in values {
            owned.push(value.to_value(alloc)?)?;
        }
        Ok(owned)
    }

    // The entries of a map, each with parts of its own.
    #[cycle(owning)]
    pub(crate) fn to_entries(
        entries: &[EntryRef<'a>],
        alloc: Global,
    ) -> Result<Vec<(Value, Value)>, AllocError>
        ensures { IfOk result (λ owned. AreEntryCopies entries.now owned.items) }
    {
        let mut owned = Vec::with_capacity(alloc, entries.len())?;
        for entry in entries {
            owned.push(entry.to_entry(alloc)?)?;
        }
        Ok(owned)
    }

    // The content with items of its own.
    #[cycle(owning)]
    fn to_content(&self, alloc: Global) -> Result<Content, AllocError>
        ensures { IfOk result (IsContentCopy self.now) }
    {
        match self {
            ContentRef::One(value) => Ok(Content::One(value.to_value(alloc)?)),
            ContentRef::Many(values) => Ok(Content::Many(ContentRef::to_values(values, alloc)?)),
            ContentRef::Map(entries) => Ok(Content::Map(ContentRef::to_entries(entries, alloc)?)),
            ContentRef::Numbers(numbers) => Ok(Content::Many(numbers.to_values(alloc)?)),
        }
    }
}

impl<'a> MessageRef<'a> {
    // The same in a box. Not inlined, as the copy of an item is.
    #[cycle(owning)]
    #[inline(never)]
    fn to_boxed(&self, alloc: Global) -> Result<Box<Message>, AllocError>
        ensures { IfOk result (λ owned. owned.value ≡ self.now) }
    {
        let owned = self.to_message(alloc)?;
        Ok(Box::new(alloc, owned)?)
    }

    /// The message with strings, bytes, messages and unknown records of its own.
    #[cycle(owning)]
    pub fn to_message(&self, alloc: Global) -> Result<Message, AllocError>
        ensures { IfOk result (λ owned. owned ≡ self.now) }
    {
        let mut fields = Vec::with_capacity(alloc, self.fields.len())?;
        for (number, content) in &self.fields {
            fields.push((*number, content.to_content(alloc)?))?;
        }
        let unknown = owned_records(alloc, &self.unknown)?;
        Ok(Message {
            type_id: self.type_id,
            fields,
            unknown,
            last_set: Vec::new(alloc),
        })
    }
}
