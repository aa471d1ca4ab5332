//! Messages that borrow, turned into ones that own their parts. Each message of a list is freed
//! once it is copied, and a content once all its items are, so that its memory serves what comes
//! after.

ghost use Rattle.std.specs.Prelude.{◌≡◌, map, true, IfOk};
ghost use Rattle.pg_dyn.specs.inner.Copies.{IsContentCopy, IsItemCopy};
ghost use Rattle.pg_dyn.specs.message_ref.Borrowed as borrowed;
ghost use Rattle.pg_dyn.specs.message.Seen.{item_seen};

use crate::message::{Content, Message, Value};
use crate::message_ref::{ContentRef, MessageRef, ValueRef};
use crate::owned_copies::owned_records;
use std::alloc::{AllocError, Global};

impl<'a> ValueRef<'a> {
    // The item with a string, bytes or a message of its own. Inlined, so that numbers are moved
    // without a call.
    #[cycle(moving)]
    #[inline(always)]
    fn into_value(self, alloc: Global) -> Result<Value, AllocError>
        ensures { IfOk result (IsItemCopy self.entry) }
    {
        match self {
            ValueRef::Int(number) => Ok(Value::Int(number.get())),
            ValueRef::F32(bits) => Ok(Value::F32(bits)),
            ValueRef::F64(bits) => Ok(Value::F64(bits)),
            ValueRef::Text(text) => Ok(Value::Text(String::from_str(alloc, text)?)),
            ValueRef::Bytes(bytes) => Ok(Value::Bytes(Vec::from_slice(alloc, bytes)?)),
            ValueRef::Msg(child) => Ok(Value::Msg(MessageRef::into_boxed(child, alloc)?)),
        }
    }
}

impl<'a> ContentRef<'a> {
    // The items of a list, each with parts of its own.
    #[cycle(moving)]
    fn into_values(values: Vec<ValueRef<'a>>, alloc: Global) -> Result<Vec<Value>, AllocError>
        ensures { IfOk result (λ owned. map (item_seen true) owned.items
            ≡ map (borrowed.item_seen true) values.entry.items) }
    {
        let mut owned = Vec::with_capacity(alloc, values.len())?;
        for value in values {
            owned.push(value.into_value(alloc)?)?;
        }
        Ok(owned)
    }

    // The content with items of its own.
    #[cycle(moving)]
    fn into_content(self, alloc: Global) -> Result<Content, AllocError>
        ensures { IfOk result (IsContentCopy self.entry) }
    {
        match self {
            ContentRef::One(value) => Ok(Content::One(value.into_value(alloc)?)),
            ContentRef::Many(values) => Ok(Content::Many(ContentRef::into_values(values, alloc)?)),
            ContentRef::Map(entries) => Ok(Content::Map(ContentRef::to_entries(&entries, alloc)?)),
            ContentRef::Numbers(numbers) => Ok(Content::Many(numbers.to_values(alloc)?)),
        }
    }
}

impl<'a> MessageRef<'a> {
    // The message in its box, with parts of its own. Not inlined, as the copy of an item is.
    #[cycle(moving)]
    #[inline(never)]
    fn into_boxed(child: Box<MessageRef<'a>>, alloc: Global) -> Result<Box<Message>, AllocError>
        ensures { IfOk result (λ owned. owned.value ≡ child.entry.value) }
    {
        let owned = Box::into_inner(child).into_message(alloc)?;
        Ok(Box::new(alloc, owned)?)
    }

    /// The message with strings, bytes, messages and unknown records of its own.
    #[cycle(moving)]
    pub(crate) fn into_message(self, alloc: Global) -> Result<Message, AllocError>
        ensures { IfOk result (λ owned. owned ≡ self.entry) }
    {
        let MessageRef {
            type_id,
            fields,
            unknown,
        } = self;
        let mut owned = Vec::with_capacity(alloc, fields.len())?;
        for (number, content) in fields {
            owned.push((number, content.into_content(alloc)?))?;
        }
        Ok(Message {
            type_id,
            fields: owned,
            unknown: owned_records(alloc, &unknown)?,
            last_set: Vec::new(alloc),
        })
    }
}
