//! Messages as a writer goes over them, whether they own their parts or borrow them.

ghost use Rattle.std.specs.Prelude.{◌≡◌, ◌≢◌, [], ℕ, List, Bool, true, ⊤, map, MatchOption};
ghost use Rattle.std.specs.List.{AllByRecursion};
ghost use Rattle.pg_wire.specs.Records.{WireRecord};
ghost use Rattle.pg_dyn.specs.message.Kept.{Kept, ends, type_of};
ghost use Rattle.pg_dyn.specs.message.KeptParts.{AreOf, KeptItem, unknown_of};
ghost use Rattle.pg_dyn.specs.encoding.Lending.{AreKeyed, AreKeyless, Bare, Child, IsLone, bare_leaf, entry_part, item_part, leaf_lent, lent_item};
ghost use Rattle.pg_dyn.specs.message.Replacing.{all_parts, kept_onto};
ghost use Rattle.pg_dyn.specs.word.NumberLists.{numbers_in};
ghost use Rattle.pg_dyn.specs.message.Message.{Part};
ghost use Rattle.pg_dyn.specs.message.Seen.{Rises};

use crate::message::{Content, Message, UnknownRecord, Value};
use crate::message_ref::{ContentRef, EntryRef, MessageRef, ValueRef};
use crate::number_list::NumberList;
use pg_schema::TypeId;
use pg_wire::Record;

/// An item that is no message; strings and bytes are one kind.
#[derive(Clone, Copy)]
pub(crate) enum LeafRef<'b> {
    Int(i128),
    F32(u32),
    F64(u64),
    Bytes(&'b [u8]),
}

/// A message that lends its parts.
pub(crate) trait Lends {
    /// An item of a field, an entry of a map, what a field holds, and an unknown record.
    type Value;

    type Entry;

    type Content;

    type Unknown;

    ghost kept: { Self → Kept };

    ghost item: { Self.Value → Bare };

    ghost key_of: { Self.Entry → Self.Value };

    ghost value_of: { Self.Entry → Self.Value };

    ghost parts: { ℕ → Self.Content → List (Part KeptItem) };

    ghost has_values: { Self.Content → Type 0 };

    ghost record_of: { Self.Unknown → WireRecord };

    /// The type of the message.
    fn message_type(&self) -> TypeId
        ensures { result ≡ type_of (kept self.now) };

    /// The contents of the fields, by rising number. None is empty.
    fn fields(&self) -> &[(u32, Self::Content)]
        ensures whole { kept self.now
            ≡ kept_onto (all_parts parts result.now)
            (ends (type_of (kept self.now)) (unknown_of (kept self.now))) }
        ensures rises { Rises result.now }
        ensures filled { AllByRecursion (λ f. parts f.0 f.1 ≢ []) result.now }
        ensures numbered { AllByRecursion (λ f. AreOf f.0 (parts f.0 f.1)) result.now };

    /// The unknown records, in the order read.
    fn records(&self) -> &[Self::Unknown]
        ensures { map record_of result.now ≡ unknown_of (kept self.now) };

    /// All bytes of an unknown record.
    fn record_bytes<'b>(found: &'b Self::Unknown) -> &'b [u8]
        ensures { result.now ≡ (record_of found.now).bytes };

    /// The numbers of a content that is kept as a list of them; `None` of another.
    fn numbers<'b>(content: &'b Self::Content) -> Option<&'b NumberList>
        ensures { MatchOption result (has_values content.now)
            (λ numbers. (number : ℕ) → parts number content.now
            ≡ map (item_part lent_item number true) (numbers_in numbers.now)) };

    /// The items of another content that isn't a map's.
    fn items<'b>(content: &'b Self::Content) -> &'b [Self::Value]
        ensures { (number : ℕ) → has_values content.now → AreKeyless (parts number content.now)
            → (listed : Bool) × (parts number content.now
            ≡ map (item_part item number listed) result.now) };

    /// The entries of a map's content.
    fn entries<'b>(content: &'b Self::Content) -> &'b [Self::Entry]
        ensures { (number : ℕ) → AreKeyed (parts number content.now)
            → parts number content.now ≡ map (entry_part item key_of value_of number) result.now };

    /// The key of an entry.
    fn key<'b>(entry: &'b Self::Entry) -> &'b Self::Value
        ensures { result.now ≡ key_of entry.now };

    /// The value of an entry.
    fn value<'b>(entry: &'b Self::Entry) -> &'b Self::Value
        ensures { result.now ≡ value_of entry.now };

    /// The message that an item is; `None` where it is none.
    fn child<'b>(value: &'b Self::Value) -> Option<&'b Self>
        ensures { MatchOption result (IsLone (item value.now))
            (λ child. item value.now ≡ Child (kept child.now)) };

    /// The item, of a message no bytes.
    fn leaf<'b>(value: &'b Self::Value) -> LeafRef<'b>
        ensures { leaf_lent result ≡ bare_leaf (item value.now) };
}

impl Lends for Message {
    ghost use Rattle.pg_dyn.specs.encoding.Lending.{owned_item};
    ghost use Rattle.pg_dyn.specs.message.Seen.{content_seen, record_seen};

    type Value = Value;

    type Entry = (Value, Value);

    type Content = Content;

    type Unknown = UnknownRecord;

    ghost kept = { λ m. m };

    ghost item = { owned_item };

    ghost key_of = { λ e. e.0 };

    ghost value_of = { λ e. e.1 };

    ghost parts = { content_seen };

    ghost has_values = { λ _. ⊤ };

    ghost record_of = { record_seen };

    fn message_type(&self) -> TypeId {
        self.type_id()
    }

    fn fields(&self) -> &[(u32, Content)] {
        &self.fields
    }

    fn records(&self) -> &[UnknownRecord] {
        self.unknown()
    }

    fn record_bytes<'b>(found: &'b UnknownRecord) -> &'b [u8] {
        &found.bytes
    }

    #[inline(always)]
    fn numbers<'b>(_content: &'b Content) -> Option<&'b NumberList> {
        None
    }

    #[inline(always)]
    fn items<'b>(content: &'b Content) -> &'b [Value] {
        match content {
            Content::One(value) => std::slice::from_ref(value),
            Content::Many(values) => values,
            Content::Map(_) => &[],
        }
    }

    #[inline(always)]
    fn entries<'b>(content: &'b Content) -> &'b [(Value, Value)] {
        match content {
            Content::Map(entries) => entries,
            Content::One(_) | Content::Many(_) => &[],
        }
    }

    #[inline(always)]
    fn key<'b>(entry: &'b (Value, Value)) -> &'b Value {
        &entry.0
    }

    #[inline(always)]
    fn value<'b>(entry: &'b (Value, Value)) -> &'b Value {
        &entry.1
    }

    #[inline(always)]
    fn child<'b>(value: &'b Value) -> Option<&'b Message> {
        match value {
            Value::Msg(child) => Some(child),
            _ => None,
        }
    }

    #[inline(always)]
    fn leaf<'b>(value: &'b Value) -> LeafRef<'b> {
        match value {
            Value::Int(number) => LeafRef::Int(*number),
            Value::F32(bits) => LeafRef::F32(*bits),
            Value::F64(bits) => LeafRef::F64(*bits),
            Value::Text(text) => LeafRef::Bytes(text.as_bytes()),
            Value::Bytes(bytes) => LeafRef::Bytes(bytes),
            Value::Msg(_) => LeafRef::Bytes(&[]),
        }
    }
}

impl<'a> Lends for MessageRef<'a> {
    ghost use Rattle.pg_dyn.specs.message_ref.Borrowed.{content_seen};
    ghost use Rattle.pg_dyn.specs.encoding.Lending.{HasValues};
    ghost use Rattle.pg_wire.specs.Reads.{seen_record};

    type Value = ValueRef<'a>;

    type Entry = EntryRef<'a>;

    type Content = ContentRef<'a>;

    type Unknown = Record<'a>;

    ghost kept = { λ m. m };

    ghost item = { lent_item };

    ghost key_of = { λ e. e.key };

    ghost value_of = { λ e. e.value };

    ghost parts = { content_seen };

    ghost has_values = { HasValues };

    ghost record_of = { seen_record };

    fn message_type(&self) -> TypeId {
        self.type_id()
    }

    fn fields(&self) -> &[(u32, ContentRef<'a>)] {
        &self.fields
    }

    fn records(&self) -> &[Record<'a>] {
        self.unknown()
    }

    fn record_bytes<'b>(found: &'b Record<'a>) -> &'b [u8] {
        found.bytes
    }

    #[inline(always)]
    fn numbers<'b>(content: &'b ContentRef<'a>) -> Option<&'b NumberList> {
        match content {
            ContentRef::Numbers(numbers) => Some(numbers),
            ContentRef::One(_) | ContentRef::Many(_) | ContentRef::Map(_) => None,
        }
    }

    #[inline(always)]
    fn items<'b>(content: &'b ContentRef<'a>) -> &'b [ValueRef<'a>] {
        match content {
            ContentRef::One(value) => std::slice::from_ref(value),
            ContentRef::Many(values) => values,
            ContentRef::Map(_) => &[],
            ContentRef::Numbers(_) => &[],
        }
    }

    #[inline(always)]
    fn entries<'b>(content: &'b ContentRef<'a>) -> &'b [EntryRef<'a>] {
        match content {
            ContentRef::Map(entries) => entries,
            ContentRef::One(_) | ContentRef::Many(_) | ContentRef::Numbers(_) => &[],
        }
    }

    #[inline(always)]
    fn key<'b>(entry: &'b EntryRef<'a>) -> &'b ValueRef<'a> {
        &entry.key
    }

    #[inline(always)]
    fn value<'b>(entry: &'b EntryRef<'a>) -> &'b ValueRef<'a> {
        &entry.value
    }

    #[inline(always)]
    fn child<'b>(value: &'b ValueRef<'a>) -> Option<&'b MessageRef<'a>> {
        match value {
            ValueRef::Msg(child) => Some(child),
            _ => None,
        }
    }

    #[inline(always)]
    fn leaf<'b>(value: &'b ValueRef<'a>) -> LeafRef<'b> {
        match value {
            ValueRef::Int(number) => LeafRef::Int(number.get()),
            ValueRef::F32(bits) => LeafRef::F32(*bits),
            ValueRef::F64(bits) => LeafRef::F64(*bits),
            ValueRef::Text(text) => LeafRef::Bytes(text.as_bytes()),
            ValueRef::Bytes(bytes) => LeafRef::Bytes(bytes),
            ValueRef::Msg(_) => LeafRef::Bytes(&[]),
        }
    }
}
