//! Messages that borrow from the bytes that they are read from.

ghost use Rattle.std.specs.Prelude.{◌≡◌, ◌↔◌, [], map, false, Some, IfSome, IsTrue, MatchOption};
ghost use Rattle.pg_dyn.specs.message_ref.Borrowed as borrowed;

use crate::field_list::place_of;
use crate::integer::Integer;
use crate::number_list::NumberList;
use pg_schema::TypeId;
use pg_wire::Record;
use std::alloc::Global;
use std::marker::Model;

/// An item of a field; strings and bytes are those of the input.
#[cycle(message_ref)]
#[derive(Drop)]
pub enum ValueRef<'a> {
    /// An integer, a bool as 0 or 1, or the number of an enum value.
    Int(Integer),
    /// The bits of a float.
    F32(u32),
    /// The bits of a double.
    F64(u64),
    Text(&'a str),
    Bytes(&'a [u8]),
    Msg(Box<MessageRef<'a>>),
}

/// An entry of a map.
#[cycle(message_ref)]
#[derive(Drop)]
pub struct EntryRef<'a> {
    pub key: ValueRef<'a>,
    pub value: ValueRef<'a>,
}

/// What a field holds.
#[cycle(message_ref)]
#[derive(Drop)]
pub enum ContentRef<'a> {
    One(ValueRef<'a>),
    /// A list of strings, bytes or messages.
    Many(Vec<ValueRef<'a>>),
    /// Entries by rising key.
    Map(Vec<EntryRef<'a>>),
    /// A list of numbers, bools or numbers of enum values.
    Numbers(NumberList),
}

/// A message of a type: its fields' contents by rising number, and its unknown records in the order
/// read. Its strings, bytes and unknown records are those of the input.
#[cycle(message_ref)]
#[derive(Drop)]
pub struct MessageRef<'a> {
    pub(crate) type_id: TypeId,
    pub(crate) fields: Vec<(u32, ContentRef<'a>)>,
    pub(crate) unknown: Vec<Record<'a>>,
}

impl<'a> Model for MessageRef<'a> {
    ghost use Rattle.pg_dyn.specs.message.Kept.{Kept};
    ghost use Rattle.pg_dyn.specs.message.KeptCode.{kept_code};

    ghost Value = { Kept };

    ghost coded = { kept_code };

    ghost use Rattle.pg_dyn.specs.message_ref.Borrowed.{kept_seen, IsWellKept};

    ghost view = { kept_seen };

    ghost invariant = { IsWellKept };

    ghost use Rattle.pg_dyn.specs.message.Weights.{weight};

    ghost size = { weight };

    ghost use Rattle.pg_dyn.specs.inner.BorrowedDepth.{message_deep};

    ghost size_decreases = { message_deep };
}

impl<'a> MessageRef<'a> {
    ghost use Rattle.std.specs.List.{AllByRecursion};
    ghost use Rattle.pg_schema.specs.Shape.{Shape};
    ghost use Rattle.pg_schema.specs.ShapeRules.{IsShape};
    ghost use Rattle.pg_wire.specs.Reads.{seen_record};
    ghost use Rattle.pg_dyn.specs.fitting.Fits.{Fits};
    ghost use Rattle.pg_dyn.specs.fitting.PartsFit.{HoldsPart};
    ghost use Rattle.pg_dyn.specs.message.Kept.{ends, type_of};
    ghost use Rattle.pg_dyn.specs.message.KeptParts.{of_number, unknown_of};
    ghost use Rattle.pg_dyn.specs.message.Seen.{Rises};

    /// The type of the message.
    pub fn type_id(&self) -> TypeId
        ensures { result ≡ type_of self.now }
    {
        self.type_id
    }

    /// The content of the field with the number, which is never empty; `None` where it has none
    /// (proto3 language guide, "Field Presence").
    pub fn get(&self, number: u32) -> Option<&ContentRef<'a>>
        ensures content { MatchOption result (of_number number self.now ≡ [])
            (λ content. of_number number self.now ≡ borrowed.content_seen number content.now) }
        ensures filled { IfSome result (λ content. borrowed.IsFilled content.now) }
        ensures keys { IfSome result (λ content. borrowed.HasKeys content.now) }
        ensures fits { IfSome result
            (λ content. (shape : Shape) → IsShape shape → Fits shape self.now
            → AllByRecursion (HoldsPart shape (type_of self.now))
            (borrowed.content_seen number content.now)) }
    {
        let place = place_of(&self.fields, number);
        if place < self.fields.len() && self.fields[place].0 == number {
            return Some(&self.fields[place].1);
        }
        None
    }

    /// The contents of the fields, by rising number. None is empty.
    pub fn contents(&self) -> &[(u32, ContentRef<'a>)]
        ensures whole { self.now ≡ borrowed.fields_onto result.now
            (ends (type_of self.now) (unknown_of self.now)) }
        ensures rises { Rises result.now }
        ensures filled { AllByRecursion (λ f. borrowed.IsFilled f.1) result.now }
        ensures keys { AllByRecursion (λ f. borrowed.HasKeys f.1) result.now }
    {
        self.fields.as_slice()
    }

    /// The records that the type doesn't accept, in the order read (proto3 language guide, "Unknown
    /// Fields").
    pub fn unknown(&self) -> &[Record<'a>]
        ensures { map seen_record result.now ≡ unknown_of self.now }
    {
        self.unknown.as_slice()
    }
}

impl<'a> ValueRef<'a> {
    ghost use Rattle.pg_dyn.specs.message.KeptParts.{IsPlainItem};

    #[cycle(is_plain)]
    fn is_plain(&self) -> bool
        ensures { IsTrue result ↔ IsPlainItem (borrowed.item_seen false self.now) }
    {
        match self {
            ValueRef::Msg(child) => child.is_plain(),
            _ => true,
        }
    }
}

impl<'a> ContentRef<'a> {
    ghost use Rattle.std.specs.List.{AllByRecursion};
    ghost use Rattle.pg_dyn.specs.message.KeptParts.{IsPlainItem};

    // Whether each item of a list is plain.
    #[cycle(is_plain)]
    fn are_plain(values: &[ValueRef<'a>]) -> bool
        ensures { IsTrue result
            ↔ AllByRecursion (λ v. IsPlainItem (borrowed.item_seen false v)) values.now }
    {
        for value in values {
            if !value.is_plain() {
                return false;
            }
        }
        true
    }

    // Whether the value of each entry of a map is.
    #[cycle(is_plain)]
    fn have_plain_values(entries: &[EntryRef<'a>]) -> bool
        ensures { IsTrue result
            ↔ AllByRecursion (λ e. IsPlainItem (borrowed.item_seen false e.value)) entries.now }
    {
        for entry in entries {
            if !entry.value.is_plain() {
                return false;
            }
        }
        true
    }

    #[cycle(is_plain)]
    fn is_plain(&self) -> bool
        ensures { IsTrue result ↔ borrowed.ArePlain self.now }
    {
        match self {
            ContentRef::One(value) => value.is_plain(),
            ContentRef::Many(values) => ContentRef::are_plain(values),
            ContentRef::Map(entries) => ContentRef::have_plain_values(entries),
            ContentRef::Numbers(_) => true,
        }
    }
}

impl<'a> MessageRef<'a> {
    ghost use Rattle.pg_dyn.specs.message.KeptParts.{IsPlain};

    /// Whether there are no unknown records in the message and in every message inside it.
    #[cycle(is_plain)]
    pub fn is_plain(&self) -> bool
        ensures { IsTrue result ↔ IsPlain self.now }
    {
        for (_, content) in &self.fields {
            if !content.is_plain() {
                return false;
            }
        }
        self.unknown.is_empty()
    }
}
