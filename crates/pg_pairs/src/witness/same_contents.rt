//! What two fields of one number show of their contents.

ghost use Rattle.std.specs.Prelude.{◌≡◌, ◌<◌, length, slice_get, option_map, Some, true, IfSome};
ghost use Rattle.std.specs.Option.{option_copied};
ghost use Rattle.pg_schema.specs.Parts.{field_shape};
ghost use Rattle.pg_schema.specs.Shape.{is_implicit};
ghost use Rattle.std.specs.Str.{bytes_eq};
ghost use Rattle.pg_dyn.specs.views.Comparison.{hides_zero, same_key};
ghost use Rattle.pg_dyn.specs.reading.Content.{leaf_bytes};
ghost use Rattle.pg_dyn.specs.message_ref.Borrowed.{IsKey, leaf_of};
ghost use Rattle.pg_dyn.specs.message_ref.BorrowedItems.{is_zero_value};
ghost use Rattle.pg_dyn.specs.message.Message.{leaf_eq};
ghost use Rattle.pg_pairs.specs.inner.Comparing.{IsSingle, keyed, keyed_if, keyed_shown};
ghost use Rattle.pg_pairs.specs.inner.HeldItems.{item_value};

use crate::choices::beside::Beside;
use pg_dyn::{ContentRef, ValueRef};
use pg_schema::{Field, Presence};

/// Whether an item of zero isn't there for the field.
fn is_implicit(field: &Field) -> bool
    ensures { result ≡ is_implicit field.now.presence }
{
    matches!(field.presence, Presence::Implicit)
}

/// Whether zeros aren't shown between the two fields.
fn hides_zero(fields: &Beside<'_>) -> bool
    ensures { result ≡ hides_zero (field_shape fields.now.old.now)
        (field_shape fields.now.new.now) }
{
    fields.old.presence.is_singular()
        && fields.new.presence.is_singular()
        && (is_implicit(fields.old) || is_implicit(fields.new))
}

/// Whether the item is a zero, as no message is.
fn is_zero(value: &ValueRef<'_>) -> bool
    ensures { result ≡ is_zero_value value.now }
{
    match value {
        ValueRef::Int(number) => number.get() == 0,
        ValueRef::F32(bits) => *bits == 0,
        ValueRef::F64(bits) => *bits == 0,
        ValueRef::Text(text) => text.is_empty(),
        ValueRef::Bytes(bytes) => bytes.is_empty(),
        ValueRef::Msg(_) => false,
    }
}

/// The bytes of a string or of bytes; of another item none.
fn bytes_of<'b>(value: &'b ValueRef<'_>) -> &'b [u8]
    ensures { result.now ≡ leaf_bytes (leaf_of value.now) }
{
    match value {
        ValueRef::Text(text) => text.as_bytes(),
        ValueRef::Bytes(bytes) => bytes,
        _ => &[],
    }
}

/// Whether two strings or two items of bytes are equal.
fn has_same_bytes(first: &ValueRef<'_>, second: &ValueRef<'_>) -> bool
    ensures { result ≡ bytes_eq (leaf_bytes (leaf_of first.now))
        (leaf_bytes (leaf_of second.now)) }
{
    bytes_of(first) == bytes_of(second)
}

/// Whether the two items, which are no messages, are equal. Strings are their bytes.
pub(crate) fn is_same_leaf(first: &ValueRef<'_>, second: &ValueRef<'_>) -> bool
    requires first { IsKey first.now }
    requires second { IsKey second.now }
    ensures { result ≡ leaf_eq (leaf_of first.now) (leaf_of second.now) }
{
    match (first, second) {
        (ValueRef::Int(first), ValueRef::Int(second)) => first.get() == second.get(),
        (ValueRef::F32(first), ValueRef::F32(second)) => first == second,
        (ValueRef::F64(first), ValueRef::F64(second)) => first == second,
        (ValueRef::Text(_), ValueRef::Text(_)) => has_same_bytes(first, second),
        (ValueRef::Text(_), ValueRef::Bytes(_)) => has_same_bytes(first, second),
        (ValueRef::Bytes(_), ValueRef::Text(_)) => has_same_bytes(first, second),
        (ValueRef::Bytes(_), ValueRef::Bytes(_)) => has_same_bytes(first, second),
        _ => false,
    }
}

/// An item of a content: one that the content lends, or one that is made of its number.
#[derive(Drop)]
pub(crate) enum HeldItem<'b, 'a> {
    Lent(&'b ValueRef<'a>),
    Made(ValueRef<'a>),
}

impl<'b, 'a> HeldItem<'b, 'a> {
    /// The item.
    pub(crate) fn value(&self) -> &ValueRef<'a>
        ensures { result.now ≡ item_value self.now }
    {
        match self {
            HeldItem::Lent(value) => value,
            HeldItem::Made(value) => value,
        }
    }
}

/// An item of a content, in a map with its key.
#[derive(Drop)]
pub(crate) struct Held<'b, 'a> {
    pub key: Option<&'b ValueRef<'a>>,
    pub item: HeldItem<'b, 'a>,
}

/// How many items the content has.
pub(crate) fn count(content: &ContentRef<'_>) -> usize
    ensures { result ≡ length (keyed content.now) }
{
    match content {
        ContentRef::One(_) => 1,
        ContentRef::Many(values) => values.len(),
        ContentRef::Numbers(numbers) => numbers.len(),
        ContentRef::Map(entries) => entries.len(),
    }
}

/// The item at that index, which the content has.
pub(crate) fn held_at<'b, 'a>(content: &'b ContentRef<'a>, at: usize) -> Held<'b, 'a>
    requires { at < length (keyed content.now) }
    ensures { slice_get (keyed content.now) at
        ≡ Some (option_copied result.key, item_value result.item) }
{
    match content {
        ContentRef::One(value) => Held {
            key: None,
            item: HeldItem::Lent(value),
        },
        ContentRef::Many(values) => Held {
            key: None,
            item: HeldItem::Lent(&values[at]),
        },
        ContentRef::Numbers(numbers) => Held {
            key: None,
            item: HeldItem::Made(numbers.get(at)),
        },
        ContentRef::Map(entries) => Held {
            key: Some(&entries[at].key),
            item: HeldItem::Lent(&entries[at].value),
        },
    }
}

/// Whether both are equal keys, or neither is there.
pub(crate) fn is_same_key(first: Option<&ValueRef<'_>>, second: Option<&ValueRef<'_>>) -> bool
    requires first { IfSome first (λ key. IsKey key.now) }
    requires second { IfSome second (λ key. IsKey key.now) }
    ensures { result ≡ same_key (option_map leaf_of (option_copied first.entry))
        (option_map leaf_of (option_copied second.entry)) }
{
    match (first, second) {
        (Some(first), Some(second)) => is_same_leaf(first, second),
        (None, None) => true,
        _ => false,
    }
}

/// What is shown of a content of one of the two fields.
pub(crate) fn shown<'b, 'a>(
    fields: &Beside<'_>,
    content: Option<&'b ContentRef<'a>>,
) -> Option<&'b ContentRef<'a>>
    requires { hides_zero (field_shape fields.now.old.now) (field_shape fields.now.new.now) ≡ true
        → IsSingle (option_copied content) }
    ensures same { IfSome result (λ shown. option_copied content.entry ≡ Some shown.now) }
    ensures items { keyed_if (option_copied result)
        ≡ keyed_shown (hides_zero (field_shape fields.now.old.now) (field_shape fields.now.new.now))
        (option_copied content.entry) }
{
    if !hides_zero(fields) {
        return content;
    }
    let Some(ContentRef::One(value)) = content else {
        return None;
    };
    if is_zero(value) {
        return None;
    }
    content
}
