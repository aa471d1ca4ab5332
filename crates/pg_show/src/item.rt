//! Items that are no messages.

ghost use Rattle.std.specs.Prelude.{◌≡◌, ◌++◌, OnOk, option_map, string_bytes};
ghost use Rattle.std.specs.Fmt.{signed_decimal};
ghost use Rattle.std.specs.Option.{option_copied};
ghost use Rattle.hex.specs.Hex.{encode_lower};
ghost use Rattle.pg_dyn.specs.reading.Content.{leaf_bytes};
ghost use Rattle.pg_dyn.specs.encoding.Encoding.{element_type};
ghost use Rattle.pg_dyn.specs.message_ref.Borrowed.{leaf_of};
ghost use Rattle.pg_show.specs.Lines as spec;

use crate::hex_word::push_hex;
use itoa::Buffer;
use pg_dyn::ValueRef;
use pg_schema::{Element, Scalar, TypeId};
use std::alloc::{AllocError, Global};

/// The message type of an element; the first type where the element is none of messages.
pub(crate) fn type_of(element: Element) -> TypeId
    ensures { result ≡ element_type element }
{
    match element {
        Element::Message(type_id) => type_id,
        Element::Scalar(_) | Element::Enum(_) => TypeId { index: 0 },
    }
}

/// What is before the bytes of a string, or before bytes.
fn kind(element: Element) -> &'static str
    ensures { result.now ≡ spec.kind element }
{
    match element {
        Element::Scalar(Scalar::String) => "text ",
        Element::Scalar(_) | Element::Enum(_) | Element::Message(_) => "bytes ",
    }
}

/// The bytes of a string, or bytes; of another item none.
fn bytes_of<'b>(value: &'b ValueRef<'_>) -> &'b [u8]
    ensures { result.now ≡ leaf_bytes (leaf_of value.now) }
{
    match value {
        ValueRef::Text(text) => text.as_bytes(),
        ValueRef::Bytes(bytes) => bytes,
        _ => &[],
    }
}

/// Adds a number in decimal.
fn push_int(text: &mut String, number: i128) -> Result<(), AllocError>
    ensures { OnOk result (string_bytes text.new ≡ string_bytes text.old ++ signed_decimal number) }
{
    let mut buffer = Buffer::new();
    text.push_str(buffer.format(number))
}

/// Adds bytes as digits alone.
fn push_digits(alloc: Global, text: &mut String, bytes: &[u8]) -> Result<(), AllocError>
    ensures { OnOk result (string_bytes text.new
        ≡ string_bytes text.old ++ encode_lower bytes.now) }
{
    text.push_str(hex::encode(alloc, bytes)?.as_str())
}

/// Adds an item of a field of the element. A message here counts as no bytes.
pub(crate) fn push_item(
    alloc: Global,
    text: &mut String,
    element: Element,
    value: &ValueRef<'_>,
) -> Result<(), AllocError>
    ensures { OnOk result (string_bytes text.new
        ≡ string_bytes text.old ++ spec.item element (leaf_of value.now)) }
{
    match value {
        ValueRef::Int(number) => {
            text.push_str("int ")?;
            push_int(text, number.get())
        }
        ValueRef::F32(single) => {
            text.push_str("f32 ")?;
            push_digits(alloc, text, &single.to_be_bytes())
        }
        ValueRef::F64(double) => {
            text.push_str("f64 ")?;
            push_digits(alloc, text, &double.to_be_bytes())
        }
        ValueRef::Text(_) | ValueRef::Bytes(_) | ValueRef::Msg(_) => {
            text.push_str(kind(element))?;
            push_hex(alloc, text, bytes_of(value))
        }
    }
}

/// Adds a map's key as its line has it, if there is one.
pub(crate) fn push_key(
    alloc: Global,
    text: &mut String,
    key: Option<&ValueRef<'_>>,
) -> Result<(), AllocError>
    ensures { OnOk result (string_bytes text.new
        ≡ string_bytes text.old ++ spec.key_words (option_map leaf_of (option_copied key.entry))) }
{
    let Some(key) = key else {
        return Ok(());
    };
    text.push_str("key ")?;
    push_item(alloc, text, Element::Scalar(Scalar::String), key)?;
    text.push_str(" value ")
}
