//! How many bytes the least contents of a field take.
//!
//! Costs are counted in 64 bits: what is added to a body of at most 2^40 bytes can't wrap.

ghost use Rattle.std.specs.Prelude.{◌≡◌, ◌<◌, ◌≤◌, ◌+◌, ◌^◌, length, map};
ghost use Rattle.pg_schema.specs.Parts.{field_shape};
ghost use Rattle.pg_wire.specs.declared.record.WireType.{WireType};
ghost use Rattle.pg_wire.specs.Varint.{varint};
ghost use Rattle.pg_wire.specs.Records.{tag};
ghost use Rattle.pg_wire.specs.declared.record.WireType.TheVariants.{Len};
ghost use Rattle.pg_dyn.specs.word.Coding.{form, form_wire};
ghost use Rattle.pg_pairs.specs.choices.Costs.{entry_cost, least_body, least_content, nonzero_body, one_item, with_length};

use pg_dyn::element_wire_type;
use pg_schema::{Element, Field, Presence, Scalar};
use pg_wire::{WireType, tag_len, varint_len};

/// The bytes of a number's varint.
pub(crate) fn varint_bytes(value: u64) -> u64
    ensures bytes { result ≡ length (varint value) }
    ensures few { result ≤ 10 }
{
    varint_len(value) as u64
}

/// The bytes of a field's tag.
fn tag_bytes(number: u32) -> u64
    requires { number < 2 ^ 29 }
    ensures bytes { (wire : WireType) → result ≡ length (tag number wire) }
    ensures few { result ≤ 10 }
{
    tag_len(number) as u64
}

/// A body with its length before it.
pub(crate) fn with_length(body: u64) -> u64
    requires { body < 2 ^ 40 }
    ensures bytes { result ≡ with_length body }
    ensures few { result ≤ 10 + body }
{
    varint_bytes(body) + body
}

/// The least body of an element's item, with its length where it has one.
pub(crate) fn least_body(element: Element) -> u64
    ensures bytes { result ≡ least_body element }
    ensures few { result ≤ 8 }
{
    match element_wire_type(element) {
        WireType::Varint | WireType::Len => 1,
        WireType::I32 => 4,
        WireType::I64 => 8,
    }
}

/// The least body of an element's item that isn't zero, with its length where it has one. An empty
/// message isn't zero.
pub(crate) fn nonzero_body(element: Element) -> u64
    ensures bytes { result ≡ nonzero_body element }
    ensures few { result ≤ 8 }
{
    match element {
        Element::Scalar(Scalar::String | Scalar::Bytes) => 2,
        _ => least_body(element),
    }
}

/// An entry of a map, whose key and value have those bodies.
pub(crate) fn entry_cost(number: u32, key: u64, value: u64) -> u64
    requires number { number < 2 ^ 29 }
    requires key { key < 2 ^ 33 }
    requires value { value < 2 ^ 33 }
    ensures bytes { result ≡ entry_cost number key value }
    ensures few { result < 2 ^ 40 }
{
    tag_bytes(number) + with_length(2 + key + value)
}

/// A content of one item with that body; in a map under the least key.
pub(crate) fn one_item(field: &Field, body: u64) -> u64
    requires number { field.now.number < 2 ^ 29 }
    requires body { body < 2 ^ 33 }
    ensures bytes { result ≡ one_item (field_shape field.now) body }
    ensures few { result < 2 ^ 40 }
{
    match field.presence {
        Presence::Map { key } => entry_cost(field.number, least_body(Element::Scalar(key)), body),
        Presence::Repeated { packed: true } => tag_bytes(field.number) + with_length(body),
        _ => tag_bytes(field.number) + body,
    }
}

/// The least content: a least item, which isn't zero in an implicit field.
pub(crate) fn least_content(field: &Field) -> u64
    requires { field.now.number < 2 ^ 29 }
    ensures bytes { result ≡ least_content (field_shape field.now) }
    ensures few { result < 2 ^ 40 }
{
    let body = match field.presence {
        Presence::Implicit => nonzero_body(field.element),
        _ => least_body(field.element),
    };
    one_item(field, body)
}
