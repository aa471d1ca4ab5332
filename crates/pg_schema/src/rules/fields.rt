//! What holds of each field of a message type, taken by itself.

ghost use Rattle.std.specs.Prelude.{◌≡◌};
ghost use Rattle.pg_schema.specs.rules.Fields.{has_presence, is_field_number, is_known, is_message, is_oneof, is_packed, is_key};

use crate::parts::field::{Element, Presence, Scalar};

/// The number may be a field's (proto3 language guide, "Assigning Field Numbers").
pub(crate) fn is_field_number(number: u32) -> bool
    ensures { result ≡ is_field_number number }
{
    1 <= number && number < 0x2000_0000 && (number < 19_000 || 20_000 <= number)
}

/// The items are messages.
fn is_message(element: Element) -> bool
    ensures { result ≡ is_message element }
{
    matches!(element, Element::Message(_))
}

/// The scalar may be a map's key (proto3 language specification, "Map field").
fn is_key(scalar: Scalar) -> bool
    ensures { result ≡ is_key scalar }
{
    !matches!(scalar, Scalar::Double | Scalar::Float | Scalar::Bytes)
}

/// The presence is that of a field of this element, which is a oneof's member or not, and states
/// `optional` or not (proto3 language guide, "Field Presence").
pub(crate) fn has_presence(presence: Presence, element: Element, member: bool, stated: bool) -> bool
    ensures { result ≡ has_presence presence element member stated }
{
    match presence {
        Presence::Implicit => !(is_message(element) || member || stated),
        Presence::Explicit => (is_message(element) || member || stated) && !(member && stated),
        Presence::Repeated { .. } => !(member || stated),
        Presence::Map { key } => !(member || stated) && is_key(key),
    }
}

/// The field is packed, or not, as the option `packed` and its element say (Encoding guide, "Packed
/// Repeated Fields").
pub(crate) fn is_packed(presence: Presence, element: Element, stated: Option<bool>) -> bool
    ensures { result ≡ is_packed presence element stated }
{
    match presence {
        Presence::Repeated { packed } => {
            let packable = element.is_packable();
            packed == stated.unwrap_or(packable) && (!packed || packable)
        }
        Presence::Implicit | Presence::Explicit | Presence::Map { .. } => !stated.unwrap_or(false),
    }
}

/// The element's message type or enum is one of so many.
pub(crate) fn is_known(types: usize, enums: usize, element: Element) -> bool
    ensures { result ≡ is_known types enums element }
{
    match element {
        Element::Scalar(_) => true,
        Element::Enum(id) => id.index < enums,
        Element::Message(id) => (id.index as usize) < types,
    }
}

/// The oneof is one of so many, or there is none.
pub(crate) fn is_oneof(oneofs: usize, oneof: Option<u32>) -> bool
    ensures { result ≡ is_oneof oneofs oneof }
{
    match oneof {
        None => true,
        Some(place) => (place as usize) < oneofs,
    }
}
