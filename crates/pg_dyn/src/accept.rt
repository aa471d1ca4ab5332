//! Which wire types a field accepts.

ghost use Rattle.std.specs.Prelude.{◌≡◌, ◌&&◌, ◌||◌, false, MatchOption};
ghost use Rattle.pg_schema.specs.declared.parts.field.Presence.TheVariants as presences;
ghost use Rattle.pg_schema.specs.Parts.{field_shape};
ghost use Rattle.pg_schema.specs.Shape.{is_map, is_packable, is_repeated};
ghost use Rattle.pg_dyn.specs.word.Coding.{form, form_wire};
ghost use Rattle.pg_dyn.specs.reading.Content.{own_wire, same_wire};
ghost use Rattle.pg_dyn.specs.encoding.Writing.{is_packed};
ghost use Rattle.pg_wire.specs.declared.record.WireType.TheVariants.{Len};

use crate::encoding::body::wire_type_of;
use pg_schema::{Element, Field, Presence, Scalar};
use pg_wire::WireType;

/// The wire type of an element's own records: VARINT, I64, LEN or I32 (Protocol Buffers encoding
/// guide, "Message Structure"). Of a packed list each body is of it, but the record is LEN.
pub fn element_wire_type(element: Element) -> WireType
    ensures { result ≡ form_wire (form element) }
{
    match element {
        Element::Scalar(scalar) => wire_type_of(scalar),
        Element::Enum(_) => WireType::Varint,
        Element::Message(_) => WireType::Len,
    }
}

/// Whether the wire type is that of an element's own records.
pub(crate) fn is_own(wire_type: WireType, element: Element) -> bool
    ensures { result ≡ same_wire wire_type (form_wire (form element)) }
{
    wire_type == element_wire_type(element)
}

/// Whether the field accepts a record of the wire type.
pub(crate) fn accepts(field: &Field, wire_type: WireType) -> bool
    ensures { result ≡ (same_wire wire_type (own_wire (field_shape field.now)) ||
        (same_wire wire_type Len && is_repeated field.now.presence && is_packable
        field.now.element)) }
{
    match field.presence {
        Presence::Map { .. } => wire_type == WireType::Len,
        Presence::Repeated { .. } => {
            wire_type == element_wire_type(field.element)
                || (wire_type == WireType::Len && field.element.is_packable())
        }
        Presence::Implicit | Presence::Explicit => wire_type == element_wire_type(field.element),
    }
}

/// The type of a map's keys; `None` of a field that is no map.
pub(crate) fn map_key(presence: Presence) -> Option<Scalar>
    ensures { MatchOption result (is_map presence ≡ false) (λ key. presence ≡ presences.Map key) }
{
    match presence {
        Presence::Map { key } => Some(key),
        Presence::Implicit | Presence::Explicit | Presence::Repeated { .. } => None,
    }
}

/// Whether the items of a field are in one record.
pub(crate) fn is_packed(presence: Presence) -> bool
    ensures { result ≡ is_packed presence }
{
    match presence {
        Presence::Repeated { packed } => packed,
        Presence::Implicit | Presence::Explicit | Presence::Map { .. } => false,
    }
}
