//! Whether a message is one of the type that it says.

ghost use Rattle.std.specs.Prelude.{◌≡◌, ◌↔◌, true, false, None, IsTrue};
ghost use Rattle.std.specs.List.{AllByRecursion};
ghost use Rattle.std.specs.declared.cmp.Ordering.TheVariants.{Less};
ghost use Rattle.pg_schema.specs.declared.parts.field.Element.TheVariants as elements;
ghost use Rattle.pg_schema.specs.Invariant.{IsSchema};
ghost use Rattle.pg_schema.specs.Parts.{shape_of};
ghost use Rattle.pg_schema.specs.Shape.{fields};
ghost use Rattle.pg_dyn.specs.reading.Content.{is_unknown};
ghost use Rattle.pg_dyn.specs.fitting.ContentFits.{ContentFits, EntryKept, ItemKept, KeysRise};
ghost use Rattle.pg_dyn.specs.fitting.Fits.{Fits, is_string};
ghost use Rattle.pg_dyn.specs.message.Message.{key_cmp};
ghost use Rattle.pg_dyn.specs.fitting.ScalarItems.{IsItemOf};
ghost use Rattle.pg_dyn.specs.message.Seen.{IsKey, is_text, leaf_of, record_seen};

use crate::accept::accepts;
use crate::message::{Content, Message, UnknownRecord, Value};
use crate::oneofs::none_siblings;
use crate::setting::check::check_item;
use pg_schema::{Element, Field, Presence, Scalar, Schema, TypeId};
use std::cmp::Ordering;

impl Value {
    // The order of two keys of one type: numbers by value, strings by bytes.
    pub(crate) fn order(&self, other: &Value) -> Ordering
        requires first { IsKey self.now }
        requires second { IsKey other.now }
        ensures { result ≡ key_cmp (leaf_of self.now) (leaf_of other.now) }
    {
        match (self, other) {
            (Value::Int(first), Value::Int(second)) => first.cmp(second),
            (Value::Text(first), Value::Text(second)) => first.as_bytes().cmp(second.as_bytes()),
            (Value::Text(first), Value::Bytes(second)) => first.as_bytes().cmp(second.as_slice()),
            (Value::Bytes(first), Value::Text(second)) => first.as_slice().cmp(second.as_bytes()),
            (Value::Bytes(first), Value::Bytes(second)) => {
                first.as_slice().cmp(second.as_slice())
            }
            _ => Ordering::Equal,
        }
    }
}

// Whether the item is one of the scalar.
fn is_item(scalar: Scalar, value: &Value) -> bool
    ensures { IsTrue result ↔ IsItemOf scalar value.now }
{
    check_item(scalar, value).is_ok()
}

// Whether items of the element are strings.
fn is_string(element: Element) -> bool
    ensures { result ≡ is_string element }
{
    matches!(element, Element::Scalar(Scalar::String))
}

impl Value {
    // Whether the item is a string.
    fn is_text(&self) -> bool
        ensures { result ≡ is_text self.now }
    {
        matches!(self, Value::Text(_))
    }

    // Whether the item is `Text` just where the scalar is string.
    fn is_text_for(&self, scalar: Scalar) -> bool
        ensures { IsTrue result ↔ (is_text self.now ≡ is_string (elements.Scalar scalar)) }
    {
        let string = is_string(Element::Scalar(scalar));
        if self.is_text() { string } else { !string }
    }

    // Whether the key is below the other one of its type.
    pub(crate) fn is_below(&self, other: &Value) -> bool
        requires first { IsKey self.now }
        requires second { IsKey other.now }
        ensures { IsTrue result ↔ (key_cmp (leaf_of self.now) (leaf_of other.now) ≡ Less) }
    {
        matches!(self.order(other), Ordering::Less)
    }
}

// Whether each key is below all later ones.
pub(crate) fn keys_rise(entries: &[(Value, Value)]) -> bool
    requires { AllByRecursion (λ e. IsKey e.0) entries.now }
    ensures { IsTrue result ↔ KeysRise entries.now }
{
    for next in 1..entries.len() {
        if !entries[next - 1].0.is_below(&entries[next].0) {
            return false;
        }
    }
    true
}

// Whether no field of the type accepts the record.
fn is_unknown(schema: &Schema, type_id: TypeId, found: &UnknownRecord) -> bool
    requires { IsSchema schema.now }
    ensures { result ≡ is_unknown (fields (shape_of schema.now) type_id) (record_seen found.now) }
{
    match schema.field(type_id, found.number) {
        Some(field) => !accepts(field, found.wire_type),
        None => true,
    }
}

// Whether no field of the type accepts one of the records.
fn unknown_fit(schema: &Schema, type_id: TypeId, unknown: &[UnknownRecord]) -> bool
    requires { IsSchema schema.now }
    ensures { IsTrue result ↔ AllByRecursion
        (λ u. is_unknown (fields (shape_of schema.now) type_id) (record_seen u) ≡ true)
        unknown.now }
{
    for found in unknown {
        if !is_unknown(schema, type_id, found) {
            return false;
        }
    }
    true
}

impl Value {
    // Whether the item is one of the element, and `Text` just where that is string.
    #[cycle(fits)]
    pub(crate) fn fits(&self, schema: &Schema, element: Element) -> bool
        requires { IsSchema schema.now }
        ensures { IsTrue result ↔ ItemKept (shape_of schema.now) element self.now }
    {
        match (element, self) {
            (Element::Message(type_id), Value::Msg(child)) => {
                child.type_id() == type_id && child.is_one_of(schema)
            }
            (Element::Message(_), _) => false,
            (Element::Scalar(scalar), _) => is_item(scalar, self) && self.is_text_for(scalar),
            (Element::Enum(_), _) => is_item(Scalar::Int32, self),
        }
    }
}

impl Content {
    // Whether each item of a list is one of the element.
    #[cycle(fits)]
    fn are_items(schema: &Schema, element: Element, values: &[Value]) -> bool
        requires { IsSchema schema.now }
        ensures { IsTrue result
            ↔ AllByRecursion (ItemKept (shape_of schema.now) element) values.now }
    {
        for value in values {
            if !value.fits(schema, element) {
                return false;
            }
        }
        true
    }

    // Whether each entry of a map has a key of the scalar and a value of the element.
    #[cycle(fits)]
    fn are_entries(
        schema: &Schema,
        key: Scalar,
        element: Element,
        entries: &[(Value, Value)],
    ) -> bool
        requires { IsSchema schema.now }
        ensures { IsTrue result
            ↔ AllByRecursion (EntryKept (shape_of schema.now) key element) entries.now }
    {
        for (entry_key, value) in entries {
            if !is_item(key, entry_key) {
                return false;
            }
            if !value.fits(schema, element) {
                return false;
            }
        }
        true
    }

    // Whether the content is one of the field: of its shape, with items of its element, and no zero
    // in an implicit field.
    #[cycle(fits)]
    fn fits(&self, schema: &Schema, field: &Field) -> bool
        requires { IsSchema schema.now }
        ensures { IsTrue result ↔ ContentFits
            (shape_of schema.now) field.now.presence field.now.element self.now }
    {
        match (field.presence, self) {
            (Presence::Implicit, Content::One(value)) => {
                value.fits(schema, field.element) && !value.is_zero()
            }
            (Presence::Explicit, Content::One(value)) => value.fits(schema, field.element),
            (Presence::Repeated { .. }, Content::Many(values)) => {
                Content::are_items(schema, field.element, values)
            }
            (Presence::Map { key }, Content::Map(entries)) => {
                Content::are_entries(schema, key, field.element, entries) && keys_rise(entries)
            }
            _ => false,
        }
    }
}

impl Message {
    // Whether the message is one of its type, and that one of the schema.
    #[cycle(fits)]
    pub(crate) fn is_one_of(&self, schema: &Schema) -> bool
        requires { IsSchema schema.now }
        ensures { IsTrue result ↔ Fits (shape_of schema.now) self.now }
    {
        if !schema.has(self.type_id) {
            return false;
        }
        for (number, content) in &self.fields {
            let Some(field) = schema.field(self.type_id, *number) else {
                return false;
            };
            if !content.fits(schema, field) {
                return false;
            }
        }
        if !none_siblings(schema, self.type_id, &self.fields) {
            return false;
        }
        unknown_fit(schema, self.type_id, &self.unknown)
    }
}

/// Whether the message is one of this schema: of a type that the schema has, each content one of a
/// field of that type, of that field's shape and not empty, each item in its range, just those of
/// string fields `Text`, at most one member of each oneof, no zero in a field without presence,
/// each message inside one of its field's type, and no unknown record that a field accepts (proto3
/// language guide, "Field Presence", "Oneof", "Unknown Fields"). It takes no memory.
pub fn fits(schema: &Schema, message: &Message) -> bool
    ensures { IsTrue result ↔ Fits (shape_of schema.now) message.now }
{
    // What holds of every schema.
    schema.parts();
    message.is_one_of(schema)
}
