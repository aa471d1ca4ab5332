//! Contents in the form in which a field holds them.

ghost use Rattle.std.specs.Prelude.{◌≡◌, ◌||◌, ℕ, Bool, map, true, false};
ghost use Rattle.std.specs.List.{AllByRecursion};
ghost use Rattle.pg_schema.specs.declared.parts.field.Element.TheVariants as elements;
ghost use Rattle.pg_schema.specs.Parts.{field_shape, shape_of};
ghost use Rattle.pg_dyn.specs.setting.ContentFaults.{HasKeyTwice};
ghost use Rattle.pg_dyn.specs.fitting.ContentFits.{ContentFits, ItemFits, EntryFits, ItemsFit};
ghost use Rattle.pg_dyn.specs.message.KeyOrder.{KeysAlike};
ghost use Rattle.pg_dyn.specs.message.Seen.{content_seen, HasKeys, IsFilled, item_seen};
ghost use Rattle.pg_dyn.specs.setting.Setting.{normalized};
ghost use Rattle.pg_dyn.specs.inner.Reported.{entry_kept, entry_seen, is_nothing, MayHoldKeys};
ghost use Rattle.pg_dyn.specs.fitting.ScalarItems.{IsKeptAs};
ghost use Rattle.pg_dyn.specs.fitting.Texts.{holds_bytes, kept_item};

use crate::message::{Content, Value};
use crate::setting::keys::sorted;
use pg_schema::{Element, Field, Presence, Scalar, Schema};
use std::mem;

impl Value {
    // The item as a field of the element keeps it: `Text` in a string field, `Bytes` in a bytes
    // field.
    fn kept_for(self, schema: &Schema, element: Element) -> Value
        requires { ItemFits (shape_of schema.now) element self }
        ensures fits { ItemFits (shape_of schema.now) element result }
        ensures seen { (listed : Bool) → item_seen listed result
            ≡ kept_item element (item_seen listed self) }
    {
        match element {
            Element::Scalar(scalar) => self.kept_as(scalar),
            Element::Enum(_) | Element::Message(_) => self,
        }
    }
}

// Whether items of the element come as `Text` and as `Bytes`.
fn is_text(element: Element) -> bool
    ensures { result ≡ holds_bytes element }
{
    matches!(
        element,
        Element::Scalar(Scalar::String) | Element::Scalar(Scalar::Bytes)
    )
}

// Whether keys of the scalar or values of the element do.
fn has_texts(key: Scalar, element: Element) -> bool
    ensures { result ≡ (holds_bytes (elements.Scalar key) || holds_bytes element) }
{
    is_text(Element::Scalar(key)) || is_text(element)
}

// The items of a list as a field of the element keeps them.
fn kept_values(schema: &Schema, element: Element, values: Vec<Value>) -> Vec<Value>
    requires { AllByRecursion (ItemFits (shape_of schema.now) element) values.items }
    ensures fit { AllByRecursion (ItemFits (shape_of schema.now) element) result.items }
    ensures seen { map (item_seen true) result.items
        ≡ map (λ value. kept_item element (item_seen true value)) values.items }
{
    if !is_text(element) {
        return values;
    }
    let mut kept = values;
    for value in kept.iter_mut() {
        let taken = mem::replace(value, Value::F32(0));
        *value = taken.kept_for(schema, element);
    }
    kept
}

// An entry of a map as a field with such keys and values keeps it.
fn kept_entry(
    schema: &Schema,
    key: Scalar,
    element: Element,
    entry: (Value, Value),
) -> (Value, Value)
    requires { EntryFits (shape_of schema.now) key element entry }
    ensures fits { EntryFits (shape_of schema.now) key element result }
    ensures seen { entry_seen result ≡ entry_kept element entry }
    ensures key { IsKeptAs key result.0 }
{
    let (entry_key, value) = entry;
    (entry_key.kept_as(key), value.kept_for(schema, element))
}

// The entries of a map as a field with such keys and values keeps them.
fn kept_entries(
    schema: &Schema,
    key: Scalar,
    element: Element,
    entries: Vec<(Value, Value)>,
) -> Vec<(Value, Value)>
    requires { AllByRecursion (EntryFits (shape_of schema.now) key element) entries.items }
    ensures fit { AllByRecursion (EntryFits (shape_of schema.now) key element) result.items }
    ensures seen { map entry_seen result.items ≡ map (entry_kept element) entries.items }
    ensures keys { AllByRecursion (λ e. IsKeptAs key e.0) result.items }
{
    if !has_texts(key, element) {
        return entries;
    }
    let mut kept = entries;
    for entry in kept.iter_mut() {
        let taken = mem::replace(entry, (Value::F32(0), Value::F32(0)));
        *entry = kept_entry(schema, key, element, taken);
    }
    kept
}

impl Content {
    /// Whether a field holds nothing of the content: of a zero where it has no presence, of an
    /// empty list or map.
    pub(crate) fn is_nothing(&self, field: &Field) -> bool
        ensures { result ≡ is_nothing field.now.presence self.now }
    {
        match (field.presence, self) {
            (Presence::Implicit, Content::One(value)) => value.is_zero(),
            (_, Content::One(_)) => false,
            (_, Content::Many(values)) => values.is_empty(),
            (_, Content::Map(entries)) => entries.is_empty(),
        }
    }

    /// The content as the field holds it: strings and bytes as the field's kind, a map's entries by
    /// rising key. Takes no memory.
    pub(crate) fn normalized(self, schema: &Schema, field: &Field) -> Content
        requires items { ItemsFit (shape_of schema.now) field.now.presence field.now.element self }
        requires alike { KeysAlike self }
        requires keyed { MayHoldKeys field.now.presence }
        requires once { HasKeyTwice self → ⊥ }
        requires something { is_nothing field.now.presence self ≡ false }
        ensures seen { (number : ℕ) → content_seen number result
            ≡ normalized (field_shape field.now) (content_seen number self) }
        ensures fits { ContentFits (shape_of schema.now) field.now.presence field.now.element
            result }
        ensures filled { IsFilled result }
        ensures keys { HasKeys result }
    {
        match (field.presence, self) {
            (_, Content::One(value)) => Content::One(value.kept_for(schema, field.element)),
            (_, Content::Many(values)) => {
                Content::Many(kept_values(schema, field.element, values))
            }
            (Presence::Map { key }, Content::Map(entries)) => {
                Content::Map(kept_entries(schema, key, field.element, sorted(entries)))
            }
            // Only a map field has entries.
            (_, Content::Map(entries)) => Content::Map(entries),
        }
    }
}
