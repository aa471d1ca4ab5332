//! A field, spelled `LABEL TYPE NAME=NUMBER` or `TYPE NAME=NUMBER`.
use pg_schema::{Element, EnumId, Field, FieldOptions, Presence, Scalar, TypeId};
use std::alloc::{AllocError, Global};

// The words of a field. Without a label that word is empty.
#[derive(Clone, Copy)]
struct Words<'a> {
    label: &'a str,
    kind: &'a str,
    name: &'a str,
    number: u32,
}

fn words_of(text: &str) -> Words<'_> {
    let (front, number) = text.split_once('=').unwrap_or((text, ""));
    let number = number.parse().unwrap_or(0);
    let (first, behind) = front.split_once(' ').unwrap_or(("", front));
    let (label, kind, name) = match behind.split_once(' ') {
        Some((kind, name)) => (first, kind, name),
        None => ("", first, behind),
    };
    Words {
        label,
        kind,
        name,
        number,
    }
}

// The index of the type of that name, or one that no schema has.
fn place_of(types: &[&str], name: &str) -> u32 {
    let mut place = 0_u32;
    for other in types {
        if *other == name {
            return place;
        }
        place = place.saturating_add(1);
    }
    u32::MAX
}

fn element_of(types: &[&str], name: &str) -> Element {
    match Scalar::named(name) {
        Some(scalar) => Element::Scalar(scalar),
        None if name == "E" => Element::Enum(EnumId { index: 0 }),
        None => Element::Message(TypeId {
            index: place_of(types, name),
        }),
    }
}

fn presence_of(label: &str, element: Element) -> Presence {
    match label {
        "repeated" => Presence::Repeated {
            packed: element.is_packable(),
        },
        "unpacked" => Presence::Repeated { packed: false },
        "" if !matches!(element, Element::Message(_)) => Presence::Implicit,
        _ => Presence::Explicit,
    }
}

// What a field holds, and how often.
fn held(types: &[&str], words: &Words) -> (Presence, Element) {
    if let Some(entry) = words.kind.strip_prefix("map<") {
        let (key, value) = entry.split_once(',').unwrap_or((entry, ""));
        let key = Scalar::named(key).unwrap_or(Scalar::Bytes);
        let value = value.split_once('>').unwrap_or((value, "")).0;
        return (Presence::Map { key }, element_of(types, value));
    }
    let element = element_of(types, words.kind);
    (presence_of(words.label, element), element)
}

// The index of the oneof that a label names.
fn oneof_of(label: &str) -> Option<u32> {
    label.strip_prefix("k")?.parse().ok()
}

/// The field that the words spell, of a schema of these types.
pub(crate) fn field(alloc: Global, types: &[&str], text: &str) -> Result<Field, AllocError> {
    let words = words_of(text);
    let (presence, element) = held(types, &words);
    Ok(Field {
        number: words.number,
        name: String::from_str(alloc, words.name)?,
        presence,
        element,
        oneof: oneof_of(words.label),
        json_name: String::from_str(alloc, words.name)?,
        states_optional: words.label == "optional",
        options: FieldOptions {
            packed: (words.label == "unpacked").then_some(false),
            deprecated: None,
        },
    })
}
