//! What a field declares, as a schema has it.

ghost use Rattle.std.specs.Prelude.{◌≡◌, ℕ, IfOk, None, Option, map, option_map};
ghost use Rattle.pg_link.specs.declared.uses.target.Target.{Target};
ghost use Rattle.pg_check.specs.inner.Sources.{target_in};
ghost use Rattle.pg_check.specs.parts.MadeFields as spec;
ghost use Rattle.pg_check.specs.parts.MadeNumbers.{index_of};
ghost use Rattle.pg_check.specs.inner.CodeViews.{member};

use crate::parts::made_number::{field_number, index_of};
use crate::parts::made_option::bracket_flag;
use crate::rules::member::{DeclaredField, json_name};
use crate::rules::numbers::rank;
use crate::rules::types::{Targets, scalar_named};
use pg_link::Target;
use pg_schema::{Element, EnumId, Field, FieldOptions, Presence, Scalar, TypeId};
use pg_syntax::tree::{Label, TypeName};
use std::alloc::{AllocError, Global};

/// The element of what a type name names.
fn named_element(target: Option<Target>) -> Element
    ensures { result ≡ spec.element_of None target }
{
    match target {
        Some(Target::Message(place)) => Element::Message(TypeId {
            index: index_of(place),
        }),
        Some(Target::Enum(place)) => Element::Enum(EnumId { index: place }),
        None => Element::Scalar(Scalar::Int32),
    }
}

/// A scalar, or the message type or enum that is named.
fn element(targets: &Targets<'_>, name: &TypeName) -> Element
    ensures { result ≡ spec.element (target_in targets.now) name.now }
{
    match scalar_named(name) {
        Some(scalar) => Element::Scalar(scalar),
        None => named_element(targets.at(name.span.from)),
    }
}

/// What the items are; of a map, what its values are.
fn element_in(targets: &Targets<'_>, one: &DeclaredField<'_>) -> Element
    ensures { result ≡ spec.element_in (target_in targets.now) (member one.now) }
{
    match one {
        DeclaredField::Field(field, _) => element(targets, &field.type_name),
        DeclaredField::Map(map, _) => element(targets, &map.value),
    }
}

/// The options of a field.
fn options(one: &DeclaredField<'_>) -> FieldOptions
    ensures { result ≡ spec.options (member one.now) }
{
    FieldOptions {
        packed: bracket_flag("packed", one.settings()),
        deprecated: bracket_flag("deprecated", one.settings()),
    }
}

/// How often a field's items may be there.
fn labelled(
    label: Option<Label>,
    is_member: bool,
    element: Element,
    stated: Option<bool>,
) -> Presence
    ensures { result ≡ spec.labelled label is_member element stated }
{
    match label {
        Some(Label::Repeated) => Presence::Repeated {
            packed: stated.unwrap_or(element.is_packable()),
        },
        Some(Label::Optional) => Presence::Explicit,
        None => {
            if is_member || matches!(element, Element::Message(_)) {
                Presence::Explicit
            } else {
                Presence::Implicit
            }
        }
    }
}

/// How often the member's items may be there, which are of this element.
fn presence(one: &DeclaredField<'_>, element: Element) -> Presence
    ensures { (targets : ℕ → Option Target) → element ≡ spec.element_in targets (member one.now)
        → result ≡ spec.presence targets (member one.now) }
{
    match one {
        DeclaredField::Field(field, oneof) => labelled(
            field.label,
            oneof.is_some(),
            element,
            bracket_flag("packed", &field.settings),
        ),
        DeclaredField::Map(map, _) => Presence::Map {
            key: scalar_named(&*map.key).unwrap_or(Scalar::Int32),
        },
    }
}

/// The word `optional` is stated.
fn states_optional(one: &DeclaredField<'_>) -> bool
    ensures { result ≡ spec.states_optional (member one.now) }
{
    match one {
        DeclaredField::Field(field, _) => matches!(field.label, Some(Label::Optional)),
        DeclaredField::Map(_, _) => false,
    }
}

/// The index of the oneof among those of the message.
fn oneof_of(one: &DeclaredField<'_>) -> Option<u32>
    ensures { result ≡ option_map index_of (spec.oneof_of (member one.now)) }
{
    let oneof = match one {
        DeclaredField::Field(_, oneof) => *oneof,
        DeclaredField::Map(_, oneof) => *oneof,
    };
    match oneof {
        Some(place) => Some(index_of(place)),
        None => None,
    }
}

/// The number of the member.
fn made_number(one: &DeclaredField<'_>) -> u32
    ensures { result ≡ spec.made_number (member one.now) }
{
    field_number(rank(false, one.number()))
}

/// The field.
fn made_field(
    alloc: Global,
    targets: &Targets<'_>,
    one: &DeclaredField<'_>,
) -> Result<Field, AllocError>
    ensures { IfOk result (λ made. spec.field made
        ≡ spec.made_field (target_in targets.now) (member one.now)) }
{
    let name = String::from_str(alloc, &one.name().text)?;
    let json_name = json_name(alloc, *one)?;
    let element = element_in(targets, one);
    Ok(Field {
        number: made_number(one),
        name,
        presence: presence(one, element),
        element,
        oneof: oneof_of(one),
        json_name,
        states_optional: states_optional(one),
        options: options(one),
    })
}

/// The fields, in order of declaration.
pub(crate) fn made_fields(
    alloc: Global,
    targets: &Targets<'_>,
    list: &[DeclaredField<'_>],
) -> Result<Vec<Field>, AllocError>
    ensures { IfOk result (λ fields. map spec.field fields.items
        ≡ map (spec.made_field (target_in targets.now)) (map member list.now)) }
{
    let mut fields = Vec::with_capacity(alloc, list.len())?;
    for one in list {
        fields.push(made_field(alloc, targets, one)?)?;
    }
    Ok(fields)
}

/// The numbers, in order of declaration.
pub(crate) fn made_numbers(
    alloc: Global,
    list: &[DeclaredField<'_>],
) -> Result<Vec<u32>, AllocError>
    ensures { IfOk result (λ numbers. numbers.items ≡ map spec.made_number (map member list.now)) }
{
    let mut numbers = Vec::with_capacity(alloc, list.len())?;
    for one in list {
        numbers.push(made_number(one))?;
    }
    Ok(numbers)
}
