//! Fields of a schema, made of a set's messages.

ghost use Rattle.std.specs.Prelude.{◌≡◌, ◌⊎◌, None, Some, ◌||◌, IfErr, IfOk, is_some};
ghost use Rattle.std.specs.String.{string_bytes};
ghost use Rattle.pg_schema.specs.rules.DeclaredNames.{entry_name};
ghost use Rattle.pg_schema.specs.rules.Fields.{is_message};
ghost use Rattle.pg_dyn.specs.message.Kept.{message_of};
ghost use Rattle.pg_set.specs.declared.error.Unstated.TheVariants.{Memory};
ghost use Rattle.pg_set.specs.inner.reading.Owners.{means_of, owner_of};
ghost use Rattle.pg_set.specs.declared.descriptor.proto.TheConstants as proto;
ghost use Rattle.pg_set.specs.stated.SetMessages.{text_at};
ghost use Rattle.pg_set.specs.stated.StatedFields.{field, is_map_field, items, map_items, names_its_entry, plain_items, presence, repeated, singular};
ghost use Rattle.pg_set.specs.stated.StatedNames.{is_entry_type};
ghost use Rattle.pg_set.specs.stated.TypeMessages.{json_name_at};
ghost use Rattle.pg_set.specs.stated.Views.{field_view};

use crate::descriptor::access::{
    SetMessage, count, ensure, flag, maybe_text, number, option, text,
};
use crate::descriptor::proto;
use crate::error::Unstated;
use crate::reading::codes::{MESSAGE_CODE, REPEATED, label_of};
use crate::reading::made_entries::{element, entry, says};
use crate::reading::made_oneofs::{OneofMarks, oneof};
use crate::reading::name_lookup::meant;
use crate::reading::names_table::NameTable;
use crate::reading::outline::Named;
use crate::reading::set_names::name_in;
use pg_schema::{Element, Field, FieldOptions, Presence, default_json_name, entry_name};
use std::alloc::{AllocError, Global};
use std::collections::BTreeMap;

/// What the fields of a message type are made with: the names of all files; the type's own
/// qualified name; which of its oneofs are synthetic, and how many fields name each; its entry
/// types by their names.
#[derive(Drop)]
pub(crate) struct Scope<'b, 'a> {
    pub names: &'b NameTable,
    pub name: &'b str,
    pub synthetic: OneofMarks,
    pub members: Vec<usize>,
    pub entries: BTreeMap<String, SetMessage<'b, 'a>>,
}

// ---- how often items occur

// Whether a singular field of these items is explicit, where it is a member of a oneof or
// `optional`.
fn is_explicit(element: Element, member: bool, optional: bool) -> bool
    ensures { result ≡ (is_message element || member || optional) }
{
    match element {
        Element::Message(_) => true,
        Element::Scalar(_) | Element::Enum(_) => member || optional,
    }
}

// The presence of a singular field.
fn singular(element: Element, member: bool, optional: bool) -> Presence
    ensures { result ≡ singular element member optional }
{
    let explicit = is_explicit(element, member, optional);
    if explicit {
        return Presence::Explicit;
    }
    Presence::Implicit
}

// The presence of a repeated field.
fn repeated(element: Element, stated: Option<bool>) -> Presence
    ensures { result ≡ repeated element stated }
{
    let default = element.is_packable();
    let packed = stated.unwrap_or(default);
    Presence::Repeated { packed }
}

// The presence of a field that is no map.
fn presence(message: &SetMessage<'_, '_>, element: Element, member: bool) -> Option<Presence>
    ensures { result ≡ presence (message_of message.now) element member }
{
    let optional = flag(message, proto::FIELD_PROTO3_OPTIONAL);
    if label_of(message) != REPEATED {
        return Some(singular(element, member, optional));
    }
    if optional {
        return None;
    }
    let packed = option(message, proto::FIELD_OPTIONS, proto::FIELD_PACKED);
    Some(repeated(element, packed))
}

// The presence and element of a field that is no map.
fn plain_items(
    names: &NameTable,
    message: &SetMessage<'_, '_>,
    member: bool,
) -> Option<(Presence, Element)>
    ensures { result ≡ plain_items (means_of names.now) (message_of message.now) member }
{
    let element = element(names, message)?;
    let presence = presence(message, element, member)?;
    Some((presence, element))
}

// ---- maps

// Whether it is that of an entry type.
fn is_entry_type(named: Option<Named>) -> bool
    ensures { result ≡ is_entry_type named }
{
    match named {
        Some(Named::Entry) => true,
        _ => false,
    }
}

// Whether the field's type is an entry type.
fn is_map_field(names: &NameTable, message: &SetMessage<'_, '_>) -> bool
    ensures { result ≡ is_map_field (means_of names.now) (message_of message.now) }
{
    let is_entry = is_entry_type(meant(names, message, proto::FIELD_TYPE_NAME));
    is_entry && number(message, proto::FIELD_TYPE) == MESSAGE_CODE
}

// Whether a field with an entry type of that name is repeated and names it, in its own message
// type.
fn names_its_entry(
    alloc: Global,
    scope: &Scope<'_, '_>,
    message: &SetMessage<'_, '_>,
    own: &str,
) -> Result<bool, AllocError>
    requires { own.now ≡ entry_name (text_at proto.FIELD_NAME (message_of message.now)) }
    ensures { IfOk result (λ is. is
        ≡ names_its_entry (owner_of scope.now) (message_of message.now)) }
{
    let full = name_in(alloc, scope.name, own)?;
    let names_it = says(message, proto::FIELD_TYPE_NAME, &full);
    let is_optional = flag(message, proto::FIELD_PROTO3_OPTIONAL);
    Ok(label_of(message) == REPEATED && !is_optional && names_it)
}

// The presence and element of a map field, whose entry type has its form.
fn map_items(
    alloc: Global,
    scope: &Scope<'_, '_>,
    message: &SetMessage<'_, '_>,
) -> Result<(Presence, Element), Unstated>
    ensures made { IfOk result (λ made. map_items (means_of scope.now.names.now)
        (owner_of scope.now) (message_of message.now) ≡ Some made) }
    ensures refused { IfErr result (λ e. (e ≡ Memory)
        ⊎ (map_items (means_of scope.now.names.now) (owner_of scope.now)
        (message_of message.now) ≡ None)) }
{
    let own = entry_name(alloc, text(message, proto::FIELD_NAME))?;
    ensure(names_its_entry(alloc, scope, message, &own)?)?;
    let Some(entry_type) = scope.entries.get(own.as_str()) else {
        return Err(Unstated::Reference);
    };
    let Some((key, value)) = entry(alloc, scope.names, entry_type)? else {
        return Err(Unstated::Reference);
    };
    Ok((Presence::Map { key }, value))
}

// ---- fields

// The presence and element of a field.
fn items(
    alloc: Global,
    scope: &Scope<'_, '_>,
    message: &SetMessage<'_, '_>,
    member: bool,
) -> Result<(Presence, Element), Unstated>
    ensures made { IfOk result (λ made. items (means_of scope.now.names.now)
        (owner_of scope.now) (message_of message.now) member ≡ Some made) }
    ensures refused { IfErr result (λ e. (e ≡ Memory)
        ⊎ (items (means_of scope.now.names.now) (owner_of scope.now)
        (message_of message.now) member ≡ None)) }
{
    if is_map_field(scope.names, message) {
        return map_items(alloc, scope, message);
    }
    match plain_items(scope.names, message, member) {
        Some(found) => Ok(found),
        None => Err(Unstated::Reference),
    }
}

// The JSON name, given or default.
fn json_name(alloc: Global, message: &SetMessage<'_, '_>) -> Result<String, AllocError>
    ensures { IfOk result (λ name. string_bytes name ≡ json_name_at (message_of message.now)) }
{
    let given = maybe_text(message, proto::FIELD_JSON_NAME);
    match given {
        Some(given) => String::from_str(alloc, given),
        None => default_json_name(alloc, text(message, proto::FIELD_NAME)),
    }
}

/// The field that a message states. A number that isn't above 0 is answered as 0, which no
/// rule takes.
pub(crate) fn made_field(
    alloc: Global,
    scope: &Scope<'_, '_>,
    message: &SetMessage<'_, '_>,
) -> Result<Field, Unstated>
    ensures made { IfOk result (λ made. field (means_of scope.now.names.now)
        (owner_of scope.now) (message_of message.now) ≡ Some (field_view made)) }
    ensures refused { IfErr result (λ e. (e ≡ Memory)
        ⊎ (field (means_of scope.now.names.now) (owner_of scope.now)
        (message_of message.now) ≡ None)) }
{
    let Some(own) = oneof(&scope.synthetic, &scope.members, message) else {
        return Err(Unstated::Reference);
    };
    let (presence, element) = items(alloc, scope, message, own.is_some())?;
    let name = String::from_str(alloc, text(message, proto::FIELD_NAME))?;
    let json_name = json_name(alloc, message)?;
    Ok(Field {
        number: count(message, proto::FIELD_NUMBER),
        name,
        presence,
        element,
        oneof: own,
        json_name,
        states_optional: flag(message, proto::FIELD_PROTO3_OPTIONAL),
        options: FieldOptions {
            packed: option(message, proto::FIELD_OPTIONS, proto::FIELD_PACKED),
            deprecated: option(message, proto::FIELD_OPTIONS, proto::FIELD_DEPRECATED),
        },
    })
}
