//! Message types and enums of a schema, made of a set's messages.

ghost use Rattle.std.specs.Prelude.{◌≡◌, ◌⊎◌, ℕ, ◌<◌, pos, true, false, None, Some, List, IfErr, IfOk, IfSome, OnErr, length, map, option_map};
ghost use Rattle.std.specs.List.{list_all};
ghost use Rattle.std.specs.String.{string_bytes};
ghost use Rattle.pg_dyn.specs.message.Kept.{message_of};
ghost use Rattle.pg_set.specs.declared.error.Unstated.TheVariants.{Memory};
ghost use Rattle.pg_set.specs.inner.Lent.{lent};
ghost use Rattle.pg_set.specs.inner.reading.Made.{AreCounted, has_place, AreMarked};
ghost use Rattle.pg_set.specs.inner.reading.MadeMembers.{HasMembers};
ghost use Rattle.pg_set.specs.inner.reading.OutlinedPlaces.{placed_type};
ghost use Rattle.pg_set.specs.inner.reading.OutlinedRows.{row, type_row};
ghost use Rattle.pg_set.specs.inner.reading.Owners.{means_of, message_in, owner_of};
ghost use Rattle.pg_set.specs.declared.descriptor.proto.TheConstants as proto;
ghost use Rattle.pg_set.specs.stated.SetMessages.{children_at, maybe_number_at, text_at};
ghost use Rattle.pg_set.specs.stated.StatedEnums as stated;
ghost use Rattle.pg_set.specs.stated.StatedFields.{field, fields};
ghost use Rattle.pg_set.specs.stated.StatedNames.{each};
ghost use Rattle.pg_set.specs.stated.StatedTypes.{by_key, declared_fields, field_range, last_named, message_type, number_of};
ghost use Rattle.pg_set.specs.stated.TypeMessages.{real_oneofs, synthetic_places as stated_places};
ghost use Rattle.pg_set.specs.stated.Views.{enum_view, field_view, type_view, value_view};

use crate::descriptor::access::{
    SetMessage, children, count, ensure, maybe_number, option, place_in, text, texts, whole,
};
use crate::descriptor::proto;
use crate::descriptor::rows::numbers;
use crate::error::Unstated;
use crate::reading::inner_types::entries_of;
use crate::reading::made_fields::{Scope, made_field};
use crate::reading::made_oneofs::{OneofMarks, marks, real_names, synthetic_places};
use crate::reading::named_entries::are_named_once;
use crate::reading::names_table::NameTable;
use crate::reading::outline::{Outlined, OutlinedType};
use crate::reading::set_names::undotted;
use pg_schema::{
    EnumOptions, EnumType, EnumValue, EnumValueOptions, Field, MessageOptions, MessageType,
    ReservedFields, ReservedValues,
};
use std::alloc::{AllocError, Global};
use std::collections::BTreeMap;

// Own copies of the strings.
fn copies(alloc: Global, texts: &[&str]) -> Result<Vec<String>, AllocError>
    ensures { IfOk result (λ copies. map string_bytes copies.items ≡ lent texts.now) }
{
    let mut copies = Vec::new(alloc);
    for text in texts {
        copies.push(String::from_str(alloc, text)?)?;
    }
    Ok(copies)
}

// ---- enums

fn value(alloc: Global, message: &SetMessage<'_, '_>) -> Result<EnumValue, AllocError>
    ensures { IfOk result (λ made. value_view made ≡ stated.value (message_of message.now)) }
{
    Ok(EnumValue {
        name: String::from_str(alloc, text(message, proto::VALUE_NAME))?,
        number: whole(message, proto::VALUE_NUMBER),
        options: EnumValueOptions {
            deprecated: option(message, proto::VALUE_OPTIONS, proto::VALUE_DEPRECATED),
        },
    })
}

fn values(alloc: Global, messages: &[SetMessage<'_, '_>]) -> Result<Vec<EnumValue>, AllocError>
    ensures { IfOk result (λ made. map value_view made.items
        ≡ map stated.value (map message_of messages.now)) }
{
    let mut values = Vec::new(alloc);
    for message in messages {
        let made = value(alloc, message)?;
        values.push(made)?;
    }
    Ok(values)
}

fn value_range(message: &SetMessage<'_, '_>) -> ReservedValues
    ensures { result ≡ stated.range (message_of message.now) }
{
    ReservedValues {
        first: whole(message, proto::RANGE_START),
        last: whole(message, proto::RANGE_END),
    }
}

fn value_ranges(
    alloc: Global,
    messages: &[SetMessage<'_, '_>],
) -> Result<Vec<ReservedValues>, AllocError>
    ensures { IfOk result (λ made. made.items
        ≡ map stated.range (map message_of messages.now)) }
{
    let mut ranges = Vec::new(alloc);
    for message in messages {
        let made = value_range(message);
        ranges.push(made)?;
    }
    Ok(ranges)
}

/// The enum that a message states.
pub(crate) fn made_enum(alloc: Global, outlined: &Outlined<'_, '_>) -> Result<EnumType, AllocError>
    ensures { IfOk result (λ made. enum_view made ≡ stated.enum_type (row outlined.now)) }
{
    let message = &outlined.message;
    let name = String::from_str(alloc, undotted(outlined.name.as_str()))?;
    let values = values(alloc, &children(alloc, message, proto::ENUM_VALUE)?)?;
    let reserved_numbers = value_ranges(
        alloc,
        &children(alloc, message, proto::ENUM_RESERVED_RANGE)?,
    )?;
    let reserved_names = copies(alloc, &texts(alloc, message, proto::ENUM_RESERVED_NAME)?)?;
    Ok(EnumType {
        name,
        values,
        reserved_numbers,
        reserved_names,
        options: EnumOptions {
            allow_alias: option(message, proto::ENUM_OPTIONS, proto::ENUM_ALLOW_ALIAS),
            deprecated: option(message, proto::ENUM_OPTIONS, proto::ENUM_DEPRECATED),
        },
    })
}

// ---- message types

// The reserved numbers, which end before the second number.
fn field_range(message: &SetMessage<'_, '_>) -> ReservedFields
    ensures { result ≡ field_range (message_of message.now) }
{
    let end = count(message, proto::RANGE_END);
    ReservedFields {
        first: count(message, proto::RANGE_START),
        last: end.saturating_sub(1),
    }
}

fn field_ranges(
    alloc: Global,
    messages: &[SetMessage<'_, '_>],
) -> Result<Vec<ReservedFields>, AllocError>
    ensures { IfOk result (λ made. made.items
        ≡ map field_range (map message_of messages.now)) }
{
    let mut ranges = Vec::new(alloc);
    for message in messages {
        let made = field_range(message);
        ranges.push(made)?;
    }
    Ok(ranges)
}

// The index of the oneof, among so many, that a field names, if it names one.
fn named_place(field: &SetMessage<'_, '_>, count: usize) -> Result<Option<usize>, Unstated>
    ensures ok { IfOk result (λ place. maybe_number_at proto.FIELD_ONEOF_INDEX
        (message_of field.now) ≡ option_map pos place) }
    ensures within { IfOk result (λ found. IfSome found (λ place. place < count)) }
    ensures refused { OnErr result (has_place count (message_of field.now) ≡ false) }
{
    match maybe_number(field, proto::FIELD_ONEOF_INDEX) {
        None => Ok(None),
        Some(named) => Ok(Some(place_in(&named, count)?)),
    }
}

// How many of the fields name each of so many oneofs, where each names one of them or none.
fn member_counts(
    alloc: Global,
    fields: &[SetMessage<'_, '_>],
    count: usize,
) -> Result<Vec<usize>, Unstated>
    ensures counted { IfOk result (λ counts.
        AreCounted (map message_of fields.now) count counts.items) }
    ensures refused { IfErr result (λ e. list_all (has_place count)
        (map message_of fields.now) ≡ true → e ≡ Memory) }
{
    let mut counts: Vec<usize> = vec![in alloc; 0; count]?;
    for field in fields {
        let named = named_place(field, count)?;
        if let Some(place) = named {
            counts[place] = counts[place].saturating_add(1);
        }
    }
    Ok(counts)
}

// The entry types by their names: of those of one name the last.
fn entries<'b, 'a>(
    alloc: Global,
    messages: &[SetMessage<'b, 'a>],
) -> Result<BTreeMap<String, SetMessage<'b, 'a>>, AllocError>
    ensures { IfOk result (λ table. (name : List ℕ) → message_in table name
        ≡ last_named (map message_of messages.now) name) }
{
    let mut entries = BTreeMap::new(alloc);
    for message in messages {
        let name = String::from_str(alloc, text(message, proto::MESSAGE_NAME))?;
        entries.insert(name, message.reborrow())?;
    }
    Ok(entries)
}

// The fields of these messages, one by one.
fn each_field(
    alloc: Global,
    scope: &Scope<'_, '_>,
    messages: &[SetMessage<'_, '_>],
) -> Result<Vec<Field>, Unstated>
    ensures made { IfOk result (λ made. each (field (means_of scope.now.names.now)
        (owner_of scope.now)) (map message_of messages.now)
        ≡ Some (map field_view made.items)) }
    ensures refused { IfErr result (λ e. (e ≡ Memory)
        ⊎ (each (field (means_of scope.now.names.now) (owner_of scope.now))
        (map message_of messages.now) ≡ None)) }
{
    let mut fields = Vec::with_capacity(alloc, messages.len())?;
    for message in messages {
        let made = made_field(alloc, scope, message)?;
        fields.push(made)?;
    }
    Ok(fields)
}

// The fields of these messages, where each of the entry types is that of just one.
fn fields(
    alloc: Global,
    scope: &Scope<'_, '_>,
    entries: &[SetMessage<'_, '_>],
    messages: &[SetMessage<'_, '_>],
) -> Result<Vec<Field>, Unstated>
    ensures made { IfOk result (λ made. fields (means_of scope.now.names.now)
        (owner_of scope.now) (map message_of entries.now) (map message_of messages.now)
        ≡ Some (map field_view made.items)) }
    ensures refused { IfErr result (λ e. (e ≡ Memory)
        ⊎ (fields (means_of scope.now.names.now) (owner_of scope.now)
        (map message_of entries.now) (map message_of messages.now) ≡ None)) }
{
    let fields = each_field(alloc, scope, messages)?;
    ensure(are_named_once(alloc, &fields, entries)?)?;
    Ok(fields)
}

// The fields by rising number.
fn sorted(mut fields: Vec<Field>) -> Result<Vec<Field>, AllocError>
    ensures { IfOk result (λ sorted. map field_view sorted.items
        ≡ by_key number_of (map field_view fields.items)) }
{
    fields.sort_by_key(|field| field.number)?;
    Ok(fields)
}

// The fields of a message type in order of declaration, made of these messages, where it is known
// which of its oneofs are synthetic.
fn declared_fields(
    alloc: Global,
    names: &NameTable,
    outlined: &OutlinedType<'_, '_>,
    own: &[SetMessage<'_, '_>],
    synthetic: Vec<bool>,
) -> Result<Vec<Field>, Unstated>
    requires own { map message_of own.now
        ≡ children_at proto.MESSAGE_FIELD (message_of outlined.now.message) }
    requires marked { AreMarked (stated_places (map message_of own.now))
        (length (children_at proto.MESSAGE_ONEOF_DECL (message_of outlined.now.message)))
        synthetic.items }
    ensures made { IfOk result (λ made. declared_fields (means_of names.now)
        (type_row outlined.now) ≡ Some (map field_view made.items)) }
    ensures refused { IfErr result (λ e. (e ≡ Memory)
        ⊎ (declared_fields (means_of names.now) (type_row outlined.now) ≡ None)) }
{
    let inside = children(alloc, &outlined.message, proto::MESSAGE_NESTED_TYPE)?;
    let messages = entries_of(alloc, &inside)?;
    let entries = entries(alloc, &messages)?;
    let members = member_counts(alloc, own, synthetic.len())?;
    let marks = OneofMarks::new(alloc, synthetic)?;
    let scope = Scope {
        names,
        name: outlined.name.as_str(),
        synthetic: marks,
        members,
        entries,
    };
    fields(alloc, &scope, &messages, own)
}

// Own copies of the names of the oneofs that aren't synthetic.
fn oneof_names(
    alloc: Global,
    oneofs: &[SetMessage<'_, '_>],
    places: &[i128],
    synthetic: &[bool],
) -> Result<Vec<String>, AllocError>
    requires { AreMarked places.now (length oneofs.now) synthetic.now }
    ensures { IfOk result (λ made. map string_bytes made.items
        ≡ map (text_at proto.ONEOF_NAME)
        (real_oneofs places.now 0 (map message_of oneofs.now))) }
{
    let names = real_names(alloc, oneofs, places, synthetic)?;
    copies(alloc, &names)
}

// The fields of a message type in order of declaration, and the names of its oneofs.
#[derive(Drop)]
struct Members {
    fields: Vec<Field>,
    oneofs: Vec<String>,
}

// The members of a message type, of its messages of fields and oneofs, where the synthetic ones are
// marked.
fn marked_members(
    alloc: Global,
    names: &NameTable,
    outlined: &OutlinedType<'_, '_>,
    own: &[SetMessage<'_, '_>],
    inside: &[SetMessage<'_, '_>],
    places: &[i128],
    synthetic: Vec<bool>,
) -> Result<Members, Unstated>
    requires own { map message_of own.now
        ≡ children_at proto.MESSAGE_FIELD (message_of outlined.now.message) }
    requires inside { map message_of inside.now
        ≡ children_at proto.MESSAGE_ONEOF_DECL (message_of outlined.now.message) }
    requires places { places.now ≡ stated_places (map message_of own.now) }
    requires marked { AreMarked places.now (length inside.now) synthetic.items }
    ensures made { IfOk result (HasMembers names.now (type_row outlined.now)) }
    ensures refused { IfErr result (λ e. (e ≡ Memory)
        ⊎ (declared_fields (means_of names.now) (type_row outlined.now) ≡ None)) }
{
    let oneofs = oneof_names(alloc, inside, places, &synthetic)?;
    let fields = declared_fields(alloc, names, outlined, own, synthetic)?;
    Ok(Members { fields, oneofs })
}

// The members of a message type, of its messages of fields and oneofs.
fn members_of(
    alloc: Global,
    names: &NameTable,
    outlined: &OutlinedType<'_, '_>,
    own: &[SetMessage<'_, '_>],
    inside: &[SetMessage<'_, '_>],
) -> Result<Members, Unstated>
    requires own { map message_of own.now
        ≡ children_at proto.MESSAGE_FIELD (message_of outlined.now.message) }
    requires inside { map message_of inside.now
        ≡ children_at proto.MESSAGE_ONEOF_DECL (message_of outlined.now.message) }
    ensures made { IfOk result (HasMembers names.now (type_row outlined.now)) }
    ensures refused { IfErr result (λ e. (e ≡ Memory)
        ⊎ (declared_fields (means_of names.now) (type_row outlined.now) ≡ None)) }
{
    let places = synthetic_places(alloc, own)?;
    let synthetic = marks(alloc, &places, inside.len())?;
    marked_members(alloc, names, outlined, own, inside, &places, synthetic)
}

// What a message type has for members.
fn made_members(
    alloc: Global,
    names: &NameTable,
    outlined: &OutlinedType<'_, '_>,
) -> Result<Members, Unstated>
    ensures made { IfOk result (HasMembers names.now (type_row outlined.now)) }
    ensures refused { IfErr result (λ e. (e ≡ Memory)
        ⊎ (declared_fields (means_of names.now) (type_row outlined.now) ≡ None)) }
{
    let own = children(alloc, &outlined.message, proto::MESSAGE_FIELD)?;
    let inside = children(alloc, &outlined.message, proto::MESSAGE_ONEOF_DECL)?;
    members_of(alloc, names, outlined, &own, &inside)
}

/// The message type that a message states. Refused, memory aside, only where it states none.
pub(crate) fn made_type(
    alloc: Global,
    names: &NameTable,
    outlined: &OutlinedType<'_, '_>,
) -> Result<MessageType, Unstated>
    ensures made { IfOk result (λ made. message_type (means_of names.now)
        (placed_type outlined.now) ≡ Some (type_view made)) }
    ensures refused { IfErr result (λ e. (e ≡ Memory)
        ⊎ (message_type (means_of names.now) (placed_type outlined.now) ≡ None)) }
{
    let message = &outlined.message;
    let members = made_members(alloc, names, outlined)?;
    let reserved_numbers = field_ranges(
        alloc,
        &children(alloc, message, proto::MESSAGE_RESERVED_RANGE)?,
    )?;
    let reserved_names = copies(alloc, &texts(alloc, message, proto::MESSAGE_RESERVED_NAME)?)?;
    let name = String::from_str(alloc, undotted(outlined.name.as_str()))?;
    let nested_types = outlined.types.clone()?;
    let nested_enums = outlined.enums.clone()?;
    let declared = numbers(alloc, &members.fields)?;
    Ok(MessageType {
        name,
        fields: sorted(members.fields)?,
        declared,
        oneofs: members.oneofs,
        nested_types,
        nested_enums,
        reserved_numbers,
        reserved_names,
        options: MessageOptions {
            deprecated: option(message, proto::MESSAGE_OPTIONS, proto::MESSAGE_DEPRECATED),
        },
    })
}
