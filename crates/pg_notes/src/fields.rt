//! What is told of the fields of a message type.

ghost use Rattle.std.specs.Prelude.{◌≡◌, ◌++◌, Some, OnOk};
ghost use Rattle.std.specs.Option.{option_copied};
ghost use Rattle.pg_schema.specs.Lookups.{type_at};
ghost use Rattle.pg_notes.specs.FieldNotes.{field_name, field_notes, has_presence, is_packed_list, moved, number_of, number_to_list, pair_notes, presence_dropped, renamed, told_if, unreserved};
ghost use Rattle.pg_notes.specs.inner.Tables.{IsNameTable};
ghost use Rattle.pg_notes.specs.inner.Tops.{IsReservedTable};

use crate::note::{Note, TypePair};
use crate::reserved::{Reserved, is_reserved, reserved_of};
use crate::tables::{Names, item_named, names_of};
use pg_schema::{Field, MessageType, Presence, Schema};
use std::alloc::{AllocError, Global};

/// The new type of a pair.
#[derive(Drop)]
struct NewType<'a> {
    /// The pair.
    types: TypePair,
    /// The new schema.
    schema: &'a Schema,
    /// The new type.
    message_type: &'a MessageType,
    /// Its fields by their names.
    names: Names<'a>,
    /// Its reserved numbers.
    reserved: Reserved,
}

/// Appends the note, where the test holds.
fn tell_if(told: &mut Vec<Note>, test: bool, note: Note) -> Result<(), AllocError>
    ensures { OnOk result (told.new.items ≡ told.old.items ++ told_if test note) }
{
    if test {
        told.push(note)?;
    }
    Ok(())
}

/// Appends that both types have the number, under different names.
fn tell_renamed(
    told: &mut Vec<Note>,
    types: TypePair,
    field: &Field,
    same: Option<&Field>,
    now: Option<u32>,
) -> Result<(), AllocError>
    ensures { OnOk result (told.new.items
        ≡ told.old.items ++ renamed types field.now (option_copied same.entry) now) }
{
    let Some(other) = same else {
        return Ok(());
    };
    let number = field.number;
    let differs = field.name.as_str() != other.name.as_str();
    tell_if(told, differs, Note::Renamed { types, number, now })
}

/// Appends that the new type has the old name, at another number.
fn tell_moved(
    told: &mut Vec<Note>,
    types: TypePair,
    field: &Field,
    now: Option<u32>,
) -> Result<(), AllocError>
    ensures { OnOk result (told.new.items ≡ told.old.items ++ moved types field.now now) }
{
    let Some(now) = now else {
        return Ok(());
    };
    let number = field.number;
    tell_if(told, number != now, Note::Moved { types, number, now })
}

/// Appends that the new type neither has the number nor reserves it.
fn tell_unreserved(
    told: &mut Vec<Note>,
    types: TypePair,
    field: &Field,
    same: Option<&Field>,
    is_reserved: bool,
) -> Result<(), AllocError>
    ensures { OnOk result (told.new.items
        ≡ told.old.items ++ unreserved types field.now (option_copied same.entry) is_reserved) }
{
    if same.is_some() {
        return Ok(());
    }
    let number = field.number;
    tell_if(told, !is_reserved, Note::Unreserved { types, number })
}

/// Whether a message has one item at most, and it is told whether there is one.
fn has_presence(presence: Presence) -> bool
    ensures { result ≡ has_presence presence }
{
    matches!(presence, Presence::Explicit)
}

/// Appends that a single field had presence, and has none now.
fn tell_presence_dropped(
    told: &mut Vec<Note>,
    types: TypePair,
    field: &Field,
    same: Option<&Field>,
) -> Result<(), AllocError>
    ensures { OnOk result (told.new.items
        ≡ told.old.items ++ presence_dropped types field.now (option_copied same.entry)) }
{
    let Some(other) = same else {
        return Ok(());
    };
    let number = field.number;
    let is_dropped = has_presence(field.presence) && matches!(other.presence, Presence::Implicit);
    tell_if(told, is_dropped, Note::PresenceDropped { types, number })
}

/// Whether the field is a list that is written as one record.
fn is_packed_list(presence: Presence) -> bool
    ensures { result ≡ is_packed_list presence }
{
    match presence {
        Presence::Repeated { packed } => packed,
        Presence::Implicit | Presence::Explicit | Presence::Map { .. } => false,
    }
}

/// Appends that a single field of a packable element is now a packed list.
fn tell_number_to_list(
    told: &mut Vec<Note>,
    types: TypePair,
    field: &Field,
    same: Option<&Field>,
) -> Result<(), AllocError>
    ensures { OnOk result (told.new.items
        ≡ told.old.items ++ number_to_list types field.now (option_copied same.entry)) }
{
    let Some(other) = same else {
        return Ok(());
    };
    let number = field.number;
    let was_number = field.presence.is_singular() && field.element.is_packable();
    let is_list = was_number && is_packed_list(other.presence);
    tell_if(told, is_list, Note::NumberToList { types, number })
}

/// The number of the new field of that name.
fn number_of(new: &NewType<'_>, name: &str) -> Option<u32>
    requires { IsNameTable field_name new.now.message_type.now.fields.items new.now.names }
    ensures { result ≡ number_of new.now.message_type.now.fields.items name.now }
{
    match item_named(new.message_type.fields.as_slice(), &new.names, name) {
        Some(field) => Some(field.number),
        None => None,
    }
}

/// Appends what is told of an old field.
fn tell_field(told: &mut Vec<Note>, new: &NewType<'_>, field: &Field) -> Result<(), AllocError>
    requires named { IsNameTable field_name new.now.message_type.now.fields.items new.now.names }
    requires reserved { IsReservedTable new.now.message_type.now.reserved_numbers.items
        new.now.reserved }
    requires there { type_at new.now.schema.now new.now.types.new
        ≡ Some new.now.message_type.now }
    ensures { OnOk result (told.new.items ≡ told.old.items
        ++ field_notes new.now.types new.now.message_type.now.fields.items
        new.now.message_type.now.reserved_numbers.items field.now) }
{
    let types = new.types;
    let same = new.schema.field(types.new, field.number);
    let now = number_of(new, field.name.as_str());
    tell_renamed(told, types, field, same, now)?;
    tell_moved(told, types, field, now)?;
    let ranges = new.message_type.reserved_numbers.as_slice();
    let is_reserved = is_reserved(ranges, &new.reserved, field.number);
    tell_unreserved(told, types, field, same, is_reserved)?;
    tell_presence_dropped(told, types, field, same)?;
    tell_number_to_list(told, types, field, same)
}

/// Appends what is told of the fields of an old type, beside the new one.
pub(crate) fn tell_type(
    alloc: Global,
    told: &mut Vec<Note>,
    schema: &Schema,
    types: TypePair,
    fields: &[Field],
) -> Result<(), AllocError>
    ensures { OnOk result (told.new.items ≡ told.old.items
        ++ pair_notes types fields.now (type_at schema.now types.new)) }
{
    let Some(message_type) = schema.message_type(types.new) else {
        return Ok(());
    };
    let new = NewType {
        types,
        schema,
        message_type,
        names: names_of(alloc, message_type.fields.as_slice())?,
        reserved: reserved_of(alloc, message_type.reserved_numbers.as_slice())?,
    };
    for field in fields {
        tell_field(told, &new, field)?;
    }
    Ok(())
}
