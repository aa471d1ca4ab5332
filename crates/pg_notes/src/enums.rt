//! What is told of the values of an enum.

ghost use Rattle.std.specs.Prelude.{◌≡◌, ◌++◌, OnOk};
ghost use Rattle.std.specs.Option.{option_copied};
ghost use Rattle.pg_notes.specs.EnumNotes.{enum_notes, has_value, lost_value, value_name, value_notes};
ghost use Rattle.pg_notes.specs.inner.Tables.{IsNameTable, IsNumberTable};

use crate::note::{EnumPair, Note};
use crate::tables::{
    Names, Numbers, is_same_number, item_named, names_of, numbers_of, place_of_number,
};
use pg_schema::{EnumType, EnumValue};
use std::alloc::{AllocError, Global};

/// The new enum of a pair.
#[derive(Drop)]
struct NewEnum<'a> {
    /// The pair.
    enums: EnumPair,
    /// The new values.
    values: &'a [EnumValue],
    /// The new values by their names.
    names: Names<'a>,
    /// The new values by their numbers.
    numbers: Numbers,
}

/// Whether the new enum has the name of the value at its number.
fn has_value(new: &NewEnum<'_>, value: &EnumValue) -> bool
    requires { IsNameTable value_name new.now.values.now new.now.names }
    ensures { result ≡ has_value new.now.values.now value.now }
{
    match item_named(new.values, &new.names, value.name.as_str()) {
        Some(other) => is_same_number(value, other),
        None => false,
    }
}

/// The note of a value whose number has other names, of which the first is at that index, or none.
fn lost_value(enums: EnumPair, value: usize, now: Option<usize>) -> Note
    ensures { result ≡ lost_value enums value now }
{
    match now {
        Some(now) => Note::ValueRenamed { enums, value, now },
        None => Note::ValueGone { enums, value },
    }
}

/// Appends what is told of the old value at that index.
fn tell_value(
    told: &mut Vec<Note>,
    new: &NewEnum<'_>,
    index: usize,
    value: &EnumValue,
) -> Result<(), AllocError>
    requires named { IsNameTable value_name new.now.values.now new.now.names }
    requires numbered { IsNumberTable new.now.values.now new.now.numbers }
    ensures { OnOk result (told.new.items ≡ told.old.items
        ++ value_notes new.now.enums new.now.values.now index value.now) }
{
    if !has_value(new, value) {
        let now = place_of_number(&new.numbers, value);
        told.push(lost_value(new.enums, index, now))?;
    }
    Ok(())
}

/// Appends what is told of the values of an old enum, beside the new one.
pub(crate) fn tell_enum(
    alloc: Global,
    told: &mut Vec<Note>,
    enums: EnumPair,
    values: &[EnumValue],
    enum_type: Option<&EnumType>,
) -> Result<(), AllocError>
    ensures { OnOk result (told.new.items ≡ told.old.items
        ++ enum_notes enums values.now (option_copied enum_type.entry)) }
{
    let Some(enum_type) = enum_type else {
        return Ok(());
    };
    let new_values = enum_type.values.as_slice();
    let new = NewEnum {
        enums,
        values: new_values,
        names: names_of(alloc, new_values)?,
        numbers: numbers_of(alloc, new_values)?,
    };
    for (index, value) in values.iter().enumerate() {
        tell_value(told, &new, index, value)?;
    }
    Ok(())
}
