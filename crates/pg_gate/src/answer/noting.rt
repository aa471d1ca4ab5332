//! What is noted of two sides that compiled, with positions.
ghost use Rattle.std.specs.Prelude.{◌≡◌, IfOk, map, option_map};
ghost use Rattle.pg_gate.specs.answer.Notes as spec;

use crate::answer::compile::Compiled;
use crate::answer::member::{Member, member_name, new_member, number_of, old_member};
use crate::answer::stepping::{PlacedSchema, PlacedSchemas, place_of, placed_schema};
use crate::answer::wanted::Wanted;
use pg_lines::{NamedField, PlacedNote};
use pg_notes::{Note, notes};
use pg_schema::Schema;
use std::alloc::{AllocError, Global};

/// The member of a side.
fn named_member(
    alloc: Global,
    side: &PlacedSchema<'_>,
    member: Member,
) -> Result<NamedField, AllocError>
    ensures { IfOk result (λ found. spec.name_in found
        ≡ spec.member_name side.now.schema.now member) }
{
    Ok(NamedField {
        name: member_name(alloc, side.schema, member)?,
        place: place_of(alloc, side, member)?,
    })
}

/// The member of a side, where it has one.
fn named_if(
    alloc: Global,
    side: &PlacedSchema<'_>,
    member: Option<Member>,
) -> Result<Option<NamedField>, AllocError>
    ensures { IfOk result (λ found. option_map spec.name_in found
        ≡ option_map (spec.member_name side.now.schema.now) member) }
{
    match member {
        Some(member) => {
            let found = named_member(alloc, side, member)?;
            Ok(Some(found))
        }
        None => Ok(None),
    }
}

/// The note with what it names.
fn placed_note(
    alloc: Global,
    sides: &PlacedSchemas<'_>,
    note: Note,
) -> Result<PlacedNote, AllocError>
    ensures { IfOk result (λ placed. spec.named placed
        ≡ spec.named_note sides.now.old.schema.now sides.now.new.schema.now note) }
{
    let member = old_member(note);
    Ok(PlacedNote {
        note,
        number: number_of(sides.old.schema, member),
        old: named_member(alloc, &sides.old, member)?,
        new: named_if(alloc, &sides.new, new_member(note))?,
    })
}

/// Each note with what it names.
fn placed_each(
    alloc: Global,
    sides: &PlacedSchemas<'_>,
    told: &[Note],
) -> Result<Vec<PlacedNote>, AllocError>
    ensures { IfOk result (λ placed. map spec.named placed.items
        ≡ map (spec.named_note sides.now.old.schema.now sides.now.new.schema.now) told.now) }
{
    let mut placed = Vec::with_capacity(alloc, told.len())?;
    for note in told {
        placed.push(placed_note(alloc, sides, *note)?)?;
    }
    Ok(placed)
}

/// What the notes name in a schema: their old members, or their new ones.
fn wanted_by(
    alloc: Global,
    schema: &Schema,
    told: &[Note],
    of_old: bool,
) -> Result<Wanted, AllocError> {
    let mut wanted = Wanted::none(alloc, schema)?;
    for note in told {
        let member = if of_old {
            Some(old_member(*note))
        } else {
            new_member(*note)
        };
        if let Some(member) = member {
            wanted.want(member);
        }
    }
    Ok(wanted)
}

/// Each note with what it names on two sides. Where there is none, no file is gone through.
fn placed_notes(
    alloc: Global,
    old: &Compiled,
    new: &Compiled,
    told: &[Note],
) -> Result<Vec<PlacedNote>, AllocError>
    ensures { IfOk result (λ placed. map spec.named placed.items
        ≡ map (spec.named_note old.now.schema new.now.schema) told.now) }
{
    if told.is_empty() {
        return Ok(Vec::new(alloc));
    }
    let old_wanted = wanted_by(alloc, &old.schema, told, true)?;
    let new_wanted = wanted_by(alloc, &new.schema, told, false)?;
    let sides = PlacedSchemas {
        old: placed_schema(alloc, old, &old_wanted)?,
        new: placed_schema(alloc, new, &new_wanted)?,
    };
    placed_each(alloc, &sides, told)
}

/// What is noted of two sides that compiled, where it is asked for.
pub(crate) fn noted(
    alloc: Global,
    old: &Compiled,
    new: &Compiled,
    asked: bool,
) -> Result<Vec<PlacedNote>, AllocError>
    ensures { IfOk result (λ placed. spec.AreNotes asked old.now.schema new.now.schema
        placed.items) }
{
    if !asked {
        return Ok(Vec::new(alloc));
    }
    let told = notes(alloc, &old.schema, &new.schema)?;
    placed_notes(alloc, old, new, &told)
}
