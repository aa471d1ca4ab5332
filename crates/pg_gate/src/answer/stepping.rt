//! The steps of a witness: the fields on its path.
ghost use Rattle.std.specs.Prelude.{◌≡◌, ◌++◌, IfOk, OnOk, true, is_some, map, string_bytes};
ghost use Rattle.std.specs.List.{flat_map};
ghost use Rattle.pg_cert.specs.ClaimView.{view_in};
ghost use Rattle.pg_cert.specs.Text.{names_of};
ghost use Rattle.pg_least.specs.Searched.{IsSearched};
ghost use Rattle.pg_schema.specs.Parts.{shape_of};
ghost use Rattle.pg_gate.specs.answer.Steps as spec;

use crate::answer::compile::Compiled;
use crate::answer::member::Member;
use crate::answer::places::{Places, places_of};
use crate::answer::verifying::name_of;
use crate::answer::wanted::Wanted;
use pg_cert::Certificate;
use pg_least::{PairChoice, path};
use pg_lines::{NamedField, Step};
use pg_link::Place;
use pg_pairs::{Case, Pair};
use pg_schema::{Schema, TypeId};
use std::alloc::{AllocError, Global};

/// A schema, and where the members of some of its declarations are. Those of a descriptor set have no
/// positions.
#[derive(Drop)]
pub(crate) struct PlacedSchema<'a> {
    pub schema: &'a Schema,
    places: Option<Places<'a>>,
}

/// The old and the new schema, with positions.
#[derive(Drop)]
pub(crate) struct PlacedSchemas<'a> {
    pub old: PlacedSchema<'a>,
    pub new: PlacedSchema<'a>,
}

/// The full name of the type's field of that number.
pub(crate) fn field_name(
    alloc: Global,
    schema: &Schema,
    id: TypeId,
    number: u32,
) -> Result<String, AllocError>
    ensures { IfOk result (λ name. string_bytes name ≡ spec.field_name schema.now id number) }
{
    let mut name = name_of(alloc, schema, id)?;
    name.push_str(".")?;
    if let Some(field) = schema.field(id, number) {
        name.push_str(field.name.as_str())?;
    }
    Ok(name)
}

/// Where the member is declared.
pub(crate) fn place_of(
    alloc: Global,
    side: &PlacedSchema<'_>,
    member: Member,
) -> Result<Option<Place>, AllocError> {
    match &side.places {
        Some(places) => places.place(alloc, member),
        None => Ok(None),
    }
}

/// The type's field of that number.
fn named_field(
    alloc: Global,
    side: &PlacedSchema<'_>,
    id: TypeId,
    number: u32,
) -> Result<NamedField, AllocError>
    ensures { IfOk result (λ field. string_bytes field.name
        ≡ spec.field_name side.now.schema.now id number) }
{
    Ok(NamedField {
        name: field_name(alloc, side.schema, id, number)?,
        place: place_of(alloc, side, Member::Field { id, number })?,
    })
}

/// The step of that number between the types of the pair.
pub(crate) fn step_of(
    alloc: Global,
    sides: &PlacedSchemas<'_>,
    pair: Pair,
    number: u32,
) -> Result<Step, AllocError>
    ensures { IfOk result (λ step. spec.named step
        ≡ spec.named_at sides.now.old.schema.now sides.now.new.schema.now pair number) }
{
    Ok(Step {
        number,
        old: named_field(alloc, &sides.old, pair.old, number)?,
        new: named_field(alloc, &sides.new, pair.new, number)?,
    })
}

/// Appends the steps of a choice: one, or one for each of two fields that meet in a oneof.
fn add_steps(
    alloc: Global,
    steps: &mut Vec<Step>,
    sides: &PlacedSchemas<'_>,
    stage: PairChoice,
) -> Result<(), AllocError>
    ensures { OnOk result (map spec.named steps.new.items ≡ map spec.named steps.old.items
        ++ spec.steps_by sides.now.old.schema.now sides.now.new.schema.now stage) }
{
    let choice = stage.choice;
    steps.push(step_of(alloc, sides, stage.pair, choice.number)?)?;
    if choice.case == Case::Oneof {
        steps.push(step_of(alloc, sides, stage.pair, choice.part)?)?;
    }
    Ok(())
}

/// The steps of a path.
fn steps_by(
    alloc: Global,
    sides: &PlacedSchemas<'_>,
    path: &[PairChoice],
) -> Result<Vec<Step>, AllocError>
    ensures { IfOk result (λ steps. map spec.named steps.items
        ≡ flat_map (spec.steps_by sides.now.old.schema.now sides.now.new.schema.now) path.now) }
{
    let mut steps = Vec::new(alloc);
    for stage in path {
        add_steps(alloc, &mut steps, sides, *stage)?;
    }
    Ok(steps)
}

/// Which types of the old schema, or of the new one, are on the path.
fn types_on(
    alloc: Global,
    schema: &Schema,
    path: &[PairChoice],
    of_old: bool,
) -> Result<Wanted, AllocError> {
    let mut wanted = Wanted::none(alloc, schema)?;
    for stage in path {
        wanted.want_type(if of_old {
            stage.pair.old
        } else {
            stage.pair.new
        });
    }
    Ok(wanted)
}

/// Where what is wanted of a side is declared.
fn places_in<'a>(
    alloc: Global,
    side: &'a Compiled,
    wanted: &Wanted,
) -> Result<Option<Places<'a>>, AllocError> {
    let Some(files) = &side.files else {
        return Ok(None);
    };
    let places = places_of(alloc, files, &side.schema, wanted)?;
    Ok(Some(places))
}

/// A side's schema, with the positions of what is wanted.
pub(crate) fn placed_schema<'a>(
    alloc: Global,
    side: &'a Compiled,
    wanted: &Wanted,
) -> Result<PlacedSchema<'a>, AllocError>
    ensures { IfOk result (λ placed. placed.schema.now ≡ side.now.schema) }
{
    let places = places_in(alloc, side, wanted)?;
    Ok(PlacedSchema {
        schema: &side.schema,
        places,
    })
}

/// The schemas of two sides, with the positions of the fields of the types on the path.
pub(crate) fn placed_schemas<'a>(
    alloc: Global,
    old: &'a Compiled,
    new: &'a Compiled,
    path: &[PairChoice],
) -> Result<PlacedSchemas<'a>, AllocError>
    ensures old { IfOk result (λ sides. sides.old.schema.now ≡ old.now.schema) }
    ensures new { IfOk result (λ sides. sides.new.schema.now ≡ new.now.schema) }
{
    let old_wanted = types_on(alloc, &old.schema, path, true)?;
    let new_wanted = types_on(alloc, &new.schema, path, false)?;
    Ok(PlacedSchemas {
        old: placed_schema(alloc, old, &old_wanted)?,
        new: placed_schema(alloc, new, &new_wanted)?,
    })
}

/// The steps of the witness of a certificate between the two sides.
pub(crate) fn steps(
    alloc: Global,
    old: &Compiled,
    new: &Compiled,
    certificate: &Certificate,
) -> Result<Vec<Step>, AllocError>
    requires searched { IsSearched (view_in old.now.schema new.now.schema certificate.now)
        (shape_of old.now.schema) (shape_of new.now.schema) certificate.now.root certificate.now }
    requires breaks { is_some certificate.now.witness ≡ true }
    ensures { IfOk result (λ steps. spec.AreSteps old.now.schema new.now.schema certificate.now
        steps.items) }
{
    let path = path(alloc, &old.schema, &new.schema, certificate)?;
    let sides = placed_schemas(alloc, old, new, &path)?;
    steps_by(alloc, &sides, &path)
}
