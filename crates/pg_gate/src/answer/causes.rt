//! The causes of two sides that compiled, with their fields, positions and readings.
ghost use Rattle.std.specs.Prelude.{◌≡◌, ◌≤◌, IfOk, length, map};
ghost use Rattle.std.specs.List.{AllByRecursion};
ghost use Rattle.pg_cert.specs.Text.{IsPairOf};
ghost use Rattle.pg_gate.specs.answer.AllTypes.{IsAllTypes, IsPlaced, without_place};
ghost use Rattle.pg_gate.specs.answer.Steps.{named, named_at};
ghost use Rattle.pg_gate.specs.inner.Causes.{HasFields};

use crate::answer::all_types::{AllTypes, PlacedCause};
use crate::answer::both_sides::BothSides;
use crate::answer::compile::Compiled;
use crate::answer::explaining::{Broken, explained};
use crate::answer::noting::noted;
use crate::answer::stepping::{PlacedSchemas, placed_schemas, step_of};
use pg_call::GateAllCall;
use pg_causes::{Cause, Overview, gate_all};
use pg_least::PairChoice;
use pg_lines::Step;
use pg_pairs::Pair;
use std::alloc::{AllocError, Global};

/// The fields of those numbers.
fn steps_at(
    alloc: Global,
    sides: &PlacedSchemas<'_>,
    pair: Pair,
    numbers: &[u32],
) -> Result<Vec<Step>, AllocError>
    ensures { IfOk result (λ steps. map named steps.items
        ≡ map (named_at sides.now.old.schema.now sides.now.new.schema.now pair) numbers.now) }
{
    let mut steps = Vec::with_capacity(alloc, numbers.len())?;
    for number in numbers {
        steps.push(step_of(alloc, sides, pair, *number)?)?;
    }
    Ok(steps)
}

/// The cause with its fields, and its readings where these are asked for.
fn placed(
    alloc: Global,
    sides: &PlacedSchemas<'_>,
    cause: Cause,
    explain: bool,
) -> Result<PlacedCause, AllocError>
    requires pair { IsPairOf sides.now.old.schema.now sides.now.new.schema.now cause.at.pair }
    requires fields { 1 ≤ length cause.numbers.items }
    ensures same { IfOk result (λ placed. placed.cause ≡ cause) }
    ensures placed { IfOk result
        (IsPlaced sides.now.old.schema.now sides.now.new.schema.now explain) }
{
    let pair = cause.at.pair;
    let field = step_of(alloc, sides, pair, cause.numbers[0])?;
    let others = steps_at(alloc, sides, pair, &cause.numbers[1..])?;
    let broken = Broken {
        pair,
        bytes: &cause.message,
    };
    let readings = explained(alloc, sides.old.schema, sides.new.schema, &broken, explain)?;
    Ok(PlacedCause {
        cause,
        field,
        others,
        readings,
    })
}

/// Each cause with its fields and readings.
fn placed_each(
    alloc: Global,
    sides: &PlacedSchemas<'_>,
    causes: Vec<Cause>,
    explain: bool,
) -> Result<Vec<PlacedCause>, AllocError>
    requires { AllByRecursion (HasFields sides.now.old.schema.now sides.now.new.schema.now)
        causes.items }
    ensures same { IfOk result (λ placed. map without_place placed.items ≡ causes.items) }
    ensures placed { IfOk result (λ placed. AllByRecursion
        (IsPlaced sides.now.old.schema.now sides.now.new.schema.now explain) placed.items) }
{
    let mut each = Vec::new(alloc);
    for cause in causes {
        each.push(placed(alloc, sides, cause, explain)?)?;
    }
    Ok(each)
}

/// The pair and the choice of each cause.
fn stages_of(alloc: Global, causes: &[Cause]) -> Result<Vec<PairChoice>, AllocError> {
    causes.iter().map(|cause| cause.at).collect(alloc)
}

/// Each cause between two sides, with its fields and readings. Where there is none, no file is gone
/// through.
fn all_placed(
    alloc: Global,
    old: &Compiled,
    new: &Compiled,
    causes: Vec<Cause>,
    explain: bool,
) -> Result<Vec<PlacedCause>, AllocError>
    requires { AllByRecursion (HasFields old.now.schema new.now.schema) causes.items }
    ensures same { IfOk result (λ placed. map without_place placed.items ≡ causes.items) }
    ensures placed { IfOk result (λ placed. AllByRecursion
        (IsPlaced old.now.schema new.now.schema explain) placed.items) }
{
    if causes.is_empty() {
        return Ok(Vec::new(alloc));
    }
    let stages = stages_of(alloc, &causes)?;
    let sides = placed_schemas(alloc, old, new, &stages)?;
    placed_each(alloc, &sides, causes, explain)
}

/// What is found of all message types of two sides that compiled, under the view, and what is noted
/// of them.
pub(crate) fn all_types(
    alloc: Global,
    both: &BothSides,
    asked: &GateAllCall<'_>,
) -> Result<AllTypes, AllocError>
    ensures { IfOk result (IsAllTypes asked.now.view both.now.old.schema both.now.new.schema
        asked.now.explain asked.now.notes) }
{
    let old = &both.old;
    let new = &both.new;
    // What holds of every schema.
    old.schema.parts();
    new.schema.parts();
    let Overview {
        causes,
        types,
        removed,
        added,
    } = gate_all(alloc, &old.schema, &new.schema, asked.view)?;
    Ok(AllTypes {
        causes: all_placed(alloc, old, new, causes, asked.explain)?,
        types,
        removed,
        added,
        notes: noted(alloc, old, new, asked.notes)?,
    })
}
