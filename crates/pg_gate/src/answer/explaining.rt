//! A message that breaks, as both sides read it.
ghost use Rattle.std.specs.Prelude.{◌≡◌, ◌<◌, length, IfOk, string_bytes};
ghost use Rattle.pg_cert.specs.Text.{IsPairOf};
ghost use Rattle.pg_schema.specs.Parts.{shape_of};
ghost use Rattle.pg_gate.specs.answer.Showing.{AreReadings, IsExplained, IsReading};
ghost use Rattle.pg_gate.specs.print.Refusals as refusals;
ghost use Rattle.pg_lines.specs.Text as spec;

use crate::print::refusal::refusal_of_bytes;
use crate::print::reply::Readings;
use pg_dyn::DynError;
use pg_lines::Refusal;
use pg_pairs::Pair;
use pg_schema::{Schema, TypeId};
use pg_show::show;
use std::alloc::{AllocError, Global};

/// The line of the refusal.
fn line_of(alloc: Global, refusal: &Refusal) -> Result<String, AllocError>
    ensures { IfOk result (λ text. string_bytes text ≡ spec.refusal_of refusal.now) }
{
    format!(in alloc; "{refusal}")
}

/// The line of the refusal that `show` prints for bytes.
fn refusal_line(alloc: Global, error: DynError) -> Result<String, AllocError>
    ensures { IfOk result (λ text. string_bytes text
        ≡ spec.refusal_of (refusals.refusal_of_bytes error)) }
{
    let refusal = refusal_of_bytes(error);
    line_of(alloc, &refusal)
}

/// What `show` prints of the bytes by the type.
fn reading(
    alloc: Global,
    schema: &Schema,
    type_id: TypeId,
    bytes: &[u8],
) -> Result<String, AllocError>
    requires { type_id.index < length (shape_of schema.now) }
    ensures { IfOk result (λ text. IsReading schema.now type_id bytes.now (string_bytes text)) }
{
    match show(alloc, schema, type_id, bytes) {
        Ok(text) => Ok(text),
        Err(DynError::Memory) => Err(AllocError),
        Err(error) => refusal_line(alloc, error),
    }
}

/// A message that breaks: its bytes, and the pair of its types.
#[derive(Clone, Copy)]
pub(crate) struct Broken<'a> {
    pub pair: Pair,
    pub bytes: &'a [u8],
}

/// The bytes, as the old and as the new type of the pair read them.
fn readings(
    alloc: Global,
    old: &Schema,
    new: &Schema,
    broken: &Broken<'_>,
) -> Result<Readings, AllocError>
    requires { IsPairOf old.now new.now broken.now.pair }
    ensures { IfOk result (AreReadings old.now new.now broken.now.pair broken.now.bytes.now) }
{
    let by_old = reading(alloc, old, broken.pair.old, broken.bytes)?;
    let by_new = reading(alloc, new, broken.pair.new, broken.bytes)?;
    Ok(Readings {
        old: by_old,
        new: by_new,
    })
}

/// The readings of the bytes, where they are asked for.
pub(crate) fn explained(
    alloc: Global,
    old: &Schema,
    new: &Schema,
    broken: &Broken<'_>,
    explain: bool,
) -> Result<Option<Readings>, AllocError>
    requires { IsPairOf old.now new.now broken.now.pair }
    ensures { IfOk result
        (IsExplained explain old.now new.now broken.now.pair broken.now.bytes.now) }
{
    if !explain {
        return Ok(None);
    }
    let readings = readings(alloc, old, new, broken)?;
    Ok(Some(readings))
}
