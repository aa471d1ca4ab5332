//! The promises of `pg_show`, said again of calls of it: the edits of `must-fail` turn each answer,
//! and every one must be refused.
#![tactic(auto)]

ghost use Rattle.std.specs.Prelude.{◌≡◌, ◌<◌, ◌⊎◌, ℕ, length, true, is_some, None, Some, IfErr, IfOk, OnOk, string_bytes};
ghost use Rattle.pg_schema.specs.Parts.{shape_of};
ghost use Rattle.pg_schema.specs.Shape.{fields};
ghost use Rattle.pg_dyn.specs.reading.Decoding.{dec};
ghost use Rattle.pg_dyn.specs.reading.Faults.{TooDeepIn};
ghost use Rattle.pg_dyn.specs.declared.error.DynError.TheVariants as errors;
ghost use Rattle.pg_show.specs.Codes.{code_of};
ghost use Rattle.pg_show.specs.Shown.{Refuses, Shows, most_levels, names_of};
ghost use Rattle.pg_show.specs.declared.error.HexError.TheVariants.{BadHex, Memory};
ghost use Rattle.pg_show.specs.Hex as spec;

use pg_dyn::DynError;
use pg_schema::{Schema, TypeId};
use pg_show::HexError;
use std::alloc::Global;

/// What `show` answers.
pub fn show(
    alloc: Global,
    schema: &Schema,
    type_id: TypeId,
    bytes: &[u8],
) -> Result<String, DynError>
    requires type_id { type_id.index < length (shape_of schema.now) }
    ensures text { IfOk result (λ text. Shows (names_of schema.now)
        (shape_of schema.now) type_id bytes.now (string_bytes text)) }
    ensures within { OnOk result ((place : ℕ)
        → TooDeepIn (shape_of schema.now) most_levels
        (fields (shape_of schema.now) type_id) bytes.now place → ⊥) }
    ensures refused { IfErr result (Refuses (shape_of schema.now) type_id bytes.now) }
    ensures lacking { IfErr result (λ e. e ≡ errors.Memory
        → (is_some (dec (shape_of schema.now) type_id bytes.now) ≡ true)
        × ((place : ℕ) → TooDeepIn (shape_of schema.now) most_levels
        (fields (shape_of schema.now) type_id) bytes.now place → ⊥)) }
{
    pg_show::show(alloc, schema, type_id, bytes)
}

/// What `bytes_of_hex` answers.
pub fn bytes_of_hex(alloc: Global, word: &str) -> Result<Vec<u8>, HexError>
    ensures bytes { IfOk result (λ bytes. spec.bytes_in word.now ≡ Some bytes.items) }
    ensures refused { IfErr result (λ e. (e ≡ Memory)
        ⊎ ((e ≡ BadHex) × (spec.bytes_in word.now ≡ None))) }
{
    pg_show::bytes_of_hex(alloc, word)
}

/// What `HexError::code` answers.
pub fn code(error: HexError) -> u16
    ensures { result ≡ code_of error }
{
    error.code()
}
