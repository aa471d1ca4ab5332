//! From parts that come from no source file to a checked schema.

mod enum_part_faults;
mod oneof_members;
mod part_faults;

ghost use Rattle.std.specs.Prelude.{◌≡◌, IfErr, IfOk, OnOk};
ghost use Rattle.pg_schema.specs.rules.Sound.{IsSound};
ghost use Rattle.pg_check.specs.admitting.PartErrors.{IsRefusedOf};

use crate::admitting::part_faults::parts_fault;
use crate::error::{CheckError, error_of};
use pg_link::Place;
use pg_schema::{Parts, PartsError, Schema};
use std::alloc::Global;

/// Why the parts are none of a schema.
fn refusal_of(alloc: Global, parts: &Parts) -> CheckError
    requires { IsSound parts.now → ⊥ }
    ensures { IsRefusedOf parts.now result }
{
    let nowhere = Place {
        file: String::new(alloc),
        line: 0,
        column: 0,
    };
    match parts_fault(alloc, parts) {
        Ok(Some(fault)) => error_of(fault.rule, nowhere),
        Ok(None) => CheckError::BadParts(nowhere),
        Err(_) => CheckError::Memory,
    }
}

/// The schema of parts that come from no source file, as those of a descriptor set.
///
/// It reports `Memory` where memory runs out, and a broken rule by its error, without a position
/// (no file, line and column 0): of the message types in their order, then the enums and the files,
/// the first that breaks one, and of it the lowest code; more than 4,096 message types come before.
/// Parts that break no rule of these and are no schema all the same are `BadParts`. Refused parts
/// are dropped (proto3 language guide, "Defining A Message Type" and "Enumerations").
pub fn admit(alloc: Global, parts: Parts) -> Result<Schema, CheckError>
    ensures admitted { IfOk result (λ schema. schema ≡ parts) }
    ensures sound { OnOk result (IsSound parts) }
    ensures refused { IfErr result (IsRefusedOf parts) }
{
    match Schema::from_parts(alloc, parts) {
        Ok(schema) => Ok(schema),
        Err((PartsError::Memory, _)) => Err(CheckError::Memory),
        Err((PartsError::Invariant, parts)) => Err(refusal_of(alloc, &parts)),
    }
}
