//! The promises of `pg_check`, said again of calls of it: the edits of `must-fail` turn each
//! answer, and every one must be refused.
#![tactic(auto)]

ghost use Rattle.std.specs.Prelude.{◌≡◌, IfErr, IfOk, OnOk};
ghost use Rattle.pg_schema.specs.rules.Sound.{IsSound};
ghost use Rattle.pg_check.specs.Codes as codes;
ghost use Rattle.pg_check.specs.Declares.{Declares};
ghost use Rattle.pg_check.specs.Errors as spec;
ghost use Rattle.pg_check.specs.admitting.PartErrors.{IsRefusedOf};
ghost use Rattle.pg_check.specs.parts.Sources.{linked_sources};
ghost use Rattle.pg_check.specs.rules.KeepsRules.{KeepsRules};
ghost use Rattle.pg_schema.specs.standing.StandingParts.{StandingParts};
ghost use Rattle.pg_check.specs.declared.error.CheckError.TheVariants.{Memory};

mod resolved;

use pg_check::CheckError;
use pg_link::{Linked, Place};
use pg_schema::{Parts, Schema};
pub use resolved::build_resolved;
use std::alloc::{AllocError, Global};

/// What `build` answers.
pub fn build(alloc: Global, linked: &Linked) -> Result<Schema, CheckError>
    ensures { IfOk result (Declares (linked_sources linked.now.files)) }
{
    pg_check::build(alloc, linked)
}

/// How the parts that `build` answers are arranged. Only an edit uses the other parts.
pub fn build_stands(alloc: Global, files: &Linked, _others: Parts) -> Result<Schema, CheckError>
    ensures { IfOk result StandingParts }
{
    pg_check::build(alloc, files)
}

/// What `build` refuses.
pub fn build_refused(alloc: Global, bad: &Linked) -> Result<Schema, CheckError>
    ensures { IfErr result (spec.IsRefused (linked_sources bad.now.files)) }
{
    pg_check::build(alloc, bad)
}

/// What the files keep to of which `build` answers a schema. Only an edit uses the other parts.
pub fn build_keeps(alloc: Global, kept: &Linked, _others: Parts) -> Result<Schema, CheckError>
    ensures { IfOk result (λ _schema. KeepsRules (linked_sources kept.now.files)) }
{
    pg_check::build(alloc, kept)
}

/// What `admit` answers.
pub fn admit(alloc: Global, parts: Parts) -> Result<Schema, CheckError>
    ensures admitted { IfOk result (λ schema. schema ≡ parts) }
    ensures sound { OnOk result (IsSound parts) }
{
    pg_check::admit(alloc, parts)
}

/// What `admit` refuses.
pub fn admit_refused(alloc: Global, bad: Parts) -> Result<Schema, CheckError>
    ensures { IfErr result (IsRefusedOf bad) }
{
    pg_check::admit(alloc, bad)
}

/// What `CheckError::code` answers.
pub fn code(error: &CheckError) -> u16
    ensures { result ≡ codes.code_of error.now }
{
    error.code()
}

/// What `CheckError::place` answers.
pub fn place(error: CheckError) -> Option<Place>
    ensures { result ≡ codes.place_of error }
{
    error.place()
}

/// What `CheckError::from` answers of a refused growth. Only an edit uses the memory.
pub fn error_of(_alloc: Global, error: AllocError) -> CheckError
    ensures { result ≡ Memory }
{
    CheckError::from(error)
}
