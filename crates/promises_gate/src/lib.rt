//! The promises of `gate`, `gate_with` and `relay` of `pg_gate`, and of what becomes a `GateError`
//! and its code, said again of calls of them: the edits of `must-fail` turn each answer, and every
//! one must be refused.
#![tactic(auto)]

mod relaying;

ghost use Rattle.std.specs.Prelude.{◌≡◌, Err, IfErr, IfOk};
ghost use Rattle.pg_cert.specs.declared.error.CertError.TheVariants as faults;
ghost use Rattle.pg_cert.specs.Verdict.{verdict_of};
ghost use Rattle.pg_least.specs.Searched.{CarriesWitness};
ghost use Rattle.pg_pairs.specs.views.EnumView.{by_numbers};
ghost use Rattle.pg_pairs.specs.views.NamedView.{seen_under};
ghost use Rattle.pg_schema.specs.Parts.{shape_of};
ghost use Rattle.pg_gate.specs.answer.Answer.{IsAnswer, IsRefusedRoot, certificate_of};
ghost use Rattle.pg_gate.specs.print.Codes.{code_of};
ghost use Rattle.pg_gate.specs.answer.ViewAnswer.{IsAnswerUnder};
ghost use Rattle.pg_gate.specs.declared.error.GateError.TheVariants as errors;
ghost use Rattle.pg_least.specs.Loss.{Lacks};

use pg_cert::{CertError, Verdict};
use pg_gate::{Answer, GateError, SinkError, ViewName};
use pg_schema::Schema;
pub use relaying::relay;
use std::alloc::{AllocError, AllocFailed, Global};

/// What `gate` answers.
pub fn gate(alloc: Global, old: &Schema, new: &Schema, root: &str) -> Result<Answer, GateError>
    ensures answer { IfOk result (IsAnswer old.now new.now root.now) }
    ensures carried { IfOk result (λ answer. CarriesWitness by_numbers (shape_of old.now)
        (shape_of new.now) (certificate_of answer)) }
    ensures old_missing { Lacks old.now root.now → result ≡ Err errors.RootMissingOld }
    ensures new_missing { (Lacks old.now root.now → ⊥) → Lacks new.now root.now
        → result ≡ Err errors.RootMissingNew }
    ensures refused { IfErr result (IsRefusedRoot old.now new.now root.now) }
{
    pg_gate::gate(alloc, old, new, root)
}

/// What `gate_with` answers.
pub fn gate_with(
    alloc: Global,
    old: &Schema,
    new: &Schema,
    root: &str,
    view: ViewName,
) -> Result<Answer, GateError>
    ensures answer { IfOk result (IsAnswerUnder view old.now new.now root.now) }
    ensures carried { IfOk result (λ answer. CarriesWitness (seen_under view old.now new.now)
        (shape_of old.now) (shape_of new.now) (certificate_of answer)) }
    ensures old_missing { Lacks old.now root.now → result ≡ Err errors.RootMissingOld }
    ensures new_missing { (Lacks old.now root.now → ⊥) → Lacks new.now root.now
        → result ≡ Err errors.RootMissingNew }
    ensures refused { IfErr result (IsRefusedRoot old.now new.now root.now) }
{
    pg_gate::gate_with(alloc, old, new, root, view)
}

/// An answer, and what the checker says of its certificate.
pub struct WithVerdict {
    pub answer: Answer,
    pub verdict: Result<Verdict, CertError>,
}

/// What `gate_with` answers, and what the checker says of that: it takes the certificate, under the
/// view that the certificate names, says just what it shows, and is refused only memory.
pub fn checked(
    alloc: Global,
    old: &Schema,
    new: &Schema,
    root: &str,
    view: ViewName,
) -> Result<WithVerdict, GateError>
    ensures answer { IfOk result
        (λ checked. IsAnswerUnder view old.now new.now root.now checked.answer) }
    ensures verdict { IfOk result (λ checked. IfOk checked.verdict
        (λ verdict. verdict ≡ verdict_of (certificate_of checked.answer))) }
    ensures memory { IfOk result (λ checked. IfErr checked.verdict
        (λ error. error ≡ faults.Memory)) }
    ensures refused { IfErr result (IsRefusedRoot old.now new.now root.now) }
{
    let answer = gate_with(alloc, old, new, root, view)?;
    let verdict = match &answer {
        Answer::Compatible(certificate) => pg_cert::check(alloc, old, new, certificate),
        Answer::Breaks { certificate, .. } => pg_cert::check(alloc, old, new, certificate),
    };
    Ok(WithVerdict { answer, verdict })
}

/// What `GateError::code` answers.
pub fn code(error: &GateError) -> u16
    ensures { result ≡ code_of error.now }
{
    error.code()
}

/// What `GateError::from` answers of a refused growth.
pub fn error_of(error: AllocError) -> GateError
    ensures { result ≡ errors.Memory }
{
    GateError::from(error)
}

/// What `GateError::from` answers of a refused growth that hands back a value.
pub fn error_of_failed<T: Drop>(failed: AllocFailed<T>) -> GateError
    ensures { result ≡ errors.Memory }
{
    GateError::from(failed)
}

/// What `GateError::from` answers of a sink that refuses.
pub fn error_of_sink(refusal: SinkError) -> GateError
    ensures { result ≡ errors.WriteFailed }
{
    GateError::from(refusal)
}
