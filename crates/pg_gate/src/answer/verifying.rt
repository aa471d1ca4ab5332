//! What a certificate shows of two sides.
ghost use Rattle.std.specs.Prelude.{◌≡◌, List, ℕ, IfErr, IfOk, IsTrue, OnOk, string_bytes};
ghost use Rattle.pg_cert.specs.Verdict.{verdict_of};
ghost use Rattle.pg_cert.specs.ClaimView.{HoldsOf, SaysOf};
ghost use Rattle.pg_cert.specs.Text.{Certifies, names_of};
ghost use Rattle.pg_gate.specs.Failures.{call_failures};
ghost use Rattle.pg_gate.specs.answer.Grants.{IsVerified, IsVerifyError, as_given};
ghost use Rattle.pg_call.specs.Paths.{paths_in};
ghost use Rattle.pg_link.specs.walk.Reads.{Reads};
ghost use Rattle.pg_gate.specs.inner.Sources.{world_of};
ghost use Rattle.pg_gate.specs.answer.Verified as spec;
ghost use Rattle.pg_gate.specs.inner.Claims.{IsClaimError, IsClaimRefusal, IsFound, IsUngiven, IsUntaken};

use crate::answer::both_sides::{BothSides, compile_both};
use crate::answer::verified::Verified;
use crate::call_error::{CallError, CertificateFault, ClaimFault};
use crate::error::GateError;
use crate::print::reply::Finding;
use pg_call::BothFiles;
use pg_cert::{CertError, Certificate, Verdict, check, from_text};
use pg_lines::{Location, PairNames, Side};
use pg_link::{SourceError, Sources};
use pg_pairs::Pair;
use pg_schema::{Schema, TypeId};
use std::alloc::{AllocError, Global};

/// The bytes of the certificate, for which the source is asked by its path as it is given.
fn read<S: Sources>(alloc: Global, source: &mut S, path: &str) -> Result<Vec<u8>, CallError>
    ensures given { IfOk result (λ bytes. IsTrue (S.may_give source.old path.now bytes.items)) }
    ensures refused { IfErr result (IsUngiven (S.may_lack source.old) path.now) }
    ensures reads { Reads S.Sources source.old source.new (call_failures Side.Old result) }
{
    // A fault names the path; room for it is taken before the source can fail.
    let file = String::from_str(alloc, path)?;
    match source.read(alloc, path) {
        Ok(bytes) => Ok(bytes),
        Err(SourceError::Missing) => Err(CallError::Certificate(CertificateFault::Missing(file))),
        Err(SourceError::Failed) => Err(CallError::Certificate(CertificateFault::Failed(file))),
        Err(SourceError::Memory) => Err(CallError::Gate(GateError::Memory)),
    }
}

/// The full name of the type.
pub(crate) fn name_of(alloc: Global, schema: &Schema, id: TypeId) -> Result<String, AllocError>
    ensures { IfOk result (λ name. string_bytes name ≡ names_of schema.now id) }
{
    match schema.message_type(id) {
        Some(message_type) => String::from_str(alloc, message_type.name.as_str()),
        None => Ok(String::new(alloc)),
    }
}

/// The full names of the pair's types.
fn pair_names(
    alloc: Global,
    old: &Schema,
    new: &Schema,
    pair: Pair,
) -> Result<PairNames, AllocError>
    ensures { IfOk result (spec.AreNames old.now new.now pair) }
{
    Ok(PairNames {
        old: name_of(alloc, old, pair.old)?,
        new: name_of(alloc, new, pair.new)?,
    })
}

/// Where a checker's error is reported: at the pair that it is of, or nowhere.
fn location_of(
    alloc: Global,
    old: &Schema,
    new: &Schema,
    error: CertError,
) -> Result<Location, AllocError>
    ensures { IfOk result (spec.IsPlaceOf old.now new.now error) }
{
    match error {
        CertError::PairMissing { pair } => {
            let names = pair_names(alloc, old, new, pair)?;
            Ok(Location::AtPair(names))
        }
        CertError::BoundTooHigh { pair, number, case } => {
            let names = pair_names(alloc, old, new, pair)?;
            Ok(Location::AtChoice {
                names,
                number,
                case,
            })
        }
        CertError::Memory
        | CertError::BadText
        | CertError::RootMissing
        | CertError::WitnessNotWritten
        | CertError::WitnessLength
        | CertError::WitnessKeeps => Ok(Location::Nowhere),
    }
}

/// The fault of a certificate's bytes, by the checker's error.
fn fault_of(
    alloc: Global,
    old: &Schema,
    new: &Schema,
    error: CertError,
) -> Result<ClaimFault, AllocError>
    ensures same { IfOk result (λ fault. fault.error ≡ error) }
    ensures placed { IfOk result (λ fault. spec.IsPlaceOf old.now new.now error fault.location) }
{
    let location = location_of(alloc, old, new, error)?;
    Ok(ClaimFault { error, location })
}

/// The error that reports a checker's error. It says why bytes are refused where that one does.
fn reported(alloc: Global, old: &Schema, new: &Schema, error: CertError) -> CallError
    ensures { (bytes : List ℕ) → IsClaimRefusal old.now new.now bytes error
        → IsClaimError old.now new.now bytes result }
{
    if let CertError::Memory = error {
        return CallError::Gate(GateError::Memory);
    }
    match fault_of(alloc, old, new, error) {
        Ok(fault) => CallError::Certificate(CertificateFault::Refused(fault)),
        Err(_) => CallError::Gate(GateError::Memory),
    }
}

/// The certificate that the bytes spell.
fn spelled(
    alloc: Global,
    old: &Schema,
    new: &Schema,
    bytes: &[u8],
) -> Result<Certificate, CallError>
    ensures certifies { IfOk result (Certifies old.now new.now bytes.now) }
    ensures refused { IfErr result (IsClaimError old.now new.now bytes.now) }
{
    match from_text(alloc, old, new, bytes) {
        Ok(certificate) => Ok(certificate),
        Err(error) => Err(reported(alloc, old, new, error)),
    }
}

/// The verdict of the certificate, if it holds under the view that it names.
fn checked(
    alloc: Global,
    old: &Schema,
    new: &Schema,
    certificate: &Certificate,
) -> Result<Verdict, CallError>
    ensures holds { OnOk result (HoldsOf old.now new.now certificate.now) }
    ensures verdict { IfOk result (λ verdict. verdict ≡ verdict_of certificate.now) }
    ensures says { IfOk result (SaysOf old.now new.now certificate.now) }
    ensures refused { IfErr result (λ error. (bytes : List ℕ)
        → Certifies old.now new.now bytes certificate.now
        → IsClaimError old.now new.now bytes error) }
{
    match check(alloc, old, new, certificate) {
        Ok(verdict) => Ok(verdict),
        Err(error) => Err(reported(alloc, old, new, error)),
    }
}

/// How many bytes the witness has, where there is one.
fn witness_length(certificate: &Certificate) -> usize
    ensures { result ≡ spec.witness_length certificate.now.witness }
{
    match certificate.witness() {
        Some(bytes) => bytes.len(),
        None => 0,
    }
}

/// What the certificate of these bytes shows of two schemas.
fn held(alloc: Global, old: &Schema, new: &Schema, bytes: &[u8]) -> Result<Finding, CallError>
    ensures found { IfOk result (spec.IsHeldBy old.now new.now bytes.now) }
    ensures refused { IfErr result (IsClaimError old.now new.now bytes.now) }
{
    let certificate = spelled(alloc, old, new, bytes)?;
    let verdict = checked(alloc, old, new, &certificate)?;
    let root = certificate.root();
    let name = name_of(alloc, old, root.old)?;
    let length = witness_length(&certificate);
    Ok(Finding::Verified(Verified {
        name,
        verdict,
        length,
    }))
}

/// What the certificate at this path of the source shows of two sides that compiled.
fn verify_between<S: Sources>(
    alloc: Global,
    both: &BothSides,
    source: &mut S,
    path: &str,
) -> Result<Finding, CallError>
    ensures found { IfOk result (IsFound (as_given (S.may_give source.old) (S.may_lack source.old))
        path.now both.now.old.schema both.now.new.schema) }
    ensures refused { IfErr result
        (IsUntaken (as_given (S.may_give source.old) (S.may_lack source.old))
        path.now both.now.old.schema both.now.new.schema) }
    ensures reads { Reads S.Sources source.old source.new (call_failures Side.Old result) }
{
    let bytes = read(alloc, source, path)?;
    held(alloc, &both.old.schema, &both.new.schema, &bytes)
}

/// What the certificate shows of the two sides. It is asked of the old source, after both sides
/// compiled.
pub(crate) fn verify<S: Sources, T: Sources>(
    alloc: Global,
    files: &BothFiles<'_>,
    certificate: &str,
    old: &mut S,
    new: &mut T,
) -> Result<Finding, CallError>
    ensures found { IfOk result (IsVerified certificate.now
        (as_given (S.may_give old.old) (S.may_lack old.old))
        (world_of S.Sources old.old (paths_in files.now.old))
        (world_of T.Sources new.old (paths_in files.now.new))) }
    ensures refused { IfErr result (IsVerifyError certificate.now
        (as_given (S.may_give old.old) (S.may_lack old.old))
        (world_of S.Sources old.old (paths_in files.now.old))
        (world_of T.Sources new.old (paths_in files.now.new))) }
    ensures old_reads { Reads S.Sources old.old old.new (call_failures Side.Old result) }
    ensures new_reads { Reads T.Sources new.old new.new (call_failures Side.New result) }
{
    match compile_both(alloc, files, false, old, new) {
        Ok(both) => verify_between(alloc, &both, old, certificate),
        Err(error) => Err(CallError::Gate(error)),
    }
}
