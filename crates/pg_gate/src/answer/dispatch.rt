//! What a call is answered, from its sources.
ghost use Rattle.std.specs.Prelude.{◌≡◌, IfErr, IfOk, OnErr};
ghost use Rattle.pg_cert.specs.ClaimView.{view_in};
ghost use Rattle.pg_cert.specs.Text.{IsClaimOf};
ghost use Rattle.pg_least.specs.Searched.{IsSearched};
ghost use Rattle.pg_schema.specs.Parts.{shape_of};
ghost use Rattle.pg_gate.specs.answer.AllTypes.{IsAllTypes};
ghost use Rattle.pg_gate.specs.answer.Answer.{IsRefusedRoot};
ghost use Rattle.pg_call.specs.Call.{gate_request, request_of};
ghost use Rattle.pg_gate.specs.Errors.{IsMemory};
ghost use Rattle.pg_gate.specs.Failures.{call_failures, side_failures};
ghost use Rattle.pg_gate.specs.answer.Grants.{Between, Grants, IsErrorFor, IsFindingOf, IsGateError, IsGateReply, IsReplyFor, IsSidesError, seen};
ghost use Rattle.pg_call.specs.Paths.{paths_in};
ghost use Rattle.pg_link.specs.walk.Reads.{Reads};
ghost use Rattle.pg_gate.specs.inner.Sources.{world_of};
ghost use Rattle.pg_gate.specs.inner.Reports.{Reports, ReportsAnswer, ReportsCertificate};

use crate::answer::all_types::AllTypes;
use crate::answer::both_sides::{BothSides, compile_both};
use crate::answer::causes::all_types;
use crate::answer::compile::Compiled;
use crate::answer::explaining::{Broken, explained};
use crate::answer::gate::gate_with;
use crate::answer::listing::{all_found, all_names, all_written};
use crate::answer::showing::shown;
use crate::answer::stepping::steps;
use crate::answer::verifying::verify;
use crate::call_error::CallError;
use crate::error::GateError;
use crate::print::refusal::refusal_for;
use crate::print::reply::{Finding, Reply};
use pg_call::{Call, GateAllCall, GateCall};
use pg_cert::{Certificate, to_text};
use pg_lines::Side;
use pg_link::Sources;
use pg_schema::Schema;
use std::alloc::{AllocError, Global};

/// What is reported of the answer with this certificate: the witness's bytes and steps, if any, and
/// on request its readings.
fn reported(
    alloc: Global,
    old: &Compiled,
    new: &Compiled,
    certificate: &Certificate,
    explain: bool,
) -> Result<Finding, AllocError>
    requires searched { IsSearched (view_in old.now.schema new.now.schema certificate.now)
        (shape_of old.now.schema) (shape_of new.now.schema) certificate.now.root certificate.now }
    requires claim { IsClaimOf old.now.schema new.now.schema certificate.now }
    ensures { IfOk result (ReportsAnswer old.now.schema new.now.schema certificate.now explain) }
{
    match certificate.witness() {
        Some(bytes) => {
            let broken = Broken {
                pair: certificate.root(),
                bytes,
            };
            let readings = explained(alloc, &old.schema, &new.schema, &broken, explain)?;
            Ok(Finding::Breaks {
                witness: Vec::from_slice(alloc, bytes)?,
                steps: steps(alloc, old, new, certificate)?,
                readings,
            })
        }
        None => Ok(Finding::Compatible),
    }
}

/// The certificate as a string, and whether a message breaks.
fn certified(
    alloc: Global,
    old: &Schema,
    new: &Schema,
    certificate: &Certificate,
) -> Result<Finding, AllocError>
    requires { IsClaimOf old.now new.now certificate.now }
    ensures { IfOk result (ReportsCertificate old.now new.now certificate.now) }
{
    Ok(Finding::Certified {
        text: to_text(alloc, old, new, certificate)?,
        breaks: certificate.witness().is_some(),
    })
}

/// What is reported of the answer with this certificate: on request the certificate alone.
fn finding_of(
    alloc: Global,
    old: &Compiled,
    new: &Compiled,
    certificate: &Certificate,
    asked: &GateCall<'_>,
) -> Result<Finding, AllocError>
    requires searched { IsSearched (view_in old.now.schema new.now.schema certificate.now)
        (shape_of old.now.schema) (shape_of new.now.schema) certificate.now.root certificate.now }
    requires claim { IsClaimOf old.now.schema new.now.schema certificate.now }
    ensures { IfOk result (Reports old.now.schema new.now.schema certificate.now
        asked.now.certificate_only asked.now.explain) }
{
    if asked.certificate_only {
        certified(alloc, &old.schema, &new.schema, certificate)
    } else {
        reported(alloc, old, new, certificate, asked.explain)
    }
}

/// What the gate finds from an old to a new side.
fn one_way(
    alloc: Global,
    old: &Compiled,
    new: &Compiled,
    asked: &GateCall<'_>,
) -> Result<Finding, GateError>
    ensures found { IfOk result (IsFindingOf asked.now.view old.now.schema new.now.schema
        asked.now.root.now asked.now.certificate_only asked.now.explain) }
    ensures refused { IfErr result
        (IsRefusedRoot old.now.schema new.now.schema asked.now.root.now) }
{
    // What holds of every schema.
    old.schema.parts();
    new.schema.parts();
    let answer = gate_with(alloc, &old.schema, &new.schema, asked.root, asked.view)?;
    let certificate = answer.certificate();
    let finding = finding_of(alloc, old, new, certificate, asked)?;
    Ok(finding)
}

/// What the gate answers of two sides that compiled: for the certificate alone, or in one direction
/// or both, under the same view.
fn between(
    alloc: Global,
    old: &Compiled,
    new: &Compiled,
    asked: &GateCall<'_>,
) -> Result<Reply, GateError>
    ensures found { IfOk result
        (IsGateReply old.now.schema new.now.schema (gate_request asked.now)) }
    ensures refused { IfErr result
        (IsRefusedRoot old.now.schema new.now.schema asked.now.root.now) }
{
    let forward = one_way(alloc, old, new, asked)?;
    if asked.certificate_only || !asked.both {
        return Ok(Reply::Found(forward));
    }
    let backward = one_way(alloc, new, old, asked)?;
    Ok(Reply::Both { forward, backward })
}

/// What the gate answers of the two sides.
fn find<S: Sources, T: Sources>(
    alloc: Global,
    asked: &GateCall<'_>,
    old: &mut S,
    new: &mut T,
) -> Result<Reply, GateError>
    ensures found { IfOk result (λ reply. Between
        (world_of S.Sources old.old (paths_in asked.now.files.old))
        (world_of T.Sources new.old (paths_in asked.now.files.new))
        (λ a b. IsGateReply a b (gate_request asked.now) reply)) }
    ensures refused { IfErr result (IsGateError asked.now.root.now
        (world_of S.Sources old.old (paths_in asked.now.files.old))
        (world_of T.Sources new.old (paths_in asked.now.files.new))) }
    ensures old_reads { Reads S.Sources old.old old.new (side_failures Side.Old result) }
    ensures new_reads { Reads T.Sources new.old new.new (side_failures Side.New result) }
{
    let both = compile_both(alloc, &asked.files, !asked.certificate_only, old, new)?;
    between(alloc, &both.old, &both.new, asked)
}

/// What is found of all message types of two sides that compiled.
fn all_between(
    alloc: Global,
    both: &BothSides,
    asked: &GateAllCall<'_>,
) -> Result<AllTypes, GateError>
    ensures found { IfOk result (IsAllTypes asked.now.view both.now.old.schema both.now.new.schema
        asked.now.explain asked.now.notes) }
    ensures refused { IfErr result IsMemory }
{
    Ok(all_types(alloc, both, asked)?)
}

/// What is found of all message types of the two sides.
pub(crate) fn find_all<S: Sources, T: Sources>(
    alloc: Global,
    asked: &GateAllCall<'_>,
    old: &mut S,
    new: &mut T,
) -> Result<AllTypes, GateError>
    ensures found { IfOk result (λ all. Between
        (world_of S.Sources old.old (paths_in asked.now.files.old))
        (world_of T.Sources new.old (paths_in asked.now.files.new))
        (λ a b. IsAllTypes asked.now.view a b asked.now.explain asked.now.notes all)) }
    ensures refused { IfErr result (IsSidesError
        (world_of S.Sources old.old (paths_in asked.now.files.old))
        (world_of T.Sources new.old (paths_in asked.now.files.new))) }
    ensures old_reads { Reads S.Sources old.old old.new (side_failures Side.Old result) }
    ensures new_reads { Reads T.Sources new.old new.new (side_failures Side.New result) }
{
    match compile_both(alloc, &asked.files, true, old, new) {
        Ok(both) => all_between(alloc, &both, asked),
        Err(error) => Err(error),
    }
}

/// What is answered to a call, where nothing is refused.
fn reply_to<S: Sources, T: Sources>(
    alloc: Global,
    call: &Call<'_>,
    old: &mut S,
    new: &mut T,
) -> Result<Reply, CallError>
    ensures answered { IfOk result (IsReplyFor
        (seen S.Sources old.old old.new) (seen T.Sources new.old new.new) (request_of call.now)) }
    ensures refused { IfErr result (IsErrorFor
        (seen S.Sources old.old old.new) (seen T.Sources new.old new.new) (request_of call.now)) }
    ensures old_reads { Reads S.Sources old.old old.new (call_failures Side.Old result) }
    ensures new_reads { Reads T.Sources new.old new.new (call_failures Side.New result) }
{
    match call {
        Call::Compile(files) => Ok(Reply::Set(all_written(alloc, old, files)?)),
        Call::Gate(asked) => Ok(find(alloc, asked, old, new)?),
        Call::GateAll(asked) => Ok(Reply::All(all_found(alloc, asked, old, new)?)),
        Call::Show(asked) => Ok(Reply::Shown(shown(alloc, old, asked)?)),
        Call::Verify {
            files,
            certificate,
            ..
        } => Ok(Reply::Found(verify(alloc, files, certificate, old, new)?)),
        Call::Types { files, .. } => Ok(Reply::Types(all_names(alloc, old, files)?)),
    }
}

/// The answer to a call, from its sources.
pub(crate) fn answer<S: Sources, T: Sources>(
    alloc: Global,
    call: &Call<'_>,
    old: &mut S,
    new: &mut T,
) -> Result<Reply, AllocError>
    ensures granted { IfOk result (Grants
        (seen S.Sources old.old old.new) (seen T.Sources new.old new.new) (request_of call.now)) }
    ensures lacking { OnErr result ((S.failures old.new ≡ S.failures old.old)
        × (T.failures new.new ≡ T.failures new.old)) }
    ensures old_given { S.may_give old.new ≡ S.may_give old.old }
    ensures old_lacked { S.may_lack old.new ≡ S.may_lack old.old }
    ensures new_given { T.may_give new.new ≡ T.may_give new.old }
    ensures new_lacked { T.may_lack new.new ≡ T.may_lack new.old }
{
    match reply_to(alloc, call, old, new) {
        Ok(reply) => Ok(reply),
        Err(CallError::Gate(GateError::Memory)) => Err(AllocError),
        Err(error) => match refusal_for(call, error) {
            Some(refusal) => Ok(Reply::Refused(refusal)),
            None => unreachable!(),
        },
    }
}
