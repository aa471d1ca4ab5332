//! The whole program: arguments, call, answer, output, sink and status.
ghost use Rattle.std.specs.Prelude.{◌≡◌, ◌≢◌, ◌⊎◌, ◌+◌, IfErr, IfOk, IsErrOf, OnOk};
ghost use Rattle.clap.specs.Walk.{texts};
ghost use Rattle.clap.specs.Words.{kind_of};
ghost use Rattle.pg_call.specs.Call.{IsCall, IsRefused, request_of};
ghost use Rattle.pg_gate.specs.answer.Grants.{Grants, seen};
ghost use Rattle.pg_gate.specs.print.Printed.{is_json, root_of};
ghost use Rattle.pg_gate.specs.Run.{Begins, IsRunError, Keeps, MayLack, Prints, failures_in};

use crate::answer::dispatch::answer;
use crate::error::GateError;
use crate::print::refusal::USAGE;
use clap::error::ErrorKind;
use pg_call::{Call, call_of, matches_of};
use pg_lines::{Sink, write_all};
use pg_link::Sources;
use std::alloc::Global;

/// The name of the call's root types, where it has one.
fn root<'a>(call: &Call<'a>) -> &'a str
    ensures { result.now ≡ root_of (request_of call.now) }
{
    match call {
        Call::Gate(asked) => asked.root,
        Call::Compile(_)
        | Call::GateAll(_)
        | Call::Show(_)
        | Call::Verify { .. }
        | Call::Types { .. } => "",
    }
}

/// Whether the call asks for JSON.
fn asks_for_json(call: &Call<'_>) -> bool
    ensures { result ≡ is_json (request_of call.now) }
{
    match call {
        Call::Compile(_) => false,
        Call::Gate(asked) => asked.json,
        Call::GateAll(asked) => asked.json,
        Call::Show(asked) => asked.json,
        Call::Verify { json, .. } | Call::Types { json, .. } => *json,
    }
}

/// Writes why `clap` doesn't take the arguments, as it says it itself.
fn usage<W: Sink>(alloc: Global, error: &clap::Error, sink: &mut W) -> Result<u8, GateError>
    ensures usage { IfOk result (λ status.
        (status ≡ USAGE) × (kind_of error.now ≢ ErrorKind.OutOfMemory)) }
    ensures refused { IsErrOf result GateError.WriteFailed
        → kind_of error.now ≢ ErrorKind.OutOfMemory }
    ensures only { IfErr result IsRunError }
    ensures untouched { IsErrOf result GateError.Memory → W.taken sink.new ≡ W.taken sink.old }
    ensures kept { Keeps (W.taken sink.old) (W.taken sink.new) }
    ensures counted { W.failures sink.new ≡ W.failures sink.old + failures_in result }
{
    if error.kind() == ErrorKind::OutOfMemory {
        return Err(GateError::Memory);
    }
    let text = format!(in alloc; "{error}")?;
    write_all(sink, text.as_bytes())?;
    Ok(USAGE)
}

/// The whole program, on the arguments after its name: answers the call from its sources, writes
/// the answer's output to the sink, in words or as JSON, and gives the exit status.
///
/// 0: compatible, or a set is written, a message shown, or types named. 1: breaks, in either of two
/// directions, or in one of all types. 2: refused, or one of all types is removed. 3: a source
/// failed. 4: help, a bad command line, or a side names no file. 5: a certificate gives only a
/// lower bound on the length of a message that breaks. The only errors are `Memory`, with the sink
/// untouched, and `WriteFailed`, after which the sink took a beginning of the output.
pub fn run<S: Sources, T: Sources, W: Sink>(
    alloc: Global,
    words: &[&str],
    old: &mut S,
    new: &mut T,
    sink: &mut W,
) -> Result<u8, GateError>
    // Only arguments that `clap` doesn't take end with the status of usage, which leave the sources
    // as they were; and a call with a side that names no file, which is answered.
    ensures usage { IfOk result (λ status. status ≡ USAGE
        → (IsRefused (texts words.now) × (old.new ≡ old.old) × (new.new ≡ new.old))
        ⊎ Prints (Grants (seen S.Sources old.old old.new) (seen T.Sources new.old new.new))
        (texts words.now) status (W.taken sink.old) (W.taken sink.new)) }

    // Else the sink took exactly the output of the arguments' call and an answer granted to it.
    ensures printed { IfOk result (λ status. status ≢ USAGE → Prints
        (Grants (seen S.Sources old.old old.new) (seen T.Sources new.old new.new))
        (texts words.now) status (W.taken sink.old) (W.taken sink.new)) }

    // A sink that fails took a beginning of it; or `clap` doesn't take the arguments, and the
    // sources are as they were. Memory that fails leaves the sink alone.
    ensures begun { IsErrOf result GateError.WriteFailed → Begins
        (Grants (seen S.Sources old.old old.new) (seen T.Sources new.old new.new))
        (texts words.now) (W.taken sink.old) (W.taken sink.new)
        ⊎ (IsRefused (texts words.now) × (old.new ≡ old.old) × (new.new ≡ new.old)) }
    ensures only { IfErr result IsRunError }
    ensures untouched { IsErrOf result GateError.Memory → W.taken sink.new ≡ W.taken sink.old }
    ensures kept { Keeps (W.taken sink.old) (W.taken sink.new) }
    ensures counted { W.failures sink.new ≡ W.failures sink.old + failures_in result }

    // Arguments that are no call leave the sources as they were. Where memory runs out, no source
    // failed, or as an answer reports that is granted.
    ensures uncalled { ¬ (IsCall (texts words.now)) → (old.new ≡ old.old) × (new.new ≡ new.old) }
    ensures lacking { IsErrOf result GateError.Memory → MayLack
        (Grants (seen S.Sources old.old old.new) (seen T.Sources new.old new.new))
        (texts words.now) ((S.failures old.new ≡ S.failures old.old)
        × (T.failures new.new ≡ T.failures new.old)) }

    // The sources' reads leave what they may give and lack.
    ensures old_given { S.may_give old.new ≡ S.may_give old.old }
    ensures old_lacked { S.may_lack old.new ≡ S.may_lack old.old }
    ensures new_given { T.may_give new.new ≡ T.may_give new.old }
    ensures new_lacked { T.may_lack new.new ≡ T.may_lack new.old }
{
    let matches = match matches_of(alloc, words) {
        Ok(matches) => matches,
        Err(error) => return usage(alloc, &error, sink),
    };
    let call = call_of(&matches);
    let json = asks_for_json(&call);
    let output = answer(alloc, &call, old, new)?.into_output(alloc, root(&call), json)?;
    write_all(sink, &output.text)?;
    Ok(output.status)
}
