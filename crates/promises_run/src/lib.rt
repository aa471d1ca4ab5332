//! The promises of `pg_gate::run`, said again of calls of it: the edits of `must-fail` turn each
//! answer, and every one must be refused. Clauses that no edit here turns, such as what a source's
//! reads leave, aren't said again.
#![tactic(auto)]

ghost use Rattle.std.specs.Prelude.{◌≡◌, ◌≢◌, ◌⊎◌, ◌+◌, IfErr, IfOk, IsErrOf};
ghost use Rattle.clap.specs.Walk.{texts};
ghost use Rattle.pg_call.specs.Call.{IsCall, IsRefused};
ghost use Rattle.pg_gate.specs.answer.Grants.{Grants, seen};
ghost use Rattle.pg_gate.specs.Run.{Begins, IsRunError, MayLack, Prints, failures_in};

use pg_gate::{GateError, Sink};
use pg_link::Sources;
use std::alloc::Global;

/// What `run` prints, where its words are a call.
pub fn run<S: Sources, T: Sources, W: Sink>(
    alloc: Global,
    words: &[&str],
    old: &mut S,
    new: &mut T,
    sink: &mut W,
) -> Result<u8, GateError>
    // The sink took exactly the output for the words' call and an answer granted to it.
    ensures printed { IfOk result (λ status. status ≢ 4 → Prints
        (Grants (seen S.Sources old.old old.new) (seen T.Sources new.old new.new))
        (texts words.now) status (W.taken sink.old) (W.taken sink.new)) }
{
    pg_gate::run(alloc, words, old, new, sink)
}

/// When `run` ends with the status of usage.
pub fn run_usage<S: Sources, T: Sources, W: Sink>(
    alloc: Global,
    said: &[&str],
    old: &mut S,
    new: &mut T,
    sink: &mut W,
) -> Result<u8, GateError>
    // Only words that `clap` doesn't take end with it, which leave the sources as they were; and a
    // call with a side that names no file, which is answered.
    ensures usage { IfOk result (λ status. status ≡ 4
        → (IsRefused (texts said.now) × (old.new ≡ old.old) × (new.new ≡ new.old))
        ⊎ Prints (Grants (seen S.Sources old.old old.new) (seen T.Sources new.old new.new))
        (texts said.now) status (W.taken sink.old) (W.taken sink.new)) }
{
    pg_gate::run(alloc, said, old, new, sink)
}

/// What `run` leaves of its sources where it prints no answer.
pub fn run_unanswered<S: Sources, T: Sources, W: Sink>(
    alloc: Global,
    given: &[&str],
    old: &mut S,
    new: &mut T,
    sink: &mut W,
) -> Result<u8, GateError>
    // Words that are no call leave the sources as they were.
    ensures uncalled { ¬ (IsCall (texts given.now)) → (old.new ≡ old.old) × (new.new ≡ new.old) }
    // Where memory runs out, no source failed, or as an answer reports that is granted.
    ensures lacking { IsErrOf result GateError.Memory → MayLack
        (Grants (seen S.Sources old.old old.new) (seen T.Sources new.old new.new))
        (texts given.now) ((S.failures old.new ≡ S.failures old.old)
        × (T.failures new.new ≡ T.failures new.old)) }
{
    pg_gate::run(alloc, given, old, new, sink)
}

/// What `run` leaves of its sink where it fails, and how it ends then.
pub fn run_failed<S: Sources, T: Sources, W: Sink>(
    alloc: Global,
    asked: &[&str],
    old: &mut S,
    new: &mut T,
    sink: &mut W,
) -> Result<u8, GateError>
    // A sink that fails took a prefix of the output; or `clap` doesn't take the words, and the
    // sources are as they were. A lack of memory leaves the sink alone.
    ensures begun { IsErrOf result GateError.WriteFailed → Begins
        (Grants (seen S.Sources old.old old.new) (seen T.Sources new.old new.new))
        (texts asked.now) (W.taken sink.old) (W.taken sink.new)
        ⊎ (IsRefused (texts asked.now) × (old.new ≡ old.old) × (new.new ≡ new.old)) }
    ensures only { IfErr result IsRunError }
    ensures untouched { IsErrOf result GateError.Memory → W.taken sink.new ≡ W.taken sink.old }
    // The sink's count of failures rises by one where the run ends so, else it stays the same.
    ensures counted { W.failures sink.new ≡ W.failures sink.old + failures_in result }
{
    pg_gate::run(alloc, asked, old, new, sink)
}
