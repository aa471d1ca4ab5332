//! The promises of `pg_gate::gate_files`, said again of calls of it: the edits of `must-fail` turn
//! each answer, and every one must be refused. Clauses that no edit here turns, such as what a
//! source's reads leave, aren't said again.
#![tactic(auto)]

ghost use Rattle.std.specs.Prelude.{◌≡◌, ◌+◌, codes, IfErr, IfOk};
ghost use Rattle.pg_gate.specs.Failures.{side_failures};
ghost use Rattle.pg_call.specs.Paths.{paths_of};
ghost use Rattle.pg_gate.specs.answer.Grants.{IsAnswerOfFiles, IsGateError};
ghost use Rattle.pg_link.specs.walk.Walk.{world};

use pg_gate::{Answer, GateError, Side};
use pg_link::Sources;
use std::alloc::Global;

/// What `gate_files` answers.
pub fn gate_files<S: Sources, T: Sources>(
    alloc: Global,
    old: &mut S,
    new: &mut T,
    old_roots: &[&str],
    new_roots: &[&str],
    root: &str,
) -> Result<Answer, GateError>
    // The answer is that of source files and sets that the sources may give, and so is each
    // refusal. A fault of the new side is reported only where the old side has a schema.
    ensures answer { IfOk result (IsAnswerOfFiles root.now
        (world (S.may_give old.old) (S.may_lack old.old) (codes ".") (paths_of old_roots.now))
        (world (T.may_give new.old) (T.may_lack new.old) (codes ".") (paths_of new_roots.now))) }
    ensures refused { IfErr result (IsGateError root.now
        (world (S.may_give old.old) (S.may_lack old.old) (codes ".") (paths_of old_roots.now))
        (world (T.may_give new.old) (T.may_lack new.old) (codes ".") (paths_of new_roots.now))) }
    // A source failed once where that is what its side is refused for, and never else.
    ensures old_counted { S.failures old.new ≡ S.failures old.old + side_failures Side.Old result }
    ensures new_counted { T.failures new.new ≡ T.failures new.old + side_failures Side.New result }
{
    pg_gate::gate_files(alloc, old, new, old_roots, new_roots, root)
}
