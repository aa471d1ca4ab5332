//! The promise of `pg_causes`, said again of a call of it: the edits of `must-fail` turn its
//! answer, and every one must be refused.
#![tactic(auto)]

ghost use Rattle.std.specs.Prelude.{IfOk};
ghost use Rattle.pg_causes.specs.Overview.{IsOverview};

use pg_causes::{Cause, Overview, Reason, TypeLine};
use pg_dyn::ViewName;
use pg_schema::Schema;
use std::alloc::{AllocError, Global};

/// What `gate_all` answers.
pub fn gate_all(
    alloc: Global,
    old: &Schema,
    new: &Schema,
    view: ViewName,
) -> Result<Overview, AllocError>
    ensures { IfOk result (IsOverview view old.now new.now) }
{
    pg_causes::gate_all(alloc, old, new, view)
}
