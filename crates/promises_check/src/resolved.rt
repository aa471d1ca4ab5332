//! What type names name in the answer of `build`.

ghost use Rattle.std.specs.Prelude.{IfOk};
ghost use Rattle.pg_check.specs.parts.ResolvedTypes.{AreResolved};

use pg_check::CheckError;
use pg_link::Linked;
use pg_schema::Schema;
use std::alloc::Global;

/// What the type names of files name in what `build` answers. Only an edit uses the other files.
pub fn build_resolved(alloc: Global, named: &Linked, _other: &Linked) -> Result<Schema, CheckError>
    ensures { IfOk result (AreResolved named.now.files) }
{
    pg_check::build(alloc, named)
}
