//! The promise of `pg_notes`, said again of a call of it: the edits of `must-fail` turn its answer,
//! and every one must be refused.
#![tactic(auto)]

ghost use Rattle.std.specs.Prelude.{◌≡◌, IfOk};
ghost use Rattle.pg_notes.specs.Notes.{notes};

use pg_notes::Note;
use pg_schema::Schema;
use std::alloc::{AllocError, Global};

/// What `notes` answers.
pub fn notes(alloc: Global, old: &Schema, new: &Schema) -> Result<Vec<Note>, AllocError>
    ensures { IfOk result (λ told. told.items ≡ notes old.now new.now) }
{
    pg_notes::notes(alloc, old, new)
}
