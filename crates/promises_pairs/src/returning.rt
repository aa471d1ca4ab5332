//! Whether the messages of a pair return.

ghost use Rattle.std.specs.Prelude.{◌↔◌, IsTrue, IfOk};
ghost use Rattle.pg_schema.specs.Parts.{shape_of};
ghost use Rattle.pg_pairs.specs.home.Returns.{Returns};

use pg_pairs::Pair;
use pg_schema::Schema;
use std::alloc::{AllocError, Global};

/// What `returns` answers.
pub fn returns(alloc: Global, old: &Schema, new: &Schema, pair: Pair) -> Result<bool, AllocError>
    ensures { IfOk result (λ b. IsTrue b ↔ Returns (shape_of old.now) (shape_of new.now) pair) }
{
    pg_pairs::returns(alloc, old, new, pair)
}
