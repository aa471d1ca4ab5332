//! What is relayed.

ghost use Rattle.std.specs.Prelude.{◌≡◌, ◌<◌, ◌≤◌, length, Some, IfErr, IfOk};
ghost use Rattle.pg_schema.specs.Parts.{shape_of};
ghost use Rattle.pg_dyn.specs.encoding.Encoding.{cap};
ghost use Rattle.pg_pairs.specs.home.Home.{relayed};
ghost use Rattle.pg_gate.specs.Relaying.{BringsHome, IsRelayError};

use pg_dyn::DynError;
use pg_pairs::Pair;
use pg_schema::Schema;
use std::alloc::Global;

/// What `relay` answers.
pub fn relay(
    alloc: Global,
    old: &Schema,
    new: &Schema,
    pair: Pair,
    bytes: &[u8],
) -> Result<Vec<u8>, DynError>
    requires new_type { pair.new.index < length (shape_of new.now) }
    ensures relayed { IfOk result (λ again. relayed (shape_of new.now) pair.new bytes.now
        ≡ Some again.items) }
    ensures short { IfOk result (λ again. length again.items ≤ cap) }
    ensures home { IfOk result (λ again.
        BringsHome (shape_of old.now) (shape_of new.now) pair bytes.now again.items) }
    ensures refused { IfErr result (IsRelayError (shape_of new.now) pair.new bytes.now) }
{
    pg_gate::relay(alloc, old, new, pair, bytes)
}
