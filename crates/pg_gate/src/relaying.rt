//! Messages that a program of the new schema reads and writes again.

ghost use Rattle.std.specs.Prelude.{◌≡◌, ◌<◌, ◌≤◌, length, Some, IfErr, IfOk};
ghost use Rattle.pg_schema.specs.Parts.{shape_of};
ghost use Rattle.pg_dyn.specs.encoding.Encoding.{cap};
ghost use Rattle.pg_pairs.specs.home.Home.{relayed};
ghost use Rattle.pg_gate.specs.Relaying.{BringsHome, IsRelayError};

use pg_dyn::{DynError, decode_ref_unlimited, encode_ref};
use pg_pairs::Pair;
use pg_pairs::laws::messages_come_home;
use pg_schema::Schema;
use std::alloc::Global;

/// What a program of the new schema hands on of bytes: the encoding of the message that it reads
/// them as by the pair's new type, which its schema has, at any depth. Records that the type
/// doesn't accept follow its own fields, byte for byte and in the order read.
///
/// Take bytes that encode a message of the pair's old type which has no unknown records at any
/// depth. Where the two types are compatible under a view and `pg_pairs::returns` answers yes, the
/// old type reads what is handed on. Each field then shows what it did, but for a zero of a single
/// field that the new type has without presence.
///
/// The errors are `Wire` and `NotUtf8`, of bytes that have no reading, as `pg_dyn::decode`
/// reports them; `TooLong`, where what is read has an encoding of more than 2,147,483,647 bytes;
/// and `Memory`.
pub fn relay(
    alloc: Global,
    old: &Schema,
    new: &Schema,
    pair: Pair,
    bytes: &[u8],
) -> Result<Vec<u8>, DynError>
    requires new_type { pair.new.index < length (shape_of new.now) }
    ensures relayed { IfOk result (λ again. relayed (shape_of new.now) pair.new bytes.now
        ≡ Some again.items) }
    ensures short { IfOk result (λ again. length again.items ≤ cap) }
    ensures home { IfOk result (λ again.
        BringsHome (shape_of old.now) (shape_of new.now) pair bytes.now again.items) }
    ensures refused { IfErr result (IsRelayError (shape_of new.now) pair.new bytes.now) }
{
    messages_come_home();
    // What holds of every schema.
    old.parts();
    new.parts();
    let message = decode_ref_unlimited(alloc, new, pair.new, bytes)?;
    encode_ref(alloc, new, &message)
}
