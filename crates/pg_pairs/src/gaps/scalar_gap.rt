//! The table of gaps between scalar types.

ghost use Rattle.std.specs.Prelude.{◌≡◌};
ghost use Rattle.pg_pairs.specs.gaps.Gaps.{gap};
ghost use Rattle.pg_pairs.specs.gaps.TrueGaps.{IsTrueOf};

use crate::gaps::gap_kind::Gap;
use pg_schema::Scalar;

fn least(body: u32, value: i128) -> Gap
    ensures { result ≡ Gap.Least body value }
{
    Gap::Least { body, value }
}

/// The table, by what is read otherwise.
fn in_table(old: Scalar, new: Scalar) -> Gap
    ensures { result ≡ gap old new }
{
    use Scalar::*;
    match (old, new) {
        (Int32 | Int64 | Uint32 | Uint64, Bool) => least(1, 2),
        (Int32 | Int64 | Uint32 | Uint64 | Bool, Sint32 | Sint64) => least(1, 1),
        (Sint32 | Sint64, Int32 | Int64 | Uint32 | Uint64 | Bool) => least(1, -1),
        (Int64 | Uint32 | Uint64, Int32) | (Sint64, Sint32) => least(5, 0x8000_0000),
        (Int64 | Uint64, Uint32) => least(5, 0x1_0000_0000),
        (Int32, Uint32 | Uint64) | (Int64, Uint64) => least(10, -1),
        (Uint64, Int64) => least(10, 0x8000_0000_0000_0000),
        (Fixed32, Sfixed32) => least(4, 0x8000_0000),
        (Sfixed32, Fixed32) => least(4, -1),
        (Fixed64, Sfixed64) => least(8, 0x8000_0000_0000_0000),
        (Sfixed64, Fixed64) => least(8, -1),
        (Bytes, String) => least(2, 0x80),
        (Int32 | Uint32 | Bool, Int64) | (Uint32 | Bool, Uint64) | (Bool, Int32 | Uint32) => {
            Gap::None
        }
        (Sint32, Sint64) | (String, Bytes) => Gap::None,
        _ if old == new => Gap::None,
        _ => Gap::Unlike,
    }
}

/// The gap between the items of an old scalar type and what the reader of a new one makes of them
/// (Protocol Buffers language guide, "Updating A Message Type").
pub fn gap(old: Scalar, new: Scalar) -> Gap
    ensures table { result ≡ gap old new }
    ensures exact { IsTrueOf old new result }
{
    in_table(old, new)
}
