//! Records of descriptors, added one after another.

ghost use Rattle.std.specs.Prelude.{◌≡◌, ◌++◌, OnOk};
ghost use Rattle.pg_wire.specs.declared.record.WireType.TheVariants.{Len, Varint};
ghost use Rattle.pg_wire.specs.Records.{written};
ghost use Rattle.pg_wire.specs.Varint.{varint};

use pg_wire::write_varint;
use std::alloc::AllocError;

// The wire types of records of numbers, and of strings and messages.
const VARINT: u64 = 0;

const LEN: u64 = 2;

// The most bytes that a tag and a length take.
const FRONT: usize = 20;

// The bytes that most messages of fields take, so that one piece of memory holds them.
const ROOM: usize = 120;

// Adds a varint at the end. Most take one byte.
#[inline(always)]
fn push_varint(out: &mut Vec<u8>, value: u64) -> Result<(), AllocError>
    ensures { OnOk result (out.new.items ≡ out.old.items ++ varint value) }
{
    if value < 128 {
        out.push(value as u8)?;
        return Ok(());
    }
    let mut bytes = [0; 10];
    let len = write_varint(value, &mut bytes);
    out.extend_from_slice(&bytes[..len])
}

/// Adds the record of a number.
pub(crate) fn push_word(out: &mut Vec<u8>, number: u32, word: u64) -> Result<(), AllocError>
    ensures { OnOk result (out.new.items
        ≡ out.old.items ++ (written number Varint (varint word)).bytes) }
{
    push_varint(out, 8 * u64::from(number) + VARINT)?;
    push_varint(out, word)
}

/// Adds the record of a string or of a message's bytes.
pub(crate) fn push_bytes(out: &mut Vec<u8>, number: u32, body: &[u8]) -> Result<(), AllocError>
    ensures { OnOk result (out.new.items ≡ out.old.items ++ (written number Len body.now).bytes) }
{
    if out.capacity() - out.len() < body.len() + FRONT {
        out.reserve(body.len() + ROOM)?;
    }
    push_varint(out, 8 * u64::from(number) + LEN)?;
    push_varint(out, body.len() as u64)?;
    out.extend_from_slice(body)
}
