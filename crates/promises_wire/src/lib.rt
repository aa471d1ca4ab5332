//! The promises of `pg_wire`, said again of calls of it: the edits of `must-fail` turn each answer,
//! and every one must be refused.
#![tactic(auto)]

ghost use Rattle.std.specs.Prelude.{◌≡◌, ◌+◌, ◌^◌, ◌<◌, ◌≤◌, length, take, drop, IfOk};
ghost use Rattle.std.specs.Iterator.{YieldsFirstBy};
ghost use Rattle.pg_wire.specs.Codes.{code_of};
ghost use Rattle.pg_wire.specs.Errors.{error_at, fault_of, place_of};
ghost use Rattle.pg_wire.specs.Reads.{results, seen, value_at};
ghost use Rattle.pg_wire.specs.Records.{tag};
ghost use Rattle.pg_wire.specs.Varint.{varint};
ghost use Rattle.pg_wire.specs.Words as words;
ghost use Rattle.pg_wire.specs.declared.record.WireType.{WireType};

use pg_wire::{Record, Records, WireError};

/// What `WireError::code` answers.
pub fn code(error: WireError) -> u16
    ensures { result ≡ code_of error }
{
    error.code()
}

/// What `WireError::at` answers.
pub fn at(error: WireError) -> usize
    ensures { result ≡ place_of error }
{
    error.at()
}

/// What `WireError::after` answers.
pub fn after(error: WireError, front: usize) -> WireError
    requires { place_of error + front < 2 ^ 64 }
    ensures { result ≡ error_at (fault_of error) (place_of error + front) }
{
    error.after(front)
}

/// What `Records::new` answers.
pub fn records(bytes: &[u8]) -> Records<'_>
    ensures { result ≡ results 0 bytes.now }
{
    Records::new(bytes)
}

/// What `Records::next` gives.
pub fn next<'a>(records: &mut Records<'a>) -> Option<Result<Record<'a>, WireError>>
    ensures { YieldsFirstBy seen (λ left. left) records.old result records.new }
{
    records.next()
}

/// What `read_varint` answers.
pub fn read_varint(bytes: &[u8]) -> Result<(u64, usize), WireError>
    ensures value { result ≡ value_at bytes.now }
    ensures inside { IfOk result (λ read. read.1 ≤ length bytes.now) }
{
    pg_wire::read_varint(bytes)
}

/// What `write_varint` does.
pub fn write_varint(value: u64, out: &mut [u8; 10]) -> usize
    ensures written { take result out.new ≡ varint value }
    ensures len { result ≡ length (varint value) }
    ensures others { drop result out.new ≡ drop result out.old }
{
    pg_wire::write_varint(value, out)
}

/// What `varint_len` answers.
pub fn varint_len(value: u64) -> usize
    ensures { result ≡ length (varint value) }
{
    pg_wire::varint_len(value)
}

/// What `tag_len` answers.
pub fn tag_len(number: u32) -> usize
    requires { number < 2 ^ 29 }
    ensures { (wire : WireType) → result ≡ length (tag number wire) }
{
    pg_wire::tag_len(number)
}

/// What `zigzag` answers.
pub fn zigzag(value: i64) -> u64
    ensures { result ≡ words.zigzag value }
{
    pg_wire::zigzag(value)
}

/// What `unzigzag` answers.
pub fn unzigzag(word: u64) -> i64
    ensures { result ≡ words.unzigzag word }
{
    pg_wire::unzigzag(word)
}
