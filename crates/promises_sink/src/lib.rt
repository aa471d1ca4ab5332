//! The promises of `pg_lines`'s sinks, said again of calls of it: the edits of `must-fail` turn each
//! answer, and every one must be refused.
#![tactic(auto)]

ghost use Rattle.std.specs.Prelude.{◌≡◌, ◌+◌, ◌++◌, ◌<◌, ◌≤◌, [], ℕ, length, take, IfOk, OnErr, OnOk};
ghost use Rattle.pg_lines.specs.Sink.{failures_in, taken_of};

use pg_lines::{Buffer, Sink, SinkError, StandardOutput};
use std::alloc::Global;

/// What `write_all` does.
pub fn write_all<W: Sink>(sink: &mut W, bytes: &[u8]) -> Result<(), SinkError>
    ensures whole { OnOk result (W.taken sink.new ≡ W.taken sink.old ++ bytes.now) }
    ensures front { OnErr result ((n : ℕ)
        × (W.taken sink.new ≡ W.taken sink.old ++ take n bytes.now)) }
    ensures counted { W.failures sink.new ≡ W.failures sink.old + failures_in result }
{
    pg_lines::write_all(sink, bytes)
}

/// What `Buffer::new` answers.
pub fn buffer(alloc: Global) -> Buffer
    ensures taken { result.bytes.items ≡ [] }
    ensures failures { result.failures.count ≡ 0 }
{
    Buffer::new(alloc)
}

/// What `Buffer::from_vec` answers.
pub fn buffer_of(bytes: Vec<u8>) -> Buffer
    ensures taken { result.bytes.items ≡ bytes.items }
    ensures failures { result.failures.count ≡ 0 }
{
    Buffer::from_vec(bytes)
}

/// What a buffer takes.
pub fn put(buffer: &mut Buffer, bytes: &[u8]) -> Result<usize, SinkError>
    ensures within { IfOk result (λ count. count ≤ length bytes.now) }
    ensures some { IfOk result (λ count. 0 < length bytes.now → 0 < count) }
    ensures took { buffer.new.bytes.items
        ≡ buffer.old.bytes.items ++ take (taken_of result) bytes.now }
    ensures counted { buffer.new.failures.count ≡ buffer.old.failures.count + failures_in result }
{
    buffer.write(bytes)
}

/// What `StandardOutput::new` answers.
pub fn output<P: Print>(to: &P) -> StandardOutput<'_, P>
    ensures taken { result.taken.bytes ≡ [] }
    ensures failures { result.failures.count ≡ 0 }
{
    StandardOutput::new(to)
}

/// What the standard output takes.
pub fn print<P: Print>(output: &mut StandardOutput<'_, P>, bytes: &[u8]) -> Result<usize, SinkError>
    ensures within { IfOk result (λ count. count ≤ length bytes.now) }
    ensures some { IfOk result (λ count. 0 < length bytes.now → 0 < count) }
    ensures took { output.new.taken.bytes
        ≡ output.old.taken.bytes ++ take (taken_of result) bytes.now }
    ensures counted { output.new.failures.count ≡ output.old.failures.count + failures_in result }
{
    output.write(bytes)
}
