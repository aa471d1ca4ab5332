//! What output is written to.
ghost use Rattle.std.specs.Prelude.{◌≡◌, ℕ, ◌+◌, ◌<◌, ◌≤◌, List, ◌++◌, length, take, IfOk, OnOk, OnErr, MatchResult};
ghost use Rattle.pg_lines.specs.Sink.{failures_in, taken_of};

use thiserror::Error;

/// A sink took no bytes.
#[derive(Clone, Copy, Debug, PartialEq, Eq, Error)]
#[error("The output could not be written.")]
pub struct SinkError;

/// What output is written to. It remembers what it took, and counts its failures.
pub trait Sink {
    ghost taken: { Self → List ℕ };

    ghost failures: { Self → ℕ };

    /// Takes a front of the bytes, at least one where there is one, or fails and takes none.
    fn write(&mut self, bytes: &[u8]) -> Result<usize, SinkError>
        ensures within { IfOk result (λ count. count ≤ length bytes.now) }
        ensures some { IfOk result (λ count. 0 < length bytes.now → 0 < count) }
        ensures took { taken self.new ≡ taken self.old ++ take (taken_of result) bytes.now }
        ensures counted { failures self.new ≡ failures self.old + failures_in result };
}

/// Writes all the bytes, or a front of them until the sink fails.
pub fn write_all<W: Sink>(sink: &mut W, bytes: &[u8]) -> Result<(), SinkError>
    ensures whole { OnOk result (W.taken sink.new ≡ W.taken sink.old ++ bytes.now) }
    ensures front { OnErr result ((n : ℕ)
        × (W.taken sink.new ≡ W.taken sink.old ++ take n bytes.now)) }
    ensures counted { W.failures sink.new ≡ W.failures sink.old + failures_in result }
{
    let mut written = 0;
    while written < bytes.len() {
        written += sink.write(&bytes[written..])?;
    }
    Ok(())
}
