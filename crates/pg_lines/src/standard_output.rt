//! The sink of the process's standard output.
ghost use Rattle.std.specs.Prelude.{◌≡◌, ◌<◌, ◌≤◌, [], length, IfSome};

use crate::sink::{Sink, SinkError};
use pg_link::{GhostBytes, GhostCount};
use std::io;
use std::io::{ErrorKind, Write};

/// How often an interrupted write is tried.
const TRIES: usize = 1000;

/// The standard output. What it took is what its writes said that they took.
#[derive(Drop)]
pub struct StandardOutput<'a, P> {
    to: &'a P,
    taken: GhostBytes,
    failures: GhostCount,
}

impl<'a, P: Print> StandardOutput<'a, P> {
    /// The standard output that these write to, which has taken nothing yet and hasn't
    /// failed.
    pub fn new(to: &'a P) -> StandardOutput<'a, P>
        ensures taken { result.taken.bytes ≡ [] }
        ensures failures { result.failures.count ≡ 0 }
    {
        StandardOutput {
            to,
            taken: GhostBytes::new(),
            failures: GhostCount::new(),
        }
    }
}

/// How many of the bytes were written, at least one, unless the write failed.
fn write_some<P: Print>(to: &P, bytes: &[u8]) -> Option<usize>
    ensures some { IfSome result (λ count. 0 < count) }
    ensures within { IfSome result (λ count. count ≤ length bytes.now) }
{
    for _ in 0..TRIES {
        match io::writer(to).write(bytes) {
            Ok(0) => return None,
            Ok(count) => return Some(count),
            Err(error) if error.kind() == ErrorKind::Interrupted => {}
            Err(_) => return None,
        }
    }
    None
}

impl<P: Print> Sink for StandardOutput<'_, P> {
    ghost taken = { λ output. output.taken.bytes };

    ghost failures = { λ output. output.failures.count };

    fn write(&mut self, bytes: &[u8]) -> Result<usize, SinkError> {
        if bytes.is_empty() {
            return Ok(0);
        }
        match write_some(self.to, bytes) {
            Some(count) => {
                self.taken.note(&bytes[..count]);
                Ok(count)
            }
            None => {
                self.failures.add();
                Err(SinkError)
            }
        }
    }
}
