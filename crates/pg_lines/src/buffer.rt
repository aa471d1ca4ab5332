//! A sink in memory.
ghost use Rattle.std.specs.Prelude.{◌≡◌, []};

use crate::sink::{Sink, SinkError};
use pg_link::GhostCount;
use std::alloc::Global;

/// A sink in memory. It fails where it has no room left and gets no more, and never while the
/// bytes fit into what it was made with.
#[derive(Drop)]
pub struct Buffer {
    pub bytes: Vec<u8>,
    failures: GhostCount,
}

impl Buffer {
    /// A sink that took nothing and hasn't failed, without room of its own. Takes no memory.
    pub fn new(alloc: Global) -> Buffer
        ensures taken { result.bytes.items ≡ [] }
        ensures failures { result.failures.count ≡ 0 }
    {
        Buffer::from_vec(Vec::new(alloc))
    }

    /// The sink that goes on after these bytes, in the room that they have. It hasn't failed.
    pub fn from_vec(bytes: Vec<u8>) -> Buffer
        ensures taken { result.bytes.items ≡ bytes.items }
        ensures failures { result.failures.count ≡ 0 }
    {
        Buffer {
            bytes,
            failures: GhostCount::new(),
        }
    }
}

impl Sink for Buffer {
    ghost taken = { λ buffer. buffer.bytes.items };

    ghost failures = { λ buffer. buffer.failures.count };

    fn write(&mut self, bytes: &[u8]) -> Result<usize, SinkError> {
        if self.bytes.extend_from_slice(bytes).is_err() {
            self.failures.add();
            return Err(SinkError);
        }
        Ok(bytes.len())
    }
}
