//! A source whose read of a given number fails, for tests and for programs that answer rows.
#![tactic(auto)]

ghost use Rattle.std.specs.Prelude.{◌≡◌, ◌+◌, Some};

use pg_link::{GhostCount, GhostPaths, SourceError, Sources};
use std::alloc::Global;

/// A source that fails at its read of this number, counted from 1, and else gives what the one
/// inside gives.
#[derive(Drop)]
pub struct FailingSource<S> {
    source: S,
    reads: u32,
    fails_at: u32,
    failures: GhostCount,
    asked: GhostPaths,
}

impl<S> FailingSource<S> {
    pub fn new(source: S, fails_at: u32) -> FailingSource<S> {
        FailingSource {
            source,
            reads: 0,
            fails_at,
            failures: GhostCount::new(),
            asked: GhostPaths::new(),
        }
    }
}

impl<S: Sources> Sources for FailingSource<S> {
    ghost may_give = { λ it. S.may_give it.source };

    ghost may_lack = { λ it. S.may_lack it.source };

    ghost failures = { λ it. S.failures it.source + it.failures.count };

    ghost reads = { λ it. Some it.asked.paths };

    fn read(&mut self, alloc: Global, path: &str) -> Result<Vec<u8>, SourceError> {
        self.asked.note(path.as_bytes());
        self.reads = self.reads.wrapping_add(1);
        if self.reads == self.fails_at {
            self.failures.add();
            return Err(SourceError::Failed);
        }
        self.source.read(alloc, path)
    }
}
