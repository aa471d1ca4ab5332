//! The files of the system as a source.

ghost use Rattle.std.specs.Prelude.{◌≡◌, [], Some, true};

use crate::{GhostCount, GhostPaths, SourceError, Sources};
use std::alloc::Global;
use std::fs::File;
use std::io::{ErrorKind, Read};
use std::rt::Files;

/// A file of this many bytes is not read.
const BYTE_LIMIT: usize = 2_147_483_647;

/// Nor is one that takes this many reads.
const READ_LIMIT: usize = 2_147_483_647;

/// The files of the system, by their paths from the current folder. It may give anything, and lack
/// anything. A path that names no file is `Missing`; what can't be read, a file of 2,147,483,647
/// bytes and one that takes as many reads are `Failed`.
#[derive(Drop)]
pub struct Folder<'a, R> {
    files: &'a R,
    failures: GhostCount,
    reads: GhostPaths,
}

impl<'a, R: Files> Folder<'a, R> {
    /// The files that these give. It has not failed yet, and was asked for none.
    pub fn new(files: &'a R) -> Folder<'a, R>
        ensures failures { result.failures.count ≡ 0 }
        ensures reads { result.reads.paths ≡ [] }
    {
        Folder {
            files,
            failures: GhostCount::new(),
            reads: GhostPaths::new(),
        }
    }

    /// A path through a file, or with a NUL, names no file.
    fn open(&self, path: &str) -> Result<R::File, SourceError> {
        File::open(self.files, path).map_err(|error| match error.kind() {
            ErrorKind::NotFound | ErrorKind::NotADirectory | ErrorKind::InvalidInput => {
                SourceError::Missing
            }
            _ => SourceError::Failed,
        })
    }
}

/// All that a reader has left.
fn read_to_end<F: Read>(alloc: Global, file: &mut F) -> Result<Vec<u8>, SourceError> {
    let mut bytes = Vec::new(alloc);
    let mut part = [0u8; 4096];
    for _ in 0..READ_LIMIT {
        match file.read(&mut part) {
            Ok(0) => return Ok(bytes),
            Ok(count) => {
                if BYTE_LIMIT - bytes.len() <= count {
                    return Err(SourceError::Failed);
                }
                bytes.extend_from_slice(&part[..count])?;
            }
            Err(error) if error.kind() == ErrorKind::Interrupted => {}
            Err(_) => return Err(SourceError::Failed),
        }
    }
    Err(SourceError::Failed)
}

impl<R: Files> Sources for Folder<'_, R> {
    ghost may_give = { λ _ _ _. true };

    ghost may_lack = { λ _ _. true };

    ghost failures = { λ folder. folder.failures.count };

    ghost reads = { λ folder. Some folder.reads.paths };

    fn read(&mut self, alloc: Global, path: &str) -> Result<Vec<u8>, SourceError> {
        self.reads.note(path.as_bytes());
        let answer = match self.open(path) {
            Ok(mut file) => read_to_end(alloc, &mut file),
            Err(error) => Err(error),
        };
        if let Err(SourceError::Failed) = answer {
            self.failures.add();
        }
        answer
    }
}
