//! What the folder of the system answers.
use kit_rows::bytes_of;
use pg_link::{SourceError, Sources};
use std::alloc::{AllocError, Global};

/// What a source answers for the path that is spelled.
pub fn answer<S: Sources>(
    alloc: Global,
    source: &mut S,
    spelled: &str,
) -> Result<&'static str, AllocError> {
    let path = bytes_of(alloc, spelled)?;
    match source.read(alloc, str::from_utf8(&path).unwrap_or("not UTF-8")) {
        Ok(_) => Ok("given"),
        Err(SourceError::Missing) => Ok("missing"),
        Err(SourceError::Failed) => Ok("failed"),
        Err(SourceError::Memory) => Err(AllocError),
    }
}
