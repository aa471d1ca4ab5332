//! The files of a row: `PATH=BYTES`, with ` ; ` between two.
use kit_rows::bytes_of;
use std::alloc::{AllocError, Global};

/// A path and the bytes there.
pub(crate) type File<'a> = (&'a str, Vec<u8>);

/// The files that the row's part spells: none where it is empty.
pub(crate) fn files(alloc: Global, text: &str) -> Result<Vec<File>, AllocError> {
    let mut files = Vec::new(alloc);
    for file in text.split(" ; ") {
        if let Some((path, bytes)) = file.split_once('=') {
            files.push((path, bytes_of(alloc, bytes)?))?;
        }
    }
    Ok(files)
}

/// The files, lent.
pub(crate) fn lent<'a>(
    alloc: Global,
    files: &'a [File],
) -> Result<Vec<(&'a str, &'a [u8])>, AllocError> {
    let mut lent = Vec::new(alloc);
    for (path, bytes) in files {
        lent.push((*path, bytes.as_slice()))?;
    }
    Ok(lent)
}
