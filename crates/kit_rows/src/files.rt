//! Files as rows spell them.
use crate::spelled::bytes_of;
use crate::texts::text_of;
use std::alloc::{AllocError, Global};

/// A path and the bytes there.
pub type File = (String, Vec<u8>);

// The path and the spelled bytes of a file: the path is `m.proto` where the spelling begins with
// `~`.
fn parts_of(spelled: &str) -> (&str, &str) {
    if spelled.starts_with('~') {
        ("m.proto", spelled)
    } else {
        spelled.split_once('=').unwrap_or((spelled, ""))
    }
}

// The path that is spelled, where it is UTF-8.
fn path_of(alloc: Global, spelled: &str) -> Result<String, AllocError> {
    let bytes = bytes_of(alloc, spelled)?;
    String::from_str(alloc, str::from_utf8(&bytes).unwrap_or("not UTF-8"))
}

fn file_of(alloc: Global, spelled: &str) -> Result<File, AllocError> {
    let (path, text) = parts_of(spelled);
    Ok((path_of(alloc, path)?, text_of(alloc, text)?))
}

/// The files that are spelled, each as `PATH=TEXT`, with ` ; ` between. A spelling that begins with
/// `~` is `TEXT` alone, of a file at the path `m.proto`.
pub fn files_of(alloc: Global, spelled: &str) -> Result<Vec<File>, AllocError> {
    let mut files = Vec::new(alloc);
    for file in spelled.split(" ; ") {
        if !file.is_empty() {
            files.push(file_of(alloc, file)?)?;
        }
    }
    Ok(files)
}

/// The same files, borrowed.
pub fn borrowed(alloc: Global, files: &[File]) -> Result<Vec<(&str, &[u8])>, AllocError> {
    let mut out = Vec::new(alloc);
    for file in files {
        out.push((file.0.as_str(), file.1.as_slice()))?;
    }
    Ok(out)
}
