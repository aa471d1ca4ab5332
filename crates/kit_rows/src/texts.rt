//! Source files as rows spell them.
use crate::spelled::bytes_of;
use std::alloc::{AllocError, Global};

/// The bytes of a file that is spelled: a `~` at its head stands for the line `syntax =
/// "proto3";`.
pub fn text_of(alloc: Global, spelled: &str) -> Result<Vec<u8>, AllocError> {
    match spelled.strip_prefix('~') {
        Some(behind) => bytes_of(
            alloc,
            &format!(in alloc; "syntax = \"proto3\";\\n{behind}")?,
        ),
        None => bytes_of(alloc, spelled),
    }
}

/// The source file with a word and a space put in at that offset.
pub fn with_word(alloc: Global, text: &[u8], at: usize, word: &str) -> Result<Vec<u8>, AllocError> {
    let (front, back) = text.split_at_checked(at).unwrap_or((text, b""));
    let mut out = Vec::from_slice(alloc, front)?;
    out.extend_from_slice(word.as_bytes())?;
    out.push(b' ')?;
    out.extend_from_slice(back)?;
    Ok(out)
}
