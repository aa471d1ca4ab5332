//! What is printed of a row.
use crate::{folder, joined, links, parts, schema, tokens, tree};
use kit_rows::{cut, unrolled};
use pg_link::Sources;
use std::alloc::{AllocError, Global};

/// The answer of a row of that kind, which asks no source.
pub fn answer_of(alloc: Global, kind: &str, input: &str) -> Result<String, AllocError> {
    match kind {
        "tokens" => tokens::answer(alloc, input),
        "tree" => tree::answer(alloc, input),
        "joined" => joined::answer(alloc, input),
        "links" => links::answer(alloc, input),
        "parts" => parts::answer(alloc, input),
        _ => schema::answer(alloc, input),
    }
}

/// The answer of the row. Only rows of folders ask the source.
pub fn answer<S: Sources>(alloc: Global, source: &mut S, row: &str) -> Result<String, AllocError> {
    let row = unrolled(alloc, row)?;
    let (_, input) = cut(&row);
    match cut(input) {
        ("folder", path) => String::from_str(alloc, folder::answer(alloc, source, path)?),
        (kind, input) => answer_of(alloc, kind, input),
    }
}
