//! Refusals with their positions.
use kit_rows::spelling;
use pg_lex::place;
use pg_link::Place;
use std::alloc::{AllocError, Global};

/// The code with the line and the column of the byte at fault.
pub fn refusal(alloc: Global, text: &[u8], fault: (u16, usize)) -> Result<String, AllocError> {
    let (line, column) = place(text, fault.1);
    format!(in alloc; "E{} {line}:{column}", fault.0)
}

/// The code with a position in a file.
pub fn refusal_in(alloc: Global, code: u16, place: &Place) -> Result<String, AllocError> {
    let file = spelling(alloc, place.file.as_bytes())?;
    format!(in alloc; "E{code} {file}:{}:{}", place.line, place.column)
}
