//! Parts that come from no source file.
mod enums;
mod files;
mod pieces;
mod types;

use crate::schema::refusal;
use kit_rows::{cut, debug};
use pg_check::{CheckError, admit};
use pg_schema::{Parts, PartsError, Schema, default_json_name, entry_name, full_name};
pub use pieces::parts_of;
use std::alloc::{AllocError, Global};
use types::element_of;

/// How many message types the schema has, or the refusal.
fn shown_admitted(alloc: Global, found: Result<Schema, CheckError>) -> Result<String, AllocError> {
    match found {
        Ok(schema) => format!(in alloc; "taken {}", schema.parts().types.len()),
        Err(error) => refusal(alloc, error),
    }
}

/// How many message types the schema has, or the error and how many came back.
pub fn shown_made(
    alloc: Global,
    found: Result<Schema, (PartsError, Parts)>,
) -> Result<String, AllocError> {
    match found {
        Ok(schema) => format!(in alloc; "taken {}", schema.parts().types.len()),
        Err((error, back)) => format!(in alloc; "{error:?} {}", back.types.len()),
    }
}

/// The full name of what `SCOPE NAME` names.
fn named(alloc: Global, words: &str) -> Result<String, AllocError> {
    let (scope, name) = words.split_once(' ').unwrap_or(("", words));
    full_name(alloc, scope, name)
}

/// What is printed of the row: `admit | PIECES`, `from_parts | PIECES`, `json_name | NAME`,
/// `entry_name | NAME`, `full_name | SCOPE NAME` or `packable | TYPE`.
pub fn answer(alloc: Global, input: &str) -> Result<String, AllocError> {
    let (call, spelled) = cut(input);
    match call {
        "admit" => shown_admitted(alloc, admit(alloc, parts_of(alloc, spelled)?)),
        "from_parts" => shown_made(alloc, Schema::from_parts(alloc, parts_of(alloc, spelled)?)),
        "json_name" => default_json_name(alloc, spelled),
        "entry_name" => entry_name(alloc, spelled),
        "full_name" => named(alloc, spelled),
        _ => debug(alloc, &element_of(spelled).is_packable()),
    }
}
