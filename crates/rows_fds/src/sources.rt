//! Schemas of source files.
use crate::sets::of_schema;
use kit_rows::text_of;
use pg_check::build;
use pg_link::{Linked, Listed, Place, link};
use std::alloc::{AllocError, Global};

/// What is shown where there is no schema: a refusal has a position, but where memory was refused.
fn refused(alloc: Global, place: Option<Place>, shown: &str) -> Result<String, AllocError> {
    match place {
        Some(_) => String::from_str(alloc, shown),
        None => Err(AllocError),
    }
}

fn of_linked(alloc: Global, linked: &Linked) -> Result<String, AllocError> {
    match build(alloc, linked) {
        Ok(schema) => of_schema(alloc, &schema),
        Err(error) => refused(alloc, error.place(), "no schema"),
    }
}

fn of_bytes(alloc: Global, bytes: &[u8]) -> Result<String, AllocError> {
    let mut files = Listed {
        files: &[("m.proto", bytes)],
    };
    match link(alloc, &mut files, &["m.proto"]) {
        Ok(linked) => of_linked(alloc, &linked),
        Err(error) => refused(alloc, error.place(), "not linked"),
    }
}

/// `source FILE`: what is written of the schema of a file `m.proto`.
pub(crate) fn of_file(alloc: Global, spelled: &str) -> Result<String, AllocError> {
    of_bytes(alloc, &text_of(alloc, spelled)?)
}
