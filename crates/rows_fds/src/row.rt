//! Which call a row is of.
use crate::own::{decoded, name_of, names_of_types};
use crate::sets::of_set;
use crate::sources::of_file;
use std::alloc::{AllocError, Global};

/// What is reported of the set; or of the call, where the row begins with one.
pub(crate) fn answer(alloc: Global, asked: &str) -> Result<String, AllocError> {
    match asked.split_once(' ') {
        Some(("source", file)) => of_file(alloc, file),
        Some(("field", words)) => name_of(alloc, words),
        Some(("decoded", set)) => decoded(alloc, set),
        _ if asked == "descriptor_schema" => names_of_types(alloc),
        _ => of_set(alloc, asked),
    }
}
