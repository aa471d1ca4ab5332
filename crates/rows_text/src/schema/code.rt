//! The codes of refusals.
use crate::placed::refusal_in;
use pg_check::CheckError;
use std::alloc::{AllocError, Global};

/// The code and the position of a refusal, as the program prints them.
pub fn refusal(alloc: Global, error: CheckError) -> Result<String, AllocError> {
    let code = error.code();
    match error.place() {
        Some(place) => refusal_in(alloc, code, &place),
        None => Err(AllocError),
    }
}
