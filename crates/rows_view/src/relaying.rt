//! What programs of new schemas hand on of bytes that they read.
use hex::FromHexError;
use kit_schemas::schemas;
use pg_dyn::DynError;
use pg_gate::relay;
use pg_pairs::Pair;
use pg_schema::{Schema, TypeId};
use std::alloc::{AllocError, Global};

/// The first types.
const FIRST: Pair = Pair {
    old: TypeId { index: 0 },
    new: TypeId { index: 0 },
};

/// The code of the refusal, with the byte that it names.
fn refused(alloc: Global, error: DynError) -> Result<String, AllocError> {
    match error {
        DynError::Memory => Err(AllocError),
        _ => format!(in alloc; "E{} {}", error.code(), error.at().unwrap_or(0)),
    }
}

/// What is handed on, or the refusal.
fn shown(alloc: Global, found: Result<Vec<u8>, DynError>) -> Result<String, AllocError> {
    match found {
        Ok(again) if again.is_empty() => String::from_str(alloc, "nothing"),
        Ok(again) => hex::encode(alloc, &again),
        Err(error) => refused(alloc, error),
    }
}

fn relayed(alloc: Global, old: &Schema, new: &Schema, bytes: &[u8]) -> Result<String, AllocError> {
    if !new.has(FIRST.new) {
        return String::from_str(alloc, "no such type");
    }
    shown(alloc, relay(alloc, old, new, FIRST, bytes))
}

/// What a program of the new schema hands on of the bytes that the digits spell.
pub(crate) fn handed_on_by(
    alloc: Global,
    old: &Schema,
    new: &Schema,
    digits: &str,
) -> Result<String, AllocError> {
    match hex::decode(alloc, digits) {
        Ok(bytes) => relayed(alloc, old, new, &bytes),
        Err(FromHexError::OutOfMemory) => Err(AllocError),
        Err(_) => String::from_str(alloc, "no digits"),
    }
}

/// What a program of the last new schema hands on; ` > ` separates the new schemas. A program of
/// the first one reads the bytes, and one of each later schema what the program before it hands on.
/// Each reads by its schema's first type. A refusal is shown by its code and its byte.
pub(crate) fn handed_on(
    alloc: Global,
    old: &str,
    hops: &str,
    digits: &str,
) -> Result<String, AllocError> {
    let mut now = String::from_str(alloc, digits)?;
    for hop in hops.split(" > ") {
        now = match schemas(alloc, old, hop)? {
            Some((old, new)) => handed_on_by(alloc, &old, &new, &now)?,
            None => String::from_str(alloc, "no schemas")?,
        };
    }
    Ok(now)
}
