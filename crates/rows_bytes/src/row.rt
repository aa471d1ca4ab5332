//! One row.
use crate::contents::name_of;
use crate::reading::answer_of_bytes;
use crate::records::answer_of_wire;
use crate::setting::answer_of_contents;
use crate::types::{Types, put};
use kit_rows::{cut, unrolled};
use pg_dyn::DynError;
use std::alloc::{AllocError, Global};

/// What a call by the type of the rows answers; one that isn't of messages is one of `pg_wire`.
pub(crate) fn by_type(
    alloc: Global,
    types: &Types,
    call: &str,
    input: &str,
) -> Result<String, DynError> {
    match call {
        "set" | "hold" | "whole" | "copied" => answer_of_contents(alloc, &types.own, call, input),
        "again"
        | "within"
        | "apart"
        | "read"
        | "plain"
        | "copy"
        | "unlimited"
        | "fits"
        | "across"
        | "inside"
        | "outside"
        | "show" => answer_of_bytes(alloc, types, call, input),
        _ => answer_of_wire(alloc, call, input),
    }
}

/// The answer, or the name of the error.
pub(crate) fn spelled(
    alloc: Global,
    found: Result<String, DynError>,
) -> Result<String, AllocError> {
    match found {
        Ok(text) => Ok(text),
        Err(error) => name_of(alloc, error),
    }
}

/// What a call answers.
fn answered(
    alloc: Global,
    types: &mut Types,
    call: &str,
    input: &str,
) -> Result<String, AllocError> {
    match call {
        "type" => put(alloc, &mut types.own, input),
        "other" => put(alloc, &mut types.other, input),
        _ => spelled(alloc, by_type(alloc, types, call, input)),
    }
}

/// What a row is answered with.
pub(crate) fn answer(alloc: Global, types: &mut Types, row: &str) -> Result<String, AllocError> {
    let row = unrolled(alloc, row)?;
    let (_, asked) = cut(&row);
    let (call, input) = asked.split_once(' ').unwrap_or((asked, ""));
    answered(alloc, types, call, input)
}
