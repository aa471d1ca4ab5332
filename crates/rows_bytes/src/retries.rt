//! Rows that are answered again where memory is refused.
mod setting;

use crate::row::{by_type, spelled};
use crate::types::Types;
use kit_rows::{retry, unrolled};
use pg_dyn::DynError;
use std::io;

fn again(rt: &HostRuntime, types: &Types, call: &str, input: &str) -> io::Result<String> {
    let found = retry!(
        rt,
        Err(DynError::Memory),
        by_type(rt.alloc(), types, call, input)
    );
    Ok(spelled(rt.alloc(), found)?)
}

/// What is printed of `CALL INPUT`, with what comes in front of the answer (`kit_rows::retry`): of
/// `set` this call alone is made again.
pub(crate) fn answer(rt: &HostRuntime, types: &Types, input: &str) -> io::Result<String> {
    let input = unrolled(rt.alloc(), input)?;
    let (call, input) = input.split_once(' ').unwrap_or((&input, ""));
    match call {
        "set" => setting::answer(rt, &types.own, input),
        _ => again(rt, types, call, input),
    }
}
