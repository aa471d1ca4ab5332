//! Rows that are answered again where memory is refused.
use crate::overviews::overviewed;
use crate::relaying::handed_on_by;
use crate::row::gated;
use kit_rows::{cut, retry};
use kit_schemas::schemas;
use pg_gate::ViewName;
use pg_schema::Schema;
use std::alloc::{AllocError, Global};
use std::io;

/// What the call answers, of which `gate_with` and `gate_all` are by names.
fn called(
    alloc: Global,
    call: &str,
    old: &Schema,
    new: &Schema,
    digits: &str,
) -> Result<String, AllocError> {
    match call {
        "gate" => gated(alloc, old, new, None),
        "gate_with" => gated(alloc, old, new, Some(ViewName::Names)),
        "gate_all" => overviewed(alloc, old, new),
        _ => handed_on_by(alloc, old, new, digits),
    }
}

fn again(
    rt: &HostRuntime,
    call: &str,
    old: &Schema,
    new: &Schema,
    digits: &str,
) -> io::Result<String> {
    Ok(retry!(
        rt,
        Err(AllocError),
        called(rt.alloc(), call, old, new, digits)
    )?)
}

/// What is printed of `CALL OLD SCHEMA | NEW SCHEMA [| DIGITS]`, with what comes in front of the
/// answer (`kit_rows::retry`): of `gate`, of `gate_with` and `gate_all` by names and of `relay`.
pub(crate) fn answer(rt: &HostRuntime, input: &str) -> io::Result<String> {
    let (call, schemas_of) = input.split_once(' ').unwrap_or((input, ""));
    let (old, words) = cut(schemas_of);
    let (new, digits) = cut(words);
    match schemas(rt.alloc(), old, new)? {
        Some((old, new)) => again(rt, call, &old, &new, digits),
        None => Ok(String::from_str(rt.alloc(), "no schemas")?),
    }
}
