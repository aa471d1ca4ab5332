//! One row.
use crate::relaying::handed_on;
use kit_rows::cut;
use kit_schemas::schemas;
use pg_gate::{Answer, GateError, ViewName, gate, gate_with};
use pg_schema::Schema;
use std::alloc::{AllocError, Global};

fn shown(alloc: Global, answer: &Answer) -> Result<String, AllocError> {
    match answer {
        Answer::Compatible(_) => String::from_str(alloc, "compatible"),
        Answer::Breaks { certificate, .. } => {
            hex::encode(alloc, certificate.witness().unwrap_or(&[]))
        }
    }
}

/// What is shown of an answer, or of its refusal. It is lent, so that it is dropped only once: a
/// drop takes the prover long at each way out.
fn answered_with(alloc: Global, found: &Result<Answer, GateError>) -> Result<String, AllocError> {
    match found {
        Ok(answer) => shown(alloc, answer),
        Err(GateError::Memory) => Err(AllocError),
        Err(_) => String::from_str(alloc, "no such type"),
    }
}

/// What is shown of the answer of `gate`, or under that view of `gate_with`.
pub(crate) fn gated(
    alloc: Global,
    old: &Schema,
    new: &Schema,
    view: Option<ViewName>,
) -> Result<String, AllocError> {
    let found = match view {
        Some(view) => gate_with(alloc, old, new, "M", view),
        None => gate(alloc, old, new, "M"),
    };
    answered_with(alloc, &found)
}

fn both(alloc: Global, old: &Schema, new: &Schema) -> Result<String, AllocError> {
    let numbers = gated(alloc, old, new, Some(ViewName::Numbers))?;
    let names = gated(alloc, old, new, Some(ViewName::Names))?;
    format!(in alloc; "{numbers} | {names}")
}

fn answered(alloc: Global, old: &str, new: &str) -> Result<String, AllocError> {
    match schemas(alloc, old, new)? {
        Some((old, new)) => both(alloc, &old, &new),
        None => String::from_str(alloc, "no schemas"),
    }
}

/// The answers of a row by number and by name, or what is handed on.
pub(crate) fn answer(alloc: Global, row: &str) -> Result<String, AllocError> {
    let (_, lines) = cut(row);
    let (old, lines) = cut(lines);
    let (new, digits) = cut(lines);
    match digits {
        "" => answered(alloc, old, new),
        _ => handed_on(alloc, old, new, digits),
    }
}
