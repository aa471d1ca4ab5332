//! How overviews are shown.
use pg_causes::{Overview, TypeLine, gate_all};
use pg_gate::ViewName;
use pg_schema::Schema;
use std::alloc::{AllocError, Global};

/// Adds an item to the list.
fn add(list: &mut String, item: &str) -> Result<(), AllocError> {
    if !list.is_empty() {
        list.push_str(", ")?;
    }
    list.push_str(item)
}

fn add_type(alloc: Global, list: &mut String, line: &TypeLine) -> Result<(), AllocError> {
    let name = line.name.as_str();
    match line.bound {
        Some(bytes) => add(list, &format!(in alloc; "breaks {name} {bytes}")?),
        None => add(list, &format!(in alloc; "compatible {name}")?),
    }
}

/// The causes, each with its reason and its message in hexadecimal digits, then the types that both
/// schemas have, those that were removed and those that were added.
fn shown(alloc: Global, overview: &Overview) -> Result<String, AllocError> {
    let mut list = String::new(alloc);
    for cause in &overview.causes {
        let digits = hex::encode(alloc, &cause.message)?;
        add(
            &mut list,
            &format!(in alloc; "{:?} {digits}", cause.reason)?,
        )?;
    }
    for line in &overview.types {
        add_type(alloc, &mut list, line)?;
    }
    for name in &overview.removed {
        add(&mut list, &format!(in alloc; "removed {name}")?)?;
    }
    for name in &overview.added {
        add(&mut list, &format!(in alloc; "added {name}")?)?;
    }
    Ok(list)
}

/// What is shown of `gate_all` by names.
pub(crate) fn overviewed(alloc: Global, old: &Schema, new: &Schema) -> Result<String, AllocError> {
    let overview = gate_all(alloc, old, new, ViewName::Names)?;
    shown(alloc, &overview)
}
