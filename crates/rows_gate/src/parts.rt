//! The parts of an output that a row asks for, where no more of the output is known from outside:
//! `PART`, with ` ; ` between two.
use std::alloc::{AllocError, Global};

fn add(told: &mut String, part: &str) -> Result<(), AllocError> {
    if !told.is_empty() {
        told.push_str(" ; ")?;
    }
    told.push_str(part)?;
    Ok(())
}

/// The parts that are in the output, or the whole output where no part is asked for.
pub(crate) fn told(alloc: Global, text: String, parts: &str) -> Result<String, AllocError> {
    if parts.is_empty() {
        return Ok(text);
    }
    let mut told = String::new(alloc);
    for part in parts.split(" ; ") {
        if text.contains(part) {
            add(&mut told, part)?;
        }
    }
    Ok(told)
}
