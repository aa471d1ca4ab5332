//! The gaps between scalar types.
use crate::shown::add;
use pg_pairs::{Gap, gap};
use pg_schema::Scalar;
use std::alloc::{AllocError, Global};

static SCALARS: &[&str] = &[
    "int32", "int64", "uint32", "uint64", "bool", "sint32", "sint64", "fixed32", "fixed64",
    "sfixed32", "sfixed64", "float", "double", "string", "bytes",
];

/// The gap, or `None` where a name is none of a scalar type.
fn gap_of(old: &str, new: &str) -> Option<Gap> {
    Some(gap(Scalar::named(old)?, Scalar::named(new)?))
}

fn shown(alloc: Global, old: &str, new: &str) -> Result<String, AllocError> {
    match gap_of(old, new) {
        Some(Gap::None) => format!(in alloc; "{new} none"),
        Some(Gap::Unlike) => format!(in alloc; "{new} unlike"),
        Some(Gap::Least { body, value }) => format!(in alloc; "{new} {body}:{value}"),
        None => String::from_str(alloc, "no scalar type"),
    }
}

/// `gaps | SCALAR`: of the old scalar type beside each new one, `unlike`, `none`, or the body's
/// bytes and the value of the least item that is lost.
pub(crate) fn gaps(alloc: Global, old: &str) -> Result<String, AllocError> {
    let mut list = String::new(alloc);
    for new in SCALARS {
        let gap = shown(alloc, old, new)?;
        add(&mut list, gap.as_str())?;
    }
    Ok(list)
}
