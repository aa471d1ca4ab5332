//! What a reader of another type doesn't read as the same item.

pub(crate) mod gap_cost;
pub(crate) mod gap_kind;
pub(crate) mod likeness;
pub(crate) mod scalar_gap;
