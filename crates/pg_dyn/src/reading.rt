//! What bytes are read as: their records are gathered, and then read field by field.

pub(crate) mod decoding;
pub(crate) mod elements;
mod entries;
mod faults;
mod gathering;
mod items;
mod keys;
mod nested;
mod oneof_runs;
mod ordering;
mod packed;
mod parts;
mod scalar;
mod scalars;
mod sorting;
mod stop;
pub(crate) mod unlimited;

pub(crate) use nested::read_message;
