//! Bytes that a writer may write of a message in whatever order of its fields and of its maps'
//! entries: what its own type and a new one make of them.
#![tactic(auto)]

pub mod laws;
