//! The search: for a pair of types the shortest message that breaks, and the table of bounds that
//! shows it.
#![tactic(auto)]

mod arcs;
pub mod laws;
mod least_bounds;
mod queue;
mod relaxing;
mod searching;
mod several;
mod witness;

pub use least_bounds::{settle, settle_from};
pub use searching::{Found, find_with, search, search_counted, search_with};
pub use several::bounds_from;
pub use witness::{PairChoice, path};
