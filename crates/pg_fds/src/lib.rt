//! Descriptor sets: written of schemas, and read as schemas, which keep to the rules of the
//! language. What a set states and what is written is `pg_set`'s.
#![tactic(auto)]

mod error;
pub mod laws;
mod reading;
mod round_trip;
mod writing;

pub use error::FdsError;
pub use pg_set::descriptor_schema;
pub use reading::read;
pub use round_trip::read_again;
pub use writing::write;
