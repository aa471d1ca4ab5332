//! Descriptor sets: the set that a schema gives by descriptor.proto, written as bytes, the parts of
//! a schema that a set states, and the schema of these messages, with definitions and laws. The
//! rules of the language aren't asked here.
#![tactic(auto)]

mod descriptor;
mod error;
pub mod laws;
mod names;
mod reading;
mod writing;

pub use descriptor::descriptor_schema;
pub use error::SetError;
pub use reading::read_parts;
pub use writing::write;
