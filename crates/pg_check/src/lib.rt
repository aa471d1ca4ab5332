//! The rules of the proto3 language, from linked files to a checked schema.
#![tactic(auto)]

mod admitting;
mod building;
mod declare;
mod error;
pub mod laws;
mod parts;
mod rules;

pub use admitting::admit;
pub use building::build;
pub use error::CheckError;
