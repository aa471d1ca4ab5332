//! Certificates: tables of bounds that say why a message breaks or none does, and their checker.
#![tactic(auto)]

mod bounds;
mod certificate;
mod checking;
mod error;
mod guesses;
mod heading;
pub mod laws;
mod pair_keys;
mod reading;
mod verdict;
mod witness;
mod writing;

pub use bounds::{Bounds, BoundsError, PairBound};
pub use certificate::Certificate;
pub use checking::check;
pub use error::CertError;
pub use reading::from_text;
pub use verdict::Verdict;
pub use writing::to_text;
