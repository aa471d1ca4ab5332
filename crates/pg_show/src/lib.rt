//! How a message is shown by its schema, and the bytes of a hexadecimal argument.
#![tactic(auto)]

mod error;
mod hex_word;
mod item;
pub mod laws;
mod lines;
mod showing;

pub use error::HexError;
pub use hex_word::bytes_of_hex;
pub use showing::show;
