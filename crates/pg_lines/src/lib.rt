//! The lines of an answer as plain data, how each is printed, and what they are written to. Which
//! lines an answer has is said where it is found.
//!
//! A line names a type, the bytes of a message, a field with its position, or why there is no
//! answer: by a code, a side and a place. It borrows what it names. `words_of` prints lines in
//! words, and `json_of` the same lines as JSON.
#![tactic(auto)]

mod buffer;
mod hex;
mod json;
pub mod laws;
mod line;
mod location;
mod note;
mod note_object;
mod printing;
mod quoted;
mod refusal;
mod sentences;
mod side;
mod sink;
mod standard_output;
mod step;

pub use buffer::Buffer;
pub use line::{Line, Listed, PlainCause};
pub use location::{Location, PairNames};
pub use note::PlacedNote;
pub use printing::{json_of, words_of};
pub use refusal::Refusal;
pub use side::Side;
pub use sink::{Sink, SinkError, write_all};
pub use standard_output::StandardOutput;
pub use step::{NamedField, Step};
