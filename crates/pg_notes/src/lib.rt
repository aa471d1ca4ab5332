//! What may be told of two schemas beside their causes of breaking. A change that breaks no message
//! may still be seen: by JSON and the text format, which have names; by code, which has them too;
//! by a later change, which takes a number again; by clients, which call methods.
//!
//! `notes` gives each such change once, as a value that names the field, value or method by its
//! place in both schemas. No note says that a message breaks, and none says that it doesn't.
//!
//! With `message M { int32 a = 1; int32 b = 2; }` as the old schema and
//! `message M { int32 c = 1; }` as the new one,
//!
//! ```text
//! let told = notes(alloc, &old, &new)?;
//! ```
//!
//! has two notes. The first is `Note::Renamed` with the number 1 and `now: None`: field 1 has
//! another name, and no field has the old one. The second is `Note::Unreserved` with the number 2:
//! field 2 went, and a later field may take its number. With `reserved 2;` in the new type there
//! is just the first note.
#![tactic(auto)]

mod enums;
mod fields;
pub mod laws;
mod note;
mod reserved;
mod services;
mod tables;
mod telling;

pub use note::{EnumPair, Note, ServicePair, TypePair};
pub use telling::notes;
