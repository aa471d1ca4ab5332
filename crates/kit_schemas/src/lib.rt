//! Schemas of a few types, each read of one line, for tests and for programs that answer rows.
//!
//! `M: int32 a=1, repeated N b=2; N: bool x=1` is what a file without a package declares by
//! `message M { int32 a = 1; repeated N b = 2; } message N { bool x = 1; }`; a type without fields
//! is its name alone. A field's type may have a label in front: `optional`, `repeated`, `unpacked`
//! (repeated, with `[packed = false]`), or `k0`, `k1` and so on for a member of the oneof of that
//! name. A type is a scalar type, the name of a message type, `map<KEY,VALUE>`, or `E` for `enum E
//! { Z = 0; }`, which each schema declares; with `E: Z=0, A=300; ` in front a line gives it these
//! values.
#![tactic(auto)]

mod field;
mod message;
mod parts;

pub use parts::{schema, schemas};
