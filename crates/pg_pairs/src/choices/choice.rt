//! Pairs of types, and the ways in which a message of the old one can break.

use crate::choices::case::Case;
use pg_schema::TypeId;

/// An old and a new message type, each by its index in its own schema.
#[derive(Clone, Copy, Debug, PartialEq, Eq)]
pub struct Pair {
    /// The type of the old schema, by which messages are written.
    pub old: TypeId,
    /// The type of the new schema, by which they are read.
    pub new: TypeId,
}

/// A way in which a message of the old type can break, and the length of a message that does, as
/// `carry` makes it.
#[derive(Clone, Copy, Debug, PartialEq, Eq)]
pub struct Choice {
    /// The number of the field that breaks; of two fields that meet the smaller one.
    pub number: u32,
    /// What breaks.
    pub case: Case,
    /// Where an entry of a map breaks: 1 in its key, 2 in its value, 0 where keys or values are of
    /// unlike kinds. Of two fields that meet the larger number. Else 0.
    pub part: u32,
    /// The bytes of that message: at least 1 and at most 2,147,483,647.
    pub cost: u32,
}
