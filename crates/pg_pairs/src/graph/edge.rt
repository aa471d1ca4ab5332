//! Edges between pairs.

use crate::choices::choice::Pair;

/// What of a field an edge goes by.
#[derive(Clone, Copy, Debug, PartialEq, Eq)]
pub enum Part {
    /// An item of it.
    Whole,
    /// The value of an entry of a map.
    Value,
}

/// A field of a pair that holds messages in both types.
#[derive(Clone, Copy, Debug, PartialEq, Eq)]
pub struct Edge {
    /// The pair that has the field.
    pub from: Pair,
    /// The pair of the messages that it holds.
    pub child: Pair,
    /// The field's number.
    pub number: u32,
    /// What of the field is the message.
    pub part: Part,
}
