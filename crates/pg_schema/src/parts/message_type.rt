//! Message types.

use crate::parts::field::{EnumId, Field, TypeId};
use crate::parts::options::MessageOptions;

/// A message type. Map entries aren't message types here.
#[derive(Debug, PartialEq, Eq, Drop)]
pub struct MessageType {
    /// The full name, without a leading dot.
    pub name: String,
    /// The fields, by rising number.
    pub fields: Vec<Field>,
    /// The numbers of the fields, in order of declaration.
    pub declared: Vec<u32>,
    /// The names of the oneofs, in order of declaration.
    pub oneofs: Vec<String>,
    /// The message types declared in this one, in order.
    pub nested_types: Vec<TypeId>,
    /// The enums declared in this one, in order.
    pub nested_enums: Vec<EnumId>,
    /// The reserved field numbers, in order.
    pub reserved_numbers: Vec<ReservedFields>,
    /// The reserved field names, in order.
    pub reserved_names: Vec<String>,
    /// The options as stated.
    pub options: MessageOptions,
}

/// Reserved field numbers from the first to the last, both of them too.
#[derive(Clone, Copy, Debug, PartialEq, Eq)]
pub struct ReservedFields {
    /// The lowest.
    pub first: u32,
    /// The highest.
    pub last: u32,
}
