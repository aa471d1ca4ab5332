//! Enums.

use crate::parts::options::{EnumOptions, EnumValueOptions};

/// An enum.
#[derive(Debug, PartialEq, Eq, Drop)]
pub struct EnumType {
    /// The full name, without a leading dot.
    pub name: String,
    /// The values, in order of declaration.
    pub values: Vec<EnumValue>,
    /// The reserved numbers, in order.
    pub reserved_numbers: Vec<ReservedValues>,
    /// The reserved names of values, in order.
    pub reserved_names: Vec<String>,
    /// The options as stated.
    pub options: EnumOptions,
}

/// A value of an enum.
#[derive(Debug, PartialEq, Eq, Drop)]
pub struct EnumValue {
    /// The name without its scope.
    pub name: String,
    /// The number that messages have.
    pub number: i32,
    /// The options as stated.
    pub options: EnumValueOptions,
}

/// Reserved numbers of values from the first to the last, both of them too.
#[derive(Clone, Copy, Debug, PartialEq, Eq)]
pub struct ReservedValues {
    /// The lowest.
    pub first: i32,
    /// The highest.
    pub last: i32,
}
