//! Gaps between scalar types.

/// Of the items of one scalar type, those that a reader of another doesn't read as the same item.
#[derive(Clone, Copy, Debug, PartialEq, Eq)]
pub enum Gap {
    /// Their items are of different kinds or wire types.
    Unlike,
    /// Each item is read as itself.
    None,
    /// A shortest item that isn't.
    Least {
        /// The bytes of its body, with those of the length before it where it has one.
        body: u32,
        /// Its number; of bytes its one byte.
        value: i128,
    },
}
