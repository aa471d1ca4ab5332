//! The names of the views by which the enums of two schemas are compared.

/// How a number of an old enum is compared with the same number of a new one.
#[derive(Clone, Copy, Debug, PartialEq, Eq)]
pub enum ViewName {
    /// By the number alone: it is the same item in both.
    Numbers,
    /// By its names too: where both enums declare the number, it is the same item only if both give it
    /// the same set of names, each without its scope.
    Names,
}
