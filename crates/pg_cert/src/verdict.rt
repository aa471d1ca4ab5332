//! What the checker answers of a certificate that holds.

/// What a certificate shows of its root pair.
#[derive(Clone, Copy, Debug, PartialEq, Eq)]
pub enum Verdict {
    /// No message of the old type breaks.
    Compatible,
    /// The witness breaks, and no message that breaks has fewer bytes.
    Breaks,
    /// Each message that breaks has at least so many bytes.
    AtLeast(u32),
}
