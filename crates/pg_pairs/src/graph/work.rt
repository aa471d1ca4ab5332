//! What a search has done.

/// How often a search has done each of its steps.
#[derive(Clone, Copy, Debug, PartialEq, Eq)]
pub struct Work {
    /// The pairs whose bound it has settled on a number.
    pub settled: u64,
    /// The edges whose cost it has asked for.
    pub relaxed: u64,
    /// The pairs whose cost without a child it has asked for.
    pub opened: u64,
}
