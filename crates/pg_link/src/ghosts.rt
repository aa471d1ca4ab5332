//! What only clauses read: it takes no memory.
ghost use Rattle.std.specs.Prelude.{◌≡◌, ℕ, List, [], ◌∷◌, ◌+◌, ◌++◌};
ghost use Rattle.std.specs.Borrow.{ftrue};

use std::marker::{Model, PhantomData};

/// What was noted: each note, their bytes in one row, and how many there are.
#[derive(Drop)]
pub struct GhostNotes {
    marker: PhantomData<u8>,
    pub ghost paths: { List (List ℕ) },
    pub ghost bytes: { List ℕ },
    pub ghost count: { ℕ },
}

/// The bytes that a sink took.
pub type GhostBytes = GhostNotes;

/// A count without an end.
pub type GhostCount = GhostNotes;

/// The paths that a source was asked for.
pub type GhostPaths = GhostNotes;

impl Model for GhostNotes {
    ghost also_owns = { λ _. ftrue };
}

impl GhostNotes {
    /// No notes.
    pub fn new() -> GhostNotes
        ensures { (result.paths ≡ []) × (result.bytes ≡ []) × (result.count ≡ 0) }
    {
        GhostNotes {
            marker: PhantomData,
        }
    }

    /// Appends a note.
    pub fn note(&mut self, _bytes: &[u8])
        ensures { (self.new.paths ≡ self.old.paths ++ _bytes.now ∷ [])
            × (self.new.bytes ≡ self.old.bytes ++ _bytes.now)
            × (self.new.count ≡ self.old.count + 1) }
    {}

    /// Counts one more.
    pub fn add(&mut self)
        ensures { self.new.count ≡ self.old.count + 1 }
    {
        self.note(b"");
    }
}
