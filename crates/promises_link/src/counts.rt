//! What only clauses read.

ghost use Rattle.std.specs.Prelude.{◌≡◌, ◌+◌, [], ◌∷◌, ◌++◌};

use pg_link::{GhostBytes, GhostCount, GhostPaths};

/// What `GhostCount::new` answers.
pub fn tally() -> GhostCount
    ensures { result.count ≡ 0 }
{
    GhostCount::new()
}

/// What `GhostCount::add` does.
pub fn add(tally: &mut GhostCount)
    ensures { tally.new.count ≡ tally.old.count + 1 }
{
    tally.add();
}

/// What `GhostBytes::new` answers.
pub fn record() -> GhostBytes
    ensures { result.bytes ≡ [] }
{
    GhostBytes::new()
}

/// What `GhostBytes::note` does.
pub fn note(list: &mut GhostBytes, bytes: &[u8])
    ensures { list.new.bytes ≡ list.old.bytes ++ bytes.now }
{
    list.note(bytes);
}

/// What `GhostPaths::new` answers.
pub fn path_record() -> GhostPaths
    ensures { result.paths ≡ [] }
{
    GhostPaths::new()
}

/// What `GhostPaths::note` does.
pub fn note_path(list: &mut GhostPaths, path: &[u8])
    ensures { list.new.paths ≡ list.old.paths ++ path.now ∷ [] }
{
    list.note(path);
}
