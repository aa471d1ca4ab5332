//! Laws over the definitions alone.

ghost use Rattle.pg_notes.specs.laws.WorkedNotes.{WorkedNotes};

/// What is told of and what isn't, by small examples.
pub fn worked_notes()
    ensures { WorkedNotes }
{}
