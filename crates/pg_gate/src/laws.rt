//! Laws about answers and folders, each the contract of a function that does nothing.

ghost use Rattle.pg_gate.specs.laws.Agreement.{AllSaysWhatGateSays};
ghost use Rattle.pg_gate.specs.laws.InFolders.{FoldersInTurn};

/// What `gate_all` says of a message type that both schemas declare is what `gate_with` says of it
/// under the same view: that no message breaks, or how many bytes a shortest one has that does.
pub fn all_says_what_gate_says()
    ensures { AllSaysWhatGateSays }
{}

/// A path of a side without included folders is looked for in its own folder alone. Of several
/// folders the first that has a path gives it, and a path is lacked where each of them lacks it.
pub fn folders_in_turn()
    ensures { FoldersInTurn }
{}
