//! Laws about lines, each the contract of a function that does nothing.

ghost use Rattle.pg_lines.specs.laws.WorkedJson.{WorkedJson};

/// How small lines of each kind are printed as JSON.
pub fn worked_json()
    ensures { WorkedJson }
{}
