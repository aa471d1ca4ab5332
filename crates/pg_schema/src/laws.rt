//! Laws over the definitions alone.

ghost use Rattle.pg_schema.specs.laws.WorkedRules.{WorkedRules};

/// What the rules of a schema take and what they refuse, by small examples.
pub fn worked_rules()
    ensures { WorkedRules }
{}
