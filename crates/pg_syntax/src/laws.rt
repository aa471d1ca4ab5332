//! Laws about the definitions. Each is the contract of a function that does nothing.

ghost use Rattle.pg_syntax.specs.Proto3 as grammar;
ghost use Rattle.pg_syntax.specs.Refusals.{OneTree};

/// A row of tokens is spelt by one tree of the grammar at most, but for the spans of its nodes.
pub fn one_tree()
    ensures { OneTree (grammar.file 64) }
{}
