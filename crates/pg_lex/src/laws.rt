//! Laws about the definitions. Each is the contract of a function that does nothing.

ghost use Rattle.pg_lex.specs.Laws.{EachEscape, OneFault, OneReading, SmallFaults, SmallTexts, TokensOrFault};

/// A source file has one row of tokens at most.
pub fn one_reading()
    ensures { OneReading }
{}

/// A source file has one lexical fault at most, of one kind at one offset, and none where it has
/// tokens.
pub fn one_fault()
    ensures one { OneFault }
    ensures alone { TokensOrFault }
{}

/// The tokens of small source files, each escape of a literal, and small source files that have no
/// tokens.
pub fn small_texts()
    ensures tokens { SmallTexts }
    ensures escapes { EachEscape }
    ensures faults { SmallFaults }
{}
