//! Laws of the parts of a message of a type. Each is the contract of a function that does nothing.

ghost use Rattle.pg_dyn.specs.laws.OwnParts.{ComparandsAreWritten, ChildrenAreShorter, OneIsEmpty, OwnPartsFit, SiblingsMutual};

/// The parts of a field fit it, and are in order.
pub fn own_parts_fit()
    ensures { OwnPartsFit }
{}

/// Of two members of one oneof one has no parts.
pub fn one_is_empty()
    ensures { OneIsEmpty }
{}

/// Siblings in a oneof are so either way round, and have two numbers.
pub fn siblings_mutual()
    ensures { SiblingsMutual }
{}

/// Each child of a message has fewer bytes than the message.
pub fn children_are_shorter()
    ensures { ChildrenAreShorter }
{}

/// The parts of an old message, as they are written, are what its encoding is made of.
pub fn comparands_are_written()
    ensures { ComparandsAreWritten }
{}
