//! How an encoding grows. It is the contract of a function that does nothing.

ghost use Rattle.pg_dyn.specs.encoding.Growing.{EncodingGrows};

/// A part that is put after the others adds its record to the encoding: of a field with presence
/// or of a list that isn't packed, in no oneof.
pub fn encoding_grows()
    ensures { EncodingGrows }
{}
