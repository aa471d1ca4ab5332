//! What breaks in the message of a choice.

ghost use Rattle.std.specs.Prelude.{◌≡◌};
ghost use Rattle.pg_pairs.specs.choices.Choices.{case_number};

/// What breaks.
#[derive(Clone, Copy, Debug, PartialEq, Eq)]
pub enum Case {
    /// A field whose elements are of unlike kinds, or a map beside a field that is none.
    Unlike,
    /// An item that isn't read as the same item.
    Gap,
    /// A child.
    Child,
    /// A list where the new type takes one item.
    List,
    /// An entry of a map.
    Map,
    /// Two fields that meet in one oneof of the new type.
    Oneof,
}

impl Case {
    /// The number of the case in certificates' faults: from 1 to 6, in the order above.
    pub fn number(self) -> u8
        ensures { result ≡ case_number self }
    {
        match self {
            Case::Unlike => 1,
            Case::Gap => 2,
            Case::Child => 3,
            Case::List => 4,
            Case::Map => 5,
            Case::Oneof => 6,
        }
    }
}
