//! Fields of a message type, with the words that say what they hold.

ghost use Rattle.std.specs.Prelude.{◌≡◌, ◌∷◌, ℕ, List};
ghost use Rattle.pg_schema.specs.ScalarWords.{scalar_of};
ghost use Rattle.pg_schema.specs.Shape.{is_map, is_packable, is_singular};

use crate::parts::options::FieldOptions;

/// The index of a message type in its schema.
#[derive(Clone, Copy, Debug, PartialEq, Eq)]
pub struct TypeId {
    /// Counted from 0 in `Parts::types`.
    pub index: u32,
}

/// The index of an enum in its schema.
#[derive(Clone, Copy, Debug, PartialEq, Eq)]
pub struct EnumId {
    /// Counted from 0 in `Parts::enums`.
    pub index: usize,
}

/// The 15 scalar types (proto3 language guide, "Scalar Value Types").
#[derive(Clone, Copy, Debug, PartialEq, Eq)]
pub enum Scalar {
    /// `double`: 64 bits of a float.
    Double,
    /// `float`: 32 bits of a float.
    Float,
    /// `int32`: a signed number as a varint.
    Int32,
    /// `int64`: a signed number as a varint.
    Int64,
    /// `uint32`: an unsigned number as a varint.
    Uint32,
    /// `uint64`: an unsigned number as a varint.
    Uint64,
    /// `sint32`: a signed number as a zigzag varint.
    Sint32,
    /// `sint64`: a signed number as a zigzag varint.
    Sint64,
    /// `fixed32`: an unsigned number of four bytes.
    Fixed32,
    /// `fixed64`: an unsigned number of eight bytes.
    Fixed64,
    /// `sfixed32`: a signed number of four bytes.
    Sfixed32,
    /// `sfixed64`: a signed number of eight bytes.
    Sfixed64,
    /// `bool`: a varint, 0 or 1.
    Bool,
    /// `string`: a string in UTF-8.
    String,
    /// `bytes`: any bytes.
    Bytes,
}

/// The scalar type of a word that begins with `s`.
fn named_by_s(word: &str) -> Option<Scalar>
    ensures { (rest : List ℕ) → word.now ≡ 115 ∷ rest → result ≡ scalar_of word.now }
{
    match word {
        "string" => Some(Scalar::String),
        "sint32" => Some(Scalar::Sint32),
        "sint64" => Some(Scalar::Sint64),
        "sfixed32" => Some(Scalar::Sfixed32),
        "sfixed64" => Some(Scalar::Sfixed64),
        _ => None,
    }
}

impl Scalar {
    /// The scalar type of that word. `None` where it is the word of none (proto3 language guide,
    /// "Scalar Value Types").
    pub fn named(word: &str) -> Option<Self>
        ensures { result ≡ scalar_of word.now }
    {
        let Some(first) = word.as_bytes().first() else {
            return None;
        };
        match *first {
            b'b' => match word {
                "bool" => Some(Scalar::Bool),
                "bytes" => Some(Scalar::Bytes),
                _ => None,
            },
            b'd' => match word {
                "double" => Some(Scalar::Double),
                _ => None,
            },
            b'f' => match word {
                "float" => Some(Scalar::Float),
                "fixed32" => Some(Scalar::Fixed32),
                "fixed64" => Some(Scalar::Fixed64),
                _ => None,
            },
            b'i' => match word {
                "int32" => Some(Scalar::Int32),
                "int64" => Some(Scalar::Int64),
                _ => None,
            },
            b's' => named_by_s(word),
            b'u' => match word {
                "uint32" => Some(Scalar::Uint32),
                "uint64" => Some(Scalar::Uint64),
                _ => None,
            },
            _ => None,
        }
    }
}

/// What a field's items are. Of a map field: what its values are.
#[derive(Clone, Copy, Debug, PartialEq, Eq)]
pub enum Element {
    /// Items of a scalar type.
    Scalar(Scalar),
    /// Numbers of an enum.
    Enum(EnumId),
    /// Messages of a type.
    Message(TypeId),
}

impl Element {
    /// Whether a list of such items can be in one record: numbers, bool and enums, but no strings,
    /// bytes and messages (Encoding guide, "Packed Repeated Fields").
    pub fn is_packable(self) -> bool
        ensures { result ≡ is_packable self }
    {
        match self {
            Element::Scalar(scalar) => !matches!(scalar, Scalar::String | Scalar::Bytes),
            Element::Enum(_) => true,
            Element::Message(_) => false,
        }
    }
}

/// How many items of a field a message has (proto3 language guide, "Specifying Field
/// Cardinality").
#[derive(Clone, Copy, Debug, PartialEq, Eq)]
pub enum Presence {
    /// At most one, and never the zero item: a scalar or enum without `optional`.
    Implicit,
    /// At most one: `optional`, a member of a oneof, or a message.
    Explicit,
    /// Any number: `repeated`.
    Repeated {
        /// Whether the items are written as one record.
        packed: bool,
    },
    /// One item a key: `map`.
    Map {
        /// What the keys are.
        key: Scalar,
    },
}

impl Presence {
    /// Whether a message has one item of the field at most.
    pub fn is_singular(self) -> bool
        ensures { result ≡ is_singular self }
    {
        matches!(self, Presence::Implicit | Presence::Explicit)
    }

    /// Whether the field is one of a map.
    pub fn is_map(self) -> bool
        ensures { result ≡ is_map self }
    {
        matches!(self, Presence::Map { .. })
    }
}

/// A field of a message type.
#[derive(Debug, PartialEq, Eq, Drop)]
pub struct Field {
    /// The field number.
    pub number: u32,
    /// The name without its scope.
    pub name: String,
    /// How many items a message has.
    pub presence: Presence,
    /// What the items are.
    pub element: Element,
    /// The oneof that the field is a member of, by its index in `MessageType::oneofs`.
    pub oneof: Option<u32>,
    /// The JSON name, given or default.
    pub json_name: String,
    /// Whether the word `optional` was stated. A message field has explicit presence without it.
    pub states_optional: bool,
    /// The options as stated.
    pub options: FieldOptions,
}
