//! Files.

use crate::parts::field::{EnumId, TypeId};
use crate::parts::options::FileOption;
use crate::parts::service::ServiceId;

/// A file, with the indices of what it declares outside of any message.
#[derive(Debug, PartialEq, Eq, Drop)]
pub struct File {
    /// The path by which it is imported.
    pub name: String,
    /// The package; empty where none is stated.
    pub package: String,
    /// The imports, in order.
    pub imports: Vec<Import>,
    /// The message types that are nested in no other, in order of declaration.
    pub types: Vec<TypeId>,
    /// The enums that are nested in no message, in order of declaration.
    pub enums: Vec<EnumId>,
    /// The services, in order of declaration.
    pub services: Vec<ServiceId>,
    /// The options as stated, by rising number.
    pub options: Vec<FileOption>,
}

/// An import statement.
#[derive(Debug, PartialEq, Eq, Drop)]
pub struct Import {
    /// The path of the imported file.
    pub path: String,
    /// Whether it is an `import public`, which hands on the names of that file.
    pub is_public: bool,
}
