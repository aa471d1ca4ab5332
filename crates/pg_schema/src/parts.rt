//! All that a schema declares, as plain data.

pub(crate) mod enum_type;
pub(crate) mod field;
pub(crate) mod file;
pub(crate) mod message_type;
pub(crate) mod options;
pub(crate) mod service;

use self::enum_type::EnumType;
use self::file::File;
use self::message_type::MessageType;
use self::service::Service;

/// All that a schema declares: files, message types and services in order of declaration, and enums
/// scope by scope.
#[derive(Debug, PartialEq, Eq, Drop)]
pub struct Parts {
    /// The files, each after those that it imports.
    pub files: Vec<File>,
    /// The message types of all files. A `TypeId` is an index here.
    pub types: Vec<MessageType>,
    /// The enums of all files. An `EnumId` is an index here.
    pub enums: Vec<EnumType>,
    /// The services of all files. A `ServiceId` is an index here.
    pub services: Vec<Service>,
}
