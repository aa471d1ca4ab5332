//! Services and their methods.

use crate::parts::field::TypeId;
use crate::parts::options::{MethodOptions, ServiceOptions};

/// The index of a service in its schema.
#[derive(Clone, Copy, Debug, PartialEq, Eq)]
pub struct ServiceId {
    /// Counted from 0 in `Parts::services`.
    pub index: usize,
}

/// A service.
#[derive(Debug, PartialEq, Eq, Drop)]
pub struct Service {
    /// The full name, without a leading dot.
    pub name: String,
    /// The methods, in order of declaration.
    pub methods: Vec<Method>,
    /// The options as stated.
    pub options: ServiceOptions,
}

/// A method of a service.
#[derive(Debug, PartialEq, Eq, Drop)]
pub struct Method {
    /// The name without its scope.
    pub name: String,
    /// What a call sends.
    pub input: TypeId,
    /// What a call answers.
    pub output: TypeId,
    /// Whether a call sends a stream.
    pub client_streaming: bool,
    /// Whether a call answers a stream.
    pub server_streaming: bool,
    /// The options as stated.
    pub options: MethodOptions,
}
