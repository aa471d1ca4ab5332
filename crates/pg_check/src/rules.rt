//! The rules of the language, and which of them a file breaks.

pub(crate) mod by_place;
pub(crate) mod enumeration;
pub(crate) mod fault;
pub(crate) mod file;
pub(crate) mod member;
pub(crate) mod message;
pub(crate) mod names;
pub(crate) mod numbers;
pub(crate) mod options;
pub(crate) mod outline;
pub(crate) mod overlaps;
pub(crate) mod reserved;
pub(crate) mod text_keys;
pub(crate) mod types;
