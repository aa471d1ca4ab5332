//! What holds of all that a schema declares, by subject.

pub(crate) mod declared_names;
mod enums;
mod fields;
mod files;
mod messages;
mod packages;
mod scopes;
pub(crate) mod sound;
mod text_sets;
mod uses;
mod words;
