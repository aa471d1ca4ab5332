//! The files of a schema and the names in them: the source that files are read from, the imports,
//! and what a type name names.
#![tactic(auto)]

mod error;
mod folder;
mod ghosts;
pub mod laws;
mod linked;
mod linking;
mod listed;
mod names;
mod sources;
mod uses;
mod walk;

pub use error::{LinkError, Place, place_in};
pub use folder::Folder;
pub use ghosts::{GhostBytes, GhostCount, GhostNotes, GhostPaths};
pub use linked::Linked;
pub use linking::{link, link_below};
pub use listed::Listed;
pub use sources::{SourceError, Sources};
pub use uses::target::Target;
pub use walk::SourceFile;
pub use walk::reading::read_file;
