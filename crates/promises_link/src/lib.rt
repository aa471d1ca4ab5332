//! The promises of `pg_link`, said again of calls of it: the edits of `must-fail` turn each answer,
//! and every one must be refused.
#![tactic(auto)]

mod counts;
mod errors;
mod linked;
mod sources;

pub use counts::{add, note, note_path, path_record, record, tally};
pub use errors::{code, place_of_fault};
pub use linked::{enum_names, files, place, places, resolve, targets};
pub use sources::{
    folder, folder_read, link, link_below, link_error_of, link_error_of_failed, link_order,
    link_refused, listed_read, place_in, read_file, source_error_of, source_error_of_failed,
};
