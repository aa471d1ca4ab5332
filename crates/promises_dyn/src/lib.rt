//! The promises of `pg_dyn`, said again of calls of it: the edits of `must-fail` turn each answer,
//! and every one must be refused.
#![tactic(auto)]

pub mod borrowed;
mod errors;
mod messages;
mod reading;
mod words;
mod writing;

pub use errors::{at, code, error_of, error_of_failed};
pub use messages::{contents, empty, fits, get, is_plain, put, set, type_id, unknown, whole};
pub use reading::{decode, decode_ref, decode_ref_unlimited};
pub use words::{complement_64, element_wire_type, number_of};
pub use writing::{encode, encode_ref, encode_unshared_ref};
