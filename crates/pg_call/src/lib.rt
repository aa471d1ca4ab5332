//! What the arguments of a command line call for, read with `clap`.
#![tactic(auto)]

mod command_line;
mod commands;
mod help;
pub mod laws;

pub use command_line::{call_of, matches_of};
use pg_dyn::ViewName;

/// The files of a side, by their paths below a folder: source files, with all that they import, or
/// one descriptor set. A path that the folder lacks is looked for in the included folders in turn.
/// The list, where there is one, is a file by its path from the current folder; each of its lines
/// names a further file of the side.
#[derive(Clone, Copy)]
pub struct Files<'a> {
    pub folder: &'a str,
    pub includes: &'a [&'a str],
    pub paths: &'a [&'a str],
    pub list: &'a [&'a str],
}

/// The files of the old and of the new side.
#[derive(Clone, Copy)]
pub struct BothFiles<'a> {
    pub old: Files<'a>,
    pub new: Files<'a>,
}

/// What the gate is asked: what a reader of the new type reads of the messages that a writer of the
/// old one writes, with enums compared by the view. On request, the answer is the certificate
/// alone; else, on request, it has both directions, and it explains what breaks.
#[derive(Clone, Copy)]
pub struct GateCall<'a> {
    pub files: BothFiles<'a>,
    /// The full name of the message type.
    pub root: &'a str,
    pub certificate_only: bool,
    pub both: bool,
    pub explain: bool,
    /// Whether the lines are printed as JSON.
    pub json: bool,
    pub view: ViewName,
}

/// What the gate of all message types is asked: what a reader of the new types reads of the
/// messages that a writer of the old ones writes, for all message types that both sides have. Enums
/// are compared by the view. On request each cause is explained, and it is noted what else changed.
#[derive(Clone, Copy)]
pub struct GateAllCall<'a> {
    pub files: BothFiles<'a>,
    pub explain: bool,
    /// Whether the lines are printed as JSON.
    pub json: bool,
    pub notes: bool,
    pub view: ViewName,
}

/// What is to be shown: the message that the bytes of this argument are read as, by the type of
/// this full name in the files.
#[derive(Clone, Copy)]
pub struct ShowCall<'a> {
    pub files: Files<'a>,
    /// The full name of the message type.
    pub root: &'a str,
    /// The argument that spells the bytes.
    pub word: &'a str,
    /// Whether the line is printed as JSON.
    pub json: bool,
}

/// The arguments of a command line, as they are meant.
#[derive(Clone, Copy)]
pub enum Call<'a> {
    /// The descriptor set of these source files, and of all that they import.
    Compile(Files<'a>),
    /// What the gate finds of one message type.
    Gate(GateCall<'a>),
    /// What the gate finds of all message types.
    GateAll(GateAllCall<'a>),
    /// How a message is shown.
    Show(ShowCall<'a>),
    /// Whether the certificate in the file of this path holds of the two sides; on request as JSON.
    Verify {
        files: BothFiles<'a>,
        certificate: &'a str,
        json: bool,
    },
    /// The full names of the message types of these files; on request as JSON.
    Types {
        files: Files<'a>,
        json: bool,
    },
}
