//! The subcommands, with their arguments.

use crate::help::{
    Answers, INCLUDE, JSON, LIST, NEW_FILE, NEW_FILES, NEW_INCLUDE, NEW_LIST, OLD_FILE, OLD_FILES,
    OLD_INCLUDE, OLD_LIST, SHOWN_FILE,
};

/// An argument: its name, what its value is called where that has to be said, and what help says.
#[derive(Clone, Copy)]
pub(crate) enum Description {
    /// A folder, by default the current one.
    Folder(&'static str, &'static str),
    /// An option that may be left out.
    Optional(&'static str, &'static str, &'static str),
    /// An option that may be there as often as needed.
    Each(&'static str, &'static str, &'static str),
    /// An option that has to be there.
    Named(&'static str, &'static str, &'static str),
    /// An argument without a name that has to be there.
    Positional(&'static str, &'static str),
    /// An argument without a name that may be there as often as needed.
    Positionals(&'static str, &'static str),
    /// An option without a value.
    Flag(&'static str, &'static str),
    /// The view by which enums are compared.
    View,
}

/// A subcommand: its name, what help says of it before its arguments and after them, and these.
#[derive(Clone, Copy)]
pub(crate) struct Subcommand {
    pub name: &'static str,
    pub about: &'static str,
    pub answers: Answers,
    pub arguments: &'static [Description],
}

const COMPILE: Subcommand = Subcommand {
    name: "compile",
    about: "Write the descriptor set of proto3 files and of all that they import",
    answers: Answers::Compile,
    arguments: &[
        Description::Folder("dir", "The folder of the files and of their imports"),
        Description::Each("include", "D", INCLUDE),
        Description::Optional("files-from", "LIST", LIST),
        Description::Positionals("FILE", "The proto3 files"),
    ],
};

const GATE: Subcommand = Subcommand {
    name: "gate",
    about: "Find whether a reader of the new type sees all that a writer of the old one writes",
    answers: Answers::Gate,
    arguments: &[
        Description::Folder("old-dir", "The folder of the old file"),
        Description::Folder("new-dir", "The folder of the new file"),
        Description::Each("old-include", "D", OLD_INCLUDE),
        Description::Each("new-include", "D", NEW_INCLUDE),
        Description::Named("old", "F", OLD_FILE),
        Description::Named("new", "F", NEW_FILE),
        Description::Named("type", "NAME", "The message type, by its full name"),
        Description::Flag(
            "cert",
            "Write the certificate alone, which shows the answer",
        ),
        Description::Flag(
            "both",
            "Ask for both directions; with --cert it does nothing",
        ),
        Description::Flag(
            "explain",
            "Show what breaks as both sides read it; with --cert it does nothing",
        ),
        Description::Flag("json", JSON),
        Description::View,
    ],
};

const GATE_ALL: Subcommand = Subcommand {
    name: "gate-all",
    about: "Find all that breaks between the message types of two sides",
    answers: Answers::GateAll,
    arguments: &[
        Description::Folder("old-dir", "The folder of the old files"),
        Description::Folder("new-dir", "The folder of the new files"),
        Description::Each("old-include", "D", OLD_INCLUDE),
        Description::Each("new-include", "D", NEW_INCLUDE),
        Description::Each("old", "F", OLD_FILES),
        Description::Each("new", "F", NEW_FILES),
        Description::Optional("old-files-from", "LIST", OLD_LIST),
        Description::Optional("new-files-from", "LIST", NEW_LIST),
        Description::Flag("explain", "Show each cause as both sides read it"),
        Description::Flag("json", JSON),
        Description::Flag(
            "notes",
            "Note what else changed, as names; no status changes",
        ),
        Description::View,
    ],
};

const VERIFY: Subcommand = Subcommand {
    name: "verify",
    about: "Check a certificate of two message types, which the gate wrote with --cert",
    answers: Answers::Verify,
    arguments: &[
        Description::Folder("old-dir", "The folder of the old file"),
        Description::Folder("new-dir", "The folder of the new file"),
        Description::Each("old-include", "D", OLD_INCLUDE),
        Description::Each("new-include", "D", NEW_INCLUDE),
        Description::Named("old", "F", OLD_FILE),
        Description::Named("new", "F", NEW_FILE),
        Description::Flag("json", JSON),
        Description::Positional("CERT", "The certificate's file, from the current folder"),
    ],
};

const SHOW: Subcommand = Subcommand {
    name: "show",
    about: "Show what the bytes of a message are read as, and the bytes that are written of it again",
    answers: Answers::Show,
    arguments: &[
        Description::Folder("dir", "The folder of the file and of its imports"),
        Description::Each("include", "D", INCLUDE),
        Description::Named("file", "F", SHOWN_FILE),
        Description::Named("type", "NAME", "The message type, by its full name"),
        Description::Flag("json", JSON),
        Description::Positional(
            "HEX",
            "The bytes, in hexadecimal, two digits each; - for no bytes",
        ),
    ],
};

const TYPES: Subcommand = Subcommand {
    name: "types",
    about: "Name the message types of files and of all that they import",
    answers: Answers::Types,
    arguments: &[
        Description::Folder("dir", "The folder of the files and of their imports"),
        Description::Each("include", "D", INCLUDE),
        Description::Optional("files-from", "LIST", LIST),
        Description::Flag("json", JSON),
        Description::Positionals(
            "FILE",
            "The proto3 files, or one descriptor set where FILE doesn't end in .proto",
        ),
    ],
};

/// All of them, in the order in which help names them.
pub(crate) static SUBCOMMANDS: [Subcommand; 6] = [COMPILE, GATE, GATE_ALL, VERIFY, SHOW, TYPES];
