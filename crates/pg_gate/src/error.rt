//! Why there is no answer.

use pg_check::CheckError;
use pg_fds::FdsError;
use pg_lines::{Side, SinkError};
use pg_link::{LinkError, Place};
use pg_show::HexError;
use std::alloc::{AllocError, AllocFailed};
use thiserror::Error;

/// Why a side has no files to compile.
#[derive(Debug, PartialEq, Eq, Drop, Error)]
pub enum ListError {
    /// E906: the list that names a side's files isn't UTF-8, at this byte of it.
    #[error("The list of files isn't UTF-8.")]
    NotUtf8(Place),
    /// E907: the list, as a whole, names no file; or a side has neither a file nor a list.
    #[error("No file is named.")]
    NoFile(Place),
}

/// Why a side does not compile.
#[derive(Debug, PartialEq, Eq, Drop, Error)]
pub enum Fault {
    /// The side's source files can't be linked, or its descriptor set isn't there: by the code and
    /// the position of that fault.
    #[error("{0}")]
    Link(LinkError),
    /// The side's source files break a rule of the language: by its code and its position.
    #[error("{0}")]
    Check(CheckError),
    /// The side's descriptor set is refused, or what its source files declare has none: by the code
    /// of the codec of messages, of the set, or of the rule that it breaks.
    #[error("{0}")]
    Set(FdsError),
    /// The side's list of files can't be used, or names none: by its own code and position.
    #[error("{0}")]
    List(ListError),
}

/// Why the gate gives no answer.
#[derive(Debug, PartialEq, Eq, Drop, Error)]
pub enum GateError {
    /// E001: memory was refused.
    #[error("Out of memory.")]
    Memory,
    /// E901: the old schema has no message type of the root's name.
    #[error("The old schema, or that of `show`, has no such message type.")]
    RootMissingOld,
    /// E902: the new schema has no message type of the root's name.
    #[error("The new schema has no such message type.")]
    RootMissingNew,
    /// E903: a side does not compile. Files that are compiled by themselves are reported as the old
    /// side.
    #[error("The {0} side does not compile: {1}")]
    Compile(Side, Fault),
    /// E904: the sink failed.
    #[error("The output could not be written.")]
    WriteFailed,
    /// E905: an argument for bytes has an odd number of hexadecimal digits, or another character.
    #[error("The argument is not pairs of hexadecimal digits.")]
    BadHex,
}

impl ListError {
    ghost use Rattle.std.specs.Prelude.{◌≡◌};
    ghost use Rattle.pg_gate.specs.print.Codes.{list_code};

    /// The number after the E by which users know the error.
    pub fn code(&self) -> u16
        ensures { result ≡ list_code self.now }
    {
        match self {
            ListError::NotUtf8(_) => 906,
            ListError::NoFile(_) => 907,
        }
    }
}

impl Fault {
    ghost use Rattle.std.specs.Prelude.{◌≡◌};
    ghost use Rattle.pg_gate.specs.print.Codes.{fault_code};

    /// The number after the E by which users know the fault.
    pub(crate) fn code(&self) -> u16
        ensures { result ≡ fault_code self.now }
    {
        match self {
            Fault::Link(error) => error.code(),
            Fault::Check(error) => error.code(),
            Fault::Set(error) => error.code(),
            Fault::List(error) => error.code(),
        }
    }
}

impl GateError {
    ghost use Rattle.std.specs.Prelude.{◌≡◌};
    ghost use Rattle.pg_gate.specs.print.Codes.{code_of};

    /// The number after the E by which users know the error. For a side that does not compile, it
    /// is the one that says what is wrong there.
    pub fn code(&self) -> u16
        ensures { result ≡ code_of self.now }
    {
        match self {
            GateError::Memory => 1,
            GateError::RootMissingOld => 901,
            GateError::RootMissingNew => 902,
            GateError::Compile(_, fault) => fault.code(),
            GateError::WriteFailed => 904,
            GateError::BadHex => HexError::BadHex.code(),
        }
    }
}

impl<T: Drop> From<AllocFailed<T>> for GateError {
    ghost use Rattle.std.specs.Prelude.{◌≡◌};
    ghost use Rattle.pg_gate.specs.declared.error.GateError.TheVariants.{Memory};

    ghost from_gives = { λ _ error. error ≡ Memory };

    fn from(_error: AllocFailed<T>) -> GateError {
        GateError::Memory
    }
}

impl From<AllocError> for GateError {
    ghost use Rattle.std.specs.Prelude.{◌≡◌};
    ghost use Rattle.pg_gate.specs.declared.error.GateError.TheVariants.{Memory};

    ghost from_gives = { λ _ error. error ≡ Memory };

    fn from(_error: AllocError) -> GateError {
        GateError::Memory
    }
}

impl From<SinkError> for GateError {
    ghost use Rattle.std.specs.Prelude.{◌≡◌};
    ghost use Rattle.pg_gate.specs.declared.error.GateError.TheVariants.{WriteFailed};

    ghost from_gives = { λ _ error. error ≡ WriteFailed };

    fn from(_error: SinkError) -> GateError {
        GateError::WriteFailed
    }
}
