//! Why files can't be linked.
ghost use Rattle.std.specs.Prelude.{◌≡◌, IfOk};
ghost use Rattle.pg_link.specs.walk.Walk as spec;

use pg_lex::{LexError, place};
use pg_syntax::SyntaxError;
use std::alloc::{AllocError, AllocFailed, Global};
use thiserror::Error;

/// A position in a file. The line and the column, which counts bytes, are from 1; both are 0
/// where the file as a whole is meant.
#[derive(Debug, PartialEq, Eq, Drop)]
pub struct Place {
    pub file: String,
    pub line: usize,
    pub column: usize,
}

/// The position of a byte of the file, which may be its end. Fails only where memory is
/// refused.
pub fn place_in(alloc: Global, file: &str, text: &[u8], at: usize) -> Result<Place, AllocError>
    ensures { IfOk result (λ place. spec.IsPlace place file.now text.now at) }
{
    let file = String::from_str(alloc, file)?;
    let (line, column) = place(text, at);
    Ok(Place { file, line, column })
}

/// Why files can't be linked.
#[derive(Debug, PartialEq, Eq, Drop, Error)]
pub enum LinkError {
    /// E301: there is no file of a path, at the literal of its import or for a root as a whole.
    #[error("The file was not found.")]
    MissingFile(Place),
    /// E302: a file imports itself, if only by way of others. At the import that closes the circle.
    #[error("The file recursively imports itself.")]
    ImportCycle(Place),
    /// E303: a file imports one path twice. At the second import.
    #[error("The import was listed twice.")]
    DuplicateImport(Place),
    /// E304: a name is declared twice, not both times as a part of a package. At the later
    /// of the two.
    #[error("The name is already defined.")]
    DuplicateName(Place),
    /// E305: a type's name that names nothing in its scope, in whichever files.
    #[error("The type is not defined.")]
    UnknownName(Place),
    /// E306: a name of what is neither a message type nor an enum, or of an enum where an rpc takes
    /// or returns it.
    #[error("The name is not a type.")]
    NotAType(Place),
    /// E307: a name of a type in a file that isn't imported.
    #[error("The type is defined in a file that is not imported.")]
    NotImported(Place),
    /// E308: more than 1,024 files. At the import of the first beyond, or for a root the file's
    /// name alone.
    #[error("There are more than 1,024 files.")]
    TooManyFiles(Place),
    /// E309: the source failed to give the file.
    #[error("The file could not be read.")]
    SourceFailed(Place),
    /// E101 to E108: the bytes of a file have no tokens.
    #[error("{0}")]
    Lex(LexError, Place),
    /// E201 to E207: the tokens of a file spell no tree.
    #[error("{0}")]
    Syntax(SyntaxError, Place),
    /// E001: a growth was refused. It may come in place of any other.
    #[error("Out of memory.")]
    Memory,
}

impl LinkError {
    ghost use Rattle.pg_link.specs.Codes.{code_of, place_of};

    /// The number after the E by which users know the error.
    pub fn code(&self) -> u16
        ensures { result ≡ code_of self.now }
    {
        match self {
            LinkError::MissingFile(_) => 301,
            LinkError::ImportCycle(_) => 302,
            LinkError::DuplicateImport(_) => 303,
            LinkError::DuplicateName(_) => 304,
            LinkError::UnknownName(_) => 305,
            LinkError::NotAType(_) => 306,
            LinkError::NotImported(_) => 307,
            LinkError::TooManyFiles(_) => 308,
            LinkError::SourceFailed(_) => 309,
            LinkError::Lex(error, _) => error.code(),
            LinkError::Syntax(error, _) => error.code(),
            LinkError::Memory => 1,
        }
    }

    /// The position of the fault, but where memory was refused.
    pub fn place(self) -> Option<Place>
        ensures { result ≡ place_of self }
    {
        match self {
            LinkError::MissingFile(place)
            | LinkError::ImportCycle(place)
            | LinkError::DuplicateImport(place)
            | LinkError::DuplicateName(place)
            | LinkError::UnknownName(place)
            | LinkError::NotAType(place)
            | LinkError::NotImported(place)
            | LinkError::TooManyFiles(place)
            | LinkError::SourceFailed(place)
            | LinkError::Lex(_, place)
            | LinkError::Syntax(_, place) => Some(place),
            LinkError::Memory => None,
        }
    }
}

impl From<AllocError> for LinkError {
    ghost use Rattle.pg_link.specs.declared.error.LinkError.TheVariants.{Memory};

    ghost from_gives = { λ _ error. error ≡ Memory };

    fn from(_error: AllocError) -> LinkError {
        LinkError::Memory
    }
}

impl<T: Drop> From<AllocFailed<T>> for LinkError {
    ghost use Rattle.pg_link.specs.declared.error.LinkError.TheVariants.{Memory};

    ghost from_gives = { λ _ error. error ≡ Memory };

    fn from(_error: AllocFailed<T>) -> LinkError {
        LinkError::Memory
    }
}
