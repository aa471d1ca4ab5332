//! The bytes and the tree of a file, with the positions of the faults in them.
ghost use Rattle.std.specs.Prelude.{◌≡◌, ◌≤◌, ◌<◌, ◌+◌, ◌∷◌, [], IfErr, IfOk, IsTrue, OnOk, length, map};
ghost use Rattle.pg_link.specs.walk.FolderPath.{path_below};
ghost use Rattle.pg_lex.specs.Lexes.{lexes, max_len};
ghost use Rattle.pg_lex.specs.Symbol.{placed};
ghost use Rattle.pg_lex.specs.Faults as lex;
ghost use Rattle.pg_link.specs.names.Outline.{file_imports};
ghost use Rattle.pg_link.specs.walk.Reads.{Reads};
ghost use Rattle.pg_link.specs.Sources.{also, AtMostOne};
ghost use Rattle.pg_link.specs.walk.Walk as spec;
ghost use Rattle.pg_link.specs.inner.Made.{line_of};
ghost use Rattle.pg_link.specs.inner.Walking as walking;

use crate::error::{LinkError, Place, place_in};
use crate::walk::folder_path::read_below;
use crate::walk::imports::{ImportLine, imports_of};
use crate::walk::{Asking, MAX_FILES, SourceFile};
use crate::{SourceError, Sources};
use pg_lex::{LexError, Token};
use pg_syntax::SyntaxError;
use pg_syntax::tree::FileTree;
use std::alloc::{AllocError, Global};

/// A file that was read, and its imports, which aren't followed yet.
#[derive(Drop)]
pub(crate) struct NewFile {
    pub file: SourceFile,
    pub lines: Vec<ImportLine>,
}

/// The offset of a lexical fault.
fn lex_place(error: LexError) -> usize
    ensures { result ≡ lex.place_of error }
{
    match error {
        LexError::Memory => 0,
        LexError::NotUtf8 { at } => at,
        LexError::BadCharacter { at } => at,
        LexError::OpenString { at } => at,
        LexError::BadEscape { at } => at,
        LexError::OpenComment { at } => at,
        LexError::NumberTooLarge { at } => at,
        LexError::FloatLiteral { at } => at,
        LexError::FileTooLong { at } => at,
    }
}

/// The offset of a syntax fault.
fn syntax_place(error: SyntaxError) -> usize
    ensures { result ≡ spec.syntax_place error }
{
    match error {
        SyntaxError::Memory => 0,
        SyntaxError::NotProto3 { at } => at,
        SyntaxError::Unexpected { at } => at,
        SyntaxError::Group { at } => at,
        SyntaxError::Extension { at } => at,
        SyntaxError::CustomOption { at } => at,
        SyntaxError::WeakImport { at } => at,
        SyntaxError::NestedTooDeep { at } => at,
    }
}

/// The tokens of a file.
fn tokens_of<'a>(alloc: Global, path: &str, text: &'a [u8]) -> Result<Vec<Token<'a>>, LinkError>
    ensures tokens { IfOk result (λ tokens. lexes text.now (placed tokens.items)) }
    ensures short { IfOk result (λ tokens. length text.now ≤ max_len) }
    ensures fault { IfErr result (walking.IsTextFault path.now text.now) }
{
    match pg_lex::lex(alloc, text) {
        Ok(tokens) => Ok(tokens),
        Err(LexError::Memory) => Err(LinkError::Memory),
        Err(error) => {
            let place = place_in(alloc, path, text, lex_place(error))?;
            Err(LinkError::Lex(error, place))
        }
    }
}

/// The tree of a file.
pub(crate) fn tree_of(alloc: Global, path: &str, text: &[u8]) -> Result<FileTree, LinkError>
    ensures parsed { IfOk result (λ file. spec.IsParsed text.now file) }
    ensures fault { IfErr result (walking.IsTextFault path.now text.now) }
{
    let tokens = tokens_of(alloc, path, text)?;
    match pg_syntax::parse(alloc, &tokens, text.len()) {
        Ok(file) => Ok(file),
        Err(SyntaxError::Memory) => Err(LinkError::Memory),
        Err(error) => {
            let place = place_in(alloc, path, text, syntax_place(error))?;
            Err(LinkError::Syntax(error, place))
        }
    }
}

/// The position at which a path is asked for: the literal of the import, or the file as a whole
/// where it is a root.
fn asked_at(alloc: Global, asking: Option<Asking<'_>>, path: &str) -> Result<Place, AllocError>
    ensures { IfOk result (λ place. spec.IsAsked place asking.entry path.now) }
{
    match asking {
        Some(asking) => place_in(alloc, asking.file, asking.text, asking.at),
        None => Ok(Place {
            file: String::from_str(alloc, path)?,
            line: 0,
            column: 0,
        }),
    }
}

/// The bytes of a file. Where the source fails, the position is the file as a whole, whoever
/// asks for it.
fn text_of<S: Sources>(
    alloc: Global,
    source: &mut S,
    folder: &str,
    path: &str,
    asking: Option<Asking<'_>>,
) -> Result<Vec<u8>, LinkError>
    ensures given { IfOk result (λ bytes.
        IsTrue (S.may_give source.old (path_below folder.now path.now) bytes.items)) }
    ensures fault { IfErr result (spec.IsReadFault
        (S.may_lack source.old) folder.now asking.entry path.now) }
    ensures asked { OnOk result (S.reads source.new
        ≡ also (path_below folder.now path.now ∷ []) (S.reads source.old)) }
    ensures asked_once { AtMostOne (path_below folder.now path.now) (S.reads source.old)
        (S.reads source.new) }
    ensures reads { Reads S.Sources source.old source.new (spec.failures_of result) }
{
    // Made before the read, so that a failure of the source is reported even where no memory is
    // left.
    let file = String::from_str(alloc, path)?;
    match read_below(alloc, source, folder, path) {
        Ok(bytes) => Ok(bytes),
        Err(SourceError::Missing) => Err(LinkError::MissingFile(asked_at(alloc, asking, path)?)),
        Err(SourceError::Failed) => Err(LinkError::SourceFailed(Place {
            file,
            line: 0,
            column: 0,
        })),
        Err(SourceError::Memory) => Err(LinkError::Memory),
    }
}

/// A file with its tree and its imports. `others` files are read already, or open.
pub(crate) fn read_new<S: Sources>(
    alloc: Global,
    source: &mut S,
    folder: &str,
    path: &str,
    asking: Option<Asking<'_>>,
    others: usize,
) -> Result<NewFile, LinkError>
    ensures given { IfOk result (λ new. IsTrue
        (S.may_give source.old (path_below folder.now path.now) new.file.bytes.items)) }
    ensures parsed { IfOk result (λ new. spec.IsParsed new.file.bytes.items new.file.tree) }
    ensures lines { IfOk result (λ new. map line_of new.lines.items ≡ file_imports new.file.tree) }
    ensures room { OnOk result (others < 1024) }
    ensures fault { IfErr result (walking.IsNewFault (S.may_give source.old)
        (S.may_lack source.old) folder.now others asking.entry path.now) }
    ensures asked { OnOk result (S.reads source.new
        ≡ also (path_below folder.now path.now ∷ []) (S.reads source.old)) }
    ensures asked_once { AtMostOne (path_below folder.now path.now) (S.reads source.old)
        (S.reads source.new) }
    ensures reads { Reads S.Sources source.old source.new (spec.failures_of result) }
{
    let bytes = text_of(alloc, source, folder, path, asking)?;
    if MAX_FILES <= others {
        return Err(LinkError::TooManyFiles(asked_at(alloc, asking, path)?));
    }
    let tree = tree_of(alloc, path, &bytes)?;
    let lines = imports_of(alloc, &tree)?;
    let file = SourceFile { bytes, tree };
    Ok(NewFile { file, lines })
}

/// The bytes of the file `FOLDER/PATH`, or of `PATH` where the folder is `.`, as `link_below` reads
/// a root.
///
/// # Errors
///
/// The source is as its reads left it, and its count of failures rose by one where it failed.
/// - `LinkError::MissingFile` (E301), at the file as a whole (`PATH`, line 0, column 0), where the
///   source doesn't have it.
/// - `LinkError::SourceFailed` (E309), at the file as a whole, where the source failed.
/// - `LinkError::Memory` (E001): no memory is left.
pub fn read_file<S: Sources>(
    alloc: Global,
    source: &mut S,
    folder: &str,
    path: &str,
) -> Result<Vec<u8>, LinkError>
    ensures given { IfOk result (λ bytes.
        IsTrue (S.may_give source.old (path_below folder.now path.now) bytes.items)) }
    ensures fault { IfErr result (spec.IsReadFault
        (S.may_lack source.old) folder.now None path.now) }
    ensures counted { S.failures source.new ≡ S.failures source.old + spec.failures_of result }
    ensures asked { OnOk result (S.reads source.new
        ≡ also (path_below folder.now path.now ∷ []) (S.reads source.old)) }
    ensures asked_once { AtMostOne (path_below folder.now path.now) (S.reads source.old)
        (S.reads source.new) }
    ensures same_given { S.may_give source.new ≡ S.may_give source.old }
    ensures same_lacked { S.may_lack source.new ≡ S.may_lack source.old }
{
    text_of(alloc, source, folder, path, None)
}
