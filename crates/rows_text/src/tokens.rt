//! The tokens of a source file.
use crate::placed::refusal;
use kit_rows::{cut, debug, number_of, text_of};
use pg_lex::{Kind, LexError, Token, lex, place};
use std::alloc::{AllocError, Global};

/// The code, and the offset of the fault.
fn fault(error: LexError) -> (u16, usize) {
    match error {
        LexError::Memory => (1, 0),
        LexError::NotUtf8 { at } => (101, at),
        LexError::BadCharacter { at } => (102, at),
        LexError::OpenString { at } => (103, at),
        LexError::BadEscape { at } => (104, at),
        LexError::OpenComment { at } => (105, at),
        LexError::NumberTooLarge { at } => (106, at),
        LexError::FloatLiteral { at } => (107, at),
        LexError::FileTooLong { at } => (108, at),
    }
}

fn value(alloc: Global, kind: &Kind) -> Result<String, AllocError> {
    match kind {
        Kind::Word(word) => String::from_str(alloc, word),
        Kind::Whole(number) => debug(alloc, number),
        Kind::Text(text) => debug(alloc, text),
        Kind::Mark(mark) => format!(in alloc; "{}", char::from(*mark)),
    }
}

/// A token's value and its offsets, as `a@0-1`.
fn token(alloc: Global, token: &Token) -> Result<String, AllocError> {
    let value = value(alloc, &token.kind)?;
    format!(in alloc; "{value}@{}-{}", token.span.from, token.span.to)
}

fn tokens(alloc: Global, tokens: &[Token]) -> Result<String, AllocError> {
    let mut out = String::new(alloc);
    for one in tokens {
        if !out.is_empty() {
            out.push_str(" ")?;
        }
        out.push_str(&token(alloc, one)?)?;
    }
    Ok(out)
}

/// What is shown of the tokens of a source file, or of its fault.
fn shown_tokens(
    alloc: Global,
    text: &[u8],
    found: Result<Vec<Token<'_>>, LexError>,
) -> Result<String, AllocError> {
    match found {
        Ok(found) if found.is_empty() => String::from_str(alloc, "no tokens"),
        Ok(found) => tokens(alloc, &found),
        Err(LexError::Memory) => Err(AllocError),
        Err(error) => refusal(alloc, text, fault(error)),
    }
}

/// The line and the column of a byte.
fn place_of(alloc: Global, text: &[u8], offset: u32) -> Result<String, AllocError> {
    let (line, column) = place(text, offset as usize);
    format!(in alloc; "{line}:{column}")
}

/// The tokens of a source file with their offsets, or the code and the position of its refusal. For
/// `TEXT | OFFSET` it is the line and the column of that byte.
pub fn answer(alloc: Global, input: &str) -> Result<String, AllocError> {
    let (spelled, offset) = cut(input);
    let text = text_of(alloc, spelled)?;
    if offset.is_empty() {
        shown_tokens(alloc, &text, lex(alloc, &text))
    } else {
        place_of(alloc, &text, number_of(offset))
    }
}
