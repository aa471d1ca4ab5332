//! The tree of one source file.
use super::shown::first_statement;
use crate::placed::refusal;
use pg_lex::{LexError, Token, lex};
use pg_syntax::tree::FileTree;
use pg_syntax::{SyntaxError, parse};
use std::alloc::{AllocError, Global};

/// The code, and the offset of the fault.
fn fault(error: SyntaxError) -> (u16, usize) {
    match error {
        SyntaxError::Memory => (1, 0),
        SyntaxError::NotProto3 { at } => (201, at),
        SyntaxError::Unexpected { at } => (202, at),
        SyntaxError::Group { at } => (203, at),
        SyntaxError::Extension { at } => (204, at),
        SyntaxError::CustomOption { at } => (205, at),
        SyntaxError::WeakImport { at } => (206, at),
        SyntaxError::NestedTooDeep { at } => (207, at),
    }
}

/// What is shown of a source file's tree, or of its fault.
fn shown_file(
    alloc: Global,
    text: &[u8],
    found: Result<FileTree, SyntaxError>,
) -> Result<String, AllocError> {
    match found {
        Ok(file) => first_statement(alloc, &file),
        Err(SyntaxError::Memory) => Err(AllocError),
        Err(error) => refusal(alloc, text, fault(error)),
    }
}

/// What is shown of a source file, or its refusal; `no tokens` where the lexer refuses it.
pub fn answer_of(alloc: Global, text: &[u8]) -> Result<String, AllocError> {
    match lex(alloc, text) {
        Ok(tokens) => shown_file(alloc, text, parse(alloc, &tokens, text.len())),
        Err(LexError::Memory) => Err(AllocError),
        Err(_) => String::from_str(alloc, "no tokens"),
    }
}
