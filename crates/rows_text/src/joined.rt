//! The literals of an import's path, joined.
use kit_rows::text_of;
use pg_lex::{LexError, Token, lex};
use pg_syntax::tree::{FileTree, Statement, Text};
use pg_syntax::{SyntaxError, parse};
use std::alloc::{AllocError, Global};

/// The path of the first import.
fn first_path(file: &FileTree) -> Option<&Text> {
    for statement in &file.statements {
        if let Statement::Import(import) = statement {
            return Some(&import.path);
        }
    }
    None
}

fn of_file(alloc: Global, file: &FileTree) -> Result<String, AllocError> {
    match first_path(file) {
        Some(path) => path.joined(alloc),
        None => String::from_str(alloc, "no import"),
    }
}

fn of_tokens(alloc: Global, text: &[u8], tokens: &[Token]) -> Result<String, AllocError> {
    match parse(alloc, tokens, text.len()) {
        Ok(file) => of_file(alloc, &file),
        Err(SyntaxError::Memory) => Err(AllocError),
        Err(_) => String::from_str(alloc, "no file"),
    }
}

/// The path of the first import of the source file.
pub fn answer(alloc: Global, spelled: &str) -> Result<String, AllocError> {
    let text = text_of(alloc, spelled)?;
    match lex(alloc, &text) {
        Ok(tokens) => of_tokens(alloc, &text, &tokens),
        Err(LexError::Memory) => Err(AllocError),
        Err(_) => String::from_str(alloc, "no tokens"),
    }
}
