//! Trees of source files, also with a word put in front of each token.
mod one;
mod shown;

use kit_rows::{cut, text_of, with_word};
use one::answer_of;
use pg_lex::{LexError, Token, lex};
use std::alloc::{AllocError, Global};

/// Appends the answer for the source file with the word put in at that offset.
fn put(
    alloc: Global,
    out: &mut String,
    text: &[u8],
    at: usize,
    word: &str,
) -> Result<(), AllocError> {
    let answer = answer_of(alloc, &with_word(alloc, text, at, word)?)?;
    if !out.is_empty() {
        out.push_str(", ")?;
    }
    out.push_str(&answer)
}

fn at_each(alloc: Global, text: &[u8], tokens: &[Token], word: &str) -> Result<String, AllocError> {
    let mut out = String::new(alloc);
    for token in tokens {
        put(alloc, &mut out, text, token.span.from, word)?;
    }
    put(alloc, &mut out, text, text.len(), word)?;
    Ok(out)
}

fn answers(alloc: Global, text: &[u8], word: &str) -> Result<String, AllocError> {
    match lex(alloc, text) {
        Ok(tokens) => at_each(alloc, text, &tokens, word),
        Err(LexError::Memory) => Err(AllocError),
        Err(_) => String::from_str(alloc, "no tokens"),
    }
}

/// The answer for a source file; for `TEXT | WORD` the answers with the word put in at each token.
pub fn answer(alloc: Global, input: &str) -> Result<String, AllocError> {
    let (spelled, word) = cut(input);
    let text = text_of(alloc, spelled)?;
    if word.is_empty() {
        answer_of(alloc, &text)
    } else {
        answers(alloc, &text, word)
    }
}
