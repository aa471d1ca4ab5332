//! The promises of `pg_lex`, said again of calls of it: the edits of `must-fail` turn each answer,
//! and every one must be refused.
#![tactic(auto)]

ghost use Rattle.std.specs.Prelude.{◌≡◌, ◌≤◌, length, take, IfErr, IfOk};
ghost use Rattle.pg_lex.specs.Codes.{code_of};
ghost use Rattle.pg_lex.specs.Lexes.{lexes, max_len, Refuses, Rises, WordsAreSlices};
ghost use Rattle.pg_lex.specs.Place.{line, column};
ghost use Rattle.pg_lex.specs.Symbol.{placed};
ghost use Rattle.pg_lex.specs.declared.error.LexError.TheVariants.{Memory};

use pg_lex::{Kind, LexError, Span, Token};
use std::alloc::{AllocError, AllocFailed, Global};

/// What `lex` answers: the tokens.
pub fn lex(alloc: Global, text: &[u8]) -> Result<Vec<Token<'_>>, LexError>
    ensures { IfOk result (λ tokens. lexes text.now (placed tokens.items)) }
{
    pg_lex::lex(alloc, text)
}

/// What `lex` answers: where the tokens are.
pub fn lex_places(alloc: Global, of: &[u8]) -> Result<Vec<Token<'_>>, LexError>
    ensures rise { IfOk result (λ tokens. Rises 0 (placed tokens.items)) }
    ensures words { IfOk result (λ tokens. WordsAreSlices of.now (placed tokens.items)) }
{
    pg_lex::lex(alloc, of)
}

/// What `lex` answers: how long a source file it takes.
pub fn lex_short(alloc: Global, long: &[u8]) -> Result<Vec<Token<'_>>, LexError>
    ensures { IfOk result (λ tokens. length long.now ≤ max_len) }
{
    pg_lex::lex(alloc, long)
}

/// What `lex` refuses.
pub fn lex_refused(alloc: Global, bad: &[u8]) -> Result<Vec<Token<'_>>, LexError>
    ensures { IfErr result (λ e. Refuses e bad.now) }
{
    pg_lex::lex(alloc, bad)
}

/// What `place` answers.
pub fn place(text: &[u8], offset: usize) -> (usize, usize)
    ensures line { result.0 ≡ line (take offset text.now) }
    ensures column { result.1 ≡ column (take offset text.now) }
{
    pg_lex::place(text, offset)
}

/// What `LexError::code` answers.
pub fn code(error: LexError) -> u16
    ensures { result ≡ code_of error }
{
    error.code()
}

/// What `LexError::from` answers of a refused growth.
pub fn error_of(error: AllocError) -> LexError
    ensures { result ≡ Memory }
{
    LexError::from(error)
}

/// What `LexError::from` answers of a refused growth that hands back a value.
pub fn error_of_failed<T: Drop>(failed: AllocFailed<T>) -> LexError
    ensures { result ≡ Memory }
{
    LexError::from(failed)
}
