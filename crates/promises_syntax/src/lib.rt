//! The promises of `pg_syntax`, said again of calls of it: the edits of `must-fail` turn each
//! answer, and every one must be refused.
#![tactic(auto)]

ghost use Rattle.std.specs.Prelude.{◌≡◌, string_bytes, IfErr, IfOk};
ghost use Rattle.pg_lex.specs.Symbol.{placed};
ghost use Rattle.pg_syntax.specs.Codes.{code_of};
ghost use Rattle.pg_syntax.specs.Grammar.{Derives};
ghost use Rattle.pg_syntax.specs.Proto3 as grammar;
ghost use Rattle.pg_syntax.specs.Refusals.{Reports};
ghost use Rattle.pg_syntax.specs.Tree.{Stands, spell, symbols};
ghost use Rattle.pg_syntax.specs.Views as view;

use pg_lex::Token;
use pg_syntax::SyntaxError;
use pg_syntax::tree::{FileTree, Text};
use std::alloc::{AllocError, Global};

/// What `parse` answers: the tree.
pub fn parse(alloc: Global, tokens: &[Token], end: usize) -> Result<FileTree, SyntaxError>
    ensures tree { IfOk result (λ file. Derives (grammar.file 64) (view.file file)
        × Stands (view.file file) (placed tokens.now)) }
    ensures spelled { IfOk result (λ file. spell (view.file file) ≡ symbols (placed tokens.now)) }
{
    pg_syntax::parse(alloc, tokens, end)
}

/// What `parse` refuses.
pub fn parse_refused(alloc: Global, bad: &[Token], end: usize) -> Result<FileTree, SyntaxError>
    ensures { IfErr result (λ e. Reports (grammar.file 64) end (placed bad.now) e) }
{
    pg_syntax::parse(alloc, bad, end)
}

/// What `SyntaxError::code` answers.
pub fn code(error: SyntaxError) -> u16
    ensures { result ≡ code_of error }
{
    error.code()
}

/// What `Text::joined` answers.
pub fn joined(alloc: Global, text: &Text) -> Result<String, AllocError>
    ensures { IfOk result (λ joined. string_bytes joined
        ≡ grammar.joined (spell (view.text text.now))) }
{
    text.joined(alloc)
}
