//! The lines and columns of bytes of a source file, one after the other.
ghost use Rattle.std.specs.Prelude.{◌≡◌, ◌≤◌, length, take};
ghost use Rattle.pg_lex.specs.Place.{column, line};
ghost use Rattle.pg_gate.specs.inner.Cursor.{StandsAt};

use pg_lex::place;
use std::marker::Model;

/// A byte of a source file, or its end, by the offset, the line and the column.
#[derive(Clone, Copy)]
struct Stand {
    at: usize,
    line: usize,
    column: usize,
}

/// The first byte of any source file.
const FIRST: Stand = Stand {
    at: 0,
    line: 1,
    column: 1,
};

/// Goes on in the source file, over bytes that aren't passed yet.
fn gone_on(text: &[u8], from: Stand, to: usize) -> Stand
    requires stands { StandsAt text.now from }
    requires ahead { from.at ≤ to }
    requires within { to ≤ length text.now }
    ensures stands { StandsAt text.now result }
    ensures there { result.at ≡ to }
{
    let passed = &text[from.at..to];
    let (line, column) = place(passed, passed.len());
    Stand {
        at: to,
        line: from.line + line - 1,
        column: if column > passed.len() {
            from.column + passed.len()
        } else {
            column
        },
    }
}

/// Goes down a source file, and counts the lines and columns of what it passes once.
#[derive(Drop)]
pub(crate) struct Cursor<'a> {
    text: &'a [u8],
    stand: Stand,
}

impl<'a> Model for Cursor<'a> {
    ghost use Rattle.std.specs.Prelude.{List, ℕ};
    ghost use Rattle.pg_gate.specs.inner.Cursor.{StandsAt};

    ghost Value = { List ℕ };

    ghost view = { λ c. c.text.now };

    ghost invariant = { λ c. StandsAt c.text.now c.stand };
}

impl<'a> Cursor<'a> {
    /// The cursor at the first byte.
    pub(crate) fn new(text: &'a [u8]) -> Cursor<'a>
        ensures { result ≡ text.now }
    {
        Cursor { text, stand: FIRST }
    }

    /// The line and the column of a byte, to which the cursor goes: those that `place` of `pg_lex`
    /// gives. Only for a byte that it has passed, it begins anew at the first.
    pub(crate) fn place(&mut self, at: usize) -> (usize, usize)
        ensures line { result.0 ≡ line (take at self.old) }
        ensures column { result.1 ≡ column (take at self.old) }
        ensures text { self.new ≡ self.old }
    {
        let to = at.min(self.text.len());
        let from = if to < self.stand.at {
            FIRST
        } else {
            self.stand
        };
        self.stand = gone_on(self.text, from, to);
        (self.stand.line, self.stand.column)
    }
}
