//! Tables of bounds.

ghost use Rattle.std.specs.Prelude.{◌≡◌};
ghost use Rattle.pg_pairs.specs.choices.Choices.{Table, no_bounds};

use crate::choices::choice::Pair;

/// Bounds of pairs: how many bytes each breaking message has at least.
pub trait Table {
    ghost bounds: { Self → Table };

    /// The pair's bound: `None` where the pair isn't there, `Some(None)` where no message of it
    /// breaks.
    fn bound(&self, pair: Pair) -> Option<Option<u32>>
        ensures { result ≡ bounds self.now pair };
}

/// The table in which no pair is.
pub(crate) struct NoBounds;

impl Table for NoBounds {
    ghost bounds = { λ _. no_bounds };

    fn bound(&self, _pair: Pair) -> Option<Option<u32>> {
        None
    }
}
