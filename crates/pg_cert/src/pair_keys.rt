//! How a table hashes its pairs: by keys that whoever writes the schemas can't choose.
ghost use Rattle.std.specs.Prelude.{◌≡◌};

use crate::bounds::PairBound;
use std::hash::{BuildHasher, DefaultHasher, FoldHasher, Hasher};

/// Hashes each pair after a number that all pairs of the table make. So pairs that collide can't
/// be sought before the whole table is known: with another pair in it all hash otherwise. No clause
/// speaks of hashes.
#[derive(Clone, Copy)]
pub(crate) struct PairKeys {
    pairs: FoldHasher,
}

impl PairKeys {
    /// The keys that these pairs make.
    pub(crate) fn of(bounds: &[PairBound]) -> PairKeys {
        let mut all = DefaultHasher::new();
        for line in bounds {
            all.write_u64(u64::from(line.pair.old.index) << 32 | u64::from(line.pair.new.index));
        }
        let mut pairs = FoldHasher::default();
        pairs.write_u64(all.finish());
        PairKeys { pairs }
    }
}

impl BuildHasher for PairKeys {
    type Hasher = FoldHasher;

    ghost build_hasher = { λ keys. keys.pairs };

    fn build_hasher(&self) -> FoldHasher {
        self.pairs
    }
}
