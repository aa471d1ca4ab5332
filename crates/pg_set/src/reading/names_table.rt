//! The table of names of a set. Whoever writes the names can't choose the keys that hash them.

ghost use Rattle.std.specs.Prelude.{◌≡◌};

use crate::reading::outline::Named;
use indexmap::IndexMap;
use std::hash::{BuildHasher, DefaultHasher, Hasher};

/// Hashes each name after the bytes of the set. So names that collide can't be sought before the
/// bytes are written that hold them: another name makes other bytes, and by these all names hash
/// otherwise. No clause speaks of hashes.
#[derive(Clone, Copy, Debug)]
pub(crate) struct SetKeys {
    set: DefaultHasher,
}

/// What each qualified name of a set is that of.
pub(crate) type NameTable = IndexMap<String, Named, SetKeys>;

/// What fills bytes up to whole words, so that the names after them are hashed by words too.
const FILLING: [u8; 8] = [0; 8];

impl SetKeys {
    /// The keys that the set's bytes make.
    pub(crate) fn of(bytes: &[u8]) -> SetKeys {
        let mut set = DefaultHasher::new();
        set.write(bytes);
        set.write(&FILLING[bytes.len() % 8..]);
        SetKeys { set }
    }
}

impl BuildHasher for SetKeys {
    type Hasher = DefaultHasher;

    ghost build_hasher = { λ keys. keys.set };

    fn build_hasher(&self) -> DefaultHasher {
        self.set
    }
}
