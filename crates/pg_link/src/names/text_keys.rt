//! How the index hashes names: by keys that whoever writes the names can't choose.
ghost use Rattle.std.specs.Prelude.{◌≡◌};

use crate::walk::SourceFile;
use indexmap::IndexMap;
use std::hash::{BuildHasher, DefaultHasher, Hasher};

/// Hashes each name after the bytes of all files. So names that collide can't be sought before the
/// files are written that hold them: another name makes other bytes, and by these all names hash
/// otherwise. No clause speaks of hashes.
#[derive(Clone, Copy, Debug)]
pub(crate) struct TextKeys {
    texts: DefaultHasher,
}

/// What fills a file up to eight bytes, so that the names after the files are hashed by eights too.
const FILLING: [u8; 8] = [0; 8];

impl TextKeys {
    /// The keys that the files' bytes make.
    pub(crate) fn of(files: &IndexMap<String, SourceFile>) -> TextKeys {
        let mut texts = DefaultHasher::new();
        for number in 0..files.len() {
            if let Some((_, file)) = files.get_index(number) {
                texts.write(&file.bytes);
                texts.write(&FILLING[file.bytes.len() % 8..]);
            }
        }
        TextKeys { texts }
    }
}

impl BuildHasher for TextKeys {
    type Hasher = DefaultHasher;

    ghost build_hasher = { λ keys. keys.texts };

    fn build_hasher(&self) -> DefaultHasher {
        self.texts
    }
}
