//! What type names name, by the byte at which each begins.

ghost use Rattle.std.specs.Prelude.{◌≡◌, true};
ghost use Rattle.pg_schema.specs.rules.Pairs.{is_rising};
ghost use Rattle.pg_check.specs.inner.ByPlace.{named_at};

use pg_link::Target;

/// What the type names of a file name, by the byte at which each begins. These bytes rise, so that
/// one of them is looked for by halves.
#[derive(Drop)]
pub(crate) struct ByPlace<'a> {
    pub places: &'a [usize],
    pub targets: &'a [Target],
    ghost rising: { is_rising places.now ≡ true },
}

impl ByPlace<'_> {
    /// What the type name that begins there names.
    pub(crate) fn at(&self, at: usize) -> Option<Target>
        ensures { result ≡ named_at self.now.places.now self.now.targets.now at }
    {
        match self.places.binary_search(&at) {
            Ok(index) => self.targets.get(index).copied(),
            Err(_) => None,
        }
    }
}
