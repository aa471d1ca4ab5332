//! What a type name resolves to.
ghost use Rattle.std.specs.Prelude.{◌≡◌, IfOk, IfErr, Some, None};
ghost use Rattle.pg_link.specs.inner.Index.{names_seen};
ghost use Rattle.pg_link.specs.names.Names.{texts};
ghost use Rattle.pg_link.specs.names.Resolves.{Resolves, reference};
ghost use Rattle.pg_link.specs.inner.Refusals.{Refuses};

use crate::names::index::{Index, Visible};
use pg_syntax::tree::TypeName;
use std::alloc::{AllocError, Global};
use thiserror::Error;

/// Why a name doesn't resolve.
#[derive(Clone, Copy, Debug, PartialEq, Eq, Error)]
pub(crate) enum Unresolved {
    #[error("The type is not defined.")]
    UnknownName,
    #[error("The name is not a type.")]
    NotAType,
    #[error("The type is defined in a file that is not imported.")]
    NotImported,
    #[error("Out of memory.")]
    Memory,
}

impl From<AllocError> for Unresolved {
    ghost use Rattle.pg_link.specs.declared.names.resolve.Unresolved.TheVariants.{Memory};

    ghost from_gives = { λ _ error. error ≡ Memory };

    fn from(_error: AllocError) -> Unresolved {
        Unresolved::Memory
    }
}

impl Index {
    /// The full name of the message type or enum that a name names in a scope, by the names in the
    /// files that are seen.
    pub(crate) fn resolve(
        &self,
        alloc: Global,
        visible: Visible<'_>,
        scope: &[&str],
        name: &TypeName,
    ) -> Result<&str, Unresolved>
        ensures resolves { IfOk result
            (λ full. Resolves (names_seen self.now.names (Some visible.entry.marks.now))
            (texts scope.now) (reference name.now) full.now) }
        ensures refused { IfErr result
            (Refuses (names_seen self.now.names (Some visible.entry.marks.now))
            (names_seen self.now.names None) (texts scope.now) (reference name.now)) }
    {
        match self.found(alloc, Some(visible), scope, name)? {
            Some((full, named)) => {
                if named.kind.is_type() {
                    Ok(full)
                } else {
                    Err(Unresolved::NotAType)
                }
            }
            None => Err(self.unseen(alloc, scope, name)),
        }
    }
}
