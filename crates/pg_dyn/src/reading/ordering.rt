//! Entries of maps that are as they were read are put in order.

ghost use Rattle.std.specs.Prelude.{◌≡◌, [], IfOk};
ghost use Rattle.pg_dyn.specs.message_ref.BorrowedItems.{AreAlike, key_of};
ghost use Rattle.pg_dyn.specs.reading.Normalized.{placed};

use crate::message_ref::EntryRef;
use crate::reading::entries::put_in;
use crate::reading::keys::keys_rise;
use std::alloc::{AllocError, Global};

// The entries, each put in by its key, in place of the one of that key. Entries by rising key come
// after all others at once.
fn put_all<'a>(alloc: Global, entries: Vec<EntryRef<'a>>) -> Result<Vec<EntryRef<'a>>, AllocError>
    requires { AreAlike entries.items }
    ensures { IfOk result (λ v. v.items ≡ placed key_of [] entries.entry.items) }
{
    let mut normalized = Vec::new(alloc);
    for entry in entries {
        put_in(&mut normalized, entry)?;
    }
    Ok(normalized)
}

/// The entries by rising key, of each key the last.
#[inline(never)]
pub(crate) fn last_of_keys<'a>(
    alloc: Global,
    entries: Vec<EntryRef<'a>>,
) -> Result<Vec<EntryRef<'a>>, AllocError>
    requires { AreAlike entries.items }
    ensures { IfOk result (λ v. v.items ≡ placed key_of [] entries.entry.items) }
{
    let mut sorted = entries;
    if keys_rise(&sorted) {
        return Ok(sorted);
    }
    // Entries of one key keep their order.
    sorted.sort_by(|first, second| first.key.rank(&second.key))?;
    put_all(alloc, sorted)
}
