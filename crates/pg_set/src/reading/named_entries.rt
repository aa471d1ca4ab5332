//! That each entry type of a message type is that of just one of its fields.

ghost use Rattle.std.specs.Prelude.{◌≡◌, ℕ, List, Some, cond, not, is_some, IfOk, OnOk, map};
ghost use Rattle.std.specs.BTreeMap.{get_by_text};
ghost use Rattle.std.specs.List.{list_all};
ghost use Rattle.std.specs.Str.{bytes_eq};
ghost use Rattle.std.specs.String.{string_bytes};
ghost use Rattle.pg_dyn.specs.message.Kept.{message_of};
ghost use Rattle.pg_set.specs.inner.reading.NamedEntries.{KeepsOnce, is_kept_once};
ghost use Rattle.pg_set.specs.declared.descriptor.proto.TheConstants as proto;
ghost use Rattle.pg_set.specs.stated.SetMessages.{text_at};
ghost use Rattle.pg_set.specs.stated.StatedFields.{is_named_once};
ghost use Rattle.pg_set.specs.stated.Views.{field_view};

use crate::descriptor::access::{SetMessage, text};
use crate::descriptor::proto;
use pg_schema::{Field, entry_name};
use std::alloc::{AllocError, Global};
use std::collections::BTreeMap;

// Keeps that one field more has an entry type of that name: whether it is the first.
fn keep(once: &mut BTreeMap<String, bool>, entry: String) -> Result<(), AllocError>
    ensures { OnOk result ((name : List ℕ) → get_by_text once.new name
        ≡ cond (bytes_eq (string_bytes entry) name)
        (Some (not (is_some (get_by_text once.old (string_bytes entry)))))
        (get_by_text once.old name)) }
{
    let is_first = once.get(entry.as_str()).is_none();
    once.insert(entry, is_first)?;
    Ok(())
}

// Of each name that an entry type of the fields has, whether just one of them has it.
fn named_once(alloc: Global, fields: &[Field]) -> Result<BTreeMap<String, bool>, AllocError>
    ensures { IfOk result (KeepsOnce (map field_view fields.now)) }
{
    let mut once = BTreeMap::new(alloc);
    for field in fields {
        if !field.presence.is_map() {
            continue;
        }
        let entry = entry_name(alloc, field.name.as_str())?;
        keep(&mut once, entry)?;
    }
    Ok(once)
}

// Whether just one field has an entry type of the name that the entry type has.
fn is_once(once: &BTreeMap<String, bool>, entry: &SetMessage<'_, '_>) -> bool
    ensures { result ≡ is_kept_once (get_by_text once.now
        (text_at proto.MESSAGE_NAME (message_of entry.now))) }
{
    match once.get(text(entry, proto::MESSAGE_NAME)) {
        Some(is_once) => *is_once,
        None => false,
    }
}

/// Whether each of the entry types is that of just one of the fields.
pub(crate) fn are_named_once(
    alloc: Global,
    fields: &[Field],
    entries: &[SetMessage<'_, '_>],
) -> Result<bool, AllocError>
    ensures { IfOk result (λ are. are ≡ list_all (is_named_once (map field_view fields.now))
        (map message_of entries.now)) }
{
    let once = named_once(alloc, fields)?;
    for entry in entries {
        let named = is_once(&once, entry);
        if !named {
            return Ok(false);
        }
    }
    Ok(true)
}
