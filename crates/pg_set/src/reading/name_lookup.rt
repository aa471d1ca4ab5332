//! What the names in a set's messages mean.

ghost use Rattle.std.specs.Prelude.{◌≡◌, Some};
ghost use Rattle.pg_dyn.specs.message.Kept.{message_of};
ghost use Rattle.pg_set.specs.inner.reading.Owners.{means_of, may_name};
ghost use Rattle.pg_set.specs.stated.SetMessages.{maybe_text_at};
ghost use Rattle.pg_set.specs.stated.StatedNames.{meant, type_meant};

use crate::descriptor::access::{SetMessage, maybe_text};
use crate::reading::names_table::NameTable;
use crate::reading::outline::Named;
use pg_schema::TypeId;

// The same, where a field or a method may name it.
fn nameable(named: Named) -> Option<Named>
    ensures { result ≡ may_name (Some named) }
{
    match named {
        Named::Type(_) | Named::Enum(_) | Named::Entry => Some(named),
        Named::Package | Named::Other => None,
    }
}

// What a qualified name is that of.
fn meaning(names: &NameTable, name: &str) -> Option<Named>
    ensures { result ≡ means_of names.now name.now }
{
    match names.get(name) {
        Some(named) => nameable(*named),
        None => None,
    }
}

/// What the name in a field of a message is that of.
pub(crate) fn meant(names: &NameTable, message: &SetMessage<'_, '_>, number: u32) -> Option<Named>
    ensures { result ≡ meant (means_of names.now)
        (maybe_text_at number (message_of message.now)) }
{
    match maybe_text(message, number) {
        Some(name) => meaning(names, name),
        None => None,
    }
}

/// The message type that it is that of.
pub(crate) fn type_meant(
    names: &NameTable,
    message: &SetMessage<'_, '_>,
    number: u32,
) -> Option<TypeId>
    ensures { result ≡ type_meant (means_of names.now)
        (maybe_text_at number (message_of message.now)) }
{
    match meant(names, message, number) {
        Some(Named::Type(id)) => Some(id),
        _ => None,
    }
}
