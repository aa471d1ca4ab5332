//! The enums of a set, each with its index, its name and those of its values.

ghost use Rattle.std.specs.Prelude.{◌≡◌, ◌++◌, ◌∷◌, [], IfErr, IfOk, OnOk, length, map};
ghost use Rattle.pg_schema.specs.rules.Scopes.{enum_places};
ghost use Rattle.pg_dyn.specs.message.Kept.{message_of};
ghost use Rattle.pg_schema.specs.standing.Places.{places_from};
ghost use Rattle.pg_set.specs.inner.Declarations.{Adds, CannotAdd, enum_declared, enums_declared};
ghost use Rattle.pg_set.specs.inner.reading.OutlinedRows.{row};
ghost use Rattle.pg_set.specs.stated.Outlines.{row_in, rows_in};

use crate::descriptor::access::{SetMessage, children};
use crate::descriptor::proto;
use crate::error::Unstated;
use crate::reading::declare::{declare_each, declare_named};
use crate::reading::names_table::NameTable;
use crate::reading::outline::{Named, Outlined};
use pg_schema::EnumId;
use std::alloc::Global;

// An enum, with its name and those of its values.
fn outline_enum<'b, 'a>(
    alloc: Global,
    names: &mut NameTable,
    enums: &mut Vec<Outlined<'b, 'a>>,
    scope: &str,
    message: &SetMessage<'b, 'a>,
) -> Result<EnumId, Unstated>
    ensures placed { IfOk result (λ id. id.index ≡ length enums.old.items) }
    ensures rows { OnOk result (map row enums.new.items ≡ map row enums.old.items
        ++ row_in scope.now (message_of message.now) ∷ []) }
    ensures adds { OnOk result (Adds
        (enum_declared scope.now (length enums.old.items) (message_of message.now)) names.old
        names.new) }
    ensures refused { IfErr result (CannotAdd
        (enum_declared scope.now (length enums.old.items) (message_of message.now)) names.old) }
{
    let index = enums.len();
    let id = EnumId { index };
    let name = declare_named(alloc, names, scope, message, Named::Enum(id))?;
    let values = children(alloc, message, proto::ENUM_VALUE)?;
    declare_each(alloc, names, scope, values.as_slice(), Named::Other)?;
    enums.push(Outlined {
        message: message.reborrow(),
        name,
    })?;
    Ok(id)
}

/// The enums that a scope declares: the index of each, in order.
pub(crate) fn outline_enums<'b, 'a>(
    alloc: Global,
    names: &mut NameTable,
    enums: &mut Vec<Outlined<'b, 'a>>,
    scope: &str,
    messages: &[SetMessage<'b, 'a>],
) -> Result<Vec<EnumId>, Unstated>
    ensures ids { IfOk result (λ ids. enum_places ids.items
        ≡ places_from (length enums.old.items) (length messages.now)) }
    ensures rows { OnOk result (map row enums.new.items ≡ map row enums.old.items
        ++ rows_in scope.now (map message_of messages.now)) }
    ensures adds { OnOk result (Adds
        (enums_declared scope.now (length enums.old.items) (map message_of messages.now))
        names.old names.new) }
    ensures refused { IfErr result (CannotAdd
        (enums_declared scope.now (length enums.old.items) (map message_of messages.now))
        names.old) }
{
    let mut ids = Vec::new(alloc);
    for message in messages {
        let id = outline_enum(alloc, names, enums, scope, message)?;
        ids.push(id)?;
    }
    Ok(ids)
}
