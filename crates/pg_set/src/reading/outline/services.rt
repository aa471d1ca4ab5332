//! The services of a set, each with its index, its name and those of its methods.

ghost use Rattle.std.specs.Prelude.{◌≡◌, ◌++◌, ◌∷◌, [], IfErr, IfOk, OnOk, length, map};
ghost use Rattle.pg_schema.specs.rules.Scopes.{service_places};
ghost use Rattle.pg_dyn.specs.message.Kept.{message_of};
ghost use Rattle.pg_schema.specs.standing.Places.{places_from};
ghost use Rattle.pg_set.specs.inner.Declarations.{Adds, CannotAdd, service_declared, services_declared};
ghost use Rattle.pg_set.specs.inner.reading.OutlinedRows.{row};
ghost use Rattle.pg_set.specs.stated.Outlines.{row_in, rows_in};

use crate::descriptor::access::{SetMessage, children};
use crate::descriptor::proto;
use crate::error::Unstated;
use crate::reading::declare::{declare_each, declare_named};
use crate::reading::names_table::NameTable;
use crate::reading::outline::{Named, Outlined};
use pg_schema::ServiceId;
use std::alloc::Global;

// A service, with its name and those of its methods.
fn outline_service<'b, 'a>(
    alloc: Global,
    names: &mut NameTable,
    services: &mut Vec<Outlined<'b, 'a>>,
    scope: &str,
    message: &SetMessage<'b, 'a>,
) -> Result<ServiceId, Unstated>
    ensures placed { IfOk result (λ id. id.index ≡ length services.old.items) }
    ensures rows { OnOk result (map row services.new.items ≡ map row services.old.items
        ++ row_in scope.now (message_of message.now) ∷ []) }
    ensures adds { OnOk result (Adds (service_declared scope.now (message_of message.now))
        names.old names.new) }
    ensures refused { IfErr result (CannotAdd
        (service_declared scope.now (message_of message.now)) names.old) }
{
    let index = services.len();
    let id = ServiceId { index };
    let name = declare_named(alloc, names, scope, message, Named::Other)?;
    let methods = children(alloc, message, proto::SERVICE_METHOD)?;
    declare_each(
        alloc,
        names,
        name.as_str(),
        methods.as_slice(),
        Named::Other,
    )?;
    services.push(Outlined {
        message: message.reborrow(),
        name,
    })?;
    Ok(id)
}

/// The services that a scope declares: the index of each, in order.
pub(crate) fn outline_services<'b, 'a>(
    alloc: Global,
    names: &mut NameTable,
    services: &mut Vec<Outlined<'b, 'a>>,
    scope: &str,
    messages: &[SetMessage<'b, 'a>],
) -> Result<Vec<ServiceId>, Unstated>
    ensures ids { IfOk result (λ ids. service_places ids.items
        ≡ places_from (length services.old.items) (length messages.now)) }
    ensures rows { OnOk result (map row services.new.items ≡ map row services.old.items
        ++ rows_in scope.now (map message_of messages.now)) }
    ensures adds { OnOk result (Adds
        (services_declared scope.now (map message_of messages.now)) names.old names.new) }
    ensures refused { IfErr result (CannotAdd
        (services_declared scope.now (map message_of messages.now)) names.old) }
{
    let mut ids = Vec::new(alloc);
    for message in messages {
        let id = outline_service(alloc, names, services, scope, message)?;
        ids.push(id)?;
    }
    Ok(ids)
}
