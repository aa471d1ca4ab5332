//! The table of the qualified names that a set declares. A name that may be declared is refused
//! only where memory is.

ghost use Rattle.std.specs.Prelude.{◌≡◌, ◌∷◌, [], false, IfErr, IfOk, OnOk, length, map};
ghost use Rattle.std.specs.String.{string_bytes};
ghost use Rattle.pg_dyn.specs.message.Kept.{message_of};
ghost use Rattle.pg_set.specs.inner.Declarations.{Adds, CannotAdd, all_named, is_package, named_in, package_declared, package_part};
ghost use Rattle.pg_set.specs.stated.SetNames.{qualified};
ghost use Rattle.pg_set.specs.inner.reading.Made.{AreMarked};
ghost use Rattle.pg_set.specs.stated.TypeMessages.{real_oneofs};

use crate::descriptor::access::{SetMessage, text};
use crate::descriptor::proto;
use crate::error::Unstated;
use crate::reading::names_table::NameTable;
use crate::reading::outline::Named;
use crate::reading::set_names::name_in;
use std::alloc::{AllocError, Global};

/// Puts a name in the table. Refused, memory aside, only where it may not be declared.
pub(crate) fn declare(names: &mut NameTable, name: String, named: Named) -> Result<(), Unstated>
    ensures adds { OnOk result (Adds ((string_bytes name, named) ∷ []) names.old names.new) }
    ensures refused { IfErr result (λ e. is_package named ≡ false
        → CannotAdd ((string_bytes name, named) ∷ []) names.old e) }
{
    match names.insert(name, named)? {
        None => Ok(()),
        Some(_) => Err(Unstated::Reference),
    }
}

/// Puts the qualified name of what a message is called in the scope in the table, and answers it.
pub(crate) fn declare_named(
    alloc: Global,
    names: &mut NameTable,
    scope: &str,
    message: &SetMessage<'_, '_>,
    named: Named,
) -> Result<String, Unstated>
    ensures name { IfOk result (λ name. string_bytes name
        ≡ qualified scope.now (message_of message.now)) }
    ensures adds { OnOk result (Adds (named_in scope.now named (message_of message.now) ∷ [])
        names.old names.new) }
    ensures refused { IfErr result (λ e. is_package named ≡ false
        → CannotAdd (named_in scope.now named (message_of message.now) ∷ []) names.old e) }
{
    let own = text(message, proto::NAME);
    let full = name_in(alloc, scope, own)?;
    declare(names, full.clone()?, named)?;
    Ok(full)
}

// Puts the qualified name of what a message is called in the scope in the table.
fn declare_own(
    alloc: Global,
    names: &mut NameTable,
    scope: &str,
    message: &SetMessage<'_, '_>,
    named: Named,
) -> Result<(), Unstated>
    ensures adds { OnOk result (Adds (named_in scope.now named (message_of message.now) ∷ [])
        names.old names.new) }
    ensures refused { IfErr result (λ e. is_package named ≡ false
        → CannotAdd (named_in scope.now named (message_of message.now) ∷ []) names.old e) }
{
    let own = text(message, proto::NAME);
    let full = name_in(alloc, scope, own)?;
    declare(names, full, named)
}

/// Puts the qualified names of what messages are called in the scope in the table.
pub(crate) fn declare_each(
    alloc: Global,
    names: &mut NameTable,
    scope: &str,
    messages: &[SetMessage<'_, '_>],
    named: Named,
) -> Result<(), Unstated>
    ensures adds { OnOk result (Adds (all_named scope.now named (map message_of messages.now))
        names.old names.new) }
    ensures refused { IfErr result (λ e. is_package named ≡ false
        → CannotAdd (all_named scope.now named (map message_of messages.now)) names.old e) }
{
    for message in messages {
        declare_own(alloc, names, scope, message, named)?;
    }
    Ok(())
}

/// The oneofs at indices that aren't marked.
pub(crate) fn real_oneofs<'b, 'a>(
    alloc: Global,
    oneofs: &[SetMessage<'b, 'a>],
    numbers: &[i128],
    marks: &[bool],
) -> Result<Vec<SetMessage<'b, 'a>>, AllocError>
    requires { AreMarked numbers.now (length oneofs.now) marks.now }
    ensures { IfOk result (λ real. map message_of real.items
        ≡ real_oneofs numbers.now 0 (map message_of oneofs.now)) }
{
    let mut real = Vec::new(alloc);
    for (place, oneof) in oneofs.iter().enumerate() {
        if !marks[place] {
            real.push(oneof.reborrow())?;
        }
    }
    Ok(real)
}

// Puts a part of a package in the table, which may have it as that.
fn declare_part(names: &mut NameTable, part: String) -> Result<(), Unstated>
    ensures adds { OnOk result (Adds (package_part (string_bytes part) ∷ []) names.old
        names.new) }
    ensures refused { IfErr result (CannotAdd (package_part (string_bytes part) ∷ [])
        names.old) }
{
    match names.insert(part, Named::Package)? {
        None => Ok(()),
        Some(Named::Package) => Ok(()),
        Some(_) => Err(Unstated::Reference),
    }
}

/// Puts the parts of a package in the table, which may have them as those of others: what
/// comes before a dot after that of its scope, and the whole.
pub(crate) fn declare_package(
    alloc: Global,
    names: &mut NameTable,
    path: &str,
) -> Result<(), Unstated>
    ensures adds { OnOk result (Adds (package_declared (46 ∷ path.now)) names.old names.new) }
    ensures refused { IfErr result (CannotAdd (package_declared (46 ∷ path.now)) names.old) }
{
    let mut front = String::new(alloc);
    front.push('.')?;
    for letter in path.chars() {
        if letter == '.' {
            declare_part(names, front.clone()?)?;
        }
        front.push(letter)?;
    }
    declare_part(names, front)
}
