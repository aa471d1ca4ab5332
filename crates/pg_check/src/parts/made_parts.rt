//! What files declare, as a schema has it.

ghost use Rattle.std.specs.Prelude.{◌≡◌, ◌++◌, ◌∷◌, [], ℕ, List, IfOk, OnOk, length, map};
ghost use Rattle.pg_check.specs.inner.Sources.{target_in, IsMadeBy, source};
ghost use Rattle.pg_check.specs.inner.Grouped.{in_scope};
ghost use Rattle.pg_check.specs.parts.ByScope.{places_in};
ghost use Rattle.pg_check.specs.parts.MadeEnums.{enumeration, made_enum};
ghost use Rattle.pg_check.specs.parts.MadeParts as spec;
ghost use Rattle.pg_check.specs.inner.Grouped as kept;
ghost use Rattle.pg_check.specs.parts.MadeServices.{service};
ghost use Rattle.pg_check.specs.rules.Outline as outline;
ghost use Rattle.pg_check.specs.inner.CodeViews as views;

use crate::parts::by_scope::{ByScope, enums_in, grouped, placed_enums, placed_messages, types_in};
use crate::parts::made_enum::made_enum;
use crate::parts::made_file::{made_imports, made_options};
use crate::parts::made_message::made_message;
use crate::parts::made_service::{push_services, service_ids};
use crate::rules::outline::{
    FoundEnum, FoundMessage, file_messages, package_of, scoped_enums, statements_behind,
};
use crate::rules::types::Targets;
use pg_schema::{EnumType, File, MessageType, Parts, Service, ServiceId};
use pg_syntax::tree::FileTree;
use std::alloc::{AllocError, Global};

/// A file: its path, its bytes and tree, and what its type names name.
#[derive(Drop)]
pub(crate) struct Source<'a> {
    pub path: &'a str,
    pub text: &'a [u8],
    pub tree: &'a FileTree,
    pub targets: Targets<'a>,
}

/// The message types of a file by the scopes that declare them, behind those before.
fn message_groups(
    alloc: Global,
    before: &[MessageType],
    tree: &FileTree,
    found: &[FoundMessage<'_>],
) -> Result<ByScope, AllocError>
    requires { map views.message found.now ≡ outline.file_messages tree.now }
    ensures { IfOk result (λ by_scope. (scope : List ℕ) → in_scope by_scope scope
        ≡ places_in scope (spec.placed_messages (length before.now) tree.now)) }
{
    let list = placed_messages(alloc, before, found)?;
    grouped(alloc, &list)
}

/// The enums of a file by the scopes that declare them, behind those before.
fn enum_groups(
    alloc: Global,
    before: &[EnumType],
    tree: &FileTree,
    found: &[FoundEnum<'_>],
) -> Result<ByScope, AllocError>
    requires { map views.enumeration found.now ≡ outline.scoped_enums tree.now }
    ensures { IfOk result (λ by_scope. (scope : List ℕ) → in_scope by_scope scope
        ≡ places_in scope (spec.placed_enums (length before.now) tree.now)) }
{
    let list = placed_enums(alloc, before, found)?;
    grouped(alloc, &list)
}

/// The message type, with what is in it.
fn made_type(
    alloc: Global,
    targets: &Targets<'_>,
    types: &ByScope,
    enums: &ByScope,
    one: &FoundMessage<'_>,
) -> Result<MessageType, AllocError>
    ensures { IfOk result (spec.IsTypeOf
        (kept.grouped_tree (target_in targets.now) (in_scope types.now) (in_scope enums.now)
        (views.message one.now))) }
{
    let full = one.full.as_str();
    let nested = types_in(alloc, types, full)?;
    let inner = enums_in(alloc, enums, full)?;
    let body = one.tree.parts.as_slice();
    let made = made_message(alloc, targets, full, body, nested, inner)?;
    Ok(made)
}

/// The message types, with what is in each.
fn made_types(
    alloc: Global,
    targets: &Targets<'_>,
    types: &ByScope,
    enums: &ByScope,
    found: &[FoundMessage<'_>],
) -> Result<Vec<MessageType>, AllocError>
    ensures { IfOk result (λ made. spec.EachIs spec.IsTypeOf
        (map (kept.grouped_tree (target_in targets.now) (in_scope types.now) (in_scope enums.now))
        (map views.message found.now)) made.items) }
{
    let mut made = Vec::new(alloc);
    for one in found {
        let next = made_type(alloc, targets, types, enums, one)?;
        made.push(next)?;
    }
    Ok(made)
}

/// The enums.
fn made_enums(alloc: Global, found: &[FoundEnum<'_>]) -> Result<Vec<EnumType>, AllocError>
    ensures { IfOk result (λ made. map enumeration made.items
        ≡ map made_enum (map views.enumeration found.now)) }
{
    let mut made = Vec::new(alloc);
    for one in found {
        made.push(made_enum(alloc, &one.full, &one.tree.parts)?)?;
    }
    Ok(made)
}

/// The services of a file.
fn file_services(alloc: Global, file: &Source<'_>) -> Result<Vec<Service>, AllocError>
    ensures { IfOk result (λ services. map service services.items
        ≡ spec.file_services (source file.now)) }
{
    let package = package_of(alloc, file.tree)?;
    let mut services = Vec::new(alloc);
    push_services(
        alloc,
        &file.targets,
        &package,
        &mut services,
        &file.tree.statements,
    )?;
    push_services(
        alloc,
        &file.targets,
        &package,
        &mut services,
        statements_behind(file.tree),
    )?;
    Ok(services)
}

/// The file, with what it declares outside of messages.
fn made_file(
    alloc: Global,
    file: &Source<'_>,
    types: &ByScope,
    enums: &ByScope,
    services: Vec<ServiceId>,
) -> Result<File, AllocError>
    ensures { IfOk result (spec.IsFileOf
        (kept.grouped_shape (in_scope types.now) (in_scope enums.now) services.items
        (source file.now))) }
{
    let package = package_of(alloc, file.tree)?;
    let types = types_in(alloc, types, &package)?;
    let enums = enums_in(alloc, enums, &package)?;
    let name = String::from_str(alloc, file.path)?;
    let imports = made_imports(alloc, file.tree)?;
    let options = made_options(alloc, file.tree)?;
    Ok(File {
        name,
        package,
        imports,
        types,
        enums,
        services,
        options,
    })
}

/// What one file declares.
#[derive(Drop)]
struct Made {
    types: Vec<MessageType>,
    enums: Vec<EnumType>,
    services: Vec<Service>,
    file: File,
}

/// What a file declares, after what other files do.
fn made_by(alloc: Global, before: &Parts, file: &Source<'_>) -> Result<Made, AllocError>
    ensures { IfOk result (IsMadeBy (length before.now.types.items) (length before.now.enums.items)
        (length before.now.services.items) (source file.now)) }
{
    let messages = file_messages(alloc, file.tree)?;
    let found = scoped_enums(alloc, file.tree, &messages)?;
    let in_types = message_groups(alloc, &before.types, file.tree, &messages)?;
    let in_enums = enum_groups(alloc, &before.enums, file.tree, &found)?;
    let types = made_types(alloc, &file.targets, &in_types, &in_enums, &messages)?;
    let enums = made_enums(alloc, &found)?;
    let made = file_services(alloc, file)?;
    let ids = service_ids(alloc, &before.services, &made)?;
    let file = made_file(alloc, file, &in_types, &in_enums, ids)?;
    Ok(Made {
        types,
        enums,
        services: made,
        file,
    })
}

/// Appends what one file declares.
fn push_made(parts: &mut Parts, made: Made) -> Result<(), AllocError>
    ensures types { OnOk result (parts.new.types.items
        ≡ parts.old.types.items ++ made.types.items) }
    ensures enums { OnOk result (parts.new.enums.items
        ≡ parts.old.enums.items ++ made.enums.items) }
    ensures services { OnOk result (parts.new.services.items ≡ parts.old.services.items
        ++ made.services.items) }
    ensures files { OnOk result (parts.new.files.items ≡ parts.old.files.items ++ made.file ∷ []) }
{
    let Made {
        mut types,
        mut enums,
        mut services,
        file,
    } = made;
    parts.types.append(&mut types)?;
    parts.enums.append(&mut enums)?;
    parts.services.append(&mut services)?;
    parts.files.push(file)?;
    Ok(())
}

/// Appends what a file declares.
fn push_file(alloc: Global, parts: &mut Parts, file: &Source<'_>) -> Result<(), AllocError>
    ensures { OnOk result ((d : spec.Declared) → spec.States d parts.old
        → spec.States (spec.with_file d (source file.now)) parts.new) }
{
    let made = made_by(alloc, parts, file)?;
    push_made(parts, made)?;
    Ok(())
}

/// What the files declare.
pub(crate) fn parts_of(alloc: Global, files: &[Source<'_>]) -> Result<Parts, AllocError>
    ensures { IfOk result (spec.ArePartsOf (map source files.now)) }
{
    let mut parts = Parts {
        files: Vec::new(alloc),
        types: Vec::new(alloc),
        enums: Vec::new(alloc),
        services: Vec::new(alloc),
    };
    for file in files {
        push_file(alloc, &mut parts, file)?;
    }
    Ok(parts)
}
