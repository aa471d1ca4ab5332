//! What files declare, inside and outside of messages.

ghost use Rattle.std.specs.Prelude.{◌≡◌, ◌++◌, IfOk, OnOk, flat_map, map, string_bytes};
ghost use Rattle.pg_schema.specs.rules.DeclaredNames.{within};
ghost use Rattle.pg_check.specs.rules.Outline as spec;
ghost use Rattle.pg_check.specs.inner.CodeViews as views;

use pg_schema::full_name;
use pg_syntax::tree::{Dotted, Enum, FileTree, Message, Part, Statement};
use std::alloc::{AllocError, Global};

/// A message, the scope that declares it, and its full name without a dot in front.
#[derive(Drop)]
pub(crate) struct FoundMessage<'a> {
    pub scope: String,
    pub full: String,
    pub tree: &'a Message,
}

/// An enum, the scope that declares it, and its full name without a dot in front.
#[derive(Drop)]
pub(crate) struct FoundEnum<'a> {
    pub scope: String,
    pub full: String,
    pub tree: &'a Enum,
}

/// Appends the messages of a part.
#[cycle(messages)]
fn push_part<'a>(
    alloc: Global,
    found: &mut Vec<FoundMessage<'a>>,
    scope: &str,
    part: &'a Part,
) -> Result<(), AllocError>
    ensures { OnOk result (map views.message found.new.items ≡ map views.message found.old.items
        ++ spec.messages_in scope.now part.now) }
{
    match part {
        Part::Message(message) => {
            push_message(alloc, found, scope, message)?;
            Ok(())
        }
        Part::Empty(_) => Ok(()),
        Part::Enum(_) => Ok(()),
        Part::Oneof(_) => Ok(()),
        Part::Option(_) => Ok(()),
        Part::Reserved(_) => Ok(()),
        Part::Map(_) => Ok(()),
        Part::Field(_) => Ok(()),
    }
}

/// Appends the messages of a body.
#[cycle(messages)]
fn push_parts<'a>(
    alloc: Global,
    found: &mut Vec<FoundMessage<'a>>,
    scope: &str,
    body: &'a [Part],
) -> Result<(), AllocError>
    ensures { OnOk result (map views.message found.new.items ≡ map views.message found.old.items
        ++ flat_map (spec.messages_in scope.now) body.now) }
{
    for part in body {
        push_part(alloc, found, scope, part)?;
    }
    Ok(())
}

/// Appends a message and those in it.
#[cycle(messages)]
fn push_message<'a>(
    alloc: Global,
    found: &mut Vec<FoundMessage<'a>>,
    scope: &str,
    message: &'a Message,
) -> Result<(), AllocError>
    ensures { OnOk result (map views.message found.new.items ≡ map views.message found.old.items
        ++ spec.messages_of scope.now message.now) }
{
    let full = full_name(alloc, scope, &message.name.text)?;
    let inner = full.clone()?;
    found.push(FoundMessage {
        scope: String::from_str(alloc, scope)?,
        full,
        tree: message,
    })?;
    push_parts(alloc, found, &inner, &message.parts)
}

/// Appends an enum.
fn push_enum<'a>(
    alloc: Global,
    found: &mut Vec<FoundEnum<'a>>,
    scope: &str,
    tree: &'a Enum,
) -> Result<(), AllocError>
    ensures { OnOk result (map views.enumeration found.new.items
        ≡ map views.enumeration found.old.items ++ spec.an_enum scope.now tree.now) }
{
    let full = full_name(alloc, scope, &tree.name.text)?;
    let scope = String::from_str(alloc, scope)?;
    found.push(FoundEnum { scope, full, tree })?;
    Ok(())
}

/// Names with dots between.
fn dotted(alloc: Global, name: &Dotted) -> Result<String, AllocError>
    ensures { IfOk result (λ text. string_bytes text ≡ spec.dotted name.now) }
{
    let mut text = String::from_str(alloc, &name.first.text)?;
    for word in &name.more {
        text.push('.')?;
        text.push_str(&word.text)?;
    }
    Ok(text)
}

/// The package; empty where none is stated.
pub(crate) fn package_of(alloc: Global, file: &FileTree) -> Result<String, AllocError>
    ensures { IfOk result (λ text. string_bytes text ≡ spec.package_of file.now) }
{
    match &file.packaged {
        Some(packaged) => dotted(alloc, &packaged.package.name),
        None => Ok(String::new(alloc)),
    }
}

/// Appends the message types of statements.
fn push_messages<'a>(
    alloc: Global,
    found: &mut Vec<FoundMessage<'a>>,
    scope: &str,
    statements: &'a [Statement],
) -> Result<(), AllocError>
    ensures { OnOk result (map views.message found.new.items ≡ map views.message found.old.items
        ++ spec.all_messages scope.now statements.now) }
{
    for statement in statements {
        if let Statement::Message(message) = statement {
            push_message(alloc, found, scope, message)?;
        }
    }
    Ok(())
}

/// Appends the enums that a body itself declares.
fn push_own_enums<'a>(
    alloc: Global,
    found: &mut Vec<FoundEnum<'a>>,
    scope: &str,
    body: &'a [Part],
) -> Result<(), AllocError>
    ensures { OnOk result (map views.enumeration found.new.items
        ≡ map views.enumeration found.old.items ++ flat_map (spec.enum_in scope.now) body.now) }
{
    for part in body {
        if let Part::Enum(tree) = part {
            push_enum(alloc, found, scope, tree)?;
        }
    }
    Ok(())
}

/// Appends the enums that each of these message types itself declares.
fn push_inner_enums<'a>(
    alloc: Global,
    found: &mut Vec<FoundEnum<'a>>,
    messages: &[FoundMessage<'a>],
) -> Result<(), AllocError>
    ensures { OnOk result (map views.enumeration found.new.items
        ≡ map views.enumeration found.old.items
        ++ flat_map spec.own_enums (map views.message messages.now)) }
{
    for one in messages {
        let body = one.tree.parts.as_slice();
        push_own_enums(alloc, found, &one.full, body)?;
    }
    Ok(())
}

/// Appends the enums that are statements themselves.
fn push_outer_enums<'a>(
    alloc: Global,
    found: &mut Vec<FoundEnum<'a>>,
    scope: &str,
    statements: &'a [Statement],
) -> Result<(), AllocError>
    ensures { OnOk result (map views.enumeration found.new.items
        ≡ map views.enumeration found.old.items
        ++ flat_map (spec.enum_stated scope.now) statements.now) }
{
    for statement in statements {
        if let Statement::Enum(tree) = statement {
            push_enum(alloc, found, scope, tree)?;
        }
    }
    Ok(())
}

/// The statements after the package's; none where no package is stated.
pub(crate) fn statements_behind(file: &FileTree) -> &[Statement]
    ensures { result.now ≡ spec.statements_behind file.now.packaged }
{
    match &file.packaged {
        Some(packaged) => &packaged.statements,
        None => &[],
    }
}

/// The message types of a file, each before those in it.
pub(crate) fn file_messages<'a>(
    alloc: Global,
    file: &'a FileTree,
) -> Result<Vec<FoundMessage<'a>>, AllocError>
    ensures { IfOk result (λ list. map views.message list.items ≡ spec.file_messages file.now) }
{
    let package = package_of(alloc, file)?;
    let mut found = Vec::new(alloc);
    push_messages(alloc, &mut found, &package, &file.statements)?;
    push_messages(alloc, &mut found, &package, statements_behind(file))?;
    Ok(found)
}

/// The enums of a file scope by scope: those that are outside of messages, and then those of each
/// of its message types.
pub(crate) fn scoped_enums<'a>(
    alloc: Global,
    file: &'a FileTree,
    messages: &[FoundMessage<'a>],
) -> Result<Vec<FoundEnum<'a>>, AllocError>
    requires { map views.message messages.now ≡ spec.file_messages file.now }
    ensures { IfOk result (λ list. map views.enumeration list.items ≡ spec.scoped_enums file.now) }
{
    let package = package_of(alloc, file)?;
    let mut found = Vec::new(alloc);
    push_outer_enums(alloc, &mut found, &package, &file.statements)?;
    push_outer_enums(alloc, &mut found, &package, statements_behind(file))?;
    push_inner_enums(alloc, &mut found, messages)?;
    Ok(found)
}
