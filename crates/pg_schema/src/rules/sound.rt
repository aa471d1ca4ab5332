//! What holds of all that a schema declares.

ghost use Rattle.std.specs.Prelude.{◌≡◌, ◌↔◌, IfOk, IsTrue, true};
ghost use Rattle.std.specs.List.{list_all};
ghost use Rattle.pg_schema.specs.rules.Files.{is_file};
ghost use Rattle.pg_schema.specs.inner.Checks.{are_named_apart, are_placed, keep_rules};
ghost use Rattle.pg_schema.specs.rules.Sound.{IsSound};

use crate::parts::Parts;
use crate::rules::declared_names::declared_names;
use crate::rules::enums::are_enums;
use crate::rules::files::{are_files, are_services};
use crate::rules::messages::are_message_types;
use crate::rules::packages::are_free;
use crate::rules::scopes::{are_declared_once, are_file_scopes, are_type_scopes};
use crate::rules::text_sets::{lent, set_of};
use std::alloc::{AllocError, Global};

/// The most message types that a schema may have.
pub const MAX_MESSAGE_TYPES: usize = 4096;

/// Each file, message type, enum and service keeps to its rules.
fn keep_rules(alloc: Global, parts: &Parts) -> Result<bool, AllocError>
    ensures { IfOk result (λ b. b ≡ keep_rules parts.now) }
{
    let types = parts.types.len();
    if !are_files(&parts.files) || !are_services(&parts.services, types) {
        return Ok(false);
    }
    if !are_message_types(alloc, &parts.types, parts.enums.len())? {
        return Ok(false);
    }
    are_enums(alloc, &parts.enums)
}

/// Each message type, enum and service is declared once, and its name begins with its scope's.
fn are_placed(alloc: Global, parts: &Parts) -> Result<bool, AllocError>
    ensures { IfOk result (λ b. b ≡ are_placed parts.now) }
{
    if !are_file_scopes(&parts.files, &parts.types, &parts.enums, &parts.services)
        || !are_type_scopes(&parts.types, &parts.enums)
    {
        return Ok(false);
    }
    let enums = parts.enums.len();
    are_declared_once(
        alloc,
        &parts.files,
        &parts.types,
        enums,
        parts.services.len(),
    )
}

/// No full name is declared twice, in whichever files, and none is a part of a package.
fn are_named_apart(alloc: Global, parts: &Parts) -> Result<bool, AllocError>
    requires { list_all is_file parts.now.files.items ≡ true }
    ensures { IfOk result (λ b. b ≡ are_named_apart parts.now) }
{
    let names = declared_names(alloc, parts)?;
    let texts = lent(alloc, &names)?;
    match set_of(alloc, &texts)? {
        Some(set) => are_free(alloc, &set, &parts.files),
        None => Ok(false),
    }
}

/// The parts keep to all rules of what a schema declares.
pub(crate) fn is_sound(alloc: Global, parts: &Parts) -> Result<bool, AllocError>
    ensures { IfOk result (λ b. IsTrue b ↔ IsSound parts.now) }
{
    if parts.types.len() > MAX_MESSAGE_TYPES || !keep_rules(alloc, parts)? {
        return Ok(false);
    }
    if !are_placed(alloc, parts)? {
        return Ok(false);
    }
    are_named_apart(alloc, parts)
}
