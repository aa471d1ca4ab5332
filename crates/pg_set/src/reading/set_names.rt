//! The qualified names of what a set declares, scope by scope, and how a schema has them.

ghost use Rattle.std.specs.Prelude.{◌≡◌, ◌++◌, not, IfOk, OnOk, if◌then◌else◌};
ghost use Rattle.std.specs.List.{list_all};
ghost use Rattle.std.specs.String.{string_bytes};
ghost use Rattle.pg_set.specs.stated.SetNames.{escaped, is_backslash, is_dot_or_backslash, name_in, package_scope};
ghost use Rattle.pg_set.specs.stated.StatedNames.{undotted};

use std::alloc::{AllocError, Global};

// Whether a backslash goes in front of a letter: a backslash, and a dot where dots are quoted.
fn is_escaped(dots: bool, letter: char) -> bool
    ensures { result ≡ (if dots then is_dot_or_backslash letter else is_backslash letter) }
{
    letter == '\\' || dots && letter == '.'
}

// The string, with a backslash in front of such letters.
fn push_escaped(full: &mut String, text: &str, dots: bool) -> Result<(), AllocError>
    ensures { OnOk result (string_bytes full.new ≡ string_bytes full.old ++ escaped
        (λ byte. if dots then is_dot_or_backslash byte else is_backslash byte) text.now) }
{
    for letter in text.chars() {
        if is_escaped(dots, letter) {
            full.push('\\')?;
        }
        full.push(letter)?;
    }
    Ok(())
}

// None of the bytes is a dot or a backslash.
fn are_plain(bytes: &[u8]) -> bool
    ensures { result ≡ list_all (λ byte. not (is_dot_or_backslash byte)) bytes.now }
{
    bytes.iter().all(|byte| *byte != b'.' && *byte != b'\\')
}

// The name, with a backslash in front of each dot and each backslash. Few names have one.
fn push_quoted(full: &mut String, name: &str) -> Result<(), AllocError>
    ensures { OnOk result (string_bytes full.new
        ≡ string_bytes full.old ++ escaped is_dot_or_backslash name.now) }
{
    if are_plain(name.as_bytes()) {
        full.push_str(name)?;
        return Ok(());
    }
    push_escaped(full, name, true)
}

/// The qualified name of a name in the scope.
pub(crate) fn name_in(alloc: Global, scope: &str, name: &str) -> Result<String, AllocError>
    ensures { IfOk result (λ full. string_bytes full ≡ name_in scope.now name.now) }
{
    let room = scope.len().saturating_add(name.len()).saturating_add(1);
    let mut full = String::with_capacity(alloc, room)?;
    full.push_str(scope)?;
    full.push('.')?;
    push_quoted(&mut full, name)?;
    Ok(full)
}

/// The scope of a package of that name.
pub(crate) fn package_scope(alloc: Global, name: &str) -> Result<String, AllocError>
    ensures { IfOk result (λ scope. string_bytes scope ≡ package_scope name.now) }
{
    let mut scope = String::new(alloc);
    if name.is_empty() {
        return Ok(scope);
    }
    scope.push('.')?;
    push_escaped(&mut scope, name, false)?;
    Ok(scope)
}

/// A name without the dot in front, as a schema has it.
pub(crate) fn undotted(name: &str) -> &str
    ensures { result.now ≡ undotted name.now }
{
    match name.strip_prefix(".") {
        Some(own) => own,
        None => name,
    }
}
