//! Linked files and refusals as rows show them.
use crate::placed::refusal_in;
use kit_rows::spelling;
use pg_link::{LinkError, Linked, Target};
use std::alloc::{AllocError, Global};

/// The code and the position of a refusal. The code is E100 for a source file that the lexer
/// refuses, and E200 for one that the parser refuses.
pub fn refusal(alloc: Global, error: LinkError) -> Result<String, AllocError> {
    let code = match &error {
        LinkError::Lex(_, _) => 100,
        LinkError::Syntax(_, _) => 200,
        _ => error.code(),
    };
    match error.place() {
        Some(place) => refusal_in(alloc, code, &place),
        None => Err(AllocError),
    }
}

/// A message type or an enum, by a letter and its number.
fn target(alloc: Global, target: &Target) -> Result<String, AllocError> {
    match target {
        Target::Message(number) => format!(in alloc; " m{number}"),
        Target::Enum(number) => format!(in alloc; " e{number}"),
    }
}

/// Appends a file's path and what its uses of types resolve to.
fn put_file(
    alloc: Global,
    out: &mut String,
    linked: &Linked,
    file: usize,
) -> Result<(), AllocError> {
    if let Some((path, _)) = linked.files().get_index(file) {
        out.push_str(&spelling(alloc, path.as_bytes())?)?;
        for one in linked.targets(file) {
            out.push_str(&target(alloc, one)?)?;
        }
    }
    Ok(())
}

/// The files in their order; of more than nine files how many they are.
fn files(alloc: Global, linked: &Linked) -> Result<String, AllocError> {
    let count = linked.files().len();
    if count > 9 {
        return format!(in alloc; "{count} files");
    }
    let mut out = String::new(alloc);
    for file in 0..count {
        if file > 0 {
            out.push_str(" ; ")?;
        }
        put_file(alloc, &mut out, linked, file)?;
    }
    Ok(out)
}

/// Where a name is declared.
fn name(alloc: Global, linked: &Linked, name: &str) -> Result<String, AllocError> {
    match linked.place(name) {
        Some((file, line, column)) => format!(in alloc; " | {name} {file}:{line}:{column}"),
        None => format!(in alloc; " | {name} nowhere"),
    }
}

/// The files in their order, each with what its uses of types resolve to, and the positions of
/// these names.
pub fn linked_files(alloc: Global, linked: &Linked, names: &str) -> Result<String, AllocError> {
    let mut out = files(alloc, linked)?;
    for one in names.split(' ') {
        if !one.is_empty() {
            out.push_str(&name(alloc, linked, one)?)?;
        }
    }
    Ok(out)
}
