//! What linked files are asked beside their links.
use super::shown::refusal;
use kit_rows::debug;
use pg_link::{LinkError, Linked};
use pg_syntax::tree::{FileTree, Part, Statement, TypeName};
use std::alloc::{AllocError, Global};
use std::collections::BTreeMap;

/// What the uses in the first file resolve to, by their first bytes.
fn targets(alloc: Global, linked: &Linked) -> Result<String, AllocError> {
    if linked.files().is_empty() {
        return String::from_str(alloc, "no file");
    }
    let mut found = BTreeMap::new(alloc);
    for (at, target) in linked.places(0).iter().zip(linked.targets(0)) {
        found.insert(*at, *target)?;
    }
    debug(alloc, &found)
}

/// The type of the first field of the only message of a file with a package.
fn first_type(file: &FileTree) -> Option<&TypeName> {
    let [Statement::Message(message)] = file.packaged.as_ref()?.statements.as_slice() else {
        return None;
    };
    let [Part::Field(field)] = message.parts.as_slice() else {
        return None;
    };
    Some(&field.type_name)
}

/// The full name that it has in a scope of the first file.
fn full_name(alloc: Global, linked: &Linked, scope: &[&str]) -> Result<String, LinkError> {
    let Some((_, file)) = linked.files().get_index(0) else {
        return Ok(String::new(alloc));
    };
    match first_type(&file.tree) {
        Some(name) => Ok(String::from_str(alloc, linked.resolve(alloc, 0, scope, name)?)?),
        None => Ok(String::new(alloc)),
    }
}

fn resolved(alloc: Global, linked: &Linked, words: &str) -> Result<String, AllocError> {
    let scope: Vec<&str> = words.split(' ').skip(1).collect(alloc)?;
    match full_name(alloc, linked, &scope) {
        Ok(name) => Ok(name),
        Err(error) => refusal(alloc, error),
    }
}

/// The answer for `targets`, or `resolve WORD WORD ..`, where the words are the scope.
pub fn answer_of(alloc: Global, linked: &Linked, asked: &str) -> Result<String, AllocError> {
    if asked == "targets" {
        targets(alloc, linked)
    } else {
        resolved(alloc, linked, asked)
    }
}
