//! Searches, and the ways to their witnesses.
use crate::certificates::{check_claim, checked, list_of};
use crate::messages::spelled;
use crate::shown;
use crate::shown::{Shown, list};
use crate::spelled::{pair_of, table_of};
use pg_cert::{Bounds, Certificate};
use pg_dyn::{Message, ViewName};
use pg_least::{find_with, path, search, search_counted, search_with};
use pg_pairs::{Pair, Priced, Work};
use std::alloc::{AllocError, Global};

/// The checker's verdict on these bounds alone.
fn alone(
    alloc: Global,
    graph: &Priced<'_>,
    root: Pair,
    bounds: &str,
) -> Result<String, AllocError> {
    match table_of(alloc, bounds)? {
        Some(table) => check_claim(alloc, graph, root, table, None),
        None => String::from_str(alloc, "no table"),
    }
}

/// The witness in a certificate, which has the bytes of the message beside it, and the message's
/// type.
fn shown_witness(
    alloc: Global,
    graph: &Priced<'_>,
    witness: &[u8],
    message: &Message,
) -> Result<String, AllocError> {
    let written = spelled(alloc, graph.old, message)?;
    let bytes = hex::encode(alloc, witness)?;
    if written.as_str() != bytes.as_str() {
        return String::from_str(alloc, "other bytes");
    }
    format!(in alloc; "{bytes} of {}", message.type_id().index)
}

/// The witness that is found beside a certificate.
fn beside(alloc: Global, graph: &Priced<'_>, root: Pair) -> Result<String, AllocError> {
    if !graph.old.has(root.old) || !graph.new.has(root.new) {
        return String::from_str(alloc, "no such type");
    }
    let found = find_with(alloc, graph, root)?;
    match (found.certificate.witness(), &found.witness) {
        (Some(witness), Some(message)) => shown_witness(alloc, graph, witness, message),
        (None, None) => String::from_str(alloc, "none"),
        _ => String::from_str(alloc, "one alone"),
    }
}

/// What is shown of a certificate with its witness: by numbers its bounds are checked alone.
fn shown_search(
    alloc: Global,
    graph: &Priced<'_>,
    certificate: &Certificate,
    witness: &str,
) -> Result<String, AllocError> {
    let root = certificate.root();
    let bounds = list_of(alloc, certificate.bounds())?;
    let verdict = match graph.view {
        ViewName::Numbers => alone(alloc, graph, root, &bounds),
        ViewName::Names => checked(alloc, graph, certificate),
    }?;
    let root = root.shown(alloc)?;
    format!(in alloc; "{root} | {bounds} | {witness} | {verdict}")
}

/// What is shown of the certificate that a search gives, by numbers `search`.
fn searched(
    alloc: Global,
    graph: &Priced<'_>,
    root: Pair,
    witness: &str,
) -> Result<String, AllocError> {
    if !graph.old.has(root.old) || !graph.new.has(root.new) {
        return String::from_str(alloc, "no such type");
    }
    let certificate = match graph.view {
        ViewName::Numbers => search(alloc, graph.old, graph.new, root),
        ViewName::Names => search_with(alloc, graph, root),
    }?;
    shown_search(alloc, graph, &certificate, witness)
}

/// `search | OLD | NEW | ROOT`: the root of the certificate, its bounds, its witness with the type
/// of the message next to it, and the checker's verdict: by numbers on the bounds alone, by names
/// on the certificate.
pub(crate) fn search_pair(
    alloc: Global,
    graph: &Priced<'_>,
    words: &str,
) -> Result<String, AllocError> {
    let root = pair_of(words);
    let witness = beside(alloc, graph, root)?;
    searched(alloc, graph, root, &witness)
}

/// `path | OLD | NEW | ROOT`: each step of the path to the witness, by its pair and its choice.
pub(crate) fn path_down(
    alloc: Global,
    graph: &Priced<'_>,
    words: &str,
) -> Result<String, AllocError> {
    let root = pair_of(words);
    if !graph.old.has(root.old) || !graph.new.has(root.new) {
        return String::from_str(alloc, "no such type");
    }
    let certificate = search_with(alloc, graph, root)?;
    if certificate.witness().is_none() {
        return String::from_str(alloc, "no witness");
    }
    list(alloc, &path(alloc, graph.old, graph.new, &certificate)?)
}

/// `counts | OLD | NEW | ROOT`: the pairs whose bound is a number, the edges whose child's bound is
/// one, and the pairs.
pub(crate) fn counts(alloc: Global, graph: &Priced<'_>, words: &str) -> Result<String, AllocError> {
    let root = pair_of(words);
    if !graph.old.has(root.old) || !graph.new.has(root.new) {
        return String::from_str(alloc, "no such type");
    }
    let (_, work) = search_counted(alloc, graph.old, graph.new, root)?;
    shown::work(alloc, &work)
}

/// The bounds, and the work that they took.
pub(crate) fn shown_bounds(alloc: Global, found: &(Bounds, Work)) -> Result<String, AllocError> {
    let bounds = list_of(alloc, &found.0)?;
    let work = shown::work(alloc, &found.1)?;
    format!(in alloc; "{bounds} | {work}")
}
