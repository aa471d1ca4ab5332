//! Certificates.
ghost use Rattle.pg_cert.specs.Text.{IsClaimOf};

use crate::shown;
use crate::shown::{Shown, add, list};
use crate::spelled::{bounds_of, hex_bytes, pair_of, table_of};
use kit_rows::{bytes_of, cut};
use pg_cert::{Bounds, BoundsError, CertError, Certificate, PairBound, check, from_text, to_text};
use pg_pairs::{Pair, Priced};
use std::alloc::{AllocError, Global};

/// The bounds in the table's order.
pub(crate) fn list_of(alloc: Global, bounds: &Bounds) -> Result<String, AllocError> {
    let mut list = String::new(alloc);
    for at in 0..bounds.len() {
        if let Some(bound) = bounds.get(at) {
            add(&mut list, bound.shown(alloc)?.as_str())?;
        }
    }
    Ok(list)
}

/// The checker's verdict.
pub(crate) fn checked(
    alloc: Global,
    graph: &Priced<'_>,
    certificate: &Certificate,
) -> Result<String, AllocError> {
    match check(alloc, graph.old, graph.new, certificate) {
        Ok(verdict) => shown::verdict(alloc, verdict),
        Err(error) => shown::fault(alloc, error),
    }
}

/// The checker's verdict on the certificate of these parts.
pub(crate) fn check_claim(
    alloc: Global,
    graph: &Priced<'_>,
    root: Pair,
    bounds: Bounds,
    witness: Option<Vec<u8>>,
) -> Result<String, AllocError> {
    match Certificate::new(graph.view, root, bounds, witness) {
        Ok(certificate) => checked(alloc, graph, &certificate),
        Err(_) => String::from_str(alloc, "no certificate"),
    }
}

fn witness_of(alloc: Global, digits: &str) -> Result<Option<Vec<u8>>, AllocError> {
    if digits.is_empty() {
        return Ok(None);
    }
    Ok(Some(hex_bytes(alloc, digits)?))
}

/// `check | OLD | NEW | ROOT | BOUNDS [| WITNESS]`: the checker's verdict.
pub(crate) fn check_parts(
    alloc: Global,
    graph: &Priced<'_>,
    words: &str,
) -> Result<String, AllocError> {
    let (root, words) = cut(words);
    let (bounds, digits) = cut(words);
    match table_of(alloc, bounds)? {
        Some(table) => {
            let witness = witness_of(alloc, digits)?;
            check_claim(alloc, graph, pair_of(root), table, witness)
        }
        None => String::from_str(alloc, "no table"),
    }
}

/// Why bounds make no table, and the bounds that came back.
fn refused(alloc: Global, error: BoundsError, back: &[PairBound]) -> Result<String, AllocError> {
    let back = list(alloc, back)?;
    match error {
        BoundsError::Memory => format!(in alloc; "Memory {back}"),
        BoundsError::Invariant => format!(in alloc; "no table {back}"),
    }
}

pub(crate) fn shown_table(
    alloc: Global,
    found: Result<Bounds, (BoundsError, Vec<PairBound>)>,
) -> Result<String, AllocError> {
    match found {
        Ok(table) => list_of(alloc, &table),
        Err((error, back)) => refused(alloc, error, &back),
    }
}

/// `table | BOUNDS`: the bounds of the table that they make; or why they make none, and the bounds
/// that came back.
pub(crate) fn table(alloc: Global, words: &str) -> Result<String, AllocError> {
    shown_table(alloc, Bounds::new(alloc, bounds_of(alloc, words)?))
}

/// The checker's verdict on a certificate, and the bytes that `to_text` writes of it.
fn written(
    alloc: Global,
    graph: &Priced<'_>,
    certificate: &Certificate,
) -> Result<String, AllocError>
    requires { IsClaimOf graph.now.old.now graph.now.new.now certificate.now }
{
    let verdict = checked(alloc, graph, certificate)?;
    let text = to_text(alloc, graph.old, graph.new, certificate)?;
    format!(in alloc; "{verdict} | {}", text.as_bytes().escape_ascii())
}

/// `text | OLD | NEW | TEXT`: why `TEXT` spells no certificate, or the checker's verdict on the
/// certificate and what `to_text` writes of it.
pub(crate) fn text(alloc: Global, graph: &Priced<'_>, words: &str) -> Result<String, AllocError> {
    let bytes = bytes_of(alloc, words)?;
    match from_text(alloc, graph.old, graph.new, &bytes) {
        Ok(certificate) => written(alloc, graph, &certificate),
        Err(error) => shown::fault(alloc, error),
    }
}

/// Whether an error is `BadText`.
fn is_bad_text(error: CertError) -> Result<bool, AllocError> {
    match error {
        CertError::Memory => Err(AllocError),
        CertError::BadText => Ok(true),
        _ => Ok(false),
    }
}

/// Whether `from_text` refuses the bytes with `BadText`.
fn is_bad(alloc: Global, graph: &Priced<'_>, bytes: &[u8]) -> Result<bool, AllocError> {
    match from_text(alloc, graph.old, graph.new, bytes) {
        Ok(_) => Ok(false),
        Err(error) => is_bad_text(error),
    }
}

/// How many proper prefixes of the bytes spell no certificate.
fn bad_fronts(alloc: Global, graph: &Priced<'_>, bytes: &[u8]) -> Result<usize, AllocError> {
    let mut count = 0_usize;
    for end in 0..bytes.len() {
        if is_bad(alloc, graph, &bytes[..end])? {
            count = count.saturating_add(1);
        }
    }
    Ok(count)
}

/// `fronts | OLD | NEW | TEXT`: how many proper prefixes of `TEXT` spell no certificate, and how
/// many there are.
pub(crate) fn fronts(alloc: Global, graph: &Priced<'_>, words: &str) -> Result<String, AllocError> {
    let bytes = bytes_of(alloc, words)?;
    let count = bad_fronts(alloc, graph, &bytes)?;
    format!(in alloc; "{count} of {} bad", bytes.len())
}
