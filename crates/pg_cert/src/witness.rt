//! Witnesses: whether the old writer writes them, and whether they break.

ghost use Rattle.std.specs.Prelude.{◌≡◌, ◌⊎◌, ◌↔◌, ◌<◌, ◌≤◌, true, length, Some, MatchOption, MatchResult, IfOk, IsTrue};
ghost use Rattle.pg_schema.specs.Parts.{shape_of};
ghost use Rattle.pg_dyn.specs.encoding.Encoding.{cap, enc};
ghost use Rattle.pg_dyn.specs.fitting.Fits.{Fits};
ghost use Rattle.pg_dyn.specs.message.Kept.{message_of, type_of};
ghost use Rattle.pg_pairs.specs.graph.GraphView.{seen};
ghost use Rattle.pg_cert.specs.declared.error.CertError.TheVariants as errors;
ghost use Rattle.pg_cert.specs.Certificate.{HasLength, IsWitnessed};
ghost use Rattle.pg_cert.specs.inner.WitnessRead.{IsReadBack};
ghost use Rattle.pg_cert.specs.Witness.{is_witness};
ghost use Rattle.pg_cert.specs.Faults.{WitnessFault};

use crate::error::CertError;
use pg_dyn::laws::reads_again;
use pg_dyn::{DynError, MessageRef, decode_ref_unlimited, encode_ref};
use pg_pairs::{Pair, Priced, breaks_as_written};
use pg_schema::Schema;
use std::alloc::{AllocError, Global};

/// The encoding of a message that fits; `None` where it is too long.
fn encoded(
    alloc: Global,
    old: &Schema,
    message: &MessageRef<'_>,
) -> Result<Option<Vec<u8>>, AllocError>
    requires { Fits (shape_of old.now) message.now }
    ensures { IfOk result (λ found. MatchOption found
        (cap < length (enc (shape_of old.now) (type_of message.now) (message_of message.now)))
        (λ bytes. (bytes.items ≡ enc (shape_of old.now) (type_of message.now)
        (message_of message.now)) × (length bytes.items ≤ cap))) }
{
    match encode_ref(alloc, old, message) {
        Ok(bytes) => Ok(Some(bytes)),
        Err(DynError::TooLong) => Ok(None),
        Err(DynError::Memory) => Err(AllocError),
        // There is no other reason.
        Err(_) => unreachable!(),
    }
}

/// The message without unknown records that the old writer writes as those bytes, at any depth;
/// `None` where it writes none so.
fn read_back<'a>(
    alloc: Global,
    old: &Schema,
    root: Pair,
    bytes: &'a [u8],
) -> Result<Option<MessageRef<'a>>, AllocError>
    requires { is_witness (Some bytes.now) ≡ true }
    ensures { IfOk result (λ found. IsReadBack (shape_of old.now) root bytes.now found) }
{
    // What holds of every schema, and of what a type writes.
    old.parts();
    reads_again();
    if !old.has(root.old) {
        return Ok(None);
    }
    let message = match decode_ref_unlimited(alloc, old, root.old, bytes) {
        Ok(message) => message,
        Err(error) => match error {
            DynError::Memory => return Err(AllocError),
            _ => return Ok(None),
        },
    };
    if !message.is_plain() {
        return Ok(None);
    }
    let Some(again) = encoded(alloc, old, &message)? else {
        return Ok(None);
    };
    if again.as_slice() != bytes {
        return Ok(None);
    }
    Ok(Some(message))
}

/// Whether the bound is a number, and just so many bytes.
fn has_length(bound: Option<Option<u32>>, bytes: &[u8]) -> bool
    ensures { IsTrue result ↔ HasLength bound bytes.now }
{
    match bound {
        Some(Some(most)) => most as usize == bytes.len(),
        _ => false,
    }
}

/// Whether the bytes are a witness of the pair of root types whose bound that is: the old writer
/// writes them of a message without unknown records, which breaks, and the bound is their number.
/// The error is the first of `WitnessNotWritten`, `WitnessLength` and `WitnessKeeps` that is there,
/// or `Memory`.
pub(crate) fn check_witness(
    alloc: Global,
    graph: &Priced<'_>,
    root: Pair,
    bound: Option<Option<u32>>,
    bytes: &[u8],
) -> Result<(), CertError>
    requires { is_witness (Some bytes.now) ≡ true }
    ensures { MatchResult result
        (λ _. IsWitnessed (seen graph.now) (shape_of graph.now.old.now)
        (shape_of graph.now.new.now) root bound bytes.now)
        (λ e. (e ≡ errors.Memory) ⊎ WitnessFault (seen graph.now) (shape_of graph.now.old.now)
        (shape_of graph.now.new.now) root bound bytes.now e) }
{
    // What holds of every schema, and of what a type writes.
    graph.old.parts();
    reads_again();
    let Some(message) = read_back(alloc, graph.old, root, bytes)? else {
        return Err(CertError::WitnessNotWritten);
    };
    if !has_length(bound, bytes) {
        return Err(CertError::WitnessLength);
    }
    // Its encoding is these bytes.
    if !breaks_as_written(alloc, graph, root, &message, bytes)? {
        return Err(CertError::WitnessKeeps);
    }
    Ok(())
}
