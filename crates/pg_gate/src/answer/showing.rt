//! What is shown of bytes.
ghost use Rattle.std.specs.Prelude.{◌≡◌, ◌<◌, length, Some, IfErr, IfOk, string_bytes};
ghost use Rattle.pg_schema.specs.Parts.{shape_of};
ghost use Rattle.pg_show.specs.Hex.{bytes_in};
ghost use Rattle.pg_gate.specs.Failures.{call_failures};
ghost use Rattle.pg_gate.specs.answer.Grants.{IsShowError, OfSide};
ghost use Rattle.pg_call.specs.Paths.{paths_in};
ghost use Rattle.pg_gate.specs.answer.Showing.{IsReadAs, IsShown};
ghost use Rattle.pg_link.specs.walk.Reads.{Reads};
ghost use Rattle.pg_gate.specs.inner.Sources.{world_of};
ghost use Rattle.pg_gate.specs.inner.Showing.{IsShowFault, IsUnread, IsUnspelled};

use crate::answer::compile::compile_files;
use crate::call_error::CallError;
use crate::error::GateError;
use pg_call::ShowCall;
use pg_dyn::DynError;
use pg_lines::Side;
use pg_link::Sources;
use pg_schema::{Schema, TypeId};
use pg_show::{HexError, bytes_of_hex, show};
use std::alloc::Global;

/// The bytes that the argument spells.
fn bytes_of(alloc: Global, word: &str) -> Result<Vec<u8>, GateError>
    ensures bytes { IfOk result (λ bytes. bytes_in word.now ≡ Some bytes.items) }
    ensures refused { IfErr result (IsUnspelled word.now) }
{
    match bytes_of_hex(alloc, word) {
        Ok(bytes) => Ok(bytes),
        Err(HexError::Memory) => Err(GateError::Memory),
        Err(HexError::BadHex) => Err(GateError::BadHex),
    }
}

/// The lines of the message that the bytes are read as by the type.
fn lines_of(
    alloc: Global,
    schema: &Schema,
    type_id: TypeId,
    bytes: &[u8],
) -> Result<String, CallError>
    requires { type_id.index < length (shape_of schema.now) }
    ensures shown { IfOk result (λ text. IsReadAs schema.now type_id bytes.now
        (string_bytes text)) }
    ensures refused { IfErr result (IsUnread schema.now type_id bytes.now) }
{
    match show(alloc, schema, type_id, bytes) {
        Ok(text) => Ok(text),
        Err(DynError::Memory) => Err(CallError::Gate(GateError::Memory)),
        Err(error) => Err(CallError::Bytes(error)),
    }
}

/// The lines of the message that the argument's bytes are read as by the type of this full name.
fn shown_by(alloc: Global, schema: &Schema, root: &str, word: &str) -> Result<String, CallError>
    ensures shown { IfOk result (λ text. IsShown schema.now root.now word.now (string_bytes text)) }
    ensures refused { IfErr result (IsShowFault schema.now root.now word.now) }
{
    let Some(type_id) = schema.message(root) else {
        return Err(CallError::Gate(GateError::RootMissingOld));
    };
    let bytes = bytes_of(alloc, word)?;
    lines_of(alloc, schema, type_id, &bytes)
}

/// The lines of the message that is to be shown, by a type of the files or of what they import.
pub(crate) fn shown<S: Sources>(
    alloc: Global,
    source: &mut S,
    asked: &ShowCall<'_>,
) -> Result<String, CallError>
    ensures shown { IfOk result (λ text. OfSide
        (world_of S.Sources source.old (paths_in asked.now.files))
        (λ schema. IsShown schema asked.now.root.now asked.now.word.now (string_bytes text))) }
    ensures refused { IfErr result (IsShowError
        (world_of S.Sources source.old (paths_in asked.now.files))
        asked.now.root.now asked.now.word.now) }
    ensures reads { Reads S.Sources source.old source.new (call_failures Side.Old result) }
{
    let schema = compile_files(alloc, source, Side::Old, &asked.files)?.schema;
    shown_by(alloc, &schema, asked.root, asked.word)
}
