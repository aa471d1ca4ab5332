//! Sets, and what is written of schemas.
use kit_rows::bytes_of;
use pg_fds::{FdsError, read, read_again, write};
use pg_schema::Schema;
use std::alloc::{AllocError, Global};

/// What is written of a schema, and whether the same schema is read and written of it again.
type Written = (Vec<u8>, bool);

/// Whether this is the schema again, and these bytes are written of it.
fn is_made_again(
    alloc: Global,
    schema: &Schema,
    made: &Schema,
    bytes: &[u8],
) -> Result<bool, FdsError> {
    let again = write(alloc, made)?;
    Ok(made.parts() == schema.parts() && again.as_slice() == bytes)
}

fn is_same(alloc: Global, schema: &Schema, bytes: &[u8]) -> Result<bool, FdsError> {
    let made = read_again(alloc, schema)?;
    is_made_again(alloc, schema, &made, bytes)
}

fn written(alloc: Global, schema: &Schema) -> Result<Written, FdsError> {
    let bytes = write(alloc, schema)?;
    let is_same = is_same(alloc, schema, &bytes)?;
    Ok((bytes, is_same))
}

fn read_and_written(alloc: Global, bytes: &[u8]) -> Result<Written, FdsError> {
    let schema = read(alloc, bytes)?;
    written(alloc, &schema)
}

/// The bytes as rows spell them, in quotes.
pub(crate) fn quoted(alloc: Global, bytes: &[u8]) -> Result<String, AllocError> {
    format!(in alloc; "\"{}\"", bytes.escape_ascii())
}

/// The bytes that are written, or the whole error.
fn shown(alloc: Global, found: &Result<Written, FdsError>) -> Result<String, AllocError> {
    match found {
        Ok((written, true)) => quoted(alloc, written),
        Ok((_, false)) => String::from_str(alloc, "not the same again"),
        Err(FdsError::Memory) => Err(AllocError),
        Err(error) => format!(in alloc; "refused {error:?}"),
    }
}

/// What is shown of what was found. It is dropped here alone: each drop takes the prover long.
fn told(alloc: Global, found: Result<Written, FdsError>) -> Result<String, AllocError> {
    shown(alloc, &found)
}

/// What is written of the schema that the set states, or why it states none.
pub(crate) fn of_set(alloc: Global, spelled: &str) -> Result<String, AllocError> {
    let bytes = bytes_of(alloc, spelled)?;
    told(alloc, read_and_written(alloc, &bytes))
}

/// What is written of a schema of files, and whether the same schema is read back from it.
fn written_and_read(alloc: Global, schema: &Schema) -> Result<Written, FdsError> {
    let (bytes, is_same) = written(alloc, schema)?;
    let is_read = is_read(alloc, schema, &bytes)?;
    Ok((bytes, is_same && is_read))
}

fn is_read(alloc: Global, schema: &Schema, bytes: &[u8]) -> Result<bool, FdsError> {
    Ok(read(alloc, bytes)?.parts() == schema.parts())
}

/// What is written of a schema that was made of files.
pub(crate) fn of_schema(alloc: Global, schema: &Schema) -> Result<String, AllocError> {
    told(alloc, written_and_read(alloc, schema))
}
