//! Pieces of parts, `PIECE; PIECE`, in an order that rules may forbid. Each is added to the file,
//! to the message type or the enum that came last, or to that type's last field:
//!
//! - `package NAME`, `import PATH`, `mode` (`optimize_for = CODE_SIZE`), `option NUMBER` (of the
//!   value `true`), and `top INDEX`, `top_enum INDEX` and `top_service INDEX` for what is nested in
//!   no type;
//! - `type NAME`, `oneof NAME`, `reserved FIRST LAST`, `reserved_name NAME`, `inner INDEX`,
//!   `inner_enum INDEX`, `deprecated_type`;
//! - `field NUMBER NAME PRESENCE TYPE`, `member NUMBER NAME` (an `int32` of the first oneof), `json
//!   NAME`, `packed` and `unpacked` (that option), `deprecated`, `in_oneof`, `unstated` (without
//!   the word `optional`);
//! - `enum NAME`, `value NAME NUMBER`, `range FIRST LAST`, `alias`;
//! - `service NAME`.
use super::enums::{add_to_enum, enum_type};
use super::files::{add_to_file, file, service};
use super::types::{add_to_field, add_to_type, message_type};
use pg_schema::{File, MessageType, Parts};
use std::alloc::{AllocError, Global};

fn add(alloc: Global, parts: &mut Parts, piece: &str, words: &str) -> Result<(), AllocError> {
    match piece {
        "type" => parts.types.push(message_type(alloc, words)?)?,
        "enum" => parts.enums.push(enum_type(alloc, words)?)?,
        "service" => parts.services.push(service(alloc, words)?)?,
        _ => {}
    }
    Ok(())
}

fn add_to_last_field(
    alloc: Global,
    made: &mut MessageType,
    piece: &str,
    words: &str,
) -> Result<(), AllocError> {
    let count = made.fields.len();
    if count > 0 {
        add_to_field(alloc, &mut made.fields[count - 1], piece, words)?;
    }
    Ok(())
}

fn add_to_last_type(
    alloc: Global,
    parts: &mut Parts,
    piece: &str,
    words: &str,
) -> Result<(), AllocError> {
    let count = parts.types.len();
    if count > 0 {
        add_to_type(alloc, &mut parts.types[count - 1], piece, words)?;
        add_to_last_field(alloc, &mut parts.types[count - 1], piece, words)?;
    }
    Ok(())
}

fn add_to_last_enum(
    alloc: Global,
    parts: &mut Parts,
    piece: &str,
    words: &str,
) -> Result<(), AllocError> {
    let count = parts.enums.len();
    if count > 0 {
        add_to_enum(alloc, &mut parts.enums[count - 1], piece, words)?;
    }
    Ok(())
}

/// Adds a piece where it belongs: nowhere but in one of these.
fn add_piece(
    alloc: Global,
    file: &mut File,
    parts: &mut Parts,
    spelled: &str,
) -> Result<(), AllocError> {
    let (piece, words) = spelled.split_once(' ').unwrap_or((spelled, ""));
    add_to_file(alloc, file, piece, words)?;
    add(alloc, parts, piece, words)?;
    add_to_last_type(alloc, parts, piece, words)?;
    add_to_last_enum(alloc, parts, piece, words)
}

/// The parts of one file.
pub fn parts_of(alloc: Global, spelled: &str) -> Result<Parts, AllocError> {
    let mut file = file(alloc)?;
    let mut parts = Parts {
        files: Vec::new(alloc),
        types: Vec::new(alloc),
        enums: Vec::new(alloc),
        services: Vec::new(alloc),
    };
    for piece in spelled.split("; ") {
        add_piece(alloc, &mut file, &mut parts, piece)?;
    }
    parts.files.push(file)?;
    Ok(parts)
}
