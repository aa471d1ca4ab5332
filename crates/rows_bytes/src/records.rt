//! What `pg_wire` makes of bytes and of numbers.
use crate::contents::word;
use kit_rows::debug;
use pg_dyn::DynError;
use pg_show::{HexError, bytes_of_hex};
use pg_wire::{
    Record, Records, WireError, read_varint, tag_len, unzigzag, varint_len, write_varint, zigzag,
};
use std::alloc::{AllocError, Global};

/// The value of a varint and how many bytes it takes.
fn varint(alloc: Global, bytes: &[u8]) -> Result<String, AllocError> {
    match read_varint(bytes) {
        Ok((value, length)) => format!(in alloc; "{value} {length}"),
        Err(error) => debug(alloc, &error),
    }
}

/// A record's body, and the whole record.
fn spelled_body(alloc: Global, record: &Record) -> Result<String, AllocError> {
    let body = word(alloc, record.body)?;
    let whole = word(alloc, record.bytes)?;
    format!(in alloc; "{body} of {whole}")
}

/// A record's number, wire type and bytes.
fn spelled(alloc: Global, record: &Record) -> Result<String, AllocError> {
    let wire_type = debug(alloc, &record.wire_type)?;
    let bytes = spelled_body(alloc, record)?;
    format!(in alloc; "{} {wire_type} {bytes}, ", record.number)
}

fn spelled_next(alloc: Global, next: Result<Record, WireError>) -> Result<String, AllocError> {
    match next {
        Ok(record) => spelled(alloc, &record),
        Err(error) => format!(in alloc; "{error:?}, "),
    }
}

/// All records, and the fault that ends them.
fn records(alloc: Global, bytes: &[u8]) -> Result<String, AllocError> {
    let mut text = String::new(alloc);
    for next in Records::new(bytes) {
        text.push_str(spelled_next(alloc, next)?.as_str())?;
    }
    text.push_str("end")?;
    Ok(text)
}

/// The fault of the first record, or none.
fn fault(alloc: Global, bytes: &[u8]) -> Result<String, AllocError> {
    match Records::new(bytes).next() {
        Some(Err(error)) => debug(alloc, &error),
        _ => String::from_str(alloc, "none"),
    }
}

/// The fault at the end of the records.
fn last_fault(bytes: &[u8]) -> Option<WireError> {
    for next in Records::new(bytes) {
        if let Err(error) = next {
            return Some(error);
        }
    }
    None
}

/// The offset of the fault at the end of the records, and the same fault three bytes later.
fn place(alloc: Global, bytes: &[u8]) -> Result<String, AllocError> {
    match last_fault(bytes) {
        Some(error) if error.at() < 1_000_000 => {
            format!(in alloc; "{} {:?}", error.at(), error.after(3))
        }
        _ => String::from_str(alloc, "none"),
    }
}

fn of_bytes(alloc: Global, call: &str, bytes: &[u8]) -> Result<String, AllocError> {
    match call {
        "hex" => word(alloc, bytes),
        "varint" => varint(alloc, bytes),
        "records" => records(alloc, bytes),
        "fault" => fault(alloc, bytes),
        "place" => place(alloc, bytes),
        _ => String::from_str(alloc, "no such call"),
    }
}

/// How many bytes are written in front of others, and all.
fn written(alloc: Global, value: u64) -> Result<String, AllocError> {
    let mut out = [0xaa; 10];
    let length = write_varint(value, &mut out);
    let bytes = word(alloc, &out)?;
    format!(in alloc; "{length} {bytes}")
}

fn length(alloc: Global, input: &str) -> Result<String, AllocError> {
    let value = input.parse::<u64>().unwrap_or(0);
    format!(in alloc; "{}", varint_len(value))
}

fn length_of_tag(alloc: Global, input: &str) -> Result<String, AllocError> {
    let number = input.parse::<u32>().unwrap_or(0);
    if number < 536_870_912 {
        return format!(in alloc; "{}", tag_len(number));
    }
    String::from_str(alloc, "no number")
}

/// The word of a number, and the number of that word.
fn zigzag_of(alloc: Global, input: &str) -> Result<String, AllocError> {
    let number = input.parse::<i64>().unwrap_or(0);
    let word = zigzag(number);
    format!(in alloc; "{word} {}", unzigzag(word))
}

fn of_number(alloc: Global, call: &str, input: &str) -> Result<String, AllocError> {
    match call {
        "write" => written(alloc, input.parse().unwrap_or(0)),
        "length" => length(alloc, input),
        "tag" => length_of_tag(alloc, input),
        _ => zigzag_of(alloc, input),
    }
}

/// What a call of `pg_wire` makes of bytes or of a number; `hex` gives back the bytes that
/// `pg_show` reads a word as.
pub(crate) fn answer_of_wire(alloc: Global, call: &str, input: &str) -> Result<String, DynError> {
    if matches!(call, "write" | "length" | "tag" | "zigzag") {
        return Ok(of_number(alloc, call, input)?);
    }
    match bytes_of_hex(alloc, input) {
        Ok(bytes) => Ok(of_bytes(alloc, call, &bytes)?),
        Err(HexError::Memory) => Err(DynError::Memory),
        Err(HexError::BadHex) => Ok(String::from_str(alloc, "no hexadecimal")?),
    }
}
