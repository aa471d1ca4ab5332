//! Bytes as rows spell them.
use std::alloc::{AllocError, Global};

// The value of a hexadecimal digit, 0 for any other byte.
fn digit(byte: u8) -> u8 {
    match byte {
        b'0'..=b'9' => byte - b'0',
        b'a'..=b'f' => byte - b'a' + 10,
        _ => 0,
    }
}

// The byte that is spelled right after a backslash, and how many bytes spell it.
fn escaped(behind: &[u8]) -> (u8, usize) {
    match behind {
        [b'n', ..] => (b'\n', 1),
        [b'r', ..] => (b'\r', 1),
        [b't', ..] => (b'\t', 1),
        [b'x', high, low, ..] => (digit(*high).wrapping_mul(16).wrapping_add(digit(*low)), 3),
        [other, ..] => (*other, 1),
        [] => (b'\\', 0),
    }
}

/// The bytes that a row spells: `\n`, `\r` and `\t` as in Rust, `\x` with two lower case digits
/// for any byte, and a backslash before any other byte for that byte. So what `escape_ascii` prints
/// of bytes spells them again.
pub fn bytes_of(alloc: Global, text: &str) -> Result<Vec<u8>, AllocError> {
    let mut bytes = Vec::new(alloc);
    let mut skip = 0;
    for (at, byte) in text.bytes().enumerate() {
        if skip > 0 {
            skip -= 1;
            continue;
        }
        if byte == b'\\' {
            let (found, length) = escaped(&text.as_bytes()[at + 1..]);
            bytes.push(found)?;
            skip = length;
        } else {
            bytes.push(byte)?;
        }
    }
    Ok(bytes)
}

/// The spelling of bytes: what is no printable ASCII character is escaped, and so are quotes and
/// backslashes.
pub fn spelling(alloc: Global, bytes: &[u8]) -> Result<String, AllocError> {
    format!(in alloc; "{}", bytes.escape_ascii())
}
