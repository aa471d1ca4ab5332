//! Rows that spell repeats.
use std::alloc::{AllocError, Global};

/// The number that is spelled, 0 where none is.
pub fn number_of(text: &str) -> u32 {
    text.parse::<u32>().unwrap_or(0)
}

// Appends the string once, with the number in place of each `#` in it.
fn put(alloc: Global, out: &mut String, text: &str, number: u32) -> Result<(), AllocError> {
    for (place, part) in text.split('#').enumerate() {
        if place > 0 {
            out.push_str(&format!(in alloc; "{number}")?)?;
        }
        out.push_str(part)?;
    }
    Ok(())
}

// Appends the string once for each number from `from` up or down to `to`, without `to`.
fn put_each(
    alloc: Global,
    out: &mut String,
    text: &str,
    from: u32,
    to: u32,
) -> Result<(), AllocError> {
    for place in 0..from.max(to).saturating_sub(from.min(to)) {
        let number = if from < to {
            from.saturating_add(place)
        } else {
            from.saturating_sub(place)
        };
        put(alloc, out, text, number)?;
    }
    Ok(())
}

// Appends what `FROM TO TEXT` spells.
fn put_repeat(alloc: Global, out: &mut String, spelled: &str) -> Result<(), AllocError> {
    let (from, rest) = spelled.split_once(' ').unwrap_or((spelled, ""));
    let (to, text) = rest.split_once(' ').unwrap_or((rest, ""));
    put_each(alloc, out, text, number_of(from), number_of(to))
}

// Appends a repeat, which ends with `>>`, and what comes after it.
fn put_piece(alloc: Global, out: &mut String, piece: &str) -> Result<(), AllocError> {
    let (repeat, behind) = piece.split_once(">>").unwrap_or((piece, ""));
    put_repeat(alloc, out, repeat)?;
    out.push_str(behind)
}

/// The row with each repeat in it written out: `<<FROM TO TEXT>>` is `TEXT` once for each number
/// from `FROM` up or down to `TO`, without `TO`, with the number in place of each `#` in `TEXT`.
pub fn unrolled(alloc: Global, row: &str) -> Result<String, AllocError> {
    let (front, rest) = row.split_once("<<").unwrap_or((row, ""));
    let mut out = String::from_str(alloc, front)?;
    if !rest.is_empty() {
        for piece in rest.split("<<") {
            put_piece(alloc, &mut out, piece)?;
        }
    }
    Ok(out)
}
