//! One row: `WHAT | WORDS | OLD FILES | NEW FILES`, and ` | PARTS` where only these are known of
//! the output. A space separates two words. A row of `gate` that names no view is run under both
//! views: its output by names follows the rest where more than the name of the view differs.
use crate::files::{File, files, lent};
use crate::parts::told;
use kit_rows::{cut, unrolled};
use pg_gate::{Buffer, GateError, run};
use pg_link::Listed;
use std::alloc::{AllocError, Global};

/// The files of the old and of the new side.
type Sides<'a> = (Vec<File<'a>>, Vec<File<'a>>);

/// The status, and what the program printed.
type Printed = (u8, Vec<u8>);

/// How many bytes a sink takes without more memory.
const ROOM: usize = 65_536;

fn words_of(alloc: Global, text: &str) -> Result<Vec<&str>, AllocError> {
    if text.is_empty() {
        return Ok(Vec::new(alloc));
    }
    text.split(' ').collect(alloc)
}

/// The status of a run. How it ended is lent, so that it is dropped only once.
fn status_of(ended: &Result<u8, GateError>) -> Result<u8, AllocError> {
    match ended {
        Ok(status) => Ok(*status),
        Err(GateError::Memory) => Err(AllocError),
        // The sink refused the output: its room was too small.
        Err(_) => Ok(u8::MAX),
    }
}

fn printed(
    alloc: Global,
    words: &[&str],
    old: &[(&str, &[u8])],
    new: &[(&str, &[u8])],
) -> Result<Printed, AllocError> {
    let mut sink = Buffer::from_vec(Vec::with_capacity(alloc, ROOM)?);
    let mut old = Listed { files: old };
    let mut new = Listed { files: new };
    let status = status_of(&run(alloc, words, &mut old, &mut new, &mut sink))?;
    Ok((status, sink.bytes))
}

fn printed_over(alloc: Global, words: &str, sides: &Sides) -> Result<Printed, AllocError> {
    let words = words_of(alloc, words)?;
    let old = lent(alloc, &sides.0)?;
    let new = lent(alloc, &sides.1)?;
    printed(alloc, &words, &old, &new)
}

fn sides<'a>(alloc: Global, old: &'a str, new: &'a str) -> Result<Sides<'a>, AllocError> {
    Ok((files(alloc, old)?, files(alloc, new)?))
}

fn spelled(alloc: Global, bytes: &[u8]) -> Result<String, AllocError> {
    format!(in alloc; "{}", bytes.escape_ascii())
}

/// The status of a run with these words over these files, and what it printed, spelled.
fn ran(alloc: Global, words: &str, old: &str, new: &str) -> Result<(u8, String), AllocError> {
    let sides = sides(alloc, old, new)?;
    let (status, bytes) = printed_over(alloc, words, &sides)?;
    Ok((status, spelled(alloc, &bytes)?))
}

/// Whether the run was one of `gate` that named no view and wasn't refused for its words.
fn has_two_views(words: &str, status: u8) -> bool {
    words.starts_with("gate ") && !words.contains("--view") && status < 4
}

/// What the same run prints by names, where more than the name of the view differs.
fn by_names(
    alloc: Global,
    words: &str,
    old: &str,
    new: &str,
    by_numbers: (u8, &str),
) -> Result<String, AllocError> {
    let words = format!(in alloc; "{words} --view names")?;
    let (status, text) = ran(alloc, words.as_str(), old, new)?;
    let wanted = by_numbers.1.replace(alloc, "view numbers", "view names")?;
    if status == by_numbers.0 && text.as_str() == wanted.as_str() {
        return Ok(String::new(alloc));
    }
    format!(in alloc; " | by names {status} {text}")
}

/// The status and the output of a row's run.
pub(crate) fn answer(alloc: Global, row: &str) -> Result<String, AllocError> {
    let row = unrolled(alloc, row)?;
    let (_, rest) = cut(&row);
    let (words, rest) = cut(rest);
    let (old, rest) = cut(rest);
    let (new, parts) = cut(rest);
    let (status, text) = ran(alloc, words, old, new)?;
    let mut named = String::new(alloc);
    if has_two_views(words, status) {
        named = by_names(alloc, words, old, new, (status, text.as_str()))?;
    }
    let text = told(alloc, text, parts)?;
    format!(in alloc; "{status} {text}{named}")
}
