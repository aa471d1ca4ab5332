//! Strings and numbers of JSON.
ghost use Rattle.std.specs.Fmt.{WritesOnOk};
ghost use Rattle.std.specs.Prelude.{◌≡◌, Some, option_map};
ghost use Rattle.pg_lines.specs.Json as spec;

use crate::hex::Digits;
use std::fmt;
use std::fmt::{Formatter, Write};

/// A text, as a string.
#[derive(Clone, Copy)]
pub(crate) struct Quoted<'a>(pub &'a str);

/// A text, as a string, or null.
#[derive(Clone, Copy)]
pub(crate) struct QuotedOrNull<'a>(pub Option<&'a str>);

/// A word that needs no escape, as a string.
#[derive(Clone, Copy)]
pub(crate) struct Word<'a>(pub &'a str);

/// A number, or null.
#[derive(Clone, Copy)]
pub(crate) struct NumberOrNull(pub Option<usize>);

/// Bytes in hexadecimal, as a string.
#[derive(Clone, Copy)]
pub(crate) struct QuotedHex<'a>(pub &'a [u8]);

/// Whether a byte stands in a string by an escape alone.
fn needs_escape(byte: u8) -> bool
    ensures { result ≡ spec.needs_escape byte }
{
    byte == b'"' || byte == b'\\' || byte < 0x20
}

/// Writes the escape of a byte.
fn write_escape<W: Write>(f: &mut Formatter<W>, byte: u8) -> fmt::Result
    ensures { WritesOnOk W.write_str_gives f.old result (spec.escape_of byte) f.new }
{
    match byte {
        b'"' => f.write_str("\\\""),
        b'\\' => f.write_str("\\\\"),
        b'\n' => f.write_str("\\n"),
        b'\r' => f.write_str("\\r"),
        b'\t' => f.write_str("\\t"),
        0x08 => f.write_str("\\b"),
        0x0c => f.write_str("\\f"),
        _ => {
            let high = byte / 16;
            let low = byte % 16;
            write!(f, "\\u00{high:x}{low:x}")
        }
    }
}

/// Writes a text with its escapes. Between these it is written as it is.
fn write_escaped<W: Write>(f: &mut Formatter<W>, text: &str) -> fmt::Result
    ensures { WritesOnOk W.write_str_gives f.old result (spec.escaped text.now) f.new }
{
    let bytes = text.as_bytes();
    let mut start = 0;
    for at in 0..bytes.len() {
        let byte = bytes[at];
        if needs_escape(byte) {
            f.write_str(&text[start..at])?;
            write_escape(f, byte)?;
            start = at + 1;
        }
    }
    f.write_str(&text[start..])
}

impl fmt::Display for Quoted<'_> {
    ghost output = { λ it. Some (spec.quoted it.0.now) };

    #[tactic(auto, unfolding(crate::specs::Json::quoted))]
    fn fmt<W: fmt::Write>(&self, f: &mut fmt::Formatter<W>) -> fmt::Result {
        f.write_str("\"")?;
        write_escaped(f, self.0)?;
        f.write_str("\"")
    }
}

impl fmt::Display for QuotedOrNull<'_> {
    ghost output = { λ it. Some (spec.text_or_null (option_map (λ text. text.now) it.0)) };

    #[tactic(auto, unfolding(crate::specs::Json::text_or_null))]
    fn fmt<W: fmt::Write>(&self, f: &mut fmt::Formatter<W>) -> fmt::Result {
        match self.0 {
            Some(text) => {
                let text = Quoted(text);
                write!(f, "{text}")
            }
            None => write!(f, "null"),
        }
    }
}

impl fmt::Display for NumberOrNull {
    ghost output = { λ it. Some (spec.number_or_null it.0) };

    #[tactic(auto, unfolding(crate::specs::Json::number_or_null))]
    fn fmt<W: fmt::Write>(&self, f: &mut fmt::Formatter<W>) -> fmt::Result {
        match self.0 {
            Some(number) => write!(f, "{number}"),
            None => write!(f, "null"),
        }
    }
}

impl fmt::Display for QuotedHex<'_> {
    ghost output = { λ it. Some (spec.hex_string it.0.now) };

    #[tactic(auto, unfolding(crate::specs::Json::hex_string, crate::specs::Json::word))]
    fn fmt<W: fmt::Write>(&self, f: &mut fmt::Formatter<W>) -> fmt::Result {
        let digits = Digits(self.0);
        write!(f, "\"{digits}\"")
    }
}

impl fmt::Display for Word<'_> {
    ghost output = { λ it. Some (spec.word it.0.now) };

    #[tactic(auto, unfolding(crate::specs::Json::word))]
    fn fmt<W: fmt::Write>(&self, f: &mut fmt::Formatter<W>) -> fmt::Result {
        write!(f, "\"{}\"", self.0)
    }
}
