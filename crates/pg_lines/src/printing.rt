//! Lines as a text.
ghost use Rattle.std.specs.Prelude.{◌≡◌, IfOk, string_bytes};
ghost use Rattle.std.specs.List.{flat_map};
ghost use Rattle.pg_lines.specs.Json.{json_of};
ghost use Rattle.pg_lines.specs.Line.{lines_in, words_of};

use crate::json::Json;
use crate::line::Line;
use std::alloc::{AllocError, Global};
use std::fmt::Write;

/// The lines in words, one after another. Fails only where memory is refused.
pub fn words_of(alloc: Global, lines: &[Line<'_>]) -> Result<String, AllocError>
    ensures { IfOk result (λ text. string_bytes text ≡ flat_map words_of (lines_in lines.now)) }
{
    let mut text = String::new(alloc);
    for line in lines {
        write!(text, "{line}")?;
    }
    Ok(text)
}

/// The lines as JSON, an object each, one after another. Fails only where memory is refused.
pub fn json_of(alloc: Global, lines: &[Line<'_>]) -> Result<String, AllocError>
    ensures { IfOk result (λ text. string_bytes text ≡ flat_map json_of (lines_in lines.now)) }
{
    let mut text = String::new(alloc);
    for line in lines {
        let line = Json(line);
        writeln!(text, "{line}")?;
    }
    Ok(text)
}
