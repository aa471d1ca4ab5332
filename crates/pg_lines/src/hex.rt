//! Bytes in lower case hexadecimal.
ghost use Rattle.std.specs.Prelude.{Some};
ghost use Rattle.pg_lines.specs.Text as spec;

use std::fmt;

/// Bytes, printed as two digits each.
#[derive(Clone, Copy)]
pub(crate) struct Digits<'a>(pub &'a [u8]);

/// Bytes, printed as two digits each, and no bytes as `-`.
#[derive(Clone, Copy)]
pub(crate) struct Hex<'a>(pub &'a [u8]);

impl fmt::Display for Digits<'_> {
    ghost output = { λ it. Some (spec.digits_of it.0.now) };

    fn fmt<W: fmt::Write>(&self, f: &mut fmt::Formatter<W>) -> fmt::Result {
        for byte in self.0 {
            let high = byte / 16;
            let low = byte % 16;
            write!(f, "{high:x}{low:x}")?;
        }
        Ok(())
    }
}

impl fmt::Display for Hex<'_> {
    ghost output = { λ it. Some (spec.hex_of it.0.now) };

    fn fmt<W: fmt::Write>(&self, f: &mut fmt::Formatter<W>) -> fmt::Result {
        if self.0.is_empty() {
            write!(f, "-")
        } else {
            let digits = Digits(self.0);
            write!(f, "{digits}")
        }
    }
}
