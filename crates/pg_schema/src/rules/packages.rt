//! The scopes that packages name.

ghost use Rattle.std.specs.Prelude.{◌≡◌, ◌<◌, ◌&&◌, ◌∷◌, ◌++◌, [], ℕ, IfOk, List, OnOk, nat_eq, true};
ghost use Rattle.std.specs.String.{string_bytes};
ghost use Rattle.std.specs.List.{list_all};
ghost use Rattle.pg_schema.specs.rules.Files.{is_file};
ghost use Rattle.pg_schema.specs.rules.Packages.{are_free_of, is_free_of};
ghost use Rattle.pg_schema.specs.inner.LentTexts.{has_lent, IsLentSetOf};
ghost use Rattle.pg_schema.specs.inner.Steps.{is_ascii};

use crate::parts::file::File;
use std::alloc::{AllocError, Global};
use std::collections::BTreeSet;

/// The byte is a dot, and what comes before it is in the set.
fn ends_part(set: &BTreeSet<&str>, front: &str, byte: u8) -> bool
    ensures { result ≡ (nat_eq byte 46 && has_lent set.now front.now) }
{
    byte == b'.' && set.contains(front)
}

/// Appends the character to the string.
fn push_byte(text: &mut String, byte: u8) -> Result<(), AllocError>
    requires { byte < 128 }
    ensures { OnOk result (string_bytes text.new ≡ string_bytes text.old ++ byte ∷ []) }
{
    text.push(char::from(byte))
}

/// No part of the package is in the set.
fn is_free(alloc: Global, set: &BTreeSet<&str>, path: &[u8]) -> Result<bool, AllocError>
    requires { list_all is_ascii path.now ≡ true }
    ensures { IfOk result (λ b. (names : List (List ℕ)) → IsLentSetOf names set.now
        → b ≡ is_free_of names path.now) }
{
    let mut front = String::new(alloc);
    for byte in path {
        if ends_part(set, &front, *byte) {
            return Ok(false);
        }
        push_byte(&mut front, *byte)?;
    }
    Ok(!set.contains(front.as_str()))
}

/// No part of a file's package is in the set.
pub(crate) fn are_free(
    alloc: Global,
    set: &BTreeSet<&str>,
    files: &[File],
) -> Result<bool, AllocError>
    requires { list_all is_file files.now ≡ true }
    ensures { IfOk result (λ b. (names : List (List ℕ)) → IsLentSetOf names set.now
        → b ≡ are_free_of names files.now) }
{
    for file in files {
        if !is_free(alloc, set, file.package.as_bytes())? {
            return Ok(false);
        }
    }
    Ok(true)
}
