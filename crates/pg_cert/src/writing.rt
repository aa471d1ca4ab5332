//! Writes certificates.

ghost use Rattle.std.specs.Prelude.{◌≡◌, ◌++◌, ◌∷◌, [], OnOk, IfOk, codes, string_bytes};
ghost use Rattle.std.specs.Option.{option_copied};
ghost use Rattle.pg_cert.specs.inner.Lines.{heading_text, last_text, lines_text, pair_words};
ghost use Rattle.pg_cert.specs.Text as spec;

use crate::bounds::{Bounds, PairBound};
use crate::certificate::Certificate;
use crate::heading::Heading;
use itoa::Buffer;
use pg_dyn::ViewName;
use pg_pairs::Pair;
use pg_schema::{Schema, TypeId};
use std::alloc::{AllocError, Global};

/// The lines of the heading, and the first word of the next.
fn start_text(alloc: Global, heading: Heading) -> Result<String, AllocError>
    ensures { IfOk result (λ text. string_bytes text
        ≡ heading_text heading ++ codes "root") }
{
    match heading {
        Heading::First => String::from_str(alloc, "protogate-certificate 1\nroot"),
        Heading::Second(ViewName::Numbers) => {
            String::from_str(alloc, "protogate-certificate 2\nview numbers\nroot")
        }
        Heading::Second(ViewName::Names) => {
            String::from_str(alloc, "protogate-certificate 2\nview names\nroot")
        }
    }
}

/// A space and the full name of the type.
fn push_name(text: &mut String, schema: &Schema, id: TypeId) -> Result<(), AllocError>
    ensures { OnOk result (string_bytes text.new
        ≡ string_bytes text.old ++ spec.spaced_word (spec.names_of schema.now id)) }
{
    text.push_str(" ")?;
    match schema.message_type(id) {
        Some(message_type) => text.push_str(message_type.name.as_str()),
        None => Ok(()),
    }
}

/// The names of both types, each after a space.
fn push_pair(text: &mut String, old: &Schema, new: &Schema, pair: Pair) -> Result<(), AllocError>
    ensures { OnOk result (string_bytes text.new
        ≡ string_bytes text.old ++ pair_words (spec.names_of old.now)
        (spec.names_of new.now) pair) }
{
    push_name(text, old, pair.old)?;
    push_name(text, new, pair.new)
}

/// A bound after a space, and the line's end.
fn push_bound(text: &mut String, bound: Option<u32>) -> Result<(), AllocError>
    ensures { OnOk result (string_bytes text.new
        ≡ string_bytes text.old ++ spec.spaced (spec.bound_word bound ∷ [])) }
{
    match bound {
        Some(bytes) => {
            let mut buffer = Buffer::new();
            text.push_str(" ")?;
            text.push_str(buffer.format(bytes))?;
            text.push_str("\n")
        }
        None => text.push_str(" none\n"),
    }
}

/// The line of a pair and its bound.
fn push_line(
    text: &mut String,
    old: &Schema,
    new: &Schema,
    line: PairBound,
) -> Result<(), AllocError>
    ensures { OnOk result (string_bytes text.new
        ≡ string_bytes text.old ++ spec.line_of
        (spec.bound_words (spec.names_of old.now) (spec.names_of new.now) line)) }
{
    text.push_str("pair")?;
    push_pair(text, old, new, line.pair)?;
    push_bound(text, line.bound)
}

/// The lines of all pairs.
fn push_lines(
    text: &mut String,
    old: &Schema,
    new: &Schema,
    bounds: &Bounds,
) -> Result<(), AllocError>
    ensures { OnOk result (string_bytes text.new
        ≡ string_bytes text.old ++ lines_text (spec.names_of old.now)
        (spec.names_of new.now) bounds.now) }
{
    for at in 0..bounds.len() {
        if let Some(line) = bounds.get(at) {
            push_line(text, old, new, line)?;
        }
    }
    Ok(())
}

/// The line of the witness, and the last one.
fn push_last(alloc: Global, text: &mut String, witness: Option<&[u8]>) -> Result<(), AllocError>
    ensures { OnOk result (string_bytes text.new
        ≡ string_bytes text.old ++ last_text (option_copied witness.entry)) }
{
    text.push_str("witness ")?;
    match witness {
        Some(bytes) => text.push_str(hex::encode(alloc, bytes)?.as_str())?,
        None => text.push_str("none")?,
    }
    text.push_str("\nend\n")
}

/// The certificate as it is written under a heading of its view.
pub(crate) fn text_under(
    alloc: Global,
    old: &Schema,
    new: &Schema,
    heading: Heading,
    certificate: &Certificate,
) -> Result<String, AllocError>
    requires claim { spec.IsClaimOf old.now new.now certificate.now }
    requires viewed { spec.view_of heading ≡ certificate.now.view }
    ensures certifies { IfOk result (λ text. spec.Certifies old.now new.now
        (string_bytes text) certificate.now) }
    ensures spelled { IfOk result (λ text. string_bytes text ≡ spec.text_of heading
        (spec.names_of old.now) (spec.names_of new.now) certificate.now) }
{
    let mut text = start_text(alloc, heading)?;
    push_pair(&mut text, old, new, certificate.root())?;
    text.push_str("\n")?;
    push_lines(&mut text, old, new, certificate.bounds())?;
    push_last(alloc, &mut text, certificate.witness())?;
    Ok(text)
}

/// The certificate as it is written in version 2, which names its view. Its pairs are pairs of the
/// two schemas' types (docs/CERTIFICATES.md).
///
/// Refused only where memory is.
pub fn to_text(
    alloc: Global,
    old: &Schema,
    new: &Schema,
    certificate: &Certificate,
) -> Result<String, AllocError>
    requires { spec.IsClaimOf old.now new.now certificate.now }
    ensures certifies { IfOk result (λ text. spec.Certifies old.now new.now
        (string_bytes text) certificate.now) }
    ensures second { IfOk result (λ text. spec.IsSecondText old.now new.now
        (string_bytes text) certificate.now) }
{
    text_under(
        alloc,
        old,
        new,
        Heading::Second(certificate.view()),
        certificate,
    )
}
