//! Reads certificates.

ghost use Rattle.std.specs.Prelude.{◌≡◌, ◌↔◌, ◌++◌, ◌∷◌, ◌<◌, ℕ, List, Option, length, nat_eq, option_map, position, Some, true, false, ◌⊎◌, IfErr, IfOk, IfSome, MatchResult};
ghost use Rattle.std.specs.List.{AllByRecursion};
ghost use Rattle.std.specs.Option.{option_copied};
ghost use Rattle.hex.specs.declared.error.FromHexError.TheVariants.{OutOfMemory};
ghost use Rattle.pg_schema.specs.declared.parts.field.TypeId.{TypeId};
ghost use Rattle.pg_dyn.specs.declared.view_name.ViewName.{ViewName};
ghost use Rattle.pg_dyn.specs.declared.view_name.ViewName.TheVariants as views;
ghost use Rattle.pg_pairs.specs.declared.choices.choice.Pair.{Pair};
ghost use Rattle.pg_cert.specs.declared.bounds.PairBound.{PairBound};
ghost use Rattle.pg_cert.specs.declared.error.CertError.TheVariants as errors;
ghost use Rattle.pg_cert.specs.declared.heading.Heading.{Heading};
ghost use Rattle.pg_cert.specs.declared.heading.Heading.TheVariants as headings;
ghost use Rattle.pg_cert.specs.Certificate.{are_bounds, is_bound, Claim};
ghost use Rattle.pg_cert.specs.Witness.{AreBytes, is_witness};
ghost use Rattle.pg_cert.specs.inner.Lines.{last_text};
ghost use Rattle.pg_cert.specs.inner.Reading.{IsBlank, IsRest, after_heading, front, lacks};
ghost use Rattle.pg_cert.specs.Text as spec;

use crate::bounds::{Bounds, BoundsError, PairBound};
use crate::certificate::Certificate;
use crate::error::CertError;
use crate::guesses::Guesses;
use crate::heading::Heading;
use crate::writing::text_under;
use hex::FromHexError;
use pg_dyn::ViewName;
use pg_pairs::Pair;
use pg_schema::{Schema, TypeId};
use std::alloc::Global;

/// The offset of the first such byte.
fn place_of(text: &[u8], byte: u8) -> Option<usize>
    ensures place { result ≡ position (λ b. nat_eq b byte) text.now }
    ensures inside { IfSome result (λ at. at < length text.now) }
{
    text.iter().position(|other| *other == byte)
}

/// The word before the first such byte, and what follows this byte.
fn cut(text: &[u8], byte: u8) -> Option<(&[u8], &[u8])>
    ensures shorter { IfSome result (λ parts. length parts.1.now < length text.now) }
    ensures found { (word rest : List ℕ) → lacks byte word ≡ true → text.now ≡ word ++ byte ∷ rest
        → option_map {U = List ℕ × List ℕ} (λ parts. (parts.0.now, parts.1.now)) result
        ≡ Some (word, rest) }
{
    match place_of(text, byte) {
        Some(at) => Some((&text[..at], &text[at + 1..])),
        None => None,
    }
}

/// Whether the type of that index has that name.
fn is_named(schema: &Schema, id: TypeId, word: &[u8]) -> bool
    ensures there { result ≡ true → id.index < length schema.now.types.items }
    ensures named { result ≡ true → word.now ≡ spec.names_of schema.now id }
{
    match schema.message_type(id) {
        Some(message_type) => message_type.name.as_bytes() == word,
        None => false,
    }
}

/// The type of that name, which is looked for at the guessed index first.
fn named(schema: &Schema, word: &[u8], guess: TypeId) -> Option<TypeId>
    ensures there { IfSome result (λ id. id.index < length schema.now.types.items) }
    ensures found { (id : TypeId) → id.index < length schema.now.types.items
        → word.now ≡ spec.names_of schema.now id → result ≡ Some id }
{
    // What holds of every schema: no two types have one name.
    schema.parts();
    if is_named(schema, guess, word) {
        return Some(guess);
    }
    match str::from_utf8(word) {
        Ok(name) => schema.message(name),
        Err(_) => None,
    }
}

/// The type whose name comes before the first such byte, and what follows this byte.
fn read_name<'a>(
    schema: &Schema,
    text: &'a [u8],
    blank: u8,
    guess: TypeId,
) -> Option<(TypeId, &'a [u8])>
    requires { IsBlank blank }
    ensures shorter { IfSome result (λ parts. length parts.1.now < length text.now) }
    ensures there { IfSome result (λ parts. parts.0.index < length schema.now.types.items) }
    ensures found { (id : TypeId) (rest : List ℕ) → id.index < length schema.now.types.items
        → text.now ≡ spec.names_of schema.now id ++ blank ∷ rest
        → option_map {U = TypeId × List ℕ} (λ parts. (parts.0, parts.1.now)) result
        ≡ Some (id, rest) }
{
    // What holds of every schema.
    schema.parts();
    let (word, rest) = cut(text, blank)?;
    let id = named(schema, word, guess)?;
    Some((id, rest))
}

/// The types of a pair, whose names come first, with a space between them and that byte after them;
/// and what follows this byte. The new type mostly has the old one's index.
fn read_pair<'a>(
    old: &Schema,
    new: &Schema,
    text: &'a [u8],
    blank: u8,
    guess: TypeId,
) -> Option<(Pair, &'a [u8])>
    requires { IsBlank blank }
    ensures shorter { IfSome result (λ parts. length parts.1.now < length text.now) }
    ensures there { IfSome result (λ parts. spec.IsPairOf old.now new.now parts.0) }
    ensures found { (pair : Pair) (rest : List ℕ) → spec.IsPairOf old.now new.now pair
        → text.now ≡ spec.names_of old.now pair.old ++ 32
        ∷ (spec.names_of new.now pair.new ++ blank ∷ rest)
        → option_map {U = Pair × List ℕ} (λ parts. (parts.0, parts.1.now)) result
        ≡ Some (pair, rest) }
{
    let (first, later) = read_name(old, text, b' ', guess)?;
    let (second, rest) = read_name(new, later, blank, first)?;
    let pair = Pair {
        old: first,
        new: second,
    };
    Some((pair, rest))
}

/// The bound that a word says.
fn bound_of(word: &[u8]) -> Option<Option<u32>>
    ensures { (bound : Option ℕ) → is_bound bound ≡ true → word.now ≡ spec.bound_word bound
        → result ≡ Some bound }
{
    if word == b"none".as_slice() {
        return Some(None);
    }
    match str::from_utf8(word) {
        Ok(text) => match text.parse::<u32>() {
            Ok(bytes) => Some(Some(bytes)),
            Err(_) => None,
        },
        Err(_) => None,
    }
}

/// The bound that comes first, up to the end of its line, and what follows this line.
fn read_bound(text: &[u8]) -> Option<(Option<u32>, &[u8])>
    ensures shorter { IfSome result (λ parts. length parts.1.now < length text.now) }
    ensures found { (bound : Option ℕ) (rest : List ℕ) → is_bound bound ≡ true
        → text.now ≡ spec.bound_word bound ++ 10 ∷ rest
        → option_map {U = Option ℕ × List ℕ} (λ parts. (parts.0, parts.1.now)) result
        ≡ Some (bound, rest) }
{
    let (word, rest) = cut(text, b'\n')?;
    let bound = bound_of(word)?;
    Some((bound, rest))
}

/// What follows that front, where the string begins with it.
fn after<'a>(text: &'a [u8], front: &[u8]) -> Option<&'a [u8]>
    ensures only { IfSome result (λ rest. text.now ≡ front.now ++ rest.now) }
    ensures found { (rest : List ℕ) → text.now ≡ front.now ++ rest
        → option_copied result ≡ Some rest }
{
    text.strip_prefix(front)
}

/// The pair and its bound in a line whose first word is read already, and what follows the line.
fn read_line<'a>(
    old: &Schema,
    new: &Schema,
    text: &'a [u8],
    guess: TypeId,
) -> Option<(PairBound, &'a [u8])>
    ensures shorter { IfSome result (λ parts. length parts.1.now < length text.now) }
    ensures there { IfSome result (λ parts. spec.IsPairOf old.now new.now parts.0.pair) }
    ensures found { (line : PairBound) (rest : List ℕ) → spec.IsPairOf old.now new.now line.pair
        → is_bound line.bound ≡ true
        → text.now ≡ spec.names_of old.now line.pair.old ++ 32
        ∷ (spec.names_of new.now line.pair.new ++ 32 ∷ (spec.bound_word line.bound ++ 10 ∷ rest))
        → option_map {U = PairBound × List ℕ} (λ parts. (parts.0, parts.1.now)) result
        ≡ Some (line, rest) }
{
    let (pair, later) = read_pair(old, new, text, b' ', guess)?;
    let (bound, rest) = read_bound(later)?;
    Some((PairBound { pair, bound }, rest))
}

/// The pairs and their bounds in the lines that come first, and what follows these.
fn read_lines<'a>(
    alloc: Global,
    old: &Schema,
    new: &Schema,
    text: &'a [u8],
) -> Result<(Vec<PairBound>, &'a [u8]), CertError>
    ensures there { IfOk result (λ parts. AllByRecursion
        (λ (b : PairBound). spec.IsPairOf old.now new.now b.pair) parts.0.items) }
    ensures found { (bounds : List PairBound) (later : List ℕ)
        → IsRest old.now new.now text.now bounds later →
        MatchResult result (λ parts. (parts.0.items ≡ bounds) × (parts.1.now ≡ later))
        (λ e. e ≡ errors.Memory) }
{
    let mut guesses = Guesses::new(alloc, old)?;
    let mut bounds = Vec::new(alloc);
    let mut left = text;
    while let Some(words) = after(left, b"pair ") {
        let guess = guesses.next(old, &bounds);
        let Some((line, later)) = read_line(old, new, words, guess) else {
            return Err(CertError::BadText);
        };
        guesses.see(line.pair.old);
        bounds.push(line)?;
        left = later;
    }
    Ok((bounds, left))
}

/// Why hexadecimal digits aren't read.
fn hex_fault(error: FromHexError) -> CertError
    ensures { (result ≡ errors.Memory) ↔ (error ≡ OutOfMemory) }
{
    match error {
        FromHexError::OutOfMemory => CertError::Memory,
        _ => CertError::BadText,
    }
}

/// The witness that a word says.
fn witness_of(alloc: Global, word: &[u8]) -> Result<Option<Vec<u8>>, CertError>
    ensures { (witness : Option (List ℕ)) → AreBytes witness → word.now ≡ spec.witness_word witness
        →
        MatchResult result (λ found. option_map (λ bytes. bytes.items) found ≡ witness)
        (λ e. e ≡ errors.Memory) }
{
    if word == b"none".as_slice() {
        return Ok(None);
    }
    match hex::decode(alloc, word) {
        Ok(bytes) => Ok(Some(bytes)),
        Err(error) => Err(hex_fault(error)),
    }
}

/// The witness in the last lines.
fn read_last(alloc: Global, text: &[u8]) -> Result<Option<Vec<u8>>, CertError>
    ensures { (witness : Option (List ℕ)) → AreBytes witness → text.now ≡ last_text witness →
        MatchResult result (λ found. option_map (λ bytes. bytes.items) found ≡ witness)
        (λ e. e ≡ errors.Memory) }
{
    let Some(words) = after(text, b"witness ") else {
        return Err(CertError::BadText);
    };
    match cut(words, b'\n') {
        Some((word, _)) => witness_of(alloc, word),
        None => Err(CertError::BadText),
    }
}

/// The table of these bounds.
fn table_of(alloc: Global, bounds: Vec<PairBound>) -> Result<Bounds, CertError>
    ensures table { IfOk result (λ table. table ≡ bounds.items) }
    ensures refused { IfErr result (λ e. e ≡ errors.Memory ⊎ (are_bounds bounds.items ≡ false)) }
{
    match Bounds::new(alloc, bounds) {
        Ok(table) => Ok(table),
        Err((BoundsError::Memory, _)) => Err(CertError::Memory),
        Err((BoundsError::Invariant, _)) => Err(CertError::BadText),
    }
}

/// The certificate of these parts.
fn certificate_of(
    view: ViewName,
    root: Pair,
    bounds: Bounds,
    witness: Option<Vec<u8>>,
) -> Result<Certificate, CertError>
    ensures claim { IfOk result (λ c. c
        ≡ record {
          view = view;
          root = root;
          bounds = bounds;
          witness = option_map (λ bytes. bytes.items) witness;
        }) }
    ensures empty { IfErr result (λ _. is_witness (option_map (λ bytes. bytes.items) witness)
        ≡ false) }
{
    match Certificate::new(view, root, bounds, witness) {
        Ok(certificate) => Ok(certificate),
        Err(_) => Err(CertError::BadText),
    }
}

/// The heading of version 2 that names the view by names, and what follows it.
fn read_names(text: &[u8]) -> Option<(Heading, &[u8])>
    ensures { (rest : List ℕ) → text.now ≡ front (headings.Second views.Names) ++ rest
        → option_map {U = Heading × List ℕ} (λ parts. (parts.0, parts.1.now)) result
        ≡ Some (headings.Second views.Names, rest) }
{
    match after(text, b"protogate-certificate 2\nview names\nroot ") {
        Some(rest) => Some((Heading::Second(ViewName::Names), rest)),
        None => None,
    }
}

/// The heading of version 2 that comes first, and what follows it.
fn read_second(text: &[u8]) -> Option<(Heading, &[u8])>
    ensures { (view : ViewName) (rest : List ℕ) → text.now ≡ front (headings.Second view) ++ rest
        → option_map {U = Heading × List ℕ} (λ parts. (parts.0, parts.1.now)) result
        ≡ Some (headings.Second view, rest) }
{
    match after(text, b"protogate-certificate 2\nview numbers\nroot ") {
        Some(rest) => Some((Heading::Second(ViewName::Numbers), rest)),
        None => read_names(text),
    }
}

/// The heading that comes first, and what follows it and the first word of the next line.
fn read_heading(text: &[u8]) -> Option<(Heading, &[u8])>
    ensures { (heading : Heading) (rest : List ℕ) → text.now ≡ front heading ++ rest
        → option_map {U = Heading × List ℕ} (λ parts. (parts.0, parts.1.now)) result
        ≡ Some (heading, rest) }
{
    match after(text, b"protogate-certificate 1\nroot ") {
        Some(rest) => Some((Heading::First, rest)),
        None => read_second(text),
    }
}

/// The certificate of the view whose lines follow the heading, if there is one.
fn read_after(
    alloc: Global,
    old: &Schema,
    new: &Schema,
    view: ViewName,
    text: &[u8],
) -> Result<Certificate, CertError>
    ensures of_schemas { IfOk result (λ c. spec.IsClaimOf old.now new.now c) }
    ensures viewed { IfOk result (λ c. c.view ≡ view) }
    ensures found { (claim : Claim) → spec.HasTexts old.now new.now claim → claim.view ≡ view
        → text.now ≡ after_heading (spec.names_of old.now) (spec.names_of new.now) claim
        → MatchResult result (λ c. c ≡ claim) (λ e. e ≡ errors.Memory) }
{
    let guess = TypeId { index: 0 };
    let Some((root, lines)) = read_pair(old, new, text, b'\n', guess) else {
        return Err(CertError::BadText);
    };
    let (bounds, last) = read_lines(alloc, old, new, lines)?;
    let witness = read_last(alloc, last)?;
    let bounds = table_of(alloc, bounds)?;
    certificate_of(view, root, bounds, witness)
}

/// The heading and the certificate that the bytes spell, if they spell one.
fn read(
    alloc: Global,
    old: &Schema,
    new: &Schema,
    text: &[u8],
) -> Result<(Heading, Certificate), CertError>
    ensures of_schemas { IfOk result (λ found. spec.IsClaimOf old.now new.now found.1) }
    ensures viewed { IfOk result (λ found. spec.view_of found.0 ≡ found.1.view) }
    ensures found { (claim : Claim) (is : spec.Certifies old.now new.now text.now claim)
        → MatchResult result (λ found. (found.0 ≡ is.heading) × (found.1 ≡ claim))
        (λ e. e ≡ errors.Memory) }
{
    let Some((heading, words)) = read_heading(text) else {
        return Err(CertError::BadText);
    };
    let view = heading.view();
    let certificate = read_after(alloc, old, new, view, words)?;
    Ok((heading, certificate))
}

/// Why bytes are refused: memory was, or they spell no certificate.
fn text_fault(error: CertError) -> CertError
    ensures { ((error ≡ errors.Memory) × (result ≡ errors.Memory))
        ⊎ ((error ≡ errors.Memory → ⊥) × (result ≡ errors.BadText)) }
{
    match error {
        CertError::Memory => CertError::Memory,
        _ => CertError::BadText,
    }
}

/// The certificate that the bytes spell, for two schemas, in version 1 or 2
/// (docs/CERTIFICATES.md). Version 1 means the view by numbers. There is one at most, and one
/// spelling for each certificate in each version: what is read is written again, in the same
/// version, and must be the same bytes.
///
/// Refused with `BadText` only where the bytes spell no certificate of these schemas, and with
/// `Memory` where memory was refused.
pub fn from_text(
    alloc: Global,
    old: &Schema,
    new: &Schema,
    bytes: &[u8],
) -> Result<Certificate, CertError>
    ensures certifies { IfOk result (λ c. spec.Certifies old.now new.now bytes.now c) }
    ensures alone { IfOk result (λ c. (claim : Claim)
        → spec.Certifies old.now new.now bytes.now claim → c ≡ claim) }
    ensures refused { IfErr result (λ e. (e ≡ errors.Memory)
        ⊎ ((e ≡ errors.BadText) × ((claim : Claim)
        → ¬ (spec.Certifies old.now new.now bytes.now claim)))) }
{
    let (heading, certificate) = match read(alloc, old, new, bytes) {
        Ok(found) => found,
        Err(error) => return Err(text_fault(error)),
    };
    let again = text_under(alloc, old, new, heading, &certificate)?;
    if again.as_bytes() == bytes {
        Ok(certificate)
    } else {
        Err(CertError::BadText)
    }
}
