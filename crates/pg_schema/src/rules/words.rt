//! Words.

ghost use Rattle.std.specs.Prelude.{◌≡◌};
ghost use Rattle.pg_schema.specs.rules.Words.{is_letter, is_package, is_word, is_word_byte, parts_at_dots};
ghost use Rattle.pg_schema.specs.inner.Steps.{may_stand};
ghost use Rattle.std.specs.List.{list_all};

/// The byte is a letter or `_`.
fn is_letter(byte: u8) -> bool
    ensures { result ≡ is_letter byte }
{
    (b'A' <= byte && byte <= b'Z') || (b'a' <= byte && byte <= b'z') || byte == b'_'
}

/// The byte may be in a word.
fn is_word_byte(byte: u8) -> bool
    ensures { result ≡ is_word_byte byte }
{
    is_letter(byte) || (b'0' <= byte && byte <= b'9')
}

/// Each byte may be in a word.
fn are_word_bytes(bytes: &[u8]) -> bool
    ensures { result ≡ list_all is_word_byte bytes.now }
{
    for byte in bytes {
        if !is_word_byte(*byte) {
            return false;
        }
    }
    true
}

/// The string is a word.
pub(crate) fn is_word(text: &[u8]) -> bool
    ensures { result ≡ is_word text.now }
{
    match text {
        [first, others @ ..] => is_letter(*first) && are_word_bytes(others),
        [] => false,
    }
}

/// The byte may come here, where a word begins or in the midst of one. A dot ends a word.
fn may_stand(begins: bool, byte: u8) -> bool
    ensures { result ≡ may_stand begins byte }
{
    if byte == b'.' {
        !begins
    } else if begins {
        is_letter(byte)
    } else {
        is_word_byte(byte)
    }
}

/// The string is words with one dot between.
fn are_dotted_words(bytes: &[u8]) -> bool
    ensures { result ≡ list_all is_word (parts_at_dots bytes.now) }
{
    let mut begins = true;
    for byte in bytes {
        if !may_stand(begins, *byte) {
            return false;
        }
        begins = *byte == b'.';
    }
    !begins
}

/// The string is a package: empty, or words with one dot between.
pub(crate) fn is_package(bytes: &[u8]) -> bool
    ensures { result ≡ is_package bytes.now }
{
    bytes.is_empty() || are_dotted_words(bytes)
}
