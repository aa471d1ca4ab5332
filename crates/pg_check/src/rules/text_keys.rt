//! Numbers that tell names apart: those that are the same have the same number.

ghost use Rattle.std.specs.Prelude.{◌≡◌, if◌then◌else◌};
ghost use Rattle.std.specs.Char.{to_ascii_uppercase};
ghost use Rattle.pg_schema.specs.JsonName.{default_json_name};
ghost use Rattle.pg_check.specs.inner.TextKeys as spec;

/// An odd factor with its bits spread, which few names of a message meet with the same number.
const FACTOR: u64 = 0x9E37_79B9_7F4A_7C15;

/// The key of a name that is longer by a byte.
fn next_key(key: u64, byte: u8) -> u64
    ensures { result ≡ spec.next_key key byte }
{
    key.wrapping_add(u64::from(byte)).wrapping_mul(FACTOR)
}

/// The key of a name.
pub(crate) fn text_key(text: &[u8]) -> u64
    ensures { result ≡ spec.text_key text.now }
{
    let mut key = 0;
    for byte in text {
        key = next_key(key, *byte);
    }
    key
}

/// The byte, in upper case where it comes after a `_`.
fn cased(is_behind: bool, byte: u8) -> u8
    ensures { result ≡ (if is_behind then to_ascii_uppercase byte else byte) }
{
    if is_behind {
        byte.to_ascii_uppercase()
    } else {
        byte
    }
}

/// The key of the JSON name that a field of this name has by default, which isn't made for it.
pub(crate) fn default_json_key(name: &[u8]) -> u64
    ensures { result ≡ spec.text_key (default_json_name name.now) }
{
    let mut key = 0;
    let mut behind = false;
    for byte in name {
        if *byte == b'_' {
            behind = true;
        } else {
            key = next_key(key, cased(behind, *byte));
            behind = false;
        }
    }
    key
}
