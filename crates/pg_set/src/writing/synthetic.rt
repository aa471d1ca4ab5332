//! Names of synthetic oneofs. Each call is refused only where memory is.

ghost use Rattle.std.specs.Prelude.{◌≡◌, ◌++◌, ◌∷◌, [], ℕ, List, IfOk, OnOk, length, map, true};
ghost use Rattle.std.specs.String.{string_bytes};
ghost use Rattle.pg_set.specs.inner.Lent.{lent};
ghost use Rattle.pg_set.specs.inner.writing.MadeNames.{HasMade, begins_made};
ghost use Rattle.pg_set.specs.writing.Synthetic.{freed, sign, synthetic_name, synthetic_oneofs, with_underscore};

use pg_schema::Field;
use std::alloc::{AllocError, Global};
use std::collections::BTreeSet;

// Whether the name begins as those do that are made here.
fn begins_made(name: &str) -> bool
    ensures { result ≡ begins_made name.now }
{
    match name.as_bytes() {
        [first, ..] => *first == b'_' || *first == b'X',
        [] => false,
    }
}

// A `_` before the name, unless it begins with one.
fn with_underscore(alloc: Global, name: &str) -> Result<String, AllocError>
    ensures made { IfOk result (λ made. string_bytes made ≡ with_underscore name.now) }
    ensures begins { IfOk result (λ made. begins_made (string_bytes made) ≡ true) }
{
    if name.as_bytes().first() == Some(&b'_') {
        return String::from_str(alloc, name);
    }
    let mut made = String::from_str(alloc, "_")?;
    made.push_str(name)?;
    Ok(made)
}

// The name with an `X` in front.
fn with_sign(alloc: Global, name: &str) -> Result<String, AllocError>
    ensures { IfOk result (λ made. string_bytes made ≡ sign ∷ name.now) }
{
    let mut made = String::from_str(alloc, "X")?;
    made.push_str(name)?;
    Ok(made)
}

// The name with as many `X` in front as free it of these names, tried so many times.
fn freed(
    alloc: Global,
    taken: &BTreeSet<String>,
    tries: usize,
    name: String,
) -> Result<String, AllocError>
    requires { begins_made (string_bytes name) ≡ true }
    ensures { IfOk result (λ made. (names : List (List ℕ)) → HasMade names taken.now
        → string_bytes made ≡ freed tries names (string_bytes name)) }
{
    let mut made = name;
    for _ in 0..tries {
        if !taken.contains(made.as_str()) {
            return Ok(made);
        }
        made = with_sign(alloc, &made)?;
    }
    Ok(made)
}

// The set of those of these names that begin as the names that are made, which meet no other.
fn set_of(alloc: Global, names: &[String]) -> Result<BTreeSet<String>, AllocError>
    ensures { IfOk result (HasMade (map string_bytes names.now)) }
{
    let mut set = BTreeSet::new(alloc);
    for name in names {
        if !begins_made(name) {
            continue;
        }
        set.insert(name.clone()?)?;
    }
    Ok(set)
}

// Puts the name of a field's synthetic oneof after the others, and among so many names that are
// taken.
fn push_synthetic(
    alloc: Global,
    taken: &mut BTreeSet<String>,
    tries: usize,
    made: &mut Vec<String>,
    field: &Field,
) -> Result<(), AllocError>
    ensures name { OnOk result ((names : List (List ℕ)) → HasMade names taken.old
        → tries ≡ length names
        → map string_bytes made.new.items ≡ map string_bytes made.old.items
        ++ synthetic_name names (string_bytes field.now.name) ∷ []) }
    ensures taken { OnOk result ((names : List (List ℕ)) → HasMade names taken.old
        → tries ≡ length names
        → HasMade (synthetic_name names (string_bytes field.now.name) ∷ names) taken.new) }
{
    let begun = with_underscore(alloc, &field.name)?;
    let name = freed(alloc, taken, tries, begun)?;
    taken.insert(name.clone()?)?;
    made.push(name)?;
    Ok(())
}

/// The names of the synthetic oneofs of these fields, in order, in a message that has these names.
pub(crate) fn synthetic_oneofs(
    alloc: Global,
    names: &[String],
    fields: &[&Field],
) -> Result<Vec<String>, AllocError>
    ensures { IfOk result (λ made. map string_bytes made.items
        ≡ synthetic_oneofs (map string_bytes names.now) (lent fields.now)) }
{
    let mut taken = set_of(alloc, names)?;
    let mut made = Vec::new(alloc);
    for field in fields {
        if !field.states_optional {
            continue;
        }
        let tries = names.len() + made.len();
        push_synthetic(alloc, &mut taken, tries, &mut made, field)?;
    }
    Ok(made)
}
