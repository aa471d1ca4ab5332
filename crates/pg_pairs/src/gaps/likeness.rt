//! What elements have in common.

ghost use Rattle.std.specs.Prelude.{◌≡◌};
ghost use Rattle.pg_pairs.specs.gaps.Likeness.{like};

use crate::gaps::gap_kind::Gap;
use crate::gaps::scalar_gap::gap;
use pg_schema::{Element, Scalar};

/// Whether the scalars' items are of one kind and one wire type.
fn scalars_are_like(old: Scalar, new: Scalar) -> bool
    ensures { result ≡ like (Element.Scalar old) (Element.Scalar new) }
{
    !matches!(gap(old, new), Gap::Unlike)
}

/// Whether the elements' items are of one kind and one wire type. An enum's items are those of
/// int32.
pub(crate) fn are_like(old: Element, new: Element) -> bool
    ensures { result ≡ like old new }
{
    match (old, new) {
        (Element::Scalar(a), Element::Scalar(b)) => scalars_are_like(a, b),
        (Element::Scalar(a), Element::Enum(_)) => scalars_are_like(a, Scalar::Int32),
        (Element::Enum(_), Element::Scalar(b)) => scalars_are_like(Scalar::Int32, b),
        (Element::Enum(_), Element::Enum(_)) => true,
        (Element::Message(_), Element::Message(_)) => true,
        _ => false,
    }
}
