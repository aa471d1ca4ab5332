//! The scalar types as which elements are read.

ghost use Rattle.std.specs.Prelude.{◌≡◌};
ghost use Rattle.pg_dyn.specs.reading.Held.{read_as};

use pg_schema::{Element, Scalar};

/// The scalar as which an element's items are read that are no messages: numbers of an enum are
/// those of int32.
pub(crate) fn scalar_of(element: Element) -> Scalar
    ensures { result ≡ read_as element }
{
    match element {
        Element::Scalar(scalar) => scalar,
        Element::Enum(_) => Scalar::Int32,
        Element::Message(_) => Scalar::Bytes,
    }
}
