//! What is written of single items.

ghost use Rattle.std.specs.Prelude.{◌≡◌, ◌^◌};
ghost use Rattle.pg_dyn.specs.word.Coding.{form, form_wire};
ghost use Rattle.pg_wire.specs.Words.{IsBetween, twos_complement};

use pg_dyn::Integer;
use pg_schema::Element;
use pg_wire::WireType;

/// What `element_wire_type` answers.
pub fn element_wire_type(element: Element) -> WireType
    ensures { result ≡ form_wire (form element) }
{
    pg_dyn::element_wire_type(element)
}

/// What `complement_64` answers.
pub fn complement_64(number: i128) -> u64
    requires { IsBetween (2 ^ 63) (2 ^ 64) number }
    ensures { result ≡ twos_complement (2 ^ 64) number }
{
    pg_dyn::complement_64(number)
}

/// What `Integer::get` answers.
pub fn number_of(integer: Integer) -> i128
    ensures { result ≡ integer }
{
    integer.get()
}
