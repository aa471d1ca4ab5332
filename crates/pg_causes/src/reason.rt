//! Why a field breaks by itself.

ghost use Rattle.std.specs.Prelude.{◌≡◌};
ghost use Rattle.pg_schema.specs.Parts.{shape_of};
ghost use Rattle.pg_schema.specs.Shape.{field_at, fields};
ghost use Rattle.pg_causes.specs.Reasons.{are_of_enums, entry_reason, item_reason, reason_of};

use crate::overview::Reason;
use pg_least::PairChoice;
use pg_pairs::{Case, Pair};
use pg_schema::{Element, Schema};

/// Whether both types have a field of the number, of enums in both.
fn are_of_enums(old: &Schema, new: &Schema, pair: Pair, number: u32) -> bool
    ensures { result ≡ are_of_enums (field_at (fields (shape_of old.now) pair.old) number)
        (field_at (fields (shape_of new.now) pair.new) number) }
{
    let (Some(old_field), Some(new_field)) = (
        old.field(pair.old, number),
        new.field(pair.new, number),
    ) else {
        return false;
    };
    matches!(
        (old_field.element, new_field.element),
        (Element::Enum(_), Element::Enum(_))
    )
}

/// Why an item that is read as another breaks.
fn item_reason(enums: bool) -> Reason
    ensures { result ≡ item_reason enums }
{
    if enums { Reason::Name } else { Reason::Value }
}

/// Why an entry of a map breaks in that part.
fn entry_reason(part: u32) -> Reason
    ensures { result ≡ entry_reason part }
{
    match part {
        1 => Reason::MapKey,
        2 => Reason::MapValue,
        _ => Reason::Map,
    }
}

/// Why a message breaks by that choice, which needs no message inside.
pub(crate) fn reason_of(old: &Schema, new: &Schema, at: &PairChoice) -> Reason
    ensures { result ≡ reason_of (shape_of old.now) (shape_of new.now) at.now.pair at.now.choice }
{
    match at.choice.case {
        Case::Unlike => Reason::Unlike,
        Case::Gap => item_reason(are_of_enums(old, new, at.pair, at.choice.number)),
        Case::Child => Reason::Value,
        Case::List => Reason::ListToOne,
        Case::Map => entry_reason(at.choice.part),
        Case::Oneof => Reason::Oneof,
    }
}
