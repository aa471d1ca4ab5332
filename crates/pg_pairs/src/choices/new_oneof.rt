//! Fields that come into one oneof of a new type.

ghost use Rattle.std.specs.Prelude.{◌≡◌};
ghost use Rattle.pg_schema.specs.Parts.{field_shape, shape_of};
ghost use Rattle.pg_schema.specs.Shape.{fields};
ghost use Rattle.pg_dyn.specs.reading.Content.{same_oneof};
ghost use Rattle.pg_pairs.specs.choices.NewOneof.{new_oneof};

use pg_schema::{Field, Schema, TypeId};

/// The oneof that the new type's field of that number is in.
pub(crate) fn new_oneof(new: &Schema, type_id: TypeId, field: &Field) -> Option<u32>
    ensures { result ≡ new_oneof (fields (shape_of new.now) type_id) (field_shape field.now) }
{
    new.field(type_id, field.number)?.oneof
}

/// Whether two fields are in one oneof.
pub(crate) fn same_oneof(first: Option<u32>, second: Option<u32>) -> bool
    ensures { result ≡ same_oneof first second }
{
    match (first, second) {
        (Some(first), Some(second)) => first == second,
        _ => false,
    }
}
