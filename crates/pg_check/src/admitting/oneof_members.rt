//! Oneofs of parts, and their members.

ghost use Rattle.std.specs.Prelude.{◌≡◌, IfOk, List};
ghost use Rattle.pg_schema.specs.declared.parts.field.Field.{Field};
ghost use Rattle.pg_schema.specs.rules.Messages.{have_members};
ghost use Rattle.pg_check.specs.inner.PartFaults.{IsPlaceSet};

use pg_schema::Field;
use std::alloc::{AllocError, Global};
use std::collections::BTreeSet;

/// The indexes of the oneofs that have a member.
fn places_of(alloc: Global, fields: &[Field]) -> Result<BTreeSet<usize>, AllocError>
    ensures { IfOk result (IsPlaceSet fields.now) }
{
    let mut places = BTreeSet::new(alloc);
    for field in fields {
        if let Some(place) = field.oneof {
            places.insert(place as usize)?;
        }
    }
    Ok(places)
}

/// Each of so many oneofs is among the indexes.
fn are_all_among(places: &BTreeSet<usize>, oneofs: usize) -> bool
    ensures { (fields : List Field) → IsPlaceSet fields places.now
        → result ≡ have_members oneofs fields }
{
    for place in 0..oneofs {
        if !places.contains(&place) {
            return false;
        }
    }
    true
}

/// Each of so many oneofs has a member.
pub(crate) fn have_members(
    alloc: Global,
    fields: &[Field],
    oneofs: usize,
) -> Result<bool, AllocError>
    ensures { IfOk result (λ b. b ≡ have_members oneofs fields.now) }
{
    let places = places_of(alloc, fields)?;
    Ok(are_all_among(&places, oneofs))
}
