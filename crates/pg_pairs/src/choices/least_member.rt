//! The cheapest fields of each new oneof, of which a field before them meets one.

ghost use Rattle.std.specs.Prelude.{◌≡◌, ◌++◌, ◌<◌, ◌^◌, ℕ, List, ◌∷◌, Option, Some, if◌then◌else◌, not, IfOk, OnOk};
ghost use Rattle.pg_schema.specs.Parts.{field_shape};
ghost use Rattle.pg_schema.specs.Shape.{FieldShape};
ghost use Rattle.pg_dyn.specs.reading.Content.{same_oneof};
ghost use Rattle.pg_pairs.specs.choices.Choices.{affordable};
ghost use Rattle.pg_pairs.specs.inner.LeastMembers.{IsOrdered, KeepsLeast, beside, least_member, lesser, member_of, met_choices};
ghost use Rattle.pg_pairs.specs.choices.NewOneof.{new_oneof};

use crate::choices::case::Case;
use crate::choices::choice::Choice;
use crate::choices::cost::least_content;
use crate::choices::field_choice::offer;
use crate::choices::new_oneof::same_oneof;
use pg_schema::Field;
use std::alloc::AllocError;
use std::collections::HashMap;

/// A field that others meet.
#[derive(Clone, Copy, Debug, PartialEq, Eq)]
pub(crate) struct Member {
    /// Its number.
    pub number: u32,
    /// What its least content costs.
    pub cost: u64,
    /// The old oneof that it is in.
    pub oneof: Option<u32>,
}

/// Of fields in one new oneof one of the least cost, and one of those that aren't in its old oneof.
#[derive(Clone, Copy, Debug, PartialEq, Eq)]
pub(crate) struct Two {
    pub first: Member,
    pub other: Option<Member>,
}

/// What a field is met as.
fn member_of(field: &Field) -> Member
    requires { field.now.number < 2 ^ 29 }
    ensures { result ≡ member_of (field_shape field.now) }
{
    Member {
        number: field.number,
        cost: least_content(field),
        oneof: field.oneof,
    }
}

/// Of equal costs the former.
fn lesser(former: Member, later: Option<Member>) -> Member
    ensures { result ≡ lesser former later }
{
    match later {
        Some(later) if later.cost < former.cost => later,
        _ => former,
    }
}

/// The one of the two that isn't in that old oneof.
fn beside(two: Option<Two>, oneof: Option<u32>) -> Option<Member>
    ensures { result ≡ beside two oneof }
{
    let two = two?;
    if same_oneof(oneof, two.first.oneof) {
        return two.other;
    }
    Some(two.first)
}

/// The two with one more field before the others.
fn with_member(two: Option<Two>, member: Member) -> Two
    ensures met { IsOrdered two → (old : Option ℕ)
        → beside (Some result) old ≡ (if not (same_oneof old member.oneof) then Some
        (lesser member (beside two old)) else beside two old) }
    ensures ordered { IsOrdered two → IsOrdered (Some result) }
{
    let Some(later) = two else {
        return Two {
            first: member,
            other: None,
        };
    };
    if member.cost <= later.first.cost {
        return Two {
            first: member,
            other: beside(two, member.oneof),
        };
    }
    if same_oneof(later.first.oneof, member.oneof) {
        return later;
    }
    Two {
        first: later.first,
        other: Some(lesser(member, later.other)),
    }
}

/// Appends the choice of a field with the one that it meets, where it meets one.
pub(crate) fn offer_with(
    choices: &mut Vec<Choice>,
    field: &Field,
    met: Option<Member>,
) -> Result<(), AllocError>
    requires { field.now.number < 2 ^ 29 }
    ensures { OnOk result (choices.new.items
        ≡ choices.old.items ++ affordable (met_choices (member_of (field_shape field.now)) met)) }
{
    let Some(met) = met else {
        return Ok(());
    };
    offer(
        choices,
        field.number,
        Case::Oneof,
        met.number,
        least_content(field).checked_add(met.cost),
    )
}

/// The cheapest later field of that new oneof that the field meets, where it meets one. The field
/// is then one of those that fields before it meet.
pub(crate) fn met_by(
    kept: &mut HashMap<u32, Two>,
    field: &Field,
    oneof: Option<u32>,
) -> Result<Option<Member>, AllocError>
    requires { field.now.number < 2 ^ 29 }
    ensures { IfOk result (λ met. (gs fs : List FieldShape)
        → oneof ≡ new_oneof gs (field_shape field.now) → KeepsLeast gs fs kept.old
        → (met ≡ least_member gs oneof field.now.oneof fs)
        × KeepsLeast gs (field_shape field.now ∷ fs) kept.new) }
{
    let Some(oneof) = oneof else {
        return Ok(None);
    };
    let later = kept.get(&oneof).copied();
    kept.insert(oneof, with_member(later, member_of(field)))?;
    Ok(beside(later, field.oneof))
}
