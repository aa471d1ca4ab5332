//! The choices of two fields that come into one oneof of the new type.

ghost use Rattle.std.specs.Prelude.{◌≡◌, ◌+◌, ◌++◌, ◌<◌, ◌^◌, [], ◌∷◌, List, length, OnOk};
ghost use Rattle.std.specs.List.{AllByRecursion};
ghost use Rattle.pg_schema.specs.declared.parts.field.Field.{Field};
ghost use Rattle.pg_schema.specs.Parts.{field_shape};
ghost use Rattle.pg_schema.specs.Shape.{FieldShape};
ghost use Rattle.pg_pairs.specs.choices.Choices.{affordable, choice};
ghost use Rattle.pg_pairs.specs.choices.Costs.{least_content};
ghost use Rattle.pg_pairs.specs.inner.OneofLinks.{AreLinks, JoinsWith};

use crate::choices::case::Case;
use crate::choices::choice::Choice;
use crate::choices::cost::least_content;
use crate::choices::field_choice::offer;
use crate::choices::new_oneof::same_oneof;
use crate::choices::oneof_links::Link;
use pg_schema::Field;
use std::alloc::AllocError;

/// Appends the choice of two fields that meet.
fn offer_meeting(choices: &mut Vec<Choice>, first: &Field, second: &Field) -> Result<(), AllocError>
    requires first { first.now.number < 2 ^ 29 }
    requires second { second.now.number < 2 ^ 29 }
    ensures { OnOk result (choices.new.items ≡ choices.old.items ++ affordable
        (choice first.now.number Case.Oneof second.now.number
        (least_content (field_shape first.now) + least_content (field_shape second.now)) ∷ [])) }
{
    let cost = least_content(first) + least_content(second);
    offer(
        choices,
        first.number,
        Case::Oneof,
        second.number,
        Some(cost),
    )
}

/// Appends the choices of a field with each later one of its new oneof that isn't in its old one.
/// Of those that are in it one at most is looked at before each choice.
pub(crate) fn offer_joined(
    choices: &mut Vec<Choice>,
    list: &[Field],
    links: &[Link],
    at: usize,
) -> Result<(), AllocError>
    requires at { at < length list.now }
    requires numbers { AllByRecursion (λ (f : Field). f.number < 2 ^ 29) list.now }
    requires links { (gs : List FieldShape) × AreLinks gs list.now 0 links.now }
    ensures { OnOk result ((gs : List FieldShape) → AreLinks gs list.now 0 links.now
        → JoinsWith gs list.now at choices.old.items choices.new.items) }
{
    let first = &list[at];
    let mut later = links[at].next;
    while later < list.len() {
        let second = &list[later];
        if same_oneof(first.oneof, second.oneof) {
            later = links[later].other;
        } else {
            offer_meeting(choices, first, second)?;
            later = links[later].next;
        }
    }
    Ok(())
}
