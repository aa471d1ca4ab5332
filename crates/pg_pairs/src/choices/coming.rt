//! The fields that come into one oneof of a new type.

ghost use Rattle.std.specs.Prelude.{◌≡◌, ◌<◌, ◌^◌, [], ◌∷◌, ◌++◌, List, map, IfOk, OnOk};
ghost use Rattle.std.specs.List.{AllByRecursion};
ghost use Rattle.pg_schema.specs.declared.parts.field.Field.{Field};
ghost use Rattle.pg_schema.specs.Parts.{field_shape, shape_of};
ghost use Rattle.pg_schema.specs.Shape.{FieldShape, fields};
ghost use Rattle.pg_pairs.specs.choices.Choices.{affordable, cheapest, joined_choices};
ghost use Rattle.pg_pairs.specs.inner.Coming.{AreGathered, choice_kept, numbers_kept};
ghost use Rattle.pg_pairs.specs.laws.CheapestLaws.{first_of};
ghost use Rattle.pg_pairs.specs.inner.LeastMembers.{member_of, met_choices};
ghost use Rattle.pg_pairs.specs.choices.NewOneof.{new_oneof};

use crate::choices::choice::Choice;
use crate::choices::least_cost::{first_cheapest, first_of};
use crate::choices::least_member::{Member, met_by, offer_with};
use crate::choices::new_oneof::new_oneof;
use pg_schema::{Field, Schema, TypeId};
use std::alloc::{AllocError, Global};
use std::collections::HashMap;

/// The fields that come into one oneof of a new type.
#[derive(Debug, PartialEq, Eq, Drop)]
pub(crate) struct Coming {
    /// The number of the first one.
    pub first: u32,
    /// The numbers of all, the last one first.
    pub numbers: Vec<u32>,
    /// The cheapest choice of two of them that meet, where two meet.
    pub choice: Option<Choice>,
}

/// The cheapest choice of a field with the one that it meets, where it meets one.
fn met_choice(
    alloc: Global,
    field: &Field,
    met: Option<Member>,
) -> Result<Option<Choice>, AllocError>
    requires { field.now.number < 2 ^ 29 }
    ensures { IfOk result (λ found. found
        ≡ cheapest (affordable (met_choices (member_of (field_shape field.now)) met))) }
{
    let mut choices = Vec::new(alloc);
    offer_with(&mut choices, field, met)?;
    Ok(first_cheapest(&choices))
}

/// The field before the others of its new oneof, with its cheapest choice.
fn with_field(
    alloc: Global,
    later: Option<Coming>,
    number: u32,
    choice: Option<Choice>,
) -> Result<Coming, AllocError>
    ensures first { IfOk result (λ coming. coming.first ≡ number) }
    ensures numbers { IfOk result (λ coming.
        coming.numbers.items ≡ numbers_kept later ++ number ∷ []) }
    ensures choice { IfOk result (λ coming. coming.choice ≡ first_of choice (choice_kept later)) }
{
    let mut coming = match later {
        Some(coming) => coming,
        None => Coming {
            first: number,
            numbers: Vec::new(alloc),
            choice: None,
        },
    };
    coming.first = number;
    coming.numbers.push(number)?;
    coming.choice = first_of(choice, coming.choice);
    Ok(coming)
}

/// Adds a field before those that are gathered of its new oneof.
fn gather(
    alloc: Global,
    gathered: &mut HashMap<u32, Coming>,
    oneof: Option<u32>,
    number: u32,
    choice: Option<Choice>,
) -> Result<(), AllocError>
    ensures { OnOk result ((gs fs : List FieldShape) (f : FieldShape)
        → oneof ≡ new_oneof gs f → number ≡ f.number
        → choice ≡ cheapest (affordable (joined_choices gs f fs))
        → AreGathered gs fs gathered.old → AreGathered gs (f ∷ fs) gathered.new) }
{
    let Some(oneof) = oneof else {
        return Ok(());
    };
    let later = gathered.remove(&oneof);
    let coming = with_field(alloc, later, number, choice)?;
    gathered.insert(oneof, coming)?;
    Ok(())
}

/// The fields of each new oneof, gone through from the last field on.
pub(crate) fn gathered(
    alloc: Global,
    new: &Schema,
    type_id: TypeId,
    list: &[Field],
) -> Result<HashMap<u32, Coming>, AllocError>
    requires { AllByRecursion (λ (f : Field). f.number < 2 ^ 29) list.now }
    ensures { IfOk result (AreGathered (fields (shape_of new.now) type_id)
        (map field_shape list.now)) }
{
    let mut kept = HashMap::new(alloc);
    let mut gathered = HashMap::new(alloc);
    let mut at = list.len();
    while at > 0 {
        at -= 1;
        let field = &list[at];
        let oneof = new_oneof(new, type_id, field);
        let met = met_by(&mut kept, field, oneof)?;
        let choice = met_choice(alloc, field, met)?;
        gather(alloc, &mut gathered, oneof, field.number, choice)?;
    }
    Ok(gathered)
}
