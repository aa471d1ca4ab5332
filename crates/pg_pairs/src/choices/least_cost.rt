//! The cheapest choice of a pair.

ghost use Rattle.std.specs.Prelude.{◌≡◌, ◌<◌, ◌^◌, map, IfOk};
ghost use Rattle.std.specs.List.{AllByRecursion};
ghost use Rattle.pg_schema.specs.declared.parts.field.Field.{Field};
ghost use Rattle.pg_schema.specs.Parts.{field_shape, shape_of};
ghost use Rattle.pg_schema.specs.Shape.{fields};
ghost use Rattle.pg_pairs.specs.choices.Choices.{cheapest, affordable, all_choices, choices};
ghost use Rattle.pg_pairs.specs.laws.CheapestLaws.{first_of};
ghost use Rattle.pg_pairs.specs.graph.GraphView.{seen};

use crate::choices::choice::{Choice, Pair};
use crate::choices::field_choice::offer_beside;
use crate::choices::least_member::{met_by, offer_with};
use crate::choices::new_oneof::new_oneof;
use crate::graph::priced::Priced;
use crate::graph::table::Table;
use pg_schema::{Field, TypeId};
use std::alloc::{AllocError, Global};
use std::collections::HashMap;

/// The first of those choices that cost the least.
pub(crate) fn first_cheapest(choices: &[Choice]) -> Option<Choice>
    ensures { result ≡ cheapest choices.now }
{
    let mut found: Option<Choice> = None;
    for choice in choices {
        match found {
            Some(least) if least.cost <= choice.cost => {}
            _ => found = Some(*choice),
        }
    }
    found
}

/// A former choice, or a later one that costs less.
pub(crate) fn first_of(former: Option<Choice>, later: Option<Choice>) -> Option<Choice>
    ensures { result ≡ first_of former later }
{
    let Some(kept) = former else {
        return later;
    };
    match later {
        Some(later) if later.cost < kept.cost => Some(later),
        _ => former,
    }
}

/// The cheapest choice of those fields. They are gone through from the last on: of all choices of a
/// field with later ones of its new oneof the cheapest is enough.
fn cheapest_of<T: Table>(
    alloc: Global,
    graph: &Priced<'_>,
    table: &T,
    type_id: TypeId,
    list: &[Field],
) -> Result<Option<Choice>, AllocError>
    requires { AllByRecursion (λ (f : Field). f.number < 2 ^ 29) list.now }
    ensures { IfOk result (λ found. found
        ≡ cheapest (affordable (all_choices
        (seen graph.now)
        (T.bounds table.now) (fields (shape_of graph.now.new.now) type_id)
        (map field_shape list.now)))) }
{
    let mut kept = HashMap::new(alloc);
    let mut choices = Vec::new(alloc);
    let mut found = None;
    let mut at = list.len();
    while at > 0 {
        at -= 1;
        let field = &list[at];
        choices.clear();
        offer_beside(graph, table, &mut choices, type_id, field)?;
        let met = met_by(&mut kept, field, new_oneof(graph.new, type_id, field))?;
        offer_with(&mut choices, field, met)?;
        found = first_of(first_cheapest(&choices), found);
    }
    Ok(found)
}

/// The choice of the pair with the least cost, of several the first by number, case and part;
/// `None` where it has no choice. Children cost what the table says of them.
///
/// Refused only where memory is.
pub fn cheapest<T: Table>(
    alloc: Global,
    graph: &Priced<'_>,
    pair: Pair,
    table: &T,
) -> Result<Option<Choice>, AllocError>
    ensures { IfOk result (λ found. found
        ≡ cheapest (choices (seen graph.now) (T.bounds table.now)
        (shape_of graph.now.old.now) (shape_of graph.now.new.now) pair)) }
{
    // What holds of every schema.
    graph.old.parts();
    match graph.old.message_type(pair.old) {
        Some(message_type) => cheapest_of(alloc, graph, table, pair.new, &message_type.fields),
        None => Ok(None),
    }
}
