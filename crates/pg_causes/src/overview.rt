//! What is answered of two schemas.

ghost use Rattle.std.specs.Prelude.{IfOk};
ghost use Rattle.pg_pairs.specs.graph.GraphView.{seen};
ghost use Rattle.pg_causes.specs.Overview.{IsOverview, IsOverviewBy};

use crate::causing::causes_in;
use crate::names::{names_only, roots_of};
use crate::type_lines::type_lines;
use pg_dyn::ViewName;
use pg_least::laws::compatible_without_causes;
use pg_least::{PairChoice, bounds_from};
use pg_pairs::Priced;
use pg_pairs::laws::{
    breaks_are_told, causes_are_apart, causes_are_told, causes_break_their_way,
    causes_have_their_fields, sees, ways_are_told, ways_cover,
};
use pg_schema::Schema;
use std::alloc::{AllocError, Global};

/// Why a field breaks by itself.
#[derive(Clone, Copy, Debug, PartialEq, Eq)]
pub enum Reason {
    /// The old and the new type are of unlike kinds, or one field is a map and the other isn't.
    Unlike,
    /// The new type reads some item as another, or can't read it.
    Value,
    /// The enums give one number other names. Only the view by names has this reason.
    Name,
    /// The field was a list, and the new one has one item.
    ListToOne,
    /// The maps have keys or values of unlike kinds.
    Map,
    /// The new map reads some key as another.
    MapKey,
    /// The new map reads some value as another, or can't read it.
    MapValue,
    /// Fields meet in one oneof of the new type.
    Oneof,
}

/// A field that breaks by itself, or the fields that come into a oneof of the new type and meet.
#[derive(Debug, PartialEq, Eq, Drop)]
pub struct Cause {
    /// The pair of types, and how a message of the old one breaks.
    pub at: PairChoice,
    /// The number of the field. Where fields meet in a oneof of the new type, the numbers of all
    /// that come into it, in rising order. Each of them meets another one there.
    pub numbers: Vec<u32>,
    /// Why it breaks.
    pub reason: Reason,
    /// The encoding of a shortest message of the pair's old type that breaks for this reason at
    /// these fields, and holds no other field. Of fields that meet it holds the first two of the
    /// least cost; one of them may break by itself in fewer bytes, and is then told as a cause of
    /// its own too.
    pub message: Vec<u8>,
}

/// A message type that both schemas declare.
#[derive(Debug, PartialEq, Eq, Drop)]
pub struct TypeLine {
    /// The full name, without a leading dot.
    pub name: String,
    /// How many bytes a shortest message has that breaks. `None` where no message breaks.
    pub bound: Option<u32>,
}

/// What breaks between two schemas.
#[derive(Debug, PartialEq, Eq, Drop)]
pub struct Overview {
    /// Each cause of breaking in the types that both schemas declare and in all that these lead to.
    pub causes: Vec<Cause>,
    /// The message types that both schemas declare, in the old order of declaration.
    pub types: Vec<TypeLine>,
    /// The full names of the message types that only the old schema declares, in its order.
    pub removed: Vec<String>,
    /// The full names of the message types that only the new schema declares, in its order.
    pub added: Vec<String>,
}

/// What breaks between the two schemas of a graph, under its view.
fn overview_of(alloc: Global, graph: &Priced<'_>) -> Result<Overview, AllocError>
    ensures { IfOk result (IsOverviewBy (seen graph.now) graph.now.old.now graph.now.new.now) }
{
    // What holds of every schema, every view and every table.
    graph.old.parts();
    graph.new.parts();
    sees(graph);
    compatible_without_causes();
    causes_are_told();
    breaks_are_told();
    ways_are_told();
    ways_cover();
    causes_break_their_way();
    causes_are_apart();
    causes_have_their_fields();
    let roots = roots_of(alloc, graph.old, graph.new)?;
    let (bounds, _) = bounds_from(alloc, graph, &roots)?;
    Ok(Overview {
        causes: causes_in(alloc, graph, &bounds)?,
        types: type_lines(alloc, graph.old, &roots, &bounds)?,
        removed: names_only(alloc, graph.old, graph.new)?,
        added: names_only(alloc, graph.new, graph.old)?,
    })
}

/// What breaks between two schemas: for each reason each field that breaks by itself, once, in the
/// message types that both declare and in all pairs of types that these lead to; of each type that
/// both declare whether its messages break, and how short one is that does; and the types that one
/// schema alone declares. Enums are compared by the view of that name. All bounds come from one
/// search.
///
/// Refused only where memory is.
pub fn gate_all(
    alloc: Global,
    old: &Schema,
    new: &Schema,
    view: ViewName,
) -> Result<Overview, AllocError>
    ensures { IfOk result (IsOverview view old.now new.now) }
{
    let graph = Priced::new(&view, old, new);
    overview_of(alloc, &graph)
}
