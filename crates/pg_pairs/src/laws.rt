//! Laws about the definitions. Each is the contract of a function that does nothing.

ghost use Rattle.pg_pairs.specs.witness.CarriedChoices.{EachChildCostsLess, EachChoiceIsCarried};
ghost use Rattle.pg_pairs.specs.laws.BreaksTold.{BreaksAreTold};
ghost use Rattle.pg_pairs.specs.laws.CauseLaws.{CausesAreOwn, NamesAlone, PricesAreNear};
ghost use Rattle.pg_pairs.specs.laws.SmallTold.{SmallTold};
ghost use Rattle.pg_pairs.specs.laws.ToldLaws.{CausesAreTold};
ghost use Rattle.pg_pairs.specs.laws.OwnWays.{CausesBreakTheirWay};
ghost use Rattle.pg_pairs.specs.laws.WaysCover.{WaysCover};
ghost use Rattle.pg_pairs.specs.laws.WaysTold.{CausesAreApart, CausesHaveTheirFields, WaysAreTold};
ghost use Rattle.pg_pairs.specs.laws.CheapestLaws.{CheapestIsLeast};
ghost use Rattle.pg_pairs.specs.laws.ComesHome.{MessagesComeHome};
ghost use Rattle.pg_pairs.specs.graph.Edges.{LeastCostsByEdges, PairsLeadToPairs, SchemasArePriced};
ghost use Rattle.pg_pairs.specs.laws.ElementGaps.{ElementGaps, UnseenAreNotZero};
ghost use Rattle.pg_pairs.specs.laws.FieldCosts.{ChildrenCost, ListsCost, MapsCost, SingleScalarsCost};
ghost use Rattle.pg_pairs.specs.gaps.TrueGaps.{GapTable};
ghost use Rattle.pg_pairs.specs.laws.HomeExamples.{HomeExamples};
ghost use Rattle.pg_pairs.specs.bounds.Laws.{CoveringBounds, ExactIsLeast, NoneIsCompatible};
ghost use Rattle.pg_pairs.specs.bounds.LeastCosts.{LeastCostsAreExact};
ghost use Rattle.pg_pairs.specs.views.ViewLaws.{IsEnumView, NumbersAreAlike};
ghost use Rattle.pg_pairs.specs.laws.ReadBack.{SeenItemsHaveOneBody};
ghost use Rattle.pg_pairs.specs.graph.Walks.{FromOneRoot};
ghost use Rattle.pg_pairs.specs.laws.SmallPairs.{SmallPairs};
ghost use Rattle.pg_pairs.specs.graph.GraphView.{seen};

use crate::graph::priced::Priced;
use pg_dyn::laws::{kept_by_number, reads_again};

/// Small pairs of types with all their choices.
pub fn small_pairs()
    ensures { SmallPairs }
{}

/// Small types, what a program with the new one relays, and what the old one reads back.
pub fn home_examples()
    ensures { HomeExamples }
{}

/// The table of gaps is true: each value is a shortest item that isn't seen, and where there is
/// none each item is seen.
pub fn gap_table()
    ensures { GapTable }
{}

/// The gap between any two like elements that are no messages, under any view of enum items, is a
/// least item that isn't seen; where there is none each is seen.
pub fn element_gaps()
    ensures { ElementGaps }
{}

/// An item that the reader of a like element doesn't read as the same item isn't zero, under any
/// view; of two enums where the view finds 0 alike.
pub fn unseen_are_not_zero()
    ensures { UnseenAreNotZero }
{}

/// An item that the reader of a like element reads as itself has one body in both, so that what the
/// new type writes of it is read as itself once more. A zigzag number that is read as a bool is the
/// one exception.
pub fn seen_items_have_one_body()
    ensures { SeenItemsHaveOneBody }
{}

/// Between any two schemas the view by numbers compares enums by their numbers.
pub fn numbers_are_alike()
    ensures { NumbersAreAlike }
{}

/// The view of a graph keeps the law of views between the graph's schemas, for enums that aren't
/// there too.
pub fn sees(_graph: &Priced<'_>)
    ensures { IsEnumView (seen _graph.now) }
{}

/// A message that breaks with one scalar or enum in a singular field alone has at least the bytes
/// of the field's cheapest choice.
pub fn single_scalars_cost()
    ensures { SingleScalarsCost }
{}

/// A message that breaks with a list alone, of scalars or of children, has at least the bytes of
/// the field's cheapest choice, under a table that covers the pair.
pub fn lists_cost()
    ensures { ListsCost }
{}

/// A message that breaks with a map alone has at least the bytes of the field's cheapest choice,
/// under a table that covers the pair.
pub fn maps_cost()
    ensures { MapsCost }
{}

/// A message that breaks with a child in a singular field alone has at least the bytes of the
/// field's cheapest choice, under a table that covers the pair.
pub fn children_cost()
    ensures { ChildrenCost }
{}

/// A table that covers a pair bounds from below the messages that break, for each pair in it.
pub fn covering_bounds()
    ensures { CoveringBounds }
{}

/// A pair whose bound is 'none' in such a table is compatible.
pub fn none_is_compatible()
    ensures { NoneIsCompatible }
{}

/// The message of a choice breaks and has the choice's cost, if its child, where it has one, breaks
/// and has the length of its pair's bound.
pub fn each_choice_is_carried()
    ensures { EachChoiceIsCarried }
{}

/// A choice through a child costs more than the child's bound.
pub fn each_child_costs_less()
    ensures { EachChildCostsLess }
{}

/// The cheapest of choices is one of them, of which none costs less; there is none only of no
/// choices.
pub fn cheapest_is_least()
    ensures { CheapestIsLeast }
{}

/// A table whose every bound is the least cost of its pair's choices says the least length of each
/// pair's breaking messages.
pub fn exact_is_least()
    ensures { ExactIsLeast }
{}

/// As its bound, a pair's least cost is exact.
pub fn least_costs_are_exact()
    ensures { LeastCostsAreExact }
{}

/// The pairs that a pair of two schemas' types leads to are pairs of their types.
pub fn pairs_lead_to_pairs()
    ensures { PairsLeadToPairs }
{}

/// A pair's least cost under a table is the least of its least cost without bounds and of what its
/// edges cost at the bounds of their children.
pub fn least_costs_by_edges()
    ensures { LeastCostsByEdges }
{}

/// A cause has no child, and costs what an encoding may have.
pub fn causes_are_own()
    ensures { CausesAreOwn }
{}

/// Small pairs of types with all their causes.
pub fn small_told()
    ensures { SmallTold }
{}

/// The choice of a told cause is a cause, and each cause is told: of one field by itself, of two
/// that meet with all fields of their new oneof, by a message that is no longer.
pub fn causes_are_told()
    ensures { CausesAreTold }
{}

/// A message that breaks, while none inside it breaks by a child pair, holds the field of a told
/// cause, or two of its fields that meet in a oneof, and has at least as many bytes as it costs.
pub fn breaks_are_told()
    ensures { BreaksAreTold }
{}

/// Each way in which a message breaks by itself is told: an item that the new type reads as another,
/// fields of unlike kinds, a list that becomes one item, an entry's key or value, and two fields that
/// meet in a oneof. The cause costs no more than the message has bytes.
pub fn ways_are_told()
    ensures { WaysAreTold }
{}

/// A message that breaks, while none inside it breaks by a child pair, breaks in one of these ways at
/// a field of both types.
pub fn ways_cover()
    ensures { WaysCover }
{}

/// The message of each cause breaks in the way of the cause, at its field, and holds no other field;
/// of fields that meet in a oneof it holds two.
pub fn causes_break_their_way()
    ensures { CausesBreakTheirWay }
{}

/// No two of the causes told of a pair are of the same fields in the same way.
pub fn causes_are_apart()
    ensures { CausesAreApart }
{}

/// A told cause of one field has just its number; one of fields that meet has the numbers of all
/// fields that come into one oneof of the new type.
pub fn causes_have_their_fields()
    ensures { CausesHaveTheirFields }
{}

/// A view bears on gaps between two enums alone, and by numbers there are none of these: so names
/// alone make causes of enums that are renamed.
pub fn names_alone()
    ensures { NamesAlone }
{}

/// Costs stay low: a cause's, and what an edge costs more than its child's bound. Each child has an
/// edge.
pub fn prices_are_near()
    ensures { PricesAreNear }
{}

/// Between any two schemas pairs and edges are few, and costs are lengths that an encoding may
/// have.
pub fn schemas_are_priced()
    ensures { SchemasArePriced }
{}

/// The pairs reached from one root alone are those that it leads to.
pub fn from_one_root()
    ensures { FromOneRoot }
{}

/// Where two types are compatible under a view and the pair returns, each plain message of the old
/// type returns: after a program with the new type has relayed the message, the old type reads back
/// every value that it sent, but for zeros that the new type doesn't write.
pub fn messages_come_home()
    ensures { MessagesComeHome }
{
    // What a type writes it reads again, and what any view keeps is kept by number.
    reads_again();
    kept_by_number();
}
