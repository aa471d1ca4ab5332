//! Laws of least bounds. Each is the contract of a function that does nothing.

ghost use Rattle.pg_least.specs.From.{CompatibleWithoutCauses};
ghost use Rattle.pg_least.specs.Least.{OneSolution};
ghost use Rattle.pg_least.specs.laws.LossLaws.{CompatibleIsSeen, LostMessagesBreak, NamedTypesAreThere};
ghost use Rattle.pg_least.specs.laws.Tables.{TablesByLines};

use pg_pairs::laws::{
    cheapest_is_least, least_costs_by_edges, pairs_lead_to_pairs, prices_are_near,
    schemas_are_priced,
};

/// Over any graph whose edges cost more than the bounds of their children, two tables of the same
/// pairs, with numbers above 0, are the same if each bound is the least of its pair's base and of
/// what its edges cost under its own table.
pub fn one_solution()
    ensures { OneSolution }
{}

/// In the table of the pairs that some roots lead to a pair is compatible, and its bound is 'none',
/// just where neither it nor a pair that it leads to has a cause.
pub fn compatible_without_causes()
    ensures { CompatibleWithoutCauses }
{
    cheapest_is_least();
    least_costs_by_edges();
    pairs_lead_to_pairs();
    prices_are_near();
    schemas_are_priced();
}

/// A message is lost, in the words of the gate's promise, just where it breaks.
pub fn lost_messages_break()
    ensures { LostMessagesBreak }
{}

/// Where no message of a pair breaks, the new reader reads each one that the old writer encodes as
/// it was meant.
pub fn compatible_is_seen()
    ensures { CompatibleIsSeen }
{}

/// A message type that has a name is one of its schema.
pub fn named_types_are_there()
    ensures { NamedTypesAreThere }
{}

/// A table has a bound for each pair in its lines and for no other, and the bound of a line is that
/// of its pair.
pub fn tables_by_lines()
    ensures { TablesByLines }
{}
