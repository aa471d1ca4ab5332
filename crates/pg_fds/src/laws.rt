//! Laws about descriptor sets, each the contract of a function that does nothing: those of
//! `pg_set`, and the one that speaks of source files.

ghost use Rattle.pg_fds.specs.round_trip.SourceOrder.{TextsAreReadAgain};

use pg_check::laws::linked_parts_stand;
pub use pg_set::laws::{
    alike_are_sound, bad_references, descriptor_rules, names_apart, read_again_are_readable,
    sets_are_read_again, worked_causes, worked_names, worked_orders, worked_pieces, worked_places,
    worked_reads, worked_sets, worked_stated,
};

/// A schema that linked files declare is one whose set is read as that schema: each file imports no
/// path twice and comes after those that it imports, message types are nested at most 64 deep,
/// and message types, enums and services are numbered as a set states them.
pub fn texts_are_read_again()
    ensures { TextsAreReadAgain }
{
    // So are the parts of linked files that keep to the rules.
    linked_parts_stand();
}
