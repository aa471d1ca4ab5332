//! Laws about the definitions. Each is the contract of a function that does nothing.

ghost use Rattle.pg_set.specs.refusals.BadReferences.{BadReferences};
ghost use Rattle.pg_set.specs.examples.CauseExamples.{WorkedCauses};
ghost use Rattle.pg_set.specs.descriptor.DescriptorLaw.{DescriptorIsSound};
ghost use Rattle.pg_set.specs.examples.Examples.{WorkedSets};
ghost use Rattle.pg_set.specs.examples.OrderExamples.{WorkedOrders};
ghost use Rattle.pg_set.specs.examples.NameExamples.{WorkedNames};
ghost use Rattle.pg_set.specs.examples.Pieces.{WorkedPieces};
ghost use Rattle.pg_set.specs.examples.PlaceExamples.{WorkedPlaces};
ghost use Rattle.pg_set.specs.examples.ReadExamples.{OneFieldRead};
ghost use Rattle.pg_set.specs.examples.StatedExamples.{WorkedStated};
ghost use Rattle.pg_set.specs.round_trip.SetOrder.{ReadAgainAreReadable, SetsAreReadAgain};
ghost use Rattle.pg_set.specs.stated.Alike.{AlikeAreSound};
ghost use Rattle.pg_set.specs.stated.SetNames.{NamesApart};

/// What is written down of descriptor.proto keeps to the rules of a schema.
pub fn descriptor_rules()
    ensures { DescriptorIsSound }
{}

/// A schema that a descriptor set states is one whose own set is read as that schema, where message
/// types are nested at most 64 deep. So `read_parts` of what `write` writes of it gives its parts
/// again.
pub fn sets_are_read_again()
    ensures { SetsAreReadAgain }
{}

/// The set of each schema that is read again states it.
pub fn read_again_are_readable()
    ensures { ReadAgainAreReadable }
{}

/// Of parts that are shown alike, all keep to the rules of a schema or none does.
pub fn alike_are_sound()
    ensures { AlikeAreSound }
{}

/// The bytes of the sets of two small files.
pub fn worked_sets()
    ensures { WorkedSets }
{}

/// Names, codes, ranges, options and marks of sets, by small examples.
pub fn worked_pieces()
    ensures { WorkedPieces }
{}

/// The bytes of a small file's set state its schema.
pub fn worked_reads()
    ensures { OneFieldRead }
{}

/// Indices by small examples: those of nested message types and their enums, of an enum after them,
/// and of a file with one message type, whose set is read as the same schema.
pub fn worked_places()
    ensures { WorkedPlaces }
{}

/// What two small sets state: one with a map and an `optional` field, and one of two files, of
/// which the first imports the second.
pub fn worked_stated()
    ensures { WorkedStated }
{}

/// The order of files by small examples: each file after its imports, and no order where one is
/// missing, a path or an import occurs twice, or imports form a cycle.
pub fn worked_orders()
    ensures { WorkedOrders }
{}

/// A qualified name is that of just one name in one scope, whatever the names on the way are.
pub fn names_apart()
    ensures { NamesApart }
{}

/// Names by small examples: the parts of a package, what names of nested types and enums mean, and
/// which files may be in one set, also where a name is empty or has a dot.
pub fn worked_names()
    ensures { WorkedNames }
{}

/// Files state no schema, though each is proto3 with types and labels that are taken, where they
/// have a bad reference, and there alone.
pub fn bad_references()
    ensures { BadReferences }
{}

/// Small sets with a bad reference, each with its cause: an import that isn't there, imports that
/// form a cycle, a name without a dot in front, one that is of another kind than the type says, and
/// an entry type that two fields name.
pub fn worked_causes()
    ensures { WorkedCauses }
{}
