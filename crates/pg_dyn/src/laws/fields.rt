//! Laws of a type's fields, of what is written and read of them, and of the contents that a message
//! holds. Each is the contract of a function that does nothing.

ghost use Rattle.pg_dyn.specs.laws.FieldLaws.{ContentsAreSeen, ContentsHaveNoFault, EqualLeaves, FieldsAreFound, LastItems, OwnContents, PackableWires, PartsKeepTypes, PlainIsKept, RecordsOfFields, RisingEntriesStay, UnknownIsKept};

/// The fields of each type of a sound schema are sound; the field that is found by a number has it;
/// each field of a type is found by its number; the type of a message field is that of its
/// children.
pub fn fields_are_found()
    ensures { FieldsAreFound }
{}

/// The records that are written of a field have its number, and there are none without content; a
/// field takes records of its own number.
pub fn records_of_fields()
    ensures { RecordsOfFields }
{}

/// Of no parts there are no records, and of no records there is no content; whether two contents of
/// a field are the same depends on the field's own parts alone.
pub fn own_contents()
    ensures { OwnContents }
{}

/// A singular field keeps the one item that it may hold, and of none none.
pub fn last_items()
    ensures { LastItems }
{}

/// What can be packed isn't of the wire type LEN.
pub fn packable_wires()
    ensures { PackableWires }
{}

/// Entries of a map whose keys rise are kept as they are.
pub fn rising_entries_stay()
    ensures { RisingEntriesStay }
{}

/// Parts in front of a message, and parts put into one or taken out of it, leave its type.
pub fn parts_keep_types()
    ensures { PartsKeepTypes }
{}

/// The parts of a content have the number of its field, an item of a scalar is no message,
/// and parts mean the same where they are kept as an element's.
pub fn contents_are_seen()
    ensures { ContentsAreSeen }
{}

/// What is kept of a message holds no unknown records just where the message that it means holds
/// none.
pub fn plain_is_kept()
    ensures { PlainIsKept }
{}

/// What is kept has the unknown records of the message that it means; a plain message has none.
pub fn unknown_is_kept()
    ensures { UnknownIsKept }
{}

/// A content of a field has none of the faults for which contents are refused.
pub fn contents_have_no_fault()
    ensures { ContentsHaveNoFault }
{}

/// Items are equal just where the test says so.
pub fn equal_leaves()
    ensures { EqualLeaves }
{}
