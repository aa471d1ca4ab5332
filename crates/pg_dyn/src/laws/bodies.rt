//! Laws of bodies that are read as items, whichever element's writer made them. Each is the
//! contract of a function that does nothing.

ghost use Rattle.pg_dyn.specs.laws.Bodies.{BodiesReadAgain, EntryBodiesRead, PackedBodiesRead, SingleBodiesRead};

/// An item in the range of its element is read again from its own body.
pub fn bodies_read_again()
    ensures { BodiesReadAgain }
{}

/// Bodies joined are read as a packed list of the items that they are read as.
pub fn packed_bodies_read()
    ensures { PackedBodiesRead }
{}

/// Bodies in records of their own are read as an item each.
pub fn single_bodies_read()
    ensures { SingleBodiesRead }
{}

/// An entry's body is read as its two records, and these as its key and value.
pub fn entry_bodies_read()
    ensures { EntryBodiesRead }
{}
