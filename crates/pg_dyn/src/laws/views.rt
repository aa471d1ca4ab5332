//! What the views by which enums are compared have to do with each other.

ghost use Rattle.pg_dyn.specs.views.ViewNames.{KeptByNumber, NamedRows, NamesAreStricter};

/// Small enums, and which of their numbers are alike by name.
pub fn named_rows()
    ensures { NamedRows }
{}

/// What any view keeps is kept by number.
pub fn kept_by_number()
    ensures { KeptByNumber }
{}

/// Two types that are compatible by name are compatible by number.
pub fn names_are_stricter()
    ensures { NamesAreStricter }
{}
