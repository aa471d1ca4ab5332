//! A field of an old type beside a new type's.

use pg_schema::Field;

/// A field of the old type and the new type's field of its number.
#[derive(Drop)]
pub(crate) struct Beside<'a> {
    pub old: &'a Field,
    pub new: &'a Field,
}
