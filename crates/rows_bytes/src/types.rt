//! The types that rows are read by.
use kit_schemas::{schema, schemas};
use pg_schema::{Schema, TypeId};
use std::alloc::{AllocError, Global};

/// The first message type of a schema.
pub(crate) const FIRST: TypeId = TypeId { index: 0 };

/// The second message type of a schema.
pub(crate) const SECOND: TypeId = TypeId { index: 1 };

/// The schema of the rows, and the one to compare with.
#[derive(Drop)]
pub(crate) struct Types {
    pub(crate) own: Schema,
    pub(crate) other: Schema,
}

impl Types {
    /// Schemas of a type without fields; none where memory is refused.
    pub(crate) fn empty(alloc: Global) -> Result<Option<Types>, AllocError> {
        let Some((own, other)) = schemas(alloc, "M", "M")? else {
            return Ok(None);
        };
        Ok(Some(Types { own, other }))
    }
}

/// Makes the schema that the line spells, and answers whether it spells one.
pub(crate) fn put(alloc: Global, place: &mut Schema, line: &str) -> Result<String, AllocError> {
    match schema(alloc, line)? {
        Some(made) => {
            *place = made;
            String::from_str(alloc, "taken")
        }
        None => String::from_str(alloc, "refused"),
    }
}
