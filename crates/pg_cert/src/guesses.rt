//! Which old type each line of a certificate is likely to name.

use crate::bounds::PairBound;
use pg_schema::{Element, Schema, TypeId};
use std::alloc::{AllocError, Global};

/// Guesses the old types of a certificate's lines. Lines mostly come as a search finds their
/// pairs: after the root come the types of its fields, and then those of each line's fields in
/// turn, each where it was first seen. No clause speaks of guesses: they only say which name is
/// looked at first.
#[derive(Drop)]
pub(crate) struct Guesses {
    /// Whether each type was guessed or named.
    seen: Vec<bool>,
    /// How many fields of each type were gone through. Lines that name one old type share its
    /// count, so no field is gone through twice.
    walked: Vec<usize>,
    /// The line whose fields are gone through.
    line: usize,
}

/// Marks the type as seen, and says whether it wasn't before.
fn mark(seen: &mut [bool], id: TypeId) -> bool {
    match seen.get_mut(id.index as usize) {
        Some(seen) if !*seen => {
            *seen = true;
            true
        }
        _ => false,
    }
}

impl Guesses {
    /// Nothing is seen yet.
    pub(crate) fn new(alloc: Global, schema: &Schema) -> Result<Guesses, AllocError> {
        let types = schema.parts().types.len();
        Ok(Guesses {
            seen: vec![in alloc; false; types]?,
            walked: vec![in alloc; 0; types]?,
            line: 0,
        })
    }

    /// Notes that the type was seen.
    pub(crate) fn see(&mut self, id: TypeId) {
        mark(&mut self.seen, id);
    }

    /// The first type that wasn't seen, of those fields of the type that weren't gone through.
    fn first_unseen(&mut self, schema: &Schema, id: TypeId) -> Option<TypeId> {
        let fields = &schema.message_type(id)?.fields;
        let walked = self.walked.get_mut(id.index as usize)?;
        for at in *walked..fields.len() {
            *walked = at + 1;
            if let Element::Message(child) = fields[at].element {
                if mark(&mut self.seen, child) {
                    return Some(child);
                }
            }
        }
        None
    }

    /// The type of the line that comes after those.
    pub(crate) fn next(&mut self, schema: &Schema, lines: &[PairBound]) -> TypeId {
        for at in self.line..lines.len() {
            self.line = at;
            if let Some(id) = self.first_unseen(schema, lines[at].pair.old) {
                return id;
            }
        }
        TypeId { index: 0 }
    }
}
