//! Which declarations of a schema have members whose positions are wanted.

use crate::answer::member::Member;
use pg_schema::{EnumId, Schema, ServiceId, TypeId};
use std::alloc::{AllocError, Global};

/// Which message types, enums and services have members whose positions are wanted, each by index.
#[derive(Drop)]
pub(crate) struct Wanted {
    types: Vec<bool>,
    enums: Vec<bool>,
    services: Vec<bool>,
}

/// Marks the index, where there is one.
fn mark(marks: &mut Vec<bool>, index: usize) {
    if let Some(mark) = marks.get_mut(index) {
        *mark = true;
    }
}

/// Whether the index is marked.
fn is_marked(marks: &Vec<bool>, index: usize) -> bool {
    marks.get(index).copied().unwrap_or(false)
}

impl Wanted {
    /// Nothing of the schema.
    pub(crate) fn none(alloc: Global, schema: &Schema) -> Result<Wanted, AllocError> {
        let parts = schema.parts();
        Ok(Wanted {
            types: vec![in alloc; false; parts.types.len()]?,
            enums: vec![in alloc; false; parts.enums.len()]?,
            services: vec![in alloc; false; parts.services.len()]?,
        })
    }

    /// Has the fields of the type be wanted, too.
    pub(crate) fn want_type(&mut self, id: TypeId) {
        mark(&mut self.types, id.index as usize);
    }

    /// Has the member be wanted, too, with all others that are declared beside it.
    pub(crate) fn want(&mut self, member: Member) {
        match member {
            Member::Field { id, .. } => self.want_type(id),
            Member::Value { id, .. } => mark(&mut self.enums, id.index),
            Member::Method { id, .. } => mark(&mut self.services, id.index),
        }
    }

    /// Whether the fields of the type are wanted.
    pub(crate) fn has_type(&self, id: TypeId) -> bool {
        is_marked(&self.types, id.index as usize)
    }

    /// Whether the values of the enum are wanted.
    pub(crate) fn has_enum(&self, id: EnumId) -> bool {
        is_marked(&self.enums, id.index)
    }

    /// Whether the methods of the service are wanted.
    pub(crate) fn has_service(&self, id: ServiceId) -> bool {
        is_marked(&self.services, id.index)
    }
}
