//! What files declare, as a schema has it.

pub(crate) mod by_scope;
pub(crate) mod enum_places;
pub(crate) mod made_enum;
pub(crate) mod made_field;
pub(crate) mod made_file;
pub(crate) mod made_message;
pub(crate) mod made_number;
pub(crate) mod made_option;
pub(crate) mod made_parts;
pub(crate) mod made_service;
