//! How the numbers of two enums are compared.

pub(crate) mod names;
pub(crate) mod view;
pub(crate) mod view_name;
