//! The pairs of types that a pair leads to.

pub(crate) mod children;
pub(crate) mod edge;
pub(crate) mod priced;
pub(crate) mod prices;
pub(crate) mod table;
pub(crate) mod walking;
pub(crate) mod work;
