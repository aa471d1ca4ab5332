//! The name of a view as that view.

use crate::views::names::Names;
use crate::views::view::{Numbers, View};
use pg_dyn::ViewName;
use pg_schema::EnumType;

impl View for ViewName {
    ghost name_of = { λ name. name };

    fn name(&self) -> ViewName {
        *self
    }

    fn alike(&self, old: &EnumType, new: &EnumType, number: i32) -> bool {
        match self {
            ViewName::Numbers => Numbers.alike(old, new, number),
            ViewName::Names => Names.alike(old, new, number),
        }
    }

    fn least(&self, old: &EnumType, new: &EnumType, zero: bool) -> Option<i32> {
        match self {
            ViewName::Numbers => Numbers.least(old, new, zero),
            ViewName::Names => Names.least(old, new, zero),
        }
    }
}
