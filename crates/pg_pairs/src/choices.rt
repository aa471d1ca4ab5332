//! The ways in which a message of a pair can break, and what each costs.

pub(crate) mod beside;
pub(crate) mod case;
pub(crate) mod causes;
pub(crate) mod choice;
pub(crate) mod coming;
pub(crate) mod cost;
pub(crate) mod field_choice;
pub(crate) mod least_cost;
pub(crate) mod least_member;
pub(crate) mod meeting;
pub(crate) mod new_oneof;
pub(crate) mod oneof_links;
pub(crate) mod option_list;
pub(crate) mod told;
