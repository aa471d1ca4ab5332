//! What a call answers.

pub(crate) mod all_types;
pub(crate) mod both_sides;
pub(crate) mod causes;
pub(crate) mod compile;
pub(crate) mod cursor;
pub(crate) mod dispatch;
pub(crate) mod explaining;
pub(crate) mod folders;
pub(crate) mod gate;
pub(crate) mod listing;
pub(crate) mod lists;
pub(crate) mod member;
pub(crate) mod noting;
pub(crate) mod places;
pub(crate) mod sets;
pub(crate) mod showing;
pub(crate) mod stepping;
pub(crate) mod type_names;
pub(crate) mod verified;
pub(crate) mod verifying;
pub(crate) mod wanted;
pub(crate) mod writing;
