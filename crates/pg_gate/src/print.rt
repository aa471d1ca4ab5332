//! Which lines an answer has, and its status.

pub(crate) mod lines;
pub(crate) mod location;
pub(crate) mod refusal;
pub(crate) mod reply;
