//! Messages that break, and the message of each choice.

pub(crate) mod breaking;
pub(crate) mod comparing;
pub(crate) mod content;
pub(crate) mod item;
pub(crate) mod message;
pub(crate) mod same_contents;
