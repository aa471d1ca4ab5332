//! What an old program reads back of a message that a new one relays.

pub(crate) mod returning;
