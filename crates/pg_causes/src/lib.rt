//! What breaks between two whole schemas: each field that breaks by itself, with a message that
//! shows it; and each message type that both declare, with whether its messages break.
#![tactic(auto)]

mod causing;
mod names;
mod overview;
mod reason;
mod type_lines;

pub use overview::{Cause, Overview, Reason, TypeLine, gate_all};
