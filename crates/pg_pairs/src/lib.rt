//! Pairs of an old and a new type: what of the one the other doesn't see, and how long the shortest
//! message is that shows it.
#![tactic(auto)]

mod choices;
mod gaps;
mod graph;
mod home;
pub mod laws;
mod views;
mod witness;

pub use choices::case::Case;
pub use choices::causes::carry_cause;
pub use choices::choice::{Choice, Pair};
pub use choices::least_cost::cheapest;
pub use choices::option_list::options;
pub use choices::told::{FieldCause, told_causes};
pub use gaps::gap_kind::Gap;
pub use gaps::scalar_gap::gap;
pub use graph::children::{children, choice_child};
pub use graph::edge::{Edge, Part};
pub use graph::priced::Priced;
pub use graph::prices::Prices;
pub use graph::table::Table;
pub use graph::walking::{reached_from, reached_pairs};
pub use graph::work::Work;
pub use home::returning::returns;
pub use views::names::Names;
pub use views::view::{Numbers, View};
pub use witness::breaking::{breaks, breaks_as_written};
pub use witness::message::carry;
