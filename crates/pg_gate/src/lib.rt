//! The whole product: the arguments of a command line, an answer, its output in a sink and its
//! status.
#![tactic(auto)]

mod answer;
mod call_error;
mod error;
pub mod laws;
mod print;
mod program;
mod relaying;

pub use answer::gate::{Answer, gate, gate_files, gate_with};
pub use error::{Fault, GateError, ListError};
pub use pg_cert::Certificate;
pub use pg_check::CheckError;
pub use pg_dyn::{DynError, Message, ViewName};
pub use pg_fds::FdsError;
pub use pg_lines::{Buffer, Side, Sink, SinkError, StandardOutput, write_all};
pub use pg_link::{LinkError, Listed, Place, SourceError, Sources};
pub use pg_pairs::Pair;
pub use pg_schema::Schema;
pub use program::run;
pub use relaying::relay;
