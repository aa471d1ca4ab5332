//! What the programs that answer rows share: how a row is cut into its parts, and how it spells
//! bytes.
#![tactic(auto)]

mod files;
mod printing;
mod repeats;
mod retry;
mod spelled;
mod texts;

pub use files::{File, borrowed, files_of};
pub use printing::{debug, print_row};
pub use repeats::{number_of, unrolled};
pub use retry::say;
pub use spelled::{bytes_of, spelling};
pub use texts::{text_of, with_word};

/// What a row has before the first ` | ` and after it: the whole row and nothing where there is
/// none.
pub fn cut(row: &str) -> (&str, &str) {
    row.split_once(" | ").unwrap_or((row, ""))
}
