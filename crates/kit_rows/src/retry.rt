//! Rows that are answered again where memory is refused.
use std::io;

/// Prints a line of one word.
pub fn say<P: Print>(to: &P, word: &str) -> io::Result<()> {
    println!(to; "{word}")
}

/// Answers a row by the expression, and where that lacks memory, as the pattern says, answers the
/// row again as a whole, over what the expression names: the same schemas.
///
/// A line `ready` is printed before the answer is made and `done` after it: a request for memory
/// that is refused between the two is one of the answer's own. Where the answer reports that,
/// `Memory` is printed between them.
#[macro_export]
macro_rules! retry {
    ($rt:expr, $lacking:pat, $call:expr) => {{
        $crate::say($rt, "ready")?;
        let found = match $call {
            $lacking => {
                $crate::say($rt, "Memory")?;
                $call
            }
            found => found,
        };
        $crate::say($rt, "done")?;
        found
    }};
}
