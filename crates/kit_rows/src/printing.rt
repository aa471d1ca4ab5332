//! What programs print of rows.
use std::alloc::{AllocError, Global};
use std::fmt::Debug;
use std::io;

/// Prints what a row shows and its answer, which is `Memory` where it lacks memory.
pub fn print_row<P: Print>(
    to: &P,
    shows: &str,
    answer: &Result<String, AllocError>,
) -> io::Result<()> {
    match answer {
        Ok(answer) => println!(to; "{shows} | {answer}"),
        Err(AllocError) => println!(to; "{shows} | Memory"),
    }
}

/// The value as `Debug` shows it.
pub fn debug<T: Debug>(alloc: Global, value: &T) -> Result<String, AllocError> {
    format!(in alloc; "{value:?}")
}
