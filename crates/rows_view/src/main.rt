//! What `gate_with` answers of two schemas under each view, and what `relay` hands on, for each
//! line of standard input.
//!
//! A line is `WHAT IT SHOWS | OLD SCHEMA | NEW SCHEMA`. The schemas are spelled as `kit_schemas`
//! says, and the types that are asked for are called `M`. What is printed is the least message that
//! breaks, in hexadecimal digits, or that the types are compatible: by the numbers of enums, and by
//! their names. Where bytes follow the schemas, as ` | DIGITS`, it is what the first type of the
//! new schema hands on of them; or, of several new schemas with ` > ` between them, what the last
//! of them hands on. With `retry CALL ` in front of the schemas it is that call's answer, made
//! again where it lacks memory (`kit_rows::retry`). For any other row that runs out of memory,
//! `Memory` is printed.
#![tactic(auto)]

mod overviews;
mod relaying;
mod retries;
mod row;

use kit_rows::{cut, print_row};
use std::io;

fn print_answer(rt: &HostRuntime, line: &str) -> io::Result<()> {
    let (shows, input) = cut(line);
    match input.strip_prefix("retry ") {
        Some(input) => print_row(rt, shows, &Ok(retries::answer(rt, input)?)),
        None => print_row(rt, shows, &row::answer(rt.alloc(), line)),
    }
}

fn main(rt: HostRuntime) -> io::Result<()> {
    for line in rt.lines(rt.alloc()) {
        print_answer(&rt, &line?)?;
    }
    Ok(())
}
