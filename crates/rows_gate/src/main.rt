//! Runs the program once for each line of standard input, over the files that the line holds, and
//! prints its status and output, or `Memory` where memory runs out. `kit_rows::unrolled` says how a
//! line spells repeats.
#![tactic(auto)]

mod files;
mod parts;
mod row;

use kit_rows::{cut, print_row};
use std::io;

fn print_answer(rt: &HostRuntime, line: &str) -> io::Result<()> {
    print_row(rt, cut(line).0, &row::answer(rt.alloc(), line))
}

fn main(rt: HostRuntime) -> io::Result<()> {
    for line in rt.lines(rt.alloc()) {
        print_answer(&rt, &line?)?;
    }
    Ok(())
}
