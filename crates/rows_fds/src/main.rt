//! Reads the descriptor set that each line of standard input spells, and prints the set of what it
//! states, or its refusal. With `source ` in front of a file, as `kit_rows` spells it, it prints
//! the set of the file's schema; with `decoded ` in front of a set what the written schema reads of
//! it, as bytes again. `field MESSAGE NUMBER` is answered with the name of that field of the
//! written schema, and `descriptor_schema` with the names of its message types.
//!
//! With `retry ` in front of all that, the line is answered again where it lacks memory
//! (`kit_rows::retry`). For any other line that runs out of memory, `Memory` is printed.
#![tactic(auto)]

mod own;
mod row;
mod sets;
mod sources;

use kit_rows::{cut, print_row, retry};
use row::answer;
use std::alloc::AllocError;
use std::io;

fn answer_again(rt: &HostRuntime, spelled: &str) -> io::Result<String> {
    Ok(retry!(rt, Err(AllocError), answer(rt.alloc(), spelled))?)
}

fn print_answer(rt: &HostRuntime, line: &str) -> io::Result<()> {
    let (shows, spelled) = cut(line);
    match spelled.strip_prefix("retry ") {
        Some(spelled) => print_row(rt, shows, &Ok(answer_again(rt, spelled)?)),
        None => print_row(rt, shows, &answer(rt.alloc(), spelled)),
    }
}

fn main(rt: HostRuntime) -> io::Result<()> {
    for line in rt.lines(rt.alloc()) {
        print_answer(&rt, &line?)?;
    }
    Ok(())
}
