//! What `pg_pairs`, `pg_cert` and `pg_least` answer of two schemas of a few types, for each line of
//! standard input.
//!
//! A line is `WHAT IT SHOWS | CALL | OLD SCHEMA | NEW SCHEMA | WORDS`. The schemas are spelled as
//! `kit_schemas` says. A pair of types is spelled by their indexes, counted from 0, as `0 1`; a
//! bound by its pair and a number or `none`, with `, ` between bounds; a choice by its number,
//! case, part and cost; bytes by hexadecimal digits, and a certificate with escapes. Words that are
//! left out are zeros, and `-` is no bounds. Each call's function says what its words are. With
//! `retry ` in front, the row is answered again where it lacks memory (`kit_rows::retry`).
//! `kit_rows::unrolled` says how a line spells repeats. For any other row that runs out of memory,
//! `Memory` is printed.
#![tactic(auto)]

mod certificates;
mod choices;
mod drawn;
mod enum_view;
mod gaps;
mod graphs;
mod messages;
mod retries;
mod row;
mod searches;
mod shown;
mod spelled;

use kit_rows::{cut, print_row};
use std::io;

fn print_answer(rt: &HostRuntime, line: &str) -> io::Result<()> {
    let (shows, input) = cut(line);
    match input.strip_prefix("retry ") {
        Some(input) => print_row(rt, shows, &Ok(retries::answer(rt, input)?)),
        None => print_row(rt, shows, &row::answer(rt.alloc(), line)),
    }
}

fn main(rt: HostRuntime) -> io::Result<()> {
    for line in rt.lines(rt.alloc()) {
        print_answer(&rt, &line?)?;
    }
    Ok(())
}
