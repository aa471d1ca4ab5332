//! Answers each line of standard input, `WHAT IT SHOWS | CALL INPUT`, with `WHAT IT SHOWS |
//! ANSWER`: what the calls of `pg_wire`, `pg_dyn` and `pg_show` make of bytes and of contents.
//! Bytes are spelled in hexadecimal, and no bytes as `-`.
//!
//! `type SCHEMA` and `other SCHEMA` make schemas, as `kit_schemas` reads them. Bytes and contents
//! in later lines are of the first type of `type`'s schema. `fits` and `outside` compare with the
//! first type of `other`'s schema, `across` writes by it, and `inside` sets the message in field 1
//! of an empty one of it.
//!
//! With `retry ` in front, the row is answered again where it lacks memory (`kit_rows::retry`).
//! `kit_rows::unrolled` says how a line spells repeats. For any other row that runs out of memory,
//! `Memory` is printed; a row of `set` adds the content that came back, and the message as it is
//! then.
#![tactic(auto)]

mod beside;
mod contents;
mod draft;
mod reading;
mod records;
mod retries;
mod row;
mod setting;
mod types;

use kit_rows::{cut, print_row};
use std::io;
use types::Types;

fn print_answer(rt: &HostRuntime, types: &mut Types, row: &str) -> io::Result<()> {
    let (shows, input) = cut(row);
    match input.strip_prefix("retry ") {
        Some(input) => print_row(rt, shows, &Ok(retries::answer(rt, types, input)?)),
        None => print_row(rt, shows, &row::answer(rt.alloc(), types, row)),
    }
}

fn main(rt: HostRuntime) -> io::Result<()> {
    let Some(mut types) = Types::empty(rt.alloc())? else {
        return Ok(());
    };
    for row in rt.lines(rt.alloc()) {
        print_answer(&rt, &mut types, &row?)?;
    }
    Ok(())
}
