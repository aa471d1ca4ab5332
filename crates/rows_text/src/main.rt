//! Prints an answer for each row of standard input, by its second part:
//! - `WHAT | tokens | TEXT`: the tokens of the source file with their offsets, or the code and the
//!   position of its refusal.
//! - `WHAT | tokens | TEXT | OFFSET`: the line and the column of that byte.
//! - `WHAT | tree | TEXT`: the first statement after the syntax, where it is a message or a
//!   service, else `taken`, or the refusal.
//! - `WHAT | tree | TEXT | WORD`: the same answer for the source file with the word in front of
//!   each token in turn, and after the last.
//! - `WHAT | joined | TEXT`: the path of the first import, of which each literal is a part.
//! - `WHAT | links | FILES`: the files, each with what its uses of types resolve to, or the
//!   refusal; `links::options` says what may follow the files.
//! - `WHAT | parts | CALL | PIECES`: what `admit` or `from_parts` makes of parts that come from no
//!   source file, spelled as `parts::pieces` says; with `json_name` a name's default JSON name, and
//!   with `packable` whether a type's lists may be packed.
//! - `WHAT | folder | PATH`: whether the folder of the system gives a file, misses it or fails.
//! - `WHAT | schema | FILES`: `taken`, or the refusal; with `| types`, `| enums`, `| services` or
//!   `| files` what the schema has of these, and with `| count` how many message types it has;
//!   with `| message NAME`, `| has INDEX`, `| type INDEX`, `| field INDEX NUMBER` and `| enum
//!   INDEX` what these calls of the schema answer.
//!
//! With `retry ` in front of the second part, the row is answered again where it lacks memory
//! (`kit_rows::retry`). `kit_rows` says how source files are spelled. For any other row that runs
//! out of memory, `Memory` is printed.
#![tactic(auto)]

mod answer;
mod folder;
mod joined;
mod links;
mod parts;
mod placed;
mod retries;
mod schema;
mod tokens;
mod tree;

use answer::answer;
use kit_rows::{cut, print_row};
use pg_link::Folder;
use std::io;

fn print_answer(rt: &HostRuntime, row: &str) -> io::Result<()> {
    let (shows, input) = cut(row);
    match input.strip_prefix("retry ") {
        Some(input) => print_row(rt, shows, &Ok(retries::answer(rt, input)?)),
        None => print_row(rt, shows, &answer(rt.alloc(), &mut Folder::new(rt), row)),
    }
}

fn main(rt: HostRuntime) -> io::Result<()> {
    for row in rt.lines(rt.alloc()) {
        print_answer(&rt, &row?)?;
    }
    Ok(())
}
