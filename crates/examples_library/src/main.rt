//! An example of a caller of the library: it asks `pg_gate` whether a changed source file is
//! compatible. A line of standard input is `OLD => NEW`, two source files that declare a message
//! type `Order`, and a line of output answers it: by one call, or after `below ` step by step.
#![tactic(auto)]

use pg_check::build;
use pg_gate::{Answer, Fault, GateError, Schema, Side, gate, gate_files};
use pg_link::{Listed, link_below};
use std::alloc::{AllocError, Global};
use std::io;

/// The path of the source file on either side.
const PATH: &str = "order.proto";

/// The answer in words. It is lent, so that it is dropped only once. Each part of an answer has a
/// name here, and one that isn't used begins with `_`.
fn words_of(alloc: Global, answer: &Result<Answer, GateError>) -> Result<String, AllocError> {
    match answer {
        Ok(Answer::Compatible(_certificate)) => format!(in alloc; "compatible"),
        Ok(
            Answer::Breaks {
                witness: _witness,
                certificate,
            },
        ) => {
            let bytes = certificate.witness().unwrap_or(&[]);
            let witness = hex::encode(alloc, bytes)?;
            format!(in alloc; "breaks {witness}")
        }
        Err(error) => {
            let code = error.code();
            format!(in alloc; "refused E{code:03}")
        }
    }
}

/// Asks for `Order` over two sides, each a list of one path with its bytes.
fn gated(alloc: Global, old: &str, new: &str) -> Result<String, AllocError> {
    let old_files = [(PATH, old.as_bytes())];
    let new_files = [(PATH, new.as_bytes())];
    let answer = gate_files(
        alloc,
        &mut Listed { files: &old_files },
        &mut Listed { files: &new_files },
        &[PATH],
        &[PATH],
        "Order",
    );
    words_of(alloc, &answer)
}

/// The schema of a side whose source file is in a folder, with all that it imports there.
fn schema_below(
    alloc: Global,
    source: &mut Listed<'_>,
    side: Side,
    folder: &str,
) -> Result<Schema, GateError> {
    let linked = match link_below(alloc, source, folder, &[PATH]) {
        Ok(linked) => linked,
        Err(error) => return Err(GateError::Compile(side, Fault::Link(error))),
    };
    match build(alloc, &linked) {
        Ok(schema) => Ok(schema),
        Err(error) => Err(GateError::Compile(side, Fault::Check(error))),
    }
}

/// Asks for `Order` between two schemas, which the caller keeps: they serve for more questions.
fn answer_below(alloc: Global, source: &mut Listed<'_>) -> Result<Answer, GateError> {
    let old = schema_below(alloc, source, Side::Old, "old")?;
    let new = schema_below(alloc, source, Side::New, "new")?;
    gate(alloc, &old, &new, "Order")
}

/// Asks for `Order` over one source that has each side in a folder.
fn gated_below(alloc: Global, old: &str, new: &str) -> Result<String, AllocError> {
    let files = [
        ("old/order.proto", old.as_bytes()),
        ("new/order.proto", new.as_bytes()),
    ];
    let answer = answer_below(alloc, &mut Listed { files: &files });
    words_of(alloc, &answer)
}

/// The answer to a line.
fn answered(alloc: Global, line: &str) -> Result<String, AllocError> {
    let (old, new) = line.split_once(" => ").unwrap_or((line, ""));
    match old.strip_prefix("below ") {
        Some(old) => gated_below(alloc, old, new),
        None => gated(alloc, old, new),
    }
}

fn print_answer(rt: &HostRuntime, line: &str) -> io::Result<()> {
    match answered(rt.alloc(), line) {
        Ok(words) => println!(rt; "{words}"),
        Err(AllocError) => println!(rt; "out of memory"),
    }
}

fn main(rt: HostRuntime) -> io::Result<()> {
    for line in rt.lines(rt.alloc()) {
        print_answer(&rt, &line?)?;
    }
    Ok(())
}
