//! Rows that are answered again where memory is refused.
use crate::certificates::shown_table;
use crate::row::{alone, between};
use crate::shown::list;
use crate::spelled::{bounds_of, pair_of};
use kit_rows::{cut, retry, say, unrolled};
use kit_schemas::schemas;
use pg_cert::{Bounds, BoundsError, PairBound};
use pg_pairs::{Numbers, Pair, Priced, Prices, Work};
use pg_schema::Schema;
use std::alloc::AllocError;
use std::io;

/// Prints `Memory`, and the bounds that came back.
fn say_back(rt: &HostRuntime, back: &[PairBound]) -> io::Result<()> {
    let back = list(rt.alloc(), back)?;
    println!(rt; "Memory {back}")
}

/// The table of the bounds; where it lacks memory, the table of those that came back.
fn made(
    rt: &HostRuntime,
    bounds: Vec<PairBound>,
) -> io::Result<Result<Bounds, (BoundsError, Vec<PairBound>)>> {
    match Bounds::new(rt.alloc(), bounds) {
        Err((BoundsError::Memory, back)) => {
            say_back(rt, &back)?;
            Ok(Bounds::new(rt.alloc(), back))
        }
        found => Ok(found),
    }
}

/// `table | BOUNDS`: `Bounds::new`, with the same bounds both times.
fn table(rt: &HostRuntime, words: &str) -> io::Result<String> {
    let bounds = bounds_of(rt.alloc(), words)?;
    say(rt, "ready")?;
    let found = made(rt, bounds)?;
    say(rt, "done")?;
    Ok(shown_table(rt.alloc(), found)?)
}

/// `Prices::base | OLD | NEW | PAIR`: what the pair costs without a child, and how many pairs were
/// opened.
fn based(rt: &HostRuntime, graph: &Priced<'_>, pair: Pair) -> io::Result<String> {
    if !graph.knows(pair) {
        return Ok(String::from_str(rt.alloc(), "no such pair")?);
    }
    let mut work = Work {
        settled: 0,
        relaxed: 0,
        opened: 0,
    };
    say(rt, "ready")?;
    let found = match graph.base(rt.alloc(), pair, &mut work) {
        Err(AllocError) => {
            println!(rt; "Memory {}", work.opened)?;
            graph.base(rt.alloc(), pair, &mut work)
        }
        found => found,
    };
    say(rt, "done")?;
    let cost = found?.unwrap_or(0);
    Ok(format!(in rt.alloc(); "{cost} {}", work.opened)?)
}

fn again(
    rt: &HostRuntime,
    call: &str,
    old: &Schema,
    new: &Schema,
    words: &str,
) -> io::Result<String> {
    if call == "Prices::base" {
        return based(rt, &Priced::new(&Numbers, old, new), pair_of(words));
    }
    Ok(retry!(
        rt,
        Err(AllocError),
        between(rt.alloc(), call, old, new, words)
    )?)
}

/// Answers a call without schemas, and again where memory is refused.
fn alone_again(rt: &HostRuntime, call: &str, words: &str) -> io::Result<String> {
    Ok(retry!(rt, Err(AllocError), alone(rt.alloc(), call, words))?)
}

/// What is printed of `CALL | OLD SCHEMA | NEW SCHEMA | WORDS`, or of a call without schemas, with
/// what comes in front of the answer (`kit_rows::retry`). The words are those of the row that shows
/// the same answer.
pub(crate) fn answer(rt: &HostRuntime, input: &str) -> io::Result<String> {
    let input = unrolled(rt.alloc(), input)?;
    let (call, words) = cut(&input);
    match call {
        "table" => return table(rt, words),
        "drawn" => return alone_again(rt, call, words),
        _ => {}
    }
    let (old, words) = cut(words);
    let (new, words) = cut(words);
    match schemas(rt.alloc(), old, new)? {
        Some((old, new)) => again(rt, call, &old, &new, words),
        None => Ok(String::from_str(rt.alloc(), "no schemas")?),
    }
}
