//! Sinks that take little, or fail, and memory that is refused: of each subcommand, of refusals and
//! of usage.
use crate::runs::{CALLS, Ended, FILES, buffer, fault, run_files, run_over};
use crate::{FailingSink, OneByte};
use kit_rows::say;
use pg_link::Listed;
use std::alloc::{AllocError, Global};
use std::io;
use std::process::Abort;
use std::test::Fail;

/// What is wrong where a sink takes one byte a call, or nothing: it gets the whole output.
fn fault_of_slow(
    alloc: Global,
    words: &[&str],
    printed: &str,
    status: u8,
) -> Result<&'static str, AllocError> {
    let mut sink = OneByte {
        sink: buffer(alloc)?,
    };
    let ended = run_files(alloc, words, &mut sink);
    Ok(fault(ended, &sink.sink.bytes, status, printed))
}

#[test]
fn fills_a_slow_sink(rt: HostRuntime) -> Result<(), Fail> {
    for (words, printed, status) in CALLS {
        let fault = fault_of_slow(rt.alloc(), words, printed, status)?;
        assert_eq!(rt; fault, "", "{printed}");
    }
    Ok(())
}

/// Whether the run fails where its sink fails at that write of one byte, and the sink has the bytes
/// before.
fn stops_at(alloc: Global, words: &[&str], taken: &[u8]) -> Result<bool, AllocError> {
    let slow = OneByte {
        sink: buffer(alloc)?,
    };
    let mut sink = FailingSink::new(slow, taken.len() as u64 + 1);
    let ended = run_files(alloc, words, &mut sink);
    Ok(matches!(ended, Ended::WriteFailed) && sink.sink.sink.bytes.as_slice() == taken)
}

/// Whether the run fails so at each write of what the call prints.
fn stops_anywhere(alloc: Global, words: &[&str], printed: &[u8]) -> Result<bool, AllocError> {
    for taken in 0..printed.len() {
        if !stops_at(alloc, words, &printed[..taken])? {
            return Ok(false);
        }
    }
    Ok(true)
}

/// A sink that fails at its write of any number has taken the bytes before.
#[test]
fn stops_where_a_sink_fails(rt: HostRuntime) -> Result<(), Fail> {
    for (words, printed, _status) in CALLS {
        let stops = stops_anywhere(rt.alloc(), words, printed.as_bytes())?;
        assert!(rt; stops, "{printed}");
    }
    Ok(())
}

/// Whether the run prints this. One that lacks memory has to leave its sink alone, and is made
/// again over the same sources and the same sink.
fn runs_again(rt: &HostRuntime, words: &[&str], printed: &str, status: u8) -> io::Result<bool> {
    let mut old = Listed { files: &FILES };
    let mut new = old;
    let mut sink = buffer(rt.alloc())?;
    let mut is_left_alone = true;
    say(rt, "ready")?;
    let mut ended = run_over(rt.alloc(), words, &mut old, &mut new, &mut sink);
    if matches!(ended, Ended::Memory) {
        say(rt, "Memory")?;
        is_left_alone = sink.bytes.is_empty();
        ended = run_over(rt.alloc(), words, &mut old, &mut new, &mut sink);
    }
    say(rt, "done")?;
    Ok(is_left_alone && fault(ended, &sink.bytes, status, printed).is_empty())
}

#[test]
fn compiles_again(rt: HostRuntime) -> Result<(), Fail> {
    let (words, printed, status) = CALLS[0];
    assert!(rt; runs_again(&rt, words, printed, status)?);
    Ok(())
}

#[test]
fn compiles_in_folders_again(rt: HostRuntime) -> Result<(), Fail> {
    let (words, printed, status) = CALLS[20];
    assert!(rt; runs_again(&rt, words, printed, status)?);
    Ok(())
}

#[test]
fn names_types_of_a_set_in_folders_again(rt: HostRuntime) -> Result<(), Fail> {
    let (words, printed, status) = CALLS[21];
    assert!(rt; runs_again(&rt, words, printed, status)?);
    Ok(())
}

#[test]
fn shows_again(rt: HostRuntime) -> Result<(), Fail> {
    let (words, printed, status) = CALLS[2];
    assert!(rt; runs_again(&rt, words, printed, status)?);
    Ok(())
}

#[test]
fn verifies_again(rt: HostRuntime) -> Result<(), Fail> {
    let (words, printed, status) = CALLS[4];
    assert!(rt; runs_again(&rt, words, printed, status)?);
    Ok(())
}

#[test]
fn gates_in_both_directions_again(rt: HostRuntime) -> Result<(), Fail> {
    let (words, printed, status) = CALLS[9];
    assert!(rt; runs_again(&rt, words, printed, status)?);
    Ok(())
}

#[test]
fn gates_a_oneof_again(rt: HostRuntime) -> Result<(), Fail> {
    let (words, printed, status) = CALLS[13];
    assert!(rt; runs_again(&rt, words, printed, status)?);
    Ok(())
}

#[test]
fn gates_all_types_again(rt: HostRuntime) -> Result<(), Fail> {
    let (words, printed, status) = CALLS[16];
    assert!(rt; runs_again(&rt, words, printed, status)?);
    Ok(())
}

#[test]
fn gates_all_types_as_json_again(rt: HostRuntime) -> Result<(), Fail> {
    let (words, printed, status) = CALLS[17];
    assert!(rt; runs_again(&rt, words, printed, status)?);
    Ok(())
}

#[test]
fn names_types_of_a_list_again(rt: HostRuntime) -> Result<(), Fail> {
    let (words, printed, status) = CALLS[22];
    assert!(rt; runs_again(&rt, words, printed, status)?);
    Ok(())
}

#[test]
fn gates_all_types_of_lists_again(rt: HostRuntime) -> Result<(), Fail> {
    let (words, printed, status) = CALLS[23];
    assert!(rt; runs_again(&rt, words, printed, status)?);
    Ok(())
}

#[test]
fn refuses_a_list_again(rt: HostRuntime) -> Result<(), Fail> {
    let (words, printed, status) = CALLS[24];
    assert!(rt; runs_again(&rt, words, printed, status)?);
    Ok(())
}

#[test]
fn refuses_a_list_without_files_again(rt: HostRuntime) -> Result<(), Fail> {
    let (words, printed, status) = CALLS[25];
    assert!(rt; runs_again(&rt, words, printed, status)?);
    Ok(())
}

#[test]
fn refuses_a_side_without_files_again(rt: HostRuntime) -> Result<(), Fail> {
    let (words, printed, status) = CALLS[26];
    assert!(rt; runs_again(&rt, words, printed, status)?);
    Ok(())
}

/// Whether the sink has the whole help, or nothing where memory is reported.
fn is_help(ended: Ended, taken: &[u8]) -> bool {
    match ended {
        Ended::With(4) => {
            taken.starts_with(b"Compare proto3 message types ")
                && taken.ends_with(b" a lower bound on the length of a message that breaks\n")
        }
        Ended::Memory => taken.is_empty(),
        _ => false,
    }
}

/// Help is printed whole, or memory is reported and the sink left alone, where any one request may
/// be refused.
#[test]
fn keeps_to_memory_in_help(rt: HostRuntime) {
    let Ok(mut sink) = buffer(rt.alloc()) else {
        return;
    };
    let ended = run_files(rt.alloc(), &["--help"], &mut sink);
    assert!(rt; is_help(ended, &sink.bytes));
}
