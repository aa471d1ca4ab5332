//! The program `protogate`: the arguments, the files and the standard output of its process.
#![tactic(auto)]

use pg_gate::{GateError, StandardOutput, run};
use pg_link::Folder;
use std::alloc::AllocError;
use std::io::ErrorKind;
use std::process::ExitCode;
use std::{env, io};

/// The status of a bad command line.
const USAGE: u8 = 4;

/// The status of memory or a device that fails.
const DEVICE: u8 = 3;

/// The arguments after the program's name.
fn words(rt: &HostRuntime) -> io::Result<Vec<String>> {
    let words = env::args(rt)?.skip(1).collect(rt.alloc())?;
    Ok(words)
}

/// The status of a run; none where memory was refused. How it ended is lent, so that it is dropped
/// only once.
fn status_of(ended: &Result<u8, GateError>) -> Option<u8> {
    match ended {
        Ok(status) => Some(*status),
        Err(GateError::Memory) => None,
        Err(_) => Some(DEVICE),
    }
}

/// Runs on the arguments, over the system's files and its standard output.
fn run_on(rt: &HostRuntime, words: &[String]) -> Result<Option<u8>, AllocError> {
    let words: Vec<&str> = words.iter().map(|word| word.as_str()).collect(rt.alloc())?;
    let ended = run(
        rt.alloc(),
        &words,
        &mut Folder::new(rt),
        &mut Folder::new(rt),
        &mut StandardOutput::new(rt),
    );
    Ok(status_of(&ended))
}

/// The status of a whole run.
fn status(rt: &HostRuntime) -> io::Result<u8> {
    let words = match words(rt) {
        Ok(words) => words,
        Err(error) if error.kind() == ErrorKind::OutOfMemory => return refused(rt),
        Err(_) => {
            println!(rt; "error: invalid UTF-8 was detected in one or more arguments")?;
            return Ok(USAGE);
        }
    };
    match run_on(rt, &words) {
        Ok(Some(status)) => Ok(status),
        Ok(None) | Err(AllocError) => refused(rt),
    }
}

/// Says that memory was refused.
fn refused(rt: &HostRuntime) -> io::Result<u8> {
    println!(rt; "refused E001")?;
    Ok(DEVICE)
}

fn main(rt: HostRuntime) -> ExitCode {
    ExitCode::from(status(&rt).unwrap_or(DEVICE))
}
