//! The calls of the gate by themselves, beside the runs of the program.
use kit_failing_source::FailingSource;
use kit_rows::retry;
use kit_schemas::schemas;
use pg_gate::{Answer, Fault, GateError, LinkError, Side, gate, gate_files};
use pg_link::{Listed, Sources};
use std::alloc::{AllocError, Global};
use std::io;
use std::process::Abort;
use std::test::Fail;

/// The number -1 as an int32.
static MINUS_ONE: [u8; 11] = [
    0x08, 0xff, 0xff, 0xff, 0xff, 0xff, 0xff, 0xff, 0xff, 0xff, 0x01,
];

const SIGNED: &str = "M: int32 a=1";

const UNSIGNED: &str = "M: uint32 a=1";

/// What an answer is, as far as it is asked here: a value that nothing has to drop.
#[derive(Clone, Copy)]
enum Said {
    /// The message of the number -1 breaks, with a certificate of its bytes and one pair.
    Breaks,
    /// The types are compatible, with a certificate of one pair.
    Compatible,
    RootMissingOld,
    /// The file of that side couldn't be read.
    Failed(Side),
    /// That side has another fault.
    Faulty(Side),
    Memory,
    Another,
}

fn said_of_answer(answer: &Answer) -> Said {
    let (certificate, said) = match answer {
        Answer::Breaks { certificate, .. } => (certificate, Said::Breaks),
        Answer::Compatible(certificate) => (certificate, Said::Compatible),
    };
    let is_right = match certificate.witness() {
        Some(bytes) => matches!(said, Said::Breaks) && bytes == MINUS_ONE.as_slice(),
        None => matches!(said, Said::Compatible),
    };
    if is_right && certificate.bounds().len() == 1 {
        said
    } else {
        Said::Another
    }
}

fn said_of_fault(side: Side, fault: &Fault) -> Said {
    match fault {
        Fault::Link(LinkError::SourceFailed(place)) if place.file.as_str() == "m.proto" => {
            Said::Failed(side)
        }
        _ => Said::Faulty(side),
    }
}

fn said_of(answer: &Result<Answer, GateError>) -> Said {
    match answer {
        Ok(answer) => said_of_answer(answer),
        Err(GateError::Compile(side, fault)) => said_of_fault(*side, fault),
        Err(GateError::RootMissingOld) => Said::RootMissingOld,
        Err(GateError::Memory) => Said::Memory,
        Err(_) => Said::Another,
    }
}

/// What an answer is, which is dropped here alone: that takes the prover long at each way out.
fn told(answer: Result<Answer, GateError>) -> Said {
    said_of(&answer)
}

/// The answer on the schemas that these lines spell.
fn answer_of(alloc: Global, old: &str, new: &str, root: &str) -> Result<Said, AllocError> {
    match schemas(alloc, old, new)? {
        Some((old, new)) => Ok(told(gate(alloc, &old, &new, root))),
        None => Ok(Said::Another),
    }
}

#[test]
fn a_gate_answers_one_of_two(rt: HostRuntime) -> Result<(), Fail> {
    let breaking = answer_of(rt.alloc(), SIGNED, UNSIGNED, "M")?;
    assert!(rt; matches!(breaking, Said::Breaks));
    let same = answer_of(rt.alloc(), SIGNED, SIGNED, "M")?;
    assert!(rt; matches!(same, Said::Compatible));
    Ok(())
}

#[test]
fn a_gate_refuses_a_missing_root(rt: HostRuntime) -> Result<(), Fail> {
    let missing = answer_of(rt.alloc(), SIGNED, UNSIGNED, "N")?;
    assert!(rt; matches!(missing, Said::RootMissingOld));
    Ok(())
}

/// A file that holds the message `M` of these fields.
fn file_of(alloc: Global, fields: &str) -> Result<String, AllocError> {
    format!(in alloc; "syntax = \"proto3\";\nmessage M {{ {fields} }}\n")
}

/// The answer over two sources that have a file `m.proto`.
fn over_sources<S: Sources, T: Sources>(
    alloc: Global,
    old: &mut S,
    new: &mut T,
    root: &str,
) -> Said {
    told(gate_files(alloc, old, new, &["m.proto"], &["m.proto"], root))
}

/// The answer over files that hold the message `M` of these fields. Where memory runs out the call
/// is made again over the same sources.
fn over_files(rt: &HostRuntime, old: &str, new: &str, root: &str) -> io::Result<Said> {
    let old = file_of(rt.alloc(), old)?;
    let new = file_of(rt.alloc(), new)?;
    let mut old = Listed {
        files: &[("m.proto", old.as_bytes())],
    };
    let mut new = Listed {
        files: &[("m.proto", new.as_bytes())],
    };
    Ok(retry!(
        rt,
        Said::Memory,
        over_sources(rt.alloc(), &mut old, &mut new, root)
    ))
}

#[test]
fn a_gate_over_files_answers_one_of_two(rt: HostRuntime) -> Result<(), Fail> {
    let breaking = over_files(&rt, "int32 a = 1;", "uint32 a = 1;", "M")?;
    assert!(rt; matches!(breaking, Said::Breaks));
    let same = over_files(&rt, "int32 a = 1;", "int32 a = 1;", "M")?;
    assert!(rt; matches!(same, Said::Compatible));
    Ok(())
}

/// Of two sides that have a fault the old one's is reported.
#[test]
fn a_gate_over_files_tells_the_old_side_first(rt: HostRuntime) -> Result<(), Fail> {
    let faulty = over_files(&rt, "int32 a = 0;", "int32 a = 0;", "M")?;
    assert!(rt; matches!(faulty, Said::Faulty(Side::Old)));
    Ok(())
}

/// The answer over two sources of a message, of which each fails at that read.
fn over_failing(alloc: Global, old_fails: u32, new_fails: u32) -> Said {
    let text = b"syntax = \"proto3\";\nmessage M { int32 a = 1; }\n".as_slice();
    let files = [("m.proto", text)];
    let mut old = FailingSource::new(Listed { files: &files }, old_fails);
    let mut new = FailingSource::new(Listed { files: &files }, new_fails);
    over_sources(alloc, &mut old, &mut new, "M")
}

#[test]
fn a_gate_over_files_tells_a_source_that_fails(rt: HostRuntime) {
    assert!(rt; matches!(over_failing(rt.alloc(), 1, 1), Said::Failed(Side::Old)));
    assert!(rt; matches!(over_failing(rt.alloc(), 2, 1), Said::Failed(Side::New)));
    assert!(rt; matches!(over_failing(rt.alloc(), 2, 2), Said::Compatible));
}

#[test]
fn a_gate_over_files_refuses_a_missing_root(rt: HostRuntime) -> Result<(), Fail> {
    let missing = over_files(&rt, "int32 a = 1;", "int32 a = 1;", "N")?;
    assert!(rt; matches!(missing, Said::RootMissingOld));
    Ok(())
}
