//! Sources that fail, at each read of each subcommand.
use crate::runs::{FILES, buffer, fault, run_over};
use kit_failing_source::FailingSource;
use pg_link::Listed;
use std::alloc::{AllocError, Global};
use std::process::Abort;
use std::test::Fail;

/// Words, the read of the old and of the new side that fails, counted from 1 (0 for none), and what
/// is printed: the file that couldn't be read, whoever imports it.
static FAILING: [(&[&str], u32, u32, &str); 29] = [
    (
        &["gate", "--old=m.proto", "--new=u.proto", "--type=M"],
        1,
        0,
        "refused old E309 m.proto\n",
    ),
    (
        &["gate", "--old=m.proto", "--new=u.proto", "--type=M"],
        0,
        1,
        "refused new E309 u.proto\n",
    ),
    (
        &["gate", "--old=p.proto", "--new=q.proto", "--type=P"],
        2,
        0,
        "refused old E309 m.proto\n",
    ),
    (
        &["gate", "--old=o.pb", "--new=n.pb", "--type=M"],
        1,
        0,
        "refused old E309 o.pb\n",
    ),
    (
        &["gate", "--old=o.pb", "--new=n.pb", "--type=M"],
        0,
        1,
        "refused new E309 n.pb\n",
    ),
    (
        &["verify", "--old=m.proto", "--new=u.proto", "c"],
        2,
        0,
        "refused E309 c\n",
    ),
    (
        &["verify", "--old=m.proto", "--new=u.proto", "c"],
        1,
        0,
        "refused old E309 m.proto\n",
    ),
    (
        &["verify", "--old=m.proto", "--new=u.proto", "c"],
        0,
        1,
        "refused new E309 u.proto\n",
    ),
    (
        &["compile", "--dir=d", "a.proto"],
        1,
        0,
        "refused E309 a.proto\n",
    ),
    (
        &["compile", "--dir=d", "a.proto"],
        2,
        0,
        "refused E309 b.proto\n",
    ),
    // A failure comes before what the files would break.
    (
        &["compile", "--dir=r", "a.proto"],
        1,
        0,
        "refused E309 a.proto\n",
    ),
    (
        &["compile", "--dir=r", "a.proto"],
        2,
        0,
        "refused E309 b.proto\n",
    ),
    // A failure in a folder isn't read over in the next.
    (
        &["compile", "--dir=n", "--include=d", "a.proto"],
        1,
        0,
        "refused E309 a.proto\n",
    ),
    (
        &["compile", "--dir=n", "--include=d", "a.proto"],
        2,
        0,
        "refused E309 a.proto\n",
    ),
    (
        &["compile", "--dir=n", "--include=d", "a.proto"],
        3,
        0,
        "refused E309 b.proto\n",
    ),
    (
        &["types", "--dir=n", "--include=.", "o.pb"],
        1,
        0,
        "refused E309 o.pb\n",
    ),
    (
        &["types", "--dir=n", "--include=.", "o.pb"],
        2,
        0,
        "refused E309 o.pb\n",
    ),
    (
        &[
            "gate",
            "--old=m.proto",
            "--new-dir=n",
            "--new-include=.",
            "--new=u.proto",
            "--type=M",
        ],
        0,
        1,
        "refused new E309 u.proto\n",
    ),
    (
        &[
            "gate",
            "--old=m.proto",
            "--new-dir=n",
            "--new-include=.",
            "--new=u.proto",
            "--type=M",
        ],
        0,
        2,
        "refused new E309 u.proto\n",
    ),
    (
        &["show", "--dir=e", "--file=a.proto", "--type=M", "0a021803"],
        1,
        0,
        "refused E309 a.proto\n",
    ),
    (
        &["show", "--dir=e", "--file=a.proto", "--type=M", "0a021803"],
        2,
        0,
        "refused E309 b.proto\n",
    ),
    (
        &[
            "gate-all",
            "--old=m.proto",
            "--old=k.proto",
            "--new=u.proto",
        ],
        2,
        0,
        "refused old E309 k.proto\n",
    ),
    (
        &[
            "gate-all",
            "--old=m.proto",
            "--old=k.proto",
            "--new=u.proto",
        ],
        0,
        1,
        "refused new E309 u.proto\n",
    ),
    // A list is read before the files of its side, and both lists before any file.
    (
        &["types", "--files-from=two.list"],
        1,
        0,
        "refused E309 two.list\n",
    ),
    (
        &["types", "--files-from=two.list"],
        2,
        0,
        "refused E309 m.proto\n",
    ),
    (
        &["compile", "--files-from=two.list", "l.proto"],
        1,
        0,
        "refused E309 two.list\n",
    ),
    (
        &["gate-all", "--old-files-from=two.list", "--new=u.proto"],
        1,
        0,
        "refused old E309 two.list\n",
    ),
    (
        &["gate-all", "--old=m.proto", "--new-files-from=one.list"],
        1,
        1,
        "refused new E309 one.list\n",
    ),
    (
        &["gate-all", "--old=m.proto", "--new-files-from=one.list"],
        0,
        2,
        "refused new E309 l.proto\n",
    ),
];

/// What is wrong where those reads fail, and this has to be printed with this status, or nothing.
fn fault_of(
    alloc: Global,
    words: &[&str],
    fails_at: (u32, u32),
    printed: &str,
    status: u8,
) -> Result<&'static str, AllocError> {
    let mut old = FailingSource::new(Listed { files: &FILES }, fails_at.0);
    let mut new = FailingSource::new(Listed { files: &FILES }, fails_at.1);
    let mut sink = buffer(alloc)?;
    let ended = run_over(alloc, words, &mut old, &mut new, &mut sink);
    Ok(fault(ended, &sink.bytes, status, printed))
}

#[test]
fn tells_a_source_that_fails(rt: HostRuntime) -> Result<(), Fail> {
    for (words, old, new, printed) in FAILING {
        let fault = fault_of(rt.alloc(), words, (old, new), printed, 3)?;
        assert_eq!(rt; fault, "", "{printed}");
    }
    Ok(())
}

/// A folder isn't asked for a file that one before it has.
#[test]
fn asks_no_folder_after_the_first_that_has_a_file(rt: HostRuntime) -> Result<(), Fail> {
    let words = ["compile", "--dir=d", "--include=e", "b.proto"];
    let printed = "\x0a\x16\x0a\x07b.proto\x22\x03\x0a\x01Nb\x06proto3";
    let fault = fault_of(rt.alloc(), &words, (2, 0), printed, 0)?;
    assert_eq!(rt; fault, "");
    Ok(())
}
