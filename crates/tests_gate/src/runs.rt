//! Runs of the program over files in memory, one of each subcommand at least, and what they print.
//! Only one function calls `run`, and how it ended is a value that nothing has to drop: else each
//! test takes the prover long, for the contract and for what may have to be dropped at its ends.
use pg_gate::{Buffer, GateError, Sink, Sources, run};
use pg_link::Listed;
use std::alloc::{AllocError, Global};

/// The set of `message M { int32 a = 1; }`, as protoc writes it.
const ONE: &[u8] =
    b"\x0a\x24\x0a\x07m.proto\x22\x11\x0a\x01M\x12\x0c\x0a\x01a\x18\x01\x20\x01\x28\x05R\x01ab\x06proto3";

/// The set of `message M { uint32 a = 1; }`, as protoc writes it.
const UNSIGNED: &[u8] =
    b"\x0a\x24\x0a\x07m.proto\x22\x11\x0a\x01M\x12\x0c\x0a\x01a\x18\x01\x20\x01\x28\x0dR\x01ab\x06proto3";

/// The files of either side.
pub(crate) static FILES: [(&str, &[u8]); 25] = [
    (
        "m.proto",
        b"syntax = \"proto3\";\nmessage M { int32 a = 1; }\n",
    ),
    (
        "u.proto",
        b"syntax = \"proto3\";\nmessage M { uint32 a = 1; }\n",
    ),
    (
        "f.proto",
        b"syntax = \"proto3\";\nmessage M { int32 a = 0; }\n",
    ),
    (
        "p.proto",
        b"syntax = \"proto3\";\nimport \"m.proto\";\nmessage P { P next = 1; M m = 7; }\n",
    ),
    (
        "q.proto",
        b"syntax = \"proto3\";\nimport \"u.proto\";\nmessage P { P next = 1; M m = 7; }\n",
    ),
    (
        "k.proto",
        b"syntax = \"proto3\";\nmessage K { int32 a = 1; int32 b = 2; }\n",
    ),
    (
        "l.proto",
        b"syntax = \"proto3\";\nmessage K { oneof o { int32 a = 1; int32 b = 2; } }\n",
    ),
    // Two enums that give a number other names.
    (
        "s.proto",
        b"syntax = \"proto3\";\nmessage M { enum E { A = 0; B = 1; } E e = 1; }\n",
    ),
    (
        "t.proto",
        b"syntax = \"proto3\";\nmessage M { enum E { A = 0; C = 1; } E e = 1; }\n",
    ),
    (
        "d/a.proto",
        b"syntax = \"proto3\";\nimport \"b.proto\";\nmessage M { N n = 1; }\n",
    ),
    ("d/b.proto", b"syntax = \"proto3\";\nmessage N { }\n"),
    (
        "e/a.proto",
        b"syntax = \"proto3\";\nimport \"b.proto\";\nmessage M { p.N n = 1; }\n",
    ),
    (
        "e/b.proto",
        b"syntax = \"proto3\";\npackage p;\nmessage N { sint32 s = 3; }\n",
    ),
    // Two files that import each other.
    ("r/a.proto", b"syntax = \"proto3\";\nimport \"b.proto\";\n"),
    ("r/b.proto", b"syntax = \"proto3\";\nimport \"a.proto\";\n"),
    // A file of one name on both sides.
    (
        "old/m.proto",
        b"syntax = \"proto3\";\nmessage M { int32 a = 1; }\n",
    ),
    (
        "new/m.proto",
        b"syntax = \"proto3\";\nmessage M { uint32 a = 1; }\n",
    ),
    ("o.pb", ONE),
    ("n.pb", UNSIGNED),
    (
        "c",
        b"protogate-certificate 1\nroot M M\npair M M 11\nwitness 08ffffffffffffffffff01\nend\n",
    ),
    (
        "none",
        b"protogate-certificate 1\nroot M M\npair M M none\nwitness none\nend\n",
    ),
    // Lists: of two files, of one, of none, and one that isn't UTF-8.
    ("two.list", b"m.proto\r\n\nk.proto\n"),
    ("one.list", b"l.proto"),
    ("no.list", b"\n\r\n"),
    ("bad.list", b"m.proto\n\xff\n"),
];

/// Words, what is printed, and the status.
pub(crate) static CALLS: [(&[&str], &str, u8); 27] = [
    (
        &["compile", "m.proto"],
        "\x0a\x24\x0a\x07m.proto\x22\x11\x0a\x01M\x12\x0c\x0a\x01a\x18\x01\x20\x01\x28\x05R\x01ab\x06proto3",
        0,
    ),
    // Two files, as protoc writes them.
    (
        &["compile", "--dir=d", "a.proto"],
        "\x0a\x16\x0a\x07b.proto\x22\x03\x0a\x01Nb\x06proto3\x0a\x31\x0a\x07a.proto\x1a\x07b.proto\x22\x15\x0a\x01M\x12\x10\x0a\x01n\x18\x01\x20\x01\x28\x0b2\x02.NR\x01nb\x06proto3",
        0,
    ),
    (
        &["show", "--file=m.proto", "--type=M", "0805120178"],
        "1 a int 5\nunknown 120178\nagain 0805120178\n",
        0,
    ),
    (
        &["show", "--dir=e", "--file=a.proto", "--type=M", "0a021803"],
        "1 n msg\n  3 s int -2\nagain 0a021803\n",
        0,
    ),
    (
        &["verify", "--old=m.proto", "--new=u.proto", "c"],
        "breaks M 11\n",
        1,
    ),
    (
        &["verify", "--old=m.proto", "--new=m.proto", "none"],
        "compatible M\n",
        0,
    ),
    (
        &["verify", "--old=u.proto", "--new=m.proto", "c"],
        "refused E804 M M 1 2\n",
        2,
    ),
    (
        &["gate", "--old=m.proto", "--new=m.proto", "--type=M"],
        "compatible M\n",
        0,
    ),
    (
        &[
            "gate",
            "--old-dir=old",
            "--new-dir=new",
            "--old=m.proto",
            "--new=m.proto",
            "--type=M",
        ],
        "breaks M 11\nwitness 08ffffffffffffffffff01\nstep 1 M.a m.proto:2:19 M.a m.proto:2:20\n",
        1,
    ),
    (
        &[
            "gate",
            "--old=m.proto",
            "--new=u.proto",
            "--type=M",
            "--both",
        ],
        "forward\nbreaks M 11\nwitness 08ffffffffffffffffff01\nstep 1 M.a m.proto:2:19 M.a u.proto:2:20\nbackward\nbreaks M 6\nwitness 088080808008\nstep 1 M.a u.proto:2:20 M.a m.proto:2:19\n",
        1,
    ),
    (
        &[
            "gate",
            "--old=m.proto",
            "--new=u.proto",
            "--type=M",
            "--cert",
        ],
        "protogate-certificate 2\nview numbers\nroot M M\npair M M 11\nwitness 08ffffffffffffffffff01\nend\n",
        1,
    ),
    // Through a message of a file that is imported, in a type that leads back to itself.
    (
        &["gate", "--old=p.proto", "--new=q.proto", "--type=P"],
        "breaks P 13\nwitness 3a0b08ffffffffffffffffff01\nstep 7 P.m p.proto:3:27 P.m q.proto:3:27\nstep 1 M.a m.proto:2:19 M.a u.proto:2:20\n",
        1,
    ),
    // A number with another name.
    (
        &[
            "gate",
            "--old=s.proto",
            "--new=t.proto",
            "--type=M",
            "--view=names",
        ],
        "breaks M 2\nwitness 0801\nstep 1 M.e s.proto:2:40 M.e t.proto:2:40\n",
        1,
    ),
    // Two fields that meet in a oneof.
    (
        &["gate", "--old=k.proto", "--new=l.proto", "--type=K"],
        "breaks K 4\nwitness 08011001\nstep 1 K.a k.proto:2:19 K.a l.proto:2:29\nstep 2 K.b k.proto:2:32 K.b l.proto:2:42\n",
        1,
    ),
    (
        &["gate", "--old=o.pb", "--new=n.pb", "--type=M"],
        "breaks M 11\nwitness 08ffffffffffffffffff01\nstep 1 M.a - M.a -\n",
        1,
    ),
    (
        &["gate", "--old=m.proto", "--new=f.proto", "--type=M"],
        "refused new E401 f.proto:2:19\n",
        2,
    ),
    // All types of two files a side, each cause as both sides read it.
    (
        &[
            "gate-all",
            "--old=m.proto",
            "--old=k.proto",
            "--new=u.proto",
            "--new=l.proto",
            "--explain",
        ],
        "cause value 11 08ffffffffffffffffff01 1 M.a m.proto:2:19 M.a u.proto:2:20\nold\n1 a int -1\nagain 08ffffffffffffffffff01\nnew\n1 a int 4294967295\nagain 08ffffffff0f\ncause oneof 4 08011001 1 K.a k.proto:2:19 K.a l.proto:2:29 K.b k.proto:2:32 K.b l.proto:2:42\nold\n1 a int 1\n2 b int 1\nagain 08011001\nnew\n2 b int 1\nagain 1001\nbreaks M 11\nbreaks K 4\n",
        1,
    ),
    // The same as JSON, without the readings.
    (
        &[
            "gate-all",
            "--json",
            "--old=m.proto",
            "--old=k.proto",
            "--new=u.proto",
            "--new=l.proto",
        ],
        "{\"kind\":\"cause\",\"why\":\"value\",\"length\":11,\"message\":\"08ffffffffffffffffff01\",\"number\":1,\"old\":{\"name\":\"M.a\",\"file\":\"m.proto\",\"line\":2,\"column\":19},\"new\":{\"name\":\"M.a\",\"file\":\"u.proto\",\"line\":2,\"column\":20},\"others\":[]}\n{\"kind\":\"cause\",\"why\":\"oneof\",\"length\":4,\"message\":\"08011001\",\"number\":1,\"old\":{\"name\":\"K.a\",\"file\":\"k.proto\",\"line\":2,\"column\":19},\"new\":{\"name\":\"K.a\",\"file\":\"l.proto\",\"line\":2,\"column\":29},\"others\":[{\"number\":2,\"old\":{\"name\":\"K.b\",\"file\":\"k.proto\",\"line\":2,\"column\":32},\"new\":{\"name\":\"K.b\",\"file\":\"l.proto\",\"line\":2,\"column\":42}}]}\n{\"kind\":\"breaks\",\"type\":\"M\",\"length\":11}\n{\"kind\":\"breaks\",\"type\":\"K\",\"length\":4}\n",
        1,
    ),
    // A type that breaks, one that doesn't, one that is removed, and one that is added.
    (
        &[
            "gate-all",
            "--old=m.proto",
            "--old=k.proto",
            "--old=d/b.proto",
            "--new=u.proto",
            "--new=d/b.proto",
            "--new=e/b.proto",
        ],
        "cause value 11 08ffffffffffffffffff01 1 M.a m.proto:2:19 M.a u.proto:2:20\nbreaks M 11\ncompatible N\nremoved K\nadded p.N\n",
        2,
    ),
    (
        &["relay"],
        "error: unrecognized subcommand 'relay'\n\nUsage: protogate <COMMAND>\n\nFor more information, try '--help'.\n",
        4,
    ),
    // Two files of an included folder, as protoc writes them.
    (
        &["compile", "--dir=n", "--include=d", "a.proto"],
        "\x0a\x16\x0a\x07b.proto\x22\x03\x0a\x01Nb\x06proto3\x0a\x31\x0a\x07a.proto\x1a\x07b.proto\x22\x15\x0a\x01M\x12\x10\x0a\x01n\x18\x01\x20\x01\x28\x0b2\x02.NR\x01nb\x06proto3",
        0,
    ),
    // A set of an included folder.
    (&["types", "--dir=n", "--include=.", "o.pb"], "M\n", 0),
    // The files of a list, and the first of them as a word too.
    (&["types", "--files-from=two.list", "m.proto"], "M\nK\n", 0),
    // All types of an old list, and of a word and a list.
    (
        &[
            "gate-all",
            "--old-files-from=two.list",
            "--new=u.proto",
            "--new-files-from=one.list",
        ],
        "cause value 11 08ffffffffffffffffff01 1 M.a m.proto:2:19 M.a u.proto:2:20\ncause oneof 4 08011001 1 K.a k.proto:2:19 K.a l.proto:2:29 K.b k.proto:2:32 K.b l.proto:2:42\nbreaks M 11\nbreaks K 4\n",
        1,
    ),
    (
        &["compile", "--files-from=bad.list"],
        "refused E906 bad.list:2:1\n",
        2,
    ),
    (
        &["gate-all", "--old=m.proto", "--new-files-from=no.list"],
        "refused new E907 no.list\n",
        4,
    ),
    (&["gate-all", "--new=m.proto"], "refused old E907\n", 4),
];

/// How a run ended.
#[derive(Clone, Copy)]
pub(crate) enum Ended {
    With(u8),
    Memory,
    WriteFailed,
    Another,
}

/// A sink that needs no more memory for an answer.
pub(crate) fn buffer(alloc: Global) -> Result<Buffer, AllocError> {
    Ok(Buffer::from_vec(Vec::with_capacity(alloc, 4096)?))
}

fn ended_of(ended: &Result<u8, GateError>) -> Ended {
    match ended {
        Ok(status) => Ended::With(*status),
        Err(GateError::Memory) => Ended::Memory,
        Err(GateError::WriteFailed) => Ended::WriteFailed,
        Err(_) => Ended::Another,
    }
}

/// Runs the program with these words, over these sources.
pub(crate) fn run_over<S: Sources, T: Sources, W: Sink>(
    alloc: Global,
    words: &[&str],
    old: &mut S,
    new: &mut T,
    sink: &mut W,
) -> Ended {
    ended_of(&run(alloc, words, old, new, sink))
}

/// Runs the program with these words, over the files on both sides.
pub(crate) fn run_files<W: Sink>(alloc: Global, words: &[&str], sink: &mut W) -> Ended {
    let mut old = Listed { files: &FILES };
    let mut new = old;
    run_over(alloc, words, &mut old, &mut new, sink)
}

/// What is wrong with a run that has to print this and to end with this status, or nothing.
pub(crate) fn fault(ended: Ended, taken: &[u8], status: u8, printed: &str) -> &'static str {
    match ended {
        Ended::With(found) if found != status => "status",
        Ended::With(_) if taken != printed.as_bytes() => "text",
        Ended::With(_) => "",
        Ended::Memory => "memory",
        Ended::WriteFailed => "write",
        Ended::Another => "error",
    }
}
