//! What is told of two files, each kind by itself. The kinds are those of the proto3 language
//! guide, "Updating A Message Type".
use kit_rows::retry;
use pg_check::build;
use pg_link::{Listed, link};
use pg_notes::{EnumPair, Note, ServicePair, TypePair, notes};
use pg_schema::{EnumId, Schema, ServiceId, TypeId};
use std::alloc::{AllocError, Global};
use std::test::Fail;

/// The first message types of both files.
const TYPES: TypePair = TypePair {
    old: TypeId { index: 0 },
    new: TypeId { index: 0 },
};

/// The first enums of both files.
const ENUMS: EnumPair = EnumPair {
    old: EnumId { index: 0 },
    new: EnumId { index: 0 },
};

/// The first service of a file.
const SERVICE: ServiceId = ServiceId { index: 0 };

/// The first services of both files.
const SERVICES: ServicePair = ServicePair {
    old: SERVICE,
    new: SERVICE,
};

/// The schema of these files, of which this one is the root.
fn schema_in(alloc: Global, files: &[(&str, &[u8])], root: &str) -> Result<Schema, Fail> {
    let Ok(linked) = link(alloc, &mut Listed { files }, &[root]) else {
        return Err("the file doesn't link".into());
    };
    match build(alloc, &linked) {
        Ok(schema) => Ok(schema),
        Err(_) => Err("the file breaks a rule".into()),
    }
}

/// The schema of a file with these declarations.
fn schema_of(alloc: Global, declarations: &str) -> Result<Schema, Fail> {
    let text = format!(in alloc; "syntax = \"proto3\";\n{declarations}\n")?;
    schema_in(alloc, &[("m.proto", text.as_bytes())], "m.proto")
}

/// Whether just these notes are told of two files with these declarations.
fn tells(alloc: Global, old: &str, new: &str, wanted: &[Note]) -> Result<bool, Fail> {
    let old = schema_of(alloc, old)?;
    let new = schema_of(alloc, new)?;
    let told = notes(alloc, &old, &new)?;
    Ok(told.as_slice() == wanted)
}

#[test]
fn equal_files_have_no_notes(rt: HostRuntime) -> Result<(), Fail> {
    let file = "message M { optional int32 a = 1; } enum E { Z = 0; } \
        service S { rpc Get(M) returns (stream M); }";
    assert!(rt; tells(rt.alloc(), file, file, &[])?);
    Ok(())
}

#[test]
fn a_name_that_changed(rt: HostRuntime) -> Result<(), Fail> {
    let renamed = Note::Renamed {
        types: TYPES,
        number: 1,
        now: None,
    };
    let old = "message M { int32 a = 1; }";
    assert!(rt; tells(rt.alloc(), old, "message M { int32 b = 1; }", &[renamed])?);
    Ok(())
}

/// Two fields that exchange their names: each number has another name, and each name moved.
#[test]
fn names_that_are_exchanged(rt: HostRuntime) -> Result<(), Fail> {
    let types = TYPES;
    let wanted = [
        Note::Renamed {
            types,
            number: 1,
            now: Some(2),
        },
        Note::Moved {
            types,
            number: 1,
            now: 2,
        },
        Note::Renamed {
            types,
            number: 2,
            now: Some(1),
        },
        Note::Moved {
            types,
            number: 2,
            now: 1,
        },
    ];
    let old = "message M { int32 a = 1; int32 b = 2; }";
    let new = "message M { int32 b = 1; int32 a = 2; }";
    assert!(rt; tells(rt.alloc(), old, new, &wanted)?);
    Ok(())
}

/// A name that moved leaves its number without a field, and here not reserved.
#[test]
fn a_name_that_moved(rt: HostRuntime) -> Result<(), Fail> {
    let types = TYPES;
    let moved = Note::Moved {
        types,
        number: 1,
        now: 7,
    };
    let unreserved = Note::Unreserved { types, number: 1 };
    let old = "message M { int32 a = 1; }";
    let new = "message M { int32 a = 7; }";
    assert!(rt; tells(rt.alloc(), old, new, &[moved, unreserved])?);
    Ok(())
}

#[test]
fn numbers_that_are_reserved_or_not(rt: HostRuntime) -> Result<(), Fail> {
    let old = "message M { int32 a = 1; int32 b = 3; int32 c = 5; int32 d = 6; int32 e = 9; }";
    let new = "message M { reserved 9, 3 to 5; }";
    let first = Note::Unreserved {
        types: TYPES,
        number: 1,
    };
    let sixth = Note::Unreserved {
        types: TYPES,
        number: 6,
    };
    assert!(rt; tells(rt.alloc(), old, new, &[first, sixth])?);
    Ok(())
}

#[test]
fn presence_that_was_dropped(rt: HostRuntime) -> Result<(), Fail> {
    let types = TYPES;
    let old = "message M { optional int32 a = 1; oneof k { string b = 2; } int32 c = 3; \
        optional int32 d = 4; }";
    let new =
        "message M { int32 a = 1; string b = 2; optional int32 c = 3; oneof k { int32 d = 4; } }";
    let wanted = [
        Note::PresenceDropped { types, number: 1 },
        Note::PresenceDropped { types, number: 2 },
    ];
    assert!(rt; tells(rt.alloc(), old, new, &wanted)?);
    Ok(())
}

#[test]
fn numbers_that_became_packed_lists(rt: HostRuntime) -> Result<(), Fail> {
    let types = TYPES;
    let old = "message M { int32 a = 1; optional E b = 2; string c = 3; bool d = 4; \
        repeated int32 e = 5; } enum E { Z = 0; }";
    let new = "message M { repeated int32 a = 1; repeated E b = 2; repeated string c = 3; \
        repeated bool d = 4 [packed = false]; repeated int32 e = 5; } enum E { Z = 0; }";
    let wanted = [
        Note::NumberToList { types, number: 1 },
        Note::NumberToList { types, number: 2 },
    ];
    assert!(rt; tells(rt.alloc(), old, new, &wanted)?);
    Ok(())
}

/// Of a number with several names the first is told; an alias that stays is no note.
#[test]
fn values_that_changed_or_went(rt: HostRuntime) -> Result<(), Fail> {
    let old = "enum E { option allow_alias = true; Z = 0; A = 1; B = 1; C = 2; D = -1; F = 5; }";
    let new = "enum E { option allow_alias = true; Z = 0; B = 1; X = 2; Y = 2; F = 6; }";
    let enums = ENUMS;
    let wanted = [
        Note::ValueRenamed {
            enums,
            value: 1,
            now: 1,
        },
        Note::ValueRenamed {
            enums,
            value: 3,
            now: 2,
        },
        Note::ValueGone { enums, value: 4 },
        Note::ValueGone { enums, value: 5 },
    ];
    assert!(rt; tells(rt.alloc(), old, new, &wanted)?);
    Ok(())
}

#[test]
fn methods_that_went(rt: HostRuntime) -> Result<(), Fail> {
    let old = "message M {} service S { rpc Get(M) returns (M); rpc Put(M) returns (M); } \
        service T { rpc Get(M) returns (M); }";
    let new = "message M {} service S { rpc Put(M) returns (M); }";
    let wanted = [
        Note::MethodGone {
            service: SERVICE,
            method: 0,
            now: Some(SERVICE),
        },
        Note::MethodGone {
            service: ServiceId { index: 1 },
            method: 0,
            now: None,
        },
    ];
    assert!(rt; tells(rt.alloc(), old, new, &wanted)?);
    Ok(())
}

/// Message types are compared by their full names, wherever they stand in their files.
#[test]
fn methods_that_changed(rt: HostRuntime) -> Result<(), Fail> {
    let old = "message M {} message N {} service S { rpc A(M) returns (M); rpc B(M) returns (M); \
        rpc C(M) returns (M); rpc D(M) returns (M); rpc F(M) returns (N); }";
    let new = "message N {} message M {} service S { rpc F(M) returns (N); rpc A(N) returns (M); \
        rpc B(M) returns (N); rpc C(stream M) returns (M); rpc D(M) returns (stream M); }";
    let services = SERVICES;
    let wanted = [
        Note::MethodChanged {
            services,
            method: 0,
            now: 1,
        },
        Note::MethodChanged {
            services,
            method: 1,
            now: 2,
        },
        Note::MethodChanged {
            services,
            method: 2,
            now: 3,
        },
        Note::MethodChanged {
            services,
            method: 3,
            now: 4,
        },
    ];
    assert!(rt; tells(rt.alloc(), old, new, &wanted)?);
    Ok(())
}

/// What isn't in both files is told of in no note but those of services.
#[test]
fn what_one_file_alone_declares(rt: HostRuntime) -> Result<(), Fail> {
    let old = "message M { int32 a = 1; } enum E { Z = 0; }";
    let new = "message N { int32 b = 1; } enum F { Y = 0; } service S { rpc Get(N) returns (N); }";
    assert!(rt; tells(rt.alloc(), old, new, &[])?);
    Ok(())
}

/// Types and enums are found by their full names, and told of in the old order.
#[test]
fn the_old_order(rt: HostRuntime) -> Result<(), Fail> {
    let old = "message M { int32 a = 1; } enum E { Z = 0; } message N { int32 b = 1; } \
        service S { rpc Get(M) returns (M); }";
    let new = "message O {} message N {} enum E { Y = 0; } message M {}";
    let wanted = [
        Note::Unreserved {
            types: TypePair {
                old: TypeId { index: 0 },
                new: TypeId { index: 2 },
            },
            number: 1,
        },
        Note::Unreserved {
            types: TypePair {
                old: TypeId { index: 1 },
                new: TypeId { index: 1 },
            },
            number: 1,
        },
        Note::ValueRenamed {
            enums: ENUMS,
            value: 0,
            now: 0,
        },
        Note::MethodGone {
            service: SERVICE,
            method: 0,
            now: None,
        },
    ];
    assert!(rt; tells(rt.alloc(), old, new, &wanted)?);
    Ok(())
}

/// How many notes there are of two files that have some of each kind, where memory isn't refused.
fn count_of(alloc: Global, old: &Schema, new: &Schema) -> Option<usize> {
    match notes(alloc, old, new) {
        Ok(told) => Some(told.len()),
        Err(AllocError) => None,
    }
}

/// Where memory is refused in the call, it is made again, and tells all.
#[test]
fn tells_again(rt: HostRuntime) -> Result<(), Fail> {
    let old = "message M { int32 a = 1; optional int32 b = 2; int32 c = 3; } \
        enum E { Z = 0; A = 1; } service S { rpc Get(M) returns (M); rpc Put(M) returns (M); } \
        service T { rpc Get(M) returns (M); }";
    let new = "message M { int32 x = 1; int32 b = 2; repeated int32 c = 3; reserved 9, 7; } \
        enum E { Y = 0; } service S { rpc Put(stream M) returns (M); }";
    let old = schema_of(rt.alloc(), old)?;
    let new = schema_of(rt.alloc(), new)?;
    let told = retry!(&rt, None, count_of(rt.alloc(), &old, &new));
    assert!(rt; matches!(told, Some(8)));
    Ok(())
}
