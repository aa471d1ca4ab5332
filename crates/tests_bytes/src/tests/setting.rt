//! Contents that are set, by calls that are written out. `rows_bytes` has many more as rows.
use super::M;
use pg_dyn::{Content, DynError, Message, Value, encode, fits};
use pg_schema::Schema;
use std::alloc::Global;
use std::test::Fail;

/// A field, a oneof of two and a map.
const TYPE: &str = "M: int32 a=1, k0 int32 b=2, k0 int32 c=3, map<int32,bool> m=4";

fn schema(alloc: Global) -> Result<Schema, Fail> {
    match kit_schemas::schema(alloc, TYPE)? {
        Some(schema) => Ok(schema),
        None => Err("the type has no schema".into()),
    }
}

/// Sets a content of a message that fits; of one that doesn't it answers `TooLong`.
fn set(
    schema: &Schema,
    message: &mut Message,
    number: u32,
    content: Content,
) -> Result<(), (DynError, Content)> {
    if !fits(schema, message) {
        return Err((DynError::TooLong, content));
    }
    message.set(schema, number, content)
}

fn written(alloc: Global, schema: &Schema, message: &Message) -> Result<Vec<u8>, Fail> {
    if !fits(schema, message) {
        return Err("the message doesn't fit".into());
    }
    match encode(alloc, schema, message) {
        Ok(bytes) => Ok(bytes),
        Err(_) => Err("the message has no encoding".into()),
    }
}

fn one(number: i128) -> Content {
    Content::One(Value::Int(number))
}

#[test]
fn items_that_are_refused(rt: HostRuntime) -> Result<(), Fail> {
    let alloc = rt.alloc();
    let schema = schema(alloc)?;
    let mut message = Message::empty(alloc, M);
    let found = set(&schema, &mut message, 9, one(1));
    assert!(rt;
        matches!(
            found,
            Err((DynError::NoSuchField, Content::One(Value::Int(1))))
        )
    );
    let text = Content::One(Value::Text(String::from_str(alloc, "x")?));
    let found = set(&schema, &mut message, 1, text);
    assert!(rt;
        matches!(
            found,
            Err((DynError::WrongKind, Content::One(Value::Text(_))))
        )
    );
    let found = set(&schema, &mut message, 1, one(2147483648));
    assert!(rt;
        matches!(
            found,
            Err((DynError::OutOfRange, Content::One(Value::Int(2147483648))))
        )
    );
    assert!(rt; written(alloc, &schema, &message)?.is_empty());
    Ok(())
}

#[test]
fn a_key_twice(rt: HostRuntime) -> Result<(), Fail> {
    let alloc = rt.alloc();
    let schema = schema(alloc)?;
    let mut message = Message::empty(alloc, M);
    let entries = vec![in alloc;
        (Value::Int(1), Value::Int(1)),
        (Value::Int(1), Value::Int(0)),
    ]?;
    let found = set(&schema, &mut message, 4, Content::Map(entries));
    assert!(rt; matches!(found, Err((DynError::DuplicateKey, Content::Map(_)))));
    Ok(())
}

#[test]
fn two_members_of_a_oneof(rt: HostRuntime) -> Result<(), Fail> {
    let alloc = rt.alloc();
    let schema = schema(alloc)?;
    if !schema.has(M) {
        return Err("the schema has no type".into());
    }
    let contents = vec![in alloc; (2, one(7)), (3, one(8))]?;
    let found = Message::whole(alloc, &schema, M, contents);
    assert!(rt; matches!(found, Err(DynError::OneofTwice)));
    let mut message = Message::empty(alloc, M);
    assert!(rt; set(&schema, &mut message, 2, one(7)).is_ok());
    assert!(rt; set(&schema, &mut message, 3, one(8)).is_ok());
    assert!(rt; written(alloc, &schema, &message)?.as_slice() == [0x18, 0x08].as_slice());
    Ok(())
}

#[test]
fn a_zero_takes_the_content_out(rt: HostRuntime) -> Result<(), Fail> {
    let alloc = rt.alloc();
    let schema = schema(alloc)?;
    let mut message = Message::empty(alloc, M);
    assert!(rt; set(&schema, &mut message, 1, one(5)).is_ok());
    assert!(rt; set(&schema, &mut message, 1, one(0)).is_ok());
    assert!(rt; written(alloc, &schema, &message)?.is_empty());
    Ok(())
}

/// A list that is read is matched as one that is set.
#[test]
fn a_list_that_is_read(rt: HostRuntime) -> Result<(), Fail> {
    let alloc = rt.alloc();
    let Some(schema) = kit_schemas::schema(alloc, "M: repeated int32 a=1")? else {
        return Err("the type has no schema".into());
    };
    if !schema.has(M) {
        return Err("the schema has no type".into());
    }
    let Ok(message) = pg_dyn::decode(alloc, &schema, M, &[0x0a, 0x02, 0x01, 0x07], 100) else {
        return Err("the bytes are no message".into());
    };
    let Some(Content::Many(values)) = message.get(1) else {
        return Err("the field has no list".into());
    };
    assert!(rt; matches!(values.as_slice(), [Value::Int(1), Value::Int(7)]));
    Ok(())
}
