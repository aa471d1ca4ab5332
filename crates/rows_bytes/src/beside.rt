//! Messages that borrow from bytes, beside messages that own their parts.
use pg_dyn::{
    Content, ContentRef, EntryRef, Message, MessageRef, NumberList, UnknownRecord, Value, ValueRef,
};
use pg_wire::Record;

/// Of a message inside the type alone is looked at: what it holds shows when both are written.
fn is_value(lent: &ValueRef<'_>, owned: &Value) -> bool {
    match lent {
        ValueRef::Int(first) => matches!(owned, Value::Int(second) if first.get() == *second),
        ValueRef::F32(first) => matches!(owned, Value::F32(second) if first == second),
        ValueRef::F64(first) => matches!(owned, Value::F64(second) if first == second),
        ValueRef::Text(first) => matches!(owned, Value::Text(second) if *first == second.as_str()),
        ValueRef::Bytes(first) => {
            matches!(owned, Value::Bytes(second) if *first == second.as_slice())
        }
        ValueRef::Msg(first) => {
            matches!(owned, Value::Msg(second) if first.type_id() == second.type_id())
        }
    }
}

fn is_number(lent: &ValueRef<'_>) -> bool {
    matches!(lent, ValueRef::Int(_) | ValueRef::F32(_) | ValueRef::F64(_))
}

/// Of a list of numbers it is false: that has to be kept as words.
fn are_values(lent: &[ValueRef<'_>], owned: &[Value]) -> bool {
    if lent.len() != owned.len() {
        return false;
    }
    for at in 0..lent.len() {
        if is_number(&lent[at]) || !is_value(&lent[at], &owned[at]) {
            return false;
        }
    }
    true
}

fn are_numbers(lent: &NumberList, owned: &[Value]) -> bool {
    if lent.len() != owned.len() {
        return false;
    }
    for at in 0..lent.len() {
        if !is_value(&lent.get(at), &owned[at]) {
            return false;
        }
    }
    true
}

fn are_entries(lent: &[EntryRef<'_>], owned: &[(Value, Value)]) -> bool {
    if lent.len() != owned.len() {
        return false;
    }
    for at in 0..lent.len() {
        if !is_value(&lent[at].key, &owned[at].0) || !is_value(&lent[at].value, &owned[at].1) {
            return false;
        }
    }
    true
}

fn is_content(lent: &ContentRef<'_>, owned: &Content) -> bool {
    match lent {
        ContentRef::One(first) => matches!(owned, Content::One(second) if is_value(first, second)),
        ContentRef::Many(first) => {
            matches!(owned, Content::Many(second) if are_values(first, second))
        }
        ContentRef::Numbers(first) => {
            matches!(owned, Content::Many(second) if are_numbers(first, second))
        }
        ContentRef::Map(first) => {
            matches!(owned, Content::Map(second) if are_entries(first, second))
        }
    }
}

fn are_contents(lent: &[(u32, ContentRef<'_>)], owned: &[(u32, Content)]) -> bool {
    if lent.len() != owned.len() {
        return false;
    }
    for at in 0..lent.len() {
        if lent[at].0 != owned[at].0 || !is_content(&lent[at].1, &owned[at].1) {
            return false;
        }
    }
    true
}

fn is_record(lent: &Record<'_>, owned: &UnknownRecord) -> bool {
    lent.number == owned.number
        && lent.wire_type == owned.wire_type
        && lent.bytes == owned.bytes.as_slice()
        && lent.bytes.len().checked_sub(lent.body.len()) == Some(owned.body_start)
}

fn are_records(lent: &[Record<'_>], owned: &[UnknownRecord]) -> bool {
    if lent.len() != owned.len() {
        return false;
    }
    for at in 0..lent.len() {
        if !is_record(&lent[at], &owned[at]) {
            return false;
        }
    }
    true
}

/// Whether both messages show the same: their type, their contents, their unknown records, and
/// whether they are plain.
pub(crate) fn is_alike(lent: &MessageRef<'_>, owned: &Message) -> bool {
    lent.type_id() == owned.type_id()
        && lent.is_plain() == owned.is_plain()
        && are_contents(lent.contents(), owned.contents())
        && are_records(lent.unknown(), owned.unknown())
}
