//! The lines of a message.

ghost use Rattle.std.specs.Prelude.{◌≡◌, ◌++◌, flat_map, IfOk, OnOk, None, option_map, string_bytes};
ghost use Rattle.std.specs.Option.{option_copied};
ghost use Rattle.pg_dyn.specs.message_ref.Borrowed.{leaf_of};
ghost use Rattle.pg_dyn.specs.word.NumberLists.{numbers_in};
ghost use Rattle.pg_schema.specs.Parts.{shape_of};
ghost use Rattle.pg_schema.specs.Shape.{fields};
ghost use Rattle.pg_show.specs.Lines.{element_of, front, inner};
ghost use Rattle.pg_show.specs.Contents.{content_lines, entry_lines, items_lines, message_lines, record_line, value_lines};
ghost use Rattle.pg_show.specs.Shown.{names_of};

use crate::hex_word::push_hex;
use crate::item::{push_item, push_key, type_of};
use itoa::Buffer;
use pg_dyn::{ContentRef, EntryRef, MessageRef, NumberList, ValueRef};
use pg_schema::{Element, Scalar, Schema, TypeId};
use pg_wire::Record;
use std::alloc::{AllocError, Global};

/// By which type a message is shown, and how far its lines are indented.
#[derive(Clone, Copy)]
pub(crate) struct Level<'a> {
    pub alloc: Global,
    pub schema: &'a Schema,
    pub type_id: TypeId,
    pub indent: &'a str,
}

/// What the lines of a field begin with, and what its items are.
#[derive(Clone, Copy)]
struct Row<'a> {
    alloc: Global,
    schema: &'a Schema,
    indent: &'a str,
    number: u32,
    name: &'a str,
    element: Element,
}

/// The name of the field of the number.
fn name_of(schema: &Schema, type_id: TypeId, number: u32) -> &str
    ensures { result.now ≡ names_of schema.now type_id number }
{
    match schema.field(type_id, number) {
        Some(field) => field.name.as_str(),
        None => "",
    }
}

/// What the items of the field of the number are.
fn element_of(schema: &Schema, type_id: TypeId, number: u32) -> Element
    ensures { result ≡ element_of (fields (shape_of schema.now) type_id) number }
{
    match schema.field(type_id, number) {
        Some(field) => field.element,
        None => Element::Scalar(Scalar::Bytes),
    }
}

/// The indent of the lines of a nested message.
fn further_in(alloc: Global, indent: &str) -> Result<String, AllocError>
    ensures { IfOk result (λ further. string_bytes further ≡ inner indent.now) }
{
    let mut further = String::from_str(alloc, "  ")?;
    further.push_str(indent)?;
    Ok(further)
}

/// Adds the front of a line, up to the item.
fn push_front(
    text: &mut String,
    row: &Row<'_>,
    key: Option<&ValueRef<'_>>,
) -> Result<(), AllocError>
    ensures { OnOk result (string_bytes text.new
        ≡ string_bytes text.old ++ front row.now.indent.now row.now.number row.now.name.now
        (option_map leaf_of (option_copied key.entry))) }
{
    let mut buffer = Buffer::new();
    text.push_str(row.indent)?;
    text.push_str(buffer.format(row.number))?;
    text.push_str(" ")?;
    text.push_str(row.name)?;
    text.push_str(" ")?;
    push_key(row.alloc, text, key)
}

/// Adds the lines of unknown records.
fn push_unknown(
    alloc: Global,
    text: &mut String,
    indent: &str,
    unknown: &[Record<'_>],
) -> Result<(), AllocError>
    ensures { OnOk result (string_bytes text.new
        ≡ string_bytes text.old ++ flat_map (record_line indent.now) unknown.now) }
{
    for found in unknown {
        text.push_str(indent)?;
        text.push_str("unknown ")?;
        push_hex(alloc, text, found.bytes)?;
        text.push_str("\n")?;
    }
    Ok(())
}

/// Adds the line of an item, and after it the lines of a nested message.
#[cycle(lines)]
fn push_value(
    text: &mut String,
    row: &Row<'_>,
    key: Option<&ValueRef<'_>>,
    value: &ValueRef<'_>,
) -> Result<(), AllocError>
    ensures { OnOk result (string_bytes text.new
        ≡ string_bytes text.old ++ value_lines row.now.schema.now row.now.indent.now row.now.number
        row.now.name.now row.now.element (option_map leaf_of (option_copied key.entry)) value.now) }
{
    push_front(text, row, key)?;
    match value {
        ValueRef::Msg(child) => {
            text.push_str("msg\n")?;
            let further = further_in(row.alloc, row.indent)?;
            let level = Level {
                alloc: row.alloc,
                schema: row.schema,
                type_id: type_of(row.element),
                indent: further.as_str(),
            };
            push_message(text, &level, child)
        }
        _ => {
            push_item(row.alloc, text, row.element, value)?;
            text.push_str("\n")
        }
    }
}

/// Adds the lines of the items of a list.
#[cycle(lines)]
fn push_list(text: &mut String, row: &Row<'_>, values: &[ValueRef<'_>]) -> Result<(), AllocError>
    ensures { OnOk result (string_bytes text.new
        ≡ string_bytes text.old ++ flat_map
        (value_lines row.now.schema.now row.now.indent.now row.now.number row.now.name.now
        row.now.element None) values.now) }
{
    for value in values {
        push_value(text, row, None, value)?;
    }
    Ok(())
}

/// Adds the lines of the numbers of a list.
#[cycle(lines)]
fn push_numbers(text: &mut String, row: &Row<'_>, numbers: &NumberList) -> Result<(), AllocError>
    ensures { OnOk result (string_bytes text.new
        ≡ string_bytes text.old ++ flat_map
        (value_lines row.now.schema.now row.now.indent.now row.now.number row.now.name.now
        row.now.element None) (numbers_in numbers.now)) }
{
    for at in 0..numbers.len() {
        let value = numbers.get(at);
        push_value(text, row, None, &value)?;
    }
    Ok(())
}

/// Adds the lines of the entries of a map.
#[cycle(lines)]
fn push_entries(
    text: &mut String,
    row: &Row<'_>,
    entries: &[EntryRef<'_>],
) -> Result<(), AllocError>
    ensures { OnOk result (string_bytes text.new
        ≡ string_bytes text.old ++ flat_map
        (entry_lines row.now.schema.now row.now.indent.now row.now.number row.now.name.now
        row.now.element) entries.now) }
{
    for entry in entries {
        push_value(text, row, Some(&entry.key), &entry.value)?;
    }
    Ok(())
}

/// Adds the lines of a content of the field of the number.
#[cycle(lines)]
fn push_content(
    text: &mut String,
    level: &Level<'_>,
    number: u32,
    content: &ContentRef<'_>,
) -> Result<(), AllocError>
    ensures { OnOk result (string_bytes text.new
        ≡ string_bytes text.old ++ content_lines level.now.schema.now level.now.type_id
        level.now.indent.now (number, content.now)) }
{
    let row = Row {
        alloc: level.alloc,
        schema: level.schema,
        indent: level.indent,
        number,
        name: name_of(level.schema, level.type_id, number),
        element: element_of(level.schema, level.type_id, number),
    };
    match content {
        ContentRef::One(value) => push_value(text, &row, None, value),
        ContentRef::Many(values) => push_list(text, &row, values),
        ContentRef::Numbers(numbers) => push_numbers(text, &row, numbers),
        ContentRef::Map(entries) => push_entries(text, &row, entries),
    }
}

/// Adds the lines of a message: of each field by rising number, of nested messages further in,
/// and then of the unknown records.
#[cycle(lines)]
pub(crate) fn push_message(
    text: &mut String,
    level: &Level<'_>,
    message: &MessageRef<'_>,
) -> Result<(), AllocError>
    ensures { OnOk result (string_bytes text.new
        ≡ string_bytes text.old ++ message_lines level.now.schema.now level.now.type_id
        level.now.indent.now message.now) }
{
    for (number, content) in message.contents() {
        push_content(text, level, *number, content)?;
    }
    push_unknown(level.alloc, text, level.indent, message.unknown())
}
