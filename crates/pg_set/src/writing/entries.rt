//! Messages of map fields' entry types. Each call is refused only where memory is.

ghost use Rattle.std.specs.Prelude.{◌≡◌, ◌<◌, ◌^◌, ◌++◌, ◌∷◌, [], IfOk, OnOk, codes};
ghost use Rattle.pg_schema.specs.declared.parts.field.Element.TheVariants as elements;
ghost use Rattle.pg_schema.specs.declared.parts.field.Presence.TheVariants as presences;
ghost use Rattle.pg_set.specs.inner.writing.Drafts.{IsDraftOf, listed};
ghost use Rattle.pg_set.specs.writing.Entries.{entries, entry_field, entry_items};
ghost use Rattle.pg_set.specs.inner.Lent.{lent};
ghost use Rattle.pg_set.specs.writing.Places.{declared_in};

use crate::descriptor::places::{FIELD, MESSAGE, MESSAGE_OPTIONS};
use crate::descriptor::proto::{
    FIELD_JSON_NAME, FIELD_LABEL, FIELD_NAME, FIELD_NUMBER, FIELD_TYPE, FIELD_TYPE_NAME,
    MESSAGE_FIELD, MESSAGE_MAP_ENTRY, MESSAGE_NAME,
};
use crate::descriptor::{LABEL, NUMBER, TYPE, proto};
use crate::writing::draft::{Children, Draft, Writer};
use crate::writing::fields::{element_code, element_name};
use pg_schema::{Element, Field, Presence, Scalar, entry_name};
use std::alloc::AllocError;

// The message of a field of an entry type.
fn field_message(
    writer: &Writer<'_>,
    name: &str,
    number: u32,
    element: Element,
) -> Result<Draft, AllocError>
    requires { number < 2 ^ 31 }
    ensures { IfOk result (IsDraftOf FIELD
        (entry_field (declared_in writer.now) name.now number element)) }
{
    let mut draft = writer.draft(FIELD);
    draft.put_text(FIELD_NAME, name)?;
    draft.put_count(FIELD_NUMBER, NUMBER, number)?;
    draft.put_count(FIELD_LABEL, LABEL, 1)?;
    draft.put_count(FIELD_TYPE, TYPE, element_code(element))?;
    draft.put_maybe_text(FIELD_TYPE_NAME, element_name(writer, element)?)?;
    draft.put_text(FIELD_JSON_NAME, name)?;
    Ok(draft)
}

// The key's field and the value's.
fn key_and_value(writer: &Writer<'_>, key: Scalar, value: Element) -> Result<Children, AllocError>
    ensures { IfOk result (λ made. made ≡ listed FIELD
        (entry_field (declared_in writer.now) (codes "key") 1 (elements.Scalar key)
        ∷ entry_field (declared_in writer.now) (codes "value") 2 value ∷ [])) }
{
    let mut made = Children::with_capacity(writer.alloc, FIELD, 2)?;
    made.push(field_message(writer, "key", 1, Element::Scalar(key))?)?;
    made.push(field_message(writer, "value", 2, value)?)?;
    Ok(made)
}

// The message of a map field's entry type.
fn entry_message(writer: &Writer<'_>, field: &Field, key: Scalar) -> Result<Draft, AllocError>
    requires { field.now.presence ≡ presences.Map key }
    ensures of_type { IfOk result (λ draft. draft.type ≡ MESSAGE) }
    ensures items { IfOk result (λ draft. draft.items ∷ []
        ≡ entry_items (declared_in writer.now) field.now) }
{
    let mut draft = writer.draft(MESSAGE);
    draft.put_text(MESSAGE_NAME, &entry_name(writer.alloc, &field.name)?)?;
    draft.put_children(MESSAGE_FIELD, key_and_value(writer, key, field.element)?)?;
    let mut options = writer.draft(MESSAGE_OPTIONS);
    options.put_flag(MESSAGE_MAP_ENTRY, true)?;
    draft.put_child(proto::MESSAGE_OPTIONS, options)?;
    Ok(draft)
}

/// Puts the messages of the fields' entry types after the others, in the order of the fields.
pub(crate) fn push_entries(
    writer: &Writer<'_>,
    made: &mut Children,
    fields: &[&Field],
) -> Result<(), AllocError>
    requires { made.old.type ≡ MESSAGE }
    ensures { OnOk result (made.new ≡ listed MESSAGE
        (made.old.items ++ entries (declared_in writer.now) (lent fields.now))) }
{
    for field in fields {
        if let Presence::Map { key } = field.presence {
            made.push(entry_message(writer, field, key)?)?;
        }
    }
    Ok(())
}
