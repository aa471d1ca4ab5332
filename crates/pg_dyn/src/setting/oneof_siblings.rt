//! Setting a member of a oneof takes out the other members.

ghost use Rattle.std.specs.Prelude.{◌≡◌, filter, map, not};
ghost use Rattle.pg_schema.specs.Parts.{field_shape, shape_of};
ghost use Rattle.pg_schema.specs.Shape.{fields};
ghost use Rattle.pg_dyn.specs.reading.Content.{is_sibling};
ghost use Rattle.pg_dyn.specs.message.Replacing.{is_sibling_number};
ghost use Rattle.pg_dyn.specs.message.Seen.{Rises};

use crate::field_list::{holds, remove};
use crate::message::{Content, Message};
use crate::oneofs::is_same_oneof;
use crate::setting::oneof_hints::{last_set_members, last_set_sibling, note};
use pg_schema::{Field, Schema, TypeId};
use std::slice;

// Whether the other field is another member of the field's oneof.
fn is_other_member(field: &Field, other: &Field) -> bool
    ensures { result ≡ is_sibling (field_shape field.now) (field_shape other.now) }
{
    is_same_oneof(field.oneof, other.oneof) && field.number != other.number
}

/// Whether the number is that of another member of the field's oneof.
pub(crate) fn is_sibling(schema: &Schema, type_id: TypeId, field: &Field, number: u32) -> bool
    ensures { result ≡ is_sibling_number (fields (shape_of schema.now) type_id)
        (field_shape field.now) number }
{
    // What holds of every schema.
    schema.parts();
    match schema.field(type_id, number) {
        Some(other) => is_other_member(field, other),
        None => false,
    }
}

// Takes out the contents of the other members of the field's oneof, found by a look-up of each
// content.
fn clear_other_members(
    contents: &mut Vec<(u32, Content)>,
    schema: &Schema,
    type_id: TypeId,
    field: &Field,
)
    ensures { contents.new.items ≡ filter
        (λ c. not (is_sibling_number (fields (shape_of schema.now) type_id)
        (field_shape field.now) c.0)) contents.old.items }
{
    contents.retain(|content| !is_sibling(schema, type_id, field, content.0));
}

// The same, by the fields of the type: a comparison of each, and a look-up of each member.
fn remove_members(contents: &mut Vec<(u32, Content)>, members: &[Field], field: &Field)
    requires { Rises contents.old.items }
    ensures { contents.new.items ≡ filter
        (λ c. not (is_sibling_number (map field_shape members.now) (field_shape field.now) c.0))
        contents.old.items }
{
    for other in members {
        if !is_other_member(field, other) {
            continue;
        }
        remove(contents, other.number);
    }
}

// The same, by the fields of the type but where the contents are far fewer.
fn remove_siblings(
    contents: &mut Vec<(u32, Content)>,
    schema: &Schema,
    type_id: TypeId,
    field: &Field,
)
    requires { Rises contents.old.items }
    ensures { contents.new.items ≡ filter
        (λ c. not (is_sibling_number (fields (shape_of schema.now) type_id)
        (field_shape field.now) c.0)) contents.old.items }
{
    if let Some(found) = schema.message_type(type_id) {
        if found.fields.len() / 16 < contents.len() {
            remove_members(contents, &found.fields, field);
            return;
        }
    }
    clear_other_members(contents, schema, type_id, field);
}

impl Message {
    ghost use Rattle.std.specs.Prelude.{Some, IfSome};
    ghost use Rattle.pg_schema.specs.Invariant.{IsSchema};
    ghost use Rattle.pg_schema.specs.Shape.{field_at};
    ghost use Rattle.pg_dyn.specs.fitting.Fits.{Fits};
    ghost use Rattle.pg_dyn.specs.message.Kept.{type_of};
    ghost use Rattle.pg_dyn.specs.message.Replacing.{without_siblings};

    /// Takes out the contents of the other members of the field's oneof (proto3 language guide,
    /// "Oneof"). Where the field is in none, that costs nothing.
    pub(crate) fn clear_siblings(&mut self, schema: &Schema, field: &Field)
        ensures { self.new ≡ without_siblings (fields (shape_of schema.now) (type_of self.old))
            (field_shape field.now) self.old }
    {
        let type_id = self.type_id;
        match field.oneof {
            Some(_) => remove_siblings(&mut self.fields, schema, type_id, field),
            None => {}
        }
    }

    /// Fields among which is each other member of the field's oneof that the message holds, where
    /// that is known without going over the type's fields: none where it holds the field itself,
    /// else the member that was noted last.
    pub(crate) fn held_siblings<'a>(&self, schema: &'a Schema, field: &Field) -> Option<&'a [Field]>
        requires is_schema { IsSchema schema.now }
        requires fits { Fits (shape_of schema.now) self.now }
        requires found { field_at (fields (shape_of schema.now) (type_of self.now)) field.now.number
            ≡ Some (field_shape field.now) }
        ensures { IfSome result (λ members. without_siblings (map field_shape members.now)
            (field_shape field.now) self.now
            ≡ without_siblings (fields (shape_of schema.now) (type_of self.now))
            (field_shape field.now) self.now) }
    {
        let type_id = self.type_id;
        let number = field.number;
        if holds(&self.fields, number) {
            return Some(&[]);
        }
        let other = last_set_sibling(&self.fields, &self.last_set, schema, type_id, field)?;
        let member = schema.field(type_id, other)?;
        Some(slice::from_ref(member))
    }

    // Takes out the contents of the other members of the field's oneof that are among these fields.
    fn clear_members(&mut self, members: &[Field], field: &Field)
        ensures { self.new ≡ without_siblings (map field_shape members.now)
            (field_shape field.now) self.old }
    {
        remove_members(&mut self.fields, members, field);
    }

    // Notes the members of all oneofs among the contents, where none is noted yet: those of a
    // message that was read.
    fn note_all(&mut self, schema: &Schema)
        ensures { self.new ≡ self.old }
    {
        if self.last_set.is_empty() {
            let alloc = *self.fields.allocator();
            self.last_set = last_set_members(alloc, schema, self.type_id, &self.fields);
        }
    }

    /// Takes out the contents of the other members of the field's oneof, which are among the fields
    /// that are given, if any are, and notes the field as the one that was set last.
    pub(crate) fn replace_siblings(
        &mut self,
        schema: &Schema,
        field: &Field,
        members: Option<&[Field]>,
    )
        requires { IfSome members (λ members. without_siblings (map field_shape members.now)
            (field_shape field.now) self.old
            ≡ without_siblings (fields (shape_of schema.now) (type_of self.old))
            (field_shape field.now) self.old) }
        ensures { self.new ≡ without_siblings (fields (shape_of schema.now) (type_of self.old))
            (field_shape field.now) self.old }
    {
        match members {
            Some(members) => self.clear_members(members, field),
            None => {
                self.clear_siblings(schema, field);
                if field.oneof.is_some() {
                    self.note_all(schema);
                }
            }
        }
        note(&mut self.last_set, self.fields.len(), field);
    }
}
