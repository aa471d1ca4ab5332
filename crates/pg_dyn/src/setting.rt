//! Setting one field of a message.

pub(crate) mod check;
mod filling;
mod keys;
mod normalizing;
mod oneof_hints;
mod oneof_siblings;
mod putting;

ghost use Rattle.std.specs.Prelude.{◌≡◌, OnOk, IfErr, Some};
ghost use Rattle.pg_schema.specs.Parts.{field_shape, shape_of};
ghost use Rattle.pg_schema.specs.Shape.{field_at, fields};
ghost use Rattle.pg_dyn.specs.declared.error.DynError.TheVariants as errors;
ghost use Rattle.pg_dyn.specs.setting.ContentFaults.{ContentFault, HasKeyTwice, HasNoEarlyFault, IsContentOf, MayRefuseFor};
ghost use Rattle.pg_dyn.specs.fitting.Fits.{Fits};
ghost use Rattle.pg_dyn.specs.message.Kept.{type_of};
ghost use Rattle.pg_dyn.specs.setting.Setting.{IsSetTo};

use self::check::check_content;
use self::keys::check_keys;
use crate::error::DynError;
use crate::field_list::{put, remove, reserve};
use crate::message::{Content, Message};
use pg_schema::{Field, Schema};

impl Message {
    /// Sets the content of the field with the number, in place of the one that is there. A zero
    /// in a field without presence, an empty list and an empty map take the content out. Setting a
    /// member of a oneof takes out the other members (proto3 language guide, "Field Presence",
    /// "Oneof"). `Text` and `Bytes` are one kind here: a string field takes bytes that are UTF-8
    /// and keeps them as `Text`, and a bytes field takes a string and keeps it as `Bytes`. A map's
    /// entries may come in any order, and are kept by rising key. A message inside has to fit as it
    /// is: it holds a string just where its field is one of strings.
    ///
    /// Refused, the message is unchanged and the content comes back as it was handed in. The errors
    /// are `NoSuchField`, `WrongKind`, `OutOfRange`, `NotUtf8`, `DuplicateKey`, of several the
    /// first in this order, and `Memory`, which comes only where none of the first four does.
    pub fn set(
        &mut self,
        schema: &Schema,
        number: u32,
        content: Content,
    ) -> Result<(), (DynError, Content)>
        requires fits { Fits (shape_of schema.now) self.old }
        ensures ok { OnOk result (IsSetTo (shape_of schema.now) number content self.old self.new) }
        ensures fits { OnOk result (Fits (shape_of schema.now) self.new) }
        ensures content { OnOk result
            (IsContentOf (shape_of schema.now) (type_of self.old) number content) }
        ensures refused { IfErr result
            (λ e. (e.1 ≡ content) × (self.new ≡ self.old)
            × MayRefuseFor (ContentFault (shape_of schema.now) (type_of self.old) number content)
            e.0) }
        ensures lacking { IfErr result (λ e. e.0 ≡ errors.Memory → HasNoEarlyFault
            (ContentFault (shape_of schema.now) (type_of self.old) number content)) }
    {
        // What holds of every schema.
        schema.parts();
        let field = match check_content(schema, self.type_id, number, &content) {
            Ok(field) => field,
            Err(error) => return Err((error, content)),
        };
        let alloc = *self.fields.allocator();
        if let Err(error) = check_keys(alloc, &content) {
            return Err((error, content));
        }
        let members = self.held_siblings(schema, field);
        match self.put_content(schema, field, content) {
            Ok(()) => {
                self.replace_siblings(schema, field, members);
                Ok(())
            }
            Err(back) => Err((DynError::Memory, back)),
        }
    }
}

impl Message {
    ghost use Rattle.pg_schema.specs.Invariant.{IsSchema};
    ghost use Rattle.pg_dyn.specs.message.Replacing.{with_parts, without_siblings};
    ghost use Rattle.pg_dyn.specs.message.Seen.{content_seen};
    ghost use Rattle.pg_dyn.specs.setting.Setting.{normalized};
    ghost use Rattle.pg_dyn.specs.fitting.ContentFits.{ItemsFit};

    /// Puts a content that is one of the field, in place of the one that is there, whatever
    /// is in other members of the field's oneof. Where memory is refused, the content comes
    /// back as it was handed in.
    pub(crate) fn put_content(
        &mut self,
        schema: &Schema,
        field: &Field,
        content: Content,
    ) -> Result<(), Content>
        requires is_schema { IsSchema schema.now }
        requires found { field_at (fields (shape_of schema.now) (type_of self.old)) field.now.number
            ≡ Some (field_shape field.now) }
        requires items { ItemsFit (shape_of schema.now) field.now.presence field.now.element
            content }
        requires once { HasKeyTwice content → ⊥ }
        ensures ok { OnOk result (self.new
            ≡ with_parts field.now.number
            (normalized (field_shape field.now) (content_seen field.now.number content)) self.old) }
        ensures fits { OnOk result (Fits (shape_of schema.now)
            (without_siblings (fields (shape_of schema.now) (type_of self.old))
            (field_shape field.now) self.old)
            → Fits (shape_of schema.now)
            (without_siblings (fields (shape_of schema.now) (type_of self.old))
            (field_shape field.now) self.new)) }
        ensures err { IfErr result (λ back. (back ≡ content) × (self.new ≡ self.old)) }
    {
        if content.is_nothing(field) {
            remove(&mut self.fields, field.number);
            return Ok(());
        }
        if reserve(&mut self.fields, field.number).is_err() {
            return Err(content);
        }
        put(
            &mut self.fields,
            field.number,
            content.normalized(schema, field),
        );
        Ok(())
    }
}
