//! Setting a content that is known to be one of its field.

ghost use Rattle.std.specs.Prelude.{◌≡◌, OnOk, IfErr};
ghost use Rattle.pg_schema.specs.Parts.{shape_of};
ghost use Rattle.pg_dyn.specs.setting.ContentFaults.{IsContentOf};
ghost use Rattle.pg_dyn.specs.fitting.Fits.{Fits};
ghost use Rattle.pg_dyn.specs.message.Kept.{type_of};
ghost use Rattle.pg_dyn.specs.setting.Setting.{IsSetTo};

use crate::message::{Content, Message};
use pg_schema::Schema;

impl Message {
    /// Sets a content that is one of the field with the number, as each content is that `set`
    /// takes, but without looking at its items: of a message inside that is known to fit it costs
    /// nothing.
    ///
    /// Refused only where memory is; then the message is unchanged and the content comes back as it
    /// was handed in.
    pub fn put(&mut self, schema: &Schema, number: u32, content: Content) -> Result<(), Content>
        requires fits { Fits (shape_of schema.now) self.old }
        requires content { IsContentOf (shape_of schema.now) (type_of self.old) number content }
        ensures ok { OnOk result (IsSetTo (shape_of schema.now) number content self.old self.new) }
        ensures fits { OnOk result (Fits (shape_of schema.now) self.new) }
        ensures refused { IfErr result (λ back. (back ≡ content) × (self.new ≡ self.old)) }
    {
        // What holds of every schema.
        schema.parts();
        let Some(field) = schema.field(self.type_id, number) else {
            // The content is one of a field.
            unreachable!();
        };
        let members = self.held_siblings(schema, field);
        self.put_content(schema, field, content)?;
        self.replace_siblings(schema, field, members);
        Ok(())
    }
}
