//! Making a message of all its contents at once.

ghost use Rattle.std.specs.Prelude.{◌≡◌, ◌⊎◌, ℕ, ◌<◌, length, false, nat_eq, OnOk, IfOk, IfErr, IsTrue};
ghost use Rattle.std.specs.List.{AllByRecursion};
ghost use Rattle.std.specs.List.Sorted.{IsNonDecreasingBy};
ghost use Rattle.pg_schema.specs.Invariant.{IsSchema};
ghost use Rattle.pg_schema.specs.Parts.{shape_of};
ghost use Rattle.pg_schema.specs.Shape.{field_at, fields};
ghost use Rattle.pg_dyn.specs.declared.error.DynError.TheVariants as errors;
ghost use Rattle.pg_dyn.specs.setting.ContentFaults.{AnyOf, ContentFault, ContentsFault, FirstOf, HasKeyTwice, HasNoEarlyFault, HasNoFault, MayRefuseFor, PassTwice};
ghost use Rattle.pg_dyn.specs.fitting.ContentFits.{NoneSiblings};
ghost use Rattle.pg_dyn.specs.fitting.Fits.{Fits};
ghost use Rattle.pg_dyn.specs.message.Seen.{Rises};
ghost use Rattle.pg_dyn.specs.setting.Setting.{IsWhole};
ghost use Rattle.pg_dyn.specs.inner.Reported.{TakesContent, Reports};

use crate::error::DynError;
use crate::message::{Content, Message};
use crate::oneofs::each_oneof_once;
use crate::setting::check::{check_content, lower};
use crate::setting::keys::check_keys;
use pg_schema::{Schema, TypeId};
use std::alloc::Global;

// What is wrong with one content, but for keys that are there twice.
fn check_one(schema: &Schema, type_id: TypeId, one: &(u32, Content)) -> Result<(), DynError>
    requires { IsSchema schema.now }
    ensures { Reports (TakesContent (shape_of schema.now) type_id one.now)
        (ContentFault (shape_of schema.now) type_id one.now.0 one.now.1) result }
{
    match check_content(schema, type_id, one.0, &one.1) {
        Ok(_) => Ok(()),
        Err(error) => Err(error),
    }
}

// What is wrong with the contents, each by itself. The error is the lowest of all contents.
fn check_contents(
    schema: &Schema,
    type_id: TypeId,
    contents: &[(u32, Content)],
) -> Result<(), DynError>
    requires { IsSchema schema.now }
    ensures { Reports (AllByRecursion (TakesContent (shape_of schema.now) type_id) contents.now)
        (FirstOf (λ c. ContentFault (shape_of schema.now) type_id c.0 c.1) contents.now)
        result }
{
    let mut reported = Ok(());
    for one in contents {
        reported = lower(reported, check_one(schema, type_id, one));
    }
    reported
}

// Whether no key is twice in one of the contents.
fn check_all_keys(
    alloc: Global,
    schema: &Schema,
    type_id: TypeId,
    contents: &[(u32, Content)],
) -> Result<(), DynError>
    requires schema { IsSchema schema.now }
    requires taken { AllByRecursion (TakesContent (shape_of schema.now) type_id) contents.now }
    ensures ok { OnOk result (AllByRecursion (λ c. HasKeyTwice c.1 → ⊥) contents.now) }
    ensures err { IfErr result (λ e. (e ≡ errors.Memory)
        ⊎ ((e ≡ errors.DuplicateKey) × AnyOf (λ c. HasKeyTwice c.1) contents.now)) }
{
    for (_, content) in contents {
        if let Err(error) = check_keys(alloc, content) {
            return Err(error);
        }
    }
    Ok(())
}

// Whether two of the contents are of one number.
fn has_number_twice(contents: &[(u32, Content)]) -> bool
    requires { IsNonDecreasingBy (λ c. c.0) contents.now }
    ensures twice { IsTrue result → (number : ℕ) × PassTwice (λ c. nat_eq c.0 number) contents.now }
    ensures rises { result ≡ false → Rises contents.now }
{
    for next in 1..contents.len() {
        if contents[next - 1].0 == contents[next].0 {
            return true;
        }
    }
    false
}

impl Message {
    ghost use Rattle.std.specs.Prelude.{Some};
    ghost use Rattle.pg_schema.specs.Shape.{FieldShape};
    ghost use Rattle.pg_dyn.specs.message.Kept.{type_of};
    ghost use Rattle.pg_dyn.specs.message.Replacing.{with_parts, without_siblings};
    ghost use Rattle.pg_dyn.specs.message.Seen.{content_seen};
    ghost use Rattle.pg_dyn.specs.setting.Setting.{normalized};

    // Puts a content that its field takes; none may be in another member of the field's oneof.
    fn add(&mut self, schema: &Schema, number: u32, content: Content) -> Result<(), DynError>
        requires is_schema { IsSchema schema.now }
        requires taken { TakesContent (shape_of schema.now) (type_of self.old) (number, content) }
        requires once { HasKeyTwice content → ⊥ }
        ensures ok { OnOk result ((f : FieldShape)
            → field_at (fields (shape_of schema.now) (type_of self.old)) number ≡ Some f
            → self.new ≡ with_parts number (normalized f (content_seen number content)) self.old) }
        ensures fits { OnOk result ((f : FieldShape)
            → field_at (fields (shape_of schema.now) (type_of self.old)) number ≡ Some f
            → Fits (shape_of schema.now)
            (without_siblings (fields (shape_of schema.now) (type_of self.old)) f self.old)
            → Fits (shape_of schema.now)
            (without_siblings (fields (shape_of schema.now) (type_of self.old)) f self.new)) }
        ensures err { IfErr result (λ e. e ≡ errors.Memory) }
    {
        let Some(field) = schema.field(self.type_id, number) else {
            // A content that is taken has a field.
            unreachable!();
        };
        match self.put_content(schema, field, content) {
            Ok(()) => Ok(()),
            Err(_) => Err(DynError::Memory),
        }
    }

    // The message of contents by rising numbers, of which nothing is wrong.
    fn filled(
        alloc: Global,
        schema: &Schema,
        type_id: TypeId,
        contents: Vec<(u32, Content)>,
    ) -> Result<Message, DynError>
        requires schema { IsSchema schema.now }
        requires type_id { type_id.index < length (shape_of schema.now) }
        requires rises { Rises contents.items }
        requires taken { AllByRecursion
            (TakesContent (shape_of schema.now) type_id) contents.items }
        requires once { AllByRecursion (λ c. HasKeyTwice c.1 → ⊥) contents.items }
        requires apart { NoneSiblings (fields (shape_of schema.now) type_id) contents.items }
        ensures ok { IfOk result (IsWhole (shape_of schema.now) type_id contents.items) }
        ensures fits { IfOk result (Fits (shape_of schema.now)) }
        ensures err { IfErr result (λ e. e ≡ errors.Memory) }
    {
        let mut message = Message::empty(alloc, type_id);
        for (number, content) in contents {
            match message.add(schema, number, content) {
                Ok(()) => {}
                Err(error) => return Err(error),
            }
        }
        Ok(message)
    }

    /// The message of the type with just these contents, each with the number of its field, in any
    /// order. A zero in a field without presence, an empty list and an empty map leave none,
    /// strings and bytes are one kind, and a map's entries may come in any order, as for `set`.
    ///
    /// The errors are `NoSuchField`, `WrongKind`, `OutOfRange`, `NotUtf8`, `OneofTwice` where two
    /// contents are of one number or of members of one oneof (proto3 language guide, "Oneof"),
    /// `DuplicateKey`, of several the first in this order, whichever content has it, and `Memory`,
    /// which comes only where none of the first four does. The contents are then dropped.
    pub fn whole(
        alloc: Global,
        schema: &Schema,
        type_id: TypeId,
        contents: Vec<(u32, Content)>,
    ) -> Result<Message, DynError>
        requires type_id { type_id.index < length (shape_of schema.now) }
        ensures ok { IfOk result (IsWhole (shape_of schema.now) type_id contents.items) }
        ensures fits { IfOk result (Fits (shape_of schema.now)) }
        ensures accepted { OnOk result
            (HasNoFault (ContentsFault (shape_of schema.now) type_id contents.items)) }
        ensures refused { IfErr result
            (MayRefuseFor (ContentsFault (shape_of schema.now) type_id contents.items)) }
        ensures lacking { IfErr result (λ e. e ≡ errors.Memory → HasNoEarlyFault
            (ContentsFault (shape_of schema.now) type_id contents.items)) }
    {
        // What holds of every schema.
        schema.parts();
        check_contents(schema, type_id, &contents)?;
        let mut sorted = contents;
        sorted.sort_by_key(|content| content.0)?;
        if has_number_twice(&sorted) {
            return Err(DynError::OneofTwice);
        }
        if !each_oneof_once(schema, type_id, &sorted) {
            return Err(DynError::OneofTwice);
        }
        check_all_keys(alloc, schema, type_id, &sorted)?;
        Message::filled(alloc, schema, type_id, sorted)
    }
}
