//! Messages of the written schema as their bytes are made: fields are put by rising number, each as
//! its records after those before. Each call is refused only where memory is.

ghost use Rattle.std.specs.Prelude.{◌≡◌, []};

use crate::descriptor::{FLAG, NUMBER};
use crate::writing::records::{push_bytes, push_word};
use pg_dyn::complement_64;
use pg_schema::{Element, Schema, TypeId};
use std::alloc::{AllocError, Global};
use std::marker::Model;
use std::mem::replace;

/// The schema that is written. Contracts see its parts.
#[derive(Drop)]
pub(crate) struct Writer<'a> {
    pub(crate) alloc: Global,
    pub(crate) source: &'a Schema,
}

impl<'a> Model for Writer<'a> {
    ghost use Rattle.pg_schema.specs.declared.parts.Parts.{Parts};

    ghost Value = { Parts };

    ghost view = { λ w. w.source.now };
}

impl<'a> Writer<'a> {
    ghost use Rattle.std.specs.Prelude.{◌≡◌, ◌<◌};
    ghost use Rattle.pg_set.specs.inner.writing.Drafts.{begun};

    /// Writes that schema.
    pub(crate) fn new(alloc: Global, source: &'a Schema) -> Writer<'a>
        ensures { result ≡ source.now }
    {
        Writer { alloc, source }
    }

    /// The draft of a message of that type, without fields.
    pub(crate) fn draft(&self, type_id: TypeId) -> Draft
        requires { type_id.index < 18 }
        ensures { result ≡ begun type_id }
    {
        Draft {
            alloc: self.alloc,
            type_id,
            last: 0,
            bytes: Vec::new(self.alloc),
        }
    }
}

/// The bytes of a message of the written schema to which fields are put by rising number. Contracts
/// see its type, the number of the last of them, and the parts that the bytes are read as.
#[derive(Drop)]
pub(crate) struct Draft {
    alloc: Global,
    type_id: TypeId,
    last: u32,
    bytes: Vec<u8>,
}

impl Model for Draft {
    ghost use Rattle.pg_set.specs.inner.writing.Drafts.{Drafted, IsDraft, drafted, drafted_code};

    ghost Value = { Drafted };

    ghost coded = { drafted_code };

    ghost view = { λ d. drafted d.type_id d.last d.bytes.items };

    ghost invariant = { λ d. IsDraft d.type_id d.last d.bytes.items };
}

impl Draft {
    ghost use Rattle.std.specs.Prelude.{◌≡◌, ◌≢◌, ◌<◌, ◌^◌, [], IfSome, OnOk, false, map, option_map, true};
    ghost use Rattle.std.specs.List.{AllByRecursion};
    ghost use Rattle.std.specs.String.{string_bytes};
    ghost use Rattle.pg_schema.specs.declared.parts.field.Element.TheVariants as elements;
    ghost use Rattle.pg_set.specs.inner.writing.HeldFields.{IsInt32, IsWhole};
    ghost use Rattle.pg_set.specs.descriptor.Descriptor as descriptor;
    ghost use Rattle.pg_set.specs.inner.writing.Drafts.{Takes, TakesMany, TakesOne, IsEncoded, put, read_items};
    ghost use Rattle.pg_set.specs.writing.Items as rows;

    /// The message's bytes.
    pub(crate) fn into_bytes(self) -> Vec<u8>
        ensures encoded { IsEncoded self.type result.items }
        ensures items { read_items self.type result.items ≡ self.items }
    {
        self.bytes
    }

    // Whether no field has content.
    fn is_empty(&self) -> bool
        ensures empty { result ≡ true → self.now.items ≡ [] }
        ensures filled { result ≡ false → self.now.items ≢ [] }
    {
        self.bytes.is_empty()
    }

    // Leaves the fields up to that number without content.
    fn skip(&mut self, number: u32)
        requires { self.old.last < number }
        ensures { self.new ≡ put number [] self.old }
    {
        self.last = number;
    }

    // Puts a string, of a singular field or after those of a list.
    fn add_text(&mut self, number: u32, value: &str) -> Result<(), AllocError>
        requires { Takes number descriptor.text self.old }
        ensures { OnOk result (self.new ≡ put number (rows.text number value.now) self.old) }
    {
        let mut bytes = taken(&mut self.bytes, self.alloc);
        push_bytes(&mut bytes, number, value.as_bytes())?;
        self.bytes = bytes;
        self.last = number;
        Ok(())
    }

    // Puts a number of an int32 or an enum, or a flag, likewise.
    fn add_number(&mut self, number: u32, element: Element, value: i32) -> Result<(), AllocError>
        requires takes { Takes number element self.old }
        requires whole { IsWhole element value }
        ensures { OnOk result (self.new ≡ put number (rows.whole number value) self.old) }
    {
        let mut bytes = taken(&mut self.bytes, self.alloc);
        push_word(&mut bytes, number, complement_64(i128::from(value)))?;
        self.bytes = bytes;
        self.last = number;
        Ok(())
    }

    // Puts a message with these bytes, likewise.
    fn add_message(&mut self, number: u32, type_id: TypeId, body: &[u8]) -> Result<(), AllocError>
        requires takes { Takes number (elements.Message type_id) self.old }
        requires encoded { IsEncoded type_id body.now }
        ensures { OnOk result (self.new
            ≡ put number (rows.child number (read_items type_id body.now)) self.old) }
    {
        let mut bytes = taken(&mut self.bytes, self.alloc);
        push_bytes(&mut bytes, number, body)?;
        self.bytes = bytes;
        self.last = number;
        Ok(())
    }

    /// Puts a string.
    pub(crate) fn put_text(&mut self, number: u32, value: &str) -> Result<(), AllocError>
        requires { TakesOne number descriptor.text self.old }
        ensures { OnOk result (self.new ≡ put number (rows.text number value.now) self.old) }
    {
        self.add_text(number, value)
    }

    /// Puts a string, where there is one.
    pub(crate) fn put_maybe_text(
        &mut self,
        number: u32,
        value: Option<String>,
    ) -> Result<(), AllocError>
        requires { TakesOne number descriptor.text self.old }
        ensures { OnOk result (self.new
            ≡ put number (rows.maybe_text number (option_map string_bytes value)) self.old) }
    {
        let Some(text) = value else {
            self.skip(number);
            return Ok(());
        };
        self.add_text(number, &text)
    }

    /// Puts a string, where it isn't empty.
    pub(crate) fn put_filled(&mut self, number: u32, value: &str) -> Result<(), AllocError>
        requires { TakesOne number descriptor.text self.old }
        ensures { OnOk result (self.new ≡ put number (rows.filled number value.now) self.old) }
    {
        if value.is_empty() {
            self.skip(number);
            return Ok(());
        }
        self.put_text(number, value)
    }

    /// Puts strings.
    pub(crate) fn put_texts(&mut self, number: u32, texts: &[String]) -> Result<(), AllocError>
        requires { TakesMany number descriptor.text self.old }
        ensures { OnOk result (self.new
            ≡ put number (rows.texts number (map string_bytes texts.now)) self.old) }
    {
        self.skip(number);
        for text in texts {
            self.add_text(number, text)?;
        }
        Ok(())
    }

    /// Puts a number.
    pub(crate) fn put_whole(&mut self, number: u32, value: i32) -> Result<(), AllocError>
        requires { TakesOne number descriptor.number self.old }
        ensures { OnOk result (self.new ≡ put number (rows.whole number value) self.old) }
    {
        self.add_number(number, NUMBER, value)
    }

    /// Puts a number that isn't negative, of an int32 or an enum.
    pub(crate) fn put_count(
        &mut self,
        number: u32,
        element: Element,
        value: u32,
    ) -> Result<(), AllocError>
        requires takes { TakesOne number element self.old }
        requires whole { IsInt32 element }
        requires small { value < 2 ^ 31 }
        ensures { OnOk result (self.new ≡ put number (rows.count number value) self.old) }
    {
        self.add_number(number, element, value as i32)
    }

    /// Puts a number that isn't negative, where there is one.
    pub(crate) fn put_maybe_count(
        &mut self,
        number: u32,
        value: Option<u32>,
    ) -> Result<(), AllocError>
        requires takes { TakesOne number descriptor.number self.old }
        requires small { IfSome value (λ n. n < 2 ^ 31) }
        ensures { OnOk result (self.new ≡ put number (rows.maybe_count number value) self.old) }
    {
        let Some(count) = value else {
            self.skip(number);
            return Ok(());
        };
        self.put_count(number, NUMBER, count)
    }

    /// Puts numbers that aren't negative.
    pub(crate) fn put_counts(&mut self, number: u32, values: &[u32]) -> Result<(), AllocError>
        requires takes { TakesMany number descriptor.number self.old }
        requires small { AllByRecursion (λ n. n < 2 ^ 31) values.now }
        ensures { OnOk result (self.new ≡ put number (rows.counts number values.now) self.old) }
    {
        self.skip(number);
        for value in values {
            self.add_number(number, NUMBER, *value as i32)?;
        }
        Ok(())
    }

    /// Puts a flag.
    pub(crate) fn put_flag(&mut self, number: u32, value: bool) -> Result<(), AllocError>
        requires { TakesOne number descriptor.flag self.old }
        ensures { OnOk result (self.new ≡ put number (rows.flag number value) self.old) }
    {
        if value {
            return self.add_number(number, FLAG, 1);
        }
        self.add_number(number, FLAG, 0)
    }

    /// Puts a flag, where it is set.
    pub(crate) fn put_mark(&mut self, number: u32, value: bool) -> Result<(), AllocError>
        requires { TakesOne number descriptor.flag self.old }
        ensures { OnOk result (self.new ≡ put number (rows.mark number value) self.old) }
    {
        if value {
            return self.put_flag(number, true);
        }
        self.skip(number);
        Ok(())
    }

    /// Puts a flag, where it is stated.
    pub(crate) fn put_stated(&mut self, number: u32, value: Option<bool>) -> Result<(), AllocError>
        requires { TakesOne number descriptor.flag self.old }
        ensures { OnOk result (self.new ≡ put number (rows.stated number value) self.old) }
    {
        let Some(flag) = value else {
            self.skip(number);
            return Ok(());
        };
        self.put_flag(number, flag)
    }

    /// Puts a message.
    pub(crate) fn put_child(&mut self, number: u32, child: Draft) -> Result<(), AllocError>
        requires { TakesOne number (elements.Message child.type) self.old }
        ensures { OnOk result (self.new
            ≡ put number (rows.child number child.items) self.old) }
    {
        self.add_message(number, child.type_id, &child.bytes)
    }

    /// Puts options, where one is stated.
    pub(crate) fn put_options(&mut self, number: u32, options: Draft) -> Result<(), AllocError>
        requires { TakesOne number (elements.Message options.type) self.old }
        ensures { OnOk result (self.new
            ≡ put number (rows.options number options.items) self.old) }
    {
        if options.is_empty() {
            self.skip(number);
            return Ok(());
        }
        self.put_child(number, options)
    }

    /// Puts messages.
    pub(crate) fn put_children(&mut self, number: u32, children: Children) -> Result<(), AllocError>
        requires { TakesMany number (elements.Message children.type) self.old }
        ensures { OnOk result (self.new
            ≡ put number (rows.children number children.items) self.old) }
    {
        self.skip(number);
        for body in &children.bodies {
            self.add_message(number, children.type_id, body)?;
        }
        Ok(())
    }
}

/// Messages of one type of the written schema, by their bytes. Contracts see that type, and the
/// parts of each message.
#[derive(Drop)]
pub(crate) struct Children {
    type_id: TypeId,
    bodies: Vec<Vec<u8>>,
}

impl Model for Children {
    ghost use Rattle.pg_set.specs.inner.writing.Drafts.{AreEncoded, Listed, items_within, listed, listed_code};

    ghost Value = { Listed };

    ghost coded = { listed_code };

    ghost view = { λ c. listed c.type_id (items_within c.type_id c.bodies.items) };

    ghost invariant = { λ c. AreEncoded c.type_id c.bodies.items };
}

impl Children {
    ghost use Rattle.std.specs.Prelude.{◌≡◌, ◌++◌, ◌∷◌, [], IfOk, OnOk};
    ghost use Rattle.pg_set.specs.inner.writing.Drafts.{listed};

    /// No messages of that type.
    pub(crate) fn new(alloc: Global, type_id: TypeId) -> Children
        ensures { result ≡ listed type_id [] }
    {
        Children {
            type_id,
            bodies: Vec::new(alloc),
        }
    }

    /// The same, with room for so many.
    pub(crate) fn with_capacity(
        alloc: Global,
        type_id: TypeId,
        count: usize,
    ) -> Result<Children, AllocError>
        ensures { IfOk result (λ children. children ≡ listed type_id []) }
    {
        Ok(Children {
            type_id,
            bodies: Vec::with_capacity(alloc, count)?,
        })
    }

    /// Puts a message after the others.
    pub(crate) fn push(&mut self, child: Draft) -> Result<(), AllocError>
        requires { child.type ≡ self.old.type }
        ensures { OnOk result (self.new
            ≡ listed self.old.type (self.old.items ++ child.items ∷ [])) }
    {
        self.bodies.push(child.bytes)?;
        Ok(())
    }
}

// Takes the bytes of a draft. It has none until they are put back, so that it is one also where
// memory is refused meanwhile.
fn taken(bytes: &mut Vec<u8>, alloc: Global) -> Vec<u8>
    ensures taken { result.items ≡ bytes.old.items }
    ensures none { bytes.new.items ≡ [] }
{
    replace(bytes, Vec::new(alloc))
}
