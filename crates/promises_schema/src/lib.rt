//! The promises of `pg_schema`, said again of calls of it: the edits of `must-fail` turn each
//! answer, and every one must be refused.
#![tactic(auto)]

ghost use Rattle.std.specs.Prelude.{◌≡◌, ◌<◌, ◌↔◌, Some, length, map, option_map, IsTrue, IfOk, IfErr, IfSome, OnOk};
ghost use Rattle.std.specs.Option.{option_copied};
ghost use Rattle.std.specs.String.{string_bytes};
ghost use Rattle.pg_schema.specs.declared.error.PartsError.TheVariants.{Invariant};
ghost use Rattle.pg_schema.specs.declared.parts.field.TypeId.{TypeId};
ghost use Rattle.pg_schema.specs.Codes.{code_of};
ghost use Rattle.pg_schema.specs.rules.DeclaredNames.{entry_name, within};
ghost use Rattle.pg_schema.specs.Invariant.{IsSchema};
ghost use Rattle.pg_schema.specs.JsonName.{default_json_name};
ghost use Rattle.pg_schema.specs.Parts.{enum_at, field_shape, name_at, shape_of};
ghost use Rattle.pg_schema.specs.Lookups.{field_of, type_at};
ghost use Rattle.pg_schema.specs.ScalarWords.{scalar_of};
ghost use Rattle.pg_schema.specs.Shape.{field_at, fields, is_map, is_packable};
ghost use Rattle.pg_schema.specs.rules.Sound.{IsSound};
ghost use Rattle.pg_schema.specs.ErrorText as spec;

use pg_schema::{
    Element, EnumId, EnumType, Field, MessageType, Parts, PartsError, Presence, Scalar, Schema,
    TypeId,
};
use std::alloc::{AllocError, Global};

/// What `Schema::from_parts` answers.
pub fn from_parts(alloc: Global, parts: Parts) -> Result<Schema, (PartsError, Parts)>
    ensures schema { IfOk result (λ schema. schema ≡ parts) }
    ensures checked { OnOk result (IsSchema parts) }
{
    Schema::from_parts(alloc, parts)
}

/// What `Schema::from_parts` refuses.
pub fn from_parts_refused(alloc: Global, bad: Parts) -> Result<Schema, (PartsError, Parts)>
    ensures back { IfErr result (λ refused. refused.1 ≡ bad) }
    ensures broken { IfErr result (λ refused. refused.0 ≡ Invariant → IsSound bad → ⊥) }
{
    Schema::from_parts(alloc, bad)
}

/// What `Schema::of_sound` answers. Only an edit takes the other parts.
pub fn of_sound(alloc: Global, parts: Parts, other: Parts) -> Result<Schema, AllocError>
    requires sound { IsSound parts }
    requires other { IsSound other }
    ensures { IfOk result (λ schema. schema ≡ parts) }
{
    let _other = other;
    Schema::of_sound(alloc, parts)
}

/// What `Schema::parts` answers. Only an edit reads the other schema.
pub fn parts<'a>(schema: &'a Schema, _other: &'a Schema) -> &'a Parts
    ensures parts { result.now ≡ schema.now }
    ensures checked { IsSchema schema.now }
{
    schema.parts()
}

/// What `Schema::has` answers.
pub fn has(schema: &Schema, id: TypeId) -> bool
    ensures { IsTrue result ↔ (id.index < length (shape_of schema.now)) }
{
    schema.has(id)
}

/// What `Schema::message` answers.
pub fn message(schema: &Schema, name: &str) -> Option<TypeId>
    ensures { (id : TypeId) → (result ≡ Some id)
        ↔ (name_at schema.now.types.items id ≡ Some name.now) }
{
    schema.message(name)
}

/// What `Schema::message_type` answers.
pub fn message_type(schema: &Schema, id: TypeId) -> Option<&MessageType>
    ensures exact { option_copied result ≡ type_at schema.now id }
    ensures fields { IfSome result (λ t. map field_shape t.now.fields.items
        ≡ fields (shape_of schema.now) id) }
{
    schema.message_type(id)
}

/// What `Schema::enum_type` answers.
pub fn enum_type(schema: &Schema, id: EnumId) -> Option<&EnumType>
    ensures { option_copied result ≡ enum_at schema.now id }
{
    schema.enum_type(id)
}

/// What `Schema::field` answers.
pub fn field(schema: &Schema, id: TypeId, number: u32) -> Option<&Field>
    ensures exact { option_copied result ≡ field_of schema.now id number }
    ensures shape { option_map field_shape (option_copied result)
        ≡ field_at (fields (shape_of schema.now) id) number }
{
    schema.field(id, number)
}

/// What `Scalar::named` answers.
pub fn scalar_named(word: &str) -> Option<Scalar>
    ensures { result ≡ scalar_of word.now }
{
    Scalar::named(word)
}

/// What `Element::is_packable` answers.
pub fn is_packable(element: Element) -> bool
    ensures { result ≡ is_packable element }
{
    element.is_packable()
}

/// What `Presence::is_map` answers.
pub fn is_map(presence: Presence) -> bool
    ensures { result ≡ is_map presence }
{
    presence.is_map()
}

/// What `default_json_name` answers.
pub fn default_json_name(alloc: Global, name: &str) -> Result<String, AllocError>
    ensures { IfOk result (λ text. string_bytes text ≡ default_json_name name.now) }
{
    pg_schema::default_json_name(alloc, name)
}

/// What `full_name` answers. Only an edit reads the other name.
pub fn full_name(alloc: Global, scope: &str, name: &str, _other: &str) -> Result<String, AllocError>
    ensures { IfOk result (λ full. string_bytes full ≡ within scope.now name.now) }
{
    pg_schema::full_name(alloc, scope, name)
}

/// What `entry_name` answers.
pub fn entry_name(alloc: Global, name: &str) -> Result<String, AllocError>
    ensures { IfOk result (λ entry. string_bytes entry ≡ entry_name name.now) }
{
    pg_schema::entry_name(alloc, name)
}

/// What `PartsError::code` answers.
pub fn code(error: PartsError) -> Option<u16>
    ensures { result ≡ code_of error }
{
    error.code()
}

/// What the `Display` of `PartsError` writes.
pub fn error_text(alloc: Global, error: PartsError) -> Result<String, AllocError>
    ensures { IfOk result (λ text. string_bytes text ≡ spec.error_text error) }
{
    format!(in alloc; "{error}")
}
