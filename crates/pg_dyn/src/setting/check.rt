//! Whether a content is one of its field, and what is wrong with it otherwise.

ghost use Rattle.std.specs.Prelude.{◌≡◌, ◌↔◌, ◌⊎◌, ℕ, ◌<◌, ◌≤◌, IfErr, IfOk, IsOk, IsTrue};
ghost use Rattle.std.specs.List.{AllByRecursion};
ghost use Rattle.std.specs.Str.{IsValidUpTo};
ghost use Rattle.pg_schema.specs.Invariant.{IsSchema};
ghost use Rattle.pg_schema.specs.Parts.{field_shape, shape_of};
ghost use Rattle.pg_dyn.specs.declared.error.DynError.TheVariants as errors;
ghost use Rattle.pg_dyn.specs.word.Coding.{InRange, Text, scalar_form};
ghost use Rattle.pg_dyn.specs.setting.ContentFaults.{ContentFault, ElementFault, FieldFault, FirstOf, IsLowest};
ghost use Rattle.pg_dyn.specs.error.Codes.{code_of};
ghost use Rattle.pg_dyn.specs.fitting.ContentFits.{ItemFits, EntryFits, ItemsFit};
ghost use Rattle.pg_dyn.specs.message.Message.{Bytes, F32, F64};
ghost use Rattle.pg_dyn.specs.fitting.ScalarItems.{HoldsBytes, IsFaultOf, IsItemOf};
ghost use Rattle.pg_dyn.specs.inner.Reported.{EntryFault, IsTaken, Reports, reported_code};
ghost use Rattle.pg_dyn.specs.word.WordOf.{IsInteger, IsIntegerOf};

use crate::error::DynError;
use crate::message::{Content, Value};
use pg_schema::{Element, Field, Presence, Scalar, Schema, TypeId};

// Whether the scalar's items are integers.
fn is_integer(scalar: Scalar) -> bool
    ensures { IsTrue result ↔ IsInteger (scalar_form scalar) }
{
    !matches!(
        scalar,
        Scalar::Double | Scalar::Float | Scalar::String | Scalar::Bytes
    )
}

// Whether an integer is in the range of the scalar.
fn is_in_range(scalar: Scalar, number: i128) -> bool
    ensures { IsTrue result ↔ IsIntegerOf (scalar_form scalar) number }
{
    match scalar {
        Scalar::Int32 | Scalar::Sint32 | Scalar::Sfixed32 => {
            number >= -0x8000_0000 && number < 0x8000_0000
        }
        Scalar::Int64 | Scalar::Sint64 | Scalar::Sfixed64 => {
            number >= -0x8000_0000_0000_0000 && number < 0x8000_0000_0000_0000
        }
        Scalar::Uint32 | Scalar::Fixed32 => number >= 0 && number < 0x1_0000_0000,
        Scalar::Uint64 | Scalar::Fixed64 => number >= 0 && number < 0x1_0000_0000_0000_0000,
        Scalar::Bool => number >= 0 && number < 2,
        Scalar::Double | Scalar::Float | Scalar::String | Scalar::Bytes => false,
    }
}

// Whether the bits of a float are an item of the scalar.
fn is_single(scalar: Scalar, bits: u32) -> bool
    ensures { IsTrue result ↔ InRange (scalar_form scalar) (F32 bits) }
{
    matches!(scalar, Scalar::Float)
}

// Whether the bits of a double are an item of the scalar.
fn is_double(scalar: Scalar, bits: u64) -> bool
    ensures { IsTrue result ↔ InRange (scalar_form scalar) (F64 bits) }
{
    matches!(scalar, Scalar::Double)
}

// Whether bytes are an item of the scalar: any are bytes, and UTF-8 is a string.
fn check_bytes(scalar: Scalar, bytes: &[u8]) -> Result<(), DynError>
    ensures fits { IsOk result ↔ InRange (scalar_form scalar) (Bytes bytes.now) }
    ensures fault { IfErr result (λ e.
        ((e ≡ errors.WrongKind) × (HoldsBytes (scalar_form scalar) → ⊥))
        ⊎ ((at : ℕ) × (e ≡ errors.NotUtf8 at) × (scalar_form scalar ≡ Text)
        × IsValidUpTo bytes.now at)) }
{
    match scalar {
        Scalar::Bytes => Ok(()),
        Scalar::String => match simdutf8::compat::from_utf8(bytes) {
            Ok(_) => Ok(()),
            Err(error) => Err(DynError::NotUtf8 {
                at: error.valid_up_to(),
            }),
        },
        _ => Err(DynError::WrongKind),
    }
}

// Whether a string is an item of the scalar.
fn check_text(scalar: Scalar, text: &str) -> Result<(), DynError>
    ensures fits { IsOk result ↔ InRange (scalar_form scalar) (Bytes text.now) }
    ensures fault { IfErr result (λ e. (e ≡ errors.WrongKind)
        × (HoldsBytes (scalar_form scalar) → ⊥)) }
{
    match scalar {
        Scalar::Bytes => check_bytes(scalar, text.as_bytes()),
        Scalar::String => Ok(()),
        _ => Err(DynError::WrongKind),
    }
}

/// Whether an item is one of the scalar: of its kind, in its range, and a string UTF-8. The error
/// is the first of these that fails.
pub(crate) fn check_item(scalar: Scalar, value: &Value) -> Result<(), DynError>
    ensures fits { IsOk result ↔ IsItemOf scalar value.now }
    ensures fault { IfErr result (IsFaultOf scalar value.now) }
{
    match value {
        Value::Int(number) if is_in_range(scalar, *number) => Ok(()),
        Value::Int(_) if is_integer(scalar) => Err(DynError::OutOfRange),
        Value::F32(bits) if is_single(scalar, *bits) => Ok(()),
        Value::F64(bits) if is_double(scalar, *bits) => Ok(()),
        Value::Text(text) => check_text(scalar, text),
        Value::Bytes(bytes) => check_bytes(scalar, bytes),
        _ => Err(DynError::WrongKind),
    }
}

/// Of two answers the error of the lower code, of equal ones the first. `Ok` only where both are.
pub(crate) fn lower(
    first: Result<(), DynError>,
    second: Result<(), DynError>,
) -> Result<(), DynError>
    ensures one { (result ≡ first)
        ⊎ ((result ≡ second) × (reported_code second < reported_code first)) }
    ensures lowest { reported_code result ≤ reported_code second }
{
    match (first, second) {
        (Ok(()), Ok(())) => first,
        (Ok(()), Err(_)) => second,
        (Err(_), Ok(())) => first,
        (Err(one), Err(other)) => {
            if other.code() < one.code() {
                second
            } else {
                first
            }
        }
    }
}

// Whether an item is one of the element; an enum takes the numbers of int32.
fn check_element(schema: &Schema, element: Element, value: &Value) -> Result<(), DynError>
    requires { IsSchema schema.now }
    ensures { Reports (ItemFits (shape_of schema.now) element value.now)
        (ElementFault (shape_of schema.now) element value.now) result }
{
    match element {
        Element::Scalar(scalar) => check_item(scalar, value),
        Element::Enum(_) => check_item(Scalar::Int32, value),
        Element::Message(_) => {
            if value.fits(schema, element) {
                Ok(())
            } else {
                Err(DynError::WrongKind)
            }
        }
    }
}

// Whether all items of a list are of the element.
fn check_values(schema: &Schema, element: Element, values: &[Value]) -> Result<(), DynError>
    requires { IsSchema schema.now }
    ensures { Reports (AllByRecursion (ItemFits (shape_of schema.now) element) values.now)
        (FirstOf (ElementFault (shape_of schema.now) element) values.now) result }
{
    let mut reported = Ok(());
    for value in values {
        reported = lower(reported, check_element(schema, element, value));
    }
    reported
}

// Whether the key and the value of an entry are of the map.
fn check_entry(
    schema: &Schema,
    key: Scalar,
    element: Element,
    entry: &(Value, Value),
) -> Result<(), DynError>
    requires { IsSchema schema.now }
    ensures { Reports (EntryFits (shape_of schema.now) key element entry.now)
        (EntryFault (shape_of schema.now) key element entry.now) result }
{
    let of_key = check_element(schema, Element::Scalar(key), &entry.0);
    lower(of_key, check_element(schema, element, &entry.1))
}

// Whether all entries of a map are.
fn check_entries(
    schema: &Schema,
    key: Scalar,
    element: Element,
    entries: &[(Value, Value)],
) -> Result<(), DynError>
    requires { IsSchema schema.now }
    ensures { Reports (AllByRecursion (EntryFits (shape_of schema.now) key element) entries.now)
        (FirstOf (EntryFault (shape_of schema.now) key element) entries.now) result }
{
    let mut reported = Ok(());
    for entry in entries {
        reported = lower(reported, check_entry(schema, key, element, entry));
    }
    reported
}

// Whether the content is one of the field, but for keys that are there twice.
fn check_field(schema: &Schema, field: &Field, content: &Content) -> Result<(), DynError>
    requires { IsSchema schema.now }
    ensures { Reports (ItemsFit (shape_of schema.now) field.now.presence field.now.element
        content.now) (FieldFault (shape_of schema.now) (field_shape field.now) content.now) result }
{
    match (field.presence, content) {
        (Presence::Implicit, Content::One(value)) => check_element(schema, field.element, value),
        (Presence::Explicit, Content::One(value)) => check_element(schema, field.element, value),
        (Presence::Repeated { .. }, Content::Many(values)) => {
            check_values(schema, field.element, values)
        }
        (Presence::Map { key }, Content::Map(entries)) => {
            check_entries(schema, key, field.element, entries)
        }
        _ => Err(DynError::WrongKind),
    }
}

/// The field of the number, of which the content is to be one. The error is the first of what is
/// wrong with the content, but for keys that are there twice.
pub(crate) fn check_content<'a>(
    schema: &'a Schema,
    type_id: TypeId,
    number: u32,
    content: &Content,
) -> Result<&'a Field, DynError>
    requires { IsSchema schema.now }
    ensures ok { IfOk result (λ f. IsTaken (shape_of schema.now) type_id number content.now
        (field_shape f.now)) }
    ensures err { IfErr result (IsLowest
        (ContentFault (shape_of schema.now) type_id number content.now)) }
    ensures early { IfErr result (λ e. code_of e < 605) }
{
    let Some(field) = schema.field(type_id, number) else {
        return Err(DynError::NoSuchField);
    };
    match check_field(schema, field, content) {
        Ok(()) => Ok(field),
        Err(error) => Err(error),
    }
}
