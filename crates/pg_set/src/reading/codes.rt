//! The codes of types and labels in sets.

ghost use Rattle.std.specs.Prelude.{◌≡◌, ◌&&◌, pos, IfOk, find, map};
ghost use Rattle.std.specs.List.{list_all, list_any};
ghost use Rattle.std.specs.Ordering.{int_eq};
ghost use Rattle.pg_dyn.specs.message.Kept.{message_of};
ghost use Rattle.pg_set.specs.stated.Codes.{file_has_types, have_types, is_taken, label_codes, scalars, type_codes};
ghost use Rattle.pg_set.specs.writing.Fields.{scalar_code};
ghost use Rattle.pg_set.specs.declared.descriptor.proto.TheConstants as proto;
ghost use Rattle.pg_set.specs.stated.SetMessages.{number_at};
ghost use Rattle.pg_set.specs.stated.TypeMessages.{label_at};

use crate::descriptor::access::{SetMessage, children, maybe_number, number};
use crate::descriptor::proto;
use crate::writing::fields::scalar_code;
use pg_dyn::DEFAULT_DEPTH_LIMIT;
use pg_schema::Scalar;
use std::alloc::{AllocError, Global};

/// TYPE_MESSAGE.
pub(crate) const MESSAGE_CODE: i128 = 11;

/// LABEL_REPEATED.
pub(crate) const REPEATED: i128 = 3;

// The scalars by rising code.
const SCALARS: [Scalar; 15] = [
    Scalar::Double,
    Scalar::Float,
    Scalar::Int64,
    Scalar::Uint64,
    Scalar::Int32,
    Scalar::Fixed64,
    Scalar::Fixed32,
    Scalar::Bool,
    Scalar::String,
    Scalar::Bytes,
    Scalar::Uint32,
    Scalar::Sfixed32,
    Scalar::Sfixed64,
    Scalar::Sint32,
    Scalar::Sint64,
];

// Whether the field's type is that scalar.
fn has_code(field: &SetMessage<'_, '_>, scalar: Scalar) -> bool
    ensures { result ≡ int_eq (number_at proto.FIELD_TYPE (message_of field.now))
        (pos (scalar_code scalar)) }
{
    number(field, proto::FIELD_TYPE) == i128::from(scalar_code(scalar))
}

/// The scalar that a field's type is. `None` of messages, enums and codes that aren't taken.
pub(crate) fn scalar_of(field: &SetMessage<'_, '_>) -> Option<Scalar>
    ensures { result ≡ find (λ s. int_eq (number_at proto.FIELD_TYPE (message_of field.now))
        (pos (scalar_code s))) scalars }
{
    for scalar in SCALARS {
        let is_of = has_code(field, scalar);
        if is_of {
            return Some(scalar);
        }
    }
    None
}

// The codes of types that are taken: all but TYPE_GROUP.
const TYPES: [i128; 17] = [1, 2, 3, 4, 5, 6, 7, 8, 9, 11, 12, 13, 14, 15, 16, 17, 18];

// The codes of labels that are taken: LABEL_OPTIONAL, LABEL_REPEATED.
const LABELS: [i128; 2] = [1, 3];

// Whether the code is one of these.
fn is_among(code: i128, known: &[i128]) -> bool
    ensures { result ≡ list_any (int_eq code) known.now }
{
    for one in known {
        if code == *one {
            return true;
        }
    }
    false
}

// Whether the type is taken.
fn is_type(code: i128) -> bool
    ensures { result ≡ list_any (int_eq code) type_codes }
{
    is_among(code, &TYPES)
}

/// The label of a field, LABEL_OPTIONAL where it is missing.
pub(crate) fn label_of(message: &SetMessage<'_, '_>) -> i128
    ensures { result ≡ label_at (message_of message.now) }
{
    match maybe_number(message, proto::FIELD_LABEL) {
        Some(label) => label,
        None => 1,
    }
}

// Whether the label is.
fn is_label(code: i128) -> bool
    ensures { result ≡ list_any (int_eq code) label_codes }
{
    is_among(code, &LABELS)
}

fn both(first: bool, second: bool) -> bool
    ensures { result ≡ (first && second) }
{
    first && second
}

// Whether the field's type and label are taken.
fn is_taken(field: &SetMessage<'_, '_>) -> bool
    ensures { result ≡ is_taken (message_of field.now) }
{
    let code = number(field, proto::FIELD_TYPE);
    let label = label_of(field);
    let has_type = is_type(code);
    let has_label = is_label(label);
    both(has_type, has_label)
}

// Whether the types and labels of the fields are taken.
fn are_taken(fields: &[SetMessage<'_, '_>]) -> bool
    ensures { result ≡ list_all is_taken (map message_of fields.now) }
{
    for field in fields {
        let taken = is_taken(field);
        if !taken {
            return false;
        }
    }
    true
}

/// Whether the types and labels of all fields of the message types are taken, nested less deep than
/// that.
pub(crate) fn have_types(
    alloc: Global,
    depth: usize,
    messages: &[SetMessage<'_, '_>],
) -> Result<bool, AllocError>
    ensures { IfOk result (λ taken. taken ≡ have_types depth (map message_of messages.now)) }
{
    if depth == 0 {
        return Ok(true);
    }
    let mut all = true;
    for message in messages {
        let own = children(alloc, message, proto::MESSAGE_FIELD)?;
        let fields = own.as_slice();
        let taken = are_taken(fields);
        let inside = children(alloc, message, proto::MESSAGE_NESTED_TYPE)?;
        let types = inside.as_slice();
        let deep = have_types(alloc, depth - 1, types)?;
        let here = both(taken, deep);
        let so_far = both(all, here);
        all = so_far;
    }
    Ok(all)
}

// Whether those of a file's message types are.
fn file_has_types(alloc: Global, file: &SetMessage<'_, '_>) -> Result<bool, AllocError>
    ensures { IfOk result (λ taken. taken ≡ file_has_types (message_of file.now)) }
{
    let declared = children(alloc, file, proto::FILE_MESSAGE_TYPE)?;
    let types = declared.as_slice();
    let taken = have_types(alloc, DEFAULT_DEPTH_LIMIT, types)?;
    Ok(taken)
}

/// Whether those of all files are.
pub(crate) fn files_have_types(
    alloc: Global,
    files: &[SetMessage<'_, '_>],
) -> Result<bool, AllocError>
    ensures { IfOk result (λ taken. taken
        ≡ list_all file_has_types (map message_of files.now)) }
{
    for file in files {
        let taken = file_has_types(alloc, file)?;
        if !taken {
            return Ok(false);
        }
    }
    Ok(true)
}
