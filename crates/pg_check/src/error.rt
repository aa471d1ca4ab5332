//! Why files or parts declare no schema.

ghost use Rattle.std.specs.Prelude.{◌≡◌};
ghost use Rattle.pg_check.specs.Errors as spec;

use crate::rules::fault::Rule;
use pg_link::Place;
use std::alloc::{AllocError, Global};
use thiserror::Error;

/// Why files or parts declare no schema. Of parts that come from no source file there is no
/// position, as of `BadParts`. Else it is that of the declared name, or of the first token of an
/// option or a reserved item (proto3 language specification; proto3 language guide).
#[derive(Debug, PartialEq, Eq, Drop, Error)]
pub enum CheckError {
    /// E401: the number of a field, a value or a reserved item is none that it may have.
    #[error("The number of the field, value or reserved item is out of range.")]
    BadNumber(Place),
    /// E402: a field has the number of another.
    #[error("The field number has already been used in this message.")]
    DuplicateNumber(Place),
    /// E403: a field or value has a reserved number.
    #[error("The number is reserved.")]
    ReservedNumber(Place),
    /// E404: a field or value has a reserved name.
    #[error("The name is reserved.")]
    ReservedName(Place),
    /// E405: a reserved range falls, or has a number of another.
    #[error("The reserved range ends before it begins, or overlaps another.")]
    RangeOverlap(Place),
    /// E406: two fields of a message have one JSON name.
    #[error("The JSON name of the field conflicts with that of another field.")]
    JsonNameClash(Place),
    /// E407: a map's key is of no integral type, bool or string.
    #[error("Keys of map fields cannot be float, double, bytes, message or enum types.")]
    BadMapKey(Place),
    /// E408: a oneof has no member, or one that is a map, `repeated` or `optional`.
    #[error("A oneof must have at least one field, and none that is a map, repeated or optional.")]
    BadOneofMember(Place),
    /// E409: an enum's first value isn't 0.
    #[error("The first enum value must be zero in proto3.")]
    EnumFirstNotZero(Place),
    /// E410: two values have one number without `allow_alias`.
    #[error("The number is used by another value of the enum, which does not set allow_alias.")]
    EnumAlias(Place),
    /// E411: an option is unknown, of a wrong kind, or given twice.
    #[error("The option is unknown, has a value of the wrong kind, or was already set.")]
    BadOption(Place),
    /// E412: `packed = true` is stated of a field that can't be packed.
    #[error("[packed = true] can only be specified for repeated primitive fields.")]
    PackedNotAllowed(Place),
    /// E413: there are more than 4,096 message types.
    #[error("There are more than 4,096 message types.")]
    TooManyTypes(Place),
    /// E414: an enum has no value.
    #[error("Enums must contain at least one value.")]
    EnumEmpty(Place),
    /// E415: the parts break a rule of schemas that none of the others names.
    #[error("A name is not a valid identifier, or the descriptors do not fit together.")]
    BadParts(Place),
    /// E001: a growth was refused. It may come in place of any other.
    #[error("Out of memory.")]
    Memory,
}

impl CheckError {
    ghost use Rattle.pg_check.specs.Codes.{code_of, place_of};

    /// The number after the E by which users know the error.
    pub fn code(&self) -> u16
        ensures { result ≡ code_of self.now }
    {
        match self {
            CheckError::BadNumber(_) => 401,
            CheckError::DuplicateNumber(_) => 402,
            CheckError::ReservedNumber(_) => 403,
            CheckError::ReservedName(_) => 404,
            CheckError::RangeOverlap(_) => 405,
            CheckError::JsonNameClash(_) => 406,
            CheckError::BadMapKey(_) => 407,
            CheckError::BadOneofMember(_) => 408,
            CheckError::EnumFirstNotZero(_) => 409,
            CheckError::EnumAlias(_) => 410,
            CheckError::BadOption(_) => 411,
            CheckError::PackedNotAllowed(_) => 412,
            CheckError::TooManyTypes(_) => 413,
            CheckError::EnumEmpty(_) => 414,
            CheckError::BadParts(_) => 415,
            CheckError::Memory => 1,
        }
    }

    /// The position of the fault, but where memory was refused.
    pub fn place(self) -> Option<Place>
        ensures { result ≡ place_of self }
    {
        match self {
            CheckError::BadNumber(place)
            | CheckError::DuplicateNumber(place)
            | CheckError::ReservedNumber(place)
            | CheckError::ReservedName(place)
            | CheckError::RangeOverlap(place)
            | CheckError::JsonNameClash(place)
            | CheckError::BadMapKey(place)
            | CheckError::BadOneofMember(place)
            | CheckError::EnumFirstNotZero(place)
            | CheckError::EnumAlias(place)
            | CheckError::BadOption(place)
            | CheckError::PackedNotAllowed(place)
            | CheckError::TooManyTypes(place)
            | CheckError::EnumEmpty(place)
            | CheckError::BadParts(place) => Some(place),
            CheckError::Memory => None,
        }
    }
}

impl From<AllocError> for CheckError {
    ghost use Rattle.pg_check.specs.declared.error.CheckError.TheVariants.{Memory};

    ghost from_gives = { λ _ error. error ≡ Memory };

    fn from(_error: AllocError) -> CheckError {
        CheckError::Memory
    }
}

/// The error of a rule that is broken at that position.
pub(crate) fn error_of(rule: Rule, place: Place) -> CheckError
    ensures { result ≡ spec.error_of rule place }
{
    match rule {
        Rule::BadNumber => CheckError::BadNumber(place),
        Rule::DuplicateNumber => CheckError::DuplicateNumber(place),
        Rule::ReservedNumber => CheckError::ReservedNumber(place),
        Rule::ReservedName => CheckError::ReservedName(place),
        Rule::RangeOverlap => CheckError::RangeOverlap(place),
        Rule::JsonNameClash => CheckError::JsonNameClash(place),
        Rule::BadMapKey => CheckError::BadMapKey(place),
        Rule::BadOneofMember => CheckError::BadOneofMember(place),
        Rule::EnumFirstNotZero => CheckError::EnumFirstNotZero(place),
        Rule::EnumAlias => CheckError::EnumAlias(place),
        Rule::BadOption => CheckError::BadOption(place),
        Rule::PackedNotAllowed => CheckError::PackedNotAllowed(place),
        Rule::TooManyTypes => CheckError::TooManyTypes(place),
        Rule::EnumEmpty => CheckError::EnumEmpty(place),
    }
}
