//! What is told of two schemas.

use pg_schema::{EnumId, ServiceId, TypeId};

/// The message types of one full name.
#[derive(Clone, Copy, Debug, PartialEq, Eq)]
pub struct TypePair {
    /// That of the old schema.
    pub old: TypeId,
    /// That of the new schema.
    pub new: TypeId,
}

/// The enums of one full name.
#[derive(Clone, Copy, Debug, PartialEq, Eq)]
pub struct EnumPair {
    /// That of the old schema.
    pub old: EnumId,
    /// That of the new schema.
    pub new: EnumId,
}

/// The services of one full name.
#[derive(Clone, Copy, Debug, PartialEq, Eq)]
pub struct ServicePair {
    /// That of the old schema.
    pub old: ServiceId,
    /// That of the new schema.
    pub new: ServiceId,
}

/// A change that breaks no message, and that users of the old schema may see all the same (proto3
/// language guide, "Updating A Message Type").
#[derive(Clone, Copy, Debug, PartialEq, Eq)]
pub enum Note {
    /// Both types have a field of the number, under different names.
    Renamed {
        /// The types.
        types: TypePair,
        /// The field number.
        number: u32,
        /// The number of the new field that has the old name. `None` where there is none.
        now: Option<u32>,
    },
    /// The new type has the name of an old field at another number.
    Moved {
        /// The types.
        types: TypePair,
        /// The number of the old field.
        number: u32,
        /// The number of the new field.
        now: u32,
    },
    /// The new type neither has the number of an old field nor reserves it.
    Unreserved {
        /// The types.
        types: TypePair,
        /// The field number.
        number: u32,
    },
    /// Both types have a single field of the number. The old one has presence: it is `optional`, a
    /// member of a oneof, or a message. The new one has none.
    PresenceDropped {
        /// The types.
        types: TypePair,
        /// The field number.
        number: u32,
    },
    /// A single field of numbers, bool or an enum is now a packed list.
    NumberToList {
        /// The types.
        types: TypePair,
        /// The field number.
        number: u32,
    },
    /// The new enum has the number of an old value, but not under the old name.
    ValueRenamed {
        /// The enums.
        enums: EnumPair,
        /// The index of the old value in `EnumType::values`.
        value: usize,
        /// The index of the first new value of the number.
        now: usize,
    },
    /// The new enum doesn't have the number of an old value.
    ValueGone {
        /// The enums.
        enums: EnumPair,
        /// The index of the old value in `EnumType::values`.
        value: usize,
    },
    /// The new schema doesn't have a method of an old service.
    MethodGone {
        /// The old service.
        service: ServiceId,
        /// The index of the method in `Service::methods`.
        method: usize,
        /// The new service of the name. `None` where there is none.
        now: Option<ServiceId>,
    },
    /// A method sends or answers messages of another full name, or one of the two is a stream
    /// where it was none or none where it was one.
    MethodChanged {
        /// The services.
        services: ServicePair,
        /// The index of the old method in `Service::methods`.
        method: usize,
        /// The index of the new method.
        now: usize,
    },
}
