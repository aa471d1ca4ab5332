//! The indices of the message types of the written schema.

use pg_schema::TypeId;

pub(crate) const SET: TypeId = TypeId { index: 0 };

pub(crate) const FILE: TypeId = TypeId { index: 1 };

pub(crate) const MESSAGE: TypeId = TypeId { index: 2 };

pub(crate) const FIELD_RANGE: TypeId = TypeId { index: 3 };

pub(crate) const FIELD: TypeId = TypeId { index: 4 };

pub(crate) const ONEOF: TypeId = TypeId { index: 5 };

pub(crate) const ENUM: TypeId = TypeId { index: 6 };

pub(crate) const VALUE_RANGE: TypeId = TypeId { index: 7 };

pub(crate) const VALUE: TypeId = TypeId { index: 8 };

pub(crate) const SERVICE: TypeId = TypeId { index: 9 };

pub(crate) const METHOD: TypeId = TypeId { index: 10 };

pub(crate) const FILE_OPTIONS: TypeId = TypeId { index: 11 };

pub(crate) const MESSAGE_OPTIONS: TypeId = TypeId { index: 12 };

pub(crate) const FIELD_OPTIONS: TypeId = TypeId { index: 13 };

pub(crate) const ENUM_OPTIONS: TypeId = TypeId { index: 14 };

pub(crate) const VALUE_OPTIONS: TypeId = TypeId { index: 15 };

pub(crate) const SERVICE_OPTIONS: TypeId = TypeId { index: 16 };

pub(crate) const METHOD_OPTIONS: TypeId = TypeId { index: 17 };
