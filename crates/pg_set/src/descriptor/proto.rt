//! The numbers of the fields of descriptor.proto that a set of this profile has.

/// Of each declaration its name.
pub(crate) const NAME: u32 = 1;

// FileDescriptorSet
pub(crate) const SET_FILE: u32 = 1;

// FileDescriptorProto
pub(crate) const FILE_NAME: u32 = 1;

pub(crate) const FILE_PACKAGE: u32 = 2;

pub(crate) const FILE_DEPENDENCY: u32 = 3;

pub(crate) const FILE_MESSAGE_TYPE: u32 = 4;

pub(crate) const FILE_ENUM_TYPE: u32 = 5;

pub(crate) const FILE_SERVICE: u32 = 6;

pub(crate) const FILE_OPTIONS: u32 = 8;

pub(crate) const FILE_PUBLIC_DEPENDENCY: u32 = 10;

pub(crate) const FILE_SYNTAX: u32 = 12;

// DescriptorProto
pub(crate) const MESSAGE_NAME: u32 = 1;

pub(crate) const MESSAGE_FIELD: u32 = 2;

pub(crate) const MESSAGE_NESTED_TYPE: u32 = 3;

pub(crate) const MESSAGE_ENUM_TYPE: u32 = 4;

pub(crate) const MESSAGE_OPTIONS: u32 = 7;

pub(crate) const MESSAGE_ONEOF_DECL: u32 = 8;

pub(crate) const MESSAGE_RESERVED_RANGE: u32 = 9;

pub(crate) const MESSAGE_RESERVED_NAME: u32 = 10;

// DescriptorProto.ReservedRange and EnumDescriptorProto.EnumReservedRange
pub(crate) const RANGE_START: u32 = 1;

pub(crate) const RANGE_END: u32 = 2;

// FieldDescriptorProto
pub(crate) const FIELD_NAME: u32 = 1;

pub(crate) const FIELD_NUMBER: u32 = 3;

pub(crate) const FIELD_LABEL: u32 = 4;

pub(crate) const FIELD_TYPE: u32 = 5;

pub(crate) const FIELD_TYPE_NAME: u32 = 6;

pub(crate) const FIELD_OPTIONS: u32 = 8;

pub(crate) const FIELD_ONEOF_INDEX: u32 = 9;

pub(crate) const FIELD_JSON_NAME: u32 = 10;

pub(crate) const FIELD_PROTO3_OPTIONAL: u32 = 17;

// OneofDescriptorProto
pub(crate) const ONEOF_NAME: u32 = 1;

// EnumDescriptorProto
pub(crate) const ENUM_NAME: u32 = 1;

pub(crate) const ENUM_VALUE: u32 = 2;

pub(crate) const ENUM_OPTIONS: u32 = 3;

pub(crate) const ENUM_RESERVED_RANGE: u32 = 4;

pub(crate) const ENUM_RESERVED_NAME: u32 = 5;

// EnumValueDescriptorProto
pub(crate) const VALUE_NAME: u32 = 1;

pub(crate) const VALUE_NUMBER: u32 = 2;

pub(crate) const VALUE_OPTIONS: u32 = 3;

// ServiceDescriptorProto
pub(crate) const SERVICE_NAME: u32 = 1;

pub(crate) const SERVICE_METHOD: u32 = 2;

pub(crate) const SERVICE_OPTIONS: u32 = 3;

// MethodDescriptorProto
pub(crate) const METHOD_NAME: u32 = 1;

pub(crate) const METHOD_INPUT_TYPE: u32 = 2;

pub(crate) const METHOD_OUTPUT_TYPE: u32 = 3;

pub(crate) const METHOD_OPTIONS: u32 = 4;

pub(crate) const METHOD_CLIENT_STREAMING: u32 = 5;

pub(crate) const METHOD_SERVER_STREAMING: u32 = 6;

// FileOptions
pub(crate) const FILE_JAVA_PACKAGE: u32 = 1;

pub(crate) const FILE_JAVA_OUTER_CLASSNAME: u32 = 8;

pub(crate) const FILE_OPTIMIZE_FOR: u32 = 9;

pub(crate) const FILE_JAVA_MULTIPLE_FILES: u32 = 10;

pub(crate) const FILE_GO_PACKAGE: u32 = 11;

pub(crate) const FILE_DEPRECATED: u32 = 23;

pub(crate) const FILE_CC_ENABLE_ARENAS: u32 = 31;

pub(crate) const FILE_OBJC_CLASS_PREFIX: u32 = 36;

pub(crate) const FILE_CSHARP_NAMESPACE: u32 = 37;

pub(crate) const FILE_SWIFT_PREFIX: u32 = 39;

pub(crate) const FILE_PHP_CLASS_PREFIX: u32 = 40;

pub(crate) const FILE_PHP_NAMESPACE: u32 = 41;

pub(crate) const FILE_RUBY_PACKAGE: u32 = 45;

// MessageOptions
pub(crate) const MESSAGE_DEPRECATED: u32 = 3;

pub(crate) const MESSAGE_MAP_ENTRY: u32 = 7;

// FieldOptions
pub(crate) const FIELD_PACKED: u32 = 2;

pub(crate) const FIELD_DEPRECATED: u32 = 3;

// EnumOptions
pub(crate) const ENUM_ALLOW_ALIAS: u32 = 2;

pub(crate) const ENUM_DEPRECATED: u32 = 3;

// EnumValueOptions
pub(crate) const VALUE_DEPRECATED: u32 = 1;

// ServiceOptions
pub(crate) const SERVICE_DEPRECATED: u32 = 33;

// MethodOptions
pub(crate) const METHOD_DEPRECATED: u32 = 33;
