//! The written schema of descriptor.proto.

pub(crate) mod access;
pub(crate) mod places;
pub(crate) mod proto;
pub(crate) mod rows;

ghost use Rattle.std.specs.Prelude.{◌≡◌, IfOk, map};
ghost use Rattle.pg_schema.specs.Parts.{shape_of};
ghost use Rattle.pg_set.specs.descriptor.Descriptor.{descriptor_shape};
ghost use Rattle.pg_set.specs.descriptor.DescriptorParts.{descriptor_enums, descriptor_file, descriptor_parts, descriptor_types};
ghost use Rattle.pg_set.specs.stated.Views.{enum_view, file_view, parts_view, type_view};

use crate::descriptor::rows::{
    EnumRow, FieldRow, TypeRow, ValueRow, enum_types, message_types, type_ids,
};
use pg_schema::{
    Element, EnumId, EnumType, File, MessageType, Parts, PartsError, Presence, Scalar, Schema,
    TypeId,
};
use std::alloc::{AllocError, Global};

const ONE: Presence = Presence::Explicit;

const MANY: Presence = Presence::Repeated { packed: false };

pub(crate) const TEXT: Element = Element::Scalar(Scalar::String);

pub(crate) const NUMBER: Element = Element::Scalar(Scalar::Int32);

pub(crate) const FLAG: Element = Element::Scalar(Scalar::Bool);

pub(crate) const LABEL: Element = Element::Enum(EnumId { index: 0 });

pub(crate) const TYPE: Element = Element::Enum(EnumId { index: 1 });

pub(crate) const MODE: Element = Element::Enum(EnumId { index: 2 });

const FILE: Element = Element::Message(TypeId { index: 1 });

const MESSAGE: Element = Element::Message(TypeId { index: 2 });

const FIELD_RANGE: Element = Element::Message(TypeId { index: 3 });

const FIELD: Element = Element::Message(TypeId { index: 4 });

const ONEOF: Element = Element::Message(TypeId { index: 5 });

const ENUM: Element = Element::Message(TypeId { index: 6 });

const VALUE_RANGE: Element = Element::Message(TypeId { index: 7 });

const VALUE: Element = Element::Message(TypeId { index: 8 });

const SERVICE: Element = Element::Message(TypeId { index: 9 });

const METHOD: Element = Element::Message(TypeId { index: 10 });

const FILE_OPTIONS: Element = Element::Message(TypeId { index: 11 });

const MESSAGE_OPTIONS: Element = Element::Message(TypeId { index: 12 });

const FIELD_OPTIONS: Element = Element::Message(TypeId { index: 13 });

const ENUM_OPTIONS: Element = Element::Message(TypeId { index: 14 });

const VALUE_OPTIONS: Element = Element::Message(TypeId { index: 15 });

const SERVICE_OPTIONS: Element = Element::Message(TypeId { index: 16 });

const METHOD_OPTIONS: Element = Element::Message(TypeId { index: 17 });

const OF_SET: [FieldRow<'static>; 1] = [(proto::SET_FILE, "file", MANY, FILE)];

const OF_FILE: [FieldRow<'static>; 9] = [
    (proto::FILE_NAME, "name", ONE, TEXT),
    (proto::FILE_PACKAGE, "package", ONE, TEXT),
    (proto::FILE_DEPENDENCY, "dependency", MANY, TEXT),
    (proto::FILE_MESSAGE_TYPE, "message_type", MANY, MESSAGE),
    (proto::FILE_ENUM_TYPE, "enum_type", MANY, ENUM),
    (proto::FILE_SERVICE, "service", MANY, SERVICE),
    (proto::FILE_OPTIONS, "options", ONE, FILE_OPTIONS),
    (
        proto::FILE_PUBLIC_DEPENDENCY,
        "public_dependency",
        MANY,
        NUMBER,
    ),
    (proto::FILE_SYNTAX, "syntax", ONE, TEXT),
];

const OF_MESSAGE: [FieldRow<'static>; 8] = [
    (proto::MESSAGE_NAME, "name", ONE, TEXT),
    (proto::MESSAGE_FIELD, "field", MANY, FIELD),
    (proto::MESSAGE_NESTED_TYPE, "nested_type", MANY, MESSAGE),
    (proto::MESSAGE_ENUM_TYPE, "enum_type", MANY, ENUM),
    (proto::MESSAGE_OPTIONS, "options", ONE, MESSAGE_OPTIONS),
    (proto::MESSAGE_ONEOF_DECL, "oneof_decl", MANY, ONEOF),
    (
        proto::MESSAGE_RESERVED_RANGE,
        "reserved_range",
        MANY,
        FIELD_RANGE,
    ),
    (proto::MESSAGE_RESERVED_NAME, "reserved_name", MANY, TEXT),
];

const OF_RANGE: [FieldRow<'static>; 2] = [
    (proto::RANGE_START, "start", ONE, NUMBER),
    (proto::RANGE_END, "end", ONE, NUMBER),
];

const OF_FIELD: [FieldRow<'static>; 9] = [
    (proto::FIELD_NAME, "name", ONE, TEXT),
    (proto::FIELD_NUMBER, "number", ONE, NUMBER),
    (proto::FIELD_LABEL, "label", ONE, LABEL),
    (proto::FIELD_TYPE, "type", ONE, TYPE),
    (proto::FIELD_TYPE_NAME, "type_name", ONE, TEXT),
    (proto::FIELD_OPTIONS, "options", ONE, FIELD_OPTIONS),
    (proto::FIELD_ONEOF_INDEX, "oneof_index", ONE, NUMBER),
    (proto::FIELD_JSON_NAME, "json_name", ONE, TEXT),
    (proto::FIELD_PROTO3_OPTIONAL, "proto3_optional", ONE, FLAG),
];

const OF_ONEOF: [FieldRow<'static>; 1] = [(proto::ONEOF_NAME, "name", ONE, TEXT)];

const OF_ENUM: [FieldRow<'static>; 5] = [
    (proto::ENUM_NAME, "name", ONE, TEXT),
    (proto::ENUM_VALUE, "value", MANY, VALUE),
    (proto::ENUM_OPTIONS, "options", ONE, ENUM_OPTIONS),
    (
        proto::ENUM_RESERVED_RANGE,
        "reserved_range",
        MANY,
        VALUE_RANGE,
    ),
    (proto::ENUM_RESERVED_NAME, "reserved_name", MANY, TEXT),
];

const OF_VALUE: [FieldRow<'static>; 3] = [
    (proto::VALUE_NAME, "name", ONE, TEXT),
    (proto::VALUE_NUMBER, "number", ONE, NUMBER),
    (proto::VALUE_OPTIONS, "options", ONE, VALUE_OPTIONS),
];

const OF_SERVICE: [FieldRow<'static>; 3] = [
    (proto::SERVICE_NAME, "name", ONE, TEXT),
    (proto::SERVICE_METHOD, "method", MANY, METHOD),
    (proto::SERVICE_OPTIONS, "options", ONE, SERVICE_OPTIONS),
];

const OF_METHOD: [FieldRow<'static>; 6] = [
    (proto::METHOD_NAME, "name", ONE, TEXT),
    (proto::METHOD_INPUT_TYPE, "input_type", ONE, TEXT),
    (proto::METHOD_OUTPUT_TYPE, "output_type", ONE, TEXT),
    (proto::METHOD_OPTIONS, "options", ONE, METHOD_OPTIONS),
    (
        proto::METHOD_CLIENT_STREAMING,
        "client_streaming",
        ONE,
        FLAG,
    ),
    (
        proto::METHOD_SERVER_STREAMING,
        "server_streaming",
        ONE,
        FLAG,
    ),
];

const OF_FILE_OPTIONS: [FieldRow<'static>; 13] = [
    (proto::FILE_JAVA_PACKAGE, "java_package", ONE, TEXT),
    (
        proto::FILE_JAVA_OUTER_CLASSNAME,
        "java_outer_classname",
        ONE,
        TEXT,
    ),
    (proto::FILE_OPTIMIZE_FOR, "optimize_for", ONE, MODE),
    (
        proto::FILE_JAVA_MULTIPLE_FILES,
        "java_multiple_files",
        ONE,
        FLAG,
    ),
    (proto::FILE_GO_PACKAGE, "go_package", ONE, TEXT),
    (proto::FILE_DEPRECATED, "deprecated", ONE, FLAG),
    (proto::FILE_CC_ENABLE_ARENAS, "cc_enable_arenas", ONE, FLAG),
    (
        proto::FILE_OBJC_CLASS_PREFIX,
        "objc_class_prefix",
        ONE,
        TEXT,
    ),
    (proto::FILE_CSHARP_NAMESPACE, "csharp_namespace", ONE, TEXT),
    (proto::FILE_SWIFT_PREFIX, "swift_prefix", ONE, TEXT),
    (proto::FILE_PHP_CLASS_PREFIX, "php_class_prefix", ONE, TEXT),
    (proto::FILE_PHP_NAMESPACE, "php_namespace", ONE, TEXT),
    (proto::FILE_RUBY_PACKAGE, "ruby_package", ONE, TEXT),
];

const OF_MESSAGE_OPTIONS: [FieldRow<'static>; 2] = [
    (proto::MESSAGE_DEPRECATED, "deprecated", ONE, FLAG),
    (proto::MESSAGE_MAP_ENTRY, "map_entry", ONE, FLAG),
];

const OF_FIELD_OPTIONS: [FieldRow<'static>; 2] = [
    (proto::FIELD_PACKED, "packed", ONE, FLAG),
    (proto::FIELD_DEPRECATED, "deprecated", ONE, FLAG),
];

const OF_ENUM_OPTIONS: [FieldRow<'static>; 2] = [
    (proto::ENUM_ALLOW_ALIAS, "allow_alias", ONE, FLAG),
    (proto::ENUM_DEPRECATED, "deprecated", ONE, FLAG),
];

const OF_VALUE_OPTIONS: [FieldRow<'static>; 1] = [(
    proto::VALUE_DEPRECATED,
    "deprecated",
    ONE,
    FLAG,
)];

const OF_SERVICE_OPTIONS: [FieldRow<'static>; 1] = [(
    proto::SERVICE_DEPRECATED,
    "deprecated",
    ONE,
    FLAG,
)];

const TYPES: [TypeRow<'static>; 18] = [
    ("google.protobuf.FileDescriptorSet", &OF_SET, &[], &[]),
    ("google.protobuf.FileDescriptorProto", &OF_FILE, &[], &[]),
    (
        "google.protobuf.DescriptorProto",
        &OF_MESSAGE,
        &[TypeId { index: 3 }],
        &[],
    ),
    (
        "google.protobuf.DescriptorProto.ReservedRange",
        &OF_RANGE,
        &[],
        &[],
    ),
    (
        "google.protobuf.FieldDescriptorProto",
        &OF_FIELD,
        &[],
        &[EnumId { index: 0 }, EnumId { index: 1 }],
    ),
    ("google.protobuf.OneofDescriptorProto", &OF_ONEOF, &[], &[]),
    (
        "google.protobuf.EnumDescriptorProto",
        &OF_ENUM,
        &[TypeId { index: 7 }],
        &[],
    ),
    (
        "google.protobuf.EnumDescriptorProto.EnumReservedRange",
        &OF_RANGE,
        &[],
        &[],
    ),
    (
        "google.protobuf.EnumValueDescriptorProto",
        &OF_VALUE,
        &[],
        &[],
    ),
    (
        "google.protobuf.ServiceDescriptorProto",
        &OF_SERVICE,
        &[],
        &[],
    ),
    (
        "google.protobuf.MethodDescriptorProto",
        &OF_METHOD,
        &[],
        &[],
    ),
    (
        "google.protobuf.FileOptions",
        &OF_FILE_OPTIONS,
        &[],
        &[EnumId { index: 2 }],
    ),
    (
        "google.protobuf.MessageOptions",
        &OF_MESSAGE_OPTIONS,
        &[],
        &[],
    ),
    ("google.protobuf.FieldOptions", &OF_FIELD_OPTIONS, &[], &[]),
    ("google.protobuf.EnumOptions", &OF_ENUM_OPTIONS, &[], &[]),
    (
        "google.protobuf.EnumValueOptions",
        &OF_VALUE_OPTIONS,
        &[],
        &[],
    ),
    (
        "google.protobuf.ServiceOptions",
        &OF_SERVICE_OPTIONS,
        &[],
        &[],
    ),
    (
        "google.protobuf.MethodOptions",
        &OF_SERVICE_OPTIONS,
        &[],
        &[],
    ),
];

// The message types that are in no other.
const OUTERMOST: [u32; 16] = [0, 1, 2, 4, 5, 6, 8, 9, 10, 11, 12, 13, 14, 15, 16, 17];

// The values of 0 aren't descriptor.proto's: each enum of a schema has one.
const LABELS: [ValueRow<'static>; 4] = [
    (0, "LABEL_NONE"),
    (1, "LABEL_OPTIONAL"),
    (2, "LABEL_REQUIRED"),
    (3, "LABEL_REPEATED"),
];

const KINDS: [ValueRow<'static>; 19] = [
    (0, "TYPE_NONE"),
    (1, "TYPE_DOUBLE"),
    (2, "TYPE_FLOAT"),
    (3, "TYPE_INT64"),
    (4, "TYPE_UINT64"),
    (5, "TYPE_INT32"),
    (6, "TYPE_FIXED64"),
    (7, "TYPE_FIXED32"),
    (8, "TYPE_BOOL"),
    (9, "TYPE_STRING"),
    (10, "TYPE_GROUP"),
    (11, "TYPE_MESSAGE"),
    (12, "TYPE_BYTES"),
    (13, "TYPE_UINT32"),
    (14, "TYPE_ENUM"),
    (15, "TYPE_SFIXED32"),
    (16, "TYPE_SFIXED64"),
    (17, "TYPE_SINT32"),
    (18, "TYPE_SINT64"),
];

const MODES: [ValueRow<'static>; 4] = [
    (0, "MODE_NONE"),
    (1, "SPEED"),
    (2, "CODE_SIZE"),
    (3, "LITE_RUNTIME"),
];

const ENUMS: [EnumRow<'static>; 3] = [
    ("google.protobuf.FieldDescriptorProto.Label", &LABELS),
    ("google.protobuf.FieldDescriptorProto.Type", &KINDS),
    ("google.protobuf.FileOptions.OptimizeMode", &MODES),
];

// The message types. Refused only where memory is.
#[tactic(auto, unfolding(crate::proofs::lemmas::descriptor::DescriptorOpened::opened))]
fn types(alloc: Global) -> Result<Vec<MessageType>, AllocError>
    ensures { IfOk result (λ types. map type_view types.items ≡ descriptor_types) }
{
    message_types(alloc, &TYPES)
}

// The enums. Refused only where memory is.
#[tactic(auto, unfolding(crate::proofs::lemmas::descriptor::DescriptorOpened::opened))]
fn enums(alloc: Global) -> Result<Vec<EnumType>, AllocError>
    ensures { IfOk result (λ enums. map enum_view enums.items ≡ descriptor_enums) }
{
    enum_types(alloc, &ENUMS)
}

// The file. Refused only where memory is.
#[tactic(auto, unfolding(crate::proofs::lemmas::descriptor::DescriptorOpened::opened))]
fn file(alloc: Global) -> Result<File, AllocError>
    ensures { IfOk result (λ file. file_view file ≡ descriptor_file) }
{
    Ok(File {
        name: String::from_str(alloc, "google/protobuf/descriptor.proto")?,
        package: String::from_str(alloc, "google.protobuf")?,
        imports: Vec::new(alloc),
        types: type_ids(alloc, &OUTERMOST)?,
        enums: Vec::new(alloc),
        services: Vec::new(alloc),
        options: Vec::new(alloc),
    })
}

// All parts. Refused only where memory is.
fn parts(alloc: Global) -> Result<Parts, AllocError>
    ensures { IfOk result (λ parts. parts_view parts ≡ descriptor_parts) }
{
    Ok(Parts {
        files: vec![in alloc; file(alloc)?]?,
        types: types(alloc)?,
        enums: enums(alloc)?,
        services: Vec::new(alloc),
    })
}

/// The written schema of descriptor.proto: the messages of a descriptor set, with the fields that a
/// set of a proto3 schema has here. It has the parts of the definition, and so its shape.
///
/// Refused only where memory is: the parts keep to the rules of schemas.
pub fn descriptor_schema(alloc: Global) -> Result<Schema, AllocError>
    ensures parts { IfOk result (λ schema. parts_view schema ≡ descriptor_parts) }
    ensures shape { IfOk result (λ schema. shape_of schema ≡ descriptor_shape) }
{
    let parts = parts(alloc)?;
    match Schema::from_parts(alloc, parts) {
        Ok(schema) => Ok(schema),
        Err((PartsError::Memory, _)) => Err(AllocError),
        Err((PartsError::Invariant, _)) => unreachable!(),
    }
}
