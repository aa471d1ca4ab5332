//! Options as stated. What wasn't stated is `None`; what was stated with its default is there.

/// An option of a file: its field number in `FileOptions` of descriptor.proto, and its value.
#[derive(Debug, PartialEq, Eq, Drop)]
pub struct FileOption {
    /// The option's field number.
    pub number: u32,
    /// What was stated.
    pub value: OptionValue,
}

/// The value of a file's option.
#[derive(Debug, PartialEq, Eq, Drop)]
pub enum OptionValue {
    /// `true` or `false`.
    Flag(bool),
    /// The word of `optimize_for`.
    Mode(OptimizeMode),
    /// A string.
    Text(String),
}

/// The words of `optimize_for` (`FileOptions.OptimizeMode` of descriptor.proto).
#[derive(Clone, Copy, Debug, PartialEq, Eq)]
pub enum OptimizeMode {
    /// `SPEED`, number 1.
    Speed,
    /// `CODE_SIZE`, number 2.
    CodeSize,
    /// `LITE_RUNTIME`, number 3.
    LiteRuntime,
}

/// The options of a message type.
#[derive(Clone, Copy, Debug, PartialEq, Eq)]
pub struct MessageOptions {
    /// `deprecated`.
    pub deprecated: Option<bool>,
}

/// The options of a field. Its JSON name isn't among them: it is the field's own.
#[derive(Clone, Copy, Debug, PartialEq, Eq)]
pub struct FieldOptions {
    /// `packed`.
    pub packed: Option<bool>,
    /// `deprecated`.
    pub deprecated: Option<bool>,
}

/// The options of an enum.
#[derive(Clone, Copy, Debug, PartialEq, Eq)]
pub struct EnumOptions {
    /// `allow_alias`.
    pub allow_alias: Option<bool>,
    /// `deprecated`.
    pub deprecated: Option<bool>,
}

/// The options of an enum value.
#[derive(Clone, Copy, Debug, PartialEq, Eq)]
pub struct EnumValueOptions {
    /// `deprecated`.
    pub deprecated: Option<bool>,
}

/// The options of a service.
#[derive(Clone, Copy, Debug, PartialEq, Eq)]
pub struct ServiceOptions {
    /// `deprecated`.
    pub deprecated: Option<bool>,
}

/// The options of a method.
#[derive(Clone, Copy, Debug, PartialEq, Eq)]
pub struct MethodOptions {
    /// `deprecated`.
    pub deprecated: Option<bool>,
}
