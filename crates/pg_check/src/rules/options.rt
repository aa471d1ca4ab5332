//! Options.

ghost use Rattle.std.specs.Prelude.{◌≡◌, ◌++◌, IfOk, OnOk, map};
ghost use Rattle.pg_check.specs.inner.NameFaults.{titled};
ghost use Rattle.pg_check.specs.rules.Options as spec;
ghost use Rattle.pg_check.specs.inner.OptionFaults as faults;

use crate::rules::names::{Titled, first_twice};
use crate::rules::numbers::least;
use pg_syntax::tree::{Dotted, Setting, Settings, Value};
use std::alloc::{AllocError, Global};

/// What options are stated of.
#[derive(Clone, Copy, PartialEq, Eq)]
pub(crate) enum Owner {
    File,
    Message,
    Field,
    Oneof,
    Enum,
    EnumValue,
    Service,
    Method,
}

/// What values an option takes.
#[derive(Clone, Copy, PartialEq, Eq)]
pub(crate) enum Kind {
    /// `true` or `false`.
    Flag,
    /// A mode of `optimize_for`.
    Mode,
    /// A string.
    Text,
}

/// An option that may be stated.
#[derive(Clone, Copy, PartialEq, Eq)]
pub(crate) struct Known {
    /// Its field number in descriptor.proto.
    pub number: u32,
    pub kind: Kind,
}

/// An option as it is stated: the first identifier of its name, and where it is.
#[derive(Clone, Copy)]
pub(crate) struct Stated<'a> {
    pub name: &'a str,
    /// Whether there is such an option, and the value is of its kind.
    pub is_right: bool,
    pub at: usize,
}

/// The options of a file, of a field and of the others, each with its number and its kind.
const FILE_OPTIONS: [(&str, u32, Kind); 13] = [
    ("java_package", 1, Kind::Text),
    ("java_outer_classname", 8, Kind::Text),
    ("optimize_for", 9, Kind::Mode),
    ("java_multiple_files", 10, Kind::Flag),
    ("go_package", 11, Kind::Text),
    ("deprecated", 23, Kind::Flag),
    ("cc_enable_arenas", 31, Kind::Flag),
    ("objc_class_prefix", 36, Kind::Text),
    ("csharp_namespace", 37, Kind::Text),
    ("swift_prefix", 39, Kind::Text),
    ("php_class_prefix", 40, Kind::Text),
    ("php_namespace", 41, Kind::Text),
    ("ruby_package", 45, Kind::Text),
];

const MESSAGE_OPTIONS: [(&str, u32, Kind); 1] = [("deprecated", 3, Kind::Flag)];

const FIELD_OPTIONS: [(&str, u32, Kind); 3] = [
    ("packed", 2, Kind::Flag),
    ("deprecated", 3, Kind::Flag),
    ("json_name", 10, Kind::Text),
];

const ENUM_OPTIONS: [(&str, u32, Kind); 2] = [
    ("allow_alias", 2, Kind::Flag),
    ("deprecated", 3, Kind::Flag),
];

const VALUE_OPTIONS: [(&str, u32, Kind); 1] = [("deprecated", 1, Kind::Flag)];

const SERVICE_OPTIONS: [(&str, u32, Kind); 1] = [("deprecated", 33, Kind::Flag)];

/// The option of the table that has this name.
fn known_among(mut table: &[(&str, u32, Kind)], name: &str) -> Option<Known>
    ensures { result ≡ spec.known_among (map faults.entry table.entry.now) name.now }
{
    while let [option, rest @ ..] = table {
        if name == option.0 {
            return Some(Known {
                number: option.1,
                kind: option.2,
            });
        }
        table = rest;
    }
    None
}

/// The option of that name.
fn option_named(owner: Owner, name: &str) -> Option<Known>
    ensures { result ≡ spec.option_named owner name.now }
{
    match owner {
        Owner::File => known_among(&FILE_OPTIONS, name),
        Owner::Message => known_among(&MESSAGE_OPTIONS, name),
        Owner::Field => known_among(&FIELD_OPTIONS, name),
        Owner::Oneof => None,
        Owner::Enum => known_among(&ENUM_OPTIONS, name),
        Owner::EnumValue => known_among(&VALUE_OPTIONS, name),
        Owner::Service => known_among(&SERVICE_OPTIONS, name),
        Owner::Method => known_among(&SERVICE_OPTIONS, name),
    }
}

/// The name is this one identifier.
pub(crate) fn is_word(word: &str, name: &Dotted) -> bool
    ensures { result ≡ spec.is_word word.now name.now }
{
    name.more.is_empty() && name.first.text.as_str() == word
}

/// The value is of the kind.
fn is_of_kind(kind: Kind, value: &Value) -> bool
    ensures { result ≡ spec.is_of_kind kind value.now }
{
    match (kind, value) {
        (Kind::Flag, Value::Name(word)) => is_word("true", word) || is_word("false", word),
        (Kind::Mode, Value::Name(word)) => {
            is_word("SPEED", word) || is_word("CODE_SIZE", word) || is_word("LITE_RUNTIME", word)
        }
        (Kind::Text, Value::Text(_)) => true,
        _ => false,
    }
}

/// The owner's option of that name, which has no dot.
pub(crate) fn known_by(owner: Owner, name: &Dotted) -> Option<Known>
    ensures { result ≡ spec.known_by owner name.now }
{
    if name.more.is_empty() {
        option_named(owner, &name.first.text)
    } else {
        None
    }
}

/// The owner has such an option, and the value is of its kind.
fn is_right(owner: Owner, setting: &Setting) -> bool
    ensures { result ≡ spec.is_right owner setting.now }
{
    match known_by(owner, &setting.name) {
        Some(option) => is_of_kind(option.kind, &setting.value),
        None => false,
    }
}

/// An option that is at that offset.
pub(crate) fn option_at(owner: Owner, at: usize, setting: &Setting) -> Stated<'_>
    ensures { faults.stated result ≡ spec.option_at owner at setting.now }
{
    Stated {
        name: &setting.name.first.text,
        is_right: is_right(owner, setting),
        at,
    }
}

/// Appends options in brackets.
fn push_settings<'a>(
    list: &mut Vec<Stated<'a>>,
    owner: Owner,
    settings: &'a [Setting],
) -> Result<(), AllocError>
    ensures { OnOk result (map faults.stated list.new.items ≡ map faults.stated list.old.items
        ++ map (spec.in_brackets owner) settings.now) }
{
    for setting in settings {
        list.push(option_at(owner, setting.span.from, setting))?;
    }
    Ok(())
}

/// The options in brackets.
pub(crate) fn in_settings<'a>(
    alloc: Global,
    owner: Owner,
    settings: &'a Option<Settings>,
) -> Result<Vec<Stated<'a>>, AllocError>
    ensures { IfOk result (λ list. map faults.stated list.items
        ≡ spec.in_settings owner settings.now) }
{
    let mut list = Vec::new(alloc);
    if let Some(settings) = settings {
        let first = &*settings.first;
        list.push(option_at(owner, first.span.from, first))?;
        push_settings(&mut list, owner, &settings.more)?;
    }
    Ok(list)
}

/// The names of the options.
fn names_of(alloc: Global, options: &[Stated<'_>]) -> Result<Vec<Titled>, AllocError>
    ensures { IfOk result (λ names. map titled names.items
        ≡ map spec.name_of (map faults.stated options.now)) }
{
    let mut names = Vec::new(alloc);
    for option in options {
        let text = String::from_str(alloc, option.name)?;
        names.push(Titled {
            text,
            at: option.at,
        })?;
    }
    Ok(names)
}

/// The offset of the first option that isn't right.
fn first_wrong(options: &[Stated<'_>]) -> Option<usize>
    ensures { result ≡ faults.first_wrong (map faults.stated options.now) }
{
    for option in options {
        if !option.is_right {
            return Some(option.at);
        }
    }
    None
}

/// The offset of the first option that isn't right, or was stated before.
pub(crate) fn first_bad(alloc: Global, options: &[Stated<'_>]) -> Result<Option<usize>, AllocError>
    ensures { IfOk result (λ place. place ≡ faults.first_bad (map faults.stated options.now)) }
{
    if options.is_empty() {
        return Ok(None);
    }
    let names = names_of(alloc, options)?;
    let again = first_twice(alloc, &names)?;
    Ok(least(first_wrong(options), again))
}
