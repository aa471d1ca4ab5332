//! The fields of a message, also maps and members of its oneofs.

ghost use Rattle.std.specs.Prelude.{◌≡◌, ◌++◌, IfOk, OnOk, map, option_map, string_bytes};
ghost use Rattle.pg_check.specs.rules.Members as spec;
ghost use Rattle.pg_check.specs.inner.CodeViews as views;
ghost use Rattle.pg_check.specs.inner.NameFaults as names;
ghost use Rattle.pg_check.specs.inner.TextKeys.{keyed, text_key};

use crate::rules::names::{Called, Titled};
use crate::rules::numbers::{Keyed, rank};
use crate::rules::options::is_word;
use crate::rules::text_keys::{default_json_key, text_key};
use pg_schema::default_json_name;
use pg_syntax::tree::{Field, MapField, Name, OneofPart, Part, Setting, Settings, Value};
use std::alloc::{AllocError, Global};

/// A field or a map, with the index of its oneof among the message's.
#[derive(Clone, Copy)]
pub(crate) enum DeclaredField<'a> {
    Field(&'a Field, Option<usize>),
    Map(&'a MapField, Option<usize>),
}

impl<'a> DeclaredField<'a> {
    /// The name that the member declares.
    pub(crate) fn name(self) -> &'a Name
        ensures { result.now ≡ spec.name_of (views.member self.entry) }
    {
        match self {
            DeclaredField::Field(field, _) => &field.name,
            DeclaredField::Map(map, _) => &map.name,
        }
    }

    /// The field number as it is stated.
    pub(crate) fn number(self) -> u64
        ensures { result ≡ spec.number_of (views.member self.entry) }
    {
        match self {
            DeclaredField::Field(field, _) => field.number,
            DeclaredField::Map(map, _) => map.number,
        }
    }

    /// The options in brackets.
    pub(crate) fn settings(self) -> &'a Option<Settings>
        ensures { result.now ≡ spec.settings_of (views.member self.entry) }
    {
        match self {
            DeclaredField::Field(field, _) => &field.settings,
            DeclaredField::Map(map, _) => &map.settings,
        }
    }
}

/// Appends the members of a oneof.
fn push_oneof<'a>(
    members: &mut Vec<DeclaredField<'a>>,
    place: usize,
    body: &'a [OneofPart],
) -> Result<(), AllocError>
    ensures { OnOk result (map views.member members.new.items ≡ map views.member members.old.items
        ++ spec.oneof_members place body.now) }
{
    for part in body {
        match part {
            OneofPart::Field(field) => members.push(DeclaredField::Field(field, Some(place)))?,
            OneofPart::Map(map) => members.push(DeclaredField::Map(map, Some(place)))?,
            OneofPart::Empty(_) => {}
            OneofPart::Option(_) => {}
        }
    }
    Ok(())
}

/// The fields of a body, in order of declaration.
pub(crate) fn members<'a>(
    alloc: Global,
    body: &'a [Part],
) -> Result<Vec<DeclaredField<'a>>, AllocError>
    ensures { IfOk result (λ members. map views.member members.items ≡ spec.members body.now) }
{
    let mut members = Vec::with_capacity(alloc, body.len())?;
    let mut oneofs = 0;
    for part in body {
        match part {
            Part::Field(field) => members.push(DeclaredField::Field(field, None))?,
            Part::Map(map) => members.push(DeclaredField::Map(map, None))?,
            Part::Oneof(oneof) => {
                push_oneof(&mut members, oneofs, &oneof.parts)?;
                oneofs += 1;
            }
            Part::Empty(_) => {}
            Part::Message(_) => {}
            Part::Enum(_) => {}
            Part::Option(_) => {}
            Part::Reserved(_) => {}
        }
    }
    Ok(members)
}

/// The members' numbers.
pub(crate) fn keys(alloc: Global, members: &[DeclaredField<'_>]) -> Result<Vec<Keyed>, AllocError>
    ensures { IfOk result (λ keys. keys.items ≡ map spec.key_of (map views.member members.now)) }
{
    let mut keys = Vec::with_capacity(alloc, members.len())?;
    for member in members {
        keys.push(Keyed {
            key: rank(false, member.number()),
            at: member.name().span.from,
        })?;
    }
    Ok(keys)
}

/// The members' names.
pub(crate) fn names_of<'a>(
    alloc: Global,
    members: &[DeclaredField<'a>],
) -> Result<Vec<Called<'a>>, AllocError>
    ensures { IfOk result (λ list. map names.called list.items
        ≡ map spec.named (map views.member members.now)) }
{
    let mut list = Vec::with_capacity(alloc, members.len())?;
    for member in members {
        let name = member.name();
        list.push(Called {
            text: &name.text,
            at: name.span.from,
        })?;
    }
    Ok(list)
}

/// The JSON name that the option gives, where it is `json_name` with a string.
fn json_text(alloc: Global, setting: &Setting) -> Result<Option<String>, AllocError>
    ensures { IfOk result (λ text. option_map string_bytes text ≡ spec.json_text setting.now) }
{
    if !is_word("json_name", &setting.name) {
        return Ok(None);
    }
    match &setting.value {
        Value::Text(text) => Ok(Some(text.joined(alloc)?)),
        Value::Name(_) => Ok(None),
        Value::Number(_) => Ok(None),
    }
}

/// The JSON name that the first of the options gives that gives one.
fn given_in(alloc: Global, settings: &[Setting]) -> Result<Option<String>, AllocError>
    ensures { IfOk result (λ text. option_map string_bytes text ≡ spec.given_json settings.now) }
{
    for setting in settings {
        let text = json_text(alloc, setting)?;
        if text.is_some() {
            return Ok(text);
        }
    }
    Ok(None)
}

/// The JSON name that is given in brackets.
fn given_json(alloc: Global, settings: &Option<Settings>) -> Result<Option<String>, AllocError>
    ensures { IfOk result (λ text. option_map string_bytes text
        ≡ spec.given_json (spec.settings settings.now)) }
{
    let Some(settings) = settings else {
        return Ok(None);
    };
    let first = json_text(alloc, &settings.first)?;
    if first.is_some() {
        return Ok(first);
    }
    given_in(alloc, &settings.more)
}

/// The JSON name of a member, given or default.
pub(crate) fn json_name(alloc: Global, member: DeclaredField<'_>) -> Result<String, AllocError>
    ensures { IfOk result (λ text. string_bytes text ≡ spec.json_name (views.member member.entry)) }
{
    match given_json(alloc, member.settings())? {
        Some(text) => Ok(text),
        None => default_json_name(alloc, &member.name().text),
    }
}

/// The members' JSON names.
pub(crate) fn json_names(
    alloc: Global,
    members: &[DeclaredField<'_>],
) -> Result<Vec<Titled>, AllocError>
    ensures { IfOk result (λ list. map names.titled list.items
        ≡ map spec.json_named (map views.member members.now)) }
{
    let mut list = Vec::with_capacity(alloc, members.len())?;
    for member in members {
        let text = json_name(alloc, *member)?;
        list.push(Titled {
            text,
            at: member.name().span.from,
        })?;
    }
    Ok(list)
}

/// The key of the JSON name of a member, given or default.
fn json_key(alloc: Global, member: DeclaredField<'_>) -> Result<u64, AllocError>
    ensures { IfOk result (λ key. key ≡ text_key (spec.json_name (views.member member.entry))) }
{
    match given_json(alloc, member.settings())? {
        Some(text) => Ok(text_key(text.as_bytes())),
        None => Ok(default_json_key(member.name().text.as_bytes())),
    }
}

/// The keys of the members' JSON names.
pub(crate) fn json_keys(
    alloc: Global,
    members: &[DeclaredField<'_>],
) -> Result<Vec<Keyed>, AllocError>
    ensures { IfOk result (λ keys. keys.items
        ≡ map keyed (map spec.json_named (map views.member members.now))) }
{
    let mut keys = Vec::with_capacity(alloc, members.len())?;
    for member in members {
        let key = json_key(alloc, *member)?;
        keys.push(Keyed {
            key: u128::from(key),
            at: member.name().span.from,
        })?;
    }
    Ok(keys)
}
