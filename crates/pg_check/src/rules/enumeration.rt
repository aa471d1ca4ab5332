//! The rules of enums.

ghost use Rattle.std.specs.Prelude.{◌≡◌, IfOk, map, string_bytes};
ghost use Rattle.pg_check.specs.rules.Enums as spec;
ghost use Rattle.pg_check.specs.inner.EnumFaults as faults;
ghost use Rattle.pg_check.specs.inner.Faults.{first_fault};
ghost use Rattle.pg_check.specs.inner.NameFaults.{called};
ghost use Rattle.pg_check.specs.inner.OptionFaults.{stated};

use crate::rules::fault::{Fault, Rule, broken, declared_fault, earlier};
use crate::rules::names::{Called, first_among};
use crate::rules::numbers::{
    HIGHEST_VALUE, Keyed, LOWEST_VALUE, Numbers, ZERO, first_outside, first_reserved, first_twice,
    rank_of,
};
use crate::rules::options::{Owner, Stated, first_bad, in_settings, is_word, option_at};
use crate::rules::reserved::{items_fault, push_names, push_numbers};
use pg_syntax::tree::{Enum, EnumPart, EnumValue, Value};
use std::alloc::{AllocError, Global};

/// The values' numbers, in order of declaration.
fn keys(alloc: Global, body: &[EnumPart]) -> Result<Vec<Keyed>, AllocError>
    ensures { IfOk result (λ keys. keys.items ≡ spec.keys body.now) }
{
    let mut keys = Vec::new(alloc);
    for part in body {
        if let EnumPart::Value(value) = part {
            keys.push(Keyed {
                key: rank_of(value.number),
                at: value.name.span.from,
            })?;
        }
    }
    Ok(keys)
}

/// The values' names, in order of declaration.
fn value_names<'a>(alloc: Global, body: &'a [EnumPart]) -> Result<Vec<Called<'a>>, AllocError>
    ensures { IfOk result (λ names. map called names.items ≡ spec.value_names body.now) }
{
    let mut names = Vec::new(alloc);
    for part in body {
        if let EnumPart::Value(value) = part {
            names.push(Called {
                text: &value.name.text,
                at: value.name.span.from,
            })?;
        }
    }
    Ok(names)
}

/// The reserved numbers, in order.
pub(crate) fn items(alloc: Global, body: &[EnumPart]) -> Result<Vec<Numbers>, AllocError>
    ensures { IfOk result (λ items. items.items ≡ spec.items body.now) }
{
    let mut items = Vec::new(alloc);
    for part in body {
        if let EnumPart::Reserved(reserved) = part {
            push_numbers(&mut items, HIGHEST_VALUE, &reserved.items)?;
        }
    }
    Ok(items)
}

/// The reserved names, in order.
pub(crate) fn reserved_names(alloc: Global, body: &[EnumPart]) -> Result<Vec<String>, AllocError>
    ensures { IfOk result (λ names. map string_bytes names.items ≡ spec.reserved_names body.now) }
{
    let mut names = Vec::new(alloc);
    for part in body {
        if let EnumPart::Reserved(reserved) = part {
            push_names(alloc, &mut names, &reserved.items)?;
        }
    }
    Ok(names)
}

/// The option statements, in order.
fn lines<'a>(alloc: Global, body: &'a [EnumPart]) -> Result<Vec<Stated<'a>>, AllocError>
    ensures { IfOk result (λ lines. map stated lines.items ≡ spec.lines body.now) }
{
    let mut lines = Vec::new(alloc);
    for part in body {
        if let EnumPart::Option(line) = part {
            lines.push(option_at(Owner::Enum, line.span.from, &line.setting))?;
        }
    }
    Ok(lines)
}

/// The value is the word `true`.
pub(crate) fn is_true(value: &Value) -> bool
    ensures { result ≡ spec.is_true value.now }
{
    match value {
        Value::Name(name) => is_word("true", name),
        Value::Text(_) => false,
        Value::Number(_) => false,
    }
}

/// The part is `option allow_alias = true;`.
fn allows_alias(part: &EnumPart) -> bool
    ensures { result ≡ spec.allows_alias part.now }
{
    match part {
        EnumPart::Option(line) => {
            is_word("allow_alias", &line.setting.name) && is_true(&line.setting.value)
        }
        EnumPart::Empty(_) => false,
        EnumPart::Reserved(_) => false,
        EnumPart::Value(_) => false,
    }
}

/// Two values may have one number.
fn has_aliases(body: &[EnumPart]) -> bool
    ensures { result ≡ spec.has_aliases body.now }
{
    body.iter().any(|part| allows_alias(part))
}

/// The offset of the first value, where it isn't 0.
fn first_not_zero(keys: &[Keyed]) -> Option<usize>
    ensures { result ≡ faults.first_not_zero keys.now }
{
    match keys {
        [first, ..] => {
            if first.key == ZERO {
                None
            } else {
                Some(first.at)
            }
        }
        [] => None,
    }
}

/// The offset of the first value with the number of one before it.
fn first_alias(
    alloc: Global,
    has_aliases: bool,
    keys: &[Keyed],
) -> Result<Option<usize>, AllocError>
    ensures { IfOk result (λ place. place ≡ faults.first_alias has_aliases keys.now) }
{
    if has_aliases {
        Ok(None)
    } else {
        first_twice(alloc, keys)
    }
}

/// The offset of the enum, where it has no value.
fn empty_at(place: usize, keys: &[Keyed]) -> Option<usize>
    ensures { result ≡ faults.empty_at place keys.now }
{
    match keys {
        [_, ..] => None,
        [] => Some(place),
    }
}

/// The first option of a value that isn't right, or was stated before.
fn value_option(alloc: Global, value: &EnumValue) -> Result<Option<Fault>, AllocError>
    ensures { IfOk result (λ fault. fault ≡ faults.value_option value.now) }
{
    let options = in_settings(alloc, Owner::EnumValue, &value.settings)?;
    let place = first_bad(alloc, &options)?;
    Ok(declared_fault(Rule::BadOption, value.name.span.from, place))
}

/// The first rule that the values' options break.
fn value_options(alloc: Global, body: &[EnumPart]) -> Result<Option<Fault>, AllocError>
    ensures { IfOk result (λ fault. fault ≡ first_fault faults.part_option body.now) }
{
    for part in body {
        if let EnumPart::Value(value) = part {
            let fault = value_option(alloc, value)?;
            if fault.is_some() {
                return Ok(fault);
            }
        }
    }
    Ok(None)
}

/// What the rules see of an enum, whether a source file or a descriptor set declares it.
#[derive(Clone, Copy)]
pub(crate) struct DeclaredEnum<'a> {
    pub keys: &'a [Keyed],
    pub names: &'a [Called<'a>],
    pub items: &'a [Numbers],
    pub reserved_names: &'a [String],
    pub has_aliases: bool,
}

/// The first rule that the values and the reserved items of an enum break, which is declared at
/// that byte.
pub(crate) fn values_fault(
    alloc: Global,
    at: usize,
    declared: &DeclaredEnum<'_>,
) -> Result<Option<Fault>, AllocError>
    ensures { IfOk result (λ fault. fault ≡ faults.values_fault at (faults.seen declared.now)) }
{
    let keys = declared.keys;
    let outside = first_outside(LOWEST_VALUE, HIGHEST_VALUE, keys);
    let reserved = first_reserved(alloc, declared.items, keys)?;
    let taken = first_among(alloc, declared.reserved_names, declared.names)?;
    let of_items = items_fault(alloc, LOWEST_VALUE, HIGHEST_VALUE, declared.items)?;
    let alias = first_alias(alloc, declared.has_aliases, keys)?;
    let not_zero = broken(Rule::EnumFirstNotZero, first_not_zero(keys));
    let of_values = earlier(not_zero, broken(Rule::EnumAlias, alias));
    let of_names = earlier(
        broken(Rule::ReservedName, taken),
        earlier(of_items, of_values),
    );
    let of_numbers = earlier(broken(Rule::ReservedNumber, reserved), of_names);
    let of_all = earlier(broken(Rule::BadNumber, outside), of_numbers);
    Ok(earlier(broken(Rule::EnumEmpty, empty_at(at, keys)), of_all))
}

/// The first rule that the options of the enum and of its values break.
fn options_fault(alloc: Global, body: &[EnumPart]) -> Result<Option<Fault>, AllocError>
    ensures { IfOk result (λ fault. fault ≡ faults.options_fault body.now) }
{
    let lines = lines(alloc, body)?;
    let place = first_bad(alloc, &lines)?;
    let of_values = value_options(alloc, body)?;
    Ok(earlier(broken(Rule::BadOption, place), of_values))
}

/// The first rule that the values and the reserved items in a body break.
fn body_fault(alloc: Global, at: usize, body: &[EnumPart]) -> Result<Option<Fault>, AllocError>
    ensures { IfOk result (λ fault. fault ≡ faults.values_fault at (spec.declared body.now)) }
{
    let keys = keys(alloc, body)?;
    let names = value_names(alloc, body)?;
    let items = items(alloc, body)?;
    let reserved_names = reserved_names(alloc, body)?;
    let declared = DeclaredEnum {
        keys: &keys,
        names: &names,
        items: &items,
        reserved_names: &reserved_names,
        has_aliases: has_aliases(body),
    };
    values_fault(alloc, at, &declared)
}

/// The first rule that an enum breaks.
pub(crate) fn enum_fault(alloc: Global, enumeration: &Enum) -> Result<Option<Fault>, AllocError>
    ensures { IfOk result (λ fault. fault ≡ faults.enum_fault enumeration.now) }
{
    let body = &enumeration.parts;
    let values = body_fault(alloc, enumeration.name.span.from, body)?;
    let options = options_fault(alloc, body)?;
    Ok(earlier(values, options))
}
