//! The rules of a message's own body.

ghost use Rattle.std.specs.Prelude.{◌≡◌, IfOk, map, string_bytes};
ghost use Rattle.pg_check.specs.inner.Sources.{target_in};
ghost use Rattle.pg_check.specs.inner.Faults.{first_fault};
ghost use Rattle.pg_check.specs.rules.Members.{json_named, named};
ghost use Rattle.pg_check.specs.inner.CodeViews.{member};
ghost use Rattle.pg_check.specs.rules.Members as members;
ghost use Rattle.pg_check.specs.rules.Messages as spec;
ghost use Rattle.pg_check.specs.inner.MessageFaults as faults;
ghost use Rattle.pg_check.specs.inner.NameFaults as name_faults;
ghost use Rattle.pg_check.specs.inner.OptionFaults.{stated};

use crate::rules::enumeration::is_true;
use crate::rules::fault::{Fault, Rule, broken, declared_fault, earlier};
use crate::rules::member::{DeclaredField, json_keys, json_names, keys, members, names_of};
use crate::rules::names;
use crate::rules::numbers::{
    HIGHEST_FIELD, Keyed, LOWEST_FIELD, Numbers, first_reserved, first_twice, is_field_number,
};
use crate::rules::options::{Owner, Stated, first_bad, in_settings, is_word, option_at};
use crate::rules::reserved::{items_fault, push_names, push_numbers};
use crate::rules::types::{Targets, is_key_type, is_packable_type};
use pg_syntax::tree::{Label, Oneof, OneofPart, Part, Setting, Settings};
use std::alloc::{AllocError, Global};

/// The reserved numbers, in order.
pub(crate) fn items(alloc: Global, body: &[Part]) -> Result<Vec<Numbers>, AllocError>
    ensures { IfOk result (λ items. items.items ≡ spec.items body.now) }
{
    let mut items = Vec::new(alloc);
    for part in body {
        if let Part::Reserved(reserved) = part {
            push_numbers(&mut items, HIGHEST_FIELD, &reserved.items)?;
        }
    }
    Ok(items)
}

/// The reserved names, in order.
pub(crate) fn reserved_names(alloc: Global, body: &[Part]) -> Result<Vec<String>, AllocError>
    ensures { IfOk result (λ names. map string_bytes names.items ≡ spec.reserved_names body.now) }
{
    let mut names = Vec::new(alloc);
    for part in body {
        if let Part::Reserved(reserved) = part {
            push_names(alloc, &mut names, &reserved.items)?;
        }
    }
    Ok(names)
}

/// The option statements, in order.
fn lines<'a>(alloc: Global, body: &'a [Part]) -> Result<Vec<Stated<'a>>, AllocError>
    ensures { IfOk result (λ lines. map stated lines.items ≡ spec.lines body.now) }
{
    let mut lines = Vec::new(alloc);
    for part in body {
        if let Part::Option(line) = part {
            lines.push(option_at(Owner::Message, line.span.from, &line.setting))?;
        }
    }
    Ok(lines)
}

/// The oneof's body has a member.
fn has_member(body: &[OneofPart]) -> bool
    ensures { result ≡ spec.has_member body.now }
{
    for part in body {
        match part {
            OneofPart::Field(_) => return true,
            OneofPart::Map(_) => return true,
            OneofPart::Empty(_) => {}
            OneofPart::Option(_) => {}
        }
    }
    false
}

/// The first option in a oneof.
fn oneof_option(body: &[OneofPart]) -> Option<Fault>
    ensures { result ≡ first_fault faults.oneof_option body.now }
{
    for part in body {
        if let OneofPart::Option(line) = part {
            return broken(Rule::BadOption, Some(line.span.from));
        }
    }
    None
}

/// The first rule that a oneof breaks by itself.
fn oneof_fault(oneof: &Oneof) -> Option<Fault>
    ensures { result ≡ faults.oneof_fault oneof.now }
{
    if !has_member(&oneof.parts) {
        return broken(Rule::BadOneofMember, Some(oneof.name.span.from));
    }
    oneof_option(&oneof.parts)
}

/// The first rule that the oneofs break by themselves.
fn oneofs_fault(body: &[Part]) -> Option<Fault>
    ensures { result ≡ first_fault faults.oneof_fault (spec.oneofs body.now) }
{
    for part in body {
        if let Part::Oneof(oneof) = part {
            let fault = oneof_fault(oneof);
            if fault.is_some() {
                return fault;
            }
        }
    }
    None
}

/// The member of a oneof is a map, or `repeated` or `optional`.
fn is_bad_member(one: &DeclaredField<'_>) -> bool
    ensures { result ≡ spec.is_bad_member (member one.now) }
{
    match one {
        DeclaredField::Field(field, oneof) => oneof.is_some() && field.label.is_some(),
        DeclaredField::Map(_, oneof) => oneof.is_some(),
    }
}

/// The first member of a oneof that may not be one.
fn first_bad_member(list: &[DeclaredField<'_>]) -> Option<usize>
    ensures { result ≡ faults.first_member spec.is_bad_member (map member list.now) }
{
    for one in list {
        if is_bad_member(one) {
            return Some(one.name().span.from);
        }
    }
    None
}

/// The first number that no field may have.
fn first_bad_number(keys: &[Keyed]) -> Option<usize>
    ensures { result ≡ faults.first_bad_number keys.now }
{
    for one in keys {
        if !is_field_number(one.key) {
            return Some(one.at);
        }
    }
    None
}

/// The member is a map whose key may not be one.
fn has_bad_key(one: &DeclaredField<'_>) -> bool
    ensures { result ≡ spec.has_bad_key (member one.now) }
{
    match one {
        DeclaredField::Field(_, _) => false,
        DeclaredField::Map(map, _) => !is_key_type(&*map.key),
    }
}

/// The first map with a key that may not be one.
fn first_bad_key(list: &[DeclaredField<'_>]) -> Option<usize>
    ensures { result ≡ faults.first_member spec.has_bad_key (map member list.now) }
{
    for one in list {
        if has_bad_key(one) {
            return Some(one.name().span.from);
        }
    }
    None
}

/// The first option of a member that isn't right, or was stated before.
fn member_option(alloc: Global, one: DeclaredField<'_>) -> Result<Option<Fault>, AllocError>
    ensures { IfOk result (λ fault. fault ≡ faults.member_option (member one.entry)) }
{
    let options = in_settings(alloc, Owner::Field, one.settings())?;
    let place = first_bad(alloc, &options)?;
    Ok(declared_fault(Rule::BadOption, one.name().span.from, place))
}

/// The first rule that the members' options break.
fn member_options(alloc: Global, list: &[DeclaredField<'_>]) -> Result<Option<Fault>, AllocError>
    ensures { IfOk result (λ fault. fault
        ≡ first_fault faults.member_option (map member list.now)) }
{
    for one in list {
        let fault = member_option(alloc, *one)?;
        if fault.is_some() {
            return Ok(fault);
        }
    }
    Ok(None)
}

/// A list of the member's items can be in one record.
fn may_be_packed(targets: &Targets<'_>, one: &DeclaredField<'_>) -> bool
    ensures { result ≡ spec.may_be_packed (target_in targets.now) (member one.now) }
{
    match one {
        DeclaredField::Field(field, _) => {
            matches!(field.label, Some(Label::Repeated))
                && is_packable_type(targets, &field.type_name)
        }
        DeclaredField::Map(_, _) => false,
    }
}

/// The option is `packed = true`.
fn states_packed(setting: &Setting) -> bool
    ensures { result ≡ spec.states_packed setting.now }
{
    is_word("packed", &setting.name) && is_true(&setting.value)
}

/// The first `packed = true`.
fn packed_in(settings: &[Setting]) -> Option<usize>
    ensures { result ≡ faults.first_packed settings.now }
{
    for setting in settings {
        if states_packed(setting) {
            return Some(setting.span.from);
        }
    }
    None
}

/// The first `packed = true` in brackets.
fn first_packed(settings: &Option<Settings>) -> Option<usize>
    ensures { result ≡ faults.first_packed (members.settings settings.now) }
{
    match settings {
        Some(settings) => {
            if states_packed(&settings.first) {
                Some(settings.first.span.from)
            } else {
                packed_in(&settings.more)
            }
        }
        None => None,
    }
}

/// The member states `packed = true` and may not.
fn member_packed(targets: &Targets<'_>, one: &DeclaredField<'_>) -> Option<Fault>
    ensures { result ≡ faults.member_packed (target_in targets.now) (member one.now) }
{
    if may_be_packed(targets, one) {
        return None;
    }
    let place = first_packed(one.settings());
    declared_fault(Rule::PackedNotAllowed, one.name().span.from, place)
}

/// The first member that states `packed = true` and may not.
fn members_packed(targets: &Targets<'_>, list: &[DeclaredField<'_>]) -> Option<Fault>
    ensures { result ≡ first_fault (faults.member_packed (target_in targets.now))
        (map member list.now) }
{
    for one in list {
        let fault = member_packed(targets, one);
        if fault.is_some() {
            return fault;
        }
    }
    None
}

/// The first rule that the members' numbers and the reserved items break.
pub(crate) fn numbers_fault(
    alloc: Global,
    keys: &[Keyed],
    items: &[Numbers],
) -> Result<Option<Fault>, AllocError>
    ensures { IfOk result (λ fault. fault ≡ faults.numbers_fault keys.now items.now) }
{
    let twice = first_twice(alloc, keys)?;
    let reserved = broken(Rule::ReservedNumber, first_reserved(alloc, items, keys)?);
    let ranges = items_fault(alloc, LOWEST_FIELD, HIGHEST_FIELD, items)?;
    let of_items = earlier(reserved, ranges);
    let of_twice = earlier(broken(Rule::DuplicateNumber, twice), of_items);
    Ok(earlier(broken(Rule::BadNumber, first_bad_number(keys)), of_twice))
}

/// The offset of the first JSON name that was given before. The names are made only where keys
/// don't tell them apart.
fn first_clash(alloc: Global, list: &[DeclaredField<'_>]) -> Result<Option<usize>, AllocError>
    ensures { IfOk result (λ place. place
        ≡ name_faults.first_twice (map json_named (map member list.now))) }
{
    let keys = json_keys(alloc, list)?;
    if first_twice(alloc, &keys)?.is_none() {
        return Ok(None);
    }
    let titles = json_names(alloc, list)?;
    names::first_twice(alloc, &titles)
}

/// The first rule that the members' names and JSON names break.
fn names_fault(
    alloc: Global,
    reserved: &[String],
    list: &[DeclaredField<'_>],
) -> Result<Option<Fault>, AllocError>
    ensures { IfOk result (λ fault. fault ≡ faults.names_fault (map string_bytes reserved.now)
        (map named (map member list.now)) (map json_named (map member list.now))) }
{
    let called = names_of(alloc, list)?;
    let among = names::first_among(alloc, reserved, &called)?;
    let twice = first_clash(alloc, list)?;
    Ok(earlier(
        broken(Rule::ReservedName, among),
        broken(Rule::JsonNameClash, twice),
    ))
}

/// The first rule that the members break by themselves.
fn shapes_fault(
    alloc: Global,
    targets: &Targets<'_>,
    list: &[DeclaredField<'_>],
) -> Result<Option<Fault>, AllocError>
    ensures { IfOk result (λ fault. fault
        ≡ faults.shapes_fault (target_in targets.now) (map member list.now)) }
{
    let options = member_options(alloc, list)?;
    let packed = members_packed(targets, list);
    let of_oneofs = broken(Rule::BadOneofMember, first_bad_member(list));
    let of_keys = broken(Rule::BadMapKey, first_bad_key(list));
    Ok(earlier(of_keys, earlier(of_oneofs, earlier(options, packed))))
}

/// The first rule that a message's own body breaks, without the messages and enums in it.
pub(crate) fn body_fault(
    alloc: Global,
    targets: &Targets<'_>,
    body: &[Part],
) -> Result<Option<Fault>, AllocError>
    ensures { IfOk result (λ fault. fault ≡ faults.body_fault (target_in targets.now) body.now) }
{
    let list = members(alloc, body)?;
    let keys = keys(alloc, &list)?;
    let items = items(alloc, body)?;
    let reserved = reserved_names(alloc, body)?;
    let lines = lines(alloc, body)?;
    let of_numbers = numbers_fault(alloc, &keys, &items)?;
    let of_names = names_fault(alloc, &reserved, &list)?;
    let of_shapes = shapes_fault(alloc, targets, &list)?;
    let of_lines = broken(Rule::BadOption, first_bad(alloc, &lines)?);
    let of_parts = earlier(of_lines, oneofs_fault(body));
    let of_fields = earlier(of_numbers, of_names);
    Ok(earlier(of_fields, earlier(of_shapes, of_parts)))
}
