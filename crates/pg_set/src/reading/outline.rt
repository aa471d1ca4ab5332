//! What a set declares: the indices of message types, enums and services, and all names. Memory
//! aside, names are refused only where one occurs twice or is a part of a package.

ghost use Rattle.std.specs.Prelude.{◌≡◌, ◌⊎◌, ◌+◌, ◌<◌, ◌≤◌, ◌^◌, ◌++◌, ◌∷◌, [], true, false, IfErr, IfOk, List, OnErr, OnOk, filter, flat_map, length, map};
ghost use Rattle.std.specs.List.{AllByRecursion};
ghost use Rattle.std.specs.String.{string_bytes};
ghost use Rattle.pg_schema.specs.rules.Scopes.{enum_places, type_places};
ghost use Rattle.pg_dyn.specs.message.Kept.{message_of};
ghost use Rattle.pg_set.specs.declared.error.Unstated.TheVariants.{Memory};
ghost use Rattle.pg_set.specs.inner.Declarations.{Adds, CannotAdd, file_declared, members_declared, package_declared, type_declared, types_declared};
ghost use Rattle.pg_set.specs.inner.reading.OutlinedRows.{NameOneofs, NamesOneofs, StayFew, files_at, type_row};
ghost use Rattle.pg_set.specs.stated.Outlines.{file_enums, file_types, type_rows};
ghost use Rattle.pg_set.specs.stated.Numbering.{PlacedType, places_of_types};
ghost use Rattle.pg_set.specs.inner.reading.OutlinedPlaces.{counts_of, placed_type, without_inside};
ghost use Rattle.pg_set.specs.inner.reading.OutlinedScopes.{MayPlace, OutlinesFile, OutlinesFiles, OutlinesTypes};
ghost use Rattle.pg_set.specs.inner.reading.Owners.{means_of};
ghost use Rattle.pg_set.specs.stated.StatedTable.{may_declare, meaning};
ghost use Rattle.pg_set.specs.stated.TypeMessages.{is_entry};
ghost use Rattle.pg_set.specs.stated.SetNames.{package_scope};

mod enums;
mod services;

use crate::descriptor::access::{SetMessage, children, text};
use crate::descriptor::proto;
use crate::error::Unstated;
use crate::reading::declare::{declare, declare_each, declare_package, real_oneofs};
use crate::reading::inner_types::{entries_of, types_of};
use crate::reading::made_oneofs::{marks, synthetic_places};
use crate::reading::names_table::{NameTable, SetKeys};
use crate::reading::outline::enums::outline_enums;
use crate::reading::outline::services::outline_services;
use crate::reading::set_names::{name_in, package_scope};
use indexmap::IndexMap;
use pg_schema::{EnumId, ServiceId, TypeId};
use std::alloc::Global;

/// What a qualified name is that of.
#[derive(Clone, Copy, PartialEq, Eq)]
pub(crate) enum Named {
    Package,
    Type(TypeId),
    Enum(EnumId),
    Entry,
    Other,
}

/// A message type of a set.
#[derive(Drop)]
pub(crate) struct OutlinedType<'b, 'a> {
    pub message: SetMessage<'b, 'a>,
    pub name: String,
    pub types: Vec<TypeId>,
    pub enums: Vec<EnumId>,
}

/// An enum or a service of a set.
#[derive(Drop)]
pub(crate) struct Outlined<'b, 'a> {
    pub message: SetMessage<'b, 'a>,
    pub name: String,
}

/// A file of a set.
#[derive(Drop)]
pub(crate) struct OutlinedFile<'b, 'a> {
    pub message: SetMessage<'b, 'a>,
    pub types: Vec<TypeId>,
    pub enums: Vec<EnumId>,
    pub services: Vec<ServiceId>,
}

/// All that a set declares.
#[derive(Drop)]
pub(crate) struct Outline<'b, 'a> {
    pub files: Vec<OutlinedFile<'b, 'a>>,
    pub types: Vec<OutlinedType<'b, 'a>>,
    pub enums: Vec<Outlined<'b, 'a>>,
    pub services: Vec<Outlined<'b, 'a>>,
    pub names: NameTable,
}

// The next index after so many.
fn next_place(count: usize) -> Result<u32, Unstated>
    ensures ok { IfOk result (λ place. place ≡ count) }
    ensures refused { OnErr result (count < 2 ^ 32 → ⊥) }
{
    match u32::try_from(count) {
        Ok(place) => Ok(place),
        Err(_) => Err(Unstated::Reference),
    }
}

// ---- message types

// The names of a message type's fields and real oneofs.
fn declare_members(
    alloc: Global,
    names: &mut NameTable,
    full: &str,
    message: &SetMessage<'_, '_>,
) -> Result<(), Unstated>
    ensures adds { OnOk result (Adds (members_declared full.now (message_of message.now))
        names.old names.new) }
    ensures oneofs { OnOk result (NamesOneofs (message_of message.now)) }
    ensures refused { IfErr result (λ e. NamesOneofs (message_of message.now)
        → CannotAdd (members_declared full.now (message_of message.now)) names.old e) }
{
    let fields = children(alloc, message, proto::MESSAGE_FIELD)?;
    let oneofs = children(alloc, message, proto::MESSAGE_ONEOF_DECL)?;
    let synthetic = synthetic_places(alloc, &fields)?;
    let marks = marks(alloc, &synthetic, oneofs.len())?;
    let real = real_oneofs(alloc, &oneofs, &synthetic, &marks)?;
    declare_each(alloc, names, full, &fields, Named::Other)?;
    declare_each(alloc, names, full, &real, Named::Other)?;
    Ok(())
}

// The names of a message type and its fields, real oneofs and entry types.
fn declare_type(
    alloc: Global,
    names: &mut NameTable,
    full: &str,
    id: TypeId,
    message: &SetMessage<'_, '_>,
) -> Result<(), Unstated>
    ensures adds { OnOk result (Adds
        (type_declared full.now id.index (message_of message.now)) names.old names.new) }
    ensures oneofs { OnOk result (NamesOneofs (message_of message.now)) }
    ensures refused { IfErr result (λ e. NamesOneofs (message_of message.now)
        → CannotAdd (type_declared full.now id.index (message_of message.now)) names.old e) }
{
    let name = String::from_str(alloc, full)?;
    declare(names, name, Named::Type(id))?;
    declare_members(alloc, names, full, message)?;
    let inside = children(alloc, message, proto::MESSAGE_NESTED_TYPE)?;
    let found = entries_of(alloc, inside.as_slice())?;
    let entries = found.as_slice();
    declare_each(alloc, names, full, entries, Named::Entry)?;
    Ok(())
}

// ---- files

// Puts the parts of a package in the table, where it has a name, and answers its scope.
fn declare_scope(alloc: Global, names: &mut NameTable, name: &str) -> Result<String, Unstated>
    ensures scope { IfOk result (λ scope. string_bytes scope ≡ package_scope name.now) }
    ensures adds { OnOk result (Adds (package_declared (package_scope name.now)) names.old
        names.new) }
    ensures refused { IfErr result (CannotAdd (package_declared (package_scope name.now))
        names.old) }
{
    let scope = package_scope(alloc, name)?;
    if let Some(path) = scope.as_str().strip_prefix(".") {
        declare_package(alloc, names, path)?;
    }
    Ok(scope)
}

// None of the messages is an entry type.
fn without_entries(alloc: Global, messages: &[SetMessage<'_, '_>]) -> Result<(), Unstated>
    ensures ok { OnOk result (filter is_entry (map message_of messages.now) ≡ []) }
    ensures refused { IfErr result (λ e. filter is_entry (map message_of messages.now) ≡ []
        → e ≡ Memory) }
{
    let entries = entries_of(alloc, messages)?;
    if !entries.is_empty() {
        return Err(Unstated::Reference);
    }
    Ok(())
}

// There is none of the messages.
fn ensure_none(messages: &[SetMessage<'_, '_>]) -> Result<(), Unstated>
    ensures none { OnOk result (map message_of messages.now ≡ []) }
    ensures refused { OnErr result (map message_of messages.now ≡ [] → ⊥) }
{
    match messages {
        [] => Ok(()),
        [_, ..] => Err(Unstated::Reference),
    }
}

impl<'b, 'a> Outline<'b, 'a> {
    // A message type, without those inside it.
    fn outline_type(
        &mut self,
        alloc: Global,
        name: &str,
        message: &SetMessage<'b, 'a>,
    ) -> Result<TypeId, Unstated>
        ensures placed { IfOk result (λ id. id.index ≡ length self.old.types.items) }
        ensures rows { OnOk result (map type_row self.new.types.items
            ≡ map type_row self.old.types.items ++ (name.now, message_of message.now) ∷ []) }
        ensures empty { OnOk result (map placed_type self.new.types.items
            ≡ map placed_type self.old.types.items
            ++ without_inside (name.now, message_of message.now) ∷ []) }
        ensures others { OnOk result
            ((self.new.enums.items ≡ self.old.enums.items)
            × (self.new.services.items ≡ self.old.services.items)
            × (self.new.files.items ≡ self.old.files.items)) }
        ensures adds { OnOk result (Adds
            (type_declared name.now (length self.old.types.items) (message_of message.now))
            self.old.names self.new.names) }
        ensures few { OnOk result (StayFew self.old.types.items self.new.types.items) }
        ensures oneofs { OnOk result (NamesOneofs (message_of message.now)) }
        ensures refused { IfErr result
            (λ e. length self.old.types.items < 2 ^ 32 → NamesOneofs (message_of message.now)
            → CannotAdd
            (type_declared name.now (length self.old.types.items) (message_of message.now))
            self.old.names e) }
    {
        let index = next_place(self.types.len())?;
        let id = TypeId { index };
        declare_type(alloc, &mut self.names, name, id, message)?;
        self.types.push(OutlinedType {
            message: message.reborrow(),
            name: String::from_str(alloc, name)?,
            types: Vec::new(alloc),
            enums: Vec::new(alloc),
        })?;
        Ok(id)
    }

    // What is inside a message type.
    fn place_inside(&mut self, id: TypeId, types: Vec<TypeId>, enums: Vec<EnumId>)
        ensures rows { map type_row self.new.types.items ≡ map type_row self.old.types.items }
        ensures inside { (front behind : List PlacedType) (r : PlacedType)
            → map placed_type self.old.types.items ≡ front ++ r ∷ behind
            → length front ≡ id.index
            → map placed_type self.new.types.items
            ≡ front ++ record {
              named = r.named;
              types = type_places types.items;
              enums = enum_places enums.items;
            } ∷ behind }
        ensures others { (self.new.names ≡ self.old.names)
            × (self.new.enums.items ≡ self.old.enums.items)
            × (self.new.services.items ≡ self.old.services.items)
            × (self.new.files.items ≡ self.old.files.items) }
    {
        if let Some(outlined) = self.types.get_mut(id.index as usize) {
            outlined.types = types;
            outlined.enums = enums;
        }
    }

    // The message types that a scope declares, nested less deep than that, and the enums in them.
    // Refused where one is nested deeper.
    fn outline_types(
        &mut self,
        alloc: Global,
        depth: usize,
        scope: &str,
        messages: &[SetMessage<'b, 'a>],
    ) -> Result<Vec<TypeId>, Unstated>
        ensures ids { IfOk result (λ ids. type_places ids.items
            ≡ places_of_types depth scope.now (counts_of self.old)
            (map message_of messages.now)) }
        ensures outlined { OnOk result (OutlinesTypes depth scope.now
            (map message_of messages.now) self.old self.new) }
        ensures refused { IfErr result
            (λ e. length self.old.types.items + length
            (type_rows depth scope.now (map message_of messages.now)) ≤ 2 ^ 32
            → NameOneofs depth (map message_of messages.now)
            → CannotAdd (types_declared depth scope.now (counts_of self.old)
            (map message_of messages.now)) self.old.names e) }
    {
        let mut ids = Vec::new(alloc);
        if depth == 0 {
            ensure_none(messages)?;
            return Ok(ids);
        }
        for message in messages {
            let own_name = text(message, proto::MESSAGE_NAME);
            let full = name_in(alloc, scope, own_name)?;
            let name = full.as_str();
            let id = self.outline_type(alloc, name, message)?;
            let enums_inside = children(alloc, message, proto::MESSAGE_ENUM_TYPE)?;
            let own_enums = enums_inside.as_slice();
            let enums = outline_enums(alloc, &mut self.names, &mut self.enums, name, own_enums)?;
            let all_inside = children(alloc, message, proto::MESSAGE_NESTED_TYPE)?;
            let inside = all_inside.as_slice();
            let declared = types_of(alloc, inside)?;
            let own = declared.as_slice();
            let types = self.outline_types(alloc, depth - 1, name, own)?;
            self.place_inside(id, types, enums);
            ids.push(id)?;
        }
        Ok(ids)
    }

    /// One file more, with all that it declares.
    pub(crate) fn outline_file(
        &mut self,
        alloc: Global,
        depth: usize,
        message: &SetMessage<'b, 'a>,
    ) -> Result<(), Unstated>
        ensures outlined { OnOk result (OutlinesFile depth (message_of message.now)
            self.old self.new) }
        ensures refused { IfErr result (λ e.
            MayPlace depth (counts_of self.old) (message_of message.now)
            → CannotAdd (file_declared depth (counts_of self.old) (message_of message.now))
            self.old.names e) }
    {
        let own_package = text(message, proto::FILE_PACKAGE);
        let own_scope = declare_scope(alloc, &mut self.names, own_package)?;
        let scope = own_scope.as_str();
        let types_inside = children(alloc, message, proto::FILE_MESSAGE_TYPE)?;
        let own_types = types_inside.as_slice();
        without_entries(alloc, own_types)?;
        let enums_inside = children(alloc, message, proto::FILE_ENUM_TYPE)?;
        let own_enums = enums_inside.as_slice();
        let enums = outline_enums(alloc, &mut self.names, &mut self.enums, scope, own_enums)?;
        let types = self.outline_types(alloc, depth, scope, own_types)?;
        let services_inside = children(alloc, message, proto::FILE_SERVICE)?;
        let own_services = services_inside.as_slice();
        let services = outline_services(
            alloc,
            &mut self.names,
            &mut self.services,
            scope,
            own_services,
        )?;
        self.files.push(OutlinedFile {
            message: message.reborrow(),
            types,
            enums,
            services,
        })?;
        Ok(())
    }
}

/// What the files declare, taken in that order, with message types nested less deep than that.
/// Refused, memory aside, only where not all of it may be in one table.
pub(crate) fn outline_files<'b, 'a>(
    alloc: Global,
    keys: SetKeys,
    depth: usize,
    files: &[SetMessage<'b, 'a>],
    order: &[usize],
) -> Result<Outline<'b, 'a>, Unstated>
    ensures outlined { IfOk result (OutlinesFiles depth
        (files_at (map message_of files.now) order.now)) }
    ensures may { OnOk result (may_declare depth
        (files_at (map message_of files.now) order.now) ≡ true) }
    ensures means { IfOk result (λ outline. means_of outline.names
        ≡ meaning (flat_map (file_types depth) (files_at (map message_of files.now) order.now))
        (flat_map (file_enums depth) (files_at (map message_of files.now) order.now))) }
    ensures none { IfErr result (λ e. AllByRecursion
        (λ place. place < length files.now) order.now → (e ≡ Memory)
        ⊎ (may_declare depth (files_at (map message_of files.now) order.now) ≡ false)) }
{
    let mut outline = Outline {
        files: Vec::new(alloc),
        types: Vec::new(alloc),
        enums: Vec::new(alloc),
        services: Vec::new(alloc),
        names: IndexMap::with_hasher(alloc, keys),
    };
    for place in order {
        let Some(file) = files.get(*place) else {
            return Err(Unstated::Reference);
        };
        outline.outline_file(alloc, depth, file)?;
    }
    Ok(outline)
}
