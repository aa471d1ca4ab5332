//! Where the members of a side's declarations are: its fields, its enums' values and its methods,
//! found by one pass over the files, so that many of them take no more than linear time.
//! `Linked::place` goes by all names, and counts its source file from the first byte, at each call.

use crate::answer::cursor::Cursor;
use crate::answer::member::Member;
use crate::answer::wanted::Wanted;
use pg_link::{Linked, Place};
use pg_schema::{EnumId, Schema, ServiceId, TypeId};
use pg_syntax::tree::{
    Enum, EnumPart, FileTree, Message, Name, OneofPart, Part, Service, ServicePart, Statement,
};
use std::alloc::{AllocError, Global};
use std::collections::BTreeMap;

/// The position of an identifier: its file by number, the line and the column.
#[derive(Clone, Copy)]
struct Spot {
    file: usize,
    line: usize,
    column: usize,
}

/// Positions of members, each by the index of what declares it: fields by number, values and methods
/// by their own index.
#[derive(Drop)]
struct Spots {
    fields: BTreeMap<(u32, u64), Spot>,
    values: BTreeMap<(usize, usize), Spot>,
    methods: BTreeMap<(usize, usize), Spot>,
}

/// Finds the members of some declarations. Message types are counted as they are declared; of the
/// enums and the services outside of messages, those that the file has so far are.
#[derive(Drop)]
struct Finder<'a> {
    wanted: &'a Wanted,
    schema: &'a Schema,
    next: u32,
    file: usize,
    enums: usize,
    services: usize,
    cursor: Cursor<'a>,
    spots: Spots,
}

/// The position of a name.
fn spot_of(finder: &mut Finder<'_>, name: &Name) -> Spot {
    let (line, column) = finder.cursor.place(name.span.from);
    Spot {
        file: finder.file,
        line,
        column,
    }
}

/// Adds the position of a field's name to the others.
fn add_field(finder: &mut Finder<'_>, id: u32, number: u64, name: &Name) -> Result<(), AllocError> {
    let spot = spot_of(finder, name);
    finder.spots.fields.insert((id, number), spot)?;
    Ok(())
}

fn add_member(finder: &mut Finder<'_>, id: u32, part: &OneofPart) -> Result<(), AllocError> {
    match part {
        OneofPart::Field(field) => add_field(finder, id, field.number, &field.name),
        OneofPart::Map(field) => add_field(finder, id, field.number, &field.name),
        OneofPart::Empty(_) | OneofPart::Option(_) => Ok(()),
    }
}

fn add_members(finder: &mut Finder<'_>, id: u32, parts: &[OneofPart]) -> Result<(), AllocError> {
    for part in parts {
        add_member(finder, id, part)?;
    }
    Ok(())
}

/// Adds the values of an enum to the others.
fn add_values(finder: &mut Finder<'_>, id: EnumId, parts: &[EnumPart]) -> Result<(), AllocError> {
    let mut index: usize = 0;
    for part in parts {
        if let EnumPart::Value(value) = part {
            let spot = spot_of(finder, &value.name);
            finder.spots.values.insert((id.index, index), spot)?;
            index = index.saturating_add(1);
        }
    }
    Ok(())
}

/// Adds the values of an enum to the others, where they are wanted.
fn add_enum(
    finder: &mut Finder<'_>,
    id: Option<EnumId>,
    enum_type: &Enum,
) -> Result<(), AllocError> {
    match id {
        Some(id) if finder.wanted.has_enum(id) => add_values(finder, id, &enum_type.parts),
        _ => Ok(()),
    }
}

/// Adds the methods of a service to the others.
fn add_methods(
    finder: &mut Finder<'_>,
    id: ServiceId,
    parts: &[ServicePart],
) -> Result<(), AllocError> {
    let mut index: usize = 0;
    for part in parts {
        if let ServicePart::Rpc(rpc) = part {
            let spot = spot_of(finder, &rpc.name);
            finder.spots.methods.insert((id.index, index), spot)?;
            index = index.saturating_add(1);
        }
    }
    Ok(())
}

/// The message type that is gone through.
#[derive(Clone, Copy)]
struct Within {
    id: u32,
    /// Whether its fields are wanted.
    is_wanted: bool,
}

/// The enum that is the type's next one after so many.
fn nested_enum(finder: &Finder<'_>, within: Within, seen: usize) -> Option<EnumId> {
    let message_type = finder.schema.message_type(TypeId { index: within.id })?;
    message_type.nested_enums.as_slice().get(seen).copied()
}

/// Adds the members of one part of a message type to the others, and those of the types in it.
#[cycle(messages)]
fn add_part(finder: &mut Finder<'_>, within: Within, part: &Part) -> Result<(), AllocError> {
    let id = within.id;
    match part {
        Part::Message(message) => add_message(finder, message),
        Part::Oneof(oneof) if within.is_wanted => add_members(finder, id, &oneof.parts),
        Part::Map(field) if within.is_wanted => add_field(finder, id, field.number, &field.name),
        Part::Field(field) if within.is_wanted => add_field(finder, id, field.number, &field.name),
        _ => Ok(()),
    }
}

#[cycle(messages)]
fn add_parts(finder: &mut Finder<'_>, within: Within, parts: &[Part]) -> Result<(), AllocError> {
    let mut seen: usize = 0;
    for part in parts {
        if let Part::Enum(enum_type) = part {
            let id = nested_enum(finder, within, seen);
            add_enum(finder, id, enum_type)?;
            seen = seen.saturating_add(1);
        }
        add_part(finder, within, part)?;
    }
    Ok(())
}

/// Adds the members of a message type to the others, and those of the types in it.
#[cycle(messages)]
fn add_message(finder: &mut Finder<'_>, message: &Message) -> Result<(), AllocError> {
    let id = finder.next;
    finder.next = id.saturating_add(1);
    let within = Within {
        id,
        is_wanted: finder.wanted.has_type(TypeId { index: id }),
    };
    add_parts(finder, within, &message.parts)
}

/// Adds the values of the file's next enum to the others.
fn add_file_enum(finder: &mut Finder<'_>, enum_type: &Enum) -> Result<(), AllocError> {
    let id = match finder.schema.parts().files.as_slice().get(finder.file) {
        Some(file) => file.enums.as_slice().get(finder.enums).copied(),
        None => None,
    };
    finder.enums = finder.enums.saturating_add(1);
    add_enum(finder, id, enum_type)
}

/// Adds the methods of the next service to the others, where they are wanted.
fn add_service(finder: &mut Finder<'_>, service: &Service) -> Result<(), AllocError> {
    let id = ServiceId {
        index: finder.services,
    };
    finder.services = finder.services.saturating_add(1);
    if finder.wanted.has_service(id) {
        add_methods(finder, id, &service.parts)
    } else {
        Ok(())
    }
}

fn add_statement(finder: &mut Finder<'_>, statement: &Statement) -> Result<(), AllocError> {
    match statement {
        Statement::Message(message) => add_message(finder, message),
        Statement::Enum(enum_type) => add_file_enum(finder, enum_type),
        Statement::Service(service) => add_service(finder, service),
        Statement::Empty(_) | Statement::Import(_) | Statement::Option(_) => Ok(()),
    }
}

fn add_statements(finder: &mut Finder<'_>, statements: &[Statement]) -> Result<(), AllocError> {
    for statement in statements {
        add_statement(finder, statement)?;
    }
    Ok(())
}

fn add_tree(finder: &mut Finder<'_>, tree: &FileTree) -> Result<(), AllocError> {
    add_statements(finder, &tree.statements)?;
    match &tree.packaged {
        Some(packaged) => add_statements(finder, &packaged.statements),
        None => Ok(()),
    }
}

/// The positions of the members of some declarations.
#[derive(Drop)]
pub(crate) struct Places<'a> {
    files: &'a Linked,
    spots: Spots,
}

impl Places<'_> {
    /// The position of the member.
    fn spot(&self, member: Member) -> Option<Spot> {
        match member {
            Member::Field { id, number } => {
                self.spots
                    .fields
                    .get(&(id.index, u64::from(number)))
                    .copied()
            }
            Member::Value { id, index } => self.spots.values.get(&(id.index, index)).copied(),
            Member::Method { id, index } => self.spots.methods.get(&(id.index, index)).copied(),
        }
    }

    /// Where the member is declared. `None` where it isn't there, or wasn't wanted.
    pub(crate) fn place(&self, alloc: Global, member: Member) -> Result<Option<Place>, AllocError> {
        let Some(spot) = self.spot(member) else {
            return Ok(None);
        };
        let Some((path, _)) = self.files.files().get_index(spot.file) else {
            return Ok(None);
        };
        Ok(Some(Place {
            file: String::from_str(alloc, path.as_str())?,
            line: spot.line,
            column: spot.column,
        }))
    }
}

/// The positions of the members that are wanted, by one pass over the files that declare the
/// schema.
pub(crate) fn places_of<'a>(
    alloc: Global,
    files: &'a Linked,
    schema: &Schema,
    wanted: &Wanted,
) -> Result<Places<'a>, AllocError> {
    let mut finder = Finder {
        wanted,
        schema,
        next: 0,
        file: 0,
        enums: 0,
        services: 0,
        cursor: Cursor::new(&[]),
        spots: Spots {
            fields: BTreeMap::new(alloc),
            values: BTreeMap::new(alloc),
            methods: BTreeMap::new(alloc),
        },
    };
    for file in 0..files.files().len() {
        if let Some((_, source)) = files.files().get_index(file) {
            finder.file = file;
            finder.enums = 0;
            finder.cursor = Cursor::new(&source.bytes);
            add_tree(&mut finder, &source.tree)?;
        }
    }
    Ok(Places {
        files,
        spots: finder.spots,
    })
}
