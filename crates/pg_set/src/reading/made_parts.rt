//! The parts of a schema, made of what was outlined of a set.

ghost use Rattle.std.specs.Prelude.{◌≡◌, ◌⊎◌, None, Some, IfErr, IfOk, map};
ghost use Rattle.pg_set.specs.declared.error.Unstated.TheVariants.{Memory};
ghost use Rattle.pg_set.specs.inner.reading.OutlinedPlaces.{placed_file, placed_type};
ghost use Rattle.pg_set.specs.inner.reading.OutlinedRows.{row};
ghost use Rattle.pg_set.specs.inner.reading.Owners.{means_of};
ghost use Rattle.pg_set.specs.stated.Stated.{parts_by};
ghost use Rattle.pg_set.specs.stated.StatedEnums.{enum_type};
ghost use Rattle.pg_set.specs.stated.StatedFiles.{file};
ghost use Rattle.pg_set.specs.stated.StatedNames.{each};
ghost use Rattle.pg_set.specs.stated.StatedServices.{service};
ghost use Rattle.pg_set.specs.stated.StatedTypes.{message_type};
ghost use Rattle.pg_set.specs.stated.Views.{enum_view, file_view, parts_view, service_view, type_view};

use crate::error::Unstated;
use crate::reading::made_files::{file, service};
use crate::reading::made_types::{made_enum, made_type};
use crate::reading::names_table::NameTable;
use crate::reading::outline::{Outline, Outlined, OutlinedFile, OutlinedType};
use pg_schema::{EnumType, File, MessageType, Parts, Service};
use std::alloc::{AllocError, Global};

// The files.
fn all_files(
    alloc: Global,
    skips: bool,
    outlined: &[OutlinedFile<'_, '_>],
) -> Result<Vec<File>, Unstated>
    ensures made { IfOk result (λ made. each (file skips) (map placed_file outlined.now)
        ≡ Some (map file_view made.items)) }
    ensures refused { IfErr result (λ e. (e ≡ Memory)
        ⊎ (each (file skips) (map placed_file outlined.now) ≡ None)) }
{
    let mut files = Vec::new(alloc);
    for one in outlined {
        let made = file(alloc, skips, one)?;
        files.push(made)?;
    }
    Ok(files)
}

// The message types.
fn all_types(
    alloc: Global,
    names: &NameTable,
    outlined: &[OutlinedType<'_, '_>],
) -> Result<Vec<MessageType>, Unstated>
    ensures made { IfOk result (λ made. each (message_type (means_of names.now))
        (map placed_type outlined.now) ≡ Some (map type_view made.items)) }
    ensures refused { IfErr result (λ e. (e ≡ Memory)
        ⊎ (each (message_type (means_of names.now)) (map placed_type outlined.now) ≡ None)) }
{
    let mut types = Vec::new(alloc);
    for one in outlined {
        let made = made_type(alloc, names, one)?;
        types.push(made)?;
    }
    Ok(types)
}

// The enums.
fn all_enums(alloc: Global, outlined: &[Outlined<'_, '_>]) -> Result<Vec<EnumType>, AllocError>
    ensures { IfOk result (λ made. map enum_view made.items
        ≡ map enum_type (map row outlined.now)) }
{
    let mut enums = Vec::new(alloc);
    for one in outlined {
        let made = made_enum(alloc, one)?;
        enums.push(made)?;
    }
    Ok(enums)
}

// The services.
fn all_services(
    alloc: Global,
    names: &NameTable,
    outlined: &[Outlined<'_, '_>],
) -> Result<Vec<Service>, Unstated>
    ensures made { IfOk result (λ made. each (service (means_of names.now))
        (map row outlined.now) ≡ Some (map service_view made.items)) }
    ensures refused { IfErr result (λ e. (e ≡ Memory)
        ⊎ (each (service (means_of names.now)) (map row outlined.now) ≡ None)) }
{
    let mut services = Vec::new(alloc);
    for one in outlined {
        let made = service(alloc, names, one)?;
        services.push(made)?;
    }
    Ok(services)
}

/// The parts that the outlined files state. Refused, memory aside, only where they state none.
pub(crate) fn made_parts(
    alloc: Global,
    skips: bool,
    outline: &Outline<'_, '_>,
) -> Result<Parts, Unstated>
    ensures made { IfOk result (λ made. parts_by (means_of outline.now.names) skips
        (map placed_file outline.now.files.items) (map placed_type outline.now.types.items)
        (map row outline.now.enums.items) (map row outline.now.services.items)
        ≡ Some (parts_view made)) }
    ensures refused { IfErr result (λ e. (e ≡ Memory)
        ⊎ (parts_by (means_of outline.now.names) skips
        (map placed_file outline.now.files.items) (map placed_type outline.now.types.items)
        (map row outline.now.enums.items) (map row outline.now.services.items) ≡ None)) }
{
    let names = &outline.names;
    let files = all_files(alloc, skips, &outline.files)?;
    let types = all_types(alloc, names, &outline.types)?;
    let enums = all_enums(alloc, &outline.enums)?;
    let services = all_services(alloc, names, &outline.services)?;
    Ok(Parts {
        files,
        types,
        enums,
        services,
    })
}
