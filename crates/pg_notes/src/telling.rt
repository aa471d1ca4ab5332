//! What is told of two schemas.

ghost use Rattle.std.specs.Prelude.{◌≡◌, ◌++◌, IfOk, OnOk};
ghost use Rattle.pg_notes.specs.Notes.{all_enum_notes, all_service_notes, notes, type_notes};

use crate::enums::tell_enum;
use crate::fields::tell_type;
use crate::note::{EnumPair, Note, ServicePair, TypePair};
use crate::services::{Schemas, tell_gone, tell_service};
use crate::tables::{item_at, names_of, place_in};
use pg_schema::{EnumId, Schema, ServiceId, TypeId};
use std::alloc::{AllocError, Global};

/// Appends what is told of the message types that both schemas declare.
fn tell_types(
    alloc: Global,
    told: &mut Vec<Note>,
    old: &Schema,
    new: &Schema,
) -> Result<(), AllocError>
    ensures { OnOk result (told.new.items ≡ told.old.items ++ type_notes old.now new.now) }
{
    let old_types = old.parts().types.as_slice();
    for index in 0..old_types.len() {
        let old_type = &old_types[index];
        if let Some(id) = new.message(old_type.name.as_str()) {
            let types = TypePair {
                old: TypeId {
                    index: index as u32,
                },
                new: id,
            };
            tell_type(alloc, told, new, types, &old_type.fields)?;
        }
    }
    Ok(())
}

/// Appends what is told of the enums that both schemas declare.
fn tell_enums(
    alloc: Global,
    told: &mut Vec<Note>,
    old: &Schema,
    new: &Schema,
) -> Result<(), AllocError>
    ensures { OnOk result (told.new.items ≡ told.old.items ++ all_enum_notes old.now new.now) }
{
    let new_enums = new.parts().enums.as_slice();
    let names = names_of(alloc, new_enums)?;
    let old_enums = old.parts().enums.as_slice();
    for (index, enum_type) in old_enums.iter().enumerate() {
        if let Some(place) = place_in(&names, enum_type.name.as_str()) {
            let enums = EnumPair {
                old: EnumId { index },
                new: EnumId { index: place },
            };
            tell_enum(
                alloc,
                told,
                enums,
                &enum_type.values,
                item_at(new_enums, place),
            )?;
        }
    }
    Ok(())
}

/// Appends what is told of the services of the old schema.
fn tell_services(
    alloc: Global,
    told: &mut Vec<Note>,
    old: &Schema,
    new: &Schema,
) -> Result<(), AllocError>
    ensures { OnOk result (told.new.items ≡ told.old.items ++ all_service_notes old.now new.now) }
{
    let names = names_of(alloc, new.parts().services.as_slice())?;
    let old_services = old.parts().services.as_slice();
    for (index, service) in old_services.iter().enumerate() {
        let id = ServiceId { index };
        match place_in(&names, service.name.as_str()) {
            Some(place) => {
                let services = ServicePair {
                    old: id,
                    new: ServiceId { index: place },
                };
                tell_service(
                    alloc,
                    told,
                    Schemas { old, new },
                    services,
                    &service.methods,
                )?;
            }
            None => tell_gone(told, id, &service.methods)?,
        }
    }
    Ok(())
}

/// What may be told of two schemas beside their causes of breaking, however their messages are
/// read.
///
/// Refused only where memory is.
pub fn notes(alloc: Global, old: &Schema, new: &Schema) -> Result<Vec<Note>, AllocError>
    ensures { IfOk result (λ told. told.items ≡ notes old.now new.now) }
{
    let mut told = Vec::new(alloc);
    tell_types(alloc, &mut told, old, new)?;
    tell_enums(alloc, &mut told, old, new)?;
    tell_services(alloc, &mut told, old, new)?;
    Ok(told)
}
