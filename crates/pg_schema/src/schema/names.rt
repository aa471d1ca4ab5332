//! The table of full names.

ghost use Rattle.std.specs.Prelude.{◌≡◌, ◌^◌, ◌<◌, length, IfOk, IfErr};
ghost use Rattle.pg_schema.specs.declared.error.PartsError.TheVariants.{Invariant};
ghost use Rattle.pg_schema.specs.inner.Names.{IsTable};
ghost use Rattle.pg_schema.specs.Invariant.{HasDistinctNames};

use crate::error::PartsError;
use crate::parts::field::TypeId;
use crate::parts::message_type::MessageType;
use std::alloc::Global;
use std::collections::BTreeMap;

/// The index of each message type by its full name.
pub(crate) type Names = BTreeMap<String, TypeId>;

/// The table of the types' names. Refused where two types have one name.
pub(crate) fn names_of(alloc: Global, types: &[MessageType]) -> Result<Names, PartsError>
    requires { length types.now < 2 ^ 32 }
    ensures table { IfOk result (λ names. IsTable types.now names) }
    ensures twice { IfErr result (λ e. e ≡ Invariant → HasDistinctNames types.now → ⊥) }
{
    let mut names = BTreeMap::new(alloc);
    for (index, message_type) in types.iter().enumerate() {
        let id = TypeId {
            index: index as u32,
        };
        let Ok(name) = message_type.name.clone() else {
            return Err(PartsError::Memory);
        };
        match names.insert(name, id) {
            Ok(None) => {}
            Ok(Some(_)) => return Err(PartsError::Invariant),
            Err(_) => return Err(PartsError::Memory),
        }
    }
    Ok(names)
}
