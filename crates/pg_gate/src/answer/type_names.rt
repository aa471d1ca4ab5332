//! The names of the message types that files declare.
ghost use Rattle.std.specs.Prelude.{IfErr, IfOk};
ghost use Rattle.pg_gate.specs.Failures.{side_failures};
ghost use Rattle.pg_call.specs.Paths.{paths_in};
ghost use Rattle.pg_gate.specs.answer.Files.{IsSideError};
ghost use Rattle.pg_gate.specs.answer.Grants.{OfSide};
ghost use Rattle.pg_link.specs.walk.Reads.{Reads};
ghost use Rattle.pg_gate.specs.inner.Sources.{world_of};
ghost use Rattle.pg_gate.specs.answer.TypeNames.{ListsTypes};

use crate::answer::compile::compile_files;
use crate::error::GateError;
use pg_call::Files;
use pg_lines::Side;
use pg_link::Sources;
use pg_schema::Schema;
use std::alloc::{AllocError, Global};

/// The full names of the schema's message types.
fn names_of(alloc: Global, schema: &Schema) -> Result<Vec<String>, AllocError>
    ensures { IfOk result (λ names. ListsTypes schema.now names.items) }
{
    let mut names = Vec::new(alloc);
    let types = schema.parts().types.as_slice();
    for message_type in types {
        names.push(String::from_str(alloc, message_type.name.as_str())?)?;
    }
    Ok(names)
}

/// The full names of the message types that the files declare, and those that they import.
pub(crate) fn type_names<S: Sources>(
    alloc: Global,
    source: &mut S,
    files: &Files<'_>,
) -> Result<Vec<String>, GateError>
    ensures named { IfOk result (λ names. OfSide
        (world_of S.Sources source.old (paths_in files.now))
        (λ schema. ListsTypes schema names.items)) }
    ensures refused { IfErr result (IsSideError
        (world_of S.Sources source.old (paths_in files.now)) Side.Old) }
    ensures reads { Reads S.Sources source.old source.new (side_failures Side.Old result) }
{
    let schema = compile_files(alloc, source, Side::Old, files)?.schema;
    let names = names_of(alloc, &schema)?;
    Ok(names)
}
