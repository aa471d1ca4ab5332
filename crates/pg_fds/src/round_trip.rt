//! Schemas that are written and read again.

ghost use Rattle.std.specs.Prelude.{◌≡◌, ◌⊎◌, IfErr, IfOk};
ghost use Rattle.pg_schema.specs.rules.Sound.{IsSound};
ghost use Rattle.pg_fds.specs.declared.error.FdsError.TheVariants as errors;
ghost use Rattle.pg_set.specs.round_trip.Readable.{IsReadAgain};
ghost use Rattle.pg_set.specs.stated.Views.{parts_view};
ghost use Rattle.pg_fds.specs.round_trip.ReadAgain.{IsTooLong, MayRefuseAgain, SetStates};

use crate::error::FdsError;
use crate::reading::read;
use crate::writing::write;
use pg_schema::Schema;
use pg_set::laws::read_again_are_readable;
use std::alloc::Global;

/// The schema that `read` makes of what `write` writes. Where each file imports no path twice and
/// comes after those that it imports, message types are nested at most 64 deep, and all is
/// numbered as `read` numbers it, it is the schema that is written, and the errors are `Memory`,
/// and `Bytes` of `TooLong`, only where the schema has no set.
///
/// Of any other it is a schema that the same set states, and the errors are those of `write` and of
/// `read`.
#[tactic(auto, using(crate::proofs::lemmas::ReadAgain::write_refused))]
pub fn read_again(alloc: Global, schema: &Schema) -> Result<Schema, FdsError>
    ensures stated { IfOk result (SetStates schema.now) }
    ensures sound { IfOk result IsSound }
    ensures same { IfOk result (λ made. IsReadAgain schema.now
        → parts_view made ≡ parts_view schema.now) }
    ensures refused { IfErr result (λ e. IsReadAgain schema.now
        → (e ≡ errors.Memory) ⊎ IsTooLong schema.now e) }
    ensures reported { IfErr result (MayRefuseAgain schema.now) }
{
    // What holds of every schema, and of each that is read again.
    schema.parts();
    read_again_are_readable();
    let bytes = write(alloc, schema)?;
    read(alloc, bytes.as_slice())
}
