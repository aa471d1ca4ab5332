//! The records of a message, before it is known what they say together.

ghost use Rattle.std.specs.Prelude.{◌≡◌, ◌++◌, ◌<◌, List, Ok, OnOk, IfErr};
ghost use Rattle.pg_schema.specs.Invariant.{IsSchema};
ghost use Rattle.pg_schema.specs.Parts.{shape_of};
ghost use Rattle.pg_wire.specs.Reads.{seen_record};
ghost use Rattle.pg_wire.specs.Records.{IsRecord, WireRecord, records_of};
ghost use Rattle.pg_dyn.specs.declared.reading.stop.Stop.TheVariants as stops;
ghost use Rattle.pg_dyn.specs.reading.ByFields.{StopsFor};
ghost use Rattle.pg_dyn.specs.reading.Gathering.{AreGathered};

use crate::accept::accepts;
use crate::reading::oneof_runs::OneofRuns;
use crate::reading::stop::Stop;
use pg_schema::{Schema, TypeId};
use pg_wire::{Record, Records};
use std::alloc::Global;

/// The records of a message that is read.
#[derive(Drop)]
pub(crate) struct Gathered<'a> {
    /// Those that fields of the type accept, in the order of the bytes.
    pub(crate) known: Vec<Record<'a>>,
    /// The others, in that order.
    pub(crate) unknown: Vec<Record<'a>>,
    /// Which of the known ones count in the oneofs.
    pub(crate) oneof_runs: OneofRuns,
}

impl<'a> Gathered<'a> {
    ghost use Rattle.std.specs.Prelude.{[], ◌∷◌};
    ghost use Rattle.pg_schema.specs.Shape.{Shape};
    ghost use Rattle.pg_schema.specs.declared.parts.field.TypeId.{TypeId as TheTypeId};

    /// No records.
    pub(crate) fn new(alloc: Global) -> Gathered<'a>
        ensures { (shape : Shape) (type : TheTypeId) → AreGathered shape type [] result }
    {
        Gathered {
            known: Vec::new(alloc),
            unknown: Vec::new(alloc),
            oneof_runs: OneofRuns::new(alloc),
        }
    }

    // Adds a record.
    fn add(&mut self, schema: &Schema, type_id: TypeId, found: Record<'a>) -> Result<(), Stop>
        requires is_schema { IsSchema schema.now }
        requires is_record { IsRecord (seen_record found) }
        ensures ok { OnOk result ((rs : List WireRecord)
            → AreGathered (shape_of schema.now) type_id rs self.old
            → AreGathered (shape_of schema.now) type_id
            (rs ++ seen_record found.entry ∷ []) self.new) }
        ensures err { IfErr result (λ e. e ≡ stops.Memory) }
    {
        match schema.field(type_id, found.number) {
            Some(field) if accepts(field, found.wire_type) => {
                self.oneof_runs.note(field, self.known.len())?;
                self.known.push(found)?;
            }
            _ => self.unknown.push(found)?,
        }
        Ok(())
    }

    /// Adds the records of bytes.
    pub(crate) fn add_all(
        &mut self,
        schema: &Schema,
        type_id: TypeId,
        bytes: &'a [u8],
    ) -> Result<(), Stop>
        requires is_schema { IsSchema schema.now }
        ensures ok { OnOk result ((rs : List WireRecord) × (records_of bytes.now ≡ Ok rs)
            × ((before : List WireRecord)
            → AreGathered (shape_of schema.now) type_id before self.old
            → AreGathered (shape_of schema.now) type_id (before ++ rs) self.new)) }
        ensures err { IfErr result (StopsFor
            ((rs : List WireRecord) × (records_of bytes.now ≡ Ok rs))) }
    {
        for found in Records::new(bytes) {
            match found {
                Ok(record) => self.add(schema, type_id, record)?,
                Err(_) => return Err(Stop::Fault),
            }
        }
        Ok(())
    }
}
