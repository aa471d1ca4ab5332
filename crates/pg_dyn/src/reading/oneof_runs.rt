//! Which records of a oneof's members count: those after the last of another member (Protocol
//! Buffers language guide, "Oneof").

ghost use Rattle.std.specs.Prelude.{◌≡◌, ◌∷◌, ◌++◌, [], true, length, Some, OnOk, IfErr};
ghost use Rattle.pg_schema.specs.Parts.{field_shape};
ghost use Rattle.pg_dyn.specs.declared.reading.stop.Stop.TheVariants as stops;
ghost use Rattle.pg_dyn.specs.reading.Gathering.{counts_at};

use crate::reading::stop::Stop;
use pg_schema::Field;
use std::alloc::Global;
use std::collections::BTreeMap;

/// The last records of a oneof that are of one member: its number, and the index of the first of
/// them.
#[derive(Clone, Copy, Debug, Drop)]
pub(crate) struct OneofRun {
    pub(crate) number: u32,
    pub(crate) start: usize,
}

/// The last run of each oneof that has records.
#[derive(Drop)]
pub(crate) struct OneofRuns {
    pub(crate) by_oneof: BTreeMap<u32, OneofRun>,
    /// Whether each record counts.
    pub(crate) all_count: bool,
}

impl OneofRuns {
    ghost use Rattle.std.specs.Prelude.{List};
    ghost use Rattle.pg_schema.specs.Shape.{FieldShape, field_at};
    ghost use Rattle.pg_schema.specs.ShapeRules.{Rising};
    ghost use Rattle.pg_wire.specs.Records.{WireRecord};
    ghost use Rattle.pg_dyn.specs.reading.Content.{takes};
    ghost use Rattle.pg_dyn.specs.reading.Gathering.{AreOneofRuns};

    /// No records.
    pub(crate) fn new(alloc: Global) -> OneofRuns
        ensures { (fs : List FieldShape) → AreOneofRuns fs [] result }
    {
        OneofRuns {
            by_oneof: BTreeMap::new(alloc),
            all_count: true,
        }
    }

    /// Notes a record that the field accepts, which has that index among all that some field
    /// accepts.
    pub(crate) fn note(&mut self, field: &Field, place: usize) -> Result<(), Stop>
        ensures ok { OnOk result ((fs : List FieldShape) (rs : List WireRecord) (r : WireRecord)
            → Rising fs → field_at fs field.now.number ≡ Some (field_shape field.now)
            → takes (field_shape field.now) r ≡ true → length rs ≡ place
            → AreOneofRuns fs rs self.old → AreOneofRuns fs (rs ++ r ∷ []) self.new) }
        ensures err { IfErr result (λ e. e ≡ stops.Memory) }
    {
        let Some(oneof) = field.oneof else {
            return Ok(());
        };
        if let Some(oneof_run) = self.by_oneof.get(&oneof) {
            if oneof_run.number == field.number {
                return Ok(());
            }
            self.all_count = false;
        }
        let oneof_run = OneofRun {
            number: field.number,
            start: place,
        };
        self.by_oneof.insert(oneof, oneof_run)?;
        Ok(())
    }

    /// Whether the record of the field at that index counts.
    pub(crate) fn counts(&self, field: &Field, place: usize) -> bool
        ensures { result ≡ counts_at self.now (field_shape field.now) place }
    {
        let Some(oneof) = field.oneof else {
            return true;
        };
        match self.by_oneof.get(&oneof) {
            Some(oneof_run) => oneof_run.number == field.number && oneof_run.start <= place,
            None => false,
        }
    }
}
