//! The records of a map's entry.

ghost use Rattle.std.specs.Prelude.{◌≡◌, List, Ok, IfOk, IfErr};
ghost use Rattle.pg_schema.specs.declared.parts.field.Element.{Element as TheElement};
ghost use Rattle.pg_schema.specs.Shape.{Shape};
ghost use Rattle.pg_wire.specs.Records.{WireRecord, records_of};
ghost use Rattle.pg_dyn.specs.reading.ByFields.{StopsFor};
ghost use Rattle.pg_dyn.specs.message_ref.BorrowedItems.{ItemKept};
ghost use Rattle.pg_dyn.specs.reading.EntryParts.{AreParts, ScalarsGood};
ghost use Rattle.pg_dyn.specs.reading.EntrySteps.{PartFits, WholeItem};
ghost use Rattle.pg_dyn.specs.reading.Held.{read_as};
ghost use Rattle.pg_dyn.specs.reading.ReadingOn.{IsNoMessage};

use crate::accept::is_own;
use crate::message_ref::ValueRef;
use crate::reading::elements::scalar_of;
use crate::reading::items::zero_of;
use crate::reading::scalar::item_in;
use crate::reading::stop::Stop;
use pg_schema::{Element, Scalar};
use pg_wire::{Record, Records};
use std::alloc::Global;

/// What is read of an entry of a map.
#[derive(Drop)]
pub(crate) struct Parts<'a> {
    pub(crate) key: Option<ValueRef<'a>>,
    /// The value, if that is no message.
    pub(crate) value: Option<ValueRef<'a>>,
    /// The records of a value that is a message.
    pub(crate) child: Vec<Record<'a>>,
}

impl<'a> Parts<'a> {
    ghost use Rattle.std.specs.Prelude.{◌++◌, ◌∷◌, [], OnOk};
    ghost use Rattle.pg_wire.specs.Reads.{seen_record};
    ghost use Rattle.pg_wire.specs.Records.{IsRecord};

    // Adds one of the records. One that neither the key nor the value takes is dropped.
    fn add(&mut self, key: Scalar, element: Element, found: Record<'a>) -> Result<(), Stop>
        requires { IsRecord (seen_record found) }
        ensures ok { OnOk result ((rs : List WireRecord) → AreParts key element rs self.old
            → AreParts key element (rs ++ seen_record found.entry ∷ []) self.new) }
        ensures err { IfErr result (StopsFor
            (ScalarsGood key element (seen_record found.entry ∷ []))) }
    {
        if found.number == 1 && is_own(found.wire_type, Element::Scalar(key)) {
            self.key = Some(item_in(key, found.body)?);
        } else if found.number == 2 && is_own(found.wire_type, element) {
            if let Element::Message(_) = element {
                self.child.push(found)?;
            } else {
                self.value = Some(item_in(scalar_of(element), found.body)?);
            }
        }
        Ok(())
    }
}

/// The parts of the entry that bytes are.
#[inline(never)]
pub(crate) fn read_parts<'a>(
    alloc: Global,
    key: Scalar,
    element: Element,
    bytes: &'a [u8],
) -> Result<Parts<'a>, Stop>
    ensures ok { IfOk result (λ parts. (rs : List WireRecord) × (records_of bytes.now ≡ Ok rs)
        × AreParts key element rs parts) }
    ensures err { IfErr result (StopsFor
        ((rs : List WireRecord) × (records_of bytes.now ≡ Ok rs) × ScalarsGood key element rs)) }
{
    let mut parts = Parts {
        key: None,
        value: None,
        child: Vec::new(alloc),
    };
    for found in Records::new(bytes) {
        match found {
            Ok(record) => parts.add(key, element, record)?,
            Err(_) => return Err(Stop::Fault),
        }
    }
    Ok(parts)
}

/// The item, or the zero of the scalar where there is none.
pub(crate) fn or_zero<'a>(scalar: Scalar, held: Option<ValueRef<'a>>) -> ValueRef<'a>
    ensures whole { (shape : Shape) (element : TheElement) → IsNoMessage element
        → read_as element ≡ scalar → WholeItem shape element held.entry result }
    ensures fits { (shape : Shape) (element : TheElement) → IsNoMessage element
        → read_as element ≡ scalar → PartFits shape element held.entry
        → ItemKept shape element result }
{
    match held {
        Some(value) => value,
        None => zero_of(scalar),
    }
}
