//! Messages, of which any field may hold messages again. What isn't on the way from a message to
//! one inside it, or only in a list, in a map or in a oneof, isn't inlined, so that a level takes
//! less of the stack.

ghost use Rattle.std.specs.Prelude.{◌≡◌, ◌≢◌, ◌<◌, ◌≤◌, List, [], ◌∷◌, map, length, suc, true, false, Some, OnOk, IfOk, IfErr, is_some};
ghost use Rattle.std.specs.List.{AllByRecursion};
ghost use Rattle.pg_schema.specs.declared.parts.field.Element.TheVariants as elements;
ghost use Rattle.pg_schema.specs.declared.parts.field.Presence.TheVariants as presences;
ghost use Rattle.pg_schema.specs.Invariant.{IsSchema};
ghost use Rattle.pg_schema.specs.Parts.{field_shape, shape_of};
ghost use Rattle.pg_schema.specs.ShapeRules.{IsField};
ghost use Rattle.pg_schema.specs.Shape.{fields, is_repeated};
ghost use Rattle.pg_wire.specs.Reads.{seen_record};
ghost use Rattle.pg_wire.specs.Records.{IsRecord, WireRecord};
ghost use Rattle.pg_dyn.specs.reading.ByFields.{AllCount, AreGood, AreOf, BodiesGood, HoldsOf, IsChildOf, IsEntryRead, RecordsGood, StopsFor};
ghost use Rattle.pg_dyn.specs.reading.Content.{is_unknown};
ghost use Rattle.pg_dyn.specs.message_ref.BorrowedItems.{ItemKept};
ghost use Rattle.pg_dyn.specs.reading.Decoding.{dec, read_records};
ghost use Rattle.pg_dyn.specs.fitting.Fits.{Fits};
ghost use Rattle.pg_dyn.specs.reading.Gathering.{AreGathered, AreOneofRuns, IsCounted, NumbersRise};
ghost use Rattle.pg_dyn.specs.message.Kept.{ends, message_of, type_of};
ghost use Rattle.pg_dyn.specs.message_ref.Borrowed.{HasKeys, IsFilled, fields_onto};
ghost use Rattle.pg_dyn.specs.message.Seen.{Rises};
ghost use Rattle.pg_dyn.specs.reading.Steps.{HeldFits, IsShallowIn};

use crate::message_ref::{ContentRef, EntryRef, MessageRef, ValueRef};
use crate::reading::elements::scalar_of;
use crate::reading::gathering::Gathered;
use crate::reading::oneof_runs::OneofRuns;
use crate::reading::ordering::last_of_keys;
use crate::reading::parts::{or_zero, read_parts};
use crate::reading::scalars::{read_last, read_list};
use crate::reading::sorting::{by_number, run_end};
use crate::reading::stop::Stop;
use pg_schema::{Element, Field, Presence, Scalar, Schema, TypeId};
use pg_wire::Record;
use std::alloc::Global;

// The message that the records' bodies are read as, one after the other. It may have as many
// levels, with its own.
#[cycle(reading)]
fn read_child<'a>(
    alloc: Global,
    schema: &Schema,
    type_id: TypeId,
    run: &[Record<'a>],
    levels: usize,
) -> Result<ValueRef<'a>, Stop>
    requires is_schema { IsSchema schema.now }
    requires type_id { type_id.index < length (shape_of schema.now) }
    ensures ok { IfOk result (IsChildOf (shape_of schema.now) type_id (map seen_record run.now)) }
    ensures fits { IfOk result (ItemKept (shape_of schema.now) (elements.Message type_id)) }
    ensures good { OnOk result (BodiesGood (shape_of schema.now) levels type_id
        (map seen_record run.now)) }
    ensures err { IfErr result (StopsFor
        (BodiesGood (shape_of schema.now) levels type_id (map seen_record run.now))) }
{
    if levels == 0 {
        return Err(Stop::Fault);
    }
    let mut gathered = Gathered::new(alloc);
    for record in run {
        gathered.add_all(schema, type_id, record.body)?;
    }
    let child = read_gathered(alloc, schema, type_id, gathered, levels - 1)?;
    Ok(ValueRef::Msg(Box::new(alloc, child)?))
}

// What a repeated field of messages holds.
#[cycle(reading)]
#[inline(never)]
fn read_children<'a>(
    alloc: Global,
    schema: &Schema,
    field: &Field,
    type_id: TypeId,
    run: &[Record<'a>],
    levels: usize,
) -> Result<Option<ContentRef<'a>>, Stop>
    requires is_schema { IsSchema schema.now }
    requires is_field { IsField (length (shape_of schema.now)) (field_shape field.now) }
    requires run { AreOf (field_shape field.now) (map seen_record run.now) }
    requires some { run.now ≢ [] }
    requires repeated { is_repeated field.now.presence ≡ true }
    requires of_type { field.now.element ≡ elements.Message type_id }
    ensures ok { IfOk result (HoldsOf (shape_of schema.now) (field_shape field.now)
        (map seen_record run.now)) }
    ensures fits { IfOk result (HeldFits (shape_of schema.now) (field_shape field.now)) }
    ensures good { OnOk result (AreGood (shape_of schema.now) levels (field_shape field.now)
        (map seen_record run.now)) }
    ensures err { IfErr result (StopsFor
        (AreGood (shape_of schema.now) levels (field_shape field.now) (map seen_record run.now))) }
{
    let mut values = Vec::with_capacity(alloc, run.len())?;
    for place in 0..run.len() {
        let child = read_child(alloc, schema, type_id, &run[place..place + 1], levels)?;
        values.push(child)?;
    }
    Ok(Some(ContentRef::Many(values)))
}

// The key and the value of the entry that a record of a map field holds. A missing one is its
// default.
#[cycle(reading)]
fn read_entry<'a>(
    alloc: Global,
    schema: &Schema,
    field: &Field,
    key: Scalar,
    found: &Record<'a>,
    levels: usize,
) -> Result<EntryRef<'a>, Stop>
    requires is_schema { IsSchema schema.now }
    requires is_field { IsField (length (shape_of schema.now)) (field_shape field.now) }
    requires of_map { field.now.presence ≡ presences.Map key }
    ensures ok { IfOk result (IsEntryRead (shape_of schema.now) key field.now.element
        (seen_record found.now)) }
    ensures good { OnOk result (AreGood (shape_of schema.now) levels (field_shape field.now)
        (seen_record found.now ∷ [])) }
    ensures err { IfErr result (StopsFor
        (AreGood (shape_of schema.now) levels (field_shape field.now)
        (seen_record found.now ∷ []))) }
{
    let element = field.element;
    let parts = read_parts(alloc, key, element, found.body)?;
    let whole_key = or_zero(key, parts.key);
    let value = match element {
        Element::Message(type_id) => {
            read_child(alloc, schema, type_id, parts.child.as_slice(), levels)?
        }
        Element::Scalar(_) | Element::Enum(_) => or_zero(scalar_of(element), parts.value),
    };
    Ok(EntryRef {
        key: whole_key,
        value,
    })
}

// What a map field holds: the entries by rising key, of each key the last.
#[cycle(reading)]
#[inline(never)]
fn read_map<'a>(
    alloc: Global,
    schema: &Schema,
    field: &Field,
    key: Scalar,
    run: &[Record<'a>],
    levels: usize,
) -> Result<Option<ContentRef<'a>>, Stop>
    requires is_schema { IsSchema schema.now }
    requires is_field { IsField (length (shape_of schema.now)) (field_shape field.now) }
    requires run { AreOf (field_shape field.now) (map seen_record run.now) }
    requires some { run.now ≢ [] }
    requires of_map { field.now.presence ≡ presences.Map key }
    ensures ok { IfOk result (HoldsOf (shape_of schema.now) (field_shape field.now)
        (map seen_record run.now)) }
    ensures fits { IfOk result (HeldFits (shape_of schema.now) (field_shape field.now)) }
    ensures good { OnOk result (AreGood (shape_of schema.now) levels (field_shape field.now)
        (map seen_record run.now)) }
    ensures err { IfErr result (StopsFor
        (AreGood (shape_of schema.now) levels (field_shape field.now) (map seen_record run.now))) }
{
    let mut entries = Vec::with_capacity(alloc, run.len())?;
    for record in run {
        entries.push(read_entry(alloc, schema, field, key, record, levels)?)?;
    }
    Ok(Some(ContentRef::Map(last_of_keys(alloc, entries)?)))
}

// What a field holds after records that it accepts and that all count. A level of nesting has one
// frame less on the stack, since this one is inlined.
#[cycle(reading)]
#[inline(always)]
fn read_content<'a>(
    alloc: Global,
    schema: &Schema,
    field: &Field,
    run: &[Record<'a>],
    levels: usize,
) -> Result<Option<ContentRef<'a>>, Stop>
    requires is_schema { IsSchema schema.now }
    requires is_field { IsField (length (shape_of schema.now)) (field_shape field.now) }
    requires run { AreOf (field_shape field.now) (map seen_record run.now) }
    requires some { run.now ≢ [] }
    ensures ok { IfOk result (HoldsOf (shape_of schema.now) (field_shape field.now)
        (map seen_record run.now)) }
    ensures fits { IfOk result (HeldFits (shape_of schema.now) (field_shape field.now)) }
    ensures good { OnOk result (AreGood (shape_of schema.now) levels (field_shape field.now)
        (map seen_record run.now)) }
    ensures err { IfErr result (StopsFor
        (AreGood (shape_of schema.now) levels (field_shape field.now) (map seen_record run.now))) }
{
    match (field.presence, field.element) {
        (Presence::Map { key }, _) => read_map(alloc, schema, field, key, run, levels),
        (Presence::Repeated { .. }, Element::Message(type_id)) => {
            read_children(alloc, schema, field, type_id, run, levels)
        }
        (Presence::Repeated { .. }, _) => read_list(alloc, field, run),
        (_, Element::Message(type_id)) => {
            let child = read_child(alloc, schema, type_id, run, levels)?;
            Ok(Some(ContentRef::One(child)))
        }
        _ => read_last(field, run),
    }
}

// The records that count. What the others say is dropped, but they have to be readable.
#[cycle(reading)]
#[inline(never)]
fn counted<'a>(
    alloc: Global,
    schema: &Schema,
    type_id: TypeId,
    known: &[Record<'a>],
    oneof_runs: &OneofRuns,
    levels: usize,
) -> Result<Vec<Record<'a>>, Stop>
    requires is_schema { IsSchema schema.now }
    requires are_records { AllByRecursion IsRecord (map seen_record known.now) }
    requires known { AllByRecursion (λ r. is_unknown (fields (shape_of schema.now) type_id) r
        ≡ false) (map seen_record known.now) }
    requires oneof_runs { AreOneofRuns (fields (shape_of schema.now) type_id)
        (map seen_record known.now) oneof_runs.now }
    ensures ok { IfOk result (λ left. IsCounted (fields (shape_of schema.now) type_id)
        (map seen_record known.now) (map seen_record left.items)) }
    ensures good { IfOk result (λ left. RecordsGood (shape_of schema.now) levels
        (fields (shape_of schema.now) type_id) (map seen_record left.items)
        → RecordsGood (shape_of schema.now) levels (fields (shape_of schema.now) type_id)
        (map seen_record known.now)) }
    ensures err { IfErr result (StopsFor
        (RecordsGood (shape_of schema.now) levels (fields (shape_of schema.now) type_id)
        (map seen_record known.now))) }
{
    let mut counted = Vec::new(alloc);
    for place in 0..known.len() {
        let record = known[place];
        if let Some(field) = schema.field(type_id, record.number) {
            if oneof_runs.counts(field, place) {
                counted.push(record)?;
            } else {
                read_content(alloc, schema, field, &known[place..place + 1], levels)?;
            }
        }
    }
    Ok(counted)
}

// How many contents records say at most, since a field has one.
fn most_contents(schema: &Schema, type_id: TypeId, records: &[Record<'_>]) -> usize
    ensures { result ≤ length records.now }
{
    match schema.message_type(type_id) {
        Some(message_type) => records.len().min(message_type.fields.len()),
        None => 0,
    }
}

// The contents that records by rising number say, which all count.
#[cycle(reading)]
fn read_contents<'a>(
    alloc: Global,
    schema: &Schema,
    type_id: TypeId,
    sorted: &[Record<'a>],
    levels: usize,
) -> Result<Vec<(u32, ContentRef<'a>)>, Stop>
    requires is_schema { IsSchema schema.now }
    requires type_id { type_id.index < length (shape_of schema.now) }
    requires rise { NumbersRise sorted.now }
    requires count { AllCount (fields (shape_of schema.now) type_id) (map seen_record sorted.now) }
    ensures ok { IfOk result (λ contents. read_records (dec (shape_of schema.now))
        (fields (shape_of schema.now) type_id) (map seen_record sorted.now)
        ≡ Some (message_of (fields_onto contents.items (ends type_id [])))) }
    ensures fits { IfOk result (λ contents. Fits (shape_of schema.now)
        (fields_onto contents.items (ends type_id []))) }
    ensures kept { IfOk result (λ contents. Rises contents.items
        × AllByRecursion (λ c. IsFilled c.1) contents.items
        × AllByRecursion (λ c. HasKeys c.1) contents.items) }
    ensures good { OnOk result (RecordsGood (shape_of schema.now) levels
        (fields (shape_of schema.now) type_id) (map seen_record sorted.now)) }
    ensures err { IfErr result (StopsFor
        (RecordsGood (shape_of schema.now) levels (fields (shape_of schema.now) type_id)
        (map seen_record sorted.now))) }
{
    let mut contents = Vec::with_capacity(alloc, most_contents(schema, type_id, sorted))?;
    let mut place = 0;
    while place < sorted.len() {
        let end = run_end(sorted, place);
        if let Some(field) = schema.field(type_id, sorted[place].number) {
            if let Some(content) = read_content(
                alloc,
                schema,
                field,
                &sorted[place..end],
                levels,
            )? {
                contents.push((field.number, content))?;
            }
        }
        place = end;
    }
    Ok(contents)
}

// The message that gathered records say. There may be as many levels of messages below it.
#[cycle(reading)]
fn read_gathered<'a>(
    alloc: Global,
    schema: &Schema,
    type_id: TypeId,
    gathered: Gathered<'a>,
    levels: usize,
) -> Result<MessageRef<'a>, Stop>
    requires is_schema { IsSchema schema.now }
    requires type_id { type_id.index < length (shape_of schema.now) }
    requires gathered { (rs : List WireRecord)
        × AreGathered (shape_of schema.now) type_id rs gathered }
    ensures ok { IfOk result (λ m. (rs : List WireRecord)
        → AreGathered (shape_of schema.now) type_id rs gathered.entry
        → read_records (dec (shape_of schema.now)) (fields (shape_of schema.now) type_id) rs
        ≡ Some (message_of m)) }
    ensures fits { IfOk result (λ m. Fits (shape_of schema.now) m × (type_of m ≡ type_id)) }
    ensures good { OnOk result ((rs : List WireRecord)
        → AreGathered (shape_of schema.now) type_id rs gathered.entry
        → RecordsGood (shape_of schema.now) levels (fields (shape_of schema.now) type_id) rs) }
    ensures err { IfErr result (λ e. (rs : List WireRecord)
        → AreGathered (shape_of schema.now) type_id rs gathered.entry
        → StopsFor (RecordsGood (shape_of schema.now) levels
        (fields (shape_of schema.now) type_id) rs) e) }
{
    let Gathered {
        known,
        unknown,
        oneof_runs,
    } = gathered;
    let left = if oneof_runs.all_count {
        known
    } else {
        counted(alloc, schema, type_id, &known, &oneof_runs, levels)?
    };
    let sorted = by_number(left)?;
    let fields = read_contents(alloc, schema, type_id, &sorted, levels)?;
    Ok(MessageRef {
        type_id,
        fields,
        unknown,
    })
}

/// The message of the type that bytes are read as. There may be as many levels of messages below
/// it.
pub(crate) fn read_message<'a>(
    alloc: Global,
    schema: &Schema,
    type_id: TypeId,
    bytes: &'a [u8],
    levels: usize,
) -> Result<MessageRef<'a>, Stop>
    requires is_schema { IsSchema schema.now }
    requires type_id { type_id.index < length (shape_of schema.now) }
    ensures ok { IfOk result (λ m. dec (shape_of schema.now) type_id bytes.now
        ≡ Some (message_of m)) }
    ensures fits { IfOk result (λ m. Fits (shape_of schema.now) m × (type_of m ≡ type_id)) }
    ensures shallow { OnOk result (IsShallowIn (shape_of schema.now) (suc levels)
        (fields (shape_of schema.now) type_id) bytes.now) }
    ensures err { IfErr result (StopsFor
        ((is_some (dec (shape_of schema.now) type_id bytes.now) ≡ true)
        × IsShallowIn (shape_of schema.now) (suc levels)
        (fields (shape_of schema.now) type_id) bytes.now)) }
{
    let mut gathered = Gathered::new(alloc);
    gathered.add_all(schema, type_id, bytes)?;
    read_gathered(alloc, schema, type_id, gathered, levels)
}
