//! Contents of fields whose items are no messages.

ghost use Rattle.std.specs.Prelude.{◌≡◌, ◌≢◌, ℕ, [], map, true, false, IfOk, IfErr, OnOk};
ghost use Rattle.pg_schema.specs.Parts.{field_shape};
ghost use Rattle.pg_schema.specs.Shape.{Shape, is_map, is_packable, is_repeated};
ghost use Rattle.pg_wire.specs.Reads.{seen_record};
ghost use Rattle.pg_dyn.specs.word.Coding.{scalar_form};
ghost use Rattle.pg_dyn.specs.word.NumberLists.{number_item};
ghost use Rattle.pg_dyn.specs.reading.Held.{read_as};
ghost use Rattle.pg_dyn.specs.reading.ByFields.{AreGood, AreOf, HoldsOf, StopsFor};
ghost use Rattle.pg_dyn.specs.reading.ItemRuns.{AllRead, AreItemsOf};
ghost use Rattle.pg_dyn.specs.reading.ReadingOn.{IsNoMessage};
ghost use Rattle.pg_dyn.specs.reading.Steps.{HeldFits};

use crate::accept::is_own;
use crate::encoding::body::wire_type_of;
use crate::message_ref::{ContentRef, ValueRef};
use crate::reading::elements::scalar_of;
use crate::reading::items::{left, list_left, numbers_left};
use crate::reading::packed::push_packed;
use crate::reading::scalar::{body_word, item_in};
use crate::reading::stop::Stop;
use pg_schema::Field;
use pg_wire::Record;
use std::alloc::Global;

/// What a singular field holds after records of one item each: the last.
pub(crate) fn read_last<'a>(
    field: &Field,
    run: &[Record<'a>],
) -> Result<Option<ContentRef<'a>>, Stop>
    requires run { AreOf (field_shape field.now) (map seen_record run.now) }
    requires some { run.now ≢ [] }
    requires singular { is_repeated field.now.presence ≡ false }
    requires no_map { is_map field.now.presence ≡ false }
    requires no_message { IsNoMessage field.now.element }
    ensures ok { IfOk result (λ held. (shape : Shape)
        → HoldsOf shape (field_shape field.now) (map seen_record run.now) held) }
    ensures fits { IfOk result (λ held. (shape : Shape)
        → HeldFits shape (field_shape field.now) held) }
    ensures good { (shape : Shape) (levels : ℕ)
        → OnOk result (AreGood shape levels (field_shape field.now) (map seen_record run.now)) }
    ensures err { (shape : Shape) (levels : ℕ)
        → IfErr result (StopsFor (AreGood shape levels (field_shape field.now)
        (map seen_record run.now))) }
{
    let scalar = scalar_of(field.element);
    let mut held = None;
    for record in run {
        held = Some(item_in(scalar, record.body)?);
    }
    Ok(match held {
        Some(value) => left(field.presence, value),
        None => None,
    })
}

// The items of the records, which are strings or bytes.
fn read_items<'a>(
    alloc: Global,
    field: &Field,
    run: &[Record<'a>],
) -> Result<Vec<ValueRef<'a>>, Stop>
    requires run { AreOf (field_shape field.now) (map seen_record run.now) }
    requires repeated { is_repeated field.now.presence ≡ true }
    requires no_message { IsNoMessage field.now.element }
    requires single { is_packable field.now.element ≡ false }
    ensures ok { IfOk result (λ values. AreItemsOf (field_shape field.now)
        (map seen_record run.now) values.items) }
    ensures err { IfErr result (StopsFor
        (AllRead (field_shape field.now) (map seen_record run.now))) }
{
    let scalar = scalar_of(field.element);
    let mut values = Vec::new(alloc);
    for record in run {
        values.push(item_in(scalar, record.body)?)?;
    }
    Ok(values)
}

// The numbers of the records, packed or not, as words.
fn read_words(alloc: Global, field: &Field, run: &[Record<'_>]) -> Result<Vec<u64>, Stop>
    requires run { AreOf (field_shape field.now) (map seen_record run.now) }
    requires repeated { is_repeated field.now.presence ≡ true }
    requires no_message { IsNoMessage field.now.element }
    requires packable { is_packable field.now.element ≡ true }
    ensures ok { IfOk result (λ words. AreItemsOf (field_shape field.now)
        (map seen_record run.now)
        (map (number_item (scalar_form (read_as field.now.element))) words.items)) }
    ensures err { IfErr result (StopsFor
        (AllRead (field_shape field.now) (map seen_record run.now))) }
{
    let scalar = scalar_of(field.element);
    let mut words = Vec::new(alloc);
    for record in run {
        if is_own(record.wire_type, field.element) {
            words.push(body_word(wire_type_of(scalar), record.body))?;
        } else {
            push_packed(scalar, &mut words, record.body)?;
        }
    }
    Ok(words)
}

/// What a repeated field holds after records: the items of all, packed or not.
#[inline(never)]
pub(crate) fn read_list<'a>(
    alloc: Global,
    field: &Field,
    run: &[Record<'a>],
) -> Result<Option<ContentRef<'a>>, Stop>
    requires run { AreOf (field_shape field.now) (map seen_record run.now) }
    requires some { run.now ≢ [] }
    requires repeated { is_repeated field.now.presence ≡ true }
    requires no_message { IsNoMessage field.now.element }
    ensures ok { IfOk result (λ held. (shape : Shape)
        → HoldsOf shape (field_shape field.now) (map seen_record run.now) held) }
    ensures fits { IfOk result (λ held. (shape : Shape)
        → HeldFits shape (field_shape field.now) held) }
    ensures good { (shape : Shape) (levels : ℕ)
        → OnOk result (AreGood shape levels (field_shape field.now) (map seen_record run.now)) }
    ensures err { (shape : Shape) (levels : ℕ)
        → IfErr result (StopsFor (AreGood shape levels (field_shape field.now)
        (map seen_record run.now))) }
{
    if field.element.is_packable() {
        let words = read_words(alloc, field, run)?;
        return Ok(numbers_left(scalar_of(field.element), words));
    }
    Ok(list_left(read_items(alloc, field, run)?))
}
