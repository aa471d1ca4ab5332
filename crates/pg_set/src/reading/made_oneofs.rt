//! The oneofs that a set's fields are in, and which of them are synthetic.

ghost use Rattle.std.specs.Prelude.{◌≡◌, ◌<◌, true, IfErr, IfOk, IfSome, OnOk, length, map};
ghost use Rattle.std.specs.List.{list_all};
ghost use Rattle.pg_dyn.specs.message.Kept.{message_of};
ghost use Rattle.pg_set.specs.declared.error.Unstated.TheVariants.{Memory};
ghost use Rattle.pg_set.specs.inner.Lent.{lent};
ghost use Rattle.pg_set.specs.declared.descriptor.proto.TheConstants as proto;
ghost use Rattle.pg_set.specs.stated.SetMessages.{text_at};
ghost use Rattle.pg_set.specs.stated.FileMessages.{is_place};
ghost use Rattle.pg_set.specs.inner.reading.Made.{AreMarked, AreRanks};
ghost use Rattle.pg_set.specs.stated.TypeMessages.{real_oneofs, synthetic_places};
ghost use Rattle.pg_set.specs.stated.StatedOneofs.{oneof, own_oneof, place_marked, real_oneof, real_place};

use crate::descriptor::access::{SetMessage, flag, maybe_number, place_in, text};
use crate::descriptor::proto;
use crate::error::Unstated;
use std::alloc::{AllocError, Global};
use std::marker::Model;

// ---- synthetic oneofs

/// Of each of so many indices, whether it is among the numbers, which are all of such indices.
pub(crate) fn marks(alloc: Global, numbers: &[i128], count: usize) -> Result<Vec<bool>, Unstated>
    ensures marks { IfOk result (λ marks. AreMarked numbers.now count marks.items) }
    ensures places { OnOk result (list_all (is_place count) numbers.now ≡ true) }
    ensures refused { IfErr result (λ e. list_all (is_place count) numbers.now ≡ true
        → e ≡ Memory) }
{
    let mut marks = vec![in alloc; false; count]?;
    for number in numbers {
        let place = place_in(number, count)?;
        marks[place] = true;
    }
    Ok(marks)
}

/// The indices of the oneofs that fields marked `proto3_optional` name.
pub(crate) fn synthetic_places(
    alloc: Global,
    fields: &[SetMessage<'_, '_>],
) -> Result<Vec<i128>, AllocError>
    ensures { IfOk result (λ places. places.items
        ≡ synthetic_places (map message_of fields.now)) }
{
    let mut places = Vec::new(alloc);
    for field in fields {
        if !flag(field, proto::FIELD_PROTO3_OPTIONAL) {
            continue;
        }
        let Some(place) = maybe_number(field, proto::FIELD_ONEOF_INDEX) else {
            continue;
        };
        places.push(place)?;
    }
    Ok(places)
}

/// The names of the oneofs at indices that aren't marked.
pub(crate) fn real_names<'b, 'a>(
    alloc: Global,
    oneofs: &[SetMessage<'b, 'a>],
    numbers: &[i128],
    marks: &[bool],
) -> Result<Vec<&'a str>, AllocError>
    requires { AreMarked numbers.now (length oneofs.now) marks.now }
    ensures { IfOk result (λ names. lent names.items
        ≡ map (text_at proto.ONEOF_NAME)
        (real_oneofs numbers.now 0 (map message_of oneofs.now))) }
{
    let mut names = Vec::new(alloc);
    for (place, oneof) in oneofs.iter().enumerate() {
        if !marks[place] {
            names.push(text(oneof, proto::ONEOF_NAME))?;
        }
    }
    Ok(names)
}

// ---- the oneof of a field

/// Of each oneof of a message type whether it is synthetic, and its rank, which is how many real
/// ones come before it. Contracts see which are synthetic.
#[derive(Drop)]
pub(crate) struct OneofMarks {
    synthetic: Vec<bool>,
    ranks: Vec<usize>,
}

impl Model for OneofMarks {
    ghost use Rattle.std.specs.Prelude.{Bool, List, length};
    ghost use Rattle.pg_set.specs.inner.reading.Made.{AreRanks};

    ghost Value = { List Bool };

    ghost view = { λ m. m.synthetic.items };

    ghost invariant = { λ m. AreRanks m.synthetic.items (length m.synthetic.items) m.ranks.items };
}

impl OneofMarks {
    ghost use Rattle.std.specs.Prelude.{◌≡◌, ◌<◌, IfOk, length};
    ghost use Rattle.pg_set.specs.stated.StatedOneofs.{unmarked};

    /// Oneofs of which these are synthetic.
    pub(crate) fn new(alloc: Global, synthetic: Vec<bool>) -> Result<OneofMarks, AllocError>
        ensures { IfOk result (λ marks. marks ≡ synthetic.items) }
    {
        let ranks = ranks(alloc, &synthetic)?;
        Ok(OneofMarks { synthetic, ranks })
    }

    // Which are synthetic.
    fn synthetic(&self) -> &[bool]
        ensures { result.now ≡ self.now }
    {
        &self.synthetic
    }

    // The rank of the one at that index.
    #[tactic(auto, using(crate::proofs::lemmas::reading::OneofRanks::rank_is))]
    fn rank(&self, place: usize) -> usize
        requires { place < length self.now }
        ensures { result ≡ unmarked self.now place }
    {
        self.ranks[place]
    }
}

// Of each index how many of the marks in front are false.
fn ranks(alloc: Global, marks: &[bool]) -> Result<Vec<usize>, AllocError>
    ensures { IfOk result (λ found. AreRanks marks.now (length marks.now) found.items) }
{
    let mut found = Vec::new(alloc);
    let mut count = 0;
    for mark in marks {
        found.push(count)?;
        if !*mark {
            count += 1;
        }
    }
    Ok(found)
}

// The index that a number is, which has this mark.
fn place_marked(marks: &[bool], mark: bool, number: i128) -> Option<usize>
    ensures place { result ≡ place_marked marks.now mark number }
    ensures within { IfSome result (λ place. place < length marks.now) }
{
    let Ok(place) = place_in(&number, marks.len()) else {
        return None;
    };
    if marks[place] != mark {
        return None;
    }
    Some(place)
}

// The index among the real oneofs of the one that a number says.
fn real_place(marks: &OneofMarks, number: i128) -> Option<u32>
    ensures { result ≡ real_place marks.now number }
{
    let place = place_marked(marks.synthetic(), false, number)?;
    match u32::try_from(marks.rank(place)) {
        Ok(own) => Some(own),
        Err(_) => None,
    }
}

// The real oneof of a field that isn't `optional`.
fn real_oneof(marks: &OneofMarks, named: Option<i128>) -> Option<Option<u32>>
    ensures { result ≡ real_oneof marks.now named }
{
    match named {
        None => Some(None),
        Some(number) => Some(Some(real_place(marks, number)?)),
    }
}

// That of one that is, which is alone in a synthetic one.
fn own_oneof(synthetic: &[bool], members: &[usize], named: Option<i128>) -> Option<Option<u32>>
    ensures { result ≡ own_oneof synthetic.now members.now named }
{
    let place = place_marked(synthetic, true, named?)?;
    match members.get(place) {
        Some(count) if *count == 1 => Some(None),
        _ => None,
    }
}

/// The real oneof of a field, by its index among those, where it is known of each oneof whether it
/// is synthetic and how many fields name it.
pub(crate) fn oneof(
    marks: &OneofMarks,
    members: &[usize],
    message: &SetMessage<'_, '_>,
) -> Option<Option<u32>>
    ensures { result ≡ oneof marks.now members.now (message_of message.now) }
{
    let named = maybe_number(message, proto::FIELD_ONEOF_INDEX);
    if flag(message, proto::FIELD_PROTO3_OPTIONAL) {
        return own_oneof(marks.synthetic(), members, named);
    }
    real_oneof(marks, named)
}
