//! Records by rising number.

ghost use Rattle.std.specs.Prelude.{◌≡◌, ◌≢◌, ◌-◌, ◌<◌, ◌≤◌, length, take, drop, get_or, IfOk, IsTrue};
ghost use Rattle.std.specs.List.{AllByRecursion};
ghost use Rattle.pg_wire.specs.declared.record.Record.{Record as TheRecord};
ghost use Rattle.pg_dyn.specs.reading.Gathering.{AreByNumber, NumbersRise};

use pg_wire::Record;
use std::alloc::AllocError;

// Whether no number is below the one before.
fn in_order(records: &[Record<'_>]) -> bool
    ensures { IsTrue result → NumbersRise records.now }
{
    let mut last = 0;
    for record in records {
        if record.number < last {
            return false;
        }
        last = record.number;
    }
    true
}

/// The records by rising number; those of one number stay in their order.
#[inline(never)]
pub(crate) fn by_number(records: Vec<Record<'_>>) -> Result<Vec<Record<'_>>, AllocError>
    ensures { IfOk result (λ sorted. AreByNumber records.entry.items sorted.items) }
{
    let mut sorted = records;
    if !in_order(&sorted) {
        sorted.sort_by(|first, second| first.number.cmp(&second.number))?;
    }
    Ok(sorted)
}

/// Where the records end that have the number of the one at the index.
pub(crate) fn run_end(records: &[Record<'_>], place: usize) -> usize
    requires { place < length records.now }
    ensures later { place < result }
    ensures inside { result ≤ length records.now }
    ensures run { (d : TheRecord) → AllByRecursion
        (λ (r : TheRecord). r.number ≡ (get_or records.now place d).number)
        (take (result - place) (drop place records.now)) }
    ensures beyond { (d : TheRecord) → result < length records.now
        → (get_or records.now result d).number ≢ (get_or records.now place d).number }
{
    let number = records[place].number;
    let mut end = place + 1;
    while end < records.len() && records[end].number == number {
        end += 1;
    }
    end
}
