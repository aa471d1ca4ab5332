//! A walk over the imports of files.

ghost use Rattle.std.specs.Prelude.{◌≡◌, ◌⊎◌, ◌<◌, ◌++◌, ◌∷◌, [], ℕ, Some, IfErr, IfOk, OnOk, length, slice_get};
ghost use Rattle.pg_schema.specs.standing.Places.{places_from};
ghost use Rattle.pg_set.specs.declared.error.Unstated.TheVariants as errors;
ghost use Rattle.pg_set.specs.declared.reading.walk.Seen.TheVariants as seen;
ghost use Rattle.pg_set.specs.inner.reading.Walks.{AreWithin, Ends, Enters, Falls, IsStep, IsWalk, Walks, lists_of};

use crate::error::Unstated;
use std::alloc::Global;

// How far the walk has come with a file.
#[derive(Clone, Copy, PartialEq, Eq)]
enum Seen {
    Not,
    Open,
    Done,
}

// A file that is open, and how many of its imports were looked at.
#[derive(Clone, Copy)]
struct Open {
    place: usize,
    next: usize,
}

// The files that are done, in order, and those that are open.
#[derive(Drop)]
struct Walk {
    seen: Vec<Seen>,
    opened: Vec<Open>,
    done: Vec<usize>,
}

impl Walk {
    // Opens a file where it wasn't seen; one that is open is on a circle.
    fn enter(&mut self, place: usize) -> Result<(), Unstated>
        requires { place < length self.old.seen.items }
        ensures entered { OnOk result (Enters place self.old self.new) }
        ensures refused { IfErr result
            (λ e. (e ≡ errors.Memory) ⊎ (slice_get self.old.seen.items place ≡ Some seen.Open)) }
    {
        match self.seen[place] {
            Seen::Done => Ok(()),
            Seen::Open => Err(Unstated::Reference),
            Seen::Not => {
                self.opened.push(Open { place, next: 0 })?;
                self.seen[place] = Seen::Open;
                Ok(())
            }
        }
    }

    // Goes on with the file that was opened last: with its next import, or to its end.
    fn step(&mut self, imported: &[Vec<usize>], top: Open) -> Result<(), Unstated>
        requires within { AreWithin (length imported.now) (lists_of imported.now) }
        requires walk { IsWalk (lists_of imported.now) self.old.seen.items
            (self.old.opened.items ++ top ∷ []) self.old.done.items }
        ensures step { OnOk result (IsStep (lists_of imported.now) self.old.seen.items
            (self.old.opened.items ++ top ∷ []) self.old.done.items self.new) }
        ensures refused { IfErr result
            (λ e. (e ≡ errors.Memory) ⊎ ((rank : ℕ → ℕ) → Falls rank (lists_of imported.now) → ⊥)) }
    {
        let own = imported[top.place].as_slice();
        if top.next >= own.len() {
            self.done.push(top.place)?;
            self.seen[top.place] = Seen::Done;
            return Ok(());
        }
        self.opened.push(Open {
            place: top.place,
            next: top.next + 1,
        })?;
        self.enter(own[top.next])
    }

    // Goes on until no file is open.
    fn finish(&mut self, imported: &[Vec<usize>]) -> Result<(), Unstated>
        requires within { AreWithin (length imported.now) (lists_of imported.now) }
        requires walk { IsWalk (lists_of imported.now) self.old.seen.items self.old.opened.items
            self.old.done.items }
        ensures walk { OnOk result (IsWalk
            (lists_of imported.now) self.new.seen.items [] self.new.done.items) }
        ensures closed { OnOk result (self.new.opened.items ≡ []) }
        ensures on { OnOk result (Ends
            (lists_of imported.now) self.old.opened.items self.old.done.items self.new.done.items) }
        ensures refused { IfErr result
            (λ e. (e ≡ errors.Memory) ⊎ ((rank : ℕ → ℕ) → Falls rank (lists_of imported.now) → ⊥)) }
    {
        while let Some(top) = self.opened.pop() {
            self.step(imported, top)?;
        }
        Ok(())
    }
}

/// The indices of the files, each after those that it imports: in post-order, begun at the files in
/// their order. Refused, memory aside, only where imports form a cycle.
pub(crate) fn post_order(alloc: Global, imported: &[Vec<usize>]) -> Result<Vec<usize>, Unstated>
    requires { AreWithin (length imported.now) (lists_of imported.now) }
    ensures ok { IfOk result (λ order. Walks (lists_of imported.now) []
        (places_from 0 (length imported.now)) order.items) }
    ensures refused { IfErr result (λ e. (e ≡ errors.Memory)
        ⊎ ((rank : ℕ → ℕ) → Falls rank (lists_of imported.now) → ⊥)) }
{
    let mut walk = Walk {
        seen: vec![in alloc; Seen::Not; imported.len()]?,
        opened: Vec::new(alloc),
        done: Vec::new(alloc),
    };
    for place in 0..imported.len() {
        walk.enter(place)?;
        walk.finish(imported)?;
    }
    Ok(walk.done)
}
