//! What becomes of a batch that is put in.

ghost use Rattle.std.specs.Prelude.{◌≡◌, ◌≤◌, ◌<◌, ◌+◌, ◌-◌, ◌^◌, ◌==◌, ◌∷◌, ◌++◌, [], length};
ghost use Rattle.ref_base.specs.Outs.{out_of, added_in, out_at};

use crate::{Done, MOST_IN_BATCH, Out};
use std::marker::Model;

/// What became of each item of a batch that was tried, in order, kept in place: at most 32. The positions of those that
/// were added follow one another, so that only how many were put in before the batch is kept (this project's profile).
/// No call of it takes memory.
#[derive(Clone, Copy, Debug, PartialEq, Eq)]
pub struct Outs {
    // How many were ever put into the queue before the batch.
    before: u64,
    done: [Done; MOST_IN_BATCH],
    // At most 32. Behind them `Added` stands.
    count: u8,
}

impl Model for Outs {
    ghost use Rattle.std.specs.Prelude.{◌<◌, ◌^◌, length, take};
    ghost use Rattle.ref_base.specs.Filled.{filled, IsFilled};
    ghost use Rattle.ref_base.specs.Outs.{Outs as Data};
    ghost use Rattle.ref_base.specs.declared.out.Done.TheVariants.{Added};

    ghost Value = { Data };

    ghost view = { λ o. record { before = o.before; done = take o.count o.done } };

    ghost invariant = { λ o. (o.before < 2 ^ 63) × IsFilled Added o.done o.count };

    ghost inverse = { λ d. record { before = d.before; done = filled Added d.done; count = length d.done } };

    ghost inverse_ok = { λ o h i. record { before = o.before; done = h.1.behind i; count = h.1.counted i } };
}

impl Outs {
    /// Of no items yet, where so many were put in before.
    pub fn new(before: u64) -> Self
        requires { before < 2 ^ 63 }
        ensures { result ≡ record { before = before; done = [] } }
    {
        Outs {
            before,
            done: [Done::Added; MOST_IN_BATCH],
            count: 0,
        }
    }

    /// How many there are: at most 32.
    pub fn len(&self) -> usize
        ensures count { result ≡ length self.now.done }
        ensures few { result ≤ 32 }
    {
        usize::from(self.count)
    }

    /// Whether there is none.
    pub fn is_empty(&self) -> bool
        ensures { result ≡ (length self.now.done == 0) }
    {
        self.len() == 0
    }

    /// What became of the item at this place, from 0 on, if it was tried. In time of the place.
    pub fn get(&self, place: usize) -> Option<Out>
        ensures { result ≡ out_at self.now place }
    {
        let done = self.as_slice();
        if place >= done.len() {
            return None;
        }
        let before = self.before + u64::from(added_in(&done[..place]));
        Some(out_of(before, done[place]))
    }

    /// How many were ever put into the queue before the batch. Takes no memory.
    pub fn before(&self) -> u64
        ensures before { result ≡ self.now.before }
        ensures few { result < 2 ^ 63 }
    {
        self.before
    }

    /// What became of each item that was tried, in order, but for the positions. Takes no memory.
    pub fn as_slice(&self) -> &[Done]
        ensures done { result.now ≡ self.now.done }
        ensures few { length result.now ≤ 32 }
    {
        &self.done[..usize::from(self.count)]
    }

    /// One more, last.
    pub fn push(&mut self, done: Done)
        requires { length self.old.done < 32 }
        ensures { self.new ≡ record { before = self.old.before; done = self.old.done ++ done ∷ [] } }
    {
        self.done[usize::from(self.count)] = done;
        self.count += 1;
    }
}

// What became of an item, where so many were put in before it.
fn out_of(before: u64, done: Done) -> Out
    ensures { result ≡ out_of before done }
{
    match done {
        Done::Added => Out::Added(before),
        Done::Already => Out::Already,
        Done::Closed => Out::Closed,
        Done::Refused(fault) => Out::Refused(fault),
    }
}

// How many of these were added.
fn added_in(done: &[Done]) -> u8
    requires { length done.now ≤ 32 }
    ensures count { result ≡ added_in done.now }
    ensures few { result ≤ 32 }
{
    let mut count = 0;
    for one in done {
        count += u8::from(matches!(one, Done::Added));
    }
    count
}
