//! The processor.

mod batches;
mod clearing;
mod finding;
mod making;
mod moving;
mod reading;

ghost use Rattle.std.specs.Prelude.{◌≡◌, ◌+◌, IfOk, IfErr, OnOk, OnErr, Some, None};
ghost use Rattle.ref_process.specs.Desks.{new_desk, cycle_refusal, mark_end_refusal, clear_end_refusal};
ghost use Rattle.ref_process.specs.Desks.{after_begin, after_mark, after_clearing};

use crate::places::Places;
use crate::{Key, Phase, ProcessFault};
use ref_base::{Policy, Urgency};
use std::alloc::{Allocator, Global};
use std::collections::VecDeque;
use std::marker::Model;

/// The references of a runtime, and where a cycle stands. All its memory is of the allocator that it was made with.
#[derive(Drop)]
pub struct Processor<A: Allocator = Global> {
    places: Places<A>,
    // What was made in this mark and no finder has yet.
    made: VecDeque<Key, A>,
    // How many keys finders have that were not looked at.
    listed: u64,
    phase: Phase,
    policy: Policy,
    cycle: u64,
}

impl<A: Allocator> Model for Processor<A> {
    ghost use Rattle.ref_process.specs.Desks.{Desk};

    ghost Value = { Desk };

    ghost view = { λ s. record {
      places = s.places;
      made = s.made.items;
      listed = s.listed;
      phase = s.phase;
      policy = s.policy;
      cycle = s.cycle;
    } };
}

impl<A: Allocator + Copy> Processor<A> {
    /// A processor with no reference, whose clock is 0. A soft reference is kept by a normal cycle that begins at most
    /// this span after it was made or last got. Takes no memory.
    pub fn new(alloc: A, span: u64) -> Self
        ensures { result ≡ new_desk span }
    {
        Processor {
            places: Places::new(alloc),
            made: VecDeque::new(alloc),
            listed: 0,
            phase: Phase::Idle,
            policy: Policy {
                clock: 0,
                urgency: Urgency::Normal,
                span,
            },
            cycle: 0,
        }
    }

    /// Where it stands in a cycle. In constant time.
    pub fn phase(&self) -> Phase
        ensures { result ≡ self.now.phase }
    {
        self.phase
    }

    /// Begins a cycle at this clock, and answers its number. An urgent cycle keeps no soft reference. Tried in this
    /// order: `WrongPhase` where a cycle hasn't ended, `ClockBack` where the clock is before the last one,
    /// `NumbersSpent` where there were 2^64 - 1 cycles: then nothing has changed. In constant time.
    pub fn begin(&mut self, now: u64, urgency: Urgency) -> Result<u64, ProcessFault>
        ensures allowed { OnOk result (cycle_refusal self.old now ≡ None) }
        ensures answer { IfOk result (λ cycle. cycle ≡ self.old.cycle + 1) }
        ensures after { OnOk result (self.new ≡ after_begin self.old now urgency) }
        ensures refused { IfErr result (λ fault. cycle_refusal self.old now ≡ Some fault) }
        ensures unchanged { OnErr result (self.new ≡ self.old) }
    {
        if self.phase != Phase::Idle {
            return Err(ProcessFault::WrongPhase);
        }
        if now < self.policy.clock {
            return Err(ProcessFault::ClockBack);
        }
        if self.cycle == u64::MAX {
            return Err(ProcessFault::NumbersSpent);
        }
        self.phase = Phase::Marking;
        self.policy = Policy {
            clock: now,
            urgency,
            span: self.policy.span,
        };
        self.cycle += 1;
        Ok(self.cycle)
    }

    /// Ends the mark: from here on what isn't marked reads as null, for all references. `WrongPhase` but in Marking:
    /// then nothing has changed. In constant time.
    pub fn end_mark(&mut self) -> Result<(), ProcessFault>
        ensures allowed { OnOk result (mark_end_refusal self.old ≡ None) }
        ensures after { OnOk result (self.new ≡ after_mark self.old) }
        ensures refused { IfErr result (λ fault. mark_end_refusal self.old ≡ Some fault) }
        ensures unchanged { OnErr result (self.new ≡ self.old) }
    {
        if self.phase != Phase::Marking {
            return Err(ProcessFault::WrongPhase);
        }
        self.phase = Phase::Clearing;
        Ok(())
    }

    /// Ends the cycle: from here on nothing is asked of the marks. Tried in this order: `WrongPhase` but in Clearing,
    /// `ClearingLeft` while something that was found or made in the mark was not looked at: then nothing has changed.
    /// In constant time.
    pub fn end_clear(&mut self) -> Result<(), ProcessFault>
        ensures allowed { OnOk result (clear_end_refusal self.old ≡ None) }
        ensures after { OnOk result (self.new ≡ after_clearing self.old) }
        ensures refused { IfErr result (λ fault. clear_end_refusal self.old ≡ Some fault) }
        ensures unchanged { OnErr result (self.new ≡ self.old) }
    {
        if self.phase != Phase::Clearing {
            return Err(ProcessFault::WrongPhase);
        }
        if self.listed != 0 || !self.made.is_empty() {
            return Err(ProcessFault::ClearingLeft);
        }
        self.phase = Phase::Idle;
        Ok(())
    }
}
