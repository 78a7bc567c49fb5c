//! The cycle: its begin, the scans of its workers, and the mark's end.

ghost use Rattle.std.specs.Prelude.{true, ◌≡◌, ◌-◌, ◌^◌, ◌<◌, not, Some, None, length, slice_index_or};
ghost use Rattle.ref_base.specs.Graphs.{object_at};
ghost use Rattle.ref_base.specs.Paths.{present, targets_at, allowed_referent, if_any};
ghost use Rattle.ref_base.specs.KeptPaths.{is_kept};
ghost use Rattle.ref_base.specs.DoomedSets.{refers_into};
ghost use Rattle.ref_base.specs.Heaps.{reference_at};
ghost use Rattle.ref_base.specs.CollectorRows.{emptied};
ghost use Rattle.ref_base.specs.Refusals.{is_empty, is_in, begin_refusal, work_refusal, end_mark_refusal};
ghost use Rattle.ref_base.specs.declared.heap_step.HeapStep.TheVariants.{Plain};
ghost use Rattle.ref_base.specs.declared.plain_step.PlainStep.TheVariants.{Begin, EndMark, Scan};
ghost use Rattle.ref_space.specs.Tables.{fields_in};
ghost use Rattle.ref_objects.specs.Grounds.{IsRefused};
ghost use Rattle.ref_mark.specs.MarkCalls.{MarkerDoes, reply_of, scan_reply};
ghost use Rattle.ref_mark.specs.MarkViews.{MayFind};
ghost use Rattle.ref_mark.specs.CycleHeaps.{shaded_all, shaded_if_any, whitened, with_found, is_white};

use super::{MOST_WORKERS, Marker, known};
use crate::chain::Chain;
use ref_base::{Fault, ObjNo, Phase, Reply, Urgency, WorkerNo};
use ref_objects::{Colour, Entry};
use std::alloc::Allocator;

impl<A: Allocator + Copy> Marker<A> {
    /// Begins a cycle at this clock, and answers its number. All objects become white; then what the slots hold
    /// becomes grey, mutator by mutator, and then what is held, by number. The cycle's span is settled by the cells
    /// that are free now. Tried in this order: `WrongPhase` where a cycle hasn't ended, `ClockBack` where the clock is
    /// later, `NumbersSpent` after 2^64 - 1 cycles. In time of the slots and, where something is held, of the objects.
    pub fn begin(&mut self, now: u64, urgency: Urgency) -> Result<u64, Fault>
        ensures { MarkerDoes self.old (Plain (Begin now urgency)) (reply_of Reply.Cycle result) self.new }
    {
        self.check_begin(now)?;
        self.whiten(now, urgency);
        self.shade_slots();
        self.shade_held();
        Ok(self.cycle)
    }

    /// Scans the first of the grey list for this worker. What its fields refer to becomes grey, in order, and so does
    /// the referent of a soft reference that the cycle keeps. Another reference whose referent is white is found by the
    /// worker. Each word of the object has the good colour then. Returns the object, or none where the list is empty.
    /// Tried in this order: `NoSuchActor`, `WrongPhase`. In time of its fields.
    #[inline(always)]
    pub fn scan(&mut self, worker: WorkerNo) -> Result<Option<ObjNo>, Fault>
        ensures { MarkerDoes self.old (Plain (Scan worker)) (reply_of scan_reply result) self.new }
    {
        self.check_work(worker, Phase::Marking)?;
        let Some(entry) = self.grey.take_first() else {
            return Ok(None);
        };
        let Entry { no, place } = entry;
        // Gives the proof that the grey list has room.
        known(&self.objects);
        let finds = self
            .objects
            .scan(Entry { no, place }, self.policy, &mut self.grey);
        known(&self.objects);
        if finds {
            self.list_found(worker, no, place);
        }
        Ok(Some(no))
    }

    /// Ends the mark: the white objects are doomed now, and it answers how many they are. Tried in this order:
    /// `WrongPhase`, `GreyLeft` while the grey list has objects. In constant time.
    pub fn end_mark(&mut self) -> Result<u32, Fault>
        ensures { MarkerDoes self.old (Plain EndMark) (reply_of Reply.Doomed result) self.new }
    {
        self.check_end_mark()?;
        self.phase = Phase::Clearing;
        Ok(self.objects.unmarked_count())
    }

    // ---- parts of a begin

    // Why a begin is refused.
    fn check_begin(&self, now: u64) -> Result<(), Fault>
        ensures { IsRefused (begin_refusal self.now.phase self.now.heap.clock self.now.cycle now) result }
    {
        if self.phase != Phase::Idle {
            return Err(Fault::WrongPhase);
        }
        if now < self.objects.clock() {
            return Err(Fault::ClockBack);
        }
        if self.cycle == u64::MAX {
            return Err(Fault::NumbersSpent);
        }
        Ok(())
    }

    // All objects become white, and another colour is good.
    fn whiten(&mut self, now: u64, urgency: Urgency)
        requires idle { is_in self.old.phase Phase.Idle ≡ true }
        requires numbers { self.old.cycle < 2 ^ 64 - 1 }
        ensures { self.new ≡ whitened self.old now urgency }
    {
        self.grey.clear();
        self.forget_found();
        self.cycle += 1;
        self.objects.begin_marks(Colour::of_cycle(self.cycle));
        self.objects.set_clock(now);
        self.phase = Phase::Marking;
        self.policy = self.objects.policy(now, urgency);
    }

    // No worker has found anything.
    fn forget_found(&mut self)
        ensures { self.new ≡ record self.old { found = emptied self.old.found } }
    {
        for worker in 0..self.found.len() {
            self.found[worker] = Chain::new();
        }
    }

    // What the slots hold becomes grey.
    fn shade_slots(&mut self)
        ensures { self.new ≡ shaded_all self.old (present self.old.heap.slots) }
    {
        for place in 0..self.objects.slot_count() {
            self.shade_slot_at(place);
        }
    }

    // What the slot at a place holds becomes grey.
    fn shade_slot_at(&mut self, place: usize)
        requires { place < length self.old.heap.slots }
        ensures { self.new ≡ shaded_if_any self.old (slice_index_or self.old.heap.slots place None) }
    {
        if let Some(anew) = self.objects.mark_slot_at(place) {
            known(&self.objects);
            self.push_grey(anew);
        }
    }

    // What is held becomes grey.
    fn shade_held(&mut self)
        ensures { self.new ≡ shaded_all self.old self.old.heap.holds }
    {
        // No pass over the objects where nothing is held.
        if self.objects.hold_count() == 0 {
            return;
        }
        known(&self.objects);
        let mut held = self.objects.held_from(ObjNo(0));
        while let Some(no) = held {
            self.shade(no);
            held = self.objects.held_after(no);
        }
    }

    // The worker finds a reference whose referent is still white, which lies at this place.
    #[inline(always)]
    fn list_found(&mut self, worker: WorkerNo, no: ObjNo, place: u32)
        requires white { refers_into (is_white self.old) (reference_at self.old.heap no) ≡ true }
        requires may { MayFind self.old worker no }
        ensures { self.new ≡ with_found self.old worker no }
    {
        known(&self.objects);
        let finder = worker.0 as usize;
        let mut list = self.found[finder];
        list.push_near(
            &mut self.objects,
            no,
            self.found_last[finder % MOST_WORKERS],
        );
        self.found[finder] = list;
        self.found_last[finder % MOST_WORKERS] = place;
    }

    // Why a mark's end is refused.
    fn check_end_mark(&self) -> Result<(), Fault>
        ensures { IsRefused (end_mark_refusal self.now.phase (not (is_empty self.now.grey))) result }
    {
        if self.phase != Phase::Marking {
            return Err(Fault::WrongPhase);
        }
        if !self.grey.is_empty() {
            return Err(Fault::GreyLeft);
        }
        Ok(())
    }
}
