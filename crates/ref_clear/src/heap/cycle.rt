//! The cycle, from its begin to the mark's end.

ghost use Rattle.std.specs.Prelude.{◌≡◌};
ghost use Rattle.ref_base.specs.Collectors.{joined};
ghost use Rattle.ref_base.specs.declared.heap_step.HeapStep.TheVariants.{Plain};
ghost use Rattle.ref_base.specs.declared.plain_step.PlainStep.TheVariants.{Begin, EndMark, Scan};
ghost use Rattle.ref_mark.specs.CycleHeaps.{shaded_all};
ghost use Rattle.ref_mark.specs.MarkCalls.{reply_of, scan_reply};
ghost use Rattle.ref_mark.specs.Chains.{listed};
ghost use Rattle.ref_clear.specs.ClearViews.{lists_in};
ghost use Rattle.ref_clear.specs.ClearCalls.{HeapDoes};

use super::Heap;
use ref_base::{Fault, ObjNo, Reply, Urgency, WorkerNo};
use ref_mark::{Chain, Marker};
use std::alloc::Allocator;

impl<A: Allocator + Copy> Heap<A> {
    /// Begins a cycle at this clock, and answers its number. All objects become white; then the roots become grey: what
    /// the slots hold, mutator by mutator, what is held, by number, and the pending references, worker by worker in
    /// list order. Tried in this order: `WrongPhase` where a cycle hasn't ended, `ClockBack` where the clock is later,
    /// `NumbersSpent` after 2^64 - 1 cycles. In time of the slots, of what is pending and, where something is
    /// held, of the objects.
    pub fn begin(&mut self, now: u64, urgency: Urgency) -> Result<u64, Fault>
        ensures { HeapDoes self.old (Plain (Begin now urgency)) (reply_of Reply.Cycle result) self.new }
    {
        let cycle = self.marker.begin(now, urgency)?;
        shade_pending(&mut self.marker, &self.pending);
        Ok(cycle)
    }

    /// Scans the first of the grey list for this worker, as `Marker::scan` does: `NoSuchActor`, `WrongPhase`.
    #[inline(always)]
    pub fn scan(&mut self, worker: WorkerNo) -> Result<Option<ObjNo>, Fault>
        ensures { HeapDoes self.old (Plain (Scan worker)) (reply_of scan_reply result) self.new }
    {
        self.marker.scan(worker)
    }

    /// Ends the mark, and answers how many objects are doomed, as `Marker::end_mark` does: `WrongPhase`, `GreyLeft`.
    pub fn end_mark(&mut self) -> Result<u32, Fault>
        ensures { HeapDoes self.old (Plain EndMark) (reply_of Reply.Doomed result) self.new }
    {
        self.marker.end_mark()
    }
}

// The pending references become grey, worker by worker.
fn shade_pending<A: Allocator + Copy>(marker: &mut Marker<A>, pending: &[Chain])
    ensures { marker.new ≡ shaded_all marker.old (joined (lists_in marker.old pending.now)) }
{
    for worker in 0..pending.len() {
        shade_listed(marker, &pending[worker]);
    }
}

// What is pending of one worker becomes grey.
fn shade_listed<A: Allocator + Copy>(marker: &mut Marker<A>, list: &Chain)
    ensures { marker.new ≡ shaded_all marker.old (listed marker.old.tags marker.old.heap.config.cells list.now) }
{
    let mut next = list.first;
    for _step in 0..marker.objects().config().cells {
        if next == 0 {
            return;
        }
        marker.grey_root(ObjNo(next));
        next = list.next(marker.objects(), next);
    }
}
