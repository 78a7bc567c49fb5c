//! The sweep: what is doomed is freed.

ghost use Rattle.std.specs.Prelude.{◌≡◌, min, length};
ghost use Rattle.ref_base.specs.declared.heap_step.HeapStep.TheVariants.{Plain};
ghost use Rattle.ref_base.specs.declared.plain_step.PlainStep.TheVariants.{EndSweep, Sweep};
ghost use Rattle.ref_mark.specs.MarkCalls.{reply_of, done_reply};
ghost use Rattle.ref_mark.specs.CycleHeaps.{doomed};
ghost use Rattle.ref_clear.specs.ClearHeaps.{swept_some};
ghost use Rattle.ref_clear.specs.ClearCalls.{HeapDoes, swept_reply};
ghost use Rattle.ref_clear.specs.ClearViews.{MaySweep};

use super::Heap;
use ref_base::{Fault, Phase, WorkerNo};
use ref_mark::Marker;
use ref_objects::Worklist;
use std::alloc::Allocator;

/// How many objects a sweep frees, or fewer where fewer are left.
const SWEPT_AT_ONCE: u32 = 64;

impl<A: Allocator + Copy> Heap<A> {
    /// Frees the 64 doomed objects of least number, or all where fewer are left, and answers how many; none where none
    /// is left. Tried in this order: `NoSuchActor`, `WrongPhase`. In constant time for each that it frees.
    pub fn sweep(&mut self, worker: WorkerNo) -> Result<Option<u32>, Fault>
        ensures { HeapDoes self.old (Plain (Sweep worker)) (reply_of swept_reply result) self.new }
    {
        self.marker.check_work(worker, Phase::Sweeping)?;
        let freed = free_some(&mut self.marker, &mut self.condemned);
        if freed == 0 {
            return Ok(None);
        }
        Ok(Some(freed))
    }

    /// Ends the sweep, and the cycle with it. Tried in this order: `WrongPhase`, `SweepLeft` while an object is doomed.
    /// In time of the objects that are there and of those that were freed.
    pub fn end_sweep(&mut self) -> Result<(), Fault>
        ensures { HeapDoes self.old (Plain EndSweep) (reply_of done_reply result) self.new }
    {
        if self.marker.phase() != Phase::Sweeping {
            return Err(Fault::WrongPhase);
        }
        if self.marker.has_doomed() {
            return Err(Fault::SweepLeft);
        }
        self.marker.to_idle();
        Ok(())
    }
}

// Frees the doomed of least number, 64 or all: how many these are.
fn free_some<A: Allocator + Copy>(marker: &mut Marker<A>, condemned: &mut Worklist<A>) -> u32
    requires { MaySweep marker.old condemned.old.stands }
    ensures count { result ≡ min 64 (length (doomed marker.old)) }
    ensures after { marker.new ≡ swept_some marker.old }
    ensures listed { MaySweep marker.new condemned.new.stands }
    ensures room { condemned.new.room ≡ condemned.old.room }
{
    let mut freed = 0;
    while freed < SWEPT_AT_ONCE {
        let Some(entry) = condemned.take_first() else {
            break;
        };
        freed += u32::from(marker.free(entry));
    }
    freed
}
