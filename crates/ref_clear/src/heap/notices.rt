//! Notices: of what a worker cleared, and of what the program unhooks.

ghost use Rattle.std.specs.Prelude.{◌≡◌, ◌+◌, ◌-◌, ◌^◌, ◌≤◌, ◌<◌, ◌++◌, true, IfOk, length, map, nat_le, take};
ghost use Rattle.ref_base.specs.Refusals.{fits};
ghost use Rattle.ref_base.specs.Told.{told_notices};
ghost use Rattle.ref_base.specs.Worlds.{notice_from};
ghost use Rattle.ref_base.specs.declared.heap_step.HeapStep.TheVariants.{Hand, Hands, Unhook};
ghost use Rattle.ref_mark.specs.Chains.{listed};
ghost use Rattle.ref_mark.specs.MarkCalls.{reply_of};
ghost use Rattle.ref_clear.specs.ClearCalls.{HeapDoes, notice_reply, handed_reply, held_notices, IsOfHeap};
ghost use Rattle.ref_clear.specs.ClearHeaps.{pending_at, handed_some};
ghost use Rattle.ref_clear.specs.ClearViews.{pendings_in, front_count, HandsNext, IsPendingChain, MayHandOn};

use super::Heap;
use crate::{Handed, Notice, Pending};
use ref_base::{Batch, Cause, Fault, MutNo, Nos, Parcel, SlotNo, WorkerNo};
use ref_mark::Chain;
use ref_objects::Objects;
use std::alloc::Allocator;

impl<A: Allocator + Copy> Heap<A> {
    /// Hands on the first of this worker's pending references: its notice, which tells the cycle in which it was
    /// cleared. None where nothing is pending. Tried in this order: `NoSuchActor`; where something is pending,
    /// `NumbersSpent` where 2^64 - 1 holds are out. In logarithmic time.
    pub fn hand(&mut self, worker: WorkerNo) -> Result<Option<Notice>, Fault>
        ensures does { HeapDoes self.old (Hand worker) (reply_of notice_reply result) self.new }
        ensures own { IfOk result (λ notice. IsOfHeap self.old.mark.heap.no notice) }
    {
        if worker.0 >= self.config().workers {
            return Err(Fault::NoSuchActor);
        }
        self.hand_next(worker, None)
    }

    // Hands on the first of this worker's pending references, where it goes with this one, if one is told.
    #[inline(always)]
    fn hand_next(
        &mut self,
        worker: WorkerNo,
        with: Option<Pending>,
    ) -> Result<Option<Notice>, Fault>
        requires { worker < self.old.mark.heap.config.workers }
        ensures does { HandsNext self.old worker with (reply_of notice_reply result) self.new }
        ensures own { IfOk result (λ notice. IsOfHeap self.old.mark.heap.no notice) }
    {
        let mut list = self.pending[worker.0 as usize];
        let Some(linked) = list.take_first(self.marker.objects()) else {
            return Ok(None);
        };
        let first = Pending::of(linked);
        if !first.may_go(with) {
            return Ok(None);
        }
        let hold = self.marker.mint(first.object)?;
        self.pending[worker.0 as usize] = list;
        let cause = Cause::Cycle(first.cycle, worker);
        Ok(Some(Notice::new(hold, first.queue, cause)))
    }

    /// Hands on the first of this worker's pending references at once, `max` at most, and as far as they have the queue
    /// of the first, and were cleared in its cycle. Their notices go behind what is in the batch. None where nothing is
    /// pending. Tried in this order: `NoSuchActor`; where something is pending, `NumbersSpent` where the holds that are
    /// out and one for each of these would be more than 2^64 - 1: then nothing is handed on. Takes no memory. In
    /// logarithmic time for each notice.
    ///
    /// That a collector hands its queues many references at once is as in ZGC. This project's profile is that `max` is
    /// 1 to the room that is left in the batch, and that all are of one queue and one cycle.
    pub fn hand_batch<B: Allocator>(
        &mut self,
        worker: WorkerNo,
        max: u32,
        batch: &mut Batch<Notice, B>,
    ) -> Result<Option<Handed>, Fault>
        requires { fits max (length batch.old) ≡ true }
        ensures does { HeapDoes self.old (Hands worker max batch.old) (reply_of (handed_reply worker) result) self.new }
        ensures given { batch.new ≡ batch.old ++ held_notices self.old.mark.heap.no
            (told_notices (reply_of (handed_reply worker) result)) }
    {
        if worker.0 >= self.config().workers {
            return Err(Fault::NoSuchActor);
        }
        let Some(first) = self.pending_of(worker, 0) else {
            return Ok(None);
        };
        // It is seen before the first hold is counted, so that a refusal changes nothing.
        if !self.can_hold(worker, first, max) {
            return Err(Fault::NumbersSpent);
        }
        let mut numbers = Nos::new();
        self.hand_each(worker, first, max, batch, &mut numbers);
        Ok(Some(Handed {
            numbers,
            queue: first.queue,
            cycle: first.cycle,
        }))
    }

    // Whether a hold can be counted for each of this worker's pending references, from the first on and at most so
    // many, that go with this one. They are counted only where there may be too many of them.
    #[inline(always)]
    fn can_hold(&self, worker: WorkerNo, first: Pending, max: u32) -> bool
        requires { worker < self.now.mark.heap.config.workers }
        ensures { result ≡ nat_le
            (length self.now.mark.heap.holds + front_count first max (pending_at self.now worker)) (2 ^ 64 - 1) }
    {
        let left = u64::MAX - self.hold_count();
        u64::from(max) <= left || u64::from(self.count_with(worker, first, max)) <= left
    }

    // How many of this worker's pending references, from the first on and at most so many, go with this one.
    fn count_with(&self, worker: WorkerNo, first: Pending, max: u32) -> u32
        requires { worker < self.now.mark.heap.config.workers }
        ensures { result ≡ front_count first max (pending_at self.now worker) }
    {
        count_listed(
            self.marker.objects(),
            self.pending[worker.0 as usize],
            first,
            max,
        )
    }

    // Hands on those of the first so many that go with this one, one after the other.
    fn hand_each<B: Allocator>(
        &mut self,
        worker: WorkerNo,
        with: Pending,
        max: u32,
        batch: &mut Batch<Notice, B>,
        numbers: &mut Nos,
    )
        requires may { MayHandOn self.old worker (front_count with max (pending_at self.old worker)) }
        requires room { length batch.old + max ≤ 32 }
        requires told { length numbers.old + max ≤ 32 }
        ensures after { self.new ≡ handed_some self.old worker (front_count with max (pending_at self.old worker)) }
        ensures given { batch.new ≡ batch.old ++ held_notices self.old.mark.heap.no
            (map (notice_from worker) (take (front_count with max (pending_at self.old worker))
            (pending_at self.old worker))) }
        ensures numbers { numbers.new ≡ numbers.old ++ map (λ p. p.object)
            (take (front_count with max (pending_at self.old worker)) (pending_at self.old worker)) }
    {
        let mut left = max;
        while left > 0 {
            match self.hand_next(worker, Some(with)) {
                Ok(Some(notice)) => {
                    numbers.push(notice.obj());
                    batch.push(notice);
                }
                Ok(None) => return,
                // So many holds can be counted.
                Err(_) => unreachable!(),
            }
            left -= 1;
        }
    }

    /// Clears the reference in a slot, as `clear` does, and gives its notice if it is registered with a queue, each
    /// time that it is called. That is how `Reference.enqueue` of Java SE 17 begins; the rest of it is the queue's.
    /// Tried in this order: `NoSuchActor`, `EmptySlot`, `NotAReference`; where it is registered, `NumbersSpent` where
    /// 2^64 - 1 holds are out. In logarithmic time.
    pub fn unhook(&mut self, mutator: MutNo, reference: SlotNo) -> Result<Option<Notice>, Fault>
        ensures does { HeapDoes self.old (Unhook mutator reference) (reply_of notice_reply result) self.new }
        ensures own { IfOk result (λ notice. IsOfHeap self.old.mark.heap.no notice) }
    {
        let (no, unhooked) = self.marker.objects().reference_in(mutator, reference)?;
        let Some(queue) = unhooked.queue else {
            self.marker.clear(mutator, reference)?;
            return Ok(None);
        };
        // The hold comes first, so that where it is refused nothing is cleared.
        let hold = self.marker.mint(no)?;
        let _cleared = self.marker.clear(mutator, reference);
        Ok(Some(Notice::new(hold, queue, Cause::Own)))
    }
}

// How many of the references in this list, from the first on and at most so many, go with this one: they have its
// queue, and were cleared in its cycle.
fn count_listed<A: Allocator + Copy>(
    objects: &Objects<A>,
    mut list: Chain,
    first: Pending,
    max: u32,
) -> u32
    requires { IsPendingChain objects.now list }
    ensures { result ≡ front_count first max (pendings_in objects.now.heap.objects objects.now.tags
        (listed objects.now.tags objects.now.heap.config.cells list)) }
{
    if max == 0 {
        return 0;
    }
    let Some(linked) = list.take_first(objects) else {
        return 0;
    };
    if !Pending::of(linked).goes_with(first) {
        return 0;
    }
    1 + count_listed(objects, list, first, max - 1)
}
