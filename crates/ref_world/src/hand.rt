//! A hand: what a mutator or a worker carries.

ghost use Rattle.std.specs.Prelude.{◌≡◌, ◌≤◌, ◌<◌, IfOk, IfNone, OnErr, [], ◌∷◌, ◌++◌, true, length, map};
ghost use Rattle.std.specs.List.{AllByRecursion};
ghost use Rattle.ref_base.specs.QueueBatches.{are_own, not_added};
ghost use Rattle.ref_base.specs.Refusals.{is_empty as is_empty_list, fits};
ghost use Rattle.ref_base.specs.Worlds.{object_of};
ghost use Rattle.ref_queue.specs.QueueBatches.{AnswersPolls};
ghost use Rattle.ref_world.specs.Cores.{one_or_none, as_notice, IsOfWorld, queue_if_any};
ghost use Rattle.ref_world.specs.QueueReplies.{PutsEach};

use crate::WorldNotice;
use ref_base::{Batch, Fault, MOST_IN_BATCH, Outs, Parcel, QueueNo};
use ref_clear::Notice;
use ref_queue::{PolledBatch, Queue};
use std::alloc::Allocator;
use std::marker::Model;

// The notices that a mutator or a worker carries, first first: at most 32. All its memory is taken as it is made.
pub(crate) struct Hand<A: Allocator> {
    notices: Batch<WorldNotice, A>,
}

impl<A: Allocator> Model for Hand<A> {
    ghost use Rattle.std.specs.Prelude.{List};
    ghost use Rattle.ref_base.specs.Worlds.{Notice};

    ghost Value = { List Notice };

    ghost view = { λ h. h.notices };
}

impl<A: Allocator + Copy> Hand<A> {
    // An empty one. The one error is NoMemory.
    pub(crate) fn new(alloc: A) -> Result<Self, Fault>
        ensures ok { IfOk result (λ hand. hand ≡ []) }
        ensures err { OnErr result (result ≡ Err Fault.NoMemory) }
    {
        let notices = Batch::new(alloc)?;
        Ok(Hand { notices })
    }

    pub(crate) fn is_empty(&self) -> bool
        ensures { result ≡ is_empty_list self.now }
    {
        self.notices.is_empty()
    }

    // Whether so many may be asked for: at least one, and no more than there is room for.
    pub(crate) fn fits(&self, max: u32) -> bool
        ensures { result ≡ fits max (length self.now) }
    {
        is_within(max, self.notices.len())
    }

    // An empty hand then holds this.
    pub(crate) fn fill(&mut self, notice: WorldNotice)
        requires { self.old ≡ [] }
        ensures { self.new ≡ notice ∷ [] }
    {
        self.notices.push(notice);
    }

    // An empty hand then holds what is in the batch, and the batch nothing.
    pub(crate) fn fill_from(&mut self, batch: &mut Batch<Notice, A>)
        requires empty { self.old ≡ [] }
        requires own { AllByRecursion IsOfWorld batch.old }
        ensures filled { self.new ≡ map as_notice batch.old }
        ensures spent { batch.new ≡ [] }
    {
        prove!(batch.len() <= MOST_IN_BATCH);
        while let Some(notice) = batch.take_first() {
            self.notices.push(WorldNotice::new(notice));
        }
    }

    // The notice comes in front of what the hand holds.
    pub(crate) fn put_back(&mut self, notice: WorldNotice)
        requires { length self.old < 32 }
        ensures { self.new ≡ notice ∷ self.old }
    {
        let count = self.notices.len();
        self.notices.push(notice);
        self.notices.turn(count);
    }

    // Takes the first notice out, if it holds one. There is then room for one more.
    pub(crate) fn take_first(&mut self) -> Option<WorldNotice>
        ensures taken { one_or_none result ++ self.new ≡ self.old }
        ensures none { IfNone result (self.old ≡ []) }
        ensures room { length self.new < 32 }
    {
        prove!(self.notices.len() <= MOST_IN_BATCH);
        self.notices.take_first()
    }

    // The queue that its first notice is for, if it holds one.
    pub(crate) fn first_queue(&mut self) -> Option<QueueNo>
        ensures queue { result ≡ queue_if_any self.old }
        ensures kept { self.new ≡ self.old }
    {
        // A batch shows none of its items, so the first comes out and goes back.
        let notice = self.take_first()?;
        let queue = notice.queue();
        self.put_back(notice);
        Some(queue)
    }

    // Puts all that it holds into this queue, which they are for. It then holds what wasn't added.
    pub(crate) fn put_all(&mut self, queue: &mut Queue<WorldNotice, A>) -> Outs
        requires { are_own object_of (λ n. n.queue) queue.old self.old ≡ true }
        ensures puts { PutsEach queue.old self.old result queue.new }
        ensures left { self.new ≡ not_added self.old result.done }
    {
        match queue.put_batch(&mut self.notices) {
            Ok(outs) => outs,
            Err(_) => unreachable!(),
        }
    }

    // An empty hand takes the first that stand in the queue, so many at most.
    pub(crate) fn poll_some(&mut self, max: u32, queue: &mut Queue<WorldNotice, A>) -> PolledBatch
        requires empty { self.old ≡ [] }
        requires fits { fits max 0 ≡ true }
        ensures { AnswersPolls object_of queue.old max self.old result queue.new self.new }
    {
        queue.poll_batch(max as usize, &mut self.notices)
    }

    // Gives up what it holds.
    pub(crate) fn end(self) {
        let Hand { notices } = self;
        let mut notices = notices;
        while let Some(notice) = notices.take_first() {
            notice.into_hold().leak();
        }
        notices.end();
    }
}

// Whether so many may be asked for, where so many are held already: at least one, and no more than there is room for.
pub(crate) fn is_within(max: u32, held: usize) -> bool
    requires { held ≤ 32 }
    ensures { result ≡ fits max held }
{
    max >= 1 && max as usize <= MOST_IN_BATCH - held
}
