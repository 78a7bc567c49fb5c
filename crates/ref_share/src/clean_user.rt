//! What one thread uses a shared cleaner with.

ghost use Rattle.std.specs.Prelude.{◌≡◌, ◌+◌, length, Err};
ghost use Rattle.ref_base.specs.declared.fault.Fault.TheVariants.{NoSuchActor};
ghost use Rattle.ref_share.specs.declared.answers.ShareFault.TheVariants.{Refused};
ghost use Rattle.ref_turn.specs.Seats.{Begins, Longer};
ghost use Rattle.ref_share.specs.CleanLoops.{GoesRound, GoesOn};
ghost use Rattle.ref_share.specs.CleanSeats.{clean_view, IsCleanSeat};
ghost use Rattle.ref_share.specs.Cleanings.{CleansNow, IsOutside, LooksOnce, RegistersApart, Unregisters};
ghost use Rattle.ref_share.specs.HeapSeats.{heap_view};
ghost use Rattle.ref_share.specs.QueueSeats.{queue_view};

use crate::{
    CleanSeat, Cleanable, Cleaned, Gate, HeapUser, QueueUser, ShareFault, SharedCleaner, Task,
};
use ref_base::SlotNo;
use ref_objects::Hold;
use ref_queue::Job;
use std::alloc::{Allocator, Global};
use std::marker::Model;
use std::sync::Wait;

/// A shared cleaner, with the seat of one thread. In a clause it is these two.
///
/// Each of its calls is the cleaner's own, by that seat, and by the seats of the users that it takes.
#[derive(Drop)]
pub struct CleanUser<'a, J = Job, A: Allocator + Copy = Global> {
    cleaner: &'a SharedCleaner<J, A>,
    seat: CleanSeat<J, A>,
}

impl<'a, J, A: Allocator + Copy> Model for CleanUser<'a, J, A> {
    ghost use Rattle.ref_share.specs.Users.{CleanUse};

    ghost Value = { CleanUse J A };

    ghost use Rattle.ref_share.specs.CleanSeats.{IsCleanSeat};

    ghost view = { λ u. record { cleaner = u.cleaner.now; seat = u.seat } };

    ghost invariant = { λ u. IsCleanSeat u.cleaner.now u.seat };
}

impl<'a, J: Task, A: Allocator + Copy> CleanUser<'a, J, A> {
    /// A user of the cleaner, with a seat of it.
    pub fn new(cleaner: &'a SharedCleaner<J, A>, seat: CleanSeat<J, A>) -> Self
        requires { IsCleanSeat cleaner.now seat }
        ensures { result ≡ record { cleaner = cleaner.now; seat = seat } }
    {
        CleanUser { cleaner, seat }
    }

    /// A user for one thread more. Its seat has seen what this one has.
    pub fn split(&mut self) -> CleanUser<'a, J, A>
        ensures same { self.new ≡ record self.old { seat = self.new.seat } }
        ensures seat { clean_view self.new.seat ≡ clean_view self.old.seat }
        ensures other { result ≡ record { cleaner = self.old.cleaner; seat = result.seat } }
        ensures begins { Begins (clean_view self.old.seat) (clean_view result.seat) }
    {
        let cleaner = self.cleaner;
        let seat = cleaner.split(&mut self.seat);
        CleanUser { cleaner, seat }
    }

    /// How many turns of the cleaner have ended, as `served` tells, and the first ticket with them. Takes no turn.
    pub fn served(&mut self) -> u64
        ensures same { self.new ≡ record self.old { seat = self.new.seat } }
        ensures longer { Longer (clean_view self.old.seat) (clean_view self.new.seat) }
        ensures count { result ≡ (clean_view self.new.seat).first + length (clean_view self.new.seat).seen }
    {
        self.cleaner.served(&mut self.seat)
    }

    /// Its seat alone, as to end the cleaner by.
    pub fn into_seat(self) -> CleanSeat<J, A>
        ensures own { result ≡ self.entry.seat }
        ensures seat { IsCleanSeat self.entry.cleaner result }
    {
        let CleanUser { seat, .. } = self;
        seat
    }

    /// Registers a job for what the source slot holds, as `SharedCleaner::register_apart`: it runs once, after the
    /// object was found dead, or before that by `clean`. The other slot is used on the way, and is empty afterwards.
    pub fn register<R: Wait>(
        &mut self,
        rt: &R,
        heap: &mut HeapUser<'_, A>,
        source: SlotNo,
        slot: SlotNo,
        job: J,
    ) -> Result<Cleanable, (ShareFault, J)>
        ensures same { self.new ≡ record self.old { seat = self.new.seat } }
        ensures heap { heap.new ≡ record heap.old { seat = heap.new.seat } }
        ensures registers { RegistersApart job (clean_view self.old.seat) self.old.cleaner.frame heap.old.mutator source
            slot (heap_view heap.old.seat) result (heap_view heap.new.seat) (clean_view self.new.seat) }
    {
        self.cleaner.register_apart(
            rt,
            &mut self.seat,
            heap.heap,
            &mut heap.seat,
            heap.mutator,
            source,
            slot,
            job,
        )
    }

    /// Runs the job now, unless it was taken before, as `SharedCleaner::clean`. The slot is used on the way, and is
    /// empty afterwards, as far as turns are left.
    pub fn clean<R: Wait>(
        &mut self,
        rt: &R,
        heap: &mut HeapUser<'_, A>,
        slot: SlotNo,
        cleanable: Cleanable,
    ) -> Result<Cleaned, ShareFault>
        ensures same { self.new ≡ record self.old { seat = self.new.seat } }
        ensures heap { heap.new ≡ record heap.old { seat = heap.new.seat } }
        ensures outside { IsOutside heap.old.heap.frame.config heap.old.mutator slot
            → (result ≡ Err (Refused NoSuchActor)) × (clean_view self.new.seat ≡ clean_view self.old.seat)
            × (heap_view heap.new.seat ≡ heap_view heap.old.seat) }
        ensures cleans { ¬ (IsOutside heap.old.heap.frame.config heap.old.mutator slot)
            → CleansNow J.ran cleanable.obj heap.old.mutator slot
            (heap_view heap.old.seat) (clean_view self.old.seat) result (heap_view heap.new.seat)
            (clean_view self.new.seat) }
    {
        self.cleaner.clean(
            rt,
            &mut self.seat,
            heap.heap,
            &mut heap.seat,
            heap.mutator,
            slot,
            cleanable,
        )
    }

    /// Takes the job out, and doesn't run it, as `SharedCleaner::unregister`. None where it was taken before.
    pub fn unregister<R: Wait>(
        &mut self,
        rt: &R,
        heap: &mut HeapUser<'_, A>,
        cleanable: Cleanable,
    ) -> Result<Option<(J, Option<Hold>)>, ShareFault>
        ensures same { self.new ≡ record self.old { seat = self.new.seat } }
        ensures heap { heap.new ≡ record heap.old { seat = heap.new.seat } }
        ensures unregisters { Unregisters cleanable.obj (heap_view heap.old.seat) (clean_view self.old.seat) result
            (heap_view heap.new.seat) (clean_view self.new.seat) }
    {
        self.cleaner
            .unregister(rt, &mut self.seat, heap.heap, &mut heap.seat, cleanable)
    }

    /// Whether the job is still registered, as `SharedCleaner::is_registered`.
    pub fn is_registered<R: Wait>(
        &mut self,
        rt: &R,
        cleanable: Cleanable,
    ) -> Result<bool, ShareFault>
        ensures same { self.new ≡ record self.old { seat = self.new.seat } }
        ensures looks { LooksOnce (clean_view self.old.seat) cleanable.obj result (clean_view self.new.seat) }
    {
        self.cleaner.is_registered(rt, &mut self.seat, cleanable)
    }

    /// Runs the jobs of what is gone, as their notices come, until the queue is closed, as `SharedCleaner::clean_loop`.
    /// How many it ran.
    pub fn clean_loop<R: Wait, G: Gate>(
        &mut self,
        rt: &R,
        heap: &mut HeapUser<'_, A>,
        queue: &mut QueueUser<'_, A>,
        gate: &G,
    ) -> Result<u64, ShareFault>
        ensures same { self.new ≡ record self.old { seat = self.new.seat } }
        ensures heap { heap.new ≡ record heap.old { seat = heap.new.seat } }
        ensures queue { queue.new ≡ record queue.old { seat = queue.new.seat } }
        ensures goes { GoesRound (queue_view queue.old.seat) (heap_view heap.old.seat) (clean_view self.old.seat) result
            (queue_view queue.new.seat) (heap_view heap.new.seat) (clean_view self.new.seat) }
    {
        self.cleaner.clean_loop(
            rt,
            &mut self.seat,
            heap.heap,
            &mut heap.seat,
            queue.queue,
            &mut queue.seat,
            gate,
        )
    }

    /// Runs the jobs whose notices stand now, as `SharedCleaner::clean_some`. How many it ran.
    pub fn clean_some<R: Wait, G: Gate>(
        &mut self,
        rt: &R,
        heap: &mut HeapUser<'_, A>,
        queue: &mut QueueUser<'_, A>,
        gate: &G,
    ) -> Result<u64, ShareFault>
        ensures same { self.new ≡ record self.old { seat = self.new.seat } }
        ensures heap { heap.new ≡ record heap.old { seat = heap.new.seat } }
        ensures queue { queue.new ≡ record queue.old { seat = queue.new.seat } }
        ensures goes { GoesOn (queue_view queue.old.seat) (heap_view heap.old.seat) (clean_view self.old.seat) result
            (queue_view queue.new.seat) (heap_view heap.new.seat) (clean_view self.new.seat) }
    {
        self.cleaner.clean_some(
            rt,
            &mut self.seat,
            heap.heap,
            &mut heap.seat,
            queue.queue,
            &mut queue.seat,
            gate,
        )
    }
}
