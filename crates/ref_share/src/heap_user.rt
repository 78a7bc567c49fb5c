//! What one thread uses a shared heap with.

ghost use Rattle.std.specs.Prelude.{◌≡◌, ◌+◌, length, IfOk, IfErr, Ok, Err, true};
ghost use Rattle.ref_base.specs.declared.plain_step.PlainStep.TheVariants as steps;
ghost use Rattle.ref_base.specs.declared.reply.Reply.TheVariants as replies;
ghost use Rattle.ref_turn.specs.Seats.{Begins, Longer};
ghost use Rattle.ref_share.specs.HeapCalls.{Performs, HoldsSlot, Adopts, Releases};
ghost use Rattle.ref_share.specs.HeapCalls.{may_answer, fills_a_slot, tells_nothing};
ghost use Rattle.ref_share.specs.HeapSeats.{heap_view, IsHeapSeat};
ghost use Rattle.ref_share.specs.Users.{told_as, reply_of_found, reply_of_done, held_back};

use crate::{HeapSeat, ShareFault, SharedHeap};
use ref_base::{Config, Fault, MutNo, ObjNo, PlainStep, QueueNo, Reply, SlotNo, Strength};
use ref_objects::Hold;
use std::alloc::{Allocator, Global};
use std::marker::Model;
use std::sync::Wait;

/// A shared heap, with the seat of one thread and the number of the mutator as which it calls. In a clause it is these
/// three.
///
/// Each of its calls is a call of the heap by that seat. The step's refusals are answered as an `Err`, with
/// `TurnsSpent` before them where no turn is left; then the heap is as before. A call waits for its turn, and takes no
/// memory.
#[derive(Drop)]
pub struct HeapUser<'a, A: Allocator + Copy = Global> {
    pub(crate) heap: &'a SharedHeap<A>,
    pub(crate) seat: HeapSeat<A>,
    pub(crate) mutator: MutNo,
}

impl<'a, A: Allocator + Copy> Model for HeapUser<'a, A> {
    ghost use Rattle.ref_share.specs.Users.{HeapUse};

    ghost Value = { HeapUse A };

    ghost use Rattle.ref_share.specs.HeapSeats.{IsHeapSeat};

    ghost view = { λ u. record { heap = u.heap.now; seat = u.seat; mutator = u.mutator } };

    ghost invariant = { λ u. IsHeapSeat u.heap.now u.seat };
}

impl<'a, A: Allocator + Copy> HeapUser<'a, A> {
    /// A user of the heap, with a seat of it, as this mutator. By the caller, one thread at a time uses a mutator's
    /// number, and its slots.
    pub fn new(heap: &'a SharedHeap<A>, seat: HeapSeat<A>, mutator: MutNo) -> Self
        requires { IsHeapSeat heap.now seat }
        ensures { result ≡ record { heap = heap.now; seat = seat; mutator = mutator } }
    {
        HeapUser {
            heap,
            seat,
            mutator,
        }
    }

    /// A user for one thread more, as this mutator. Its seat has seen what this one has.
    pub fn split(&mut self, mutator: MutNo) -> HeapUser<'a, A>
        ensures same { self.new ≡ record self.old { seat = self.new.seat } }
        ensures seat { heap_view self.new.seat ≡ heap_view self.old.seat }
        ensures other { result ≡ record { heap = self.old.heap; seat = result.seat; mutator = mutator } }
        ensures begins { Begins (heap_view self.old.seat) (heap_view result.seat) }
    {
        let heap = self.heap;
        let seat = heap.split(&mut self.seat);
        HeapUser {
            heap,
            seat,
            mutator,
        }
    }

    // A user more, as the same mutator.
    pub(crate) fn another(&mut self) -> HeapUser<'a, A>
        ensures same { self.new ≡ record self.old { seat = self.new.seat } }
        ensures seat { heap_view self.new.seat ≡ heap_view self.old.seat }
        ensures other { result ≡ record self.old { seat = result.seat } }
        ensures begins { Begins (heap_view self.old.seat) (heap_view result.seat) }
    {
        self.split(self.mutator)
    }

    /// How many turns of the heap have ended, as `served` tells, and the first ticket with them. Takes no turn.
    pub fn served(&mut self) -> u64
        ensures same { self.new ≡ record self.old { seat = self.new.seat } }
        ensures longer { Longer (heap_view self.old.seat) (heap_view self.new.seat) }
        ensures count { result ≡ (heap_view self.new.seat).first + length (heap_view self.new.seat).seen }
    {
        self.heap.served(&mut self.seat)
    }

    /// Its seat alone, as to end the heap by.
    pub fn into_seat(self) -> HeapSeat<A>
        ensures own { result ≡ self.entry.seat }
        ensures seat { IsHeapSeat self.entry.heap result }
    {
        let HeapUser { seat, .. } = self;
        seat
    }

    /// What the heap was made with. Takes no turn.
    pub fn config(&self) -> Config
        ensures { result ≡ self.now.heap.frame.config }
    {
        self.heap.config()
    }

    /// Makes a plain object with so many fields, all of them null, and the slot then holds it. The object's number.
    pub fn make<R: Wait>(&mut self, rt: &R, slot: SlotNo, fields: u32) -> Result<ObjNo, Fault>
        ensures same { self.new ≡ record self.old { seat = self.new.seat } }
        ensures makes { Performs (heap_view self.old.seat) (steps.New self.old.mutator slot fields)
            (told_as replies.Object result) (heap_view self.new.seat) }
    {
        let mutator = self.mutator;
        let step = PlainStep::New {
            mutator,
            slot,
            fields,
        };
        match self.perform(rt, step)? {
            Reply::Object(object) => Ok(object),
            _ => unreachable!(),
        }
    }

    /// Makes a reference without fields to what the source slot holds, and the slot then holds it. Its notice is for
    /// the queue, if there is one. The reference's number.
    pub fn refer<R: Wait>(
        &mut self,
        rt: &R,
        strength: Strength,
        slot: SlotNo,
        source: SlotNo,
        queue: Option<QueueNo>,
    ) -> Result<ObjNo, Fault>
        ensures same { self.new ≡ record self.old { seat = self.new.seat } }
        ensures makes { Performs (heap_view self.old.seat) (steps.Refer self.old.mutator strength slot source queue 0)
            (told_as replies.Object result) (heap_view self.new.seat) }
    {
        let step = PlainStep::Refer {
            mutator: self.mutator,
            strength,
            slot,
            source,
            queue,
            fields: 0,
        };
        match self.perform(rt, step)? {
            Reply::Object(object) => Ok(object),
            _ => unreachable!(),
        }
    }

    /// The referent of the reference, which the slot then holds; none, and the slot is empty then, where the reference
    /// is cleared or a phantom one. As `Reference.get` of Java SE 17.
    pub fn get<R: Wait>(
        &mut self,
        rt: &R,
        slot: SlotNo,
        reference: SlotNo,
    ) -> Result<Option<ObjNo>, Fault>
        ensures same { self.new ≡ record self.old { seat = self.new.seat } }
        ensures gets { Performs (heap_view self.old.seat) (steps.Get self.old.mutator slot reference)
            (told_as reply_of_found result) (heap_view self.new.seat) }
    {
        let mutator = self.mutator;
        let step = PlainStep::Get {
            mutator,
            slot,
            reference,
        };
        self.find(rt, step)
    }

    /// What the field holds of the object that the other slot holds; the slot then holds it, or nothing.
    pub fn load<R: Wait>(
        &mut self,
        rt: &R,
        slot: SlotNo,
        object: SlotNo,
        field: u32,
    ) -> Result<Option<ObjNo>, Fault>
        ensures same { self.new ≡ record self.old { seat = self.new.seat } }
        ensures loads { Performs (heap_view self.old.seat) (steps.Load self.old.mutator slot object field)
            (told_as reply_of_found result) (heap_view self.new.seat) }
    {
        let mutator = self.mutator;
        let step = PlainStep::Load {
            mutator,
            slot,
            object,
            field,
        };
        self.find(rt, step)
    }

    /// What the source slot holds; the slot then holds it too, or nothing.
    pub fn copy<R: Wait>(
        &mut self,
        rt: &R,
        slot: SlotNo,
        source: SlotNo,
    ) -> Result<Option<ObjNo>, Fault>
        ensures same { self.new ≡ record self.old { seat = self.new.seat } }
        ensures copies { Performs (heap_view self.old.seat) (steps.Copy self.old.mutator slot source)
            (told_as reply_of_found result) (heap_view self.new.seat) }
    {
        let mutator = self.mutator;
        let step = PlainStep::Copy {
            mutator,
            slot,
            source,
        };
        self.find(rt, step)
    }

    /// The field of the object then holds what the slot of the value holds, or null.
    pub fn store<R: Wait>(
        &mut self,
        rt: &R,
        object: SlotNo,
        field: u32,
        value: SlotNo,
    ) -> Result<(), Fault>
        ensures same { self.new ≡ record self.old { seat = self.new.seat } }
        ensures stores { Performs (heap_view self.old.seat) (steps.Store self.old.mutator object field value)
            (told_as reply_of_done result) (heap_view self.new.seat) }
    {
        let mutator = self.mutator;
        let step = PlainStep::Store {
            mutator,
            object,
            field,
            value,
        };
        self.change(rt, step)
    }

    /// Empties the slot.
    pub fn empty<R: Wait>(&mut self, rt: &R, slot: SlotNo) -> Result<(), Fault>
        ensures same { self.new ≡ record self.old { seat = self.new.seat } }
        ensures empties { Performs (heap_view self.old.seat) (steps.Drop self.old.mutator slot)
            (told_as reply_of_done result) (heap_view self.new.seat) }
    {
        let mutator = self.mutator;
        self.change(rt, PlainStep::Drop { mutator, slot })
    }

    /// Clears the reference in the slot, and enqueues nothing. As `Reference.clear` of Java SE 17.
    pub fn clear<R: Wait>(&mut self, rt: &R, reference: SlotNo) -> Result<(), Fault>
        ensures same { self.new ≡ record self.old { seat = self.new.seat } }
        ensures clears { Performs (heap_view self.old.seat) (steps.Clear self.old.mutator reference)
            (told_as reply_of_done result) (heap_view self.new.seat) }
    {
        let mutator = self.mutator;
        self.change(rt, PlainStep::Clear { mutator, reference })
    }

    /// Whether the reference is to what the other slot holds, or cleared where that is empty. As `Reference.refersTo`
    /// of Java SE 17.
    pub fn refers_to<R: Wait>(
        &mut self,
        rt: &R,
        reference: SlotNo,
        other: SlotNo,
    ) -> Result<bool, Fault>
        ensures same { self.new ≡ record self.old { seat = self.new.seat } }
        ensures compares { Performs (heap_view self.old.seat) (steps.RefersTo self.old.mutator reference other)
            (told_as replies.Refers result) (heap_view self.new.seat) }
    {
        let mutator = self.mutator;
        let step = PlainStep::RefersTo {
            mutator,
            reference,
            other,
        };
        match self.perform(rt, step)? {
            Reply::Refers(is_so) => Ok(is_so),
            _ => unreachable!(),
        }
    }

    /// A hold of what the slot holds, as `SharedHeap::hold`.
    pub fn hold<R: Wait>(&mut self, rt: &R, slot: SlotNo) -> Result<Hold, Fault>
        ensures same { self.new ≡ record self.old { seat = self.new.seat } }
        ensures holds { HoldsSlot (heap_view self.old.seat) self.old.mutator slot result (heap_view self.new.seat) }
    {
        self.heap.hold(rt, &mut self.seat, self.mutator, slot)
    }

    /// The slot then holds what the hold holds, as by `SharedHeap::adopt`: so one thread gets an object by a hold of
    /// another's. Refused, the hold comes back as `Held`.
    pub fn adopt<R: Wait>(&mut self, rt: &R, slot: SlotNo, hold: Hold) -> Result<(), ShareFault>
        ensures same { self.new ≡ record self.old { seat = self.new.seat } }
        ensures adopts { (answer : _) × (result ≡ held_back answer)
            × Adopts (heap_view self.old.seat) self.old.mutator slot hold answer (heap_view self.new.seat) }
    {
        match self
            .heap
            .adopt(rt, &mut self.seat, self.mutator, slot, hold)
        {
            Ok(()) => Ok(()),
            Err((fault, hold)) => Err(ShareFault::Held(hold, fault)),
        }
    }

    /// Gives the hold back, as `SharedHeap::give_back`: where it would come back, it is given up.
    pub fn give_back<R: Wait>(&mut self, rt: &R, hold: Hold) -> Result<(), Fault>
        ensures same { self.new ≡ record self.old { seat = self.new.seat } }
        ensures ok { IfOk result (λ _. Releases (heap_view self.old.seat) hold (Ok tt) (heap_view self.new.seat)) }
        ensures err { IfErr result (λ fault.
            Releases (heap_view self.old.seat) hold (Err (fault, hold)) (heap_view self.new.seat)) }
    {
        self.heap.give_back(rt, &mut self.seat, hold)
    }

    /// Any step by which neither a hold nor a notice changes hands, as `SharedHeap::perform`. The reply is one that
    /// such a step may have, and no refusal.
    pub fn perform<R: Wait>(&mut self, rt: &R, step: PlainStep) -> Result<Reply, Fault>
        ensures same { self.new ≡ record self.old { seat = self.new.seat } }
        ensures performs { Performs (heap_view self.old.seat) step result (heap_view self.new.seat) }
        ensures kind { IfOk result (λ reply. may_answer step reply ≡ true) }
    {
        self.heap.perform(rt, &mut self.seat, step)
    }

    // Does a step after which a slot holds an object, or nothing.
    fn find<R: Wait>(&mut self, rt: &R, step: PlainStep) -> Result<Option<ObjNo>, Fault>
        requires { fills_a_slot step ≡ true }
        ensures same { self.new ≡ record self.old { seat = self.new.seat } }
        ensures performs { Performs (heap_view self.old.seat) step (told_as reply_of_found result)
            (heap_view self.new.seat) }
    {
        match self.perform(rt, step)? {
            Reply::Object(object) => Ok(Some(object)),
            Reply::Null => Ok(None),
            _ => unreachable!(),
        }
    }

    // Does a step that tells nothing.
    fn change<R: Wait>(&mut self, rt: &R, step: PlainStep) -> Result<(), Fault>
        requires { tells_nothing step ≡ true }
        ensures same { self.new ≡ record self.old { seat = self.new.seat } }
        ensures performs { Performs (heap_view self.old.seat) step (told_as reply_of_done result)
            (heap_view self.new.seat) }
    {
        match self.perform(rt, step)? {
            Reply::Done => Ok(()),
            _ => unreachable!(),
        }
    }
}
