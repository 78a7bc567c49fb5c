//! Calls of a shared heap by what they answer.

ghost use Rattle.std.specs.Prelude.{◌≡◌, ◌||◌, true, false, Ok, Err, IfOk, IfErr};
ghost use Rattle.ref_base.specs.declared.fault.Fault.TheVariants.{TurnsSpent};
ghost use Rattle.ref_base.specs.declared.heap_step.HeapStep.TheVariants as steps;
ghost use Rattle.ref_share.specs.HeapSeats.{heap_view, IsHeapSeat};
ghost use Rattle.ref_share.specs.HeapCalls.{AsksHeap, Performs, HoldsSlot, asks_for_a_notice};
ghost use Rattle.ref_share.specs.HeapCalls.{GivesNotice, TellsOfNone, takes_a_hold, Spends, Adopts, Releases};
ghost use Rattle.ref_share.specs.HeapCalls.{GivesBatch, takes_along, is_refusal, may_answer};
ghost use Rattle.ref_share.specs.HeapMachines.{Acts};
ghost use Rattle.ref_share.specs.SeatCalls.{Called, RanOut};
ghost use Rattle.ref_clear.specs.ClearHeaps.{ClearHeap};

use crate::{HeapSeat, SharedHeap};
use ref_base::{Batch, Fault, HeapStep, MutNo, PlainStep, Reply, SlotNo, WorkerNo};
use ref_clear::{Handed, Notice};
use ref_objects::Hold;
use ref_turn::TurnFault;
use ref_world::{HeapAnswer, HeapCall, HeapReply};
use std::alloc::Allocator;
use std::sync::Wait;

impl<A: Allocator + Copy> SharedHeap<A> {
    /// A hold of what the slot holds, once the turn is free: its object is a root while the hold is out. Tried in this
    /// order: `TurnsSpent` where no turn is left, `NoSuchActor` where mutator or slot is outside the configuration,
    /// `EmptySlot`, `NumbersSpent` where no more holds can be counted. Refused, the heap is as before. Takes no memory.
    pub fn hold<R: Wait>(
        &self,
        rt: &R,
        seat: &mut HeapSeat<A>,
        mutator: MutNo,
        slot: SlotNo,
    ) -> Result<Hold, Fault>
        requires { IsHeapSeat self.now seat.old }
        ensures seat { IsHeapSeat self.now seat.new }
        ensures holds { HoldsSlot (heap_view seat.old) mutator slot result (heap_view seat.new) }
    {
        match self.without_hold(rt, seat, HeapStep::Hold { mutator, slot }) {
            Ok(HeapReply::Held(hold)) => Ok(hold),
            Ok(HeapReply::Told(reply)) => match reply.reply() {
                Reply::Refused(fault) => Err(fault),
                _ => unreachable!(),
            },
            Err(fault) => Err(fault),
            _answer => unreachable!(),
        }
    }

    /// Clears the reference in the slot, once the turn is free, and gives its notice; none where it has no queue. Tried
    /// in this order: `TurnsSpent` where no turn is left, `NoSuchActor` where mutator or slot is outside the
    /// configuration, `EmptySlot`, `NotAReference`, `NumbersSpent` where it has a queue and no more holds can be
    /// counted. Refused, the heap is as before. Takes no memory.
    pub fn unhook<R: Wait>(
        &self,
        rt: &R,
        seat: &mut HeapSeat<A>,
        mutator: MutNo,
        slot: SlotNo,
    ) -> Result<Option<Notice>, Fault>
        requires { IsHeapSeat self.now seat.old }
        ensures seat { IsHeapSeat self.now seat.new }
        ensures gives { GivesNotice (heap_view seat.old) (steps.Unhook mutator slot) result (heap_view seat.new) }
    {
        let reference = slot;
        self.notice(rt, seat, HeapStep::Unhook { mutator, reference })
    }

    /// The notice of the next reference that the worker cleared, once the turn is free; none where none is pending.
    /// Tried in this order: `TurnsSpent` where no turn is left, `NoSuchActor` where the worker is outside the
    /// configuration, `NumbersSpent` where one is pending and no more holds can be counted. Refused, the heap is as
    /// before. Takes no memory.
    pub fn hand<R: Wait>(
        &self,
        rt: &R,
        seat: &mut HeapSeat<A>,
        worker: WorkerNo,
    ) -> Result<Option<Notice>, Fault>
        requires { IsHeapSeat self.now seat.old }
        ensures seat { IsHeapSeat self.now seat.new }
        ensures gives { GivesNotice (heap_view seat.old) (steps.Hand worker) result (heap_view seat.new) }
    {
        self.notice(rt, seat, HeapStep::Hand { worker })
    }

    /// Puts the notices of the next references that the worker cleared into the batch, behind what is in it, once the
    /// turn is free. They are `max` at most, and all of one queue and one cycle; none where none is pending. The batch,
    /// which has room for 32, comes back in each case. Tried in this order: `TurnsSpent` where no turn is left,
    /// `NoSuchActor` where the worker is outside the configuration, `BadConfig` where `max` is not from 1 to the room
    /// that is left in the batch. Last comes `NumbersSpent`, where fewer holds than one for each notice can be counted.
    /// Refused, heap and batch are as before. Takes no memory.
    pub fn hand_batch<R: Wait>(
        &self,
        rt: &R,
        seat: &mut HeapSeat<A>,
        worker: WorkerNo,
        max: u32,
        batch: Batch<Notice, A>,
    ) -> (Result<Option<Handed>, Fault>, Batch<Notice, A>)
        requires { IsHeapSeat self.now seat.old }
        ensures seat { IsHeapSeat self.now seat.new }
        ensures gives { GivesBatch (heap_view seat.old) worker max batch result.0 result.1 (heap_view seat.new) }
    {
        match self.call(rt, seat, HeapStep::Hands { worker, max, batch }) {
            Ok(HeapReply::Handed(reply, batch)) => (reply.answer(), batch),
            Err(TurnFault::Spent(HeapStep::Hands { batch, .. })) => (Err(Fault::TurnsSpent), batch),
            _answer => unreachable!(),
        }
    }

    // The notice that the step may give.
    #[inline(always)]
    fn notice<R: Wait>(
        &self,
        rt: &R,
        seat: &mut HeapSeat<A>,
        step: HeapCall<A>,
    ) -> Result<Option<Notice>, Fault>
        requires seat { IsHeapSeat self.now seat.old }
        requires step { asks_for_a_notice step ≡ true }
        ensures seat { IsHeapSeat self.now seat.new }
        ensures gives { GivesNotice (heap_view seat.old) step result (heap_view seat.new) }
    {
        match self.without_hold(rt, seat, step) {
            Ok(HeapReply::Notice(notice)) => Ok(Some(notice)),
            Ok(HeapReply::Told(reply)) => none_given(reply.reply()),
            Err(fault) => Err(fault),
            _answer => unreachable!(),
        }
    }

    /// The slot then holds what the hold holds, once the turn is free, and the hold is spent. Where it is refused the
    /// hold comes back, and the heap is as before. Tried in this order: `TurnsSpent` where no turn is left,
    /// `NoSuchActor` where mutator or slot is outside the configuration, `ForeignHold` where the heap doesn't count the
    /// hold. Takes no memory.
    pub fn adopt<R: Wait>(
        &self,
        rt: &R,
        seat: &mut HeapSeat<A>,
        mutator: MutNo,
        slot: SlotNo,
        hold: Hold,
    ) -> Result<(), (Fault, Hold)>
        requires { IsHeapSeat self.now seat.old }
        ensures seat { IsHeapSeat self.now seat.new }
        ensures adopts { Adopts (heap_view seat.old) mutator slot hold result (heap_view seat.new) }
    {
        let step = HeapStep::Adopt {
            mutator,
            slot,
            hold,
        };
        self.spend(rt, seat, step)
    }

    /// Gives the hold back, once the turn is free: what it holds is no root any more, but for what else leads to it.
    /// Tried in this order, and then the hold comes back and the heap is as before: `TurnsSpent` where no turn is left,
    /// `ForeignHold` where the heap doesn't count the hold. Takes no memory.
    pub fn release<R: Wait>(
        &self,
        rt: &R,
        seat: &mut HeapSeat<A>,
        hold: Hold,
    ) -> Result<(), (Fault, Hold)>
        requires { IsHeapSeat self.now seat.old }
        ensures seat { IsHeapSeat self.now seat.new }
        ensures releases { Releases (heap_view seat.old) hold result (heap_view seat.new) }
    {
        self.spend(rt, seat, HeapStep::Release { hold })
    }

    /// Releases the hold, and gives it up where it would come back: then the heap counts it for good. The faults are
    /// those of `release`.
    pub fn give_back<R: Wait>(
        &self,
        rt: &R,
        seat: &mut HeapSeat<A>,
        hold: Hold,
    ) -> Result<(), Fault>
        requires { IsHeapSeat self.now seat.old }
        ensures seat { IsHeapSeat self.now seat.new }
        ensures ok { IfOk result (λ _. Releases (heap_view seat.old) hold (Ok tt) (heap_view seat.new)) }
        ensures err { IfErr result (λ fault.
            Releases (heap_view seat.old) hold (Err (fault, hold)) (heap_view seat.new)) }
    {
        match self.release(rt, seat, hold) {
            Ok(()) => Ok(()),
            Err((fault, hold)) => {
                hold.leak();
                Err(fault)
            }
        }
    }

    // Does a step that spends a hold, which comes back where it is not spent.
    #[inline(always)]
    fn spend<R: Wait>(
        &self,
        rt: &R,
        seat: &mut HeapSeat<A>,
        step: HeapCall<A>,
    ) -> Result<(), (Fault, Hold)>
        requires seat { IsHeapSeat self.now seat.old }
        requires step { takes_a_hold step ≡ true }
        ensures seat { IsHeapSeat self.now seat.new }
        ensures spends { Spends (heap_view seat.old) step result (heap_view seat.new) }
    {
        match self.call(rt, seat, step) {
            Ok(HeapReply::Told(_)) => Ok(()),
            Ok(HeapReply::Back(fault, hold)) => Err((fault, hold)),
            Err(TurnFault::Spent(HeapStep::Adopt { hold, .. } | HeapStep::Release { hold })) => {
                Err((Fault::TurnsSpent, hold))
            }
            _answer => unreachable!(),
        }
    }

    /// Does a step by which neither a hold nor a notice changes hands, once the turn is free. The reply is
    /// `Reply::Refused` where the heap refuses it, and else one that such a step may have. The one error is
    /// `TurnsSpent`, where no turn is left; then the heap is as before. Takes no memory.
    #[inline(always)]
    pub fn ask<R: Wait>(
        &self,
        rt: &R,
        seat: &mut HeapSeat<A>,
        step: PlainStep,
    ) -> Result<Reply, Fault>
        requires { IsHeapSeat self.now seat.old }
        ensures seat { IsHeapSeat self.now seat.new }
        ensures asks { AsksHeap (heap_view seat.old) step result (heap_view seat.new) }
        ensures kind { IfOk result (λ reply. (is_refusal reply || may_answer step reply) ≡ true) }
    {
        match self.without_hold(rt, seat, HeapStep::Plain(step)) {
            Ok(HeapReply::Told(reply)) => Ok(reply.reply()),
            Err(fault) => Err(fault),
            _answer => unreachable!(),
        }
    }

    /// Does such a step as `ask` does, and answers a refusal of the heap as an `Err`, so that `?` passes it on.
    pub fn perform<R: Wait>(
        &self,
        rt: &R,
        seat: &mut HeapSeat<A>,
        step: PlainStep,
    ) -> Result<Reply, Fault>
        requires { IsHeapSeat self.now seat.old }
        ensures seat { IsHeapSeat self.now seat.new }
        ensures performs { Performs (heap_view seat.old) step result (heap_view seat.new) }
        ensures kind { IfOk result (λ reply. may_answer step reply ≡ true) }
    {
        match self.ask(rt, seat, step) {
            Ok(Reply::Refused(fault)) => Err(fault),
            answer => answer,
        }
    }

    // Does a step that takes neither a hold nor a batch along. `TurnsSpent` where no turn is left.
    #[inline(always)]
    fn without_hold<R: Wait>(
        &self,
        rt: &R,
        seat: &mut HeapSeat<A>,
        step: HeapCall<A>,
    ) -> Result<HeapAnswer<A>, Fault>
        requires seat { IsHeapSeat self.now seat.old }
        requires step { takes_along step ≡ false }
        ensures seat { IsHeapSeat self.now seat.new }
        ensures ok { IfOk result (λ reply. Called (heap_view seat.old) step reply (heap_view seat.new)) }
        ensures acted { IfOk result (λ reply. (c d : ClearHeap) × Acts c step reply d) }
        ensures err { IfErr result (λ fault. (fault ≡ TurnsSpent)
            × RanOut (heap_view seat.old) (heap_view seat.new)) }
    {
        match self.call(rt, seat, step) {
            Ok(reply) => Ok(reply),
            Err(TurnFault::Busy(step) | TurnFault::Spent(step)) => match step {
                HeapStep::Adopt { hold: _hold, .. } | HeapStep::Release { hold: _hold } => {
                    unreachable!()
                }
                HeapStep::Hands { batch: _batch, .. } => unreachable!(),
                _ => Err(Fault::TurnsSpent),
            },
        }
    }
}

// What is answered where no notice is given.
fn none_given(reply: Reply) -> Result<Option<Notice>, Fault>
    ensures { TellsOfNone reply result }
{
    match reply {
        Reply::Refused(fault) => Err(fault),
        _ => Ok(None),
    }
}
