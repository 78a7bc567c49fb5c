//! One step of a world.

ghost use Rattle.std.specs.Prelude.{◌≡◌, true, None};
ghost use Rattle.ref_base.specs.Told.{told_notices};
ghost use Rattle.ref_base.specs.Refusals.{drop_refusal};
ghost use Rattle.ref_objects.specs.Grounds.{IsRefused};
ghost use Rattle.ref_clear.specs.ClearCalls.{HeapDoes};
ghost use Rattle.ref_world.specs.AskedSteps.{may_give_notice, received};
ghost use Rattle.ref_world.specs.Cores.{filling_refusal};
ghost use Rattle.ref_world.specs.InsideHeaps.{DoesInside};
ghost use Rattle.ref_world.specs.Standing.{IsRowOf, answered, Does};
ghost use Rattle.ref_world.specs.WorldHeaps.{heap_no_of, model_heap};

use super::World;
use crate::hands::Hands;
use crate::heap_machine::{plain_call, told};
use crate::{HeapCall, HeapReply, PlainReply, WorldHeap, WorldNotice, apply_heap};
use ref_base::{Actor, Fault, HeapStep, MutNo, PlainStep, Reply, SlotNo, Step, WorkerNo};
use std::alloc::Allocator;

/// How many slots a mutator has.
const SLOTS: u32 = 16;

impl<A: Allocator + Copy> World<A> {
    /// Does one step, and returns its reply. A step that is refused, with the first fault that applies, has changed
    /// nothing. `Put` takes expected constant time, amortized, and `Puts` expected time of its notices, amortized. Both
    /// take memory where they add a notice. Where that is refused, the notice that found none is in the hand again.
    /// `Put` returns that memory was refused; `Puts` returns that as the last of what became of its notices, and those
    /// behind that one stay in the hand, in order. `Poll` and `Close` take constant time, and `Polls` takes time of
    /// what comes out. Any other step costs what the heap's call costs. But for `Put` and `Puts` no step takes memory.
    pub fn step(&mut self, step: Step) -> Reply
        ensures row { IsRowOf self.old step result self.new }

        // Nothing is chosen in it: the heap inside does just what its own call does.
        ensures does { DoesInside self.old step result self.new }
    {
        match step {
            Step::Plain(step) => self.ask(step).reply(),
            step => match self.perform(step) {
                Ok(reply) => reply,
                Err(fault) => Reply::Refused(fault),
            },
        }
    }

    // The reply to a step, or why it is refused.
    #[inline(always)]
    fn perform(&mut self, step: Step) -> Result<Reply, Fault>
        ensures row { Does self.old step result self.new }
        ensures inside { DoesInside self.old step (answered result) self.new }
    {
        match step {
            Step::Plain(step) => Ok(self.ask(step).reply()),
            Step::Unhook { mutator, reference } => self.unhook(mutator, reference),
            Step::Hand { worker } => self.hand(worker),
            Step::Hands { worker, max } => self.hand_some(worker, max),
            Step::Put { actor } => self.put(actor),
            Step::Puts { actor } => self.puts(actor),
            Step::Poll { mutator, queue } => self.poll(mutator, queue),
            Step::Polls {
                mutator,
                queue,
                max,
            } => self.polls(mutator, queue, max),
            Step::Adopt { mutator, slot } => self.adopt(mutator, slot),
            Step::Release { actor } => self.release(actor),
            Step::Close { mutator, queue } => self.close(mutator, queue),
        }
    }

    /// Does a step of the heap alone, as `step` does it, and answers it in fewer bytes. Takes no memory. In the time of
    /// the heap's call.
    #[inline(always)]
    pub fn ask(&mut self, step: PlainStep) -> PlainReply
        ensures row { IsRowOf self.old (Step.Plain step) result self.new }
        ensures does { HeapDoes self.old.heap (HeapStep.Plain step) result self.new.heap }
    {
        plain_call(&mut self.heap, step)
    }

    // Clears the reference in a slot, and takes its notice into the hand if it has a queue.
    fn unhook(&mut self, mutator: MutNo, reference: SlotNo) -> Result<Reply, Fault>
        ensures row { Does self.old (Step.Unhook mutator reference) result self.new }
        ensures inside { DoesInside self.old (Step.Unhook mutator reference) (answered result) self.new }
    {
        self.check_slot(mutator, reference)?;
        self.hands.check_empty(Actor::Mutator(mutator))?;
        let asked = HeapStep::Unhook { mutator, reference };
        let actor = Actor::Mutator(mutator);
        Ok(receive(&mut self.heap, &mut self.hands, actor, asked))
    }

    // Takes the notice of the next reference that the worker cleared into its hand.
    fn hand(&mut self, worker: WorkerNo) -> Result<Reply, Fault>
        ensures row { Does self.old (Step.Hand worker) result self.new }
        ensures inside { DoesInside self.old (Step.Hand worker) (answered result) self.new }
    {
        self.hands.check_empty(Actor::Worker(worker))?;
        let asked = HeapStep::Hand { worker };
        let actor = Actor::Worker(worker);
        Ok(receive(&mut self.heap, &mut self.hands, actor, asked))
    }

    // Takes the notices of the next references that the worker cleared into its hand, so many at most.
    #[inline(never)]
    fn hand_some(&mut self, worker: WorkerNo, max: u32) -> Result<Reply, Fault>
        ensures row { Does self.old (Step.Hands worker max) result self.new }
        ensures inside { DoesInside self.old (Step.Hands worker max) (answered result) self.new }
    {
        self.hands.check_fits(Actor::Worker(worker), max)?;
        Ok(self.hands.hand_on(&mut self.heap, worker, max))
    }

    // The slot then holds what the hand's first notice reports.
    fn adopt(&mut self, mutator: MutNo, slot: SlotNo) -> Result<Reply, Fault>
        ensures row { Does self.old (Step.Adopt mutator slot) result self.new }
        ensures inside { DoesInside self.old (Step.Adopt mutator slot) (answered result) self.new }
    {
        self.check_slot(mutator, slot)?;
        let hold = self.hands.take(Actor::Mutator(mutator))?.into_hold();
        let asked = HeapStep::Adopt {
            mutator,
            slot,
            hold,
        };
        Ok(told(apply_heap(&mut self.heap, asked)))
    }

    // Gives the hand's first notice up.
    fn release(&mut self, actor: Actor) -> Result<Reply, Fault>
        ensures row { Does self.old (Step.Release actor) result self.new }
        ensures inside { DoesInside self.old (Step.Release actor) (answered result) self.new }
    {
        let hold = self.hands.take(actor)?.into_hold();
        let asked = HeapStep::Release { hold };
        Ok(told(apply_heap(&mut self.heap, asked)))
    }

    // That there is such a mutator, and it has such a slot: NoSuchActor.
    fn check_slot(&self, mutator: MutNo, slot: SlotNo) -> Result<(), Fault>
        ensures { IsRefused (drop_refusal (model_heap self.now.heap) mutator slot) result }
    {
        if mutator.0 < self.heap.config().mutators && slot.0 < SLOTS {
            Ok(())
        } else {
            Err(Fault::NoSuchActor)
        }
    }
}

// Asks a step of the heap that may give a notice. The hand, which is empty, then holds it.
#[inline(always)]
fn receive<A: Allocator + Copy>(
    heap: &mut WorldHeap<A>,
    hands: &mut Hands<A>,
    actor: Actor,
    asked: HeapCall<A>,
) -> Reply
    requires own { heap_no_of heap.old ≡ 0 }
    requires gives { may_give_notice asked ≡ true }
    requires empty { filling_refusal hands.old actor ≡ None }
    ensures does { HeapDoes heap.old asked result heap.new }
    ensures hands { hands.new ≡ received hands.old actor (told_notices result) }
{
    match apply_heap(heap, asked) {
        HeapReply::Notice(notice) => {
            let notice = WorldNotice::new(notice);
            let reply = notice.reply();
            hands.fill(actor, notice);
            reply
        }
        reply => told(reply),
    }
}
