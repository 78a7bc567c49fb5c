//! The heap's own machine: one step in, one reply out, with the holds and notices that go with them.

ghost use Rattle.std.specs.Prelude.{◌≡◌, true, ◌++◌};
ghost use Rattle.ref_base.specs.Collectors.{State};
ghost use Rattle.ref_base.specs.CollectorRows.{IsHeapRow};
ghost use Rattle.ref_base.specs.Told.{told_notices};
ghost use Rattle.ref_mark.specs.MarkCalls.{reply_of, reply_or_back, hold_reply, done_reply};
ghost use Rattle.ref_clear.specs.ClearCalls.{HeapDoes, notice_reply, handed_reply, IsOfHeap, held_notices};
ghost use Rattle.ref_clear.specs.Standing.{HeapStands};
ghost use Rattle.ref_world.specs.HeapReplies.{told_reply, GivesOut, IsGiven, IsHeld, IsBack, IsTold};
ghost use Rattle.ref_world.specs.WorldHeaps.{heap_no_of};

use crate::HandedReply;
use crate::hand::is_within;
use crate::plain_reply::{PlainAnswer, PlainReply};
use crate::replies::{
    began, done, doomed, looked, made, moved, refers, scanned, selected, swept, value,
};
use ref_base::{Batch, Fault, HeapStep, ObjNo, PlainStep, Reply, WorkerNo};
use ref_clear::{Handed, Heap, Notice};
use ref_objects::Hold;
use std::alloc::{Allocator, Global};

/// The heap that a world has.
pub type WorldHeap<A = Global> = Heap<A>;

/// A step of a heap that has the hold which it spends, and the batch which it fills.
pub type HeapCall<A = Global> = HeapStep<Hold, Batch<Notice, A>>;

/// What a step of a heap answers, with what it gives out.
#[derive(Debug)]
pub enum HeapReply<B> {
    /// The reply, and nothing is given out.
    Told(PlainReply),
    /// The notice that an unhook or a hand gives.
    Notice(Notice),
    /// The hold that a hold gives.
    Held(Hold),
    /// An adopt or a release is refused with this fault, and its hold comes back.
    Back(Fault, Hold),
    /// The reply to a hand of a batch, refused or not, and the batch, which always comes back: behind what was in it
    /// stand the notices that are told.
    Handed(HandedReply, B),
}

/// What a step of a heap answers, with the batch that was to be filled.
pub type HeapAnswer<A = Global> = HeapReply<Batch<Notice, A>>;

/// Does one step of a heap, and answers it. Refused, with the first fault that applies, it has changed nothing, and the
/// hold of an adopt or a release comes back. The batch of a hand of several comes back whatever is answered; such a
/// hand is `BadConfig`, behind `NoSuchActor`, where it asks for none or for more than the batch has room for. Costs are
/// those of the heap's calls. Takes no memory.
#[inline(always)]
pub fn apply_heap<A: Allocator + Copy>(heap: &mut WorldHeap<A>, step: HeapCall<A>) -> HeapAnswer<A>
    ensures does { HeapDoes heap.old step (told_reply result) heap.new }
    ensures gives { GivesOut (heap_no_of heap.old) step result }

    // One row of the heap's machine, from each state that the heap stands for to one that it then stands for.
    ensures row { (a : State) → HeapStands heap.old a
        → (b : State) × IsHeapRow a step (told_reply result) b × HeapStands heap.new b }
{
    called(heap, step)
}

// The call of the heap that does the step. That it is a row follows from these clauses, once for all steps.
#[inline(always)]
fn called<A: Allocator + Copy>(heap: &mut WorldHeap<A>, step: HeapCall<A>) -> HeapAnswer<A>
    ensures does { HeapDoes heap.old step (told_reply result) heap.new }
    ensures gives { GivesOut (heap_no_of heap.old) step result }
{
    match step {
        HeapStep::Plain(step) => HeapReply::Told(plain_call(heap, step)),
        HeapStep::Hold { mutator, slot } => held(heap.hold(mutator, slot)),
        HeapStep::Adopt {
            mutator,
            slot,
            hold,
        } => adopted(heap.adopt(mutator, slot, hold)),
        HeapStep::Release { hold } => released(heap.release(hold)),
        HeapStep::Unhook { mutator, reference } => given(heap.unhook(mutator, reference)),
        HeapStep::Hand { worker } => given(heap.hand(worker)),
        HeapStep::Hands { worker, max, batch } => handed(heap, worker, max, batch),
    }
}

// The call of the heap that does a step which hands nothing over.
#[inline(always)]
pub(crate) fn plain_call<A: Allocator + Copy>(
    heap: &mut WorldHeap<A>,
    step: PlainStep,
) -> PlainReply
    ensures { HeapDoes heap.old (HeapStep.Plain step) result heap.new }
{
    match step {
        PlainStep::New {
            mutator,
            slot,
            fields,
        } => made(heap.alloc_obj(mutator, slot, fields)),
        PlainStep::Refer {
            mutator,
            strength,
            slot,
            source,
            queue,
            fields,
        } => made(heap.alloc_ref(mutator, slot, strength, source, queue, fields)),
        PlainStep::Store {
            mutator,
            object,
            field,
            value,
        } => done(heap.store(mutator, object, field, value)),
        PlainStep::Load {
            mutator,
            slot,
            object,
            field,
        } => value(heap.load(mutator, slot, object, field)),
        PlainStep::Copy {
            mutator,
            slot,
            source,
        } => value(heap.copy(mutator, slot, source)),
        PlainStep::Drop { mutator, slot } => done(heap.drop_slot(mutator, slot)),
        PlainStep::Get {
            mutator,
            slot,
            reference,
        } => value(heap.get(mutator, slot, reference)),
        PlainStep::Clear { mutator, reference } => done(heap.clear(mutator, reference)),
        PlainStep::RefersTo {
            mutator,
            reference,
            other,
        } => refers(heap.refers_to(mutator, reference, other)),
        PlainStep::Begin { now, urgency } => began(heap.begin(now, urgency)),
        PlainStep::Scan { worker } => scanned(heap.scan(worker)),
        PlainStep::EndMark => doomed(heap.end_mark()),
        PlainStep::ClearNext { worker } => looked(heap.clear_next(worker)),
        PlainStep::EndClear => done(heap.end_clear()),
        PlainStep::Sweep { worker } => swept(heap.sweep(worker)),
        PlainStep::EndSweep => done(heap.end_sweep()),
        PlainStep::Select => selected(heap.select()),
        PlainStep::MoveNext { worker } => moved(heap.move_next(worker)),
        PlainStep::EndMove => done(heap.end_move()),
    }
}

// A hand of several, which come into the batch: NoSuchActor, then BadConfig.
#[inline(never)]
fn handed<A: Allocator + Copy>(
    heap: &mut WorldHeap<A>,
    worker: WorkerNo,
    max: u32,
    batch: Batch<Notice, A>,
) -> HeapAnswer<A>
    ensures does { HeapDoes heap.old (HeapStep.Hands worker max batch) (told_reply result) heap.new }
    ensures gives { GivesOut (heap_no_of heap.old) (HeapStep.Hands worker max batch) result }
{
    let mut batch = batch;
    let answer = handed_into(heap, worker, max, &mut batch);
    HeapReply::Handed(HandedReply::new(worker, answer), batch)
}

// What a hand of several answers.
fn handed_into<A: Allocator + Copy>(
    heap: &mut WorldHeap<A>,
    worker: WorkerNo,
    max: u32,
    batch: &mut Batch<Notice, A>,
) -> Result<Option<Handed>, Fault>
    ensures does { HeapDoes heap.old (HeapStep.Hands worker max batch.old)
        (reply_of (handed_reply worker) result) heap.new }
    ensures given { batch.new ≡ batch.old
        ++ held_notices (heap_no_of heap.old) (told_notices (reply_of (handed_reply worker) result)) }
{
    if worker.0 >= heap.config().workers {
        return Err(Fault::NoSuchActor);
    }
    if !is_within(max, batch.len()) {
        return Err(Fault::BadConfig);
    }
    heap.hand_batch(worker, max, batch)
}

// A hold, or the fault.
fn held<A: Allocator>(answer: Result<Hold, Fault>) -> HeapAnswer<A>
    ensures answer { told_reply result ≡ reply_of hold_reply answer }
    ensures held { IsHeld answer result }
{
    match answer {
        Ok(hold) => HeapReply::Held(hold),
        Err(fault) => HeapReply::Told(PlainReply(PlainAnswer::Refused(fault))),
    }
}

// A notice, none, or the fault.
fn given<A: Allocator>(answer: Result<Option<Notice>, Fault>) -> HeapAnswer<A>
    ensures answer { told_reply result ≡ reply_of notice_reply answer }
    ensures given { IsGiven answer result }
{
    match answer {
        Ok(Some(notice)) => HeapReply::Notice(notice),
        Ok(None) => HeapReply::Told(PlainReply(PlainAnswer::Nothing)),
        Err(fault) => HeapReply::Told(PlainReply(PlainAnswer::Refused(fault))),
    }
}

// The object of the hold that was taken back, or the fault with the hold.
fn adopted<A: Allocator>(answer: Result<ObjNo, (Fault, Hold)>) -> HeapAnswer<A>
    ensures answer { told_reply result ≡ reply_or_back Reply.Object answer }
    ensures back { IsBack answer result }
{
    match answer {
        Ok(object) => HeapReply::Told(PlainReply(PlainAnswer::Object(object))),
        Err((fault, hold)) => HeapReply::Back(fault, hold),
    }
}

// That the hold was taken back, or the fault with the hold.
fn released<A: Allocator>(answer: Result<(), (Fault, Hold)>) -> HeapAnswer<A>
    ensures answer { told_reply result ≡ reply_or_back done_reply answer }
    ensures back { IsBack answer result }
{
    match answer {
        Ok(()) => HeapReply::Told(PlainReply(PlainAnswer::Done)),
        Err((fault, hold)) => HeapReply::Back(fault, hold),
    }
}

// The reply of a step that gives nothing out.
#[inline(always)]
pub(crate) fn told<A: Allocator>(reply: HeapAnswer<A>) -> Reply
    requires { IsTold reply }
    ensures { result ≡ told_reply reply }
{
    match reply {
        HeapReply::Told(reply) => reply.reply(),
        _ => unreachable!(),
    }
}
