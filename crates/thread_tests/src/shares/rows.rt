//! The language of stories. A row is a call and its answer, apart by a colon. Rows stand in lines, or apart by
//! semicolons, and a line that begins with `#` is a comment. A step of the heap is spelled as in a trace, and made by
//! `try_call`. Any other call is told by its name here, with numbers behind it, of slots, workers and clocks.

use super::M;
use ref_base::{PlainStep, QueueNo, SlotNo, Step, Strength, Urgency};
use ref_script::{ScriptStep, step_of};
use std::process::Abort;

/// What stands between rows.
pub const BREAKS: [char; 2] = ['\n', ';'];

/// A call of a heap, of its queue, of both, or of a cleaner with them.
#[derive(Clone, Copy)]
pub enum Call {
    Heap(OfHeap),
    Queue(OfQueue),
    /// An unhook of the reference in this slot, and a put of its notice.
    Put(u32),
    Send(Sending),
    /// Through a second seat of the queue, which is joined then.
    SendApart(Sending),
    /// With no queue in the lists.
    SendNowhere(Sending),
    /// A hand of so many at most, and a put of the batch.
    HandAndPut(u32),
    /// A poll of so many at most.
    PollBatch(u32),
    Clean(Cleaning),
}

#[derive(Clone, Copy)]
pub enum OfHeap {
    /// A step by `try_call`, by `ask`, and by `perform`.
    Try(PlainStep),
    Ask(PlainStep),
    Perform(PlainStep),
    /// How many turns of the heap ended.
    Served,
}

#[derive(Clone, Copy)]
pub enum OfQueue {
    PollNow,
    Within(u32),
    Wait,
    Until(Until),
    Close,
    /// How many turns of the queue ended.
    Served,
}

/// What ends a wait for a queue in which nothing comes.
#[derive(Clone, Copy)]
pub enum Until {
    /// A clock that goes on by a second each time it is read has told so many seconds.
    Seconds(u32),
    /// The clock can't be read, and the limit is an hour.
    Unread,
    /// A stop, which is set before, or never.
    Stop(bool),
}

/// A call for which queues stand in lists.
#[derive(Clone, Copy)]
pub enum Sending {
    /// An enqueue of the reference in this slot.
    Enqueue(u32),
    /// A delivery by this worker.
    One(u32),
    /// A delivery by this worker, of so many at most.
    Batch(u32, u32),
    /// A delivery of all that is pending of this worker.
    All(u32),
    /// A whole cycle by this worker, at this clock.
    Cycle(u32, u64, Urgency),
    /// A step of the heap that makes something, at this clock, behind cycles of worker 0 where the heap is full.
    MakeOrCollect(PlainStep, u64),
}

#[derive(Clone, Copy)]
pub enum Cleaning {
    /// Registers the next job for what the first slot holds, with a reference in the second.
    Register(u32, u32),
    /// Runs the job of this reference, by this slot.
    Clean(u32, u32),
    /// Takes out the job of this reference.
    Unregister(u32),
    IsRegistered(u32),
    /// Runs the jobs of what is gone, until the queue is closed.
    Loop,
    /// Runs the jobs whose notices stand.
    Some,
    /// How many turns of the cleaner ended.
    Served,
}

/// Whether a row is a comment, or nothing.
pub fn is_comment(row: &str) -> bool {
    let row = row.trim();
    row.is_empty() || row.starts_with('#')
}

/// The call of a row and its answer.
pub fn parts_of(row: &str) -> (&str, &str) {
    row.trim().split_once(" : ").unwrap_or((row, ""))
}

/// The call that a text names.
pub fn call_of(rt: &impl Abort, text: &str) -> Call {
    let (name, rest) = text.split_once(' ').unwrap_or((text, ""));
    match name {
        "poll_now" => Call::Queue(OfQueue::PollNow),
        "remove_within" => Call::Queue(OfQueue::Within(number(rt, rest))),
        "remove_wait" => Call::Queue(OfQueue::Wait),
        "remove_for" => wait_until(Until::Seconds(number(rt, rest))),
        "remove_for_unread" => wait_until(Until::Unread),
        "remove_unless_set" => wait_until(Until::Stop(true)),
        "remove_unless" => wait_until(Until::Stop(false)),
        "close" => Call::Queue(OfQueue::Close),
        "served" => Call::Queue(OfQueue::Served),
        _ => of_both(rt, name, rest, text),
    }
}

fn wait_until(until: Until) -> Call {
    Call::Queue(OfQueue::Until(until))
}

fn of_both(rt: &impl Abort, name: &str, rest: &str, text: &str) -> Call {
    let (inner, behind) = rest.split_once(' ').unwrap_or((rest, ""));
    match name {
        "put" => Call::Put(number(rt, rest)),
        "apart" => Call::SendApart(sending_of(rt, inner, behind)),
        "nowhere" => Call::SendNowhere(sending_of(rt, inner, behind)),
        "hand_and_put" => Call::HandAndPut(number(rt, rest)),
        "poll_batch" => Call::PollBatch(number(rt, rest)),
        _ => of_clean(rt, name, rest, text),
    }
}

fn of_clean(rt: &impl Abort, name: &str, rest: &str, text: &str) -> Call {
    let (first, second) = rest.split_once(' ').unwrap_or((rest, "0"));
    match name {
        "register" => Call::Clean(Cleaning::Register(number(rt, first), number(rt, second))),
        "clean" => Call::Clean(Cleaning::Clean(number(rt, first), number(rt, second))),
        "unregister" => Call::Clean(Cleaning::Unregister(number(rt, rest))),
        "is_registered" => Call::Clean(Cleaning::IsRegistered(number(rt, rest))),
        "clean_loop" => Call::Clean(Cleaning::Loop),
        "clean_some" => Call::Clean(Cleaning::Some),
        "cleaner_served" => Call::Clean(Cleaning::Served),
        _ => of_heap(rt, name, rest, text),
    }
}

fn of_heap(rt: &impl Abort, name: &str, rest: &str, text: &str) -> Call {
    match name {
        "ask" => Call::Heap(OfHeap::Ask(step_in(rt, rest))),
        "perform" => Call::Heap(OfHeap::Perform(step_in(rt, rest))),
        "heap_served" => Call::Heap(OfHeap::Served),
        "begin" | "endmark" | "endclear" | "m0" | "w0" => Call::Heap(OfHeap::Try(step_in(
            rt, text,
        ))),
        _ => Call::Send(sending_of(rt, name, rest)),
    }
}

fn sending_of(rt: &impl Abort, name: &str, rest: &str) -> Sending {
    let (first, second) = rest.split_once(' ').unwrap_or((rest, "0"));
    match name {
        "enqueue" => Sending::Enqueue(number(rt, rest)),
        "deliver_one" => Sending::One(number(rt, rest)),
        "deliver_batch" => Sending::Batch(number(rt, first), number(rt, second)),
        "deliver_all" => Sending::All(number(rt, rest)),
        "cycle" => cycle_of(rt, first, second, Urgency::Normal),
        "urgent_cycle" => cycle_of(rt, first, second, Urgency::Urgent),
        "make_or_collect" => {
            let now = u64::from(number(rt, first));
            Sending::MakeOrCollect(step_in(rt, second), now)
        }
        _ => panic!(rt; "no call: {name} {rest}"),
    }
}

fn cycle_of(rt: &impl Abort, worker: &str, now: &str, urgency: Urgency) -> Sending {
    Sending::Cycle(number(rt, worker), u64::from(number(rt, now)), urgency)
}

fn number(rt: &impl Abort, text: &str) -> u32 {
    match text.parse::<u32>() {
        Ok(number) => number,
        Err(_) => panic!(rt; "no number: {text}"),
    }
}

/// The step of the heap that a text spells, as a trace does.
fn step_in(rt: &impl Abort, text: &str) -> PlainStep {
    match world_step(rt, text) {
        Step::Plain(step) => step,
        _ => panic!(rt; "not the heap's: {text}"),
    }
}

fn world_step(rt: &impl Abort, text: &str) -> Step {
    match step_of(text.as_bytes()) {
        Ok(ScriptStep::World(step)) => step,
        _ => panic!(rt; "no step: {text}"),
    }
}

/// A step that makes an object in this slot.
pub const fn new(slot: u32) -> PlainStep {
    PlainStep::New {
        mutator: M,
        slot: SlotNo(slot),
        fields: 0,
    }
}

/// A step that makes a weak reference in this slot to what slot 0 holds, for this queue.
pub const fn weak(slot: u32, queue: u32) -> PlainStep {
    PlainStep::Refer {
        mutator: M,
        strength: Strength::Weak,
        slot: SlotNo(slot),
        source: SlotNo(0),
        queue: Some(QueueNo(queue)),
        fields: 0,
    }
}
