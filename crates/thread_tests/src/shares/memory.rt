//! Shared heaps, queues and cleaners whose memory runs out: each request for it is refused in turn, until a call meets
//! no refusal.

ghost use Rattle.ref_share.specs.CleanSeats.{IsCleanSeat};
ghost use Rattle.ref_share.specs.HeapSeats.{IsHeapSeat};
ghost use Rattle.ref_share.specs.QueueSeats.{IsQueueSeat};

use super::calls::{answer, refusal, sent_to};
use super::cleaners::adding;
use super::rows::{Call, call_of, new};
use super::told::{Told, Word, counted, expect};
use super::{CONFIG, DEATH, M, Q, STARTS, Seats, make_calls, new_batch, start};
use rationed::Rationed;
use ref_base::{Fault, SlotNo};
use ref_queue::Job;
use ref_share::{
    CleanSeat, HeapSeat, Queues, SharedCleaner, SharedHeap, SharedQueue, end_queue, run_jobs_left,
};
use std::alloc::{Allocator, Global};
use std::process::Abort;
use std::sync::Wait;

/// More requests than any call makes.
const MOST: u64 = 1_000;

/// What is made whole or not at all, and ended again.
#[derive(Clone, Copy)]
enum Made {
    Heap,
    HeapLater,
    Queue,
    QueueLater,
    Cleaner,
    CleanerLater,
    Queues,
    Users,
    MoreUsers,
}

/// Each of them, and what it is called.
const EACH: [(&str, Made); 9] = [
    ("SharedHeap::new", Made::Heap),
    ("SharedHeap::starting", Made::HeapLater),
    ("SharedQueue::new", Made::Queue),
    ("SharedQueue::starting", Made::QueueLater),
    ("SharedCleaner::new", Made::Cleaner),
    ("SharedCleaner::starting", Made::CleanerLater),
    ("Queues::new", Made::Queues),
    ("Queues::users", Made::Users),
    ("QueueUsers::split", Made::MoreUsers),
];

/// Makes it, and ends it again.
fn make<A: Allocator + Copy>(alloc: A, made: Made) -> Result<(), Fault> {
    match made {
        Made::Heap => drop(SharedHeap::new(alloc, CONFIG, 0)?),
        Made::HeapLater => drop(SharedHeap::starting(alloc, CONFIG, 0, 7)?),
        Made::Queue => {
            let (queue, seat) = SharedQueue::new(alloc, Q)?;
            end_queue(queue.finish(seat));
        }
        Made::QueueLater => {
            let (queue, seat) = SharedQueue::starting(alloc, Q, 7)?;
            end_queue(queue.finish(seat));
        }
        Made::Cleaner => {
            let (cleaner, seat) = SharedCleaner::new(alloc, Q)?;
            run_jobs_left(cleaner.finish(seat), &());
        }
        Made::CleanerLater => {
            let (cleaner, seat) = SharedCleaner::starting(alloc, Q, 7)?;
            run_jobs_left(cleaner.finish(seat), &());
        }
        Made::Queues => Queues::new(alloc, 3)?.end(),
        Made::Users | Made::MoreUsers => {
            let mut queues = Queues::new(alloc, 3)?;
            let shared = share(alloc, &mut queues, made);
            queues.end();
            return shared;
        }
    }
    Ok(())
}

/// Makes users of the queues, and more of them if that is asked for.
fn share<A: Allocator + Copy>(alloc: A, queues: &mut Queues<A>, made: Made) -> Result<(), Fault> {
    let mut users = queues.users()?;
    if let Made::MoreUsers = made {
        drop(users.split(alloc)?);
    }
    Ok(())
}

/// Makes it with each request refused in turn. Answers how many requests it makes.
fn make_each(rt: &impl Abort, memory: &Rationed<Global>, name: &str, made: Made) -> u64 {
    for met in 0..MOST {
        memory.ration(met);
        let answer = make(memory, made);
        let was_refused = memory.lift();
        let want = if was_refused {
            Err(Fault::NoMemory)
        } else {
            Ok(())
        };
        assert!(rt; answer == want, "{name} with {met} requests met");
        if !was_refused {
            return met;
        }
    }
    MOST
}

/// A call makes more than one request, and not too many to refuse each.
fn are_few(rt: &impl Abort, name: &str, requests: u64) {
    assert!(rt;
        1 < requests && requests < MOST,
        "{name} makes {requests} requests"
    );
}

#[test]
fn what_finds_no_memory_is_not_made(rt: HostRuntime) {
    let memory = Rationed::new(rt.alloc());
    for (name, made) in EACH {
        are_few(&rt, name, make_each(&rt, &memory, name, made));
    }
}

/// What a call behind a death is told, a second call that shows what stands then, and the first once more.
type Answers = [&'static str; 3];

#[derive(Drop)]
struct Trial<'a> {
    death: &'static str,
    call: &'static str,
    next: &'static str,
    /// The answers where no request is refused.
    done: Answers,
    /// Those that there may be where the first call has one refused: in each more stands than in those before.
    refusals: &'a [Answers],
}

/// What a call is told with so many requests met.
fn told_first<'a, R: Wait + Abort>(
    rt: &R,
    heap: &SharedHeap<&'a Rationed<Global>>,
    queue: &SharedQueue<&'a Rationed<Global>>,
    seats: &mut Seats<&'a Rationed<Global>>,
    call: Call,
    met: u64,
) -> Told
    requires { IsHeapSeat heap.now seats.old.heap × IsQueueSeat queue.now seats.old.queue }
    ensures { IsHeapSeat heap.now seats.new.heap × IsQueueSeat queue.now seats.new.queue }
{
    let memory = seats.alloc;
    let batch = new_batch(rt, memory);
    memory.ration(met);
    match call {
        Call::Send(sending) => sent_to(rt, heap, queue, seats, sending, batch),
        call => {
            batch.end();
            answer(rt, heap, queue, seats, call)
        }
    }
}

/// What the calls of a trial are told on this heap and this queue, which are new, and whether a request was refused.
fn told_on<'a, R: Wait + Abort>(
    rt: &R,
    heap: &SharedHeap<&'a Rationed<Global>>,
    queue: &SharedQueue<&'a Rationed<Global>>,
    seats: &mut Seats<&'a Rationed<Global>>,
    trial: &Trial,
    met: u64,
) -> ([Told; 3], bool)
    requires { IsHeapSeat heap.now seats.old.heap × IsQueueSeat queue.now seats.old.queue }
    ensures { IsHeapSeat heap.now seats.new.heap × IsQueueSeat queue.now seats.new.queue }
{
    make_calls(rt, heap, queue, seats, trial.death);
    let first = told_first(rt, heap, queue, seats, call_of(rt, trial.call), met);
    let was_refused = seats.alloc.lift();
    let next = answer(rt, heap, queue, seats, call_of(rt, trial.next));
    let then = answer(rt, heap, queue, seats, call_of(rt, trial.call));
    ([first, next, then], was_refused)
}

/// Whether the calls were told this.
fn are_so(alloc: &Rationed<Global>, told: &[Told; 3], want: &Answers) -> bool {
    told[0].is(alloc, want[0]) && told[1].is(alloc, want[1]) && told[2].is(alloc, want[2])
}

/// The place of what the calls were told among what they may be told where a request is refused.
fn place_of(rt: &impl Abort, alloc: &Rationed<Global>, trial: &Trial, told: &[Told; 3]) -> usize {
    for (place, want) in trial.refusals.iter().enumerate() {
        if are_so(alloc, told, want) {
            return place;
        }
    }
    let (name, first, next, then) = (trial.call, told[0], told[1], told[2]);
    panic!(rt; "{name} is told {first}, the next {next}, and then {then}")
}

/// Makes the calls with each request refused in turn. Answers the place of what they were told at the last refusal.
fn refuse_each<R: Wait + Abort>(rt: &R, memory: &Rationed<Global>, trial: &Trial) -> usize {
    let mut place = 0;
    for met in 0..MOST {
        let (heap, queue, mut seats) = start(rt, memory, STARTS);
        let (told, was_refused) = told_on(rt, &heap, &queue, &mut seats, trial, met);
        end_queue(queue.finish(seats.queue));
        if !was_refused {
            let name = trial.call;
            assert!(rt;
                are_so(memory, &told, &trial.done),
                "{name} with {met} requests met"
            );
            are_few(rt, name, met);
            return place;
        }
        place = place_of(rt, memory, trial, &told);
    }
    panic!(rt; "a call makes too many requests")
}

#[test]
fn a_notice_that_finds_no_memory_comes_back(rt: HostRuntime) {
    // The call, its answer, that to it once more behind a poll, and that where the first was refused.
    let table = [
        ("put 1", "added 0", "already", "added 0"),
        ("enqueue 1", "enqueued", "not enqueued", "enqueued"),
        // What came back is handed on no more.
        (
            "deliver_one 0",
            "delivered 2 0 0",
            "delivered 3 0 1",
            "delivered 3 0 0",
        ),
    ];
    let memory = Rationed::new(rt.alloc());
    for (call, done, once_more, then) in table {
        let trial = Trial {
            death: DEATH,
            call,
            next: "poll_now",
            done: [done, "took 2", once_more],
            refusals: &[["not put 2: NoMemory", "empty", then]],
        };
        refuse_each(&rt, &memory, &trial);
    }
}

/// Nothing of what comes back is handed on once more.
#[test]
fn notices_of_a_batch_that_find_no_memory_come_back(rt: HostRuntime) {
    let trial = Trial {
        death: DEATH,
        call: "deliver_batch 0 32",
        next: "poll_batch 32",
        done: ["added 0, added 1 behind 0", "took 2 3", "none"],
        refusals: &[
            ["refused: NoMemory left 2 3", "empty", "none"],
            ["refused: NoMemory left 3", "took 2", "none"],
        ],
    };
    refuse_each(&rt, &Rationed::new(rt.alloc()), &trial);
}

/// A cycle finds object 1 dead. References 2 to 6 to it are in slots 1 to 5, and pending in this order.
const DEATH_OF_FIVE: &'static str = "
    m0 new s0 0 : object 1; m0 weak s1 s0 q0 0 : object 2; m0 weak s2 s0 q0 0 : object 3
    m0 weak s3 s0 q0 0 : object 4; m0 weak s4 s0 q0 0 : object 5; m0 weak s5 s0 q0 0 : object 6
    m0 drop s0 : ok; begin 5 normal : cycle 1; w0 scan : scanned 2; w0 scan : scanned 3
    w0 scan : scanned 4; w0 scan : scanned 5; w0 scan : scanned 6; w0 scan : none; endmark : doomed 1
    w0 clearnext : cleared 2; w0 clearnext : cleared 3; w0 clearnext : cleared 4; w0 clearnext : cleared 5
    w0 clearnext : cleared 6; endclear : ok";

#[test]
fn where_memory_ends_in_the_middle_what_came_before_stands(rt: HostRuntime) {
    let trial = Trial {
        death: DEATH_OF_FIVE,
        call: "deliver_all 0",
        next: "poll_batch 32",
        done: ["ok", "took 2 3 4 5 6", "ok"],
        refusals: &[
            ["refused: NoMemory left 2 3 4 5 6", "empty", "ok"],
            ["refused: NoMemory left 3 4 5 6", "took 2", "ok"],
            ["refused: NoMemory left 4 5 6", "took 2 3", "ok"],
            ["refused: NoMemory left 5 6", "took 2 3 4", "ok"],
            ["refused: NoMemory left 6", "took 2 3 4 5", "ok"],
        ],
    };
    assert!(rt;
        refuse_each(&rt, &Rationed::new(rt.alloc()), &trial) > 0,
        "none is in the middle"
    );
}

/// A new heap with object 1 in slot 0.
fn heap_with_object<'a, R: Wait + Abort>(
    rt: &R,
    memory: &'a Rationed<Global>,
) -> (
    SharedHeap<&'a Rationed<Global>>,
    HeapSeat<&'a Rationed<Global>>,
)
    ensures { IsHeapSeat result.0 result.1 }
{
    let Ok((heap, mut seat)) = SharedHeap::new(memory, CONFIG, 0) else {
        panic!(rt; "there is no heap");
    };
    let _object = heap.ask(rt, &mut seat, new(0));
    (heap, seat)
}

/// A new cleaner.
fn new_cleaner<'a>(
    rt: &impl Abort,
    memory: &'a Rationed<Global>,
) -> (
    SharedCleaner<Job, &'a Rationed<Global>>,
    CleanSeat<Job, &'a Rationed<Global>>,
)
    ensures { IsCleanSeat result.0 result.1 }
{
    match SharedCleaner::new(memory, Q) {
        Ok(made) => made,
        Err(_) => panic!(rt; "there is no cleaner"),
    }
}

/// What a register of the object in slot 0 is told by a new cleaner, and whether a request for memory was refused. The
/// trial is whether it registers apart, and how many requests are met.
fn registered_on<'a, R: Wait + Abort>(
    rt: &R,
    memory: &'a Rationed<Global>,
    heap: &SharedHeap<&'a Rationed<Global>>,
    heap_seat: &mut HeapSeat<&'a Rationed<Global>>,
    trial: (bool, u64),
    job: Job,
) -> (Told, bool)
    requires { IsHeapSeat heap.now heap_seat.old }
{
    let (is_apart, met) = trial;
    let (cleaner, mut seat) = new_cleaner(rt, memory);
    let (from, to) = (SlotNo(0), SlotNo(1));
    memory.ration(met);
    let answer = if is_apart {
        cleaner.register_apart(rt, &mut seat, heap, heap_seat, M, from, to, job)
    } else {
        cleaner.register(rt, &mut seat, heap, heap_seat, M, from, to, job)
    };
    let was_refused = memory.lift();
    let told = match answer {
        Ok(cleanable) => counted(Word::Registered, u64::from(cleanable.obj.0)),
        Err((fault, job)) => refusal(rt, heap, heap_seat, fault).with_job(job.number()),
    };
    run_jobs_left(cleaner.finish(seat), &());
    (told, was_refused)
}

/// What it is told on a new heap.
fn register_with<R: Wait + Abort>(
    rt: &R,
    memory: &Rationed<Global>,
    is_apart: bool,
    met: u64,
    job: Job,
) -> (Told, bool) {
    let (heap, mut heap_seat) = heap_with_object(rt, memory);
    registered_on(rt, memory, &heap, &mut heap_seat, (is_apart, met), job)
}

/// Registers job 1 with each request refused in turn: each time it comes back. Then it is registered. Answers how many
/// requests this makes.
fn register_each<R: Wait + Abort>(
    rt: &R,
    alloc: Global,
    memory: &Rationed<Global>,
    is_apart: bool,
) -> u64 {
    for met in 0..MOST {
        let Ok(job) = adding(alloc, 1) else {
            panic!(rt; "no memory for a job");
        };
        let (told, was_refused) = register_with(rt, memory, is_apart, met, job);
        let want = if was_refused {
            "refused: NoMemory job 1"
        } else {
            "registered 2"
        };
        expect(rt, alloc, told, want, "register");
        if !was_refused {
            return met;
        }
    }
    MOST
}

#[test]
fn a_job_that_finds_no_memory_comes_back(rt: HostRuntime) {
    let memory = Rationed::new(rt.alloc());
    for is_apart in [false, true] {
        let requests = register_each(&rt, rt.alloc(), &memory, is_apart);
        are_few(&rt, "register", requests);
    }
}
