//! A heap with its queue and its cleaner, as a program of one thread uses it: calls, each with its answer.

ghost use Rattle.ref_share.specs.CleanedHeaps.{HasSeats};

use super::acts::of_clean;
use super::counting_jobs;
use super::hearing::Hearing;
use crate::shares::calls::{given_up, reply_or_fault};
use crate::shares::rows::{BREAKS, Call, Cleaning, OfHeap, Sending, call_of, is_comment, parts_of};
use crate::shares::told::{Told, Word, bare, counted, either, expect, replied};
use crate::shares::{CONFIG, M, new_batch};
use ref_base::{Config, Fault, ObjNo, PlainStep, Reply, SlotNo};
use ref_queue::Job;
use ref_share::{Cleanable, CleanedHeap, end_batch};
use std::alloc::Global;
use std::collections::VecDeque;
use std::process::Abort;
use std::sync::atomic::{AtomicU64, Ordering};
use std::sync::{Arc, Wait};

/// A step that is asked by a call of its own.
fn asked<R: Wait>(rt: &R, heap: &mut CleanedHeap, step: PlainStep) -> Told
    requires { HasSeats heap.old }
    ensures { HasSeats heap.new }
{
    match step {
        PlainStep::Refer {
            strength,
            slot,
            source,
            queue,
            ..
        } => reply_or_fault(heap.refer(rt, strength, slot, source, queue)),
        PlainStep::RefersTo {
            reference,
            other,
            ..
        } => reply_or_fault(heap.refers_to(rt, reference, other)),
        _ => bare(Word::Unknown),
    }
}

/// A step of the heap: one that is asked, by a call of its own where it has one.
fn of_heap<R: Wait>(rt: &R, heap: &mut CleanedHeap, call: OfHeap) -> Told
    requires { HasSeats heap.old }
    ensures { HasSeats heap.new }
{
    match call {
        OfHeap::Ask(step) => asked(rt, heap, step),
        OfHeap::Perform(step) => reply_or_fault(heap.perform(rt, step)),
        _ => bare(Word::Unknown),
    }
}

/// A step that makes an object, behind cycles where the heap is full.
fn made<R: Wait + Abort>(
    rt: &R,
    alloc: Global,
    heap: &mut CleanedHeap,
    step: PlainStep,
    now: u64,
) -> Told
    requires { HasSeats heap.old }
    ensures { HasSeats heap.new }
{
    match step {
        PlainStep::New { slot, fields, .. } => {
            let (made, left) = heap.make_or_collect(rt, slot, fields, now, new_batch(rt, alloc));
            end_batch(left);
            match made {
                Ok(reply) => reply_or_fault(Ok(reply)),
                Err(fault) => given_up(fault),
            }
        }
        _ => bare(Word::Unknown),
    }
}

/// A cycle, or a step that makes an object behind cycles where the heap is full.
fn sent<R: Wait + Abort>(rt: &R, alloc: Global, heap: &mut CleanedHeap, sending: Sending) -> Told
    requires { HasSeats heap.old }
    ensures { HasSeats heap.new }
{
    match sending {
        Sending::MakeOrCollect(step, now) => made(rt, alloc, heap, step, now),
        Sending::Cycle(_, now, urgency) => {
            let (cycled, left) = heap.cycle(rt, now, urgency, new_batch(rt, alloc));
            end_batch(left);
            match cycled {
                Ok(()) => replied(Reply::Done),
                Err(fault) => given_up(fault),
            }
        }
        _ => bare(Word::Unknown),
    }
}

/// Registers the job for what the first slot holds, by way of the second.
fn registered_with<R: Wait>(
    rt: &R,
    heap: &mut CleanedHeap,
    job: Job,
    source: u32,
    slot: u32,
) -> Told
    requires { HasSeats heap.old }
    ensures { HasSeats heap.new }
{
    match heap.register(rt, SlotNo(source), SlotNo(slot), job) {
        Ok(cleanable) => counted(Word::Registered, u64::from(cleanable.obj.0)),
        Err((fault, job)) => given_up(fault).with_job(job.number()),
    }
}

/// Takes out the job of this reference. A hold that came back is given up.
fn unregistered<R: Wait>(rt: &R, heap: &mut CleanedHeap, cleanable: Cleanable) -> Told
    requires { HasSeats heap.old }
    ensures { HasSeats heap.new }
{
    match heap.unregister(rt, cleanable) {
        Ok(Some((job, back))) => match back {
            None => counted(Word::CameOut, job.number()),
            Some(hold) => {
                hold.leak();
                bare(Word::Unknown)
            }
        },
        Ok(None) => bare(Word::NoJob),
        Err(fault) => given_up(fault),
    }
}

/// A call of the cleaner.
fn cleaned<R: Wait>(
    rt: &R,
    heap: &mut CleanedHeap,
    jobs: &mut VecDeque<Job>,
    hearing: &Hearing,
    call: Cleaning,
) -> Told
    requires { HasSeats heap.old }
    ensures { HasSeats heap.new }
{
    match call {
        Cleaning::Register(source, slot) => match jobs.pop_front() {
            Some(job) => registered_with(rt, heap, job, source, slot),
            None => bare(Word::NoJob),
        },
        Cleaning::Clean(no, slot) => {
            match heap.clean(rt, SlotNo(slot), Cleanable { obj: ObjNo(no) }) {
                Ok(cleaned) => of_clean(cleaned),
                Err(fault) => given_up(fault),
            }
        }
        Cleaning::Unregister(no) => unregistered(rt, heap, Cleanable { obj: ObjNo(no) }),
        Cleaning::IsRegistered(no) => match heap.is_registered(rt, Cleanable { obj: ObjNo(no) }) {
            Ok(answer) => either(answer, Word::Registered, Word::NotRegistered),
            Err(fault) => given_up(fault),
        },
        Cleaning::Some => match heap.clean_some(rt, hearing) {
            Ok(count) => counted(Word::RanJobs, count),
            Err(fault) => given_up(fault),
        },
        _ => bare(Word::Unknown),
    }
}

/// Makes a call, and tells what was answered.
fn answered<R: Wait + Abort>(
    rt: &R,
    alloc: Global,
    heap: &mut CleanedHeap,
    jobs: &mut VecDeque<Job>,
    hearing: &Hearing,
    call: Call,
) -> Told
    requires { HasSeats heap.old }
    ensures { HasSeats heap.new }
{
    match call {
        Call::Heap(call) => of_heap(rt, heap, call),
        Call::Send(sending) => sent(rt, alloc, heap, sending),
        Call::Clean(call) => cleaned(rt, heap, jobs, hearing, call),
        _ => bare(Word::Unknown),
    }
}

/// What is told of a new heap.
#[derive(Drop)]
struct Story<'a> {
    /// The jobs, in the order in which they are registered.
    jobs: &'a [u32],
    calls: &'a str,
    /// How often job 1 was run by a `clean_some`. No other job is.
    heard: u64,
    /// How many notices stand in the end.
    standing: usize,
    /// How many actions were called in all, with those of the jobs that were left.
    called: u64,
}

/// Makes the calls, each of which has its answer, with these jobs. How many notices stand in the end.
fn use_all<R: Wait + Abort>(
    rt: &R,
    alloc: Global,
    jobs: VecDeque<Job>,
    hearing: &Hearing,
    calls: &str,
) -> usize {
    let mut jobs = jobs;
    let Ok(mut heap) = CleanedHeap::new(alloc, CONFIG) else {
        panic!(rt; "there is no heap");
    };
    for row in calls.split(BREAKS) {
        if !is_comment(row) {
            let (call, want) = parts_of(row);
            let call = call_of(rt, call);
            let told = answered(rt, alloc, &mut heap, &mut jobs, hearing, call);
            expect(rt, alloc, told, want, row);
        }
    }
    heap.end(&())
}

/// The story, and what is left then.
fn agree<R: Wait + Abort>(rt: &R, alloc: Global, story: &Story) {
    let Ok(called) = Arc::new(alloc, AtomicU64::new(0)) else {
        panic!(rt; "no memory for a count");
    };
    let hearing = Hearing::new(false);
    let jobs = counting_jobs(rt, alloc, story.jobs, &called);
    let standing = use_all(rt, alloc, jobs, &hearing, story.calls);
    assert!(rt; standing == story.standing, "notices in the end");
    assert!(rt; hearing.heard() == (story.heard, 0, 0));
    assert!(rt;
        called.load(Ordering::SeqCst) == story.called,
        "actions called"
    );
}

#[test]
fn a_program_of_one_thread_runs_the_jobs_of_what_died(rt: HostRuntime) {
    let story = Story {
        jobs: &[1, 2, 3],
        calls: "
            perform m0 new s0 0 : object 1; register 0 7 : registered 2; cycle 0 5 : ok
            clean_some : ran jobs 0; perform m0 drop s0 : ok; cycle 0 5 : ok; perform m0 new s3 0 : object 3
            clean_some : ran jobs 1; clean_some : ran jobs 0; perform m0 drop s16 : refused: NoSuchActor
            cycle 0 4 : refused: ClockBack; register 0 7 : refused: EmptySlot job 2
            register 3 7 : registered 4",
        heard: 1,
        standing: 0,
        // Job 3 is left, and is run as the heap ends.
        called: 2,
    };
    agree(&rt, rt.alloc(), &story);
}

#[test]
fn a_job_is_cleaned_by_hand_or_taken_out_once(rt: HostRuntime) {
    let story = Story {
        jobs: &[1, 2, 3],
        calls: "
            perform m0 new s0 0 : object 1; register 0 7 : registered 2; register 0 7 : registered 3
            register 0 7 : registered 4
            # The reference is in no slot, so that nobody can clear it.
            perform m0 clear s7 : refused: EmptySlot; is_registered 2 : registered; unregister 2 : came out 1
            is_registered 2 : not registered; unregister 2 : no job; clean 2 7 : no job
            clean 3 7 : ran 2 1002; clean 3 7 : no job; unregister 3 : no job; perform m0 drop s0 : ok
            cycle 0 5 : ok; is_registered 4 : registered",
        heard: 0,
        // That of reference 4, whose job is left. The others went with their jobs.
        standing: 1,
        called: 2,
    };
    agree(&rt, rt.alloc(), &story);
}

/// Without a job.
fn agree_without<R: Wait + Abort>(rt: &R, alloc: Global, standing: usize, calls: &str) {
    let story = Story {
        jobs: &[],
        calls,
        heard: 0,
        standing,
        called: 0,
    };
    agree(rt, alloc, &story);
}

#[test]
fn a_cache_of_soft_references_is_emptied_before_there_is_no_cell(rt: HostRuntime) {
    let calls = "
        perform m0 new s0 0 : object 1; ask m0 soft s1 s0 q0 0 : object 2; perform m0 new s0 0 : object 3
        ask m0 soft s2 s0 q0 0 : object 4; perform m0 new s0 0 : object 5; ask m0 soft s3 s0 q0 0 : object 6
        make_or_collect 6 m0 new s0 0 : object 7; perform m0 weak s4 s0 q0 0 : object 8
        # All eight cells are taken. What slot 0 held is kept by nothing but the weak reference.
        perform m0 drop s0 : ok; make_or_collect 6 m0 new s0 0 : object 9; ask m0 refers s4 s15 : true
        ask m0 refers s1 s15 : false; ask m0 refers s3 s15 : false
        # A normal cycle keeps each soft referent, and an urgent one none.
        make_or_collect 6 m0 new s5 0 : object 10; ask m0 refers s1 s15 : true; ask m0 refers s2 s15 : true
        ask m0 refers s3 s15 : true; make_or_collect 6 m0 new s6 0 : object 11
        make_or_collect 6 m0 new s7 0 : object 12; make_or_collect 6 m0 new s8 0 : refused: NoCell
        perform m0 drop s6 : ok; make_or_collect 6 m0 new s8 0 : object 13";
    agree_without(&rt, rt.alloc(), 4, calls);
}

#[test]
fn a_soft_reference_is_kept_by_its_span_and_by_no_urgent_cycle(rt: HostRuntime) {
    let calls = "
        perform m0 new s0 0 : object 1; ask m0 soft s1 s0 q0 0 : object 2; perform m0 new s0 0 : object 3
        ask m0 soft s2 s0 q0 0 : object 4; perform m0 drop s0 : ok; cycle 0 10 : ok
        ask m0 refers s1 s15 : false
        # It gets the clock of now as its stamp.
        perform m0 get s0 s2 : object 3; perform m0 drop s0 : ok; cycle 0 11 : ok; ask m0 refers s1 s15 : true
        ask m0 refers s2 s15 : false; urgent_cycle 0 11 : ok; ask m0 refers s2 s15 : true";
    agree_without(&rt, rt.alloc(), 2, calls);
}

/// The number of the heap of which a hold of what slot 0 holds is.
fn number_of_heap<R: Wait>(rt: &R, heap: &mut CleanedHeap) -> Option<u64>
    requires { HasSeats heap.old }
    ensures { HasSeats heap.new }
{
    match heap.heap.hold(rt, &mut heap.heap_seat, M, SlotNo(0)) {
        Ok(hold) => {
            let number = hold.heap_no();
            hold.leak();
            Some(number)
        }
        Err(_fault) => None,
    }
}

#[test]
fn a_cleaned_heap_is_heap_0(rt: HostRuntime) {
    let Ok(mut heap) = CleanedHeap::new(rt.alloc(), CONFIG) else {
        panic!(rt; "there is no heap");
    };
    let made = reply_or_fault(heap.make(&rt, SlotNo(0), 0));
    let number = number_of_heap(&rt, &mut heap);
    let standing = heap.end(&());
    assert!(rt; made.is(rt.alloc(), "object 1"), "{made}");
    assert!(rt; number == Some(0), "the heap has another number");
    assert!(rt; standing == 0, "{standing} notices stand");
}

#[test]
fn a_cleaned_heap_has_a_mutator(rt: HostRuntime) {
    let config = Config {
        mutators: 0,
        ..CONFIG
    };
    match CleanedHeap::new(rt.alloc(), config) {
        Ok(heap) => {
            heap.end(&());
            panic!(rt; "it has none");
        }
        Err(fault) => assert!(rt; fault == Fault::BadConfig, "{fault}"),
    }
}
