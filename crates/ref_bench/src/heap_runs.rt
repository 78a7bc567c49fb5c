//! A heap alone, and one that threads share.

ghost use Rattle.std.specs.Prelude.{All, IfOk};
ghost use Rattle.ref_share.specs.HeapSeats.{IsHeapSeat};

use crate::letters::{CONFIG, Letter, QUEUE};
use crate::timing::{Sample, Timer};
use ref_base::{Fault, MutNo, PlainStep, SlotNo, Strength, Urgency, WorkerNo};
use ref_clear::{Heap, Notice};
use ref_queue::{Polled, Queue};
use ref_share::{HeapSeat, SharedHeap};
use std::alloc::Global;
use std::sync::Wait;
use std::thread;
use std::thread::Threads;
use std::time::Clock;

pub const MUTATOR: MutNo = MutNo(0);

pub const WORKER: WorkerNo = WorkerNo(0);

/// How many references there are to one dead object: as many as the heap has room for.
const DEAD: u32 = CONFIG.cells - 1;

/// Scans, each of which finds a reference to the dead object.
pub fn scans<R: Clock>(rt: &R, heap: &mut Heap) -> Result<Sample, Fault> {
    begin(heap)?;
    let timer = Timer::start(rt);
    scan_all(heap)?;
    Ok(timer.stop(rt, u64::from(DEAD)))
}

/// Looks, each of which clears a reference and lists it as pending.
pub fn looks<R: Clock>(rt: &R, heap: &mut Heap) -> Result<Sample, Fault> {
    begin(heap)?;
    scan_all(heap)?;
    let timer = Timer::start(rt);
    clear_all(heap)?;
    Ok(timer.stop(rt, u64::from(DEAD)))
}

/// Hands, each with the release of the hold that it gave.
pub fn hands<R: Clock>(rt: &R, heap: &mut Heap) -> Result<Sample, Fault> {
    begin(heap)?;
    scan_all(heap)?;
    clear_all(heap)?;
    let timer = Timer::start(rt);
    for _ in 0..DEAD {
        if let Some(notice) = heap.hand(WORKER)? {
            give_back(heap, notice);
        }
    }
    Ok(timer.stop(rt, u64::from(DEAD)))
}

/// All of it, from the mark's end until the notice of each reference was polled and given back.
pub fn dead_references<R: Clock>(rt: &R, alloc: Global, heap: &mut Heap) -> Result<Sample, Fault> {
    begin(heap)?;
    scan_all(heap)?;
    let mut queue = Queue::new(alloc, QUEUE);
    let timer = Timer::start(rt);
    clear_and_deliver(heap, &mut queue)?;
    take_all(heap, &mut queue);
    Ok(timer.stop(rt, u64::from(DEAD)))
}

/// Begins a mark of what is made for it, in which nothing is scanned yet.
fn begin(heap: &mut Heap) -> Result<(), Fault> {
    fill(heap)?;
    heap.begin(0, Urgency::Normal)?;
    Ok(())
}

/// An object that is dead, and weak references to it, each of which has the one before in a field.
fn fill(heap: &mut Heap) -> Result<(), Fault> {
    let (target, newest, last) = (SlotNo(0), SlotNo(1), SlotNo(2));
    heap.alloc_obj(MUTATOR, target, 0)?;
    for _ in 0..DEAD {
        heap.alloc_ref(MUTATOR, newest, Strength::Weak, target, Some(QUEUE), 1)?;
        heap.store(MUTATOR, newest, 0, last)?;
        heap.copy(MUTATOR, last, newest)?;
    }
    heap.drop_slot(MUTATOR, target)
}

fn scan_all(heap: &mut Heap) -> Result<(), Fault> {
    for _ in 0..DEAD {
        heap.scan(WORKER)?;
    }
    Ok(())
}

fn clear_all(heap: &mut Heap) -> Result<(), Fault> {
    heap.end_mark()?;
    for _ in 0..DEAD {
        heap.clear_next(WORKER)?;
    }
    heap.end_clear()
}

fn clear_and_deliver(heap: &mut Heap, queue: &mut Queue<Letter>) -> Result<(), Fault> {
    clear_all(heap)?;
    for _ in 0..DEAD {
        if let Some(notice) = heap.hand(WORKER)? {
            if let Err((fault, _)) = queue.put(Letter::new(notice)) {
                return Err(fault);
            }
        }
    }
    Ok(())
}

fn take_all(heap: &mut Heap, queue: &mut Queue<Letter>) {
    for _ in 0..DEAD {
        if let Polled::Took(letter) = queue.poll() {
            give_back(heap, letter.into_notice());
        }
    }
}

pub fn give_back(heap: &mut Heap, notice: Notice) {
    if let Err((_, hold)) = heap.release(notice.into_hold()) {
        hold.leak();
    }
}

/// One thread that calls a shared heap so often.
#[derive(Drop)]
struct Caller<'a> {
    heap: &'a SharedHeap,
    seat: HeapSeat,
    mutator: MutNo,
    calls: u32,
}

impl<'a> Caller<'a> {
    fn new(heap: &'a SharedHeap, seat: HeapSeat, mutator: MutNo, calls: u32) -> Self
        requires { IsHeapSeat heap.now seat }
        ensures { IsHeapSeat result.heap.now result.seat }
    {
        Caller {
            heap,
            seat,
            mutator,
            calls,
        }
    }

    fn run<R: Wait>(self, rt: &R)
        requires { IsHeapSeat self.heap.now self.seat }
    {
        let mut caller = self;
        for _ in 0..caller.calls {
            caller.call(rt);
        }
    }

    /// Copies one slot into another.
    fn call<R: Wait>(&mut self, rt: &R)
        requires { IsHeapSeat self.old.heap.now self.old.seat }
        ensures { IsHeapSeat self.new.heap.now self.new.seat }
    {
        let step = PlainStep::Copy {
            mutator: self.mutator,
            slot: SlotNo(1),
            source: SlotNo(0),
        };
        let _ = self.heap.ask(rt, &mut self.seat, step);
    }
}

/// Calls of a shared heap, as many as `count`, by so many threads, at most 8.
pub fn heap_calls<R: Threads + Wait + Clock + Sync>(
    rt: &R,
    alloc: Global,
    threads: u32,
    count: u32,
) -> Result<Sample, Fault> {
    let (heap, mut seat) = SharedHeap::new(alloc, CONFIG, 0)?;
    let callers = callers(alloc, &heap, &mut seat, threads, count / threads.max(1))?;
    let timer = Timer::start(rt);
    let of_caller = |caller: Caller|
        requires { IsHeapSeat caller.heap.now caller.seat }
    { caller.run(rt) };
    let Ok(_) = thread::map_vec(rt, callers, &of_caller) else {
        return Err(Fault::NoMemory);
    };
    Ok(timer.stop(rt, u64::from(count)))
}

/// A caller for each thread, each of a mutator of its own.
fn callers<'a>(
    alloc: Global,
    heap: &'a SharedHeap,
    seat: &mut HeapSeat,
    threads: u32,
    calls: u32,
) -> Result<Vec<Caller<'a>>, Fault>
    requires { IsHeapSeat heap.now seat.old }
    ensures { IfOk result (λ callers. All (λ c. IsHeapSeat c.heap.now c.seat) callers.items) }
{
    let mut callers = Vec::new(alloc);
    for number in 0..threads {
        let caller = Caller::new(heap, heap.split(seat), MutNo(number), calls);
        let Ok(()) = callers.push(caller) else {
            return Err(Fault::NoMemory);
        };
    }
    Ok(callers)
}
