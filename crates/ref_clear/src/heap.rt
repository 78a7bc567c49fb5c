//! The heap.

ghost use Rattle.std.specs.Prelude.{◌≡◌, IfOk, length, replicate};
ghost use Rattle.ref_base.specs.Collectors.{first_state_of};
ghost use Rattle.ref_base.specs.Graphs.{object_at};
ghost use Rattle.ref_base.specs.Heaps.{slot_at, reference_at, registered_in};
ghost use Rattle.ref_base.specs.Refusals.{drop_refusal};
ghost use Rattle.ref_objects.specs.Grounds.{starting_refusal, IsMade, IsRefused, kind_in};
ghost use Rattle.ref_mark.specs.MarkRows.{starting_state};
ghost use Rattle.ref_mark.specs.Chains.{no_chain};
ghost use Rattle.ref_space.specs.Worklists.{empty_worklist};
ghost use Rattle.ref_clear.specs.ClearHeaps.{first_clear_heap, pending_at};
ghost use Rattle.ref_clear.specs.ClearViews.{pending_from};
ghost use Rattle.ref_clear.specs.Standing.{HeapStands};

mod clearing;
mod cycle;
mod holds;
mod moves;
mod notices;
mod objects;
mod sweep;

use crate::Pending;
use ref_base::{Config, Fault, MutNo, ObjNo, Phase, QueueNo, SlotNo, WorkerNo};
use ref_mark::{Chain, Marker};
use ref_objects::{Kind, Start, Worklist};
use std::alloc::{AllocError, Allocator, Global};
use std::marker::Model;

/// A heap.
///
/// All its memory is taken as it is made: that of its `Marker`, and 8 bytes for each cell and for each worker. No other
/// call takes any.
pub struct Heap<A: Allocator = Global> {
    marker: Marker<A>,
    // For each worker, the references that it cleared and hasn't handed on, linked in their records. Their objects tell
    // queue and cycle.
    pending: Vec<Chain, A>,
    // Once a sweep has begun, what is doomed stands in it, in order of number.
    condemned: Worklist<A>,
}

/// A heap whose objects move between cycles, which each heap is: `select`, `move_next` and `end_move` are its calls.
pub type MovingHeap<A = Global> = Heap<A>;

// Written out, so that crates above prove nothing of what a heap is made of where they drop one.
impl<A: Allocator> Drop for Heap<A> {
    fn drop(self) {
        let Heap {
            marker: _,
            pending: _,
            condemned: _,
        } = self;
    }
}

impl<A: Allocator> Model for Heap<A> {
    ghost use Rattle.ref_clear.specs.ClearHeaps.{ClearHeap};
    ghost use Rattle.ref_clear.specs.ClearViews.{seen_heap, IsSoundHeap};

    ghost Value = { ClearHeap };

    ghost view = { λ h. seen_heap h.marker h.pending.items };

    ghost invariant = { λ h. IsSoundHeap h.marker h.pending.items h.condemned };
}

impl<A: Allocator + Copy> Heap<A> {
    /// A heap without objects, between cycles, whose first object and first cycle have number 1. Heaps of one program
    /// have distinct numbers, by the caller. Tried in this order: `BadConfig`, `NoMemory`.
    pub fn new(alloc: A, config: Config, heap_no: u64) -> Result<Self, Fault>
        ensures made { IsMade (starting_refusal config (record { obj = 1; cycle = 0; page = 1 }))
            (first_clear_heap config heap_no (record { obj = 1; cycle = 0; page = 1 })) result }
        ensures stands { IfOk result (λ heap. HeapStands heap (first_state_of config heap_no)) }
    {
        Self::starting(alloc, config, heap_no, Start::FIRST)
    }

    /// A heap whose numbers begin at `start`, and else as `new` makes it. `BadConfig` also where they can't begin so.
    pub fn starting(alloc: A, config: Config, heap_no: u64, start: Start) -> Result<Self, Fault>
        ensures made { IsMade (starting_refusal config start)
            (first_clear_heap config heap_no start) result }
        ensures stands { IfOk result (λ heap. HeapStands heap (starting_state config heap_no start.obj start.cycle)) }
    {
        let marker = Marker::starting(alloc, config, heap_no, start)?;
        match empty_lists(alloc, config) {
            Ok((pending, condemned)) => Ok(Heap {
                marker,
                pending,
                condemned,
            }),
            Err(_) => Err(Fault::NoMemory),
        }
    }

    /// Gives the heap up, with all its objects. Holds and notices of it that are out are then for `Hold::leak`.
    pub fn end(self) {}

    /// The phase.
    pub fn phase(&self) -> Phase
        ensures { result ≡ self.now.mark.phase }
    {
        self.marker.phase()
    }

    /// How many cycles have begun.
    pub fn cycle(&self) -> u64
        ensures { result ≡ self.now.mark.cycle }
    {
        self.marker.cycle()
    }

    /// The configuration that it was made with.
    pub fn config(&self) -> Config
        ensures { result ≡ self.now.mark.heap.config }
    {
        self.marker.objects().config()
    }

    /// Its number among the heaps of its program.
    pub fn heap_no(&self) -> u64
        ensures { result ≡ self.now.mark.heap.no }
    {
        self.marker.objects().heap_no()
    }

    /// The clock.
    pub fn clock(&self) -> u64
        ensures { result ≡ self.now.mark.heap.clock }
    {
        self.marker.objects().clock()
    }

    /// How many objects there are, doomed ones among them.
    pub fn object_count(&self) -> usize
        ensures { result ≡ length self.now.mark.heap.objects }
    {
        self.marker.objects().object_count()
    }

    /// How many holds are out.
    pub fn hold_count(&self) -> u64
        ensures { result ≡ length self.now.mark.heap.holds }
    {
        self.marker.objects().hold_count()
    }

    /// What a slot holds: an object or null. The one error is `NoSuchActor`.
    pub fn slot_of(&self, mutator: MutNo, slot: SlotNo) -> Result<Option<ObjNo>, Fault>
        ensures refused { IsRefused (drop_refusal self.now.mark.heap mutator slot) result }
        ensures answer { IfOk result (λ value. value ≡ slot_at self.now.mark.heap mutator slot) }
    {
        self.marker.objects().slot_of(mutator, slot)
    }

    /// What the object of this number is, if there is one. In logarithmic time.
    pub fn kind_of(&self, no: ObjNo) -> Option<Kind>
        ensures { result ≡ kind_in (object_at self.now.mark.heap.objects no) }
    {
        self.marker.objects().kind_of(no)
    }

    /// The queue of the reference of this number: none where it has none, or there is no such reference. In logarithmic
    /// time.
    pub fn queue_of(&self, no: ObjNo) -> Option<QueueNo>
        ensures { result ≡ registered_in (reference_at self.now.mark.heap no) }
    {
        self.marker.objects().queue_of(no)
    }

    /// That of this worker's pending references which stands at this place, from 0 on: none behind the last, and of a
    /// worker that isn't there. In logarithmic time for each place before it.
    pub fn pending_of(&self, worker: WorkerNo, place: usize) -> Option<Pending>
        ensures { result ≡ pending_from (pending_at self.now worker) place }
    {
        let list = self.pending.get(worker.0 as usize)?;
        let no = list.get(self.marker.objects(), place)?;
        Some(Pending::of(self.marker.objects().linked_of(no)))
    }
}

// The lists of a new heap: of pending references for each worker, and of the condemned.
fn empty_lists<A: Allocator + Copy>(
    alloc: A,
    config: Config,
) -> Result<(Vec<Chain, A>, Worklist<A>), AllocError>
    ensures pending { IfOk result (λ made. made.0.items ≡ replicate config.workers no_chain) }
    ensures condemned { IfOk result (λ made. made.1 ≡ empty_worklist config.cells) }
{
    let pending = pending_lists(alloc, config)?;
    let condemned = Worklist::new(alloc, config.cells as usize)?;
    Ok((pending, condemned))
}

// An empty list for each worker.
fn pending_lists<A: Allocator + Copy>(alloc: A, config: Config) -> Result<Vec<Chain, A>, AllocError>
    ensures { IfOk result (λ made. made.items ≡ replicate config.workers no_chain) }
{
    let workers = config.workers as usize;
    let mut pending = Vec::with_capacity(alloc, workers)?;
    for _worker in 0..workers {
        pending.push_reserved(Chain::new());
    }
    Ok(pending)
}
