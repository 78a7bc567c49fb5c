//! The world: one heap, its queues, and everybody's hands.

ghost use Rattle.std.specs.Prelude.{◌≡◌, true, IfOk, Some, None};
ghost use Rattle.ref_base.specs.Collectors.{first_state};
ghost use Rattle.ref_base.specs.Graphs.{is_there};
ghost use Rattle.ref_base.specs.Heaps.{slot_at, reference_at};
ghost use Rattle.ref_base.specs.Refusals.{clear_refusal, has_slot, is_actor, is_mutator, is_queue};
ghost use Rattle.ref_objects.specs.Grounds.{starting_refusal, IsMade, IsRefused};
ghost use Rattle.ref_base.specs.QueueLists.{new_queues};
ghost use Rattle.ref_mark.specs.MarkRows.{starting_state};
ghost use Rattle.ref_world.specs.Cores.{first_core, starting_core, core_queue_at, queue_refusal};
ghost use Rattle.ref_world.specs.Standing.{Stands, IsRowOf};
ghost use Rattle.ref_world.specs.WorldHeaps.{model_heap};

mod queues;
mod steps;

use crate::hands::Hands;
use crate::{WorldHeap, WorldNotice};
use ref_base::{Actor, Config, Fault, MutNo, ObjNo, QueueNo, SlotNo};
use ref_objects::{Kind, Start};
use ref_queue::Queue;
use std::alloc::{AllocError, Allocator, Global};
use std::marker::Model;

/// One heap, of number 0, its queues, and a hand for each mutator and each worker, which holds 32 notices at most, all
/// for one queue. It must be ended by `end`.
///
/// All its memory is taken as it is made, but for what is put into queues.
pub struct World<A: Allocator = Global> {
    heap: WorldHeap<A>,
    hands: Hands<A>,
    queues: Vec<Queue<WorldNotice, A>, A>,
}

impl<A: Allocator> Model for World<A> {
    ghost use Rattle.ref_world.specs.Cores.{Core};
    ghost use Rattle.ref_world.specs.Standing.{IsSound};

    ghost Value = { Core };

    ghost view = { λ w. record { heap = w.heap; hands = w.hands; queues = w.queues.items } };

    ghost invariant = { λ w. IsSound (record { heap = w.heap; hands = w.hands; queues = w.queues.items }) };
}

impl<A: Allocator + Copy> World<A> {
    /// A world without objects, between cycles, with empty hands and open queues into which nothing was put. Tried in
    /// this order: `BadConfig`, `NoMemory`.
    pub fn new(alloc: A, config: Config) -> Result<Self, Fault>
        ensures made { IsMade (starting_refusal config (record { obj = 1; cycle = 0; page = 1 }))
            (first_core config) result }
        ensures stands { IfOk result (λ world. Stands world (first_state config)) }
    {
        Self::starting(alloc, config, Start::FIRST)
    }

    /// A world whose numbers begin at `start`, and else as `new` makes it. `BadConfig` also where they can't begin so.
    pub fn starting(alloc: A, config: Config, start: Start) -> Result<Self, Fault>
        ensures made { IsMade (starting_refusal config start) (starting_core config start) result }
        ensures stands { IfOk result (λ world. Stands world (starting_state config 0 start.obj start.cycle)) }
    {
        let heap = WorldHeap::starting(alloc, config, 0, start)?;
        let hands = Hands::new(alloc, config)?;
        match empty_queues(alloc, config.queues) {
            Ok(queues) => Ok(World {
                heap,
                hands,
                queues,
            }),
            Err(_) => {
                hands.end();
                Err(Fault::NoMemory)
            }
        }
    }

    /// The reference in a slot. Tried in this order: `NoSuchActor`, `EmptySlot`, `NotAReference`. In constant time.
    pub fn ref_in(&self, mutator: MutNo, slot: SlotNo) -> Result<ObjNo, Fault>
        ensures refused { IsRefused (clear_refusal (model_heap self.now.heap) mutator slot) result }
        ensures answer { IfOk result (λ no. slot_at (model_heap self.now.heap) mutator slot ≡ Some no) }
    {
        let no = self.heap.slot_of(mutator, slot)?.ok_or(Fault::EmptySlot)?;
        match self.heap.kind_of(no) {
            Some(Kind::Reference(_)) => Ok(no),
            _ => Err(Fault::NotAReference),
        }
    }

    /// Whether an object of this number is there: it was made, and no sweep has freed it. Any number may be asked, and
    /// numbers are never used again. In logarithmic time. Takes no memory.
    pub fn is_there(&self, object: ObjNo) -> bool
        ensures { result ≡ is_there (model_heap self.now.heap).objects object }
    {
        self.heap.kind_of(object).is_some()
    }

    /// The queue of this number. The one error is `BadQueue`.
    pub fn queue(&self, no: QueueNo) -> Result<&Queue<WorldNotice, A>, Fault>
        ensures refused { IsRefused (queue_refusal self.now no) result }
        ensures answer { IfOk result (λ queue. queue.now ≡ core_queue_at self.now no) }
    {
        if no.0 >= self.heap.config().queues {
            return Err(Fault::BadQueue);
        }
        Ok(&self.queues[no.0 as usize])
    }

    /// Gives the world up, with all that is in it.
    pub fn end(self) {
        let World {
            heap,
            hands,
            queues,
        } = self;
        heap.end();
        hands.end();
        end_queues(queues);
    }
}

// As many open queues as `count` says, numbered from 0 on, into which nothing was put.
fn empty_queues<A: Allocator + Copy>(
    alloc: A,
    count: u32,
) -> Result<Vec<Queue<WorldNotice, A>, A>, AllocError>
    ensures { IfOk result (λ queues. queues.items ≡ new_queues 0 count) }
{
    let mut queues = Vec::with_capacity(alloc, count as usize)?;
    for queue in 0..count {
        queues.push_reserved(Queue::new(alloc, QueueNo(queue)));
    }
    Ok(queues)
}

// Gives up what stands in the queues.
fn end_queues<A: Allocator + Copy>(queues: Vec<Queue<WorldNotice, A>, A>) {
    let mut queues = queues;
    while let Some(queue) = queues.pop() {
        end_queue(queue);
    }
    queues.destroy_empty();
}

// Gives up what stands in a queue.
fn end_queue<A: Allocator + Copy>(queue: Queue<WorldNotice, A>) {
    let mut standing = queue.end();
    while let Some(notice) = standing.pop_front() {
        notice.into_hold().leak();
    }
    standing.destroy_empty();
}
