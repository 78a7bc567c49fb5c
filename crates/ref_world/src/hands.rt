//! Everybody's hands, which hold notices of the world's heap.

ghost use Rattle.std.specs.Prelude.{◌≡◌, true, ◌&&◌, IfOk, OnOk, OnErr, [], ◌∷◌, replicate, length, nat_lt};
ghost use Rattle.std.specs.Prelude.{slice_index_or, slice_set};
ghost use Rattle.ref_base.specs.Members.{rest_of};
ghost use Rattle.ref_base.specs.QueueBatches.{are_own, not_added};
ghost use Rattle.ref_base.specs.Refusals.{unless, empty_hand_refusal};
ghost use Rattle.ref_base.specs.Told.{told_notices};
ghost use Rattle.ref_base.specs.Worlds.{object_of};
ghost use Rattle.ref_objects.specs.Grounds.{IsRefused};
ghost use Rattle.ref_clear.specs.ClearCalls.{HeapDoes};
ghost use Rattle.ref_world.specs.AskedSteps.{received, taken_back};
ghost use Rattle.ref_world.specs.Cores.{first_hands, hand_in, with_hand_in, with_rest_in, has_hand, has_room};
ghost use Rattle.ref_world.specs.Cores.{filling_refusal, filling_some_refusal, emptying_refusal, one_or_none};
ghost use Rattle.ref_world.specs.Cores.{queue_if_any};
ghost use Rattle.ref_world.specs.QueueReplies.{PutsEach, PollsSome};
ghost use Rattle.ref_world.specs.WorldHeaps.{heap_no_of};

use crate::hand::Hand;
use crate::passage::Passage;
use crate::{WorldHeap, WorldNotice};
use ref_base::{Actor, Config, Fault, HeapStep, MutNo, Outs, QueueNo, Reply, WorkerNo};
use ref_queue::{PolledBatch, Queue};
use std::alloc::Allocator;
use std::marker::Model;

// The hands of mutators and of workers, each in the order of their numbers, and the way into them. All memory is taken
// by `new`, and each call takes time of the notices that it moves.
pub(crate) struct Hands<A: Allocator> {
    mutators: Vec<Hand<A>, A>,
    workers: Vec<Hand<A>, A>,
    passage: Passage<A>,
}

impl<A: Allocator> Model for Hands<A> {
    ghost use Rattle.ref_world.specs.Cores.{Hands as Held};

    ghost Value = { Held };

    ghost view = { λ h. record { mutators = h.mutators.items; workers = h.workers.items } };
}

impl<A: Allocator + Copy> Hands<A> {
    // All of them empty. The one error is NoMemory.
    pub(crate) fn new(alloc: A, config: Config) -> Result<Self, Fault>
        ensures ok { IfOk result (λ hands. hands ≡ first_hands config) }
        ensures err { OnErr result (result ≡ Err Fault.NoMemory) }
    {
        let mutators = empty_hands(alloc, config.mutators as usize)?;
        match empty_hands(alloc, config.workers as usize) {
            Ok(workers) => with_passage(alloc, mutators, workers),
            Err(refused) => {
                end_all(mutators);
                Err(refused)
            }
        }
    }

    // That it is there and empty: NoSuchActor, HandFull.
    pub(crate) fn check_empty(&self, who: Actor) -> Result<(), Fault>
        ensures { IsRefused (filling_refusal self.now who) result }
    {
        let hand = match who {
            Actor::Mutator(mutator) => self.mutators.get(mutator.0 as usize),
            Actor::Worker(worker) => self.workers.get(worker.0 as usize),
        };
        match hand {
            None => Err(Fault::NoSuchActor),
            Some(hand) if hand.is_empty() => Ok(()),
            Some(_) => Err(Fault::HandFull),
        }
    }

    // That it is there, that so many may be asked for, and that it is empty: NoSuchActor, BadConfig, HandFull.
    pub(crate) fn check_fits(&self, who: Actor, max: u32) -> Result<(), Fault>
        ensures { IsRefused (filling_some_refusal self.now who max) result }
    {
        let hand = match who {
            Actor::Mutator(mutator) => self.mutators.get(mutator.0 as usize),
            Actor::Worker(worker) => self.workers.get(worker.0 as usize),
        };
        match hand {
            None => Err(Fault::NoSuchActor),
            Some(hand) if !hand.fits(max) => Err(Fault::BadConfig),
            Some(hand) if hand.is_empty() => Ok(()),
            Some(_) => Err(Fault::HandFull),
        }
    }

    // Takes the first notice that it holds: NoSuchActor, HandEmpty. There is then room for one more.
    pub(crate) fn take(&mut self, who: Actor) -> Result<WorldNotice, Fault>
        ensures refused { IsRefused (emptying_refusal self.old who) result }
        ensures answer { IfOk result (λ notice. hand_in self.old who ≡ notice ∷ rest_of (hand_in self.old who)) }
        ensures taken { OnOk result (self.new ≡ with_rest_in self.old who) }
        ensures room { OnOk result (has_room self.new who ≡ true) }
        ensures kept { OnErr result (self.new ≡ self.old) }
    {
        match who {
            Actor::Mutator(mutator) => take_from(&mut self.mutators, mutator.0),
            Actor::Worker(worker) => take_from(&mut self.workers, worker.0),
        }
    }

    // An empty hand then holds this.
    pub(crate) fn fill(&mut self, who: Actor, notice: WorldNotice)
        requires { filling_refusal self.old who ≡ None }
        ensures { self.new ≡ with_hand_in self.old who (notice ∷ []) }
    {
        match who {
            Actor::Mutator(mutator) => self.mutators[mutator.0 as usize].fill(notice),
            Actor::Worker(worker) => self.workers[worker.0 as usize].fill(notice),
        }
    }

    // An empty hand then holds this, if it is a notice.
    pub(crate) fn fill_if_any(&mut self, who: Actor, notice: Option<WorldNotice>)
        requires { filling_refusal self.old who ≡ None }
        ensures { self.new ≡ received self.old who (one_or_none notice) }
    {
        if let Some(notice) = notice {
            self.fill(who, notice);
        }
    }

    // Takes a notice back, if there is one, in front of the others.
    pub(crate) fn take_back(&mut self, who: Actor, notice: Option<WorldNotice>)
        requires { has_room self.old who ≡ true }
        ensures { self.new ≡ taken_back self.old who notice }
    {
        let Some(notice) = notice else {
            return;
        };
        match who {
            Actor::Mutator(mutator) => self.mutators[mutator.0 as usize].put_back(notice),
            Actor::Worker(worker) => self.workers[worker.0 as usize].put_back(notice),
        }
    }

    // The queue that its first notice is for: NoSuchActor, HandEmpty.
    pub(crate) fn first_queue(&mut self, who: Actor) -> Result<QueueNo, Fault>
        ensures refused { IsRefused (emptying_refusal self.old who) result }
        ensures answer { IfOk result (λ queue. queue_if_any (hand_in self.old who) ≡ Some queue) }
        ensures kept { self.new ≡ self.old }
    {
        match who {
            Actor::Mutator(mutator) => queue_at(&mut self.mutators, mutator.0),
            Actor::Worker(worker) => queue_at(&mut self.workers, worker.0),
        }
    }

    // Puts all that it holds into this queue, which they are for. It then holds what wasn't added.
    pub(crate) fn put_all(&mut self, who: Actor, queue: &mut Queue<WorldNotice, A>) -> Outs
        requires there { has_hand self.old who ≡ true }
        requires own { are_own object_of (λ n. n.queue) queue.old (hand_in self.old who) ≡ true }
        ensures puts { PutsEach queue.old (hand_in self.old who) result queue.new }
        ensures left { self.new ≡ with_hand_in self.old who (not_added (hand_in self.old who) result.done) }
    {
        match who {
            Actor::Mutator(mutator) => self.mutators[mutator.0 as usize].put_all(queue),
            Actor::Worker(worker) => self.workers[worker.0 as usize].put_all(queue),
        }
    }

    // An empty hand takes the first that stand in the queue, so many at most.
    pub(crate) fn poll_some(
        &mut self,
        mutator: MutNo,
        max: u32,
        queue: &mut Queue<WorldNotice, A>,
    ) -> PolledBatch
        requires { filling_some_refusal self.old (Actor.Mutator mutator) max ≡ None }
        ensures { PollsSome queue.old max self.old mutator result queue.new self.new }
    {
        self.mutators[mutator.0 as usize].poll_some(max, queue)
    }

    // Asks the heap for the notices of the next references that the worker cleared, so many at most. Its hand, which is
    // empty, then holds them.
    pub(crate) fn hand_on(&mut self, heap: &mut WorldHeap<A>, worker: WorkerNo, max: u32) -> Reply
        requires own { heap_no_of heap.old ≡ 0 }
        requires fits { filling_some_refusal self.old (Actor.Worker worker) max ≡ None }
        ensures does { HeapDoes heap.old (HeapStep.Hands worker max []) result heap.new }
        ensures hands { self.new ≡ received self.old (Actor.Worker worker) (told_notices result) }
    {
        let hand = &mut self.workers[worker.0 as usize];
        self.passage.hand_on(heap, hand, worker, max)
    }

    // Gives up what they hold.
    pub(crate) fn end(self) {
        let Hands {
            mutators,
            workers,
            passage,
        } = self;
        end_all(mutators);
        end_all(workers);
        passage.end();
    }
}

// The hands, with the way into them: NoMemory.
fn with_passage<A: Allocator + Copy>(
    alloc: A,
    mutators: Vec<Hand<A>, A>,
    workers: Vec<Hand<A>, A>,
) -> Result<Hands<A>, Fault>
    ensures ok { IfOk result (λ hands. (hands.mutators ≡ mutators.items) × (hands.workers ≡ workers.items)) }
    ensures err { OnErr result (result ≡ Err Fault.NoMemory) }
{
    match Passage::new(alloc) {
        Ok(passage) => Ok(Hands {
            mutators,
            workers,
            passage,
        }),
        Err(refused) => {
            end_all(mutators);
            end_all(workers);
            Err(refused)
        }
    }
}

// As many empty hands as `count` says. The one error is `NoMemory`.
fn empty_hands<A: Allocator + Copy>(alloc: A, count: usize) -> Result<Vec<Hand<A>, A>, Fault>
    ensures ok { IfOk result (λ hands. hands.items ≡ replicate count []) }
    ensures err { OnErr result (result ≡ Err Fault.NoMemory) }
{
    let Ok(mut hands) = Vec::with_capacity(alloc, count) else {
        return Err(Fault::NoMemory);
    };
    for _hand in 0..count {
        match Hand::new(alloc) {
            Ok(hand) => hands.push_reserved(hand),
            Err(refused) => {
                end_all(hands);
                return Err(refused);
            }
        }
    }
    Ok(hands)
}

// Takes the first notice that the hand at this place holds: NoSuchActor where there is none, HandEmpty.
fn take_from<A: Allocator + Copy>(hands: &mut [Hand<A>], place: u32) -> Result<WorldNotice, Fault>
    ensures refused { IsRefused (unless (nat_lt place (length hands.old)) Fault.NoSuchActor
        (empty_hand_refusal (slice_index_or hands.old place []))) result }
    ensures answer { IfOk result (λ notice.
        slice_index_or hands.old place [] ≡ notice ∷ rest_of (slice_index_or hands.old place [])) }
    ensures taken { OnOk result (hands.new ≡ slice_set hands.old place (rest_of (slice_index_or hands.old place []))) }
    ensures room { OnOk result
        ((nat_lt place (length hands.new) && nat_lt (length (slice_index_or hands.new place [])) 32) ≡ true) }
    ensures kept { OnErr result (hands.new ≡ hands.old) }
{
    let place = place as usize;
    if place >= hands.len() {
        return Err(Fault::NoSuchActor);
    }
    hands[place].take_first().ok_or(Fault::HandEmpty)
}

// The queue that the first notice of the hand at this place is for: NoSuchActor where there is none, HandEmpty.
fn queue_at<A: Allocator + Copy>(hands: &mut [Hand<A>], place: u32) -> Result<QueueNo, Fault>
    ensures refused { IsRefused (unless (nat_lt place (length hands.old)) Fault.NoSuchActor
        (empty_hand_refusal (slice_index_or hands.old place []))) result }
    ensures answer { IfOk result (λ queue. queue_if_any (slice_index_or hands.old place []) ≡ Some queue) }
    ensures kept { hands.new ≡ hands.old }
{
    let place = place as usize;
    if place >= hands.len() {
        return Err(Fault::NoSuchActor);
    }
    hands[place].first_queue().ok_or(Fault::HandEmpty)
}

// Gives up what these hands hold.
fn end_all<A: Allocator + Copy>(hands: Vec<Hand<A>, A>) {
    let mut hands = hands;
    while let Some(hand) = hands.pop() {
        hand.end();
    }
    hands.destroy_empty();
}
