//! Everybody's hands.

ghost use Rattle.std.specs.Prelude.{◌≡◌, IfOk, IfSome, IsSome, Some, ◌↔◌, true, [], ◌∷◌};
ghost use Rattle.ref_base.specs.Members.{first_of, rest_of};
ghost use Rattle.ref_objects.specs.Grounds.{IsRefused};
ghost use Rattle.ref_judge.specs.Judged.{has_carrier, hand_at, with_hand_at, with_rest_at, no_hands};
ghost use Rattle.ref_judge.specs.Judged.{free_hand_refusal, fitting_refusal, first_notice_refusal};

use crate::hand::Hand;
use ref_base::{Actor, Config, Fault, MOST_IN_BATCH, Nos, ObjNo, QueueNo};
use std::alloc::{AllocError, Allocator};
use std::marker::Model;

// The hands of mutators and of workers, each in the order of their numbers.
#[derive(Drop)]
pub(crate) struct Hands<A: Allocator> {
    pub(crate) mutators: Vec<Hand, A>,
    pub(crate) workers: Vec<Hand, A>,
}

impl<A: Allocator> Model for Hands<A> {
    ghost use Rattle.ref_judge.specs.Judged.{AllHands as Data};

    ghost Value = { Data };

    ghost view = { λ h. record { mutators = h.mutators.items; workers = h.workers.items } };
}

impl<A: Allocator + Copy> Hands<A> {
    // All of them empty. The one error is `NoMemory`.
    pub(crate) fn new(alloc: A, config: Config) -> Result<Self, AllocError>
        ensures { IfOk result (λ hands. hands ≡ no_hands config) }
    {
        let mut mutators = Vec::with_capacity(alloc, config.mutators as usize)?;
        for _mutator in 0..config.mutators {
            mutators.push_reserved(Hand::new());
        }
        let mut workers = Vec::with_capacity(alloc, config.workers as usize)?;
        for _worker in 0..config.workers {
            workers.push_reserved(Hand::new());
        }
        Ok(Hands { mutators, workers })
    }

    // The hand of an actor, if there is this one.
    pub(crate) fn of(&self, actor: Actor) -> Option<Hand>
        ensures there { IsSome result ↔ (has_carrier self.now actor ≡ true) }
        ensures hand { IfSome result (λ hand. hand ≡ hand_at self.now actor) }
    {
        match actor {
            Actor::Mutator(mutator) => self.mutators.get(mutator.0 as usize).copied(),
            Actor::Worker(worker) => self.workers.get(worker.0 as usize).copied(),
        }
    }

    // The queue that the notices of this actor's hand are for, and the references that they report: of no actor none.
    pub(crate) fn queue_of(&self, actor: Actor) -> QueueNo
        ensures { result ≡ (hand_at self.now actor).queue }
    {
        match self.of(actor) {
            Some(hand) => hand.queue,
            None => QueueNo(0),
        }
    }

    pub(crate) fn objects_of(&self, actor: Actor) -> Nos
        ensures { result ≡ (hand_at self.now actor).objects }
    {
        match self.of(actor) {
            Some(hand) => hand.objects,
            None => Nos::new(),
        }
    }

    // The actor, whom there is, then carries the notices of these references, for this queue.
    pub(crate) fn fill(&mut self, actor: Actor, queue: QueueNo, objects: Nos)
        requires { has_carrier self.old actor ≡ true }
        ensures { self.new ≡ with_hand_at self.old actor (record { queue = queue; objects = objects }) }
    {
        let hand = Hand { queue, objects };
        match actor {
            Actor::Mutator(mutator) => self.mutators[mutator.0 as usize] = hand,
            Actor::Worker(worker) => self.workers[worker.0 as usize] = hand,
        }
    }

    // The actor, whom there is, then carries the notice of this reference.
    pub(crate) fn fill_one(&mut self, actor: Actor, queue: QueueNo, object: ObjNo)
        requires { has_carrier self.old actor ≡ true }
        ensures { self.new ≡ with_hand_at self.old actor (record { queue = queue; objects = object ∷ [] }) }
    {
        let mut objects = Nos::new();
        objects.push(object);
        self.fill(actor, queue, objects);
    }

    // The actor, whom there is, no longer carries its first.
    pub(crate) fn drop_first(&mut self, actor: Actor)
        requires { has_carrier self.old actor ≡ true }
        ensures { self.new ≡ with_rest_at self.old actor }
    {
        let (read, filled) = (actor, actor);
        if let Some(hand) = self.of(read) {
            let rest = without_first(&hand.objects);
            self.fill(filled, hand.queue, rest);
        }
    }

    // That there is this actor, and its hand is empty: NoSuchActor, HandFull.
    pub(crate) fn check_empty(&self, actor: Actor) -> Result<(), Fault>
        ensures { IsRefused (free_hand_refusal self.now actor) result }
    {
        let hand = self.of(actor).ok_or(Fault::NoSuchActor)?;
        if hand.len() > 0 {
            return Err(Fault::HandFull);
        }
        Ok(())
    }

    // That there is this actor, and so many may be asked for: NoSuchActor, BadConfig.
    pub(crate) fn check_fits(&self, actor: Actor, max: u32) -> Result<(), Fault>
        ensures { IsRefused (fitting_refusal self.now actor max) result }
    {
        let hand = self.of(actor).ok_or(Fault::NoSuchActor)?;
        if max == 0 || max as usize > MOST_IN_BATCH - hand.len() {
            return Err(Fault::BadConfig);
        }
        Ok(())
    }

    // The reference that the hand's first notice reports: NoSuchActor, HandEmpty.
    pub(crate) fn first_of(&self, actor: Actor) -> Result<ObjNo, Fault>
        ensures refused { IsRefused (first_notice_refusal self.now actor) result }
        ensures first { IfOk result (λ no. first_of (hand_at self.now actor).objects ≡ Some no) }
    {
        let hand = self.of(actor).ok_or(Fault::NoSuchActor)?;
        hand.first().ok_or(Fault::HandEmpty)
    }
}

// The numbers without the first.
fn without_first(numbers: &Nos) -> Nos
    ensures { result ≡ rest_of numbers.now }
{
    let mut rest = Nos::new();
    if let [_first, behind @ ..] = numbers.as_slice() {
        for number in behind.iter() {
            rest.push(*number);
        }
    }
    rest
}
