//! Rows of queues: what is put in, and taken.

ghost use Rattle.std.specs.Prelude.{◌≡◌, ◌≤◌, ◌<◌, ◌+◌, ◌^◌, true, false, [], length, Some, None, Err, MatchResult};
ghost use Rattle.std.specs.Prelude.{◌||◌};
ghost use Rattle.std.specs.Prelude.{OnErr, OnOk};
ghost use Rattle.ref_base.specs.Members.{has, without_first};
ghost use Rattle.ref_base.specs.QueueBatches.{added_among, not_added};
ghost use Rattle.ref_objects.specs.Grounds.{IsRefused, IsWellFormed};
ghost use Rattle.ref_judge.specs.Judged.{naming_refusal, polling_refusal, is_put, put_for};
ghost use Rattle.ref_judge.specs.Standing.{DoesAs, TellsOf};
ghost use Rattle.ref_judge.specs.Queueing.{told_put, may_become, may_become_each, line_with, linked_each, TellsNone};
ghost use Rattle.ref_judge.specs.Queueing.{MayTakeNos, may_be_next, without_each};

use super::{Judge, is_legal, is_refused};
use crate::Order;
use crate::line::Line;
use crate::stop::Stop;
use ref_base::{Actor, Done, Fault, MutNo, Nos, ObjNo, QueueNo, Reply, Step};
use ref_objects::Objects;
use std::alloc::Allocator;

impl<A: Allocator + Copy> Judge<A> {
    // A put of the hand's first notice.
    pub(super) fn put(&mut self, actor: Actor, reply: Reply) -> Result<(), Stop>
        ensures { TellsOf self.old (record { step = Step.Put actor; reply = reply }) result self.new }
    {
        let (asked, read, dropped) = (actor, actor, actor);
        let no = match self.hands.first_of(asked) {
            Ok(no) => no,
            Err(fault) => return is_refused(fault, reply),
        };
        known(&self.objects);
        let queue = self.hands.queue_of(read);
        let line = &self.lines[queue.0 as usize];
        let Some(done) = told_put(reply, line.put) else {
            return Err(Stop::Illegal);
        };
        if !becomes(self.objects.link_of(no) != 0, line.is_closed, done) {
            return Err(Stop::Illegal);
        }
        if done.is_added() {
            put_in(&mut self.objects, &mut self.lines[queue.0 as usize], &[no])?;
            self.hands.drop_first(dropped);
        }
        Ok(())
    }

    // A put of all notices of the hand, one after the other.
    pub(super) fn puts(&mut self, actor: Actor, reply: Reply) -> Result<(), Stop>
        ensures { TellsOf self.old (record { step = Step.Puts actor; reply = reply }) result self.new }
    {
        let (asked, read, held, filled) = (actor, actor, actor, actor);
        if let Err(fault) = self.hands.first_of(asked) {
            return is_refused(fault, reply);
        }
        known(&self.objects);
        let queue = self.hands.queue_of(read);
        let objects = self.hands.objects_of(held);
        let line = &self.lines[queue.0 as usize];
        let Reply::Outs(outs) = reply else {
            return Err(Stop::Illegal);
        };
        if outs.before() != line.put {
            return Err(Stop::Illegal);
        }
        let added = added_by(
            &self.objects,
            line.is_closed,
            objects.as_slice(),
            outs.as_slice(),
        )?;
        put_in(
            &mut self.objects,
            &mut self.lines[queue.0 as usize],
            added.as_slice(),
        )?;
        let left = not_added(objects.as_slice(), outs.as_slice());
        self.hands.fill(filled, queue, left);
        Ok(())
    }

    /// How many notices were ever put into the queue that those in an actor's hand are for: where no actor or queue is
    /// there none. Takes no memory.
    pub fn put_before(&self, actor: Actor) -> u64
        ensures count { result ≡ put_for self.now actor }
        ensures few { result < 2 ^ 63 }
    {
        // Gives the proof that the judge's value is of some state.
        let _ = &self.config;
        self.put_for(actor)
    }

    // Without saying that they are few.
    fn put_for(&self, actor: Actor) -> u64
        ensures { result ≡ put_for self.now actor }
    {
        match self.lines.get(self.hands.queue_of(actor).0 as usize) {
            Some(line) => line.put,
            None => 0,
        }
    }

    // A poll of one.
    pub(super) fn poll(&mut self, mutator: MutNo, queue: QueueNo, reply: Reply) -> Result<(), Stop>
        ensures { TellsOf self.old (record { step = Step.Poll mutator queue; reply = reply }) result self.new }
    {
        if let Err(fault) = self.check_poll(mutator, queue) {
            return is_refused(fault, reply);
        }
        if let Err(fault) = self.hands.check_empty(Actor::Mutator(mutator)) {
            return is_refused(fault, reply);
        }
        let line = &self.lines[queue.0 as usize];
        match reply {
            Reply::Took(no) => {
                if !may_take(self.profile.order, line, 1, &[no]) {
                    return Err(Stop::Illegal);
                }
                take_out(&mut self.lines[queue.0 as usize], no);
                self.hands.fill_one(Actor::Mutator(mutator), queue, no);
                Ok(())
            }
            reply => takes_none(line, reply),
        }
    }

    // A poll of several.
    pub(super) fn polls(
        &mut self,
        mutator: MutNo,
        queue: QueueNo,
        max: u32,
        reply: Reply,
    ) -> Result<(), Stop>
        ensures { TellsOf self.old (record { step = Step.Polls mutator queue max; reply = reply }) result self.new }
    {
        if let Err(fault) = self.check_polls(mutator, queue, max) {
            return is_refused(fault, reply);
        }
        let line = &self.lines[queue.0 as usize];
        match reply {
            Reply::TookSome(taken) => {
                if !may_take(self.profile.order, line, max as usize, taken.as_slice()) {
                    return Err(Stop::Illegal);
                }
                take_each(&mut self.lines[queue.0 as usize], taken.as_slice());
                self.hands.fill(Actor::Mutator(mutator), queue, taken);
                Ok(())
            }
            reply => takes_none(line, reply),
        }
    }

    // That there are this mutator and this queue: NoSuchActor, BadQueue.
    pub(super) fn check_poll(&self, mutator: MutNo, queue: QueueNo) -> Result<(), Fault>
        ensures { IsRefused (naming_refusal self.now.config mutator queue) result }
    {
        if mutator.0 >= self.config.mutators {
            return Err(Fault::NoSuchActor);
        }
        if queue.0 >= self.config.queues {
            return Err(Fault::BadQueue);
        }
        Ok(())
    }

    // And that so many may be asked for, and the hand is empty: BadConfig, HandFull.
    pub(super) fn check_polls(&self, mutator: MutNo, queue: QueueNo, max: u32) -> Result<(), Fault>
        ensures { IsRefused (polling_refusal self.now mutator queue max) result }
    {
        self.check_poll(mutator, queue)?;
        self.hands.check_fits(Actor::Mutator(mutator), max)?;
        self.hands.check_empty(Actor::Mutator(mutator))
    }

    // Closes a queue.
    pub(super) fn close(&mut self, mutator: MutNo, queue: QueueNo) -> Result<Reply, Fault>
        ensures { DoesAs self.old (Step.Close mutator queue) result self.new }
    {
        self.check_poll(mutator, queue)?;
        let place = queue.0 as usize;
        if self.lines[place].is_closed {
            return Ok(Reply::Closed);
        }
        self.lines[place].is_closed = true;
        Ok(Reply::Done)
    }
}

// What a put of one is told to have become of it, where so many were put in before.
fn told_put(reply: Reply, before: u64) -> Option<Done>
    ensures { result ≡ told_put before reply }
{
    match reply {
        Reply::Added(position) if position == before => Some(Done::Added),
        Reply::Already => Some(Done::Already),
        Reply::Closed => Some(Done::Closed),
        Reply::Refused(Fault::NoMemory) => Some(Done::Refused(Fault::NoMemory)),
        _ => None,
    }
}

// Whether this may become of a notice: where it could be added, memory may have been refused.
fn becomes(was_put: bool, is_closed: bool, done: Done) -> bool
    ensures { result ≡ may_become was_put is_closed done }
{
    match done {
        Done::Added | Done::Refused(Fault::NoMemory) => !was_put && !is_closed,
        Done::Already => was_put,
        Done::Closed => !was_put && is_closed,
        Done::Refused(_) => false,
    }
}

// Those of a batch that were added, where this may become of it, one after the other.
fn added_by<A: Allocator + Copy>(
    objects: &Objects<A>,
    is_closed: bool,
    numbers: &[ObjNo],
    told: &[Done],
) -> Result<Nos, Stop>
    requires { length numbers.now ≤ 32 }
    ensures { MatchResult result
        (λ added. (may_become_each objects.now.tags [] is_closed numbers.now told.now ≡ true)
        × (added ≡ added_among numbers.now told.now))
        (λ stop. (stop ≡ Stop.Illegal)
        × (may_become_each objects.now.tags [] is_closed numbers.now told.now ≡ false)) }
{
    if told.len() > numbers.len() {
        return Err(Stop::Illegal);
    }
    let mut added = Nos::new();
    for place in 0..told.len() {
        let no = numbers[place];
        let done = told[place];
        if !becomes(was_put(objects, added.as_slice(), no), is_closed, done) {
            return Err(Stop::Illegal);
        }
        if done.is_refused() {
            return if place + 1 == told.len() {
                Ok(added)
            } else {
                Err(Stop::Illegal)
            };
        }
        if done.is_added() {
            added.push(no);
        }
    }
    if told.len() < numbers.len() {
        return Err(Stop::Illegal);
    }
    Ok(added)
}

// Whether a reference was ever put in, where these were by the batch itself.
pub(super) fn was_put<A: Allocator + Copy>(objects: &Objects<A>, added: &[ObjNo], no: ObjNo) -> bool
    ensures { result ≡ (is_put objects.now.tags no || has added.now no) }
{
    objects.link_of(no) != 0 || added.contains(&no)
}

// Those of a batch that weren't added, where this became of it.
fn not_added(numbers: &[ObjNo], told: &[Done]) -> Nos
    requires { length numbers.now ≤ 32 }
    ensures { result ≡ not_added numbers.now told.now }
{
    let mut left = Nos::new();
    for place in 0..numbers.len() {
        if place >= told.len() || !told[place].is_added() {
            left.push(numbers[place]);
        }
    }
    left
}

// These are put in. Where memory is refused nothing changes.
fn put_in<A: Allocator + Copy>(
    objects: &mut Objects<A>,
    line: &mut Line<A>,
    numbers: &[ObjNo],
) -> Result<(), Stop>
    requires { line.old.put + length numbers.now < 2 ^ 64 }
    ensures done { OnOk result ((line.new ≡ line_with line.old numbers.now)
        × (objects.new ≡ record objects.old { tags = linked_each objects.old.tags numbers.now })) }
    ensures stop { OnErr result ((result ≡ Err Stop.NoMemory) × (line.new ≡ line.old) × (objects.new ≡ objects.old)) }
{
    if line.standing.reserve(numbers.len()).is_err() {
        return Err(Stop::NoMemory);
    }
    for no in numbers.iter() {
        line.standing.push_back_reserved(*no);
        objects.set_link(*no, 1);
    }
    line.put += numbers.len() as u64;
    Ok(())
}

// What holds of every heap, for the proofs: it does nothing.
fn known<A: Allocator + Copy>(objects: &Objects<A>)
    ensures formed { IsWellFormed objects.now }
    ensures few { objects.now.next < 2 ^ 64 }
{
    let _count = objects.object_count();
    let _next = objects.next_no();
}

// A poll takes nothing: nothing stands.
fn takes_none<A: Allocator + Copy>(line: &Line<A>, reply: Reply) -> Result<(), Stop>
    ensures { MatchResult result (λ _. TellsNone line.now reply)
        (λ stop. (stop ≡ Stop.Illegal) × (TellsNone line.now reply → ⊥)) }
{
    let wanted = if line.is_closed {
        Reply::Closed
    } else {
        Reply::Empty
    };
    is_legal(line.standing.is_empty() && reply == wanted)
}

// Whether a poll of so many may take these: as many as that, or all that stand, and in this order.
fn may_take<A: Allocator + Copy>(
    order: Order,
    line: &Line<A>,
    max: usize,
    numbers: &[ObjNo],
) -> bool
    ensures right { result ≡ true → MayTakeNos order max line.now.stands numbers.now }
    ensures wrong { result ≡ false → MayTakeNos order max line.now.stands numbers.now → ⊥ }
{
    let count = numbers.len();
    if count == 0 || count != max.min(line.standing.len()) {
        return false;
    }
    for place in 0..count {
        if !may_be_next(order, line, numbers, place) {
            return false;
        }
    }
    true
}

// Whether the number at this place may be taken, behind those before it.
fn may_be_next<A: Allocator + Copy>(
    order: Order,
    line: &Line<A>,
    numbers: &[ObjNo],
    place: usize,
) -> bool
    requires place { place < length numbers.now }
    requires few { length numbers.now ≤ length line.now.stands }
    ensures { result ≡ may_be_next order line.now.stands numbers.now place }
{
    let no = numbers[place];
    match order {
        Order::First => line.standing[place] == no,
        Order::Last => line.standing[line.standing.len() - 1 - place] == no,
        Order::Any => line.standing.contains(&no) && !numbers[..place].contains(&no),
    }
}

// The first of each of these numbers no longer stands.
fn take_each<A: Allocator + Copy>(line: &mut Line<A>, numbers: &[ObjNo])
    ensures { line.new ≡ record line.old { stands = without_each line.old.stands numbers.now } }
{
    for no in numbers.iter() {
        take_out(line, *no);
    }
}

// The first of this number no longer stands.
fn take_out<A: Allocator + Copy>(line: &mut Line<A>, no: ObjNo)
    ensures { line.new ≡ record line.old { stands = without_first (λ n. n) line.old.stands no } }
{
    for place in 0..line.standing.len() {
        if line.standing[place] == no {
            line.standing.remove(place);
            return;
        }
    }
}
