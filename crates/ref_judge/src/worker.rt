//! What a worker of the judged collector found and cleared.

ghost use Rattle.std.specs.Prelude.{◌≡◌, [], ◌++◌, length, drop, MatchResult, map};
ghost use Rattle.std.specs.List.{list_any};
ghost use Rattle.ref_judge.specs.Finding.{has_more_left, has_cleared_left, found_from, if_pending, noted, others_from};
ghost use Rattle.ref_judge.specs.Spreading.{without_found};

use crate::stop::Stop;
use ref_base::{ObjNo, QueueNo};
use std::alloc::Allocator;
use std::collections::VecDeque;
use std::marker::Model;

// A reference that a worker scanned in this cycle.
#[derive(Clone, Copy, Debug)]
pub(crate) struct Found {
    pub(crate) object: ObjNo,
    // Whether the mark's end cleared it.
    pub(crate) is_cleared: bool,
}

// A reference that a worker cleared and hasn't handed on yet.
#[derive(Clone, Copy, Debug)]
pub(crate) struct Pending {
    pub(crate) object: ObjNo,
    pub(crate) queue: QueueNo,
    // The cycle in which it was cleared.
    pub(crate) cycle: u64,
}

impl Model for Pending {
    ghost use Rattle.ref_base.specs.Worlds.{Pending as Data};

    ghost Value = { Data };

    ghost view = { λ p. record { object = p.object; queue = p.queue; cycle = p.cycle } };

    ghost inverse = { λ p. record { object = p.object; queue = p.queue; cycle = p.cycle } };
}

// What is known of a worker.
#[derive(Drop)]
pub(crate) struct Worker<A: Allocator> {
    // The references that it scanned in this cycle, in order.
    pub(crate) found: Vec<Found, A>,
    // How many of these it has looked at or passed since the mark's end.
    pub(crate) at: usize,
    pub(crate) pending: VecDeque<Pending, A>,
}

impl<A: Allocator> Model for Worker<A> {
    ghost use Rattle.ref_judge.specs.Judged.{Finder};

    ghost Value = { Finder };

    ghost view = { λ w. record { found = w.found.items; at = w.at; pending = w.pending.items } };
}

impl<A: Allocator + Copy> Worker<A> {
    ghost use Rattle.ref_judge.specs.Spreading.{without_found};
    // One that has found and cleared nothing.
    pub(crate) fn new(alloc: A) -> Self
        ensures { result ≡ record { found = []; at = 0; pending = [] } }
    {
        Worker {
            found: Vec::new(alloc),
            at: 0,
            pending: VecDeque::new(alloc),
        }
    }

    // The worker then has found nothing in this cycle.
    fn forget_found(&mut self)
        ensures { self.new ≡ without_found self.old }
    {
        self.found.clear();
        self.at = 0;
    }

    // The worker then has found this object too, where it is a reference.
    pub(crate) fn note(&mut self, no: ObjNo, is_reference: bool) -> Result<(), Stop>
        ensures { MatchResult result (λ _. self.new ≡ noted self.old is_reference no)
            (λ stop. (stop ≡ Stop.NoMemory) × (self.new ≡ self.old)) }
    {
        if is_reference {
            let found = Found {
                object: no,
                is_cleared: false,
            };
            if self.found.push(found).is_err() {
                return Err(Stop::NoMemory);
            }
        }
        Ok(())
    }

    // Whether it may have a reference left to look at.
    pub(crate) fn may_have_more(&self) -> bool
        ensures { result ≡ has_more_left self.now }
    {
        self.at < self.found.len()
    }

    // The reference that it may look at next, if it has one left.
    pub(crate) fn first_left(&self) -> Option<ObjNo> {
        Some(self.found.get(self.at)?.object)
    }

    // Whether it has one left that the mark's end cleared.
    pub(crate) fn has_cleared(&self) -> bool
        ensures { result ≡ has_cleared_left self.now }
    {
        let mut place = self.at;
        while place < self.found.len() {
            if self.found[place].is_cleared {
                return true;
            }
            place += 1;
        }
        false
    }

    // Where it may look next once it has looked at this one, and whether the mark's end cleared that: each that it
    // passes, the mark's end didn't clear.
    pub(crate) fn find(&self, no: ObjNo) -> Option<(usize, bool)>
        ensures { result ≡ found_from no self.now.at (drop self.now.at self.now.found) }
    {
        let mut place = self.at;
        while place < self.found.len() {
            let found = self.found[place];
            if found.object == no {
                return Some((place + 1, found.is_cleared));
            }
            if found.is_cleared {
                return None;
            }
            place += 1;
        }
        None
    }

    // The worker goes on from this place. What is given as pending, if anything is, is then pending with it too.
    pub(crate) fn go_on(&mut self, next: usize, pending: Option<Pending>) -> Result<(), Stop>
        ensures { MatchResult result
            (λ _. self.new ≡ record self.old { at = next; pending = self.old.pending ++ if_pending pending })
            (λ stop. (stop ≡ Stop.NoMemory) × (self.new ≡ self.old)) }
    {
        if let Some(pending) = pending {
            if self.pending.push_back(pending).is_err() {
                return Err(Stop::NoMemory);
            }
        }
        self.at = next;
        Ok(())
    }

    // The worker passes all references that it has found.
    pub(crate) fn pass_all(&mut self)
        ensures { self.new ≡ record self.old { at = length self.old.found } }
    {
        self.at = self.found.len();
    }
}

// Whether one of them has one left that the mark's end cleared.
pub(crate) fn has_any_cleared<A: Allocator + Copy>(workers: &[Worker<A>]) -> bool
    ensures { result ≡ list_any has_cleared_left workers.now }
{
    workers.iter().any(|worker| worker.has_cleared())
}

// Whether one of them may have one left, but this one.
pub(crate) fn may_others_have_more<A: Allocator + Copy>(workers: &[Worker<A>], this: usize) -> bool
    ensures { result ≡ others_from this 0 workers.now }
{
    let mut place = 0;
    while place < workers.len() {
        if place != this && workers[place].may_have_more() {
            return true;
        }
        place += 1;
    }
    false
}

// Whether one of them may have one left.
pub(crate) fn may_any_have_more<A: Allocator + Copy>(workers: &[Worker<A>]) -> bool
    ensures { result ≡ list_any has_more_left workers.now }
{
    workers.iter().any(|worker| worker.may_have_more())
}

// No worker has found anything in this cycle.
pub(crate) fn forget_found<A: Allocator + Copy>(workers: &mut Vec<Worker<A>, A>)
    ensures { workers.new.items ≡ map without_found workers.old.items }
{
    for place in 0..workers.len() {
        workers[place].forget_found();
    }
}
