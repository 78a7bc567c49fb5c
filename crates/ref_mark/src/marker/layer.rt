//! What the layer above does to a heap in its cycles.

ghost use Rattle.std.specs.Prelude.{◌≡◌, ◌==◌, ◌≤◌, [], IfOk, length, not, true, false};
ghost use Rattle.ref_base.specs.Members.{has};
ghost use Rattle.ref_base.specs.Collectors.{joined};
ghost use Rattle.ref_base.specs.Refusals.{is_empty, is_in, work_refusal};
ghost use Rattle.ref_base.specs.CollectorRows.{list_at};
ghost use Rattle.ref_space.specs.Worklists.{emptied_list, with_more};
ghost use Rattle.ref_objects.specs.Grounds.{IsRefused, IsClosed, if_done, unmarked};
ghost use Rattle.ref_mark.specs.Chains.{is_tagged, linked_last, chain_with};
ghost use Rattle.ref_mark.specs.CycleHeaps.{shaded, cycle_ended, found_looked_at, doomed, sweep_begun};
ghost use Rattle.ref_mark.specs.CycleHeaps.{is_swept, swept, is_past_mark};
ghost use Rattle.ref_mark.specs.MarkViews.{found_look};

use super::{Marker, known};
use crate::chain::Chain;
use ref_base::{Fault, ObjNo, Phase, WorkerNo};
use ref_objects::{Entry, Look, Worklist};
use std::alloc::Allocator;

impl<A: Allocator + Copy> Marker<A> {
    /// A root that the layer above has: in a mark a white object becomes grey, and the last of the grey list. In
    /// logarithmic time.
    pub fn grey_root(&mut self, no: ObjNo)
        ensures { self.new ≡ shaded self.old no }
    {
        self.shade(no);
    }

    /// Whether this worker may take a step that this phase has. Tried in this order: `NoSuchActor`, `WrongPhase`. In
    /// constant time.
    pub fn check_work(&self, worker: WorkerNo, phase: Phase) -> Result<(), Fault>
        ensures { IsRefused (work_refusal self.now.heap self.now.phase phase worker) result }
    {
        if worker.0 >= self.objects.config().workers {
            return Err(Fault::NoSuchActor);
        }
        if self.phase != phase {
            return Err(Fault::WrongPhase);
        }
        Ok(())
    }

    /// Takes the first reference that a worker found and that wasn't looked at since, and looks at it: where its
    /// referent is doomed it is cleared, for the worker, in this cycle. None where there is none. Tried in this order:
    /// `NoSuchActor`, `WrongPhase` but in Clearing. No object has number 0. By one search.
    #[inline(always)]
    pub fn take_found(&mut self, worker: WorkerNo) -> Result<Option<Look>, Fault>
        ensures refused { IsRefused (work_refusal self.old.heap self.old.phase Phase.Clearing worker) result }
        ensures answer { IfOk result (λ look. look ≡ found_look self.old worker) }
        ensures after { self.new ≡ if_done result
            (found_looked_at self.old worker (list_at self.old.found worker)) self.old }
        ensures numbered { is_tagged self.old.tags 0 ≡ false }
    {
        self.check_work(worker, Phase::Clearing)?;
        let mut list = self.found[worker.0 as usize];
        let look = list.look_at_first(&mut self.objects, self.cycle);
        self.found[worker.0 as usize] = list;
        Ok(look)
    }

    /// Whether some worker found a reference that wasn't looked at since. In time of the workers.
    pub fn has_found(&self) -> bool
        ensures { result ≡ not (is_empty (joined self.now.found)) }
    {
        self.found.iter().any(|list| list.first != 0)
    }

    /// One more in a list of the layer above, last; its last is none of what workers found. In logarithmic time.
    #[inline(always)]
    pub fn list_last(&mut self, chain: &mut Chain, no: ObjNo)
        requires { (chain.old.first == 0) ≡ false → has (joined self.old.found) chain.old.last ≡ false }
        ensures links { self.new ≡ record self.old { tags = linked_last self.old.tags chain.old no } }
        ensures chain { chain.new ≡ chain_with chain.old no }
    {
        chain.push(&mut self.objects, no);
    }

    /// Whether an object is doomed that isn't swept. In constant time.
    pub fn has_doomed(&self) -> bool
        ensures { result ≡ not (is_empty (doomed self.now)) }
    {
        self.is_past_mark() && self.objects.unmarked_count() > 0
    }

    /// In Sweeping, frees the doomed object of this entry, as `Objects::free` does. True where it was doomed, and then
    /// nobody holds it; else nothing changes. In constant time where the object lies at the entry's place, as what
    /// `to_sweeping` listed does, and else by one search.
    #[inline(always)]
    pub fn free(&mut self, entry: Entry) -> bool
        ensures answer { result ≡ is_swept self.old entry.no }
        ensures after { self.new ≡ swept self.old entry.no }
    {
        // Gives the proof that nobody holds what is condemned.
        known(&self.objects);
        self.objects.free(entry)
    }

    /// Clearing ends: what isn't marked is condemned, as `Objects::condemn` does. The layer above has looked at all
    /// that was found, and nothing that is marked, no slot and no hold refers to what isn't. Just the doomed stand in
    /// the list then, in order of number. In time of the objects, and of those that were freed since gaps were closed
    /// last.
    pub fn to_sweeping(&mut self, condemned: &mut Worklist<A>)
        requires clearing { is_in self.old.phase Phase.Clearing ≡ true }
        requires found { is_empty (joined self.old.found) ≡ true }
        requires closed { IsClosed self.old.heap (has self.old.marked) }
        requires room { length self.old.heap.objects ≤ condemned.old.room }
        ensures after { self.new ≡ sweep_begun self.old }
        ensures list { condemned.new ≡
            with_more (emptied_list condemned.old) (unmarked self.old.heap.objects self.old.marked) }
    {
        self.objects.condemn(condemned);
        self.phase = Phase::Sweeping;
    }

    /// The cycle ends, and what was chosen to move before it; the gaps that freed objects left are closed where they
    /// are many. It is in Sweeping, nothing doomed is left, and so each object is healed. In time of the objects that
    /// are there, of those that were freed, and of the pages.
    pub fn to_idle(&mut self)
        requires sweeping { is_in self.old.phase Phase.Sweeping ≡ true }
        requires swept { is_empty (doomed self.old) ≡ true }
        requires healed { self.old.space.unhealed ≡ [] }
        ensures { self.new ≡ cycle_ended self.old }
    {
        self.objects.end_cycle();
        self.objects.end_moves();
        self.phase = Phase::Idle;
    }

    // Whether a mark has ended, and its cycle hasn't.
    pub(super) fn is_past_mark(&self) -> bool
        ensures { result ≡ is_past_mark self.now.phase }
    {
        match self.phase {
            Phase::Clearing | Phase::Sweeping => true,
            Phase::Idle | Phase::Marking | Phase::Moving => false,
        }
    }
}
