//! What the steps of a script run on: a world, and beside it a cleaner's table and the jobs for it.

ghost use Rattle.std.specs.Prelude.{◌≡◌, ◌≢◌, ◌<◌, ◌==◌, Some, None, All, MatchOption, length, HoldsAt};
ghost use Rattle.ref_base.specs.Heaps.{slot_at};
ghost use Rattle.ref_base.specs.Refusals.{clear_refusal};
ghost use Rattle.refrun.specs.ScriptRuns.{RegistersStageJob};
ghost use Rattle.refrun.specs.ScriptStanding.{IsScriptRowOf, jobs};
ghost use Rattle.ref_world.specs.WorldHeaps.{model_heap};

use crate::script_job::ScriptJob;
use ref_base::{MutNo, ObjNo, PlainStep, Reply, SlotNo, Step};
use ref_queue::CleanTable;
use ref_script::{ScriptReply, ScriptStep};
use ref_world::World;
use std::alloc::Allocator;

/// A world, a cleaner's table, and the jobs that were never registered in it, in any order.
pub struct Stage<J, A: Allocator> {
    pub world: World<A>,
    pub table: CleanTable<(), J, A>,
    pub left: Vec<J, A>,
}

impl<J: ScriptJob, A: Allocator + Copy> Stage<J, A> {
    /// Does one step, and answers it.
    #[inline(always)]
    pub fn step(&mut self, step: ScriptStep) -> ScriptReply
        ensures { IsScriptRowOf J.number_of J.note_of self.old.world (jobs self.old.table self.old.left.items) step
            result self.new.world (jobs self.new.table self.new.left.items) }
    {
        match step {
            ScriptStep::World(step) => ScriptReply::World(self.world.step(step)),
            ScriptStep::Job {
                mutator,
                slot,
                number,
            } => match self.world.ref_in(mutator, slot) {
                Ok(object) => self.register(object, number),
                Err(fault) => ScriptReply::World(Reply::Refused(fault)),
            },
            ScriptStep::Run { mutator, slot } => match self.world.ref_in(mutator, slot) {
                Ok(object) => self.run(object, mutator, slot),
                Err(fault) => ScriptReply::World(Reply::Refused(fault)),
            },
        }
    }

    /// Registers the job of this number for the object, if that job is left.
    fn register(&mut self, object: ObjNo, number: u32) -> ScriptReply
        ensures world { self.new.world ≡ self.old.world }
        ensures answer { RegistersStageJob J.number_of object number (jobs self.old.table self.old.left.items) result
            (jobs self.new.table self.new.left.items) }
    {
        let Some(index) = index_of(self.left.as_slice(), u64::from(number)) else {
            return ScriptReply::Used;
        };
        let job = self.left.swap_remove(index);
        match self.table.register(object, (), job) {
            Ok(()) => ScriptReply::Registered,
            Err((fault, (), job)) => {
                // It has its room from before.
                self.left.push_reserved(job);
                ScriptReply::World(Reply::Refused(fault))
            }
        }
    }

    /// Takes the job of the object, which is the reference in the slot, clears the reference, and runs the job. Where
    /// it has none, nothing changes.
    fn run(&mut self, object: ObjNo, mutator: MutNo, reference: SlotNo) -> ScriptReply
        requires refused { clear_refusal (model_heap self.old.world.heap) mutator reference ≡ None }
        requires held { slot_at (model_heap self.old.world.heap) mutator reference ≡ Some object }
        ensures { IsScriptRowOf J.number_of J.note_of self.old.world (jobs self.old.table self.old.left.items)
            (ScriptStep.Run mutator reference) result self.new.world (jobs self.new.table self.new.left.items) }
    {
        match self.table.take(object) {
            None => ScriptReply::Gone,
            Some(((), job)) => {
                let _ = self
                    .world
                    .step(Step::Plain(PlainStep::Clear { mutator, reference }));
                ScriptReply::Ran(job.run())
            }
        }
    }

    /// Gives all of it up. No job is run.
    pub fn end(self) {
        let Stage { world, table, left } = self;
        world.end();
        end_table(table);
        drop(left);
    }
}

/// The place of the job of this number.
fn index_of<J: ScriptJob>(jobs: &[J], number: u64) -> Option<usize>
    ensures { MatchOption result (All (λ job. J.number_of job ≢ number) jobs.now)
        (λ i. (i < length jobs.now) × HoldsAt (λ job. J.number_of job ≡ number) jobs.now i) }
{
    jobs.iter().position(
        |job: &J|
            ensures { result ≡ (J.number_of job.now == number) }
        { job.number() == number },
    )
}

/// Drops each job of a table, and ends the table.
fn end_table<J: ScriptJob, A: Allocator + Copy>(table: CleanTable<(), J, A>) {
    let mut table = table;
    while let Some((_, (), _job)) = table.take_any() {}
    match table.end() {
        Ok(()) => {}
        Err(_table) => unreachable!(),
    }
}
