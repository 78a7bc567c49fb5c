//! The world in which a script is played while it is drawn.

use ref_base::{Config, Fault, MutNo, ObjNo, PlainStep, Reply, SlotNo, Step};
use ref_script::ScriptStep;
use ref_world::World;
use std::alloc::{AllocError, Allocator};

/// How many jobs a script has.
const JOBS: u32 = 64;

/// A job that was registered.
#[derive(Clone, Copy)]
struct Registered {
    number: u32,
    reference: ObjNo,
    has_run: bool,
}

/// A world, and the jobs that were registered beside it. It must be ended by `end`.
pub struct Rehearsal<A: Allocator> {
    world: World<A>,
    jobs: Vec<Registered, A>,
}

impl<A: Allocator + Copy> Rehearsal<A> {
    /// One in which nothing was played.
    pub fn new(alloc: A, config: Config) -> Result<Self, AllocError> {
        let jobs = Vec::new(alloc);
        // The configuration is within its limits, so that only memory can be wanting.
        match World::new(alloc, config) {
            Ok(world) => Ok(Rehearsal { world, jobs }),
            Err(_) => Err(AllocError),
        }
    }

    /// Plays a step. Of a step of jobs the answer says whether it was done, did nothing or was refused. Where a put
    /// finds no memory there is none.
    pub fn play(&mut self, step: ScriptStep) -> Result<Reply, AllocError> {
        let reply = match step {
            ScriptStep::World(step) => self.world.step(step),
            ScriptStep::Job {
                mutator,
                slot,
                number,
            } => match self.world.ref_in(mutator, slot) {
                Ok(reference) => self.register(reference, number)?,
                Err(fault) => Reply::Refused(fault),
            },
            ScriptStep::Run { mutator, slot } => match self.world.ref_in(mutator, slot) {
                Ok(reference) => self.run(reference, mutator, slot),
                Err(fault) => Reply::Refused(fault),
            },
        };
        if found_no_memory(&reply) {
            return Err(AllocError);
        }
        Ok(reply)
    }

    fn register(&mut self, reference: ObjNo, number: u32) -> Result<Reply, AllocError> {
        if number >= JOBS {
            return Ok(Reply::Nothing);
        }
        for job in self.jobs.as_slice() {
            if job.number == number {
                return Ok(Reply::Nothing);
            }
        }
        for job in self.jobs.as_slice() {
            if job.reference == reference && !job.has_run {
                return Ok(Reply::Refused(Fault::RegisteredTwice));
            }
        }
        self.jobs.push(Registered {
            number,
            reference,
            has_run: false,
        })?;
        Ok(Reply::Done)
    }

    fn run(&mut self, reference: ObjNo, mutator: MutNo, slot: SlotNo) -> Reply {
        for job in self.jobs.as_mut_slice() {
            if job.reference == reference && !job.has_run {
                job.has_run = true;
                return self.world.step(Step::Plain(PlainStep::Clear {
                    mutator,
                    reference: slot,
                }));
            }
        }
        Reply::Nothing
    }

    /// Gives the world up.
    pub fn end(self) {
        let Rehearsal { world, jobs } = self;
        world.end();
        drop(jobs);
    }
}

/// Whether memory was refused.
fn found_no_memory(reply: &Reply) -> bool {
    match reply {
        Reply::Refused(Fault::NoMemory) => true,
        Reply::Outs(outs) => outs.as_slice().iter().any(|done| done.is_refused()),
        _ => false,
    }
}
