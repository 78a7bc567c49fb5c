//! A world that can be dropped, so that it may stand behind a pointer.

ghost use Rattle.std.specs.Prelude.{◌≡◌, MatchResult, Ok, Err};
ghost use Rattle.ref_base.specs.Collectors.{first_state};
ghost use Rattle.ref_objects.specs.Grounds.{IsMade};
ghost use Rattle.ref_world.specs.Cores.{first_core};
ghost use Rattle.ref_world.specs.Standing.{Stands};
ghost use Rattle.ref_c.specs.StepNumbers.{numbered_step};
ghost use Rattle.ref_c.specs.ToldSteps.{TellsAnswer};
ghost use Rattle.ref_c.specs.WorldSteps.{Answers, first_refusal, is_object_of};
ghost use Rattle.ref_c.specs.declared.answer.Answer.{Answer};

use crate::answer::{Answer, RefReply, numbers_of};
use crate::list::list_reply;
use crate::step::{RefStep, step_of};
use ref_base::{Config, Fault, ObjNo};
use ref_world::World;
use std::alloc::Global;

/// A world that is ended as it is dropped.
pub struct Kept {
    pub world: World<Global>,
}

impl Kept {
    /// A world without objects, in a box. Tried in this order: `BadConfig`, `NoMemory`.
    pub fn new(alloc: Global, config: Config) -> Result<Box<Kept>, Fault>
        ensures { MatchResult result
            (λ kept. IsMade (first_refusal config) (first_core config) (Ok kept.value.world)
            × Stands kept.value.world (first_state config))
            (λ fault. IsMade (first_refusal config) (first_core config) (Err fault)) }
    {
        let world = World::new(alloc, config)?;
        match Box::new(alloc, Kept { world }) {
            Ok(kept) => Ok(kept),
            Err(_refused) => Err(Fault::NoMemory),
        }
    }

    /// Does the step of these numbers, if they are one, and tells its answer. What it lists goes behind so many places
    /// of the list that are used: how many are used then. In the time and memory of `World::step`.
    pub fn tell(
        &mut self,
        numbers: &RefStep,
        reply: &mut RefReply,
        list: &mut [u64],
        used: usize,
    ) -> usize
        ensures { (answer : Answer) × Answers self.old (numbered_step numbers.now) answer self.new
            × TellsAnswer answer reply.new list.old used list.new result }
    {
        match step_of(numbers) {
            Some(step) => {
                let told = self.world.step(step);
                *reply = numbers_of(&told);
                list_reply(&told, list, used)
            }
            None => {
                *reply = Answer::NoStep.numbers();
                used
            }
        }
    }

    /// Whether an object of this number is there. In logarithmic time. Takes no memory.
    pub fn is_there(&self, object: ObjNo) -> bool
        ensures { result ≡ is_object_of self.now object }
    {
        self.world.is_there(object)
    }
}

impl Drop for Kept {
    fn drop(self) {
        let Kept { world } = self;
        world.end();
    }
}
