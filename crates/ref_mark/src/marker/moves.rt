//! Moves, which go on while mutators run and no cycle does: their begin, the moves of workers, and their end.

ghost use Rattle.std.specs.Prelude.{◌≡◌};
ghost use Rattle.ref_base.specs.Refusals.{select_refusal};
ghost use Rattle.ref_base.specs.declared.heap_step.HeapStep.TheVariants.{Plain};
ghost use Rattle.ref_base.specs.declared.plain_step.PlainStep.TheVariants.{EndMove, MoveNext, Select};
ghost use Rattle.ref_objects.specs.Grounds.{IsRefused};
ghost use Rattle.ref_mark.specs.MarkCalls.{MarkerDoes, reply_of, done_reply, moved_reply};

use super::Marker;
use ref_base::{Fault, ObjNo, Phase, Reply, WorkerNo};
use std::alloc::Allocator;

impl<A: Allocator + Copy> Marker<A> {
    /// Chooses the objects of all pages that have from 1 to 32 of them: those move in the phase that begins, and it
    /// answers how many they are. Tried in this order: `WrongPhase` but between cycles, and where objects were chosen
    /// since a cycle last ended; `NoRoom` where there are fewer than two such pages; `AddressesSpent` where fewer new
    /// addresses are left. In time of the pages.
    pub fn select(&mut self) -> Result<u32, Fault>
        ensures { MarkerDoes self.old (Plain Select) (reply_of Reply.Selected result) self.new }
    {
        self.check_select()?;
        let count = self.objects.select()?;
        self.phase = Phase::Moving;
        Ok(count)
    }

    /// Moves the next object that is to move, for this worker, and answers it: none where none is left. Tried in this
    /// order: `NoSuchActor`, `WrongPhase`. In logarithmic time.
    pub fn move_next(&mut self, worker: WorkerNo) -> Result<Option<ObjNo>, Fault>
        ensures { MarkerDoes self.old (Plain (MoveNext worker)) (reply_of moved_reply result) self.new }
    {
        self.check_work(worker, Phase::Moving)?;
        Ok(self.objects.move_next())
    }

    /// Ends moves. Tried in this order: `WrongPhase`, `MovesLeft` while an object is still to move. In constant time.
    pub fn end_move(&mut self) -> Result<(), Fault>
        ensures { MarkerDoes self.old (Plain EndMove) (reply_of done_reply result) self.new }
    {
        if self.phase != Phase::Moving {
            return Err(Fault::WrongPhase);
        }
        if self.objects.has_left() {
            return Err(Fault::MovesLeft);
        }
        self.phase = Phase::Idle;
        Ok(())
    }

    // Why a choice is refused, before it is tried.
    fn check_select(&self) -> Result<(), Fault>
        ensures { IsRefused (select_refusal self.now.phase self.now.space.has_choice) result }
    {
        if self.phase != Phase::Idle || self.objects.has_choice() {
            return Err(Fault::WrongPhase);
        }
        Ok(())
    }
}
