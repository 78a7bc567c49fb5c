//! Moves of a heap's objects, by which pages with few of them become empty: which objects are to move, and how they do.

ghost use Rattle.std.specs.Prelude.{◌≡◌, [], true, false, not};
ghost use Rattle.std.specs.Option.{IfSome};
ghost use Rattle.ref_base.specs.Graphs.{is_there};
ghost use Rattle.ref_base.specs.Refusals.{is_empty};
ghost use Rattle.ref_space.specs.Worklists.{first_in};
ghost use Rattle.ref_objects.specs.Grounds.{choice_in, with_choice, brought, with_choice_ended};

use super::{Objects, known};
use crate::stage::Stage;
use ref_base::{Fault, ObjNo};
use ref_space::Colour;
use std::alloc::Allocator;

impl<A: Allocator + Copy> Objects<A> {
    /// Chooses all pages that have from 1 to 32 objects: those are to move, and it answers how many. Tried in this
    /// order: `NoRoom` exactly where there are fewer than two such pages, as always before the first cycle;
    /// `AddressesSpent` where fewer new addresses are left. Nothing is condemned, no object is unhealed, and since a
    /// cycle last ended none was chosen. In time of the pages, and of what is to move.
    pub fn select(&mut self) -> Result<u32, Fault>
        requires spared { self.old.condemning ≡ false }
        requires healed { self.old.space.unhealed ≡ [] }
        requires moved { self.old.space.still_to_move ≡ [] }
        requires ended { self.old.space.has_choice ≡ false }
        ensures answer { result ≡ choice_in self.old.space }
        ensures after { self.new ≡ record self.old { space = with_choice self.old.space } }
    {
        // Gives the proof that there are no more objects than fit, and of where they lie.
        known(&self.table);
        // Nothing has died: at most one page has neither no object nor 64.
        if self.stage == Stage::Fresh {
            return Err(Fault::NoRoom);
        }
        let count = self.table.select()?;
        self.stage = Stage::Moved;
        self.has_choice = true;
        Ok(count as u32)
    }

    /// Moves the next object that is to move, and answers it: none where none is left. In logarithmic time.
    pub fn move_next(&mut self) -> Option<ObjNo>
        ensures answer { result ≡ first_in self.old.space.still_to_move }
        ensures there { IfSome result (λ no. is_there self.old.heap.objects no ≡ true) }
        ensures after { self.new ≡ record self.old { space = brought self.old.space result } }
    {
        self.table.move_next()
    }

    /// The colour of the last cycle that began: at first, of the count of cycles so far. In constant time.
    pub fn last_colour(&self) -> Colour
        ensures { result ≡ self.now.space.last }
    {
        self.last
    }

    /// What last changed the good colour. In constant time.
    pub fn stage(&self) -> Stage
        ensures { result ≡ self.now.space.stage }
    {
        self.stage
    }

    /// Whether objects were chosen to move since a cycle last ended. In constant time.
    pub fn has_choice(&self) -> bool
        ensures { result ≡ self.now.space.has_choice }
    {
        self.has_choice
    }

    /// Whether an object is still to move. In constant time, but for the chosen pages that were left since the last
    /// call of `move_next`.
    pub fn has_left(&self) -> bool
        ensures { result ≡ not (is_empty self.now.space.still_to_move) }
    {
        self.table.has_left()
    }

    /// Ends a choice, with the cycle: the chosen pages, which are empty, are open again at new addresses, and where
    /// objects lay before isn't told any more. Nothing is condemned, and no object is unhealed; a cycle was the last to
    /// make a colour good. In time of the pages.
    pub fn end_moves(&mut self)
        requires spared { self.old.condemning ≡ false }
        requires healed { self.old.space.unhealed ≡ [] }
        requires tuned { self.old.space.stage ≡ Stage.Tuned }
        ensures { self.new ≡ record self.old { space = with_choice_ended self.old.space } }
    {
        // Gives the proof that no object is still to move.
        known(&self.table);
        self.table.renumber();
        self.has_choice = false;
    }
}
