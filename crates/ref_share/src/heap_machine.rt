//! The heap as a machine of turns.

use crate::shared_heap::HeapFrame;
use ref_turn::Machine;
use ref_world::{HeapAnswer, HeapCall, WorldHeap, apply_heap};
use std::alloc::{Allocator, Global};
use std::marker::Model;

/// A heap, whose turns are its steps. Its relation is that of the heap's own machine (`IsHeapRow` of `ref_base`).
#[derive(Drop)]
pub struct HeapMachine<A: Allocator = Global> {
    pub(crate) heap: WorldHeap<A>,
}

impl<A: Allocator> Model for HeapMachine<A> {
    ghost use Rattle.ref_clear.specs.ClearHeaps.{ClearHeap};

    ghost Value = { ClearHeap };

    ghost view = { λ m. m.heap };
}

impl<A: Allocator + Copy> Machine for HeapMachine<A> {
    ghost use Rattle.ref_base.specs.Collectors.{State, first_state_of};
    ghost use Rattle.ref_clear.specs.Standing.{HeapStands};
    ghost use Rattle.ref_share.specs.HeapMachines.{IsHeapTurn, Acts};
    ghost use Rattle.ref_share.specs.HeapTurns.{acts_as_a_row};

    type Step = HeapCall<A>;

    type Reply = HeapAnswer<A>;

    type Frame = HeapFrame;

    ghost State = { State };

    ghost stands_for = { HeapStands };

    ghost first_state = { λ f. first_state_of f.config f.heap_no };

    ghost steps_to = { IsHeapTurn };

    ghost acts = { Acts };

    #[inline(always)]
    fn apply(&mut self, step: HeapCall<A>) -> HeapAnswer<A> {
        apply_heap(&mut self.heap, step)
    }

    ghost follows = { acts_as_a_row };
}
