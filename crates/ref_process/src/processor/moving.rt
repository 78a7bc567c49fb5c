//! Objects that move.

ghost use Rattle.std.specs.Prelude.{◌≡◌, IfErr, OnOk, OnErr, Some, None};
ghost use Rattle.ref_process.specs.Relocations.{relocation_refusal, after_relocation};

use crate::{Moves, Phase, ProcessFault, Processor};
use std::alloc::Allocator;

impl<A: Allocator + Copy> Processor<A> {
    /// Objects have moved: each owner and each referent becomes what this says. Keys, notices and all else stay.
    /// `WrongPhase` but in Idle: then nothing has changed. Takes no memory. In time of the places.
    pub fn relocate<M: Moves>(&mut self, moves: &M) -> Result<(), ProcessFault>
        ensures allowed { OnOk result (relocation_refusal self.old ≡ None) }
        ensures after { OnOk result (self.new ≡ after_relocation (M.moved_to moves.now) self.old) }
        ensures refused { IfErr result (λ fault. relocation_refusal self.old ≡ Some fault) }
        ensures unchanged { OnErr result (self.new ≡ self.old) }
    {
        if self.phase != Phase::Idle {
            return Err(ProcessFault::WrongPhase);
        }
        self.places.relocate(moves);
        Ok(())
    }
}
