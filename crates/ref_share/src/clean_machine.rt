//! A cleaner's table as a machine of turns.

use ref_base::{Fault, ObjNo, QueueNo};
use ref_queue::CleanTable;
use ref_turn::Machine;
use std::alloc::{Allocator, Global};
use std::marker::Model;

/// One step of a cleaner's table.
pub enum CleanStep<K, J> {
    /// Registers a job for the object, with what is kept beside it.
    Register(ObjNo, K, J),
    /// Takes the object's job out.
    Take(ObjNo),
    /// Looks whether the object has a job.
    Has(ObjNo),
}

/// What a step of a table answers: just what the table's own call does.
pub enum CleanReply<K, J> {
    /// To a register.
    Registered(Result<(), (Fault, K, J)>),
    /// To a take.
    Taken(Option<(K, J)>),
    /// To a look.
    Looked(bool),
}

/// A cleaner's table, whose turns are its steps.
pub struct CleanMachine<K, J, A: Allocator = Global> {
    pub(crate) table: CleanTable<K, J, A>,
}

impl<K, J, A: Allocator> Model for CleanMachine<K, J, A> {
    ghost use Rattle.ref_queue.specs.CleanTables.{Registry, registry_code};

    ghost Value = { Registry K J };

    ghost coded = { registry_code K.code J.code };

    ghost view = { λ m. m.table };
}

impl<K, J, A: Allocator> CleanMachine<K, J, A> {
    ghost use Rattle.std.specs.Prelude.{◌≡◌};

    // The table alone.
    pub(crate) fn into_table(self) -> CleanTable<K, J, A>
        ensures { result ≡ self }
    {
        let CleanMachine { table } = self;
        table
    }
}

impl<K, J, A: Allocator + Copy> Machine for CleanMachine<K, J, A> {
    ghost use Rattle.ref_queue.specs.CleanTables.{Registry, new_registry};
    ghost use Rattle.ref_share.specs.CleanMachines.{IsCleanTurn};
    ghost use Rattle.ref_share.specs.Selves.{IsItself, steps_as_it_acts};

    type Step = CleanStep<K, J>;

    type Reply = CleanReply<K, J>;

    type Frame = QueueNo;

    ghost State = { Registry K J };

    ghost stands_for = { IsItself };

    ghost first_state = { λ queue. new_registry };

    ghost steps_to = { IsCleanTurn };

    ghost acts = { IsCleanTurn };

    #[inline(always)]
    fn apply(&mut self, step: CleanStep<K, J>) -> CleanReply<K, J> {
        match step {
            CleanStep::Register(object, kept, job) => {
                CleanReply::Registered(self.table.register(object, kept, job))
            }
            CleanStep::Take(object) => CleanReply::Taken(self.table.take(object)),
            CleanStep::Has(object) => CleanReply::Looked(self.table.has(object)),
        }
    }

    ghost follows = { steps_as_it_acts IsCleanTurn };
}
