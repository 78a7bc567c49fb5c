//! The cleaner that threads share.

ghost use Rattle.std.specs.Prelude.{◌≡◌, IfOk, IfErr, OnErr, Err};
ghost use Rattle.ref_base.specs.declared.fault.Fault.TheVariants.{NoMemory};
ghost use Rattle.ref_share.specs.CleanSeats.{clean_view, IsCleanSeat, IsFirstCleanSeat, LeavesTable};
ghost use Rattle.ref_share.specs.CleanMachines.{IsCleanTurn};
ghost use Rattle.ref_share.specs.Selves.{IsItself};
ghost use Rattle.ref_turn.specs.Seats.{IsLeftOpen};

use crate::endings::end_empty;
use crate::{CleanMachine, SeatFor, Shared, Task};
use ref_base::{Fault, QueueNo};
use ref_objects::Hold;
use ref_queue::{CleanTable, Job};
use ref_turn::Turn;
use std::alloc::{Allocator, Global};

/// A cleaner that threads share: the jobs that are registered, each to run once its object is gone. A job is any
/// `Task`. A cleaner has one queue of its heap, whose notices tell which objects that are. It must be ended by
/// `finish`, since the holds that it keeps must be given back.
///
/// As `java.lang.ref.Cleaner` of Java SE 17; but its threads are the program's own, each in a `clean_loop`.
pub type SharedCleaner<J = Job, A = Global> = Shared<CleanMachine<Hold, J, A>, A>;

/// What one thread uses a shared cleaner with.
pub type CleanSeat<J = Job, A = Global> = SeatFor<CleanMachine<Hold, J, A>>;

impl<J: Task, A: Allocator + Copy> SharedCleaner<J, A> {
    /// A cleaner that is told by this queue which objects are gone, without jobs, and its first seat. The one refusal
    /// is `NoMemory`.
    pub fn new(alloc: A, queue: QueueNo) -> Result<(Self, CleanSeat<J, A>), Fault>
        ensures made { IfOk result (λ made. (made.0.frame ≡ queue) × IsFirstCleanSeat made.0 0 made.1) }
        ensures err { OnErr result (result ≡ Err NoMemory) }
    {
        Self::starting(alloc, queue, 0)
    }

    /// A cleaner as `new` makes it, whose turns are counted from `first` on: `u64::MAX - first` of them can be made.
    pub fn starting(alloc: A, queue: QueueNo, first: u64) -> Result<(Self, CleanSeat<J, A>), Fault>
        ensures made { IfOk result (λ made. (made.0.frame ≡ queue) × IsFirstCleanSeat made.0 first made.1) }
        ensures err { OnErr result (result ≡ Err NoMemory) }
    {
        let machine = CleanMachine {
            table: CleanTable::new(alloc),
        };
        match Turn::starting(alloc, machine, first) {
            Ok((turn, seat)) => {
                let number = u64::from(queue.0);
                Ok((Shared { turn, frame: queue }, SeatFor { seat, number }))
            }
            Err((fault, machine)) => {
                end_empty(machine.into_table());
                Err(fault)
            }
        }
    }

    /// The queue whose notices tell which objects are gone. Takes no turn.
    pub fn queue(&self) -> QueueNo
        ensures { result ≡ self.now.frame }
    {
        self.frame
    }

    /// Gives the table back, with what is still registered. Where a turn is open, which is only while another thread is
    /// in a call, what the slot of the turn held comes back.
    pub fn finish(
        self,
        seat: CleanSeat<J, A>,
    ) -> Result<CleanTable<Hold, J, A>, Option<CleanTable<Hold, J, A>>>
        requires { IsCleanSeat self seat }
        ensures ok { IfOk result (λ table. LeavesTable (clean_view seat) table) }
        ensures err { IfErr result (λ _. IsLeftOpen IsItself IsCleanTurn (clean_view seat)) }
    {
        match self.end(seat) {
            Ok(machine) => Ok(machine.into_table()),
            Err(Some(machine)) => Err(Some(machine.into_table())),
            Err(None) => Err(None),
        }
    }
}
