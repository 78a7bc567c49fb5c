//! The heap that threads share.

ghost use Rattle.std.specs.Prelude.{◌≡◌, IfOk, IfErr};
ghost use Rattle.ref_objects.specs.Grounds.{starting_refusal};
ghost use Rattle.ref_clear.specs.ClearHeaps.{ClearHeap};
ghost use Rattle.ref_clear.specs.Standing.{HeapStands};
ghost use Rattle.ref_turn.specs.Seats.{IsLeftOpen};
ghost use Rattle.ref_turn.specs.declared.turn.TurnFault.TheVariants as faults;
ghost use Rattle.ref_share.specs.HeapMachines.{Acts, IsHeapTurn};
ghost use Rattle.ref_share.specs.SeatCalls.{Called, RanOut, IsTryFault, MakesUnless};
ghost use Rattle.ref_share.specs.HeapSeats.{heap_view, IsHeapSeat, IsNewHeap, LeavesHeap};

use crate::{HeapMachine, SeatFor, Shared};
use ref_base::{Config, Fault};
use ref_turn::{Turn, TurnFault};
use ref_world::{HeapAnswer, HeapCall, WorldHeap};
use std::alloc::{Allocator, Global};
use std::sync::Wait;

/// A heap that threads share. A mutator's thread, a worker's and a poller's each have a seat of their own, and each
/// call is one turn: one step of the heap.
///
/// All its memory is taken as it is made.
pub type SharedHeap<A = Global> = Shared<HeapMachine<A>, A>;

/// What one thread uses a shared heap with.
pub type HeapSeat<A = Global> = SeatFor<HeapMachine<A>>;

/// What a shared heap was made with.
#[derive(Drop)]
pub struct HeapFrame {
    pub(crate) config: Config,
    pub(crate) heap_no: u64,
}

impl<A: Allocator + Copy> SharedHeap<A> {
    /// A heap without objects, between cycles, and its first seat. Heaps of one program have distinct numbers, by the
    /// caller. Tried in this order: `BadConfig`, `NoMemory`.
    pub fn new(alloc: A, config: Config, heap_no: u64) -> Result<(Self, HeapSeat<A>), Fault>
        ensures made { IfOk result (λ made. IsNewHeap made.0 config heap_no 0 made.1) }
        ensures refused { MakesUnless (starting_refusal config (record { obj = 1; cycle = 0; page = 1 })) result }
    {
        Self::starting(alloc, config, heap_no, 0)
    }

    /// A heap as `new` makes it, whose turns are counted from `first` on: `u64::MAX - first` of them can be made.
    pub fn starting(
        alloc: A,
        config: Config,
        heap_no: u64,
        first: u64,
    ) -> Result<(Self, HeapSeat<A>), Fault>
        ensures made { IfOk result (λ made. IsNewHeap made.0 config heap_no first made.1) }
        ensures refused { MakesUnless (starting_refusal config (record { obj = 1; cycle = 0; page = 1 })) result }
    {
        let heap = WorldHeap::new(alloc, config, heap_no)?;
        match Turn::starting(alloc, HeapMachine { heap }, first) {
            Ok((turn, seat)) => {
                let frame = HeapFrame { config, heap_no };
                Ok((
                    Shared { turn, frame },
                    SeatFor {
                        seat,
                        number: heap_no,
                    },
                ))
            }
            Err((fault, _)) => Err(fault),
        }
    }

    /// What it was made with. Takes no turn.
    pub fn config(&self) -> Config
        ensures { result ≡ self.now.frame.config }
    {
        self.frame.config
    }

    /// Does one step of the heap, once the turn is free. The one refusal is `Spent`, where no turn is left. Takes no
    /// memory.
    #[inline(always)]
    pub fn call<R: Wait>(
        &self,
        rt: &R,
        seat: &mut HeapSeat<A>,
        step: HeapCall<A>,
    ) -> Result<HeapAnswer<A>, TurnFault<HeapCall<A>>>
        requires { IsHeapSeat self.now seat.old }
        ensures seat { IsHeapSeat self.now seat.new }
        ensures ok { IfOk result (λ reply. Called (heap_view seat.old) step reply (heap_view seat.new)) }
        ensures acted { IfOk result (λ reply. (c d : ClearHeap) × Acts c step reply d) }
        ensures err { IfErr result (λ fault. (fault ≡ faults.Spent step)
            × RanOut (heap_view seat.old) (heap_view seat.new)) }
    {
        self.step(rt, seat, step)
    }

    /// Makes the call at once or not at all: `Busy` where another turn is open, or took this one. `Spent` comes before.
    pub fn try_call(
        &self,
        seat: &mut HeapSeat<A>,
        step: HeapCall<A>,
    ) -> Result<HeapAnswer<A>, TurnFault<HeapCall<A>>>
        requires { IsHeapSeat self.now seat.old }
        ensures seat { IsHeapSeat self.now seat.new }
        ensures ok { IfOk result (λ reply. Called (heap_view seat.old) step reply (heap_view seat.new)) }
        ensures acted { IfOk result (λ reply. (c d : ClearHeap) × Acts c step reply d) }
        ensures err { IfErr result (λ fault. IsTryFault (heap_view seat.old) step fault (heap_view seat.new)) }
    {
        self.try_step(seat, step)
    }

    /// Gives the heap back. Where a turn is open, which is only while another thread is in a call, what the slot of the
    /// turn held comes back.
    pub fn finish(self, seat: HeapSeat<A>) -> Result<WorldHeap<A>, Option<WorldHeap<A>>>
        requires { IsHeapSeat self seat }
        ensures ok { IfOk result (λ heap. LeavesHeap self (heap_view seat) heap) }
        ensures err { IfErr result (λ _. IsLeftOpen HeapStands IsHeapTurn (heap_view seat)) }
    {
        match self.end(seat) {
            Ok(machine) => Ok(machine.heap),
            Err(Some(machine)) => Err(Some(machine.heap)),
            Err(None) => Err(None),
        }
    }
}
