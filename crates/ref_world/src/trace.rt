//! A run: a list of steps in, a trace out.

ghost use Rattle.std.specs.Prelude.{◌≡◌, IfOk, IfErr};
ghost use Rattle.ref_base.specs.Collectors.{first_state};
ghost use Rattle.ref_base.specs.LegalTraces.{IsLegal};
ghost use Rattle.ref_base.specs.declared.config.Config.{Config};
ghost use Rattle.ref_world.specs.Headline.{TakenThenStanding, QueuesTell, Positions, InClearingOrder, AtMostOnce};
ghost use Rattle.ref_world.specs.Headline.{OwnQueue, OwnEnqueueCall, AfterAMarkEnded, NothingAfterClose, ScannedOnce};
ghost use Rattle.ref_world.specs.HeapOfRows.{HeapTells};
ghost use Rattle.ref_world.specs.InsideHeaps.{DoesEach};
ghost use Rattle.ref_world.specs.Runs.{RunsFrom, steps_of};
ghost use Rattle.ref_world.specs.Standing.{Stands};

use crate::World;
use ref_base::{Fault, Reply, Row, Step};
use std::alloc::{Allocator, Global};

/// A trace: a row for each step, and the world that the steps left.
pub struct Trace<A: Allocator = Global> {
    /// One row for each step, in order.
    pub rows: Vec<Row, A>,
    /// The world after the last of them. It must be ended.
    pub world: World<A>,
}

/// Does these steps, in order, and answers each. The one error is `NoMemory`, where there is no room for the rows: no
/// step was done then, and world and steps come back. Takes that room at once, and else what the puts take.
///
/// Of a new world the rows are a legal trace, and what was taken from a queue, followed by what stands in it, is what
/// was put in, in each worker's clearing order. A reference is put in at most once, only into its own queue, after its
/// own enqueue call or after a mark ended with its referent outside every kept path. Nothing is put in after close.
pub fn run<A: Allocator + Copy>(
    alloc: A,
    world: World<A>,
    steps: Vec<Step, A>,
) -> Result<Trace<A>, (Fault, World<A>, Vec<Step, A>)>
    // One row for each step, in order.
    ensures steps { IfOk result (λ trace. steps_of trace.rows.items ≡ steps.items) }

    // From each state that the world stands for, the rows are a run of the abstract collector.
    ensures run { IfOk result (λ trace. RunsFrom world trace.rows.items trace.world) }

    // And the heap inside does, row by row, what its own calls do.
    ensures does { IfOk result (λ trace. DoesEach world trace.rows.items trace.world) }
    ensures refused { IfErr result (λ refused. refused.0 ≡ Fault.NoMemory) }
    ensures back { IfErr result (λ refused. (refused.1 ≡ world) × (refused.2 ≡ steps)) }

    // Of a new world.
    ensures legal { (config : Config) → Stands world (first_state config)
        → IfOk result (λ trace. IsLegal config trace.rows.items) }
    ensures taken_then_standing { (config : Config) → Stands world (first_state config)
        → IfOk result (λ trace. TakenThenStanding trace.rows.items trace.world) }
    ensures queues { (config : Config) → Stands world (first_state config)
        → IfOk result (λ trace. QueuesTell trace.rows.items trace.world) }
    ensures positions { (config : Config) → Stands world (first_state config)
        → IfOk result (λ trace. Positions config trace.rows.items) }
    ensures clearing_order { (config : Config) → Stands world (first_state config)
        → IfOk result (λ trace. InClearingOrder config trace.rows.items) }
    ensures at_most_once { (config : Config) → Stands world (first_state config)
        → IfOk result (λ trace. AtMostOnce trace.rows.items) }
    ensures own_queue { (config : Config) → Stands world (first_state config)
        → IfOk result (λ trace. OwnQueue config trace.rows.items) }
    ensures own_enqueue_call { (config : Config) → Stands world (first_state config)
        → IfOk result (λ trace. OwnEnqueueCall config trace.rows.items) }
    ensures after_a_mark_ended { (config : Config) → Stands world (first_state config)
        → IfOk result (λ trace. AfterAMarkEnded config trace.rows.items) }
    ensures nothing_after_close { (config : Config) → Stands world (first_state config)
        → IfOk result (λ trace. NothingAfterClose trace.rows.items) }
    ensures scanned_once { (config : Config) → Stands world (first_state config)
        → IfOk result (λ trace. ScannedOnce trace.rows.items) }
    ensures heap { (config : Config) → Stands world (first_state config)
        → IfOk result (λ trace. HeapTells config trace.rows.items trace.world) }
{
    match answered(alloc, world, steps) {
        Ok(trace) => Ok(trace),
        Err(refused) => Err(refused),
    }
}

// The rows of the steps. What holds of them for a new world follows from these clauses.
fn answered<A: Allocator + Copy>(
    alloc: A,
    world: World<A>,
    steps: Vec<Step, A>,
) -> Result<Trace<A>, (Fault, World<A>, Vec<Step, A>)>
    ensures steps { IfOk result (λ trace. steps_of trace.rows.items ≡ steps.items) }
    ensures run { IfOk result (λ trace. RunsFrom world trace.rows.items trace.world) }
    ensures does { IfOk result (λ trace. DoesEach world trace.rows.items trace.world) }
    ensures refused { IfErr result (λ refused. refused.0 ≡ Fault.NoMemory) }
    ensures back { IfErr result (λ refused. (refused.1 ≡ world) × (refused.2 ≡ steps)) }
{
    let mut world = world;
    let Ok(mut rows) = Vec::with_capacity(alloc, steps.len()) else {
        return Err((Fault::NoMemory, world, steps));
    };
    for step in &steps {
        let reply = world.step(*step);
        rows.push_reserved(Row { step: *step, reply });
    }
    Ok(Trace { rows, world })
}
