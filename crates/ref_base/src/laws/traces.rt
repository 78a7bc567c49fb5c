//! Legal traces and the rows that they are of: fronts, rows of a heap, numbers, and the replay.

ghost use Rattle.std.specs.Prelude.{◌≡◌, ℕ, true, List, ◌++◌, Some};
ghost use Rattle.ref_base.specs.Members.{has};
ghost use Rattle.ref_base.specs.LegalTraces.{IsLegal};
ghost use Rattle.ref_base.specs.Worlds.{SameOthers, graph_of};
ghost use Rattle.ref_base.specs.HeapSteps.{NamedStep, heap_step};
ghost use Rattle.ref_base.specs.Collectors.{State, first_state};
ghost use Rattle.ref_base.specs.Outs.{Outs, IsWantedLast};
ghost use Rattle.ref_base.specs.Replay.{replayed};
ghost use Rattle.ref_base.specs.AgreeingWorlds.{Agrees};
ghost use Rattle.ref_base.specs.OldNumbers.{HasOldNumbers};
ghost use Rattle.ref_base.specs.MarkEnds.{WasDoomed, AreOutOfReach};
ghost use Rattle.ref_base.specs.Refusals.{heap_refusal, refusal};
ghost use Rattle.ref_base.specs.CollectorRows.{IsHeapRow, IsRow, IsRun, with_handed};
ghost use Rattle.ref_base.specs.declared.actor.Actor.{Actor};
ghost use Rattle.ref_base.specs.declared.fault.Fault.{Fault};
ghost use Rattle.ref_base.specs.declared.config.Config.{Config};
ghost use Rattle.ref_base.specs.declared.row.Row.{Row};
ghost use Rattle.ref_base.specs.declared.reply.Reply.{Reply};
ghost use Rattle.ref_base.specs.declared.step.Step.{Step};

// promise: ref_world::run: a later answer changes none before
/// The front of a legal trace is legal: what is answered later changes no answer before.
pub fn the_front_of_a_legal_trace_is_legal()
    ensures { (config : Config) (front back : List Row) → IsLegal config (front ++ back) → IsLegal config front }
{}

// promise: World::step: what is refused for want of memory is a put
/// Want of memory is answered by puts alone: by a put of one notice, or as the last answer of a row of puts.
pub fn memory_is_wanting_at_puts_alone()
    ensures one { (a : State) (step : Step) (b : State)
        → IsRow a (record { step = step; reply = Reply.Refused Fault.NoMemory }) b
        → (who : Actor) × (step ≡ Step.Put who) }
    ensures all { (a : State) (who : Actor) (outs : Outs) (b : State)
        → IsRow a (record { step = Step.Puts who; reply = Reply.Outs outs }) b → IsWantedLast outs.done }
{}

// promise: World::ask, apply_heap: a row of the heap is a row of its world
/// Where the world refuses a step just as its heap does, a row of the heap is a row of the world, in which the step
/// asks for it. Beside the heap's changes that row has what the step leaves in the hands.
pub fn a_row_of_a_heap_is_a_row_of_its_world()
    ensures { (a c : State) (asked : NamedStep) (step : Step) (reply : Reply)
        → heap_step a.world step ≡ Some asked → refusal a step ≡ heap_refusal a asked
        → IsHeapRow a asked reply c
        → IsRow a (record { step = step; reply = reply }) (with_handed c step reply) }
{}

// promise: apply_heap: hands and queues stay as they are
/// No row of a heap touches hands and queues.
pub fn no_row_of_a_heap_touches_hands_and_queues()
    ensures { (a b : State) (step : NamedStep) (reply : Reply) → IsHeapRow a step reply b
        → SameOthers a.world b.world }
{}

// promise: World::step: a number that is named is below the next
/// After every legal trace the objects stand in order of number. Each number that is named, of an object, a root, a
/// field or a referent, or as doomed or cleared, is below the next that is given. So each number is given once.
pub fn each_number_is_given_once()
    ensures { (config : Config) (rows : List Row) (b : State) → IsRun (first_state config) rows b → HasOldNumbers b }
{}

// promise: ref_world::run: the replay has the hands and queues
/// After every legal trace the replay has the hands and queues of the collector's state.
pub fn the_hands_and_queues_of_the_replay_are_those_of_the_state()
    ensures { (config : Config) (rows : List Row) (b : State) → IsRun (first_state config) rows b
        → SameOthers (replayed config rows) b.world }
{}

// promise: ref_world::run: nothing but the dead is gone
/// After every legal trace the collector has the world that its rows give by replay, slots, holds, hands, queues and
/// pending references alike, but for two things. Some objects are gone, and a reference that the mark's end cleared
/// reads as cleared also before a worker has looked at it. An earlier mark's end found dead whatever is gone. No slot,
/// hold or pending reference names that, nor does an object that isn't doomed, as a field or as its referent.
pub fn the_collector_has_the_graph_of_the_replay_less_what_was_swept()
    ensures { (config : Config) (rows : List Row) (b : State) → IsRun (first_state config) rows b
        → (gone : List ℕ) × Agrees gone (replayed config rows) b
        × ((n : ℕ) → has gone n ≡ true → WasDoomed config rows n)
        × AreOutOfReach (gone ++ b.doomed) (graph_of b.world) }
{}
