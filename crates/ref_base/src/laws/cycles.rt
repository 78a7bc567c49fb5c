//! Legal traces: what a cycle scans, clears and sweeps.

ghost use Rattle.std.specs.Prelude.{◌≡◌, ℕ, true, List, Some, nat_eq, None};
ghost use Rattle.ref_base.specs.Members.{has};
ghost use Rattle.ref_base.specs.DoomedSets.{new_clears};
ghost use Rattle.ref_base.specs.LegalTraces.{IsLegal};
ghost use Rattle.ref_base.specs.Worlds.{graph_of};
ghost use Rattle.ref_base.specs.Collectors.{State, first_state};
ghost use Rattle.ref_base.specs.MarkEnds.{AreOutOfReach};
ghost use Rattle.ref_base.specs.CollectorRows.{IsRow, IsRun, IsLeft, doomed_at, referent_of};
ghost use Rattle.std.specs.List.{IsDistinct};
ghost use Rattle.ref_base.specs.Heaps.{slot_at, reference_at};
ghost use Rattle.ref_base.specs.ScannedRows.{scanned_in_cycle};
ghost use Rattle.ref_base.specs.declared.fault.Fault.{Fault};
ghost use Rattle.ref_base.specs.declared.config.Config.{Config};
ghost use Rattle.ref_base.specs.declared.row.Row.{Row};
ghost use Rattle.ref_base.specs.declared.reply.Reply.{Reply};
ghost use Rattle.ref_base.specs.declared.plain_step.PlainStep.{PlainStep};
ghost use Rattle.ref_base.specs.declared.step.Step.{Step};

// promise: ref_world::run: an object is scanned once in a cycle at most
/// In a legal trace no object is scanned twice in a cycle.
pub fn no_object_is_scanned_twice_in_a_cycle()
    ensures { (config : Config) (rows : List Row) → IsLegal config rows → IsDistinct nat_eq (scanned_in_cycle rows) }
{}

// promise: World::step: GreyLeft only where one is left to scan
/// In a legal trace, where a mark's end is refused because an object is left to scan, one is. That object was ever kept
/// in the mark, was made before the cycle began, and no row of the cycle scanned it.
pub fn a_mark_goes_on_only_while_an_object_is_left()
    ensures { (config : Config) (front : List Row) (a b : State) → IsRun (first_state config) front a
        → IsRow a (record { step = Step.Plain PlainStep.EndMark; reply = Reply.Refused Fault.GreyLeft }) b
        → (n : ℕ) × IsLeft a n }
{}

// promise: World::step: all new clears at once, for good
/// What a mark's end clears in a legal trace, it clears at one instant and for good: each new clear reads as cleared in
/// every state from then on, or it is no longer there.
pub fn what_a_marks_end_clears_reads_as_cleared_from_then_on()
    ensures { (config : Config) (front : List Row) (a b : State) (count : ℕ) (rows : List Row) (c : State) (n : ℕ)
        → IsRun (first_state config) front a
        → IsRow a (record { step = Step.Plain PlainStep.EndMark; reply = Reply.Doomed count }) b → IsRun b rows c
        → has (new_clears a.world.heap.objects (doomed_at a)) n ≡ true
        → referent_of (reference_at c.world.heap n) ≡ None }
{}

// promise: World::step: a new clear is never got again
/// And no get of it answers an object from then on, whoever holds it.
pub fn no_get_answers_what_a_marks_end_cleared()
    ensures { (config : Config) (front : List Row) (a b : State) (count : ℕ) (rows : List Row) (c : State) (n : ℕ)
        (m d s k : ℕ) (e : State) → IsRun (first_state config) front a
        → IsRow a (record { step = Step.Plain PlainStep.EndMark; reply = Reply.Doomed count }) b → IsRun b rows c
        → has (new_clears a.world.heap.objects (doomed_at a)) n ≡ true → slot_at c.world.heap m s ≡ Some n
        → ¬ (IsRow c (record { step = Step.Plain (PlainStep.Get m d s); reply = Reply.Object k }) e) }
{}

// promise: World::step: until it is swept, nothing else leads to what is doomed
/// After every legal trace nothing reaches what is doomed and not swept yet, also while references are cleared and
/// while the sweep goes on. No slot, hold or pending reference names it, and no other object has it as a field or as
/// its referent.
pub fn nothing_else_refers_to_the_doomed()
    ensures { (config : Config) (rows : List Row) (b : State) → IsRun (first_state config) rows b
        → AreOutOfReach b.doomed (graph_of b.world) }
{}
