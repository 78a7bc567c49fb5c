//! Legal traces: for which queue a notice is, what its cause is, and when it may come.

ghost use Rattle.std.specs.Prelude.{◌≡◌, ℕ, true, List, [], ◌∷◌, ◌++◌};
ghost use Rattle.ref_base.specs.LegalTraces.{IsLegal};
ghost use Rattle.ref_base.specs.WorkerOrder.{is_registered};
ghost use Rattle.ref_base.specs.Worlds.{Notice, hand_of};
ghost use Rattle.ref_base.specs.Collectors.{State, first_state};
ghost use Rattle.ref_base.specs.CountedHolds.{AreCounted};
ghost use Rattle.std.specs.List.{AllByRecursion};
ghost use Rattle.ref_base.specs.Outs.{Outs};
ghost use Rattle.ref_base.specs.QueueBatches.{added_among};
ghost use Rattle.ref_base.specs.Told.{told_notices};
ghost use Rattle.ref_base.specs.Replay.{replayed};
ghost use Rattle.ref_base.specs.MarkEnds.{MarkEnded, AreAfterMarks};
ghost use Rattle.ref_base.specs.Provenance.{IsProven, AreProven, gives_notices};
ghost use Rattle.ref_base.specs.CollectorRows.{IsRun};
ghost use Rattle.ref_base.specs.declared.actor.Actor.{Actor};
ghost use Rattle.ref_base.specs.declared.cause.Cause.{Cause};
ghost use Rattle.ref_base.specs.declared.config.Config.{Config};
ghost use Rattle.ref_base.specs.declared.row.Row.{Row};
ghost use Rattle.ref_base.specs.declared.reply.Reply.{Reply};
ghost use Rattle.ref_base.specs.declared.plain_step.PlainStep.{PlainStep};
ghost use Rattle.ref_base.specs.declared.step.Step.{Step};

// promise: World::step: no reference has two queues
/// In a legal trace a reference is registered with one queue.
pub fn a_reference_is_registered_with_one_queue()
    ensures { (config : Config) (rows : List Row) (n q r : ℕ) → IsLegal config rows
        → is_registered rows n q ≡ true → is_registered rows n r ≡ true → q ≡ r }
{}

// promise: ref_world::run: its own queue, and a row as cause
/// In a legal trace each notice that was put in, which is the first of the hand in the replay, comes from the rows
/// before. One of them made its reference, registered with the notice's queue, and one is its cause.
pub fn each_notice_that_is_put_in_has_its_own_queue_and_cause()
    ensures one { (config : Config) (front back : List Row) (who : Actor) (position : ℕ)
        → IsLegal config (front ++ record { step = Step.Put who; reply = Reply.Added position } ∷ back)
        → (notice : Notice) × (rest : List Notice) × (hand_of (replayed config front) who ≡ notice ∷ rest)
        × IsProven front notice }
    ensures all { (config : Config) (front back : List Row) (who : Actor) (outs : Outs)
        → IsLegal config (front ++ record { step = Step.Puts who; reply = Reply.Outs outs } ∷ back)
        → AllByRecursion (IsProven front) (added_among (hand_of (replayed config front) who) outs.done) }
{}

// promise: World::step: so has a notice in a hand or a queue
/// After every legal trace each notice that is out, in a hand or in a queue, comes from the rows. One of them made its
/// reference, registered with the notice's queue, and one is its cause. That is an unhook that gave a notice of the
/// reference, or its clearing, in the cycle and by the worker that the cause names.
pub fn each_notice_has_its_own_queue_and_cause()
    ensures { (config : Config) (rows : List Row) (b : State) → IsRun (first_state config) rows b
        → AreProven rows b.world }
{}

// promise: World::step: so has a notice as it is given
/// And so does each notice that a row of a legal trace gives, an unhook's or one that a worker hands on: from the rows
/// up to that one.
pub fn each_notice_that_is_given_has_its_own_queue_and_cause()
    ensures { (config : Config) (front back : List Row) (step : Step) (reply : Reply) (b : State)
        → gives_notices step ≡ true
        → IsRun (first_state config) (front ++ record { step = step; reply = reply } ∷ back) b
        → AllByRecursion (IsProven (front ++ record { step = step; reply = reply } ∷ [])) (told_notices reply) }
{}

// promise: ref_world::run: its referent was outside every kept path
/// After every legal trace each notice that is out, in a hand or in a queue, and whose cause is a cycle, comes after
/// the end of that cycle's mark. In the world that the rows before that end give by replay, the notice's reference has
/// a referent, an object to which no kept path leads.
pub fn each_notice_of_a_cycle_comes_after_its_mark_ended()
    ensures { (config : Config) (rows : List Row) (b : State) → IsRun (first_state config) rows b
        → AreAfterMarks config rows b.world }
{}

// promise: World::step: a worker clears what the mark's end found
/// And so does each row of a legal trace in which a worker clears a reference: after the end of the mark of the cycle
/// that goes on there.
pub fn what_a_worker_clears_was_shown_by_its_mark_end()
    ensures { (config : Config) (front back : List Row) (k n : ℕ) (b : State)
        → IsRun (first_state config)
        (front ++ record { step = Step.Plain (PlainStep.ClearNext k); reply = Reply.Cleared n } ∷ back) b
        → MarkEnded config front (replayed config front).cycle n }
{}

// promise: World::step: no notice is out more often than it is held
/// After every legal trace each notice that is out, in a hand or in a queue, is a hold that the heap counts: none is
/// out more often than its reference is held.
pub fn each_notice_that_is_out_is_a_counted_hold()
    ensures { (config : Config) (rows : List Row) (b : State) → IsRun (first_state config) rows b
        → AreCounted b.world }
{}
