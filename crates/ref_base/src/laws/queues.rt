//! Legal traces: what comes into each queue, in which order, and what is taken from it.

ghost use Rattle.std.specs.Prelude.{◌≡◌, ℕ, true, List, [], ◌∷◌, ◌++◌, length};
ghost use Rattle.ref_base.specs.LegalTraces.{IsLegal};
ghost use Rattle.ref_base.specs.QueueRows.{KeepsQueue, put_into, taken_from, was_closed};
ghost use Rattle.ref_base.specs.WorkerOrder.{clearing_order};
ghost use Rattle.ref_base.specs.Worlds.{Notice, object_of, hand_of, queue_at};
ghost use Rattle.ref_base.specs.Collectors.{State, first_state};
ghost use Rattle.ref_base.specs.Outs.{Outs};
ghost use Rattle.ref_base.specs.Replay.{replayed};
ghost use Rattle.ref_base.specs.CollectorRows.{IsRun, is_subsequence};
ghost use Rattle.ref_base.specs.ClearingOrder.{added_of};
ghost use Rattle.ref_base.specs.QueueLists.{enqueued};
ghost use Rattle.ref_base.specs.declared.actor.Actor.{Actor};
ghost use Rattle.ref_base.specs.declared.config.Config.{Config};
ghost use Rattle.ref_base.specs.declared.row.Row.{Row};
ghost use Rattle.ref_base.specs.declared.reply.Reply.{Reply};
ghost use Rattle.ref_base.specs.declared.step.Step.{Step};

// promise: ref_world::run: taken, then standing, is put in; nothing twice; none after close
/// In a legal trace, of each queue: what was taken, followed by what stands, is what was put in; nothing is put in
/// twice; and nothing is put in after a close that was accepted.
pub fn a_legal_trace_keeps_each_queue()
    ensures { (config : Config) (rows : List Row) (q : ℕ) → IsLegal config rows → KeepsQueue q rows }
{}

// promise: World::queue: the lists are those that the rows say
/// After every legal trace the lists of each queue are those of the rows: what was taken from it and what was put in,
/// in order, and whether it was closed.
pub fn the_lists_of_a_queue_are_those_of_the_rows()
    ensures { (config : Config) (rows : List Row) (b : State) (q : ℕ) → IsRun (first_state config) rows b
        → ((queue_at b.world q).taken ≡ taken_from q rows)
        × (enqueued object_of (queue_at b.world q) ≡ put_into q rows)
        × ((queue_at b.world q).closed ≡ was_closed q rows) }
{}

// promise: ref_world::run: an added notice is told how many its queue got before
/// In a legal trace a put that was added answers how many references its queue got before, where the queue is that of
/// the notice which is the first of the hand in the replay.
pub fn added_answers_the_position()
    ensures one { (config : Config) (front back : List Row) (who : Actor) (position : ℕ)
        → IsLegal config (front ++ record { step = Step.Put who; reply = Reply.Added position } ∷ back)
        → (notice : Notice) × (rest : List Notice) × (hand_of (replayed config front) who ≡ notice ∷ rest)
        × (position ≡ length (put_into notice.queue front)) }
    ensures all { (config : Config) (front back : List Row) (who : Actor) (outs : Outs)
        → IsLegal config (front ++ record { step = Step.Puts who; reply = Reply.Outs outs } ∷ back)
        → (notice : Notice) × (rest : List Notice) × (hand_of (replayed config front) who ≡ notice ∷ rest)
        × (outs.before ≡ length (put_into notice.queue front)) }
{}

// promise: ref_world::run: in each worker's clearing order
/// In a legal trace a queue gets what a worker cleared, of the references that are registered with it, in the order in
/// which the worker cleared them. None comes before one that was cleared earlier, though some may never come.
pub fn each_queue_has_a_workers_references_in_its_clearing_order()
    ensures { (config : Config) (rows : List Row) (k q : ℕ) → IsLegal config rows
        → is_subsequence (added_of config k q rows) (clearing_order rows k q) ≡ true }
{}
