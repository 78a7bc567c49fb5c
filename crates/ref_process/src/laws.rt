//! What holds of each run of a processor. `queues` is about a queue of notices, `batches` about what is handed on at
//! once, and `places` about where notices are.

pub mod batches;
pub mod places;
pub mod queues;

ghost use Rattle.std.specs.Prelude.{◌≡◌, ◌≤◌, ◌++◌, ℕ, Bool, true, false, not, List, map, Option, Some, None};
ghost use Rattle.ref_base.specs.DoomedSets.{MayDoom};
ghost use Rattle.ref_base.specs.Graphs.{Graph};
ghost use Rattle.ref_base.specs.KeptPaths.{IsKept};
ghost use Rattle.ref_base.specs.Members.{has};
ghost use Rattle.ref_base.specs.declared.policy.Policy.{Policy};
ghost use Rattle.ref_process.specs.DeskRows.{Crew, DeskRow, IsDeskRow, IsDeskRun, Buries, at_desk, lists_at};
ghost use Rattle.ref_process.specs.DeskRows.{IsRowBy, IsRunBy, Looks, EndsMarking, EndsClearing, Relocates};
ghost use Rattle.ref_process.specs.CycleRows.{AreReported, make_marked, was_noticed};
ghost use Rattle.ref_process.specs.CycleRows.{may_change, RefersUnmarked, new_crew, was_cleared_by, IsOfTheDead};
ghost use Rattle.ref_process.specs.Desks.{is_clearing, owner_of, owed_owners};
ghost use Rattle.ref_process.specs.Looks.{reads, refers_to};
ghost use Rattle.ref_process.specs.Promises.{MarksKept};
ghost use Rattle.ref_process.specs.Relocations.{relocated_handle, relocated_held};
ghost use Rattle.ref_process.specs.Renamings.{renamed_crew, renamed_rows};
ghost use Rattle.ref_process.specs.RowTallies.{times_told, passed_on, queued_clears, pending_keys};
ghost use Rattle.ref_process.specs.declared.key.Key.{Key};
ghost use Rattle.ref_process.specs.declared.looked.Looked.TheVariants.{Cleared};
ghost use Rattle.ref_process.specs.declared.place.Reference.{Reference};

/// Whatever the marker answers: a reference has one notice at most.
// promise: Processor::enqueue, Processor::hand: no reference has a second notice
pub fn a_reference_has_one_notice_at_most()
    ensures { (c : Crew) (rows : List DeskRow) (e : Crew) → IsDeskRun c rows e
        → (k : Key) → times_told k rows ≤ 1 }
{}

/// A reference keeps its queue for as long as it lives. A notice is for the queue that its reference has.
// promise: Processor::enqueue, Processor::hand: a notice is for the queue that the reference was made with
pub fn a_reference_keeps_its_queue()
    ensures { (c : Crew) (rows : List DeskRow) (e : Crew) → IsDeskRun c rows e
        → (k : Key) (r s : Reference) → at_desk c k ≡ Some r → at_desk e k ≡ Some s → s.queue ≡ r.queue }
{}

/// Once a reference is dead its key is of nothing for ever, however its place is used.
// promise: Processor::dead, Processor::add: the key of a dead reference is refused for ever
pub fn a_key_of_the_dead_is_of_nothing_for_ever()
    ensures { (c : Crew) (k : Key) (d : Crew) → IsDeskRow c (Buries k) d
        → (rows : List DeskRow) (e : Crew) → IsDeskRun d rows e → at_desk e k ≡ None }
{}

/// Whatever the marker answers, for each finder: what it handed on, followed by what is pending, is what was pending at
/// first, followed by what it cleared since and has a queue, in order. So nothing is lost.
// promise: Processor::clear_next, Processor::hand: what was cleared is handed on, in order, and nothing else is
pub fn what_was_cleared_is_handed_on_in_order()
    ensures { (c : Crew) (rows : List DeskRow) (e : Crew) → IsDeskRun c rows e → (i : ℕ)
        → passed_on i rows ++ pending_keys (lists_at e i).pending
        ≡ pending_keys (lists_at c i).pending ++ queued_clears i rows }
{}

/// Whatever the marker answers: a look clears what has a referent of which it was answered that it isn't marked.
// promise: Processor::clear_next: what is marked is never cleared
pub fn what_a_look_clears_is_not_marked()
    ensures { (marked : ℕ → Bool) (c : Crew) (i : ℕ) (k : Key) (q : Option ℕ) (e : Crew)
        → IsRowBy marked c (Looks i (Cleared k) q) e → RefersUnmarked marked (at_desk c k) }
{}

/// Where the marker answers one thing all along: what references read as changes at the ends of marks, for all of them
/// at once, at the ends of clearings, and where objects have moved. Else it changes by a reference's own making,
/// `clear`, `enqueue` and death alone. No look and no handing on changes it.
// promise: Processor::clear_next, Processor::hand, Processor::get: what a reference reads as changes at one instant
pub fn what_a_reference_reads_as_changes_at_one_instant()
    ensures { (marked : ℕ → Bool) (c : Crew) (row : DeskRow) (e : Crew) → IsRowBy marked c row e
        → (k : Key) → may_change k row ≡ false
        → reads marked e.desk (at_desk e k) ≡ reads marked c.desk (at_desk c k) }
{}

/// Where objects have moved, each key has the reference that it had, whose owner and referent are where they are now.
/// What it reads as is where that object is now. Nothing else of a reference changes, and no key is made or ends.
// promise: Processor::relocate: owners and referents of all references follow what moves, and nothing else changes
pub fn references_follow_what_moves()
    ensures references { (marked : ℕ → Bool) (c : Crew) (to : ℕ → ℕ) (e : Crew) → IsRowBy marked c (Relocates to) e
        → (k : Key) → at_desk e k ≡ relocated_held to (at_desk c k) }
    ensures readings { (marked : ℕ → Bool) (c : Crew) (to : ℕ → ℕ) (e : Crew) → IsRowBy marked c (Relocates to) e
        → (k : Key) → reads marked e.desk (at_desk e k) ≡ relocated_handle to (reads marked c.desk (at_desk c k)) }
{}

/// A run is the same by other handles, if no two objects have one: the calls are answered the same, and leave the same,
/// but for the handles. What `relocate` leaves is the processor by other handles, so what comes later goes on as if
/// nothing had moved.
// promise: Processor::relocate, Processor::add, Processor::found, Processor::get: no answer hangs on a handle's number
pub fn a_run_is_the_same_by_other_handles()
    ensures by_one_marker { (to from : ℕ → ℕ) → ((h : ℕ) → from (to h) ≡ h)
        → (marked : ℕ → Bool) (c : Crew) (rows : List DeskRow) (e : Crew) → IsRunBy marked c rows e
        → IsRunBy (λ h. marked (from h)) (renamed_crew to c) (renamed_rows to from rows) (renamed_crew to e) }
    ensures by_any { (to from : ℕ → ℕ) → ((h : ℕ) → from (to h) ≡ h)
        → (c : Crew) (rows : List DeskRow) (e : Crew) → IsDeskRun c rows e
        → IsDeskRun (renamed_crew to c) (renamed_rows to from rows) (renamed_crew to e) }
{}

/// What is only asked is the same by other handles too: whether a reference refers to an object, which its owner is,
/// and which owners are roots.
// promise: Processor::refers_to, Processor::owner, Processor::roots: no answer hangs on a handle's number
pub fn what_is_asked_is_the_same_by_other_handles()
    ensures refers { (to from : ℕ → ℕ) → ((h : ℕ) → from (to h) ≡ h)
        → (marked : ℕ → Bool) (c : Crew) (k : Key) (h : Option ℕ)
        → refers_to (λ g. marked (from g)) (renamed_crew to c).desk (at_desk (renamed_crew to c) k)
        (relocated_handle to h)
        ≡ refers_to marked c.desk (at_desk c k) h }
    ensures owner { (to : ℕ → ℕ) (c : Crew) (k : Key)
        → owner_of (at_desk (renamed_crew to c) k) ≡ relocated_handle to (owner_of (at_desk c k)) }
    ensures roots { (to : ℕ → ℕ) (c : Crew)
        → owed_owners (renamed_crew to c).desk.places ≡ map to (owed_owners c.desk.places) }
{}

/// With the promise, what a kept path reaches is marked.
// promise: Processor::clear_next: what a kept path reaches is marked, where the runtime keeps its promise
pub fn what_a_kept_path_reaches_is_marked()
    ensures { (p : Policy) (g : Graph) (marked : ℕ → Bool) → MarksKept p g marked
        → (n : ℕ) → IsKept p g n → marked n ≡ true }
{}

/// With the promise, whatever came before: what a cycle clears, and so what it has notices of, referred at the mark's
/// end to what no kept path reached.
// promise: Processor::clear_next, Processor::end_mark: no notice of what a kept path reaches
pub fn each_that_a_cycle_clears_was_dead_at_its_marks_end()
    ensures { (p : Policy) (g : Graph) (marked : ℕ → Bool) → MarksKept p g marked
        → (span : ℕ) (workers : List ℕ) (before : List DeskRow) (c : Crew)
        → IsDeskRun (new_crew span workers) before c → is_clearing c.desk.phase ≡ true
        → (rows : List DeskRow) (e : Crew) → IsRunBy marked c rows e → e.desk.cycle ≡ c.desk.cycle
        → (k : Key) → was_cleared_by k rows ≡ true → IsOfTheDead p g (at_desk c k) }
{}

/// With the promise, whatever came before and comes later: each notice that names a cycle is of a reference that, at
/// the end of that cycle's mark, referred to what no kept path reached.
// promise: Processor::hand, Processor::clear_next: a notice of a cycle is of the dead, whenever it is handed on
pub fn each_notice_of_a_cycle_is_of_the_dead()
    ensures { (p : Policy) (g : Graph) (marked : ℕ → Bool) → MarksKept p g marked
        → (span : ℕ) (workers : List ℕ) (before : List DeskRow) (b : Crew)
        → IsDeskRun (new_crew span workers) before b → (c : Crew) → IsRowBy marked b EndsMarking c
        → (rows : List DeskRow) (d : Crew) → IsRunBy marked c rows d → d.desk.cycle ≡ c.desk.cycle
        → is_clearing d.desk.phase ≡ false → (more : List DeskRow) (e : Crew) → IsDeskRun d more e
        → (k : Key) → was_noticed c.desk.cycle k (rows ++ more) ≡ true → IsOfTheDead p g (at_desk c k) }
{}

/// The promise can be kept: what is not doomed by a mark's end of the abstract collector is such a marking.
// promise: Processor::end_mark: the promise can be kept
pub fn the_abstract_collector_keeps_the_promise()
    ensures { (p : Policy) (g : Graph) (moments : List Graph) (d : List ℕ) → MayDoom p g moments d
        → MarksKept p g (λ n. not (has d n)) }
{}

/// Once a clearing has ended each referent is marked, so nothing names what the runtime may free. The marker has to
/// answer one thing all along, and to have come upon each reference to what it didn't mark. What is made in Clearing
/// has to refer to what is marked.
// promise: Processor::end_clear, Processor::found, Processor::take_made: no reference names what isn't marked
pub fn at_the_end_of_clearing_each_referent_is_marked()
    ensures { (marked : ℕ → Bool) (span : ℕ) (workers : List ℕ) (before : List DeskRow) (c : Crew)
        → IsDeskRun (new_crew span workers) before c → is_clearing c.desk.phase ≡ true → AreReported marked c
        → (rows : List DeskRow) (e : Crew) → IsRunBy marked c rows e → e.desk.cycle ≡ c.desk.cycle
        → make_marked marked rows ≡ true
        → (f : Crew) → IsRowBy marked e EndsClearing f
        → (k : Key) (r : Reference) (h : ℕ) → at_desk f k ≡ Some r → r.referent ≡ Some h → marked h ≡ true }
{}
