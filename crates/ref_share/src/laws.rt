//! What holds of the history of each shared queue, heap and cleaner, so of whatever threads do: what the core proves of
//! lists of steps, turn by turn.

ghost use Rattle.std.specs.Prelude.{◌≡◌, ℕ, ◌+◌, ◌<◌, true, List, [], ◌∷◌, ◌++◌, length, Option, Some, None};
ghost use Rattle.std.specs.Prelude.{Bool, is_some, nat_eq, slice_get, Result, Ok};
ghost use Rattle.std.specs.List.{AllByRecursion, IsDistinct};
ghost use Rattle.ref_base.specs.CollectorRows.{IsLeft, doomed_at, referent_of, is_subsequence};
ghost use Rattle.ref_base.specs.Collectors.{State};
ghost use Rattle.ref_base.specs.CountedHolds.{tally};
ghost use Rattle.ref_base.specs.DoomedSets.{new_clears};
ghost use Rattle.ref_base.specs.Heaps.{slot_at, reference_at};
ghost use Rattle.ref_base.specs.HeapSteps.{HeldNotice, NamedStep};
ghost use Rattle.ref_base.specs.LeavingEdges.{FirstLeaves, LeavesBy};
ghost use Rattle.ref_base.specs.MarkEnds.{AreOutOfReach};
ghost use Rattle.ref_base.specs.Members.{has};
ghost use Rattle.ref_base.specs.Paths.{IsPath, soft_and_weak_referents};
ghost use Rattle.ref_base.specs.Provenance.{IsProven};
ghost use Rattle.ref_base.specs.ScannedRows.{scanned_in_cycle};
ghost use Rattle.ref_base.specs.WorkerOrder.{clearing_order};
ghost use Rattle.ref_base.specs.Worlds.{graph_of};
ghost use Rattle.ref_base.specs.declared.cause.Cause.TheVariants.{Cycle};
ghost use Rattle.ref_base.specs.declared.config.Config.{Config};
ghost use Rattle.ref_base.specs.declared.fault.Fault.TheVariants.{GreyLeft};
ghost use Rattle.ref_base.specs.declared.heap_step.HeapStep.TheVariants.{Plain};
ghost use Rattle.ref_base.specs.declared.heap_step.HoldName.{HoldName};
ghost use Rattle.ref_base.specs.declared.plain_step.PlainStep.TheVariants.{EndMark, Get};
ghost use Rattle.ref_base.specs.declared.reply.Reply.TheVariants.{Refused, Doomed, Object};
ghost use Rattle.ref_queue.specs.CleanTables.{job_of};
ghost use Rattle.ref_turn.specs.History.{Leads};
ghost use Rattle.ref_turn.specs.Seats.{entry};
ghost use Rattle.ref_world.specs.Cores.{as_notice};
ghost use Rattle.ref_world.specs.HeapReplies.{told_reply};
ghost use Rattle.ref_world.specs.HeapReplies.{HeapAnswer};
ghost use Rattle.ref_world.specs.declared.heap_machine.HeapReply.TheVariants.{Told};
ghost use Rattle.ref_share.specs.CleanHistories.{some_registers, job_left};
ghost use Rattle.ref_share.specs.ApartHistories.{AdoptNone, AreOfOneApart, IsApart, IsKeptApart, IsOfDeath};
ghost use Rattle.ref_share.specs.ApartHistories.{OthersLeave, PutInNoSlot, RegisterOwn, WasFoundDead};
ghost use Rattle.ref_share.specs.Cleanings.{RegistersApart};
ghost use Rattle.ref_share.specs.CleanLoops.{HasGone, Round};
ghost use Rattle.ref_share.specs.CleanSeats.{CleanSeat, CleanView, SharedCleaner, clean_view, IsCleanSeat};
ghost use Rattle.ref_share.specs.CleanSeats.{Jobs, CleanEntry, IsCleanRun};
ghost use Rattle.ref_share.specs.Cycles.{Cycles};
ghost use Rattle.ref_share.specs.Deliveries.{DeliversAll};
ghost use Rattle.ref_share.specs.HeapHistories.{minted, spent, spent_by};
ghost use Rattle.ref_share.specs.HeapMachines.{IsHeapTurn};
ghost use Rattle.ref_share.specs.HeapSeats.{HeapEntry, HeapSeat, HeapView, SharedHeap, heap_view};
ghost use Rattle.ref_share.specs.HeapSeats.{IsHeapRun, IsHeapSeat};
ghost use Rattle.ref_share.specs.HeapTraces.{HeapMarkEnded, handed_in, all_handed_on, notices_given, rows_of};
ghost use Rattle.ref_base.specs.Told.{named_by};
ghost use Rattle.ref_share.specs.QueueHistories.{KeepsLists, added_by_call, all_put_in, is_closed_after};
ghost use Rattle.ref_share.specs.QueueSeats.{QueueEntry, QueueSeat, QueueView, SharedQueue, IsQueueRun, queue_view};
ghost use Rattle.ref_share.specs.QueueStates.{NoticeLists};
ghost use Rattle.ref_share.specs.WorkerCalls.{KeepsPace, Works, batch_had_turn, notices_put, references_of};
ghost use Rattle.ref_base.specs.declared.urgency.Urgency.{Urgency};
ghost use Rattle.ref_share.specs.declared.answers.Cleanable.{Cleanable};
ghost use Rattle.ref_share.specs.declared.answers.ShareFault.{ShareFault};
ghost use Rattle.ref_share.specs.declared.clean_machine.CleanStep.TheVariants.{Take, Has};
ghost use Rattle.ref_share.specs.declared.clean_machine.CleanReply.TheVariants.{Taken, Looked};

// promise: SharedQueue::put, SharedQueue::poll_now, SharedQueue::finish: taken, then standing, is put in, in order
/// After every history of a queue its lists are those of the entries. What was taken, followed by what stands, is what
/// was put in, in order; nothing was put in twice. The queue is closed where an entry closed it.
pub fn the_lists_of_a_queue_are_those_of_its_history()
    ensures { (number : ℕ) (calls : List QueueEntry) (last : NoticeLists) → IsQueueRun number calls last
        → KeepsLists calls last }
{}

// promise: SharedQueue::put, SharedQueue::put_batch, SharedQueue::close: nothing behind a close
/// In every history of a queue nothing is put in behind a close.
pub fn nothing_is_put_in_behind_a_close()
    ensures { (number : ℕ) (front back : List QueueEntry) (last : NoticeLists)
        → IsQueueRun number (front ++ back) last → is_closed_after front ≡ true → all_put_in back ≡ [] }
{}

// promise: SharedQueue::put, SharedQueue::put_batch: its own queue, and its position
/// In every history of a queue each notice that was added, alone or in a batch, is for this queue. Its position is how
/// many were put in before: by the calls before its own, and in its own before it.
pub fn each_added_notice_is_for_its_queue()
    ensures { (number : ℕ) (front back : List QueueEntry) (call : QueueEntry) (last : NoticeLists) (i : ℕ)
        (notice : HeldNotice) (position : ℕ) → IsQueueRun number (front ++ call ∷ back) last
        → slice_get (added_by_call call.step call.reply) i ≡ Some (notice, position)
        → (notice.queue ≡ number) × (position ≡ length (all_put_in front) + i) }
{}

// promise: SharedHeap::call: how often each object is held
/// After every history of a heap what is held is what its entries gave out and did not take back. Each notice that an
/// unhook or a hand gave, and a hold, is a hold of its object; an accepted adopt or release takes one back.
pub fn what_is_held_was_given_out_and_not_taken_back()
    ensures { (config : Config) (number : ℕ) (calls : List HeapEntry) (last : State)
        → IsHeapRun config number calls last → (n : ℕ)
        → tally last.world.heap.holds n + tally (spent calls) n ≡ tally (minted calls) n }
{}

// promise: SharedHeap::adopt, SharedHeap::release: given out before
/// Where an entry of a heap's history takes a hold of an object back, an entry before it gave one of that object out
/// which was not taken back yet. The hold may be that of a notice that a thread carried, or another.
pub fn each_hold_that_is_taken_back_was_given_out()
    ensures { (config : Config) (number : ℕ) (front back : List HeapEntry) (call : HeapEntry) (last : State) (n : ℕ)
        → IsHeapRun config number (front ++ call ∷ back) last → spent_by call.step call.reply ≡ n ∷ []
        → tally (spent front) n < tally (minted front) n }
{}

// promise: SharedHeap::call: at one instant for all seats, for good
/// What a mark's end clears in the history of a heap, it clears at one instant and for good, whichever seats make the
/// calls. Each new clear reads as cleared in every state from then on, or it is no longer there.
pub fn what_a_marks_end_clears_reads_as_cleared_from_then_on()
    ensures { (config : Config) (number count : ℕ) (front : List HeapEntry) (a b : State) (calls : List HeapEntry)
        (c : State) (n : ℕ) → IsHeapRun config number front a → IsHeapTurn a (Plain EndMark) (Told (Doomed count)) b
        → Leads IsHeapTurn b calls c → has (new_clears a.world.heap.objects (doomed_at a)) n ≡ true
        → referent_of (reference_at c.world.heap n) ≡ None }
{}

// promise: SharedHeap::call: never got again, by any seat
/// And no get of it answers an object from then on, whoever holds it.
pub fn no_get_answers_what_a_marks_end_cleared()
    ensures { (config : Config) (number count : ℕ) (front : List HeapEntry) (a b : State) (calls : List HeapEntry)
        (c : State) (n m d s k : ℕ) (e : State) → IsHeapRun config number front a
        → IsHeapTurn a (Plain EndMark) (Told (Doomed count)) b → Leads IsHeapTurn b calls c
        → has (new_clears a.world.heap.objects (doomed_at a)) n ≡ true
        → slot_at c.world.heap m s ≡ Some n → ¬ (IsHeapTurn c (Plain (Get m d s)) (Told (Object k)) e) }
{}

// promise: SharedHeap::call: no seat gets it, in a slot, a hold or a notice
/// What a mark's end dooms in the history of a heap, no call gives from then on, neither into a slot nor as a hold or a
/// notice, whichever seat makes it.
pub fn no_call_gives_what_a_marks_end_doomed()
    ensures { (config : Config) (number count : ℕ) (front : List HeapEntry) (a b : State) (calls : List HeapEntry)
        (c : State) (step : NamedStep) (reply : HeapAnswer) (n : ℕ) (e : State)
        → IsHeapRun config number front a → IsHeapTurn a (Plain EndMark) (Told (Doomed count)) b
        → Leads IsHeapTurn b calls c
        → has (doomed_at a) n ≡ true → IsHeapTurn c step reply e → has (named_by (told_reply reply)) n ≡ true
        → ⊥ }
{}

// promise: SharedHeap::call: until it is swept, nothing else leads to what is doomed
/// After every history of a heap nothing reaches what is doomed and not swept yet, also while references are cleared
/// and while the sweep goes on. No slot, hold or pending reference names it, and no other object has it as a field or
/// as its referent.
pub fn nothing_else_refers_to_the_doomed()
    ensures { (config : Config) (number : ℕ) (calls : List HeapEntry) (last : State)
        → IsHeapRun config number calls last → AreOutOfReach last.doomed (graph_of last.world) }
{}

// promise: SharedHeap::call: a path enters the doomed by a new clear
/// Where a mark ends in the history of a heap, each path through soft and weak referents to what it dooms has a first
/// step to the doomed. That step is by the referent of a soft or weak reference that is a new clear.
pub fn each_path_to_what_a_marks_end_dooms_leaves_by_a_new_clear()
    ensures { (a : State) (count : ℕ) (b : State) (n : ℕ) (before : List ℕ)
        → IsHeapTurn a (Plain EndMark) (Told (Doomed count)) b
        → IsPath soft_and_weak_referents (graph_of a.world) n before → has (doomed_at a) n ≡ true
        → (outer inner : ℕ) × FirstLeaves (doomed_at a) n before outer inner
        × LeavesBy a.world.heap.objects (doomed_at a) outer inner }
{}

// promise: SharedHeap::call: once in a cycle at most, by all workers
/// In the history of a heap no object is scanned twice in a cycle.
pub fn no_object_is_scanned_twice_in_a_cycle()
    ensures { (config : Config) (number : ℕ) (calls : List HeapEntry) (last : State)
        → IsHeapRun config number calls last → IsDistinct nat_eq (scanned_in_cycle (rows_of calls)) }
{}

// promise: SharedHeap::call: GreyLeft only where one is left to scan
/// Where a mark's end is refused in the history of a heap because an object is left to scan, one is. That object was
/// ever kept in the mark, was made before the cycle began, and no call of the cycle scanned it.
pub fn a_mark_goes_on_only_while_an_object_is_left()
    ensures { (config : Config) (number : ℕ) (front : List HeapEntry) (a b : State)
        → IsHeapRun config number front a → IsHeapTurn a (Plain EndMark) (Told (Refused GreyLeft)) b
        → (n : ℕ) × IsLeft a n }
{}

// promise: SharedHeap::unhook, SharedHeap::hand: its own queue, and an entry as cause
/// In the history of a heap each notice that an unhook or a hand gives, of one or of a batch, comes from the entries up
/// to that one. One of them made its reference, registered with the notice's queue, and one is its cause. That is an
/// unhook that gave a notice of the reference, or its clearing, in the cycle and by the worker that the cause names.
pub fn each_notice_that_is_given_has_its_own_queue_and_cause()
    ensures { (config : Config) (number : ℕ) (front back : List HeapEntry) (call : HeapEntry) (last : State)
        → IsHeapRun config number (front ++ call ∷ back) last
        → AllByRecursion (λ notice. IsProven (rows_of (front ++ call ∷ [])) (as_notice notice))
        (notices_given call.step call.reply) }
{}

// promise: SharedHeap::hand: its referent was outside every kept path
/// In the history of a heap each notice that is given and whose cause is a cycle comes after the end of that cycle's
/// mark. In the world that the entries before that end give by replay, the notice's reference has a referent, an object
/// to which no kept path leads.
pub fn each_notice_of_a_cycle_comes_after_its_mark_ended()
    ensures { (config : Config) (number : ℕ) (front back : List HeapEntry) (call : HeapEntry) (last : State)
        → IsHeapRun config number (front ++ call ∷ back) last
        → AllByRecursion (λ notice. (cycle worker : ℕ) → notice.cause ≡ Cycle cycle worker
        → HeapMarkEnded config number front cycle notice.hold.object) (notices_given call.step call.reply) }
{}

// promise: SharedHeap::hand: by workers; an unhook may give another notice of it
/// In the history of a heap workers hand each reference on at most once, over all cycles.
pub fn each_reference_is_handed_on_at_most_once()
    ensures { (config : Config) (number : ℕ) (calls : List HeapEntry) (last : State)
        → IsHeapRun config number calls last → IsDistinct nat_eq (all_handed_on calls) }
{}

// promise: SharedHeap::hand, SharedHeap::hand_batch: in the worker's clearing order
/// And of what is registered with a queue, a worker hands the references on in the order in which it cleared them: none
/// comes before one that was cleared earlier, though some may never come.
pub fn each_worker_hands_on_in_its_clearing_order()
    ensures { (config : Config) (number : ℕ) (calls : List HeapEntry) (last : State) (k q : ℕ)
        → IsHeapRun config number calls last
        → is_subsequence (handed_in k q calls) (clearing_order (rows_of calls) k q) ≡ true }
{}

// promise: deliver_one, deliver_batch: one thread's, while turns are left
/// A worker's thread hands on by `deliver_one` and `deliver_batch` alone, with one seat of the heap and one of each
/// queue, and makes other calls in between. Then, while turns are left, each queue's seat has put in just the notices
/// that the heap's has handed on for that queue of what the worker cleared, in the same order.
pub fn each_queue_gets_what_a_worker_hands_on<A>()
    ensures { (k : ℕ) (queues : List (SharedQueue A)) (count : ℕ) (v w : HeapView) (seats after : List QueueSeat)
        → Works k queues count v seats w after → KeepsPace k queues v seats → KeepsPace k queues w after }
{}

// promise: deliver_all: so the law before holds of it, wherever it stops
/// A delivery of all that is pending is such work, while turns are left, whichever worker's it is.
pub fn a_delivery_of_all_is_a_workers_work<A>()
    ensures { (k worker : ℕ) (queues : List (SharedQueue A)) (v w : HeapView) (seats after : List QueueSeat)
        (result : Result (Unit {0}) ShareFault) (left : List HeldNotice)
        → DeliversAll worker queues v seats result left w after
        → batch_had_turn result left ≡ true → (count : ℕ) × Works k queues count v seats w after }
{}

// promise: cycle: so that law holds of it, wherever it stops
/// And a whole cycle is, wherever it stops: it hands on nothing but by its deliveries, and puts nothing else in.
pub fn a_cycle_is_a_workers_work<A>()
    ensures { (k worker now : ℕ) (urgency : Urgency) (queues : List (SharedQueue A)) (v w : HeapView)
        (seats after : List QueueSeat) (result : Result (Unit {0}) ShareFault) (left : List HeldNotice)
        → Cycles queues worker now urgency v seats result left w after
        → batch_had_turn result left ≡ true → (count : ℕ) × Works k queues count v seats w after }
{}

// promise: deliver_one, deliver_batch, deliver_all: in the worker's clearing order
/// What a worker's thread puts into a queue comes in the order in which the worker cleared it.
pub fn each_queue_gets_it_in_the_workers_clearing_order<A>()
    ensures { (heap : SharedHeap A) (heap_seat : HeapSeat) (k q : ℕ) (queues : List (SharedQueue A))
        (seats : List QueueSeat) (s : QueueSeat) → IsHeapSeat heap heap_seat
        → KeepsPace k queues (heap_view heap_seat) seats → q < length queues → slice_get seats q ≡ Some s
        → is_subsequence (references_of (notices_put k q (queue_view s).mine))
        (clearing_order (rows_of (heap_view heap_seat).seen) k q) ≡ true }
{}

// promise: SharedCleaner::register_apart: in no slot, and held once
/// A reference may be registered apart in the history of a heap, among calls that neither put it into a slot nor give a
/// hold of it. After that history it is in no slot, and of it one hold was given.
pub fn what_is_registered_apart_is_in_no_slot()
    ensures { (config : Config) (number queue m src dst n : ℕ) (calls : List HeapEntry) (last : State)
        → IsHeapRun config number calls last → AreOfOneApart queue m src dst n calls
        → IsApart config number calls n }
{}

// promise: SharedCleaner::register_apart: its notices are of a death while it is put into no slot
/// As long as no call puts what is apart into a slot again, as an adopt of a hold of it would, each notice of it that a
/// call gives is of a cycle. That cycle's mark ended before, where its referent was dead.
pub fn nothing_but_a_death_is_told_of_what_is_apart()
    ensures { (config : Config) (number n : ℕ) (front between back : List HeapEntry) (call : HeapEntry) (last : State)
        → IsHeapRun config number ((front ++ between) ++ call ∷ back) last
        → IsApart config number front n → PutInNoSlot n between
        → AllByRecursion (λ notice. notice.hold.object ≡ n → IsOfDeath config number (front ++ between) notice)
        (notices_given call.step call.reply) }
{}

// promise: SharedCleaner::clean_loop: its object was found dead before, if it was put into no slot
/// A cleaner's thread may take a job in one of its rounds, of a reference that was apart, in the heap's history, from
/// some call on and was put into no slot since. Then the job's object was dead at a mark's end, and that end stands
/// among the calls that the thread's seat of the heap has seen by then. For the thread gave two holds of the reference
/// back, of the notice and of the job, and a cleaner that registers each job with a hold of its own reference had but
/// one.
pub fn a_job_of_what_is_apart_runs_once_its_object_was_found_dead<J, A>()
    ensures { (heap : SharedHeap A) (seat : HeapSeat) (cleaner : SharedCleaner J A) (own : CleanSeat J)
        (q last : QueueView) (v : HeapView) (c : CleanView J) (rounds : List (Round J)) (r : Round J) (i : ℕ)
        (hold : HoldName) (job : J)
        → IsHeapSeat heap seat → IsCleanSeat cleaner own → RegisterOwn (clean_view own).seen
        → HasGone q v c rounds last (heap_view seat) (clean_view own) → slice_get rounds i ≡ Some r
        → r.taken ≡ Some (hold, job) → (front back : List HeapEntry) → (heap_view seat).seen ≡ front ++ back
        → IsApart heap.frame.config heap.frame.heap_no front r.notice.hold.object
        → PutInNoSlot r.notice.hold.object back
        → (cycle : ℕ) × HeapMarkEnded heap.frame.config heap.frame.heap_no (heap_view seat).seen cycle
        r.notice.hold.object }
{}

// promise: SharedCleaner::register_apart: if others name no slot of the mutator, and none adopts it
/// What `register_apart` registers is kept apart, in the calls that its seat of the heap has seen by then. It is in no
/// slot and no object, and of it no two holds were given, unless a mark's end found its object dead meanwhile. So it is
/// where those of the calls since, which other seats made, name no slot of the mutator, and none adopts a hold of it.
pub fn what_register_apart_registers_is_kept_apart<J, A>()
    ensures { (heap : SharedHeap A) (before after : HeapSeat) (queue m src dst : ℕ) (job : J) (c d : CleanView J)
        (cleanable : Cleanable) → IsHeapSeat heap before → IsHeapSeat heap after
        → RegistersApart job c queue m src dst (heap_view before) (Ok cleanable) (heap_view after) d
        → (since : List HeapEntry) → (heap_view after).seen ≡ (heap_view before).seen ++ since
        → OthersLeave (heap_view after).number m since → AdoptNone cleanable.obj since
        → IsKeptApart heap.frame.config heap.frame.heap_no (heap_view after).seen cleanable.obj }
{}

// promise: SharedCleaner::register_apart: it is put into no slot while none adopts it
/// What is kept apart stays so through every call but an adopt of a hold of it. No other call puts it into a slot or
/// into an object, and none gives a second hold of it, unless a mark's end found its object dead.
pub fn what_is_kept_apart_is_put_into_no_slot_but_by_an_adopt()
    ensures { (config : Config) (number n : ℕ) (front back : List HeapEntry) (last : State)
        → IsHeapRun config number (front ++ back) last → IsKeptApart config number front n → AdoptNone n back
        → PutInNoSlot n back × IsKeptApart config number (front ++ back) n }
{}

// promise: SharedCleaner::register_apart: its notices are of a death while none adopts it
/// Each notice of what is kept apart that a call gives behind calls of which none adopts a hold of it is of a cycle,
/// whose mark ended before, where its referent was dead.
pub fn nothing_but_a_death_is_told_of_what_is_kept_apart()
    ensures { (config : Config) (number n : ℕ) (front between back : List HeapEntry) (call : HeapEntry) (last : State)
        → IsHeapRun config number ((front ++ between) ++ call ∷ back) last
        → IsKeptApart config number front n → AdoptNone n between
        → AllByRecursion (λ notice. notice.hold.object ≡ n → IsOfDeath config number (front ++ between) notice)
        (notices_given call.step call.reply) }
{}

// promise: SharedCleaner::clean_loop: its object was found dead before, if none adopts its hold
/// A cleaner's thread may take a job in one of its rounds, of a reference that was kept apart from some call on and of
/// which no call since adopts a hold. Then the job's object was dead at a mark's end, and that end stands among the
/// calls that the thread's seat of the heap has seen by then.
pub fn a_job_of_what_is_kept_apart_runs_once_its_object_was_found_dead<J, A>()
    ensures { (heap : SharedHeap A) (seat : HeapSeat) (cleaner : SharedCleaner J A) (own : CleanSeat J)
        (q last : QueueView) (v : HeapView) (c : CleanView J) (rounds : List (Round J)) (r : Round J) (i : ℕ)
        (hold : HoldName) (job : J)
        → IsHeapSeat heap seat → IsCleanSeat cleaner own → RegisterOwn (clean_view own).seen
        → HasGone q v c rounds last (heap_view seat) (clean_view own) → slice_get rounds i ≡ Some r
        → r.taken ≡ Some (hold, job) → (front back : List HeapEntry) → (heap_view seat).seen ≡ front ++ back
        → IsKeptApart heap.frame.config heap.frame.heap_no front r.notice.hold.object
        → AdoptNone r.notice.hold.object back
        → WasFoundDead heap.frame.config heap.frame.heap_no (heap_view seat).seen r.notice.hold.object }
{}

// promise: SharedCleaner::register, SharedCleaner::clean: the job registered last, unless it was taken since
/// After every history of a cleaner, whatever its jobs are, each object has the job that was registered for it last,
/// with its hold, unless that was taken since.
pub fn each_object_has_the_job_that_its_history_left<J>()
    ensures { (calls : List (CleanEntry J)) (last : Jobs J) → IsCleanRun calls last
        → (n : ℕ) → job_of last n ≡ job_left n None calls }
{}

// promise: SharedCleaner::clean, SharedCleaner::unregister: a take answers the job that was left
/// And just that is what an entry of a take answers.
pub fn each_take_gives_the_job_that_was_left<J>()
    ensures { (front back : List (CleanEntry J)) (by n : ℕ) (taken : Option (HoldName × J)) (last : Jobs J)
        → IsCleanRun (front ++ entry by (Take n) (Taken taken) ∷ back) last → taken ≡ job_left n None front }
{}

// promise: SharedCleaner::is_registered: a look answers whether a job was left
/// And an entry of a look answers whether one was left.
pub fn each_look_tells_whether_a_job_was_left<J>()
    ensures { (front back : List (CleanEntry J)) (by n : ℕ) (answer : Bool) (last : Jobs J)
        → IsCleanRun (front ++ entry by (Has n) (Looked answer) ∷ back) last
        → answer ≡ is_some (job_left n None front) }
{}

// promise: SharedCleaner::clean, SharedCleaner::clean_loop: a job is taken once at most, over all threads
/// In every history of a cleaner, between two takes that both gave a job of one object, one was registered for it:
/// over all threads, each registered job is taken at most once.
pub fn each_registered_job_is_taken_at_most_once<J>()
    ensures { (front between back : List (CleanEntry J)) (by later n : ℕ) (job next : HoldName × J) (last : Jobs J)
        → IsCleanRun (front ++ entry by (Take n) (Taken (Some job)) ∷ (between
        ++ entry later (Take n) (Taken (Some next)) ∷ back)) last
        → some_registers n between ≡ true }
{}
