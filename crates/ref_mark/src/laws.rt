//! What the calls of a heap in its cycles say together of the abstract collector, and the two facts on which safe
//! marking rests.

ghost use Rattle.std.specs.Prelude.{◌≡◌, ℕ, true, false, []};
ghost use Rattle.ref_base.specs.Collectors.{State, joined};
ghost use Rattle.ref_base.specs.HeapSteps.{NamedStep};
ghost use Rattle.ref_base.specs.KeptPaths.{is_kept};
ghost use Rattle.ref_base.specs.Members.{has};
ghost use Rattle.ref_base.specs.Paths.{targets_at};
ghost use Rattle.ref_base.specs.Refusals.{is_empty, is_in};
ghost use Rattle.ref_base.specs.Worlds.{graph_of};
ghost use Rattle.ref_base.specs.declared.phase.Phase.TheVariants.{Clearing, Sweeping};
ghost use Rattle.ref_objects.specs.Grounds.{NamesSpared, IsClosed};
ghost use Rattle.ref_mark.specs.CycleHeaps.{CycleHeap, is_white, is_black, is_in_cycle, cycle_in_phase, sweep_begun};
ghost use Rattle.ref_mark.specs.CycleHeaps.{doomed};
ghost use Rattle.ref_mark.specs.MarkViews.{ground_of};
ghost use Rattle.ref_mark.specs.MarkCalls.{is_of_marking};
ghost use Rattle.ref_mark.specs.MarkRows.{IsMarkRowOf, KeepsStanding};
ghost use Rattle.ref_mark.specs.Standing.{MarkStands};

// promise: Marker::alloc_obj, Marker::alloc_ref, Marker::store, Marker::load, Marker::copy: rows of the machine
// promise: Marker::drop_slot, Marker::get, Marker::clear, Marker::refers_to, Marker::hold: rows of the machine
// promise: Marker::adopt, Marker::release, Marker::begin, Marker::scan, Marker::end_mark: rows of the machine
// promise: Marker::select, Marker::move_next, Marker::end_move: rows of the machine
/// Each step that is a call of a heap in its cycles, with its answer and with what it leaves, is a row of the abstract
/// collector. The row leads from each state that the heap stands for to one that it then stands for.
pub fn each_step_of_marking_is_a_row()
    ensures { (k : CycleHeap) (step : NamedStep) → is_of_marking step ≡ true → IsMarkRowOf k step }
{}

// promise: Marker::mint: the heap stands for the state with that hold more
/// A hold that is minted of what a root names leaves a heap that stands for the state with that hold more.
pub fn each_mint_keeps_standing()
    ensures { (k : CycleHeap) (n : ℕ) → KeepsStanding k n }
{}

// promise: Marker::to_sweeping: what it asks for holds once nothing found is left
/// Once all that was found was looked at, no slot, no hold and nothing that is marked refers to what isn't marked: so
/// clearing may end.
pub fn nothing_refers_to_the_doomed_once_clearing_is_done()
    ensures { (k : CycleHeap) (a : State) → MarkStands k a → is_in k.phase Clearing ≡ true → joined k.found ≡ []
        → NamesSpared (ground_of k) → IsClosed k.heap (has k.marked) }
{}

// promise: Marker::to_sweeping: the heap stands for what it stood for
/// A heap whose sweep begins stands for what it stood for, though what the doomed refer to is forgotten.
pub fn each_sweep_that_begins_keeps_standing()
    ensures { (k : CycleHeap) (a : State) → MarkStands (cycle_in_phase k Sweeping) a → MarkStands (sweep_begun k) a }
{}

// promise: Marker::end_mark: at any step of a cycle, what a root names isn't white
/// Between any two steps of a cycle what a root names isn't white: what a slot holds, what is held, what is pending.
pub fn what_a_root_names_is_not_white()
    ensures { (k : CycleHeap) (a : State) (n : ℕ) → MarkStands k a → is_in_cycle k.phase ≡ true
        → has (graph_of a.world).roots n ≡ true → is_white k n ≡ false }
{}

// promise: Marker::end_mark: nor does a black object lead to a white one
/// Nor does a strong field or a kept soft reference of a black object lead to a white one. So once nothing is grey, no
/// kept path leads to what is white then, which is what the mark's end dooms.
pub fn no_black_object_leads_to_a_white_one()
    ensures { (k : CycleHeap) (a : State) (m n : ℕ) → MarkStands k a → is_in_cycle k.phase ≡ true → is_black k m ≡ true
        → has (targets_at (is_kept k.policy) k.heap.objects m) n ≡ true → is_white k n ≡ false }
{}

// promise: Marker::begin, Marker::select: between cycles each word has the good colour
/// Between cycles no object is unhealed: each word that an object holds has the good colour of the cycle that ended,
/// until objects are chosen to move. In a cycle only what isn't scanned yet may hold a word of another.
pub fn between_cycles_each_object_is_healed()
    ensures { (k : CycleHeap) (a : State) → MarkStands k a → is_in_cycle k.phase ≡ false → k.space.unhealed ≡ [] }
{}

// promise: Marker::to_idle: so it is once all is swept
/// Nor is one in a sweep once nothing doomed is left: so the cycle may end.
pub fn once_all_is_swept_each_object_is_healed()
    ensures { (k : CycleHeap) (a : State) → MarkStands k a → is_in k.phase Sweeping ≡ true
        → is_empty (doomed k) ≡ true → k.space.unhealed ≡ [] }
{}
