//! What the calls of a heap say together of the abstract collector.

ghost use Rattle.std.specs.Prelude.{◌≡◌, ℕ, true, false, List, ◌++◌};
ghost use Rattle.ref_base.specs.Collectors.{State, joined};
ghost use Rattle.ref_base.specs.DoomedSets.{refers_into};
ghost use Rattle.ref_base.specs.Graphs.{is_there};
ghost use Rattle.ref_base.specs.Heaps.{reference_at};
ghost use Rattle.ref_base.specs.HeapSteps.{NamedStep};
ghost use Rattle.ref_base.specs.Members.{has};
ghost use Rattle.ref_base.specs.Refusals.{is_in};
ghost use Rattle.ref_base.specs.Worlds.{pending_numbers};
ghost use Rattle.ref_base.specs.declared.phase.Phase.TheVariants.{Clearing, Sweeping};
ghost use Rattle.ref_mark.specs.CycleHeaps.{is_doomed};
ghost use Rattle.ref_clear.specs.ClearHeaps.{ClearHeap};
ghost use Rattle.ref_clear.specs.ClearRows.{IsHeapRowOf};
ghost use Rattle.ref_clear.specs.Standing.{HeapStands};

// promise: Heap::alloc_obj, Heap::alloc_ref, Heap::store, Heap::load, Heap::copy: rows, in every phase
// promise: Heap::drop_slot, Heap::get, Heap::clear, Heap::refers_to, Heap::hold, Heap::adopt: rows, in every phase
// promise: Heap::release, Heap::begin, Heap::scan, Heap::end_mark, Heap::clear_next: rows, in every phase
// promise: Heap::end_clear, Heap::hand, Heap::hand_batch, Heap::unhook, Heap::sweep: rows, in every phase
// promise: Heap::end_sweep, Heap::select, Heap::move_next, Heap::end_move: rows, in every phase
/// In every phase each step of a heap, with its answer and with what it leaves, is a row of the abstract collector. The
/// row leads from each state that the heap stands for to one that it then stands for.
pub fn each_step_of_a_heap_is_a_row()
    ensures { (c : ClearHeap) (step : NamedStep) → IsHeapRowOf c step }
{}

// promise: Heap::end_clear: no reference outside the doomed refers to one
/// Once clearing has ended, no reference outside the doomed refers to one of them.
pub fn nothing_outside_refers_to_the_doomed_in_a_sweep()
    ensures { (c : ClearHeap) (a : State) (n : ℕ) → HeapStands c a → is_in c.mark.phase Sweeping ≡ true
        → is_doomed c.mark n ≡ false → refers_into (is_doomed c.mark) (reference_at c.mark.heap n) ≡ false }
{}

// promise: Heap::hand, Heap::pending_of: what is pending is there, and not doomed
/// A pending reference is there, and isn't doomed.
pub fn what_is_pending_is_there_and_not_doomed()
    ensures there { (c : ClearHeap) (a : State) (n : ℕ) → HeapStands c a → has (pending_numbers c.pending) n ≡ true
        → is_there c.mark.heap.objects n ≡ true }
    ensures lives { (c : ClearHeap) (a : State) (n : ℕ) → HeapStands c a → has (pending_numbers c.pending) n ≡ true
        → is_doomed c.mark n ≡ false }
{}

// promise: Heap::clear_next: what was found is there, and not doomed
/// A reference that a worker has still to look at is there, and isn't doomed.
pub fn what_is_found_is_there_and_not_doomed()
    ensures there { (c : ClearHeap) (a : State) (n : ℕ) → HeapStands c a → is_in c.mark.phase Clearing ≡ true
        → has (joined c.mark.found) n ≡ true → is_there c.mark.heap.objects n ≡ true }
    ensures lives { (c : ClearHeap) (a : State) (n : ℕ) → HeapStands c a → is_in c.mark.phase Clearing ≡ true
        → has (joined c.mark.found) n ≡ true → is_doomed c.mark n ≡ false }
{}
