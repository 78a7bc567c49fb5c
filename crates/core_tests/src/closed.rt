//! Whether what isn't marked may be condemned, and the call where it may.

ghost use Rattle.std.specs.Prelude.{◌≡◌, ℕ, true, Some};
ghost use Rattle.std.specs.Bool.{OnTrue};
ghost use Rattle.ref_base.specs.Graphs.{object_at};
ghost use Rattle.ref_base.specs.Members.{has};
ghost use Rattle.ref_base.specs.Paths.{present};
ghost use Rattle.ref_space.specs.Tables.{fields_in};
ghost use Rattle.ref_objects.specs.Grounds.{IsClosed, IsWellFormed, named_in};

use ref_base::{MutNo, ObjNo, SlotNo};
use ref_objects::{Fields, Objects, Stage, Worklist};
use std::alloc::Allocator;

/// Whether no slot, no hold and nothing that is marked refers to what isn't marked. In time of the slots and of the
/// numbers from the first object's to the last's.
pub fn is_closed<A: Allocator + Copy>(heap: &Objects<A>) -> bool
    ensures { OnTrue result (IsClosed heap.now.heap (has heap.now.marked)) }
{
    are_slots_closed(heap) && are_objects_closed(heap)
}

/// Condemns what isn't marked, where that may be in a cycle and the list has room. False else: then nothing changes.
pub fn condemn_if_closed<A: Allocator + Copy>(
    heap: &mut Objects<A>,
    condemned: &mut Worklist<A>,
) -> bool {
    if heap.stage() != Stage::Tuned || condemned.room() < heap.object_count() || !is_closed(heap) {
        return false;
    }
    heap.condemn(condemned);
    true
}

// Whether what slots hold is marked.
fn are_slots_closed<A: Allocator + Copy>(heap: &Objects<A>) -> bool
    ensures { OnTrue result
        ((n : ℕ) → has (present heap.now.heap.slots) n ≡ true → has heap.now.marked n ≡ true) }
{
    for place in 0..heap.slot_count() {
        let Ok(mutator) = u32::try_from(place / 16) else {
            return false;
        };
        let Ok(value) = heap.slot_of(MutNo(mutator), SlotNo((place % 16) as u32)) else {
            return false;
        };
        if !is_marked_if_any(heap, value) {
            return false;
        }
    }
    true
}

// Whether each object is closed.
fn are_objects_closed<A: Allocator + Copy>(heap: &Objects<A>) -> bool
    ensures held { OnTrue result ((n : ℕ) → has heap.now.heap.holds n ≡ true → has heap.now.marked n ≡ true) }
    ensures names { OnTrue result ((m n : ℕ) → has heap.now.marked m ≡ true
        → has (named_in (object_at heap.now.heap.objects m)) n ≡ true → has heap.now.marked n ≡ true) }
{
    known(heap);
    let Some(first) = heap.first_from(ObjNo(0)) else {
        return true;
    };
    for number in u64::from(first.0)..heap.next_no() {
        let Ok(no) = u32::try_from(number) else {
            return false;
        };
        if !is_object_closed(heap, ObjNo(no)) {
            return false;
        }
    }
    true
}

// Whether an object is marked where it is held, and what it names where it is marked.
fn is_object_closed<A: Allocator + Copy>(heap: &Objects<A>, no: ObjNo) -> bool
    ensures held { OnTrue result (has heap.now.heap.holds no ≡ true → has heap.now.marked no ≡ true) }
    ensures names { OnTrue result ((n : ℕ) → has heap.now.marked no ≡ true
        → has (named_in (object_at heap.now.heap.objects no)) n ≡ true → has heap.now.marked n ≡ true) }
{
    if !heap.is_marked(no) {
        return !heap.is_held(no);
    }
    is_marked_if_any(heap, heap.referent_of(no)) && are_marked(heap, &heap.fields_of(no))
}

// Whether what these fields hold is marked.
fn are_marked<A: Allocator + Copy>(heap: &Objects<A>, fields: &Fields) -> bool
    ensures { OnTrue result ((n : ℕ) → has (present fields.now) n ≡ true → has heap.now.marked n ≡ true) }
{
    for field in 0..fields.len() {
        if !is_marked_if_any(heap, fields.get(field)) {
            return false;
        }
    }
    true
}

// Whether this is marked, if it is an object.
fn is_marked_if_any<A: Allocator + Copy>(heap: &Objects<A>, value: Option<ObjNo>) -> bool
    ensures { OnTrue result ((n : ℕ) → value ≡ Some n → has heap.now.marked n ≡ true) }
{
    match value {
        Some(no) => heap.is_marked(no),
        None => true,
    }
}

/// What holds of every heap, for the proofs: it does nothing.
pub fn known<A: Allocator + Copy>(objects: &Objects<A>)
    ensures { IsWellFormed objects.now }
{
    let _count = objects.object_count();
}
