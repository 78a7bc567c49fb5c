//! What a caller of a heap's objects can prove of its answers.

ghost use Rattle.std.specs.Prelude.{◌≡◌, ◌≢◌, true};
ghost use Rattle.ref_space.specs.Worklists.{empty_worklist};
ghost use Rattle.ref_objects.specs.Grounds.{first_ground};

use ref_base::{Config, MutNo, ObjNo, QueueNo, SlotNo, SpanRule, Strength};
use ref_objects::{Colour, Hold, Objects, Start, Worklist};
use std::alloc::Global;
use std::process::Abort;

const CONFIG: Config = Config {
    mutators: 1,
    workers: 1,
    queues: 1,
    cells: 2,
    span: 10,
    rule: SpanRule::Fixed,
};

const START: Start = Start::FIRST;

// promise: Objects::alloc_obj: the last cell is given, and numbers follow
fn each_object_has_a_cell_and_a_number(objects: &mut Objects) -> bool
    requires { objects.old ≡ first_ground CONFIG 1 START }
    ensures { result ≡ true }
{
    let _first = objects.alloc_obj(MutNo(0), SlotNo(0), 0);
    match objects.alloc_obj(MutNo(0), SlotNo(1), 0) {
        Ok(second) => second.0 == 2,
        Err(_) => false,
    }
}

// promise: Objects::copy: the slot that is copied keeps its object
fn a_copy_is_no_move(objects: &mut Objects) -> bool
    requires { objects.old ≡ first_ground CONFIG 1 START }
    ensures { result ≡ true }
{
    let _made = objects.alloc_obj(MutNo(0), SlotNo(0), 0);
    let _copied = objects.copy(MutNo(0), SlotNo(1), SlotNo(0));
    match objects.slot_of(MutNo(0), SlotNo(0)) {
        Ok(Some(no)) => no.0 == 1,
        _ => false,
    }
}

// promise: Objects::store: the field that is named is written
fn a_store_writes_its_field(objects: &mut Objects) -> bool
    requires { objects.old ≡ first_ground CONFIG 1 START }
    ensures { result ≡ true }
{
    let _made = objects.alloc_obj(MutNo(0), SlotNo(0), 2);
    let _stored = objects.store(MutNo(0), SlotNo(0), 0, SlotNo(0));
    objects.fields_of(ObjNo(1)).get(0).is_some()
}

// promise: Objects::condemn, Objects::free: what nothing refers to is listed and may be freed
fn an_object_is_freed(objects: &mut Objects, condemned: &mut Worklist) -> bool
    requires made { objects.old ≡ first_ground CONFIG 1 START }
    requires empty { condemned.old ≡ empty_worklist 2 }
    ensures { result ≡ true }
{
    let _made = objects.alloc_obj(MutNo(0), SlotNo(0), 0);
    let _dropped = objects.drop_slot(MutNo(0), SlotNo(0));
    objects.begin_marks(Colour::A);
    objects.condemn(condemned);
    match condemned.take_first() {
        Some(entry) => objects.free(entry),
        None => false,
    }
}

// promise: Objects::alloc_ref: the clock is the stamp, and the queue is kept
fn a_soft_reference_has_its_stamp_and_queue(objects: &mut Objects) -> bool
    requires { objects.old ≡ first_ground CONFIG 1 START }
    ensures { result ≡ true }
{
    objects.set_clock(5);
    let _made = objects.alloc_obj(MutNo(0), SlotNo(0), 0);
    let queue = Some(QueueNo(0));
    let _refers = objects.alloc_ref(MutNo(0), SlotNo(1), Strength::Soft, SlotNo(0), queue, 1);
    objects.stamp_of(ObjNo(2)) == 5 && objects.queue_of(ObjNo(2)).is_some()
}

// promise: Objects::set_cleared_in, Objects::cleared_in: of no other object
fn a_clear_is_told_of_its_object_alone(objects: &mut Objects) -> bool
    requires { objects.old ≡ first_ground CONFIG 1 START }
    ensures { result ≡ true }
{
    let _first = objects.alloc_obj(MutNo(0), SlotNo(0), 0);
    let _second = objects.alloc_obj(MutNo(0), SlotNo(1), 0);
    objects.set_cleared_in(ObjNo(1), 7);
    objects.cleared_in(ObjNo(1)) == 7 && objects.cleared_in(ObjNo(2)) == 0
}

// promise: Objects::set_link, Objects::link_of: of no other object
fn a_link_is_told_of_its_object_alone(objects: &mut Objects) -> bool
    requires { objects.old ≡ first_ground CONFIG 1 START }
    ensures { result ≡ true }
{
    let _first = objects.alloc_obj(MutNo(0), SlotNo(0), 0);
    let _second = objects.alloc_obj(MutNo(0), SlotNo(1), 0);
    objects.set_link(ObjNo(1), 2);
    objects.link_of(ObjNo(1)) == 2 && objects.link_of(ObjNo(2)) == 0
}

// promise: Objects::linked_of: link, clear and referent are those written
fn a_list_has_what_was_written(objects: &mut Objects) -> bool
    requires { objects.old ≡ first_ground CONFIG 1 START }
    ensures { result ≡ true }
{
    let _made = objects.alloc_obj(MutNo(0), SlotNo(0), 0);
    let _refers = objects.alloc_ref(MutNo(0), SlotNo(1), Strength::Weak, SlotNo(0), None, 0);
    objects.set_link(ObjNo(2), 1);
    objects.cut(ObjNo(2));
    objects.set_cleared_in(ObjNo(2), 7);
    let linked = objects.linked_of(ObjNo(2));
    linked.no.0 == 2
        && linked.reference.is_some()
        && objects.referent_of(ObjNo(2)).is_none()
        && linked.link == 1
        && linked.cleared_in == 7
}

// promise: Objects::look_at: a reference to what isn't marked is cleared
fn a_look_clears(objects: &mut Objects) -> bool
    requires { objects.old ≡ first_ground CONFIG 1 START }
    ensures { result ≡ true }
{
    let _made = objects.alloc_obj(MutNo(0), SlotNo(0), 0);
    let _refers = objects.alloc_ref(MutNo(0), SlotNo(1), Strength::Weak, SlotNo(0), None, 0);
    let look = objects.look_at(ObjNo(2), 7);
    look.is_cleared
}

// promise: Objects::hold, Objects::release: one hold, and none once released
fn a_hold_is_counted_till_its_release(objects: &mut Objects) -> bool
    requires { objects.old ≡ first_ground CONFIG 1 START }
    ensures { result ≡ true }
{
    let _made = objects.alloc_obj(MutNo(0), SlotNo(0), 0);
    let Ok(hold) = objects.hold(MutNo(0), SlotNo(0)) else {
        return false;
    };
    let count = objects.hold_count();
    match objects.release(hold) {
        Ok(()) => count == 1 && objects.hold_count() == 0,
        Err((_, hold)) => {
            hold.leak();
            false
        }
    }
}

// promise: Objects::adopt: another heap's hold is refused and comes back
fn adopts_no_hold_of_another_heap(objects: &mut Objects, hold: Hold) -> bool
    requires { hold.heap_no ≢ objects.old.heap.no }
    ensures { result ≡ true }
{
    match objects.adopt(MutNo(0), SlotNo(0), hold) {
        Ok(_) => false,
        Err((_, hold)) => {
            hold.leak();
            true
        }
    }
}

/// A heap of this number, where nothing was made yet.
fn heap(rt: &impl Abort, alloc: Global, heap_no: u64) -> Objects
    ensures { result ≡ first_ground CONFIG heap_no START }
{
    match Objects::new(alloc, CONFIG, heap_no) {
        Ok(objects) => objects,
        Err(fault) => panic!(rt; "no heap: {fault}"),
    }
}

/// A list with room for two objects, where none stands yet.
fn list(rt: &impl Abort, alloc: Global) -> Worklist
    ensures { result ≡ empty_worklist 2 }
{
    match Worklist::new(alloc, 2) {
        Ok(list) => list,
        Err(_) => panic!(rt; "no list"),
    }
}

#[test]
fn what_callers_of_objects_see(rt: HostRuntime) {
    let alloc = rt.alloc();
    assert!(rt; each_object_has_a_cell_and_a_number(&mut heap(&rt, alloc, 1)));
    assert!(rt; a_copy_is_no_move(&mut heap(&rt, alloc, 1)));
    assert!(rt; a_store_writes_its_field(&mut heap(&rt, alloc, 1)));
    assert!(rt; an_object_is_freed(&mut heap(&rt, alloc, 1), &mut list(&rt, alloc)));
    assert!(rt; a_soft_reference_has_its_stamp_and_queue(&mut heap(&rt, alloc, 1)));
    assert!(rt; a_hold_is_counted_till_its_release(&mut heap(&rt, alloc, 1)));
}

#[test]
fn what_lists_see_of_objects(rt: HostRuntime) {
    let alloc = rt.alloc();
    assert!(rt; a_clear_is_told_of_its_object_alone(&mut heap(&rt, alloc, 1)));
    assert!(rt; a_link_is_told_of_its_object_alone(&mut heap(&rt, alloc, 1)));
    assert!(rt; a_list_has_what_was_written(&mut heap(&rt, alloc, 1)));
    assert!(rt; a_look_clears(&mut heap(&rt, alloc, 1)));
}

#[test]
fn a_heap_adopts_its_own_holds_alone(rt: HostRuntime) {
    let mut own = heap(&rt, rt.alloc(), 1);
    let mut other = heap(&rt, rt.alloc(), 2);
    let _made = own.alloc_obj(MutNo(0), SlotNo(0), 0);
    let _made = other.alloc_obj(MutNo(0), SlotNo(0), 0);
    match (own.mint(ObjNo(1)), other.mint(ObjNo(1))) {
        (Ok(counted), Ok(foreign)) => {
            counted.leak();
            assert!(rt; adopts_no_hold_of_another_heap(&mut own, foreign));
        }
        _ => panic!(rt; "no hold"),
    }
}
