//! What a mark's end looks at: what it dooms, and what leads to that.

ghost use Rattle.std.specs.Prelude.{◌≡◌, ◌==◌, ◌+◌, ◌*◌, ◌<◌, [], length, map, take, drop, not, ◌||◌};
ghost use Rattle.std.specs.List.{list_all};
ghost use Rattle.ref_base.specs.DoomedSets.{refers_into};
ghost use Rattle.ref_base.specs.Graphs.{numbers, object_at};
ghost use Rattle.ref_base.specs.Heaps.{reference_at};
ghost use Rattle.ref_base.specs.KeptPaths.{is_kept};
ghost use Rattle.ref_space.specs.Tables.{fields_in};
ghost use Rattle.ref_judge.specs.MarkEnding.{passes, spares, dooms, must_stay, leads_out, next_behind, told_each};
ghost use Rattle.ref_judge.specs.MarkEnding.{EndsAll, EndsOne, AreFew};

use crate::marks::known;
use crate::rule::Rule;
use crate::worker::Worker;
use ref_base::{MutNo, ObjNo, Policy, SLOTS, SlotNo, Strength, Urgency};
use ref_objects::{Objects, Reference};
use std::alloc::Allocator;

// What a mark's end goes by: what was made before the cycle began, and not scanned in it, is doomed. A reference whose
// referent must be kept may not be cleared.
#[derive(Clone, Copy)]
pub(crate) struct MarkEnd {
    pub(crate) born: u64,
    pub(crate) cycle: u64,
    pub(crate) policy: Policy,
    pub(crate) soft_free: bool,
}

// Whether the end of a mark dooms so many, before whose begin those below `born` were made, and which scanned so many.
// As many objects were made in it as there are numbers from `born` on.
pub(crate) fn dooms_so_many<A: Allocator + Copy>(
    objects: &Objects<A>,
    born: u64,
    scanned: u32,
    count: u32,
) -> bool
    ensures { result ≡ (count + objects.now.next + scanned == length objects.now.heap.objects + born) }
{
    let others = u128::from(objects.next_no()) + u128::from(scanned);
    u128::from(count) + others == objects.object_count() as u128 + u128::from(born)
}

// How many it dooms.
pub(crate) fn doomed_count<A: Allocator + Copy>(
    objects: &Objects<A>,
    born: u64,
    scanned: u32,
) -> u32 {
    let old = objects.object_count() as u128 + u128::from(born);
    let others = u128::from(objects.next_no()) + u128::from(scanned);
    u32::try_from(old.saturating_sub(others)).unwrap_or(0)
}

// Whether the end of the mark dooms no object of this number.
pub(crate) fn is_spared<A: Allocator + Copy>(objects: &Objects<A>, end: MarkEnd, no: ObjNo) -> bool
    ensures { result ≡ spares end objects.now.tags no }
{
    u64::from(no.0) >= end.born || objects.cleared_in(no) == end.cycle
}

// And none of these.
pub(crate) fn are_spared<A: Allocator + Copy>(
    objects: &Objects<A>,
    end: MarkEnd,
    numbers: &[ObjNo],
) -> bool
    ensures { result ≡ list_all (spares end objects.now.tags) numbers.now }
{
    for no in numbers.iter() {
        if !is_spared(objects, end, *no) {
            return false;
        }
    }
    true
}

// And nothing that a slot holds.
pub(crate) fn are_slots_spared<A: Allocator + Copy>(objects: &Objects<A>, end: MarkEnd) -> bool
    ensures { result ≡ list_all (passes (spares end objects.now.tags)) objects.now.heap.slots }
{
    // Gives the proof that each mutator has 16 slots.
    known(objects);
    for mutator in 0..objects.config().mutators {
        if !are_slots_of_spared(objects, end, MutNo(mutator)) {
            return false;
        }
    }
    true
}

// And nothing that a slot of this mutator holds.
fn are_slots_of_spared<A: Allocator + Copy>(
    objects: &Objects<A>,
    end: MarkEnd,
    mutator: MutNo,
) -> bool
    requires slots { length objects.now.heap.slots ≡ 16 * objects.now.heap.config.mutators }
    requires mutator { mutator < objects.now.heap.config.mutators }
    ensures { result ≡ list_all (passes (spares end objects.now.tags))
        (take 16 (drop (16 * mutator) objects.now.heap.slots)) }
{
    for slot in 0..SLOTS as u32 {
        if let Ok(Some(no)) = objects.slot_of(mutator, SlotNo(slot)) {
            if !is_spared(objects, end, no) {
                return false;
            }
        }
    }
    true
}

// The next object behind this one.
fn next_object<A: Allocator + Copy>(objects: &Objects<A>, no: ObjNo) -> Option<ObjNo>
    requires few { AreFew objects.now }
    ensures { result ≡ next_behind objects.now no }
{
    match no.0.checked_add(1) {
        Some(next) => objects.first_from(ObjNo(next)),
        None => None,
    }
}

// Whether what is spared leads to nothing doomed, but by a reference that the mark's end may clear.
pub(crate) fn are_edges_spared<A: Allocator + Copy>(objects: &Objects<A>, end: MarkEnd) -> bool
    requires few { AreFew objects.now }
    ensures { result ≡ list_all (λ n. dooms end objects.now.tags n || not (leads_out end objects.now n))
        (numbers objects.now.heap.objects) }
{
    let mut next = objects.first_from(ObjNo(0));
    while let Some(no) = next {
        if is_spared(objects, end, no) && leads_out(objects, end, no) {
            return false;
        }
        next = next_object(objects, no);
    }
    true
}

// Whether this object leads to a doomed one by a field, or as a reference that the mark's end may not clear.
fn leads_out<A: Allocator + Copy>(objects: &Objects<A>, end: MarkEnd, no: ObjNo) -> bool
    ensures { result ≡ leads_out end objects.now no }
{
    !are_fields_spared(objects, end, no)
        || (refers_to_doomed(objects, end, no)
            && (must_stay(objects, end, no) || objects.cleared_in(no) != end.cycle))
}

// The rule that is broken by the first object that is spared and leads to a doomed one.
pub(crate) fn broken_by_edges<A: Allocator + Copy>(objects: &Objects<A>, end: MarkEnd) -> Rule {
    let mut next = objects.first_from(ObjNo(0));
    for _object in 0..objects.object_count() {
        let Some(no) = next else {
            return Rule::DoomedField;
        };
        if is_spared(objects, end, no) {
            if let Some(rule) = broken_by(objects, end, no) {
                return rule;
            }
        }
        next = object_behind(objects, no);
    }
    Rule::DoomedField
}

// The next object behind this one, for a walk of which no clause speaks.
pub(crate) fn object_behind<A: Allocator + Copy>(objects: &Objects<A>, no: ObjNo) -> Option<ObjNo> {
    objects.first_from(ObjNo(no.0.checked_add(1)?))
}

// The rule that this object breaks, which is spared, if it breaks one.
fn broken_by<A: Allocator + Copy>(objects: &Objects<A>, end: MarkEnd, no: ObjNo) -> Option<Rule> {
    if !leads_out(objects, end, no) {
        None
    } else if !refers_to_doomed(objects, end, no) {
        Some(Rule::DoomedField)
    } else if must_stay(objects, end, no) {
        Some(Rule::DoomedSoft)
    } else if objects.cleared_in(no) != end.cycle {
        Some(Rule::ClearedUnscanned)
    } else {
        Some(Rule::DoomedField)
    }
}

// Whether no field of the object holds a doomed one.
fn are_fields_spared<A: Allocator + Copy>(objects: &Objects<A>, end: MarkEnd, no: ObjNo) -> bool
    ensures { result ≡
        list_all (passes (spares end objects.now.tags)) (fields_in (object_at objects.now.heap.objects no)) }
{
    let fields = objects.fields_of(no);
    for field in 0..fields.len() {
        if let Some(held) = fields.get(field) {
            if !is_spared(objects, end, held) {
                return false;
            }
        }
    }
    true
}

// Whether this is a reference to a doomed object.
fn refers_to_doomed<A: Allocator + Copy>(objects: &Objects<A>, end: MarkEnd, no: ObjNo) -> bool
    ensures { result ≡ refers_into (dooms end objects.now.tags) (reference_at objects.now.heap no) }
{
    match objects.referent_of(no) {
        Some(referent) => !is_spared(objects, end, referent),
        None => false,
    }
}

// Whether this is a reference whose referent a cycle of this policy keeps, where it must.
fn must_stay<A: Allocator + Copy>(objects: &Objects<A>, end: MarkEnd, no: ObjNo) -> bool
    ensures { result ≡ must_stay end (reference_at objects.now.heap no) }
{
    match objects.reference_of(no) {
        Some(reference) => !end.soft_free && keeps(end.policy, reference),
        None => false,
    }
}

// Whether a cycle that goes by this keeps the referent of the reference.
fn keeps(policy: Policy, reference: Reference) -> bool
    ensures { result ≡ is_kept policy reference }
{
    let is_young = policy.clock.saturating_sub(reference.stamp) <= policy.span;
    match (reference.strength, policy.urgency) {
        (Strength::Soft, Urgency::Normal) => is_young,
        _ => false,
    }
}

// Marks what is spared, where nothing was marked, and clears each reference of that to what is doomed.
pub(crate) fn mark_spared<A: Allocator + Copy>(objects: &mut Objects<A>, end: MarkEnd)
    requires unmarked { objects.old.marked ≡ [] }
    requires few { AreFew objects.old }
    ensures { EndsAll end objects.old objects.new }
{
    let mut next = objects.first_from(ObjNo(0));
    while let Some(no) = next {
        next = next_object(objects, no);
        mark_if_spared(objects, end, no);
    }
}

// Marks this object if it is spared, and then clears it if it refers to a doomed one.
fn mark_if_spared<A: Allocator + Copy>(objects: &mut Objects<A>, end: MarkEnd, no: ObjNo)
    ensures { EndsOne end no objects.old objects.new }
{
    if is_spared(objects, end, no) {
        objects.mark(no);
        if refers_to_doomed(objects, end, no) {
            objects.cut(no);
        }
    }
}

// Each reference that a worker scanned says whether the mark's end clears it, and none has been looked at.
pub(crate) fn tell_found<A: Allocator + Copy>(
    objects: &Objects<A>,
    end: MarkEnd,
    workers: &mut Vec<Worker<A>, A>,
)
    ensures { workers.new.items ≡ map (λ w. told_each end objects.now w) workers.old.items }
{
    for place in 0..workers.len() {
        tell_each(objects, end, &mut workers[place]);
    }
}

// Each reference that this worker scanned says whether the mark's end clears it. None of them has been looked at.
fn tell_each<A: Allocator + Copy>(objects: &Objects<A>, end: MarkEnd, worker: &mut Worker<A>)
    ensures { worker.new ≡ told_each end objects.now worker.old }
{
    worker.at = 0;
    for place in 0..worker.found.len() {
        let found = &mut worker.found[place];
        found.is_cleared = refers_to_doomed(objects, end, found.object);
    }
}
