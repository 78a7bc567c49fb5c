//! The roots that aren't slots: what is in hands, in queues, and pending.

ghost use Rattle.std.specs.Prelude.{◌≡◌, [], map};
ghost use Rattle.ref_base.specs.KeptPaths.{is_kept};
ghost use Rattle.ref_objects.specs.declared.stage.Stage.TheVariants.{Tuned};
ghost use Rattle.ref_objects.specs.Grounds.{MayGrow};
ghost use Rattle.std.specs.List.{list_all};
ghost use Rattle.ref_judge.specs.MarkEnding.{spares, carry_spared};
ghost use Rattle.ref_judge.specs.Spreading.{Shades, Spread, reported_by, reported_in, pending_among, judged_roots};

use crate::hand::Hand;
use crate::hands::Hands;
use crate::line::Line;
use crate::marks::{follow, shade, shade_each, shade_slots};
use crate::survivors::{MarkEnd, are_spared, is_spared};
use crate::worker::Worker;
use ref_base::Policy;
use ref_objects::{Objects, Worklist};
use std::alloc::Allocator;

// Just what kept paths lead to is marked, where nothing was.
pub(crate) fn mark_kept<A: Allocator + Copy>(
    objects: &mut Objects<A>,
    grey: &mut Worklist<A>,
    hands: &Hands<A>,
    lines: &[Line<A>],
    workers: &[Worker<A>],
    policy: Policy,
)
    requires tuned { objects.old.space.stage ≡ Tuned }
    requires room { MayGrow objects.old grey.old }
    requires none { grey.old.stands ≡ [] }
    ensures kept { Spread (is_kept policy) objects.old
        (judged_roots objects.old.heap hands.now lines.now workers.now) objects.new [] }
    ensures none { grey.new.stands ≡ [] }
    ensures room { grey.new.room ≡ grey.old.room }
{
    shade_slots(objects, grey);
    shade_hands(objects, grey, &hands.mutators);
    shade_hands(objects, grey, &hands.workers);
    shade_lines(objects, grey, lines);
    shade_pending(objects, grey, workers);
    follow(objects, grey, policy);
}

// What the notices of these hands report is marked, and what is marked anew is grey.
pub(crate) fn shade_hands<A: Allocator + Copy>(
    objects: &mut Objects<A>,
    grey: &mut Worklist<A>,
    hands: &[Hand],
)
    requires { MayGrow objects.old grey.old }
    ensures { Shades objects.old grey.old (reported_by hands.now) objects.new grey.new }
{
    for hand in hands.iter() {
        shade_each(objects, grey, hand.objects.as_slice());
    }
}

// And what those report that stand in these queues.
pub(crate) fn shade_lines<A: Allocator + Copy>(
    objects: &mut Objects<A>,
    grey: &mut Worklist<A>,
    lines: &[Line<A>],
)
    requires { MayGrow objects.old grey.old }
    ensures { Shades objects.old grey.old (reported_in lines.now) objects.new grey.new }
{
    for line in lines.iter() {
        shade_line(objects, grey, line);
    }
}

fn shade_line<A: Allocator + Copy>(objects: &mut Objects<A>, grey: &mut Worklist<A>, line: &Line<A>)
    requires { MayGrow objects.old grey.old }
    ensures { Shades objects.old grey.old line.now.stands objects.new grey.new }
{
    for place in 0..line.standing.len() {
        shade(objects, grey, line.standing[place]);
    }
}

// And the pending references of these workers.
pub(crate) fn shade_pending<A: Allocator + Copy>(
    objects: &mut Objects<A>,
    grey: &mut Worklist<A>,
    workers: &[Worker<A>],
)
    requires { MayGrow objects.old grey.old }
    ensures { Shades objects.old grey.old (pending_among workers.now) objects.new grey.new }
{
    for worker in workers.iter() {
        shade_waiting(objects, grey, worker);
    }
}

fn shade_waiting<A: Allocator + Copy>(
    objects: &mut Objects<A>,
    grey: &mut Worklist<A>,
    worker: &Worker<A>,
)
    requires { MayGrow objects.old grey.old }
    ensures { Shades objects.old grey.old (map (λ p. p.object) worker.now.pending) objects.new grey.new }
{
    for place in 0..worker.pending.len() {
        shade(objects, grey, worker.pending[place].object);
    }
}

// Whether the end of the mark dooms nothing that the notices of these hands report.
fn are_hands_spared<A: Allocator + Copy>(objects: &Objects<A>, end: MarkEnd, hands: &[Hand]) -> bool
    ensures { result ≡ list_all (λ h. list_all (spares end objects.now.tags) h.objects) hands.now }
{
    for hand in hands.iter() {
        if !are_spared(objects, end, hand.objects.as_slice()) {
            return false;
        }
    }
    true
}

// And nothing that those of anybody report.
pub(crate) fn are_carried_spared<A: Allocator + Copy>(
    objects: &Objects<A>,
    end: MarkEnd,
    hands: &Hands<A>,
) -> bool
    ensures { result ≡ carry_spared end objects.now.tags hands.now }
{
    are_hands_spared(objects, end, &hands.mutators)
        && are_hands_spared(objects, end, &hands.workers)
}

// And nothing that those report which stand in these queues.
pub(crate) fn are_lines_spared<A: Allocator + Copy>(
    objects: &Objects<A>,
    end: MarkEnd,
    lines: &[Line<A>],
) -> bool
    ensures { result ≡ list_all (λ l. list_all (spares end objects.now.tags) l.stands) lines.now }
{
    for line in lines.iter() {
        if !is_line_spared(objects, end, line) {
            return false;
        }
    }
    true
}

fn is_line_spared<A: Allocator + Copy>(objects: &Objects<A>, end: MarkEnd, line: &Line<A>) -> bool
    ensures { result ≡ list_all (spares end objects.now.tags) line.now.stands }
{
    for place in 0..line.standing.len() {
        if !is_spared(objects, end, line.standing[place]) {
            return false;
        }
    }
    true
}

// And no pending reference of these workers.
pub(crate) fn are_pending_spared<A: Allocator + Copy>(
    objects: &Objects<A>,
    end: MarkEnd,
    workers: &[Worker<A>],
) -> bool
    ensures { result ≡ list_all (λ w. list_all (λ p. spares end objects.now.tags p.object) w.pending) workers.now }
{
    for worker in workers.iter() {
        if !is_pending_spared(objects, end, worker) {
            return false;
        }
    }
    true
}

fn is_pending_spared<A: Allocator + Copy>(
    objects: &Objects<A>,
    end: MarkEnd,
    worker: &Worker<A>,
) -> bool
    ensures { result ≡ list_all (λ p. spares end objects.now.tags p.object) worker.now.pending }
{
    for place in 0..worker.pending.len() {
        if !is_spared(objects, end, worker.pending[place].object) {
            return false;
        }
    }
    true
}
