//! What may be kept in a mark: marks that spread along kept paths.

ghost use Rattle.std.specs.Prelude.{◌≡◌, ◌+◌, nat_lt, length};
ghost use Rattle.std.specs.Prelude.{[], ◌∷◌};
ghost use Rattle.ref_base.specs.Paths.{present};
ghost use Rattle.ref_objects.specs.Grounds.{MayGrow, IsWellFormed};
ghost use Rattle.ref_objects.specs.declared.stage.Stage.TheVariants.{Tuned};
ghost use Rattle.ref_judge.specs.LeftCounts.{unmarked_if};
ghost use Rattle.ref_judge.specs.Spreading.{Shades, Follows, HasGot};
ghost use Rattle.ref_judge.specs.Policies.{policy_as};

use crate::Profile;
use ref_base::{ObjNo, Policy, Urgency};
use ref_objects::{Entry, Objects, Worklist};
use std::alloc::Allocator;

// The policy under which the abstract collector keeps what one of the profile may.
pub(crate) fn policy_as(profile: Profile, policy: Policy) -> Policy
    ensures { result ≡ policy_as profile policy }
{
    if profile.soft_free {
        // No reference is older than no time.
        Policy {
            clock: 0,
            urgency: Urgency::Normal,
            span: 0,
        }
    } else {
        policy
    }
}

// What the slots hold is marked, and what is marked anew is grey.
pub(crate) fn shade_slots<A: Allocator + Copy>(objects: &mut Objects<A>, grey: &mut Worklist<A>)
    requires { MayGrow objects.old grey.old }
    ensures { Shades objects.old grey.old (present objects.old.heap.slots) objects.new grey.new }
{
    for place in 0..objects.slot_count() {
        if let Some(entry) = objects.mark_slot_at(place) {
            // Gives the proof that the grey list has room.
            known(objects);
            grey.push(entry);
        }
    }
}

// These are marked, and what is marked anew is grey.
pub(crate) fn shade_each<A: Allocator + Copy>(
    objects: &mut Objects<A>,
    grey: &mut Worklist<A>,
    numbers: &[ObjNo],
)
    requires { MayGrow objects.old grey.old }
    ensures { Shades objects.old grey.old numbers.now objects.new grey.new }
{
    for no in numbers.iter() {
        shade(objects, grey, *no);
    }
}

// The object of this number is marked. Where it is marked anew it is grey too.
pub(crate) fn shade<A: Allocator + Copy>(
    objects: &mut Objects<A>,
    grey: &mut Worklist<A>,
    no: ObjNo,
)
    requires { MayGrow objects.old grey.old }
    ensures { Shades objects.old grey.old (no ∷ []) objects.new grey.new }
{
    if objects.mark(no) {
        // Gives the proof that the grey list has room.
        known(objects);
        grey.push(Entry::of(no));
    }
}

// What kept paths lead to from the grey objects is marked.
pub(crate) fn follow<A: Allocator + Copy>(
    objects: &mut Objects<A>,
    grey: &mut Worklist<A>,
    policy: Policy,
)
    requires tuned { objects.old.space.stage ≡ Tuned }
    requires room { MayGrow objects.old grey.old }
    ensures follows { Follows policy objects.old grey.old objects.new grey.new }
    ensures none { grey.new.stands ≡ [] }
{
    while let Some(entry) = grey.take_first() {
        objects.scan(entry, policy, grey);
    }
}

// What kept paths lead to from this object is marked too, unless the collector keeps more.
pub(crate) fn mark_got<A: Allocator + Copy>(
    objects: &mut Objects<A>,
    grey: &mut Worklist<A>,
    got: Option<ObjNo>,
    keeps_more: bool,
    policy: Policy,
)
    requires tuned { objects.old.space.stage ≡ Tuned }
    requires room { MayGrow objects.old grey.old }
    requires none { grey.old.stands ≡ [] }
    ensures got { HasGot keeps_more policy got objects.old objects.new }
    ensures none { grey.new.stands ≡ [] }
    ensures room { grey.new.room ≡ grey.old.room }
{
    if let Some(no) = got
        && !keeps_more
    {
        shade(objects, grey, no);
        follow(objects, grey, policy);
    }
}

// Whether an object is left to scan, in a mark before whose begin those below `born` were made, and which scanned so
// many. As many objects were made in it as there are numbers from `born` on.
pub(crate) fn is_any_left<A: Allocator + Copy>(
    objects: &Objects<A>,
    keeps_more: bool,
    born: u64,
    scanned: u32,
) -> bool
    ensures { result ≡ nat_lt (objects.now.next + scanned + unmarked_if keeps_more objects.now)
        (length objects.now.heap.objects + born) }
{
    let unmarked = if keeps_more {
        0
    } else {
        objects.unmarked_count()
    };
    let may_be_kept = objects.object_count() as u128 + u128::from(born);
    may_be_kept > u128::from(objects.next_no()) + u128::from(scanned) + u128::from(unmarked)
}

// What holds of every heap, for the proofs: it does nothing.
pub(crate) fn known<A: Allocator + Copy>(objects: &Objects<A>)
    ensures { IsWellFormed objects.now }
{
    let _count = objects.object_count();
}
