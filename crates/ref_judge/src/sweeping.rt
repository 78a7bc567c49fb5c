//! What a sweep frees.

ghost use Rattle.std.specs.Prelude.{◌≡◌, min, length, take, drop};
ghost use Rattle.ref_objects.specs.Grounds.{IsWellFormed};
ghost use Rattle.ref_judge.specs.FreedGrounds.{all_freed};

use ref_objects::{Objects, Worklist};
use std::alloc::Allocator;

/// How many objects a sweep frees at most.
const MOST_SWEPT: u32 = 64;

// Frees the 64 first of the doomed, or all: how many these are. They are condemned.
pub(crate) fn free_some<A: Allocator + Copy>(
    objects: &mut Objects<A>,
    doomed: &mut Worklist<A>,
) -> u32
    ensures count { result ≡ min 64 (length doomed.old.stands) }
    ensures after { objects.new ≡ all_freed objects.old (take 64 doomed.old.stands) }
    ensures left { doomed.new ≡ record doomed.old { stands = drop 64 doomed.old.stands } }
    ensures well_formed { IsWellFormed objects.old }
{
    known(objects);
    let mut freed = 0;
    while freed < MOST_SWEPT {
        let Some(entry) = doomed.take_first() else {
            break;
        };
        objects.free(entry);
        freed += 1;
    }
    freed
}

// What holds of every heap, for the proofs: it does nothing.
fn known<A: Allocator + Copy>(objects: &Objects<A>)
    ensures { IsWellFormed objects.now }
{
    let _count = objects.object_count();
}
