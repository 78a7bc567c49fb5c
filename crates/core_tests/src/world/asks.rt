//! What is asked of a world beside its steps: the reference in a slot, if an object is there, and what a queue has.

ghost use Rattle.std.specs.Prelude.{◌≡◌, IfOk, length};
ghost use Rattle.ref_world.specs.Cores.{core_queue_at};

use super::{CONFIG, THREE_CLEARED, TWO_WORKERS, world_of};
use crate::queues::listed;
use crate::steps::{Steps, Told, agree, made};
use ref_base::{Config, Fault, MutNo, ObjNo, QueueNo, Reply, SlotNo, Step};
use ref_world::World;
use std::alloc::{Allocator, Global};
use std::process::Abort;

/// A world, and where lists have their memory from.
struct Asked {
    world: World,
    alloc: Global,
}

/// How many notices stand in the queue of this number.
fn standing_in<A: Allocator + Copy>(
    alloc: Global,
    world: &World<A>,
    no: QueueNo,
) -> Result<usize, Fault>
    ensures { IfOk result (λ count. count ≡ length (core_queue_at world.now no).stands) }
{
    let standing = world.queue(no)?.stands(alloc)?;
    Ok(standing.len())
}

/// Calls name a queue, an object, or a slot and its mutator.
impl Steps for Asked {
    fn step(&mut self, step: Step) -> Told {
        Told::Reply(World::step(&mut self.world, step))
    }

    fn own(&mut self, name: &str, numbers: (u32, u64)) -> Told {
        let Ok(mutator) = u32::try_from(numbers.1) else {
            return Told::Unknown;
        };
        match name {
            "ref_in" => made(self.world.ref_in(MutNo(mutator), SlotNo(numbers.0))),
            "is_there" => Told::Reply(Reply::Refers(self.world.is_there(ObjNo(numbers.0)))),
            "standing" => match standing_in(self.alloc, &self.world, QueueNo(numbers.0)) {
                Ok(count) => Told::Number(Some(count as u64)),
                Err(fault) => Told::Reply(Reply::Refused(fault)),
            },
            _ => match self.world.queue(QueueNo(numbers.0)) {
                Ok(queue) => listed(queue, self.alloc, name),
                Err(fault) => Told::Reply(Reply::Refused(fault)),
            },
        }
    }
}

/// A story of a world in two parts.
fn tell(rt: &impl Abort, alloc: Global, config: Config, first: &str, then: &str) {
    let world = world_of(rt, alloc, config);
    let mut asked = Asked { world, alloc };
    agree(rt, &mut asked, first);
    agree(rt, &mut asked, then);
    let Asked {
        world,
        alloc: _alloc,
    } = asked;
    world.end();
}

#[test]
fn a_slot_tells_its_reference(rt: HostRuntime) {
    let made = "m0 new s0 0 : object 1; m0 weak s1 s0 q0 0 : object 2";
    let story = "
        ref_in 1 : object 2; ref_in 0 : refused 8 NotAReference; ref_in 2 : refused 6 EmptySlot
        ref_in 16 : refused 9 NoSuchActor; ref_in 1 1 : refused 9 NoSuchActor";
    tell(&rt, rt.alloc(), CONFIG, made, story);
}

#[test]
fn an_object_is_there_until_a_sweep_frees_it(rt: HostRuntime) {
    let story = "
        is_there 0 : false; is_there 1 : true; is_there 5 : true; is_there 7 : false
        w0 sweep : swept 3; is_there 1 : false; is_there 2 : true; is_there 3 : false; is_there 4 : true
        is_there 5 : false; endsweep : ok; m0 new s4 0 : object 7; is_there 7 : true; is_there 1 : false
        is_there 4294967295 : false";
    tell(&rt, rt.alloc(), TWO_WORKERS, THREE_CLEARED, story);
}

#[test]
fn each_queue_has_its_own(rt: HostRuntime) {
    let two_queues = Config {
        queues: 2,
        ..CONFIG
    };
    let put_in = "
        m0 new s0 0 : object 1; m0 weak s1 s0 q1 0 : object 2; m0 weak s2 s0 q0 0 : object 3
        m0 weak s3 s0 q1 0 : object 4; m0 unhook s3 : notice 4 q1 own; m0 put : added 0
        m0 unhook s2 : notice 3 q0 own; m0 put : added 0; m0 unhook s1 : notice 2 q1 own; m0 put : added 1
        m0 poll q1 : took 4; m0 release : ok";
    let story = "
        enqueued 0 : 3; taken 0 :; stands 0 : 3; standing 0 : 1
        enqueued 1 : 4 2; taken 1 : 4; stands 1 : 2; standing 1 : 1
        enqueued 2 : refused 10 BadQueue; standing 2 : refused 10 BadQueue";
    tell(&rt, rt.alloc(), two_queues, put_in, story);
}

#[test]
fn two_workers_put_in_what_each_cleared_in_its_order(rt: HostRuntime) {
    let story = "
        w0 hand : notice 2 q0 cycle 1 w0; w1 hand : notice 4 q0 cycle 1 w1; w0 put : added 0
        w0 hand : notice 6 q0 cycle 1 w0; w0 put : added 1; w1 put : added 2; m0 poll q0 : took 2
        m0 release : ok; m0 poll q0 : took 6; m0 release : ok; m0 poll q0 : took 4
        enqueued 0 : 2 6 4; taken 0 : 2 6 4; stands 0 :; standing 0 : 0; enqueued 1 : refused 10 BadQueue";
    tell(&rt, rt.alloc(), TWO_WORKERS, THREE_CLEARED, story);
}
