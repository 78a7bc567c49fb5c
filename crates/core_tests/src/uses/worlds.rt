//! What a caller of a world can prove of its answers.

ghost use Rattle.std.specs.Prelude.{◌≡◌};
ghost use Rattle.ref_base.specs.Refusals.{is_empty};
ghost use Rattle.ref_world.specs.WorldHeaps.{cycles_of};

use ref_base::{Config, MutNo, Phase, PlainStep, Reply, SlotNo, SpanRule, Urgency, WorkerNo};
use ref_world::World;
use std::process::Abort;
use std::test::Fail;

/// Cells that fill two pages: so there are four.
const CONFIG: Config = Config {
    mutators: 1,
    workers: 1,
    queues: 1,
    cells: 128,
    span: 10,
    rule: SpanRule::Fixed,
};

const WORKER: WorkerNo = WorkerNo(0);

// promise: World::ask: an end of moves is done exactly where no object is left to move
fn moves_end_where_none_is_left(world: &mut World) -> bool
    ensures { (cycles_of world.old.heap).phase ≡ Phase.Moving
        → result ≡ is_empty (cycles_of world.old.heap).space.still_to_move }
{
    match world.ask(PlainStep::EndMove).reply() {
        Reply::Done => true,
        _ => false,
    }
}

/// A step that makes an object without fields, which this slot holds.
fn new(slot: u32) -> PlainStep {
    PlainStep::New {
        mutator: MutNo(0),
        slot: SlotNo(slot),
        fields: 0,
    }
}

/// The steps of a cycle in which three objects are scanned.
const CYCLE: [PlainStep; 8] = [
    PlainStep::Begin {
        now: 0,
        urgency: Urgency::Normal,
    },
    PlainStep::Scan { worker: WORKER },
    PlainStep::Scan { worker: WORKER },
    PlainStep::Scan { worker: WORKER },
    PlainStep::EndMark,
    PlainStep::EndClear,
    PlainStep::Sweep { worker: WORKER },
    PlainStep::EndSweep,
];

#[test]
fn what_callers_of_a_world_see(rt: HostRuntime) -> Result<(), Fail> {
    let mut world = World::new(rt.alloc(), CONFIG)?;
    // Object 65, the first of the second page, is left in slot 1.
    let _first = world.ask(new(0));
    let _second = world.ask(new(2));
    for _object in 0..63 {
        let _made = world.ask(new(1));
    }
    for step in CYCLE {
        let _done = world.ask(step);
    }
    let chosen = world.ask(PlainStep::Select).reply();
    assert!(rt;
        matches!(chosen, Reply::Selected(3)),
        "three objects are to move"
    );
    for left in 0..3 {
        assert!(rt;
            !moves_end_where_none_is_left(&mut world),
            "{left} have moved"
        );
        let _moved = world.ask(PlainStep::MoveNext { worker: WORKER });
    }
    assert!(rt; moves_end_where_none_is_left(&mut world), "all have moved");
    world.end();
    Ok(())
}
