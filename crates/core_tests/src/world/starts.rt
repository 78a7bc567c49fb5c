//! Worlds whose numbers begin elsewhere than at one.

use super::CONFIG;
use crate::steps::agree;
use rationed::Rationed;
use ref_base::{Config, Fault};
use ref_objects::Start;
use ref_world::World;
use std::alloc::Allocator;
use std::test::Fail;

/// Where a world starts, by its first object and its first page.
const fn start(obj: u32, page: u32) -> Start {
    Start {
        obj,
        page,
        ..Start::FIRST
    }
}

/// Why a world of so many cells can't start so.
fn refusal<A: Allocator + Copy>(alloc: A, cells: u32, start: Start) -> Option<Fault> {
    match World::starting(alloc, Config { cells, ..CONFIG }, start) {
        Ok(world) => {
            world.end();
            None
        }
        Err(fault) => Some(fault),
    }
}

#[test]
fn a_world_starts_only_where_its_numbers_can(rt: HostRuntime) {
    // The cells, where it starts, and what it is refused. Cells 65 to 128 fill two pages, and twice as many are there.
    let table = [
        (128, start(0, 1), Some(Fault::BadConfig)),
        (128, start(1, 0), Some(Fault::BadConfig)),
        (128, start(1, 4_294_967_292), None),
        (128, start(1, 4_294_967_293), Some(Fault::BadConfig)),
        (129, start(1, 4_294_967_292), Some(Fault::BadConfig)),
        (128, start(u32::MAX, 1), None),
        (0, Start::FIRST, Some(Fault::BadConfig)),
        (65_537, Start::FIRST, Some(Fault::BadConfig)),
    ];
    for (row, &(cells, start, want)) in table.iter().enumerate() {
        assert!(rt; refusal(rt.alloc(), cells, start) == want, "row {row}");
    }
}

#[test]
fn a_start_is_refused_before_memory_is_taken(rt: HostRuntime) {
    let none = Rationed::new(rt.alloc());
    none.ration(0);
    assert!(rt; refusal(&none, 8, start(7, 9)) == Some(Fault::NoMemory));
    assert!(rt; refusal(&none, 8, start(7, 0)) == Some(Fault::BadConfig));
}

#[test]
fn objects_and_cycles_are_numbered_from_the_start_on(rt: HostRuntime) -> Result<(), Fail> {
    let story = "
        m0 new s0 0 : object 4294967294; m0 weak s1 s0 q0 0 : object 4294967295
        m0 new s2 0 : refused 5 NumbersSpent; m0 drop s0 : ok; begin 5 normal : cycle 18446744073709551615
        w0 scan : scanned 4294967295; endmark : doomed 1; w0 clearnext : cleared 4294967295; endclear : ok
        w0 hand : notice 4294967295 q0 cycle 18446744073709551615 w0; w0 put : added 0
        m0 poll q0 : took 4294967295";
    let start = Start {
        obj: u32::MAX - 1,
        cycle: u64::MAX - 1,
        page: 9,
    };
    let mut world = World::starting(rt.alloc(), CONFIG, start)?;
    agree(&rt, &mut world, story);
    world.end();
    Ok(())
}
