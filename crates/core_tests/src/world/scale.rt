//! A heap of as many cells as there may be.

use super::{CONFIG, world_of};
use crate::steps::{agree, agree_with, make_in};
use ref_base::{Config, SpanRule};
use ref_world::World;
use std::process::Abort;

/// How many cells the heap has, and how long its span is.
const CELLS: u32 = 65_536;

const LARGEST: Config = Config {
    cells: CELLS,
    span: CELLS as u64,
    rule: SpanRule::Scaled,
    ..CONFIG
};

/// A cycle that begins at this clock, in which objects 2 and 65,536, which slots hold, and then object 1, which soft
/// reference 2 keeps, are all that is reached.
fn keep(rt: &impl Abort, world: &mut World, now: u32, cycle: u32) {
    agree_with(rt, world, "begin $ normal : cycle $", &[now, cycle]);
    let story = "w0 scan : scanned 2; w0 scan : scanned 65536; w0 scan : scanned 1; w0 scan : none";
    agree(rt, world, story);
}

/// Fills the heap: object 1 is in no slot then, soft reference 2 to it in slot 1, and the last object in slot 2.
fn fill(rt: &impl Abort, world: &mut World) {
    let story = "m0 new s0 0 : object 1; m0 soft s1 s0 q0 0 : object 2";
    agree(rt, world, story);
    make_in(rt, world, 2, 3..CELLS + 1);
    agree(rt, world, "m0 new s3 0 : refused 4 NoCell; m0 drop s0 : ok");
}

/// Ends the mark, which dooms all but three objects, and the cycle.
fn free(rt: &impl Abort, world: &mut World) {
    agree(rt, world, "endmark : doomed 65533; endclear : ok");
    for _turn in 0..1_023 {
        agree(rt, world, "w0 sweep : swept 64");
    }
    let story = "w0 sweep : swept 61; w0 sweep : none; endsweep : ok";
    agree(rt, world, story);
}

#[test]
fn a_heap_of_65536_cells_fills_and_is_swept(rt: HostRuntime) {
    let mut world = world_of(&rt, rt.alloc(), LARGEST);
    fill(&rt, &mut world);
    // Nothing is free, so that the span is none; but no time has passed.
    keep(&rt, &mut world, 0, 1);
    free(&rt, &mut world);
    // All but three cells are free, and the span is less by three.
    keep(&rt, &mut world, 65_533, 2);
    let story = "endmark : doomed 0; endclear : ok; endsweep : ok";
    agree(&rt, &mut world, story);
    let past = "
        begin 65534 normal : cycle 3; w0 scan : scanned 2; w0 scan : scanned 65536; w0 scan : none
        endmark : doomed 1; w0 clearnext : cleared 2";
    agree(&rt, &mut world, past);
    world.end();
}
