//! A world, step by step. Worked traces are scripts, files of the program `refrun_cases`.

mod asks;
mod batches;
mod memory;
mod rounds;
mod scale;
mod starts;

use crate::steps::{Steps, Told};
use ref_base::{Config, SpanRule, Step};
use ref_world::World;
use std::alloc::Allocator;
use std::process::Abort;

/// One mutator, one worker, one queue, 8 cells, and a span of 10.
const CONFIG: Config = Config {
    mutators: 1,
    workers: 1,
    queues: 1,
    cells: 8,
    span: 10,
    rule: SpanRule::Fixed,
};

/// A configuration with two workers.
const TWO_WORKERS: Config = Config {
    workers: 2,
    ..CONFIG
};

/// A world with this memory.
fn world_of<A: Allocator + Copy>(rt: &impl Abort, alloc: A, config: Config) -> World<A> {
    match World::new(alloc, config) {
        Ok(world) => world,
        Err(fault) => panic!(rt; "{fault}"),
    }
}

impl<A: Allocator + Copy> Steps for World<A> {
    fn step(&mut self, step: Step) -> Told {
        Told::Reply(World::step(self, step))
    }
}

/// References 2, 4 and 6 are cleared: 2 and 6 by worker 0, and 4 by worker 1.
const THREE_CLEARED: &'static str = "
    m0 new s0 0 : object 1; m0 weak s1 s0 q0 0 : object 2; m0 new s0 0 : object 3
    m0 weak s2 s0 q0 0 : object 4; m0 new s0 0 : object 5; m0 weak s3 s0 q0 0 : object 6; m0 drop s0 : ok
    begin 1 normal : cycle 1; w0 scan : scanned 2; w1 scan : scanned 4; w0 scan : scanned 6
    endmark : doomed 3; w1 clearnext : cleared 4; w0 clearnext : cleared 2; w0 clearnext : cleared 6
    endclear : ok";
