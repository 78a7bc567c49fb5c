//! Steps by `World::step`: the lists that `c/speed.c` does by the core for C.

use crate::letters::CONFIG;
use crate::timing::{Sample, Timer};
use ref_base::{Fault, Reply, Step};
use ref_script::{ScriptStep, step_of};
use ref_world::World;
use std::alloc::Global;
use std::time::Clock;

/// Steps as a script spells them, with semicolons between, and how often they stand one behind the other.
type Lines = (u32, &'static str);

/// A chain: each of its objects but the first is a weak reference to the one before it, and has it in a field.
const CHAIN: [Lines; 2] = [
    (1, "m0 new s0 1"),
    (1_023, "m0 weak s1 s0 q0 1; m0 store s1 0 s0; m0 copy s0 s1"),
];

/// Loads and gets in turn along the chain.
const READS: [Lines; 3] = [
    (1, "m0 copy s2 s0"),
    (511, "m0 load s2 s2 0; m0 get s2 s2"),
    (1, "m0 load s2 s2 0"),
];

/// Two cycles. In the first objects die, each with a weak reference in a chain, and the notices are handed on; in the
/// second the chain dies. Nothing is left then.
const CYCLES: [Lines; 12] = [
    (
        256,
        "m0 new s3 0; m0 weak s1 s3 q0 1; m0 store s1 0 s0; m0 copy s0 s1",
    ),
    (1, "m0 drop s3; m0 drop s1; begin 0 normal"),
    (257, "w0 scan"),
    (1, "endmark"),
    (257, "w0 clearnext"),
    (1, "endclear"),
    (256, "w0 hand; w0 release"),
    (5, "w0 sweep"),
    (1, "endsweep; m0 drop s0; begin 0 normal; w0 scan"),
    (1, "endmark; endclear"),
    (5, "w0 sweep"),
    (1, "endsweep"),
];

/// A list of steps.
#[derive(Clone, Copy)]
pub enum StepList {
    /// Loads and gets along a chain.
    Reads,
    /// Whole cycles of weak references.
    Cycles,
}

/// A step of a list that is done so often, in a new world.
pub fn world_steps<R: Clock>(
    rt: &R,
    alloc: Global,
    list: StepList,
    times: u32,
) -> Result<Sample, Fault> {
    let (mut first, mut steps) = (Vec::new(alloc), Vec::new(alloc));
    match list {
        StepList::Reads => {
            add(&mut first, CHAIN.as_slice())?;
            add(&mut steps, READS.as_slice())?;
        }
        StepList::Cycles => add(&mut steps, CYCLES.as_slice())?,
    }
    let mut world = World::new(alloc, CONFIG)?;
    let sample = timed(rt, &mut world, first.as_slice(), steps.as_slice(), times);
    world.end();
    sample
}

fn timed<R: Clock>(
    rt: &R,
    world: &mut World,
    first: &[Step],
    steps: &[Step],
    times: u32,
) -> Result<Sample, Fault> {
    do_all(world, first)?;
    let timer = Timer::start(rt);
    for _ in 0..times {
        do_all(world, steps)?;
    }
    Ok(timer.stop(rt, u64::from(times).saturating_mul(steps.len() as u64)))
}

/// Does the steps one after the other, up to one that is refused.
fn do_all(world: &mut World, steps: &[Step]) -> Result<(), Fault> {
    for step in steps {
        if let Reply::Refused(fault) = world.step(*step) {
            return Err(fault);
        }
    }
    Ok(())
}

fn add(steps: &mut Vec<Step>, lines: &[Lines]) -> Result<(), Fault> {
    for (times, text) in lines {
        for _ in 0..*times {
            add_spelled(steps, text)?;
        }
    }
    Ok(())
}

fn add_spelled(steps: &mut Vec<Step>, text: &'static str) -> Result<(), Fault> {
    for line in text.split(';') {
        let Ok(ScriptStep::World(step)) = step_of(line.as_bytes()) else {
            return Err(Fault::BadConfig);
        };
        let Ok(()) = steps.push(step) else {
            return Err(Fault::NoMemory);
        };
    }
    Ok(())
}
