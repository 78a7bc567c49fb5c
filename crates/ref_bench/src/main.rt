//! `ref_bench` prints what calls cost: on each line nanoseconds, the least of several runs. With `--once` it makes each
//! run once and small, and prints the names alone.
#![tactic(auto)]

mod cleaner_runs;
mod crowds;
mod delivery_runs;
mod heap_parts;
mod heap_runs;
mod letters;
mod load_runs;
mod measure;
mod move_runs;
mod queue_runs;
mod scale_runs;
mod script_run;
mod step_runs;
mod tills;
mod timing;

use measure::ALL;
use std::env;

/// How often each run is made.
const RUNS: u32 = 9;

/// The full size of a run.
const SIZE: u32 = 100;

fn main(rt: HostRuntime) -> anyhow::Result<()> {
    let words: Vec<String> = env::args(&rt)?.collect(rt.alloc())?;
    let is_once = words.iter().any(|word| word.as_str() == "--once");
    for (name, measure) in &ALL {
        if is_once {
            measure.least(&rt, rt.alloc(), 1, 1)?;
            println!(rt; "{name}")?;
        } else {
            let tenths = measure.least(&rt, rt.alloc(), SIZE, RUNS)?;
            let (whole, tenth) = (tenths / 10, tenths % 10);
            println!(rt; "{name:<54} {whole:>6}.{tenth} ns")?;
        }
    }
    Ok(())
}
