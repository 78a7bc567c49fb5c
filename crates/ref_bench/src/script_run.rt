//! A script from its text to its trace.

use crate::timing::{Sample, Timer};
use ref_base::Fault;
use refrun::{FromReader, ToWriter, run_script};
use std::alloc::{AllocError, Global};
use std::time::Clock;

/// The steps that a script repeats.
const STEPS: [&str; 4] = [
    "m0 copy s2 s1",
    "m0 get s3 s1",
    "m0 refers s1 s0",
    "m0 drop s3",
];

/// A script of so many steps, read, done and printed.
pub fn script_steps<R: Clock>(rt: &R, alloc: Global, count: u32) -> Result<Sample, Fault> {
    let Ok(text) = script(alloc, count) else {
        return Err(Fault::NoMemory);
    };
    let mut trace: Vec<u8> = Vec::new(alloc);
    let mut reader = FromReader::new(text.as_bytes());
    let timer = Timer::start(rt);
    let answer = run_script(
        alloc,
        &mut reader,
        &mut ToWriter::new(&mut trace),
        Vec::new(alloc),
    );
    let sample = timer.stop(rt, u64::from(count));
    match answer {
        Ok(()) => Ok(sample),
        Err(_) => Err(Fault::NoMemory),
    }
}

/// Two steps that make objects, and then the others over and over.
fn script(alloc: Global, count: u32) -> Result<String, AllocError> {
    let mut text = String::from_str(
        alloc,
        "refscript 1\nconfig 1 1 1 8 0\nm0 new s0 0\nm0 weak s1 s0 - 0\n",
    )?;
    for step in 2..count {
        let words = STEPS[step as usize % STEPS.len()];
        writeln!(text, "{words}")?;
    }
    Ok(text)
}
