//! The jobs of a script, and how often each is called.

ghost use Rattle.std.specs.Prelude.{◌≡◌, ◌<◌, ◌+◌};

use ref_queue::{Action, Job};
use refrun::{FromReader, ToWriter, run_script};
use std::alloc::{AllocError, Allocator, Global};
use std::process::Abort;
use std::sync::Arc;
use std::sync::atomic::{AtomicU64, Ordering};
use std::test::Fail;

/// The jobs of a script, in this memory: job a, from 0 to 63, answers a + 1000.
pub fn script_jobs<A: Allocator + Copy>(
    memory: A,
    alloc: Global,
) -> Result<Vec<Job, A>, AllocError> {
    let mut jobs = Vec::with_capacity(memory, 64)?;
    for number in 0..64u64 {
        let action: Action = Box::new(
            alloc,
            |number: u64| -> u64
                requires { number < 64 }
                ensures { result ≡ number + 1000 }
            { number + 1000 },
        )?;
        jobs.push(Job::new(number, number + 1000, action))?;
    }
    Ok(jobs)
}

/// Jobs 0, 1 and 2 are registered, and the first two are run: one once, and the other is asked for again.
const THREE_JOBS: &[u8] = b"refscript 1
config 1 1 1 8 10
m0 new s0 0
m0 weak s1 s0 - 0
m0 weak s2 s0 - 0
m0 weak s3 s0 - 0
m0 job s1 0
m0 job s2 1
m0 job s3 2
m0 run s1
m0 run s2
m0 run s2
m0 job s2 1
";

#[test]
fn a_job_runs_once_where_it_is_run_and_never_where_it_is_not(rt: HostRuntime) -> Result<(), Fail> {
    let alloc = rt.alloc();
    // The fourth job is never registered.
    let mut calls = Vec::new(alloc);
    let mut jobs = Vec::new(alloc);
    for number in 0..4u64 {
        let count = Arc::new(alloc, AtomicU64::new(0))?;
        let counted = Arc::try_clone(&count)?;
        let action: Action = Box::new(
            alloc,
            move |number: u64| -> u64
                requires { number < 4 }
                ensures { result ≡ number + 1000 }
            {
                counted.fetch_add(1, Ordering::Relaxed);
                number + 1000
            },
        )?;
        calls.push(count)?;
        jobs.push(Job::new(number, number + 1000, action))?;
    }
    let mut output = Vec::new(alloc);
    let mut reader = FromReader::new(THREE_JOBS);
    let answer = run_script(alloc, &mut reader, &mut ToWriter::new(&mut output), jobs);
    assert_eq!(rt; answer, Ok(()));
    for (number, (count, want)) in calls.iter().zip(&[1, 1, 0, 0]).enumerate() {
        assert_eq!(rt; count.load(Ordering::Relaxed), *want, "job {number}");
    }
    Ok(())
}
