//! The threads of a stress run: all are made before one begins.

ghost use Rattle.std.specs.Prelude.{◌≡◌, All, IfOk};
ghost use Rattle.refrun.specs.declared.threads.task.Left.{Left};
ghost use Rattle.refrun.specs.StressSeats.{IsLeftAt, IsSeatedAt};

use super::task::{Left, SeatsOf, Task, left_by};
use crate::station::Shared;
use crate::tally::Tally;
use ref_base::Fault;
use std::alloc::Global;
use std::sync::Wait;
use std::thread;
use std::thread::{PromisedHandle, Scope, Threads};

/// Does each task in a thread of its own, and gives what they leave. All threads are made before one begins, since each
/// kind waits for another: where one can't be made, those that were made return at once.
pub(super) fn run_together<R: Threads + Wait + Sync>(
    rt: &R,
    alloc: Global,
    shared: &Shared,
    tally: &Tally,
    tasks: Vec<Task<'_>>,
) -> Result<Vec<Left>, Fault>
    requires { All (λ task. IsSeatedAt shared.now task) tasks.items }
    ensures { IfOk result (λ all. All (λ left. IsLeftAt shared.now left) all.items) }
{
    thread::scope(
        thread::scope_env(),
        rt,
        move |scope| -> Result<Vec<Left>, Fault>
            requires { All (λ task. IsSeatedAt shared.now task) tasks.items }
            ensures { IfOk result (λ all. All (λ left. IsLeftAt shared.entry.now left) all.items) }
        {
            let threads = all_made(rt, alloc, scope, shared, tally, tasks);
            shared.gate.open(rt, threads.is_ok());
            ended(rt, shared, tally, threads?)
        },
    )
}

/// Makes a thread for each task. They wait at the gate.
fn all_made<'s, E, R: Threads + Wait + Sync>(
    rt: &'s R,
    alloc: Global,
    scope: &Scope<'s, E>,
    shared: &'s Shared,
    tally: &'s Tally,
    tasks: Vec<Task<'s>>,
) -> Result<Vec<PromisedHandle<Left, SeatsOf<'s>>>, Fault>
    requires { All (λ task. IsSeatedAt shared.now task) tasks.items }
    ensures { IfOk result (λ all. All (λ thread. thread.promise.0.now ≡ shared.now) all.items) }
{
    let mut threads = Vec::new(alloc);
    for task in tasks {
        let thread = made(rt, alloc, scope, shared, tally, task)?;
        let Ok(()) = threads.push(thread) else {
            return Err(Fault::NoMemory);
        };
    }
    Ok(threads)
}

/// Makes a thread for the task.
fn made<'s, E, R: Threads + Wait + Sync>(
    rt: &'s R,
    alloc: Global,
    scope: &Scope<'s, E>,
    shared: &'s Shared,
    tally: &'s Tally,
    task: Task<'s>,
) -> Result<PromisedHandle<Left, SeatsOf<'s>>, Fault>
    requires { IsSeatedAt shared.now task }
    ensures { IfOk result (λ thread. thread.promise.0.now ≡ shared.now) }
{
    made_given(
        scope,
        shared,
        task,
        move |task: Task| -> Left
            requires { IsSeatedAt shared.now task }
            ensures { IsLeftAt shared.entry.now result }
        { left_by(rt, alloc, shared, tally, task) },
    )
}

/// Makes a thread that calls this with what it is given, and leaves seats of these.
fn made_given<'s, E, C: Send + Drop + 's, F: FnOnce(C) -> Left + Send + 's>(
    scope: &Scope<'s, E>,
    shared: &'s Shared,
    given: C,
    work: F,
) -> Result<PromisedHandle<Left, SeatsOf<'s>>, Fault>
    requires runs { F.pre work given }
    requires leaves { (left : Left) → F.post work given left → IsLeftAt shared.now left }
    ensures { IfOk result (λ thread. thread.promise.0.now ≡ shared.now) }
{
    match scope.spawn_with(
        SeatsOf(shared),
        move || -> Left
            requires { F.pre work given }
        { work(given) },
    ) {
        Ok(thread) => Ok(thread),
        Err(_) => Err(Fault::NoMemory),
    }
}

/// What the threads leave once they have ended. Where no memory is found for it, the run is stopped.
fn ended<'s, R: Threads>(
    rt: &R,
    shared: &Shared,
    tally: &Tally,
    threads: Vec<PromisedHandle<Left, SeatsOf<'s>>>,
) -> Result<Vec<Left>, Fault>
    requires { All (λ thread. thread.promise.0.now ≡ shared.now) threads.items }
    ensures { IfOk result (λ all. All (λ left. IsLeftAt shared.now left) all.items) }
{
    match thread::join_promised(rt, threads) {
        Ok(left) => Ok(left),
        Err(_) => {
            tally.stop();
            Err(Fault::NoMemory)
        }
    }
}
