//! Runs for which memory is rationed: each request for memory is refused in turn, and each later one with it, until a
//! run meets no refusal.

use crate::cases::{CASES, Case, Task};
use crate::texts::{agree, printed, whole};
use rationed::Rationed;
use refrun::TextFault;
use std::alloc::Global;
use std::process::Abort;

/// More requests than a run makes.
const MOST: u64 = 2_000;

/// Puts and jobs that may find no memory.
static SCARCE: [Case; 2] = [
    Case {
        name: "puts, each into a queue of its own",
        task: Task::Run,
        text: b"refscript 1
config 3 1 3 16 0
m0 new s0 0
m0 weak s1 s0 q0 0
m0 unhook s1
m1 new s0 0
m1 weak s1 s0 q1 0
m1 unhook s1
m2 new s0 0
m2 weak s1 s0 q2 0
m2 unhook s1
m0 put
m1 put
m2 put
m1 poll q1
m0 release
m2 adopt s2
",
        prints: b"reftrace 1
1 m0 new s0 0 : object 1
2 m0 weak s1 s0 q0 0 : object 2
3 m0 unhook s1 : notice 2 q0 own
4 m1 new s0 0 : object 3
5 m1 weak s1 s0 q1 0 : object 4
6 m1 unhook s1 : notice 4 q1 own
7 m2 new s0 0 : object 5
8 m2 weak s1 s0 q2 0 : object 6
9 m2 unhook s1 : notice 6 q2 own
10 m0 put : added 0
11 m1 put : added 0
12 m2 put : added 0
13 m1 poll q1 : took 4
14 m0 release : refused 24 HandEmpty
15 m2 adopt s2 : refused 24 HandEmpty
",
        error: "",
        scarce: &[
            &[
                "10 m0 put : refused 3 NoMemory",
                "11 m1 put : refused 3 NoMemory",
                "12 m2 put : refused 3 NoMemory",
                "13 m1 poll q1 : refused 23 HandFull",
                "14 m0 release : ok",
                "15 m2 adopt s2 : object 6",
            ],
            &[
                "11 m1 put : refused 3 NoMemory",
                "12 m2 put : refused 3 NoMemory",
                "13 m1 poll q1 : refused 23 HandFull",
                "15 m2 adopt s2 : object 6",
            ],
            &[
                "12 m2 put : refused 3 NoMemory",
                "15 m2 adopt s2 : object 6",
            ],
        ],
    },
    Case {
        name: "a job that is none, and one that stays to be registered",
        task: Task::RunWithJobs,
        text: b"refscript 1
config 1 1 1 8 0
m0 new s0 0
m0 weak s1 s0 - 0
m0 job s1 64
m0 job s1 0
m0 job s1 0
m0 run s1
",
        prints: b"reftrace 1
1 m0 new s0 0 : object 1
2 m0 weak s1 s0 - 0 : object 2
3 m0 job s1 64 : used
4 m0 job s1 0 : ok
5 m0 job s1 0 : used
6 m0 run s1 : ran 0 1000
",
        error: "",
        scarce: &[&[
            "4 m0 job s1 0 : refused 3 NoMemory",
            "5 m0 job s1 0 : refused 3 NoMemory",
            "6 m0 run s1 : gone",
        ]],
    },
];

/// What came of a run.
enum Came {
    /// No request was refused.
    Whole,
    /// Memory ran out, and nothing was printed.
    Nothing,
    /// Memory ran out inside a put or a `job`: the place of what was printed among what may be.
    Partly(usize),
}

/// A trace with these rows in place of those with their numbers.
fn with_rows(rt: &impl Abort, alloc: Global, trace: &[u8], rows: &[&str]) -> Vec<u8> {
    let mut text = Vec::new(alloc);
    for line in trace.split_inclusive(|byte| *byte == b'\n') {
        let mut told = line;
        for row in rows {
            if number_of(row.as_bytes()) == number_of(line) {
                told = row.as_bytes();
            }
        }
        whole(rt, text.extend_from_slice(told.trim_ascii()));
        assert!(rt; text.push(b'\n').is_ok(), "no memory");
    }
    text
}

/// What stands in front of a row's first space.
fn number_of(row: &[u8]) -> Option<&[u8]> {
    row.split(|byte| *byte == b' ').next()
}

/// Runs a text with so many requests for memory met. Where one was refused the same text is answered as ever once there
/// is memory.
fn come(
    rt: &impl Abort,
    memory: &Rationed<Global>,
    alloc: Global,
    (task, case): (Task, &Case),
    met: u64,
) -> Came {
    memory.ration(met);
    let (answer, output) = printed(task, memory, alloc, case.text);
    if !memory.lift() {
        agree(rt, alloc, case, answer, output.as_slice());
        return Came::Whole;
    }
    let (again, all) = printed(task, memory, alloc, case.text);
    agree(rt, alloc, case, again, all.as_slice());
    if let Err(fault) = answer {
        assert_eq!(rt; fault, TextFault::NoMemory, "{}: {met}", case.name);
        assert!(rt; output.is_empty(), "{}: {met}", case.name);
        return Came::Nothing;
    }
    for (place, rows) in case.scarce.iter().enumerate() {
        if with_rows(rt, alloc, case.prints, rows).as_slice() == output.as_slice() {
            return Came::Partly(place);
        }
    }
    assert!(rt; false, "{}: {met}", case.name);
    Came::Nothing
}

/// The call that does a task.
fn call_of(task: Task) -> &'static str {
    match task {
        Task::Run | Task::RunWithJobs => "run_script",
        Task::RunWithPlainJobs => "run_script_with",
        Task::List => "strength_text",
    }
}

/// Each request for memory of a text is refused in turn. Of what it may then print, each comes in its turn.
fn refuse_each(rt: &impl Abort, alloc: Global, task: Task, case: &Case) {
    let memory = Rationed::new(alloc);
    let name = case.name;
    let mut stage = 0;
    for met in 0..MOST {
        match come(rt, &memory, alloc, (task, case), met) {
            Came::Nothing => {}
            Came::Partly(place) => {
                let next = place.saturating_add(1);
                assert!(rt; stage == place || stage == next, "{name}: {met}");
                stage = next;
            }
            Came::Whole => {
                assert_eq!(rt; stage, case.scarce.len(), "{name}: {met}");
                assert!(rt; met > 0, "{name}: a run takes memory");
                return;
            }
        }
    }
    let call = call_of(task);
    assert!(rt; false, "{name}: {call} makes more requests than {MOST}");
}

#[test]
fn a_text_is_answered_whole_or_memory_ran_out(rt: HostRuntime) {
    for cases in [CASES.as_slice(), SCARCE.as_slice()] {
        for case in cases {
            refuse_each(&rt, rt.alloc(), case.task, case);
            if let Task::RunWithJobs = case.task {
                refuse_each(&rt, rt.alloc(), Task::RunWithPlainJobs, case);
            }
        }
    }
}
