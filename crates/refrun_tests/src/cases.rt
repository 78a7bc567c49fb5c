//! Texts, what is done with each, and what it must print: a few, for the tests of what fails. The others are files of
//! the program `refrun_cases`.

use crate::texts::{GRAPH, LISTING};

/// What is done with a text.
#[derive(Clone, Copy)]
pub enum Task {
    /// A script is run, without jobs.
    Run,
    /// A script is run with its 64 jobs.
    RunWithJobs,
    /// A script is run with 64 jobs that are two numbers each.
    RunWithPlainJobs,
    /// The strengths of a graph's objects are listed.
    List,
}

/// A text and what it must print.
pub struct Case {
    pub name: &'static str,
    pub task: Task,
    pub text: &'static [u8],
    pub prints: &'static [u8],
    pub error: &'static str,
    /// The rows that it may print in place of those with their numbers where a put or a `job` found no memory, in the
    /// order in which that comes as there is more.
    pub scarce: &'static [&'static [&'static str]],
}

/// Each task, done and with a fault.
pub static CASES: [Case; 6] = [
    Case {
        name: "without jobs each number is used",
        task: Task::Run,
        text: b"refscript 1
config 1 1 1 8 10
m0 new s0 0
m0 weak s1 s0 - 0
m0 job s1 0
m0 run s1
",
        prints: b"reftrace 1
1 m0 new s0 0 : object 1
2 m0 weak s1 s0 - 0 : object 2
3 m0 job s1 0 : used
4 m0 run s1 : gone
",
        error: "",
        scarce: &[],
    },
    Case {
        name: "a death, a job and a refusal",
        task: Task::RunWithJobs,
        text: b"refscript 1
config 1 1 1 8 10
m0 new s0 0
m0 phantom s1 s0 q0 0
m0 job s1 3
m0 drop s0
begin 5 normal
w0 scan
w0 scan
endmark
m0 run s1
w0 clearnext
endclear
w0 hand
w0 scan
",
        prints: b"reftrace 1
1 m0 new s0 0 : object 1
2 m0 phantom s1 s0 q0 0 : object 2
3 m0 job s1 3 : ok
4 m0 drop s0 : ok
5 begin 5 normal : cycle 1
6 w0 scan : scanned 2
7 w0 scan : none
8 endmark : doomed 1
9 m0 run s1 : ran 3 1003
10 w0 clearnext : cleared 2
11 endclear : ok
12 w0 hand : notice 2 q0 cycle 1 w0
13 w0 scan : refused 12 WrongPhase
",
        error: "",
        scarce: &[&["3 m0 job s1 3 : refused 3 NoMemory", "9 m0 run s1 : gone"]],
    },
    Case {
        name: "a script with a fault",
        task: Task::RunWithJobs,
        text: b"refscript 1\nconfig 1 1 1 8 10\nm0 new s0\n",
        prints: b"",
        error: "refrun: line 3: missing word\n",
        scarce: &[],
    },
    Case {
        name: "a graph text",
        task: Task::List,
        text: GRAPH,
        prints: LISTING,
        error: "",
        scarce: &[],
    },
    Case {
        name: "a graph text with a fault",
        task: Task::List,
        text: b"refgraph 1\nplain 1\nplain 1\n",
        prints: b"",
        error: "refrun: line 3: double object\n",
        scarce: &[],
    },
    Case {
        name: "a graph text without an object",
        task: Task::List,
        text: b"refgraph 1\nroot 7\n",
        prints: b"",
        error: "",
        scarce: &[],
    },
];
