//! Logs, and what is told of them.

use ref_log::{LogFailure, LogFault, Verdict};

/// What is told of a log.
#[derive(Clone, Copy)]
pub enum Told {
    /// All rows are legal, so many.
    Legal(u64),
    /// The number of the first row that isn't, and that of its line.
    Illegal(u64, u64),
    /// A line is faulty.
    Fault(u64, LogFault),
    /// The last line is cut off, behind so many rows.
    CutOff(u64, u64),
}

/// A log.
#[derive(Clone, Copy)]
pub struct Log {
    pub name: &'static str,
    pub text: &'static [u8],
    pub told: Told,
}

impl Log {
    /// Whether this was told of it.
    pub fn is_told(&self, answer: Result<Verdict, LogFailure>) -> bool {
        match (self.told, answer) {
            (Told::Legal(rows), Ok(Verdict::Legal { rows: told })) => rows == told,
            (Told::Illegal(number, line), Ok(Verdict::Illegal(finding))) => {
                number == finding.number && line == finding.line
            }
            (Told::Fault(line, fault), Err(LogFailure::Line(told, why))) => {
                line == told && fault == why
            }
            (
                Told::CutOff(rows, line),
                Err(
                    LogFailure::CutOff {
                        rows: told,
                        line: at,
                    },
                ),
            ) => { rows == told && line == at }
            _ => false,
        }
    }
}

/// Two deaths in two queues, scanned and cleared by two workers.
const DEATHS: &[u8] = b"reftrace 1
config 2 2 2 8 10
m0 new s0 0 : object 1
m1 new s3 0 : object 2
m0 weak s1 s0 q0 0 : object 3
m1 weak s4 s3 q1 0 : object 4
m0 drop s0 : ok
m1 drop s3 : ok
begin 5 normal : cycle 1
w1 scan : scanned 3
w0 scan : scanned 4
endmark : doomed 2
w0 clearnext : cleared 4
w1 clearnext : cleared 3
endclear : ok
w1 hand : notice 3 q0 cycle 1 w1
w0 hand : notice 4 q1 cycle 1 w0
w0 put : added 0
w1 put : added 0
m1 poll q1 : took 4
m0 poll q0 : took 3
w1 sweep : swept 2
endsweep : ok
";

/// The second death is told twice.
const TOLD_TWICE: &[u8] = b"reftrace 1
config 2 2 2 8 10
profile queue-any
m0 new s0 0 : object 1
m0 weak s1 s0 q1 0 : object 2
m0 unhook s1 : notice 2 q1 own
m0 put : added 0
m1 poll q1 : took 2
m0 unhook s1 : notice 2 q1 own
m0 put : added 1
m0 drop s1 : ok
";

/// Objects have names, and one that was swept gives its name again; a job is run.
const NAMED: &[u8] = b"reftrace 1
config 2 2 2 8 10
names any
m0 new s0 0 : object 0x7f10
m1 phantom s1 s1 q1 0 : refused 6 EmptySlot
m0 weak s1 s0 q1 0 : object 0x7f20
m0 job s1 3 : ok
m0 drop s0 : ok
begin 1 normal : cycle 1
w1 scan : scanned 0x7f20
endmark : doomed 1
w1 clearnext : cleared 0x7f20
endclear : ok
m0 run s1 : ran 3 1003
w0 sweep : swept 1
m1 new s2 0 : object 0x7f10
m1 copy s3 s2 : object 0x7f10
";

/// A new object takes the name of one that is there.
const IN_USE: &[u8] = b"reftrace 1
config 2 1 1 8 10
names any
m0 new s0 0 : object a
m1 new s0 0 : object b
m1 drop s0 : ok
m0 new s1 0 : object b
";

/// Logs of each kind of answer.
pub static LOGS: [Log; 6] = [
    Log {
        name: "two deaths",
        text: DEATHS,
        told: Told::Legal(21),
    },
    Log {
        name: "a death told twice",
        text: TOLD_TWICE,
        told: Told::Illegal(7, 10),
    },
    Log {
        name: "names",
        text: NAMED,
        told: Told::Legal(14),
    },
    Log {
        name: "a name in use",
        text: IN_USE,
        told: Told::Illegal(4, 7),
    },
    Log {
        name: "a step of another name",
        text: b"# behind a remark\nreftrace 2\nconfig 1 1 1 8 10\nm0 new s0 0 : object 1\nm0 nwe s1 0 : object 2\n",
        told: Told::Fault(5, LogFault::UnknownStep),
    },
    Log {
        name: "cut off",
        text: b"reftrace 1\nconfig 1 1 1 8 10\nm0 new s0 0 : object 1\nm0 drop s0 :",
        told: Told::CutOff(1, 4),
    },
];
