//! Scripts that are drawn: what they are for a seed, that each is read and runs, and what steps are answered in them.

use crate::cases::Task;
use crate::fakes::{Failing, FailingWriter, WriteFailure};
use crate::texts::printed;
use rationed::Rationed;
use refrun::{Parts, TextFault, ToWriter, random_script};
use std::alloc::{AllocError, Allocator, Global};
use std::io::ErrorKind;
use std::process::Abort;

/// How many seeds are tried.
const SEEDS: u64 = 1_000;

/// How many steps a script has, and each twentieth.
const STEPS: u32 = 20;

const MORE_STEPS: u32 = 400;

/// The plain steps alone.
const PLAIN: Parts = Parts {
    moves: false,
    batches: false,
    jobs: false,
    soft: false,
    hide: false,
};

/// The most ways in which a kind of step is answered.
const WAYS: usize = 9;

/// How many kinds of steps there are.
const KINDS: usize = 33;

/// What each step is answered: the first word of a reply, or the name of a refusal. A notice is told by its cause,
/// `own` or `cycle`. Where none is doomed that is `doomed-none`, and where several things are told at once `several`.
///
/// Two refusals are met by nothing that is drawn: numbers (NumbersSpent) are spent by none, and memory is there
/// (NoMemory). Page addresses (AddressesSpent) are spent where a world starts late.
static ANSWERS: [&'static str; KINDS] = [
    "job: ok used NoSuchActor EmptySlot NotAReference RegisteredTwice",
    "run: ran gone NoSuchActor EmptySlot NotAReference",
    "new: object NoSuchActor BadField NoCell",
    "soft: object NoSuchActor BadQueue EmptySlot BadField NoCell",
    "weak: object NoSuchActor BadQueue EmptySlot BadField NoCell",
    "phantom: object NoSuchActor BadQueue EmptySlot BadField NoCell",
    "store: ok NoSuchActor EmptySlot BadField",
    "load: object null NoSuchActor EmptySlot BadField",
    "copy: object null NoSuchActor",
    "drop: ok NoSuchActor",
    "get: object null NoSuchActor EmptySlot NotAReference",
    "clear: ok NoSuchActor EmptySlot NotAReference",
    "refers: true false NoSuchActor EmptySlot NotAReference",
    "unhook: own none NoSuchActor HandFull EmptySlot NotAReference",
    "put: added already closed NoSuchActor HandEmpty",
    "puts: added already closed several NoSuchActor HandEmpty",
    "poll: took empty closed NoSuchActor BadQueue HandFull",
    "polls: took several empty closed NoSuchActor BadQueue BadConfig HandFull",
    "adopt: object NoSuchActor HandEmpty",
    "release: ok NoSuchActor HandEmpty",
    "close: ok closed NoSuchActor BadQueue",
    "begin: cycle WrongPhase ClockBack",
    "scan: scanned none NoSuchActor WrongPhase",
    "endmark: doomed doomed-none WrongPhase GreyLeft",
    "clearnext: cleared kept skipped none NoSuchActor WrongPhase",
    "endclear: ok WrongPhase ClearingLeft",
    "hand: cycle none NoSuchActor HandFull",
    "hands: notices several none NoSuchActor BadConfig HandFull",
    "sweep: swept none NoSuchActor WrongPhase",
    "endsweep: ok WrongPhase SweepLeft",
    "select: selected WrongPhase NoRoom AddressesSpent",
    "move: moved none NoSuchActor WrongPhase",
    "endmove: ok WrongPhase MovesLeft",
];

/// The place of the first kind of step that isn't of jobs, and that of the first that is of moves.
pub const FIRST_OF_WORLDS: usize = 2;

pub const FIRST_OF_MOVES: usize = 30;

/// How often each step was answered in each of its ways.
pub type Counts = [[u32; WAYS]; KINDS];

/// No step was answered.
pub const NO_COUNTS: Counts = [[0; WAYS]; KINDS];

/// The script of a seed, with memory of this allocator, and what came of it.
pub fn script<A: Allocator + Copy>(
    memory: A,
    alloc: Global,
    seed: u64,
    steps: u32,
    parts: Parts,
) -> (Result<(), TextFault>, Vec<u8>) {
    let mut output = Vec::new(alloc);
    let answer = random_script(memory, &mut ToWriter::new(&mut output), seed, steps, parts);
    (answer, output)
}

/// The script of a seed, which is drawn whole.
fn drawn(rt: &impl Abort, alloc: Global, seed: u64, steps: u32, parts: Parts) -> Vec<u8> {
    let (answer, text) = script(alloc, alloc, seed, steps, parts);
    assert_eq!(rt; answer, Ok(()), "seed {seed}");
    text
}

/// What the bytes spell.
fn spelled<'a>(rt: &impl Abort, bytes: &'a [u8]) -> &'a str {
    match std::str::from_utf8(bytes) {
        Ok(text) => text,
        Err(_) => panic!(rt; "it is no text"),
    }
}

/// The words of a row: the name of its step, and how it was answered.
fn words_of(row: &str) -> Option<(&str, &str)> {
    let (step, reply) = row.split_once(" : ")?;
    let mut words = step.split_whitespace();
    words.next()?;
    let first = words.next()?;
    let name = if is_actor(first) {
        words.next()?
    } else {
        first
    };
    Some((name, way_of(name, reply)?))
}

fn is_actor(word: &str) -> bool {
    word.len() > 1 && word.as_bytes().get(1).is_some_and(u8::is_ascii_digit)
}

/// How a step of this name was answered.
fn way_of<'a>(name: &str, reply: &'a str) -> Option<&'a str> {
    let mut words = reply.split_whitespace();
    let first = words.next()?;
    let second = words.next();
    let third = words.next();
    match first {
        "refused" => third,
        "notice" => words.next(),
        "doomed" if second == Some("0") => Some("doomed-none"),
        "notices" if third.is_some_and(|word| !word.starts_with("q")) => Some("several"),
        "took" if third.is_some() => Some("several"),
        _ if name == "puts" && reply.contains(',') => Some("several"),
        _ => Some(first),
    }
}

/// Counts the ways in which the steps of a trace were answered, each of which is one of theirs.
fn count(rt: &impl Abort, counts: &mut Counts, seed: u64, trace: &str) {
    for row in trace.lines() {
        assert!(rt;
            row.starts_with("reftrace") || is_counted(counts, row),
            "seed {seed}: {row}"
        );
    }
}

/// Counts the way in which the step of a row was answered, if it is one of its ways.
pub fn is_counted(counts: &mut Counts, row: &str) -> bool {
    let Some((name, way)) = words_of(row) else {
        return false;
    };
    for (answers, counts) in ANSWERS.iter().zip(counts.as_mut_slice()) {
        let (kind, ways) = answers.split_once(':').unwrap_or((*answers, ""));
        if kind == name {
            for (listed, count) in ways.split_whitespace().zip(counts.as_mut_slice()) {
                if listed == way {
                    *count = count.saturating_add(1);
                    return true;
                }
            }
        }
    }
    false
}

/// Each step of the kinds from this place on was answered in each of its ways but this one.
pub fn are_met(rt: &impl Abort, counts: &Counts, from: usize, but: &str) {
    for (place, (answers, counts)) in ANSWERS.iter().zip(counts).enumerate() {
        let (kind, ways) = answers.split_once(':').unwrap_or((*answers, ""));
        for (way, count) in ways.split_whitespace().zip(counts) {
            assert!(rt;
                place < from || *count > 0 || way == but,
                "{kind} never answered {way}"
            );
        }
    }
}

#[test]
fn over_1000_seeds_each_script_is_read_and_each_step_is_answered_in_each_of_its_ways(
    rt: HostRuntime,
) {
    let alloc = rt.alloc();
    let mut counts = NO_COUNTS;
    for seed in 0..SEEDS {
        let steps = if seed % 20 == 0 { MORE_STEPS } else { STEPS };
        let text = drawn(&rt, alloc, seed, steps, Parts::ALL);
        let (answer, trace) = printed(Task::RunWithJobs, alloc, alloc, text.as_slice());
        assert_eq!(rt; answer, Ok(()), "seed {seed}");
        let trace = spelled(&rt, trace.as_slice());
        assert_eq!(rt; trace.lines().count(), 1 + steps as usize, "seed {seed}");
        count(&rt, &mut counts, seed, trace);
    }
    are_met(&rt, &counts, 0, "AddressesSpent");
}

/// Two draws of these seeds, of these many steps, give the same script, or another.
const PAIRS: [((u64, u32), (u64, u32), bool); 5] = [
    ((0, 300), (0, 300), true),
    ((u64::MAX, 300), (u64::MAX, 300), true),
    ((0, 300), (1, 300), false),
    ((7, 300), (u64::MAX, 300), false),
    ((7, 300), (7, 301), false),
];

#[test]
fn a_seed_gives_one_script(rt: HostRuntime) {
    let alloc = rt.alloc();
    for ((seed, steps), (other, others), is_same) in PAIRS {
        let first = drawn(&rt, alloc, seed, steps, Parts::ALL);
        let second = drawn(&rt, alloc, other, others, Parts::ALL);
        assert!(rt;
            (first.as_slice() == second.as_slice()) == is_same,
            "{seed} and {other}"
        );
    }
}

/// Parts, and words that stand in no script without them, or at the begin of none.
static WITHOUT: [(Parts, &'static str); 4] = [
    (
        Parts {
            moves: false,
            ..Parts::ALL
        },
        "select|move|endmove",
    ),
    (
        Parts {
            batches: false,
            ..Parts::ALL
        },
        "hands|puts|polls",
    ),
    (
        Parts {
            jobs: false,
            ..Parts::ALL
        },
        "job|run",
    ),
    (
        PLAIN,
        "select|move|endmove|hands|puts|polls|job|run|soft|urgent|refscript 2",
    ),
];

/// None of these words stands in the text, or at its begin.
fn are_missing(rt: &impl Abort, text: &str, words: &str) {
    for word in words.split('|') {
        let is_there = text.split([' ', '\n']).any(|other| other == word);
        assert!(rt;
            !is_there && !text.starts_with(word),
            "{word} stands in {text}"
        );
    }
}

#[test]
fn a_part_that_is_left_out_is_not_there(rt: HostRuntime) {
    let alloc = rt.alloc();
    for &(parts, words) in &WITHOUT {
        for seed in 0..20 {
            let text = drawn(&rt, alloc, seed, 300, parts);
            are_missing(&rt, spelled(&rt, text.as_slice()), words);
        }
    }
}

#[test]
fn a_script_that_can_not_be_written_is_told_of(rt: HostRuntime) {
    let alloc = rt.alloc();
    for failure in [
        WriteFailure::Write(ErrorKind::BrokenPipe),
        WriteFailure::Write(ErrorKind::Interrupted),
        WriteFailure::TakesNothing,
        WriteFailure::Flush(ErrorKind::Other),
    ] {
        let mut writer = FailingWriter {
            taken: Vec::new(alloc),
            piece: 100,
            failing: Failing::once(0),
            failure,
        };
        let answer = random_script(alloc, &mut ToWriter::new(&mut writer), 7, 50, Parts::ALL);
        assert_eq!(rt; answer, Err(TextFault::CannotWrite));
        assert!(rt; writer.failing.has_failed());
    }
}

/// More requests for memory than the drawing of a script makes.
const MOST_REQUESTS: u64 = 1_000;

#[test]
fn a_script_is_drawn_whole_or_memory_ran_out(rt: HostRuntime) {
    let alloc = rt.alloc();
    let memory = Rationed::new(alloc);
    let whole = drawn(&rt, alloc, 7, 300, Parts::ALL);
    for met in 0..MOST_REQUESTS {
        memory.ration(met);
        let (answer, output) = script(&memory, alloc, 7, 300, Parts::ALL);
        if !memory.lift() {
            assert_eq!(rt; answer, Ok(()));
            assert_eq!(rt; output.as_slice(), whole.as_slice());
            assert!(rt; met > 4, "a drawing takes memory");
            return;
        }
        assert_eq!(rt; answer, Err(TextFault::NoMemory), "{met}");
        assert!(rt; output.is_empty(), "{met}");
    }
    assert!(rt;
        false,
        "random_script makes more requests than {MOST_REQUESTS}"
    );
}

/// The most bytes of a line of a script that is drawn: 100,000 of them are no longer than a script may be.
const LINE: usize = 40;

#[test]
fn a_script_of_100_000_steps_is_not_too_long(rt: HostRuntime) {
    let alloc = rt.alloc();
    for seed in 0..20 {
        let text = drawn(&rt, alloc, seed, 1_000, Parts::ALL);
        for line in spelled(&rt, text.as_slice()).lines() {
            assert!(rt; line.len() <= LINE, "seed {seed}: {line}");
        }
    }
}
