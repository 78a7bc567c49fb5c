//! `refrun stress`.

use crate::{WRONG_COMMAND_LINE, help, report};
use clap::builder::ValueParser;
use clap::{Arg, ArgAction, ArgMatches, Command, Error, value_parser};
use ref_base::{Fault, ObjNo};
use refrun::{Check, StressLists, StressOptions, Tally, TextFault, stress_lists};
use std::alloc::{AllocError, Global};
use std::fmt::Write;
use std::process::ExitCode;
use std::rt::Files;
use std::sync::{Condvar, Mutex, Wait};
use std::thread::Threads;
use std::time::{Clock, Duration};
use std::{fs, io, thread};

/// The status where a check fails.
const CHECK_FAILED: u8 = 4;

/// After so many seconds a run tells again how far it is.
const PACE: u64 = 1;

/// The rounds of each mutator where neither they nor seconds are asked for.
const ROUNDS: u64 = 100;

/// The subcommand and its options.
pub fn command<'a>(alloc: Global) -> Result<Command<'a>, Error> {
    let command = Command::new(alloc, "stress")
        .about("Runs threads over one heap and one queue, and checks the queue's lists")
        .after_help(help::STRESS)
        .arg(
            count(alloc, "mutators", "M", 8)
                .default_value("2")
                .help("Threads that make and enqueue references"),
        )?
        .arg(
            count(alloc, "workers", "W", 8)
                .default_value("2")
                .help("Threads that work for the collector"),
        )?
        .arg(
            count(alloc, "pollers", "P", 8)
                .default_value("1")
                .help("Threads that take what was enqueued"),
        )?
        .arg(count(alloc, "rounds", "N", 10_000).help(
            "Rounds of each mutator [default: 100, or any number with --seconds]",
        ))?
        .arg(count(alloc, "seconds", "S", i64::from(u32::MAX)).help(
            "Begins no round after so many seconds",
        ))?
        .arg(keep_option(alloc))?
        .arg(
            Arg::new(alloc, "quiet")
                .long("quiet")
                .action(ArgAction::SetTrue)
                .help("Doesn't tell how far the run is"),
        )?;
    Ok(command)
}

/// An option that names a folder.
fn keep_option<'a>(alloc: Global) -> Arg<'a> {
    Arg::new(alloc, "keep")
        .long("keep")
        .value_name("FOLDER")
        .action(ArgAction::Set)
        .value_parser(ValueParser::NonEmptyString)
        .help("Writes the run's lists into the folder")
}

/// An option that is a number from 1 on.
fn count<'a>(alloc: Global, name: &'a str, value: &'a str, most: i64) -> Arg<'a> {
    Arg::new(alloc, name)
        .long(name)
        .value_name(value)
        .value_parser(value_parser!(u32).range(1..=most))
}

/// How large the run is. With seconds alone its rounds have no end of their own.
fn options_of(matches: &ArgMatches) -> StressOptions {
    let number = |name: &str| matches.get_one::<u32>(name);
    let rounds = match number("rounds") {
        Some(rounds) => u64::from(rounds),
        None if number("seconds").is_some() => u64::MAX,
        None => ROUNDS,
    };
    StressOptions {
        mutators: number("mutators").unwrap_or(1),
        workers: number("workers").unwrap_or(1),
        pollers: number("pollers").unwrap_or(1),
        rounds,
    }
}

/// Runs the threads, keeps their lists where that is asked for, and prints what the checks say.
///
/// `can_watch` says whether somebody may look on at standard error.
pub fn run<R: Threads + Wait + Clock + Files + Print + Eprint + AllocGlobal + Sync>(
    rt: &R,
    matches: &ArgMatches,
    can_watch: bool,
) -> ExitCode {
    let options = options_of(matches);
    let pace = Pace {
        tells: can_watch && !matches.get_flag("quiet"),
        seconds: matches.get_one::<u32>("seconds"),
    };
    let tally = Tally::new();
    let answer = if pace.tells || pace.seconds.is_some() {
        watched(rt, options, &tally, pace)
    } else {
        stress_lists(rt, rt.alloc(), options, &tally)
    };
    let lists = match answer {
        Ok(Some(lists)) => lists,
        Ok(None) => return tell(rt, Ok(Some(Check::Rest))),
        Err(fault) => return tell(rt, Err(fault)),
    };
    if let Some(folder) = matches.get_str("keep")
        && let Err(error) = keep(rt, rt.alloc(), folder, &lists)
    {
        return report(rt, fault_of(&error));
    }
    let failed = lists.check(rt.alloc());
    if let Ok(Some(check)) = failed
        && let Some(evidence) = lists.evidence(check)
    {
        let _ = rt.eprintln(format_args!("refrun: {evidence}"));
    }
    tell(rt, failed)
}

/// Writes the lists of a run into the folder, which is made if it isn't there: a file for each list, with a line for
/// each number.
fn keep<R: Files>(rt: &R, alloc: Global, folder: &str, lists: &StressLists) -> io::Result<()> {
    fs::create_dir_all(rt, folder)?;
    keep_list(rt, alloc, folder, "enqueued", lists.enqueued.as_slice())?;
    keep_list(rt, alloc, folder, "taken", lists.taken.as_slice())?;
    keep_list(rt, alloc, folder, "stands", lists.stands.as_slice())?;
    keep_each(rt, alloc, folder, "poller", lists.pollers.as_slice())?;
    keep_each(rt, alloc, folder, "mutator", lists.kept.as_slice())
}

/// Writes lists into files of this name, with a number from 0 on.
fn keep_each<R: Files>(
    rt: &R,
    alloc: Global,
    folder: &str,
    name: &str,
    lists: &[Vec<ObjNo>],
) -> io::Result<()> {
    for (number, list) in lists.iter().enumerate() {
        let name = format!(in alloc; "{name}-{number}")?;
        keep_list(rt, alloc, folder, name.as_str(), list.as_slice())?;
    }
    Ok(())
}

/// What is told of lists that could not be written.
fn fault_of(error: &io::Error) -> TextFault {
    if error.kind() == io::ErrorKind::OutOfMemory {
        TextFault::NoMemory
    } else {
        TextFault::CannotWrite
    }
}

/// Writes one list into the file of this name.
fn keep_list<R: Files>(
    rt: &R,
    alloc: Global,
    folder: &str,
    name: &str,
    list: &[ObjNo],
) -> io::Result<()> {
    let mut text = String::new(alloc);
    for number in list {
        writeln!(text, "{number}").map_err(|_| AllocError)?;
    }
    let path = format!(in alloc; "{folder}/{name}")?;
    fs::write(rt, path.as_str(), text.as_str())
}

/// What is done at each pace of a run: whether its counts are told, and after how many seconds it is stopped.
#[derive(Clone, Copy)]
struct Pace {
    tells: bool,
    seconds: Option<u32>,
}

/// Runs the threads, and beside them one that looks on, about once a second. `NoMemory` where that one can't be made.
fn watched<R: Threads + Wait + Clock + Eprint + AllocGlobal + Sync>(
    rt: &R,
    options: StressOptions,
    tally: &Tally,
    pace: Pace,
) -> Result<Option<StressLists>, Fault> {
    let end = &End::new();
    thread::scope(thread::scope_env(), rt, |scope| {
        if scope.spawn(move || watch(rt, tally, end, pace)).is_err() {
            return Err(Fault::NoMemory);
        }
        let answer = stress_lists(rt, rt.alloc(), options, tally);
        end.tell(rt);
        answer
    })
}

/// The end of a run, for which another thread waits.
#[derive(Drop)]
struct End {
    is_there: Mutex<bool>,
    came: Condvar,
}

impl End {
    fn new() -> Self {
        End {
            is_there: Mutex::new(false),
            came: Condvar::new(),
        }
    }

    fn tell<R: Wait>(&self, rt: &R) {
        *self.is_there.lock(rt) = true;
        self.came.notify_all();
    }

    /// Waits for the end, but not longer than this. Whether it came.
    fn comes_within<R: Wait + Clock>(&self, rt: &R, time: Duration) -> bool {
        let (is_there, _) = self
            .came
            .wait_timeout_while(rt, self.is_there.lock(rt), time, |is_there| !*is_there);
        *is_there
    }
}

/// Until the end: tells the counts on standard error where that is asked for, and stops the rounds at their time.
fn watch<R: Wait + Clock + Eprint>(rt: &R, tally: &Tally, end: &End, pace: Pace) {
    let mut passed: u64 = 0;
    for _ in rt.forever() {
        if end.comes_within(rt, Duration::from_secs(PACE)) {
            return;
        }
        passed = passed.saturating_add(PACE);
        if pace
            .seconds
            .is_some_and(|seconds| passed >= u64::from(seconds))
        {
            tally.stop();
        }
        if pace.tells {
            let counts = tally.counts();
            let _ = rt.eprintln(format_args!("refrun: {counts}"));
        }
    }
}

/// Prints what a run answered.
fn tell<R: Print + Eprint>(rt: &R, answer: Result<Option<Check>, Fault>) -> ExitCode {
    let printed = match answer {
        Ok(None) => println!(rt; "stress passed"),
        Ok(Some(check)) => println!(rt; "stress failed: {check}"),
        Err(Fault::BadConfig) => {
            let _ = rt.eprintln("refrun: at most 8 mutators and pollers");
            return ExitCode::from(WRONG_COMMAND_LINE);
        }
        Err(_) => return report(rt, TextFault::NoMemory),
    };
    match (printed, answer) {
        (Err(_), _) => report(rt, TextFault::CannotWrite),
        (Ok(()), Ok(Some(_))) => ExitCode::from(CHECK_FAILED),
        (Ok(()), _) => ExitCode::SUCCESS,
    }
}
