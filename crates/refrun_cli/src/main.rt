//! The program `refrun`. Its `refrun run` reads a script on standard input and prints its trace on standard output.
//! `refrun strength` reads a graph text and prints how strongly each of its objects is reachable. `refrun random`
//! prints a script that is drawn. `refrun check` reads a collector's trace and tells the first row that isn't legal.
//! `refrun stress` runs threads over one heap and one queue, and checks the queue's lists. What it says on standard
//! error begins with `refrun: `, but for what `clap` says of a wrong command line. Exit statuses: 0 done, 2 a wrong
//! command line, 3 a fault of the text or of reading and writing, 4 a check of stress that failed or a row that isn't
//! legal, 5 no memory.
#![tactic(auto)]

mod checking;
mod drawing;
mod help;
mod stressing;

use clap::error::ErrorKind;
use clap::{ArgMatches, Command, Error};
use ref_script::strength_text;
use refrun::{FromReader, TextFault, ToWriter, plain_jobs, run_script_with};
use std::alloc::Global;
use std::io::IsTerminal;
use std::process::ExitCode;
use std::{env, io};

/// The status of a wrong command line.
const WRONG_COMMAND_LINE: u8 = 2;

fn main(rt: HostRuntime) -> ExitCode {
    let words: Vec<String> = match env::args(&rt).and_then(|args| Ok(args.collect(rt.alloc())?)) {
        Ok(words) => words,
        Err(error) if error.kind() == io::ErrorKind::OutOfMemory => {
            return report(&rt, TextFault::NoMemory);
        }
        Err(_) => {
            let _ = rt.eprintln("refrun: the command line can't be read");
            return ExitCode::from(WRONG_COMMAND_LINE);
        }
    };
    match command_of(rt.alloc(), words.as_slice()) {
        Ok(matches) => match matches.subcommand() {
            Some(("strength", _)) => strength(&rt),
            Some(("random", options)) => drawing::run(&rt, options),
            Some(("check", options)) => checking::run(&rt, options),
            Some(("stress", options)) => stressing::run(&rt, options, rt.stderr().is_terminal()),
            _ => run(&rt),
        },
        Err(error) => refuse(&rt, error),
    }
}

/// What the words ask for: `run`, `strength`, `random`, `check` or `stress`.
fn command_of<'a>(alloc: Global, words: &'a [String]) -> Result<ArgMatches<'a>, Error> {
    let program = Command::new(alloc, "refrun")
        .bin_name("refrun")?
        .about(
            "Runs scripts of reference processing, judges traces, and tells how strongly objects are reachable",
        )
        .version("0.1.0")
        .after_help(help::PROGRAM)
        .subcommand_required(true)
        .subcommand(
            Command::new(alloc, "run")
                .about("Reads a script on standard input and prints its trace")
                .override_usage("refrun run < SCRIPT")
                .after_help(help::RUN),
        )?
        .subcommand(
            Command::new(alloc, "strength")
                .about("Reads a graph text on standard input and prints a strength per object")
                .override_usage("refrun strength < GRAPH")
                .after_help(help::STRENGTH),
        )?;
    let program = with(program, drawing::command(alloc))?;
    let program = with(program, checking::command(alloc))?;
    with(program, stressing::command(alloc))?.try_get_matches_from(words)
}

/// The program with one more subcommand, where there was memory for it.
fn with<'a>(
    program: Command<'a>,
    command: Result<Command<'a>, Error>,
) -> Result<Command<'a>, Error> {
    Ok(program.subcommand(command?)?)
}

/// Runs the script on standard input.
fn run<R: Input + Print + Eprint + AllocGlobal>(rt: &R) -> ExitCode {
    status(rt, run_with_jobs(rt))
}

/// Runs the script on standard input with the program's jobs.
fn run_with_jobs<R: Input + Print + AllocGlobal>(rt: &R) -> Result<(), TextFault> {
    let alloc = rt.alloc();
    let jobs = plain_jobs(alloc)?;
    let mut reader = FromReader::new(rt.reader());
    let mut writer = ToWriter::new(io::writer(rt));
    run_script_with(alloc, &mut reader, &mut writer, jobs)
}

/// Prints the strengths of the graph on standard input.
fn strength<R: Input + Print + Eprint + AllocGlobal>(rt: &R) -> ExitCode {
    let mut reader = FromReader::new(rt.reader());
    let mut writer = ToWriter::new(io::writer(rt));
    status(rt, strength_text(rt.alloc(), &mut reader, &mut writer))
}

/// The status of what a text answered, whose fault is told.
fn status(rt: &impl Eprint, answer: Result<(), TextFault>) -> ExitCode {
    match answer {
        Ok(()) => ExitCode::SUCCESS,
        Err(fault) => report(rt, fault),
    }
}

/// Tells a fault on standard error.
fn report(rt: &impl Eprint, fault: TextFault) -> ExitCode {
    let _ = rt.eprintln(format_args!("refrun: {fault}"));
    ExitCode::from(fault.exit_status())
}

/// Prints what the command line gets for an answer: help and version on standard output, faults on standard error.
fn refuse<R: Print + Eprint>(rt: &R, error: Error) -> ExitCode {
    if error.kind() == ErrorKind::OutOfMemory {
        return report(rt, TextFault::NoMemory);
    }
    match error.print(rt) {
        Ok(()) if error.use_stderr() => ExitCode::from(WRONG_COMMAND_LINE),
        Ok(()) => ExitCode::SUCCESS,
        Err(_) => report(rt, TextFault::CannotWrite),
    }
}
