//! `refrun check`.

use crate::{WRONG_COMMAND_LINE, help};
use clap::{Arg, ArgAction, ArgMatches, Command, Error};
use ref_base::{Config, SpanRule};
use ref_log::{LogFailure, Verdict, verdict_on};
use refrun::{FromReader, TextFault};
use std::alloc::Global;
use std::process::ExitCode;

/// The subcommand and its option.
pub fn command<'a>(alloc: Global) -> Result<Command<'a>, Error> {
    let config = Arg::new(alloc, "config")
        .long("config")
        .value_name("M,W,Q,C,S")
        .action(ArgAction::Append)
        .value_delimiter(',')
        .help("Mutators, workers, queues, cells and span, of a trace that has no line of them");
    let command = Command::new(alloc, "check")
        .about(
            "Reads a collector's trace on standard input and tells the first row that isn't legal",
        )
        .after_help(help::CHECK)
        .arg(config)?;
    Ok(command)
}

/// The configuration of these numbers; its rule is the trace's.
fn config_of(words: &[&str]) -> Option<Config> {
    let [mutators, workers, queues, cells, span] = words else {
        return None;
    };
    Some(Config {
        mutators: mutators.parse().ok()?,
        workers: workers.parse().ok()?,
        queues: queues.parse().ok()?,
        cells: cells.parse().ok()?,
        span: span.parse().ok()?,
        rule: SpanRule::Fixed,
    })
}

/// Judges the trace.
pub fn run<R: Input + Print + Eprint + AllocGlobal>(rt: &R, matches: &ArgMatches) -> ExitCode {
    let Some(words) = matches.get_strs("config") else {
        return check(rt, None);
    };
    match config_of(words) {
        Some(config) => check(rt, Some(config)),
        None => {
            let _ = rt.eprintln("refrun: --config takes five numbers with commas between");
            ExitCode::from(WRONG_COMMAND_LINE)
        }
    }
}

/// Judges the trace on standard input, whose configuration may be given.
fn check<R: Input + Print + Eprint + AllocGlobal>(rt: &R, config: Option<Config>) -> ExitCode {
    let mut reader = FromReader::new(rt.reader());
    match verdict_on(rt.alloc(), &mut reader, config) {
        Ok(verdict) => tell(rt, &verdict),
        Err(failure) => report(rt, &failure),
    }
}

/// Prints the verdict, and answers its status.
fn tell<R: Print + Eprint>(rt: &R, verdict: &Verdict) -> ExitCode {
    match println!(rt; "{verdict}") {
        Ok(()) => ExitCode::from(verdict.exit_status()),
        Err(_) => crate::report(rt, TextFault::CannotWrite),
    }
}

/// Tells why there is no verdict, and answers the status. Of a log that is cut off it prints how far it is legal.
fn report<R: Print + Eprint>(rt: &R, failure: &LogFailure) -> ExitCode {
    if let LogFailure::CutOff { rows, .. } = failure {
        let _ = println!(rt; "legal: {rows} rows as far as they go");
    }
    let _ = rt.eprintln(format_args!("refrun: {failure}"));
    ExitCode::from(failure.exit_status())
}
