//! `refrun random`.

use crate::{help, status};
use clap::builder::ValueParser;
use clap::{Arg, ArgAction, ArgMatches, Command, Error};
use refrun::{Parts, ToWriter, random_script};
use std::alloc::Global;
use std::io;
use std::process::ExitCode;

/// A script of so many steps is never too long to be read.
const MOST_STEPS: u64 = 100_000;

/// The parts of the format that a script has where it is asked for them.
const PARTS: [&str; 5] = ["moves", "batches", "jobs", "soft", "hide"];

/// The subcommand, its numbers and its option.
pub fn command<'a>(alloc: Global) -> Result<Command<'a>, Error> {
    let command = Command::new(alloc, "random")
        .about("Prints a script of steps at random, which tries what people forget")
        .after_help(help::RANDOM)
        .arg(
            Arg::new(alloc, "seed")
                .value_name("SEED")
                .required(true)
                .value_parser(ValueParser::unsigned(0, u64::MAX))
                .help("What the script is drawn from"),
        )?
        .arg(
            Arg::new(alloc, "steps")
                .value_name("STEPS")
                .required(true)
                .value_parser(ValueParser::unsigned(1, MOST_STEPS))
                .help("How many steps it has: 1 to 100,000"),
        )?
        .arg(
            Arg::new(alloc, "with")
                .long("with")
                .value_name("PARTS")
                .action(ArgAction::Append)
                .value_delimiter(',')
                .value_parser(ValueParser::Names(&PARTS))
                .help("What it has besides the plain steps, with commas between [default: all]"),
        )?;
    Ok(command)
}

/// The parts of these names, or all where none is asked for.
fn parts_of(names: Option<&[&str]>) -> Parts {
    let Some(names) = names else {
        return Parts::ALL;
    };
    Parts {
        moves: names.contains(&"moves"),
        batches: names.contains(&"batches"),
        jobs: names.contains(&"jobs"),
        soft: names.contains(&"soft"),
        hide: names.contains(&"hide"),
    }
}

/// Prints the script.
pub fn run<R: Print + Eprint + AllocGlobal>(rt: &R, matches: &ArgMatches) -> ExitCode {
    let seed = matches.get_one::<u64>("seed").unwrap_or(0);
    let steps = matches.get_one::<u32>("steps").unwrap_or(1);
    let parts = parts_of(matches.get_strs("with"));
    let mut writer = ToWriter::new(io::writer(rt));
    status(
        rt,
        random_script(rt.alloc(), &mut writer, seed, steps, parts),
    )
}
