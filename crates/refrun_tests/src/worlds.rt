//! Worlds of many sizes in which scripts are done that were drawn: each step is answered in just the ways that it has,
//! and judges take each row.

use crate::drawn::{
    Counts, FIRST_OF_MOVES, FIRST_OF_WORLDS, NO_COUNTS, are_met, is_counted, script,
};
use ref_base::{Config, Fault, PlainStep, Reply, Row, Step};
use ref_judge::{Judge, Order, Profile, verdict};
use ref_objects::Start;
use ref_script::{MAX_TEXT, Script, ScriptStep, script_of};
use ref_world::{Trace, World, run};
use refrun::{Parts, TextFault};
use std::alloc::Global;
use std::process::Abort;
use std::test::Fail;

/// The steps of worlds: all parts but jobs.
const WITHOUT_JOBS: Parts = Parts {
    jobs: false,
    ..Parts::ALL
};

/// A collector that may do all that profiles let one do.
const LOOSE: Profile = Profile {
    keeps_more: true,
    soft_free: true,
    order: Order::Any,
};

/// Judges that are told the rows of one world: one those that a log may not leave out, and one lets a collector do all
/// that profiles let one do.
#[derive(Drop)]
struct Judges {
    brief: Judge,
    loose: Judge,
}

impl Judges {
    /// Judges of a world of this size.
    fn new(alloc: Global, config: Config) -> Result<Self, Fault> {
        Ok(Judges {
            brief: Judge::new(alloc, config, Profile::strict())?,
            loose: Judge::new(alloc, config, LOOSE)?,
        })
    }

    /// Whether each that is told the row takes it.
    fn take(&mut self, row: Row) -> bool {
        let is_brief = may_be_left_out(&row) || self.brief.row(row) == Ok(());
        is_brief && self.loose.row(row) == Ok(())
    }
}

/// Whether a log may leave the row out: it was refused, or it is of a worker that found nothing to do.
fn may_be_left_out(row: &Row) -> bool {
    match row.reply {
        Reply::Refused(_) => true,
        Reply::Nothing => matches!(
            row.step,
            Step::Hand { .. }
                | Step::Hands { .. }
                | Step::Plain(
                    PlainStep::Scan { .. }
                        | PlainStep::ClearNext { .. }
                        | PlainStep::Sweep { .. }
                        | PlainStep::MoveNext { .. }
                )
        ),
        _ => false,
    }
}

/// The script of so many steps that is drawn with this seed.
fn drawn(alloc: Global, seed: u64, steps: u32) -> Result<Script<Global>, TextFault> {
    let (answer, text) = script(alloc, alloc, seed, steps, WITHOUT_JOBS);
    answer?;
    if text.len() > MAX_TEXT {
        return Err(TextFault::TooLong);
    }
    script_of(alloc, text.as_slice())
}

/// The rows of these steps, in a world of this size whose numbers begin so.
fn rows_of(
    alloc: Global,
    config: Config,
    start: Start,
    steps: &[ScriptStep],
) -> Result<Vec<Row>, Fail> {
    let mut asked = Vec::with_capacity(alloc, steps.len())?;
    for step in steps {
        if let ScriptStep::World(step) = *step {
            asked.push(step)?;
        }
    }
    let world = World::starting(alloc, config, start)?;
    match run(alloc, world, asked) {
        Ok(Trace { rows, world }) => {
            world.end();
            Ok(rows)
        }
        Err((fault, world, _steps)) => {
            world.end();
            Err(Fail::from(fault))
        }
    }
}

/// Does these steps in a world of this size whose numbers begin so, and counts how they are answered. The verdict on a
/// world whose numbers begin with the first is that it is legal, and judges take each row.
fn do_world(
    rt: &impl Abort,
    alloc: Global,
    (config, start): (Config, Start),
    steps: &[ScriptStep],
    counts: &mut Counts,
) -> Result<(), Fail> {
    let rows = rows_of(alloc, config, start, steps)?;
    let illegal = verdict(alloc, config, Profile::strict(), rows.as_slice())?;
    assert!(rt;
        start != Start::FIRST || illegal == None,
        "{config:?}: {illegal:?}"
    );
    let mut judges = Judges::new(alloc, config)?;
    for (place, &row) in rows.iter().enumerate() {
        let told = format!(in alloc; "{place} {row}")?;
        assert!(rt; is_counted(counts, told.as_str()), "{config:?}: {told}");
        let is_taken = start != Start::FIRST || judges.take(row);
        assert!(rt; is_taken, "judged, {config:?}: {told}");
    }
    Ok(())
}

/// Where a world of 128 cells starts whose four pages take the last addresses.
const LATE: Start = Start {
    page: 4_294_967_292,
    ..Start::FIRST
};

/// How many worlds of each size there are, and how many steps each does: 100,000 in all large ones, 108,000 in all
/// others, and 10,000 in those that start late.
const WORLDS: u32 = 10;

const LARGE_STEPS: u32 = 5_000;

const STEPS: u32 = 1_200;

const LATE_STEPS: usize = 1_000;

/// How many cells large worlds have, which objects fill two pages of and more.
const LARGE_CELLS: [u32; 2] = [128, 4_096];

/// How many cells others have. Objects fill about a page of some.
const CELLS: [u32; 9] = [1, 6, 12, 16, 24, 32, 63, 64, 65];

/// Does scripts of worlds with more than a page in worlds that have two pages and more.
fn do_large(rt: &impl Abort, alloc: Global, counts: &mut Counts) -> Result<(), Fail> {
    let mut worlds = 0u32;
    for seed in 0..1_000 {
        // The configuration is drawn before the steps.
        if worlds == WORLDS || drawn(alloc, seed, 0)?.config.cells <= 64 {
            continue;
        }
        let Script { config, steps } = drawn(alloc, seed, LARGE_STEPS)?;
        let steps = steps.as_slice();
        for cells in LARGE_CELLS {
            let size = (Config { cells, ..config }, Start::FIRST);
            do_world(rt, alloc, size, steps, counts)?;
        }
        // Addresses are spent there as soon as objects are to move.
        let late = (
            Config {
                cells: 128,
                ..config
            },
            LATE,
        );
        let (first, _) = steps.split_at(steps.len().min(LATE_STEPS));
        do_world(rt, alloc, late, first, counts)?;
        worlds = worlds.saturating_add(1);
    }
    assert_eq!(rt; worlds, WORLDS);
    Ok(())
}

#[test]
fn each_step_is_answered_in_each_of_its_ways_in_worlds_of_many_sizes(
    rt: HostRuntime,
) -> Result<(), Fail> {
    let alloc = rt.alloc();
    let mut counts = NO_COUNTS;
    do_large(&rt, alloc, &mut counts)?;
    are_met(&rt, &counts, FIRST_OF_MOVES, "");
    for seed in 0..u64::from(WORLDS) {
        let Script { config, steps } = drawn(alloc, seed, STEPS)?;
        for cells in CELLS {
            let size = (Config { cells, ..config }, Start::FIRST);
            do_world(&rt, alloc, size, steps.as_slice(), &mut counts)?;
        }
    }
    are_met(&rt, &counts, FIRST_OF_WORLDS, "");
    Ok(())
}
