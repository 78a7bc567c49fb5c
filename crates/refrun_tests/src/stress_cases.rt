//! Stress runs.

use ref_base::Fault;
use refrun::{Counts, StressOptions, Tally, stress};
use std::test::Fail;

/// A run of so many mutators, workers, pollers and rounds.
fn options((mutators, workers, pollers, rounds): (u32, u32, u32, u64)) -> StressOptions {
    StressOptions {
        mutators,
        workers,
        pollers,
        rounds,
    }
}

/// Runs whose lists must pass all checks, as `options` takes them.
const PASSING: [(u32, u32, u32, u64); 3] = [(2, 2, 1, 100), (1, 1, 1, 1), (5, 3, 3, 40)];

/// What a tally shows of a run that never began.
const NOTHING_DONE: Counts = Counts {
    rounds: 0,
    cycles: 0,
    urgent: 0,
    notices: 0,
    handed: 0,
    polled: 0,
    moves: 0,
    jobs: 0,
};

/// Runs with too many threads, or too few, of a kind.
const REFUSED: [(u32, u32, u32, u64); 6] = [
    (8, 2, 1, 1),
    (1, 9, 1, 1),
    (0, 1, 0, 1),
    (u32::MAX, 1, u32::MAX, 1),
    (1, 0, 1, 1),
    (1, u32::MAX, 1, 10_000),
];

#[test]
fn the_lists_of_a_run_pass_each_check(rt: HostRuntime) -> Result<(), Fail> {
    for run in PASSING {
        let options = options(run);
        let tally = Tally::new();
        assert_eq!(rt; stress(&rt, rt.alloc(), options, &tally), Ok(None));
        let rounds = u64::from(options.mutators).saturating_mul(options.rounds);
        let counts = tally.counts();
        assert_eq!(rt; counts.rounds, rounds);
        // The last cycle is urgent.
        assert!(rt; counts.urgent > 0 && counts.cycles > 0, "{counts}");
        // The first job of each mutator is neither run by hand nor taken out.
        assert!(rt; counts.jobs >= u64::from(options.mutators), "{counts}");
        // Each round makes two objects. Where all fit into one page nothing moves, since there is no other with few.
        assert!(rt; rounds > 32 || counts.moves == 0, "{counts}");
    }
    Ok(())
}

#[test]
fn a_run_that_is_stopped_begins_no_round(rt: HostRuntime) -> Result<(), Fail> {
    for (mutators, workers, pollers, _) in PASSING {
        let endless = options((mutators, workers, pollers, u64::MAX));
        let tally = Tally::new();
        tally.stop();
        assert_eq!(rt; stress(&rt, rt.alloc(), endless, &tally), Ok(None));
        assert_eq!(rt; (tally.counts().rounds, tally.counts().jobs), (0, 0));
    }
    Ok(())
}

#[test]
fn a_run_with_too_many_threads_is_refused(rt: HostRuntime) -> Result<(), Fail> {
    for run in REFUSED {
        let tally = Tally::new();
        let answer = stress(&rt, rt.alloc(), options(run), &tally);
        assert_eq!(rt; answer, Err(Fault::BadConfig));
        assert_eq!(rt; tally.counts(), NOTHING_DONE);
    }
    Ok(())
}

/// How many runs there are at most, of which one is to hand on in batches and one to take in batches.
const RUNS: u32 = 20;

#[test]
fn notices_go_in_batches_too(rt: HostRuntime) -> Result<(), Fail> {
    let (mut handed, mut polled) = (0, 0);
    for _ in 0..RUNS {
        if handed > 0 && polled > 0 {
            return Ok(());
        }
        let tally = Tally::new();
        assert_eq!(rt;
            stress(&rt, rt.alloc(), options(PASSING[0]), &tally),
            Ok(None)
        );
        handed = tally.counts().handed.max(handed);
        polled = tally.counts().polled.max(polled);
    }
    assert!(rt; handed > 0 && polled > 0, "{handed} and {polled}");
    Ok(())
}
