//! The checks of a queue's lists, against lists that were worked out by hand.

use crate::texts::whole;
use rationed::Rationed;
use ref_base::{Fault, ObjNo};
use refrun::{Check, JobFate, StressLists, check_lists};
use std::alloc::{Allocator, Global};
use std::process::Abort;
use std::test::Fail;

/// A case a row. Behind its name stands what was put in, was taken and stands, then what each poller took and each
/// mutator kept. There a comma stands between two lists, and `-` for one that is empty. Then stands what became of each
/// job, the first check that fails, and what shows it, where that is looked at.
///
/// A job was due, or not, or ran early though it was due, while its object lived. How often it ran stands behind that.
static CASES: [&'static str; 27] = [
    "a number put in twice | 2 2 | 2 2 | | 2 2 | | | twice | 2 was put in at 0 and at 1",
    "a poller in another order | 2 3 | 2 3 | | 3 2 | | | order | poller 0 took 2 behind 3",
    "a number that no poller took | 2 3 | 2 3 | | 2 | | | total | no poller took 3",
    "a number that stands | 2 3 | 2 | 3 | 2 | | | rest | 3 stands",
    "two pollers | 2 3 4 | 2 3 4 | | 2 4, 3 | | | none |",
    "no poller and no number | | | | | | | none |",
    "pollers that took nothing | | | | -, - | | | none |",
    "a number twice, apart | 7 2 3 7 | | | 9 | | | twice | 7 was put in at 0 and at 3",
    "a number that was never put in | 2 3 | 2 3 4 | | 2 3, 4 | | | order | poller 1 took 4 first",
    "a poller that took a number twice | 2 3 | 2 3 | | 2 2 3 | | | order | poller 0 took 2 behind 2",
    "the second poller in another order | 2 3 4 | 2 3 4 | | 2, 4 3 | | | order | poller 1 took 3 behind 4",
    "a number that two pollers took | 2 3 | 2 3 | | 2 3, 3 | | | total | poller 1 took 3, and so did poller 0",
    "a poller took what was not taken | 2 3 | 2 | 3 | 2, 3 | | | total | poller 1 took 3, which the queue did not give",
    "the pollers took as much, and not the same | 2 3 4 | 2 3 | 4 | 2, 4 | | | total |",
    "taken in another order | 2 3 | 3 2 | | 2, 3 | | | rest | at 0 2 was put in and 3 taken",
    "something stands that was taken | 2 | 2 | 2 | 2 | | | rest |",
    "a number is taken twice, which counts once | 2 | 2 2 | | 2 | | | rest | at 1 nothing was put in and 2 taken",
    "two mutators, and all that they kept was put in | 2 3 4 | 2 3 4 | | 2 4, 3 | 4 2, 3 | | none |",
    "no report of what the second mutator kept | 2 3 | 2 3 | | 2 3 | 2, 3 5 | | reports | no report of 5",
    "no report of what either mutator kept | | | | - | -, 7, 8 | | reports | no report of 7",
    "what was kept stands, and is not missing | 2 3 | 2 | 3 | 2 | 3, 9 | | rest | 3 stands",
    "a job that ran, one that was taken out, and one that ran by hand | 2 | 2 | | 2 | | due-1 not-0 due-1 | none |",
    "a job that never ran | | | | | | due-1 due-0 | jobs | job 1 never ran",
    "a job that ran twice | | | | | | not-0 due-1 due-2 due-1 | jobs | job 2 ran 2 times",
    "a job that ran while its object lived | | | | | | early-1 | jobs | job 0 ran while its object lived",
    "a job that was taken out, and ran | | | | | | not-0 not-1 | jobs | job 1 ran, and was not to",
    "a job that never ran, and no report | | | | | 7 | due-0 | reports | no report of 7",
];

/// The checks, by name.
const CHECKS: [(Check, &str); 6] = [
    (Check::Twice, "twice"),
    (Check::Order, "order"),
    (Check::Total, "total"),
    (Check::Rest, "rest"),
    (Check::Reports, "reports"),
    (Check::Jobs, "jobs"),
];

/// A case, with the first check that fails and what shows it.
#[derive(Drop)]
struct Case {
    lists: StressLists,
    fails: Option<Check>,
    shown: &'static str,
}

/// What stands in this column of a row.
fn column(row: &'static str, place: usize) -> &'static str {
    row.split('|').nth(place).unwrap_or("").trim()
}

fn objects(alloc: Global, numbers: &str) -> Result<Vec<ObjNo>, Fail> {
    let mut all = Vec::new(alloc);
    for number in numbers.split_whitespace() {
        if number != "-" {
            all.push(ObjNo(number.parse::<u32>()?))?;
        }
    }
    Ok(all)
}

fn objects_of_each(alloc: Global, lists: &str) -> Result<Vec<Vec<ObjNo>>, Fail> {
    let mut all = Vec::new(alloc);
    for list in lists.split(',') {
        if !list.is_empty() {
            all.push(objects(alloc, list)?)?;
        }
    }
    Ok(all)
}

fn fates(alloc: Global, jobs: &str) -> Result<Vec<JobFate>, Fail> {
    let mut all = Vec::new(alloc);
    for job in jobs.split_whitespace() {
        let (fate, runs) = job.split_once('-').unwrap_or((job, ""));
        all.push(JobFate {
            is_due: fate != "not",
            runs: runs.parse::<u32>()?,
            is_early: fate == "early",
        })?;
    }
    Ok(all)
}

/// The case of a row.
fn case_of(alloc: Global, row: &'static str) -> Result<Case, Fail> {
    let lists = StressLists {
        enqueued: objects(alloc, column(row, 1))?,
        taken: objects(alloc, column(row, 2))?,
        stands: objects(alloc, column(row, 3))?,
        pollers: objects_of_each(alloc, column(row, 4))?,
        kept: objects_of_each(alloc, column(row, 5))?,
        jobs: fates(alloc, column(row, 6))?,
    };
    let mut fails = None;
    for (check, name) in CHECKS {
        if name == column(row, 7) {
            fails = Some(check);
        }
    }
    Ok(Case {
        lists,
        fails,
        shown: column(row, 8),
    })
}

/// What is told to show that a check of these lists fails.
fn shown_by(alloc: Global, lists: &StressLists) -> Result<String, Fail> {
    let shown = match lists.check(alloc)? {
        Some(check) => lists.evidence(check),
        None => None,
    };
    match shown {
        Some(evidence) => Ok(format!(in alloc; "{evidence}")?),
        None => Ok(format!(in alloc; "nothing")?),
    }
}

/// The check that fails first is told, and so is what shows it.
fn is_told(rt: &impl Abort, alloc: Global, case: &Case, row: &str) -> Result<(), Fail> {
    assert!(rt; checked(alloc, &case.lists) == Ok(case.fails), "{row}");
    let shown = shown_by(alloc, &case.lists)?;
    let is_so = case.shown.is_empty() || shown.as_str() == case.shown;
    assert!(rt; is_so, "{row}: {shown}");
    Ok(())
}

#[test]
fn the_first_check_that_fails_is_told_and_what_shows_it(rt: HostRuntime) -> Result<(), Fail> {
    for row in CASES {
        is_told(&rt, rt.alloc(), &case_of(rt.alloc(), row)?, row)?;
    }
    Ok(())
}

/// What the checks answer, with memory of this allocator.
fn checked<A: Allocator + Copy>(memory: A, lists: &StressLists) -> Result<Option<Check>, Fault> {
    check_lists(
        memory,
        lists.enqueued.as_slice(),
        lists.taken.as_slice(),
        lists.stands.as_slice(),
        lists.pollers.as_slice(),
        lists.kept.as_slice(),
        lists.jobs.as_slice(),
    )
}

/// More requests for memory than the checks make.
const MOST: u64 = 100;

/// Each request for memory of the checks of a case is refused in turn, until no one is. Answers how many they make.
fn refuse_each(rt: &impl Abort, memory: &Rationed<Global>, case: &Case, row: &str) -> u64 {
    for met in 0..MOST {
        memory.ration(met);
        let answer = checked(memory, &case.lists);
        if !memory.lift() {
            assert!(rt; answer == Ok(case.fails), "{row}: {met}");
            return met;
        }
        let again = checked(memory, &case.lists);
        assert!(rt;
            answer == Err(Fault::NoMemory) && again == Ok(case.fails),
            "{row}: {met}"
        );
    }
    let call = "check_lists";
    assert!(rt; false, "{row}: {call} makes more requests than {MOST}");
    MOST
}

#[test]
fn each_refused_request_of_a_check_is_told(rt: HostRuntime) -> Result<(), Fail> {
    let memory = Rationed::new(rt.alloc());
    for row in CASES {
        let case = case_of(rt.alloc(), row)?;
        let requests = refuse_each(&rt, &memory, &case, row);
        assert!(rt; requests > 0 || case.lists.enqueued.is_empty(), "{row}");
    }
    Ok(())
}

#[test]
fn each_check_prints_as_its_name(rt: HostRuntime) {
    for (check, name) in CHECKS {
        let printed = whole(&rt, format!(in rt.alloc(); "{check}"));
        assert!(rt; printed.as_str() == name, "{printed}");
    }
}
