//! Whether a queue's lists agree once all threads of a stress run have ended.

ghost use Rattle.std.specs.Prelude.{◌≡◌, ◌↔◌, ℕ, map, nat_eq, true, All, IfOk, OnErr, IsTrue};
ghost use Rattle.std.specs.List.{IsDistinct};
ghost use Rattle.ref_base.specs.CollectorRows.{is_subsequence};
ghost use Rattle.ref_base.specs.Members.{has};
ghost use Rattle.refrun.specs.StressChecks.{IsFirstFailure, GivesEachOnce, PutInAll, RanWell};

use crate::outcomes::JobFate;
use ref_base::{Fault, ObjNo};
use std::alloc::Allocator;
use std::collections::HashSet;
use std::fmt;
use std::hash::{BuildHasherDefault, FoldHasher};

/// A check of what a queue's lists say once the threads have ended. It prints as its name, in small letters.
#[derive(Clone, Copy, Debug, PartialEq, Eq)]
pub enum Check {
    /// No number was put in twice.
    Twice,
    /// Each poller took its numbers in the order in which they were put in.
    Order,
    /// The pollers took each number that was taken once, and no other.
    Total,
    /// Nothing stands, and what was put in was taken.
    Rest,
    /// Each reference that was kept to the end was put in.
    Reports,
    /// Each job that was to run did once, behind its object's death, and no other did.
    Jobs,
}

impl fmt::Display for Check {
    ghost use Rattle.std.specs.Prelude.{Some};
    ghost use Rattle.refrun.specs.StressChecks.{name_of_check};

    ghost output = { λ check. Some (name_of_check check) };

    fn fmt<W: fmt::Write>(&self, f: &mut fmt::Formatter<W>) -> fmt::Result {
        match *self {
            Check::Twice => write!(f, "twice"),
            Check::Order => write!(f, "order"),
            Check::Total => write!(f, "total"),
            Check::Rest => write!(f, "rest"),
            Check::Reports => write!(f, "reports"),
            Check::Jobs => write!(f, "jobs"),
        }
    }
}

/// The first check that fails, in the order of `Check`; `None` where all hold. `lists` has what each poller took, and
/// `kept` what each mutator kept to the end.
///
/// The one error is `NoMemory`. In expected linear time of all numbers, and for each poller of `enqueued` once more. It
/// takes memory for the numbers of `enqueued`, then of `taken`, and then of `enqueued` again.
pub fn check_lists<A: Allocator + Copy, B: Allocator>(
    alloc: A,
    enqueued: &[ObjNo],
    taken: &[ObjNo],
    stands: &[ObjNo],
    lists: &[Vec<ObjNo, B>],
    kept: &[Vec<ObjNo, B>],
    jobs: &[JobFate],
) -> Result<Option<Check>, Fault>
    ensures answer { IfOk result (IsFirstFailure enqueued.now taken.now stands.now (map (λ v. v.items) lists.now)
        (map (λ v. v.items) kept.now) jobs.now) }
    ensures err { OnErr result (result ≡ Err Fault.NoMemory) }
{
    if !are_distinct(alloc, enqueued)? {
        return Ok(Some(Check::Twice));
    }
    if !are_in_order(lists, enqueued) {
        return Ok(Some(Check::Order));
    }
    if !gives_each_once(alloc, lists, taken)? {
        return Ok(Some(Check::Total));
    }
    if !stands.is_empty() || taken != enqueued {
        return Ok(Some(Check::Rest));
    }
    if !are_put_in(alloc, enqueued, kept)? {
        return Ok(Some(Check::Reports));
    }
    if !are_well(jobs) {
        return Ok(Some(Check::Jobs));
    }
    Ok(None)
}

/// Whether no number stands twice.
fn are_distinct<A: Allocator + Copy>(alloc: A, numbers: &[ObjNo]) -> Result<bool, Fault>
    ensures answer { IfOk result (λ b. IsTrue b ↔ IsDistinct nat_eq numbers.now) }
    ensures err { OnErr result (result ≡ Err Fault.NoMemory) }
{
    let mut seen = HashSet::new(alloc);
    for number in numbers {
        let Ok(is_new) = seen.insert(*number) else {
            return Err(Fault::NoMemory);
        };
        if !is_new {
            return Ok(false);
        }
    }
    Ok(true)
}

/// Whether each poller took its numbers in the order of `enqueued`.
fn are_in_order<B: Allocator>(lists: &[Vec<ObjNo, B>], enqueued: &[ObjNo]) -> bool
    ensures { IsTrue result ↔ All (λ list. is_subsequence list.items enqueued.now ≡ true) lists.now }
{
    lists
        .iter()
        .all(|list| is_in_order(list.as_slice(), enqueued))
}

/// Whether a list is what is left of `enqueued` where some numbers are taken out.
pub(crate) fn is_in_order(list: &[ObjNo], enqueued: &[ObjNo]) -> bool
    ensures { result ≡ is_subsequence list.now enqueued.now }
{
    let mut rest = list;
    for number in enqueued {
        if let [first, others @ ..] = rest
            && first == number
        {
            rest = others;
        }
    }
    rest.is_empty()
}

/// Whether the lists together have each number of `taken` once, and no other.
fn gives_each_once<A: Allocator + Copy, B: Allocator>(
    alloc: A,
    lists: &[Vec<ObjNo, B>],
    taken: &[ObjNo],
) -> Result<bool, Fault>
    ensures answer { IfOk result (λ b. IsTrue b ↔ GivesEachOnce taken.now (map (λ v. v.items) lists.now)) }
    ensures err { OnErr result (result ≡ Err Fault.NoMemory) }
{
    let mut missing = set_of(alloc, taken)?;
    for list in lists {
        for number in list {
            if !missing.remove(number) {
                return Ok(false);
            }
        }
    }
    Ok(missing.is_empty())
}

/// Whether each number of the lists was put in.
fn are_put_in<A: Allocator + Copy, B: Allocator>(
    alloc: A,
    enqueued: &[ObjNo],
    kept: &[Vec<ObjNo, B>],
) -> Result<bool, Fault>
    ensures answer { IfOk result (λ b. IsTrue b ↔ PutInAll enqueued.now (map (λ v. v.items) kept.now)) }
    ensures err { OnErr result (result ≡ Err Fault.NoMemory) }
{
    let reported = set_of(alloc, enqueued)?;
    for list in kept {
        for number in list {
            if !reported.contains(number) {
                return Ok(false);
            }
        }
    }
    Ok(true)
}

/// Whether each job ran as it was to.
fn are_well(jobs: &[JobFate]) -> bool
    ensures { IsTrue result ↔ RanWell jobs.now }
{
    jobs.iter().all(|job| job.is_well())
}

/// These numbers as a set.
fn set_of<A: Allocator + Copy>(
    alloc: A,
    numbers: &[ObjNo],
) -> Result<HashSet<ObjNo, BuildHasherDefault<FoldHasher>, A>, Fault>
    ensures answer { IfOk result (λ set. (n : ℕ) → has set.keys n ≡ has numbers.now n) }
    ensures err { OnErr result (result ≡ Err Fault.NoMemory) }
{
    let mut set = HashSet::new(alloc);
    for number in numbers {
        let Ok(_) = set.insert(*number) else {
            return Err(Fault::NoMemory);
        };
    }
    Ok(set)
}
