//! What shows that a check of a queue's lists fails: which poller, and which two numbers.

ghost use Rattle.std.specs.Prelude.{◌≡◌, ℕ, ◌<◌, ◌+◌, [], true, false, map, length, nat_eq, slice_range};
ghost use Rattle.std.specs.Prelude.{IfSome, IfNone, All};
ghost use Rattle.std.specs.List.{Contains, IsDistinct, flat_map};
ghost use Rattle.ref_base.specs.CollectorRows.{is_subsequence};
ghost use Rattle.ref_base.specs.Members.{has};
ghost use Rattle.refrun.specs.StressChecks.{Passes, GivesEachOnce, RanWell, ran_well};
ghost use Rattle.refrun.specs.StressEvidence.{before_place, IsEvidence, ShowsTwice, ShowsOrder, ShowsTotal};
ghost use Rattle.refrun.specs.StressEvidence.{ShowsAgain, ShowsRest, ShowsReports, ShowsJobs, IsWrong};

use crate::lists::{Check, is_in_order};
use crate::outcomes::JobFate;
use ref_base::ObjNo;
use std::alloc::Allocator;
use std::fmt;

/// What shows that a check fails. It prints as a line. Pollers and places are counted from 0.
#[derive(Clone, Copy, Debug, PartialEq, Eq)]
pub enum Evidence {
    /// Of `twice`: this number was put in at both places.
    PutTwice {
        number: ObjNo,
        first: usize,
        again: usize,
    },
    /// Of `order`: this poller took the number out of order, behind the other one, or as its first.
    OutOfOrder {
        poller: usize,
        before: Option<ObjNo>,
        number: ObjNo,
    },
    /// Of `total`: this poller took the number, which was not taken from the queue.
    NotGiven {
        poller: usize,
        number: ObjNo,
    },
    /// Of `total`: this poller took the number, and the other poller too, or this one twice.
    TakenTwice {
        poller: usize,
        other: usize,
        number: ObjNo,
    },
    /// Of `total`: no poller took the number.
    NotTaken {
        number: ObjNo,
    },
    /// Of `rest`: the number stands in the queue.
    Stands {
        number: ObjNo,
    },
    /// Of `rest`: at this place the one number was put in, and the other was taken, if any.
    TakenInPlaceOf {
        place: usize,
        put: Option<ObjNo>,
        taken: Option<ObjNo>,
    },
    /// Of `reports`: a mutator kept the number to the end, and it was not put in.
    NoReport {
        number: ObjNo,
    },
    /// Of `jobs`: what is wrong with how the job ran.
    Job {
        job: usize,
        wrong: WrongRun,
    },
}

/// What is wrong with how a job ran. It prints behind the job's number.
#[derive(Clone, Copy, Debug, PartialEq, Eq)]
pub enum WrongRun {
    /// The job was to run, and ran so often in the place of once.
    Runs(u32),
    /// The job began while its object lived.
    Early,
    /// The job was not to run, and ran.
    Unasked,
}

impl fmt::Display for Evidence {
    fn fmt<W: fmt::Write>(&self, f: &mut fmt::Formatter<W>) -> fmt::Result {
        match *self {
            Evidence::PutTwice {
                number,
                first,
                again,
            } => write!(f, "{number} was put in at {first} and at {again}"),
            Evidence::OutOfOrder {
                poller,
                before,
                number,
            } => write!(f, "poller {poller} took {number} {}", Behind(before)),
            Evidence::NotGiven { poller, number } => {
                write!(
                    f,
                    "poller {poller} took {number}, which the queue did not give"
                )
            }
            Evidence::TakenTwice {
                poller,
                other,
                number,
            } => write!(
                f,
                "poller {poller} took {number}, and so did poller {other}"
            ),
            Evidence::NotTaken { number } => write!(f, "no poller took {number}"),
            Evidence::Stands { number } => write!(f, "{number} stands"),
            Evidence::TakenInPlaceOf { place, put, taken } => write!(
                f,
                "at {place} {} was put in and {} taken",
                Told(put),
                Told(taken)
            ),
            Evidence::NoReport { number } => write!(f, "no report of {number}"),
            Evidence::Job { job, wrong } => write!(f, "job {job} {wrong}"),
        }
    }
}

impl fmt::Display for WrongRun {
    fn fmt<W: fmt::Write>(&self, f: &mut fmt::Formatter<W>) -> fmt::Result {
        match *self {
            WrongRun::Runs(0) => f.write_str("never ran"),
            WrongRun::Runs(runs) => write!(f, "ran {runs} times"),
            WrongRun::Early => f.write_str("ran while its object lived"),
            WrongRun::Unasked => f.write_str("ran, and was not to"),
        }
    }
}

/// Behind which number another was taken, or that it was the first.
#[derive(Clone, Copy)]
struct Behind(Option<ObjNo>);

impl fmt::Display for Behind {
    fn fmt<W: fmt::Write>(&self, f: &mut fmt::Formatter<W>) -> fmt::Result {
        match self.0 {
            Some(number) => write!(f, "behind {number}"),
            None => f.write_str("first"),
        }
    }
}

/// A number, or that there is none.
#[derive(Clone, Copy)]
struct Told(Option<ObjNo>);

impl fmt::Display for Told {
    fn fmt<W: fmt::Write>(&self, f: &mut fmt::Formatter<W>) -> fmt::Result {
        match self.0 {
            Some(number) => write!(f, "{number}"),
            None => write!(f, "nothing"),
        }
    }
}

/// What shows that this check fails, the first in the order of the lists; none where the check holds. `lists` has what
/// each poller took, `kept` what each mutator kept to the end. In time of the square of the numbers. Takes no memory.
pub fn evidence_of<B: Allocator>(
    check: Check,
    enqueued: &[ObjNo],
    taken: &[ObjNo],
    stands: &[ObjNo],
    lists: &[Vec<ObjNo, B>],
    kept: &[Vec<ObjNo, B>],
    jobs: &[JobFate],
) -> Option<Evidence>
    ensures shows { IfSome result (IsEvidence (λ v. v.items) enqueued.now taken.now stands.now lists.now kept.now
        jobs.now) }
    ensures passes { IfNone result (Passes enqueued.now taken.now stands.now (map (λ v. v.items) lists.now)
        (map (λ v. v.items) kept.now) jobs.now check) }
{
    match check {
        Check::Twice => put_twice(enqueued),
        Check::Order => out_of_order(enqueued, lists),
        Check::Total => not_once(taken, lists),
        Check::Rest => left_over(enqueued, taken, stands),
        Check::Reports => not_put_in(enqueued, kept),
        Check::Jobs => not_well(jobs),
    }
}

/// The first number that was put in a second time.
fn put_twice(enqueued: &[ObjNo]) -> Option<Evidence>
    ensures shows { IfSome result (ShowsTwice enqueued.now) }
    ensures passes { IfNone result (IsDistinct nat_eq enqueued.now) }
{
    for again in 0..enqueued.len() {
        let number = enqueued[again];
        for first in 0..again {
            if enqueued[first] == number {
                return Some(Evidence::PutTwice {
                    number,
                    first,
                    again,
                });
            }
        }
    }
    None
}

/// The first number of a poller that is out of order.
fn out_of_order<B: Allocator>(enqueued: &[ObjNo], lists: &[Vec<ObjNo, B>]) -> Option<Evidence>
    ensures shows { IfSome result (ShowsOrder (λ v. v.items) enqueued.now lists.now) }
    ensures passes { IfNone result (All (λ v. is_subsequence v.items enqueued.now ≡ true) lists.now) }
{
    for poller in 0..lists.len() {
        let list = lists[poller].as_slice();
        if let Some(place) = place_out_of_order(list, enqueued) {
            return Some(Evidence::OutOfOrder {
                poller,
                before: number_before(list, place),
                number: list[place],
            });
        }
    }
    None
}

/// What stands right in front of the place.
fn number_before(list: &[ObjNo], place: usize) -> Option<ObjNo>
    requires { place < length list.now }
    ensures { result ≡ before_place list.now place }
{
    if place == 0 {
        None
    } else {
        Some(list[place - 1])
    }
}

/// The first place of a list up to which it is out of order.
fn place_out_of_order(list: &[ObjNo], enqueued: &[ObjNo]) -> Option<usize>
    ensures within { IfSome result (λ place. place < length list.now) }
    ensures out { IfSome result (λ place.
        is_subsequence (slice_range list.now 0 (place + 1)) enqueued.now ≡ false) }
    ensures passes { IfNone result (is_subsequence list.now enqueued.now ≡ true) }
{
    for place in 0..list.len() {
        if !is_in_order(&list[..place + 1], enqueued) {
            return Some(place);
        }
    }
    None
}

/// A number that no poller took just once, or that the queue did not give.
fn not_once<B: Allocator>(taken: &[ObjNo], lists: &[Vec<ObjNo, B>]) -> Option<Evidence>
    ensures shows { IfSome result (ShowsTotal (λ v. v.items) taken.now lists.now) }
    ensures passes { IfNone result (GivesEachOnce taken.now (map (λ v. v.items) lists.now)) }
{
    if let Some(evidence) = not_given(taken, lists) {
        return Some(evidence);
    }
    if let Some(evidence) = taken_twice(lists) {
        return Some(evidence);
    }
    not_taken(taken, lists)
}

/// The first number of a poller that was not taken from the queue.
fn not_given<B: Allocator>(taken: &[ObjNo], lists: &[Vec<ObjNo, B>]) -> Option<Evidence>
    ensures shows { IfSome result (ShowsTotal (λ v. v.items) taken.now lists.now) }
    ensures passes { IfNone result ((n : ℕ) → has (flat_map (λ v. v.items) lists.now) n ≡ true
        → has taken.now n ≡ true) }
{
    for poller in 0..lists.len() {
        if let Some(number) = number_outside(lists[poller].as_slice(), taken) {
            return Some(Evidence::NotGiven { poller, number });
        }
    }
    None
}

/// The first number of the list that is not among the others.
fn number_outside(list: &[ObjNo], others: &[ObjNo]) -> Option<ObjNo>
    ensures shows { IfSome result (λ n. Contains list.now n × ¬ (Contains others.now n)) }
    ensures passes { IfNone result ((n : ℕ) → has list.now n ≡ true → has others.now n ≡ true) }
{
    for number in list {
        if !others.contains(number) {
            return Some(*number);
        }
    }
    None
}

/// The first number of a poller that an earlier one took, or it itself before.
fn taken_twice<B: Allocator>(lists: &[Vec<ObjNo, B>]) -> Option<Evidence>
    ensures shows { IfSome result (ShowsAgain (λ v. v.items) lists.now) }
    ensures passes { IfNone result (IsDistinct nat_eq (flat_map (λ v. v.items) lists.now)) }
{
    for poller in 0..lists.len() {
        let list = lists[poller].as_slice();
        if let Some(number) = number_again(list) {
            return Some(Evidence::TakenTwice {
                poller,
                other: poller,
                number,
            });
        }
        for other in 0..poller {
            if let Some(number) = number_of_both(list, lists[other].as_slice()) {
                return Some(Evidence::TakenTwice {
                    poller,
                    other,
                    number,
                });
            }
        }
    }
    None
}

/// The first number of the list that stands in it before.
fn number_again(list: &[ObjNo]) -> Option<ObjNo>
    ensures shows { IfSome result (λ n. Contains list.now n) }
    ensures passes { IfNone result (IsDistinct nat_eq list.now) }
{
    for place in 0..list.len() {
        let number = list[place];
        if list[..place].contains(&number) {
            return Some(number);
        }
    }
    None
}

/// The first number of the list that is among the others.
fn number_of_both(list: &[ObjNo], others: &[ObjNo]) -> Option<ObjNo>
    ensures shows { IfSome result (λ n. Contains list.now n × Contains others.now n) }
    ensures passes { IfNone result ((n : ℕ) → has list.now n ≡ true → has others.now n ≡ false) }
{
    for number in list {
        if others.contains(number) {
            return Some(*number);
        }
    }
    None
}

/// The first number that was taken from the queue, and that no poller took.
fn not_taken<B: Allocator>(taken: &[ObjNo], lists: &[Vec<ObjNo, B>]) -> Option<Evidence>
    ensures shows { IfSome result (ShowsTotal (λ v. v.items) taken.now lists.now) }
    ensures passes { IfNone result ((n : ℕ) → has taken.now n ≡ true
        → has (flat_map (λ v. v.items) lists.now) n ≡ true) }
{
    for number in taken {
        if !is_taken(*number, lists) {
            return Some(Evidence::NotTaken { number: *number });
        }
    }
    None
}

/// Whether a poller took the number.
fn is_taken<B: Allocator>(number: ObjNo, lists: &[Vec<ObjNo, B>]) -> bool
    ensures { result ≡ has (flat_map (λ v. v.items) lists.now) number }
{
    for poller in 0..lists.len() {
        if lists[poller].as_slice().contains(&number) {
            return true;
        }
    }
    false
}

/// The first number that stands, or else the first place where another was taken than was put in.
fn left_over(enqueued: &[ObjNo], taken: &[ObjNo], stands: &[ObjNo]) -> Option<Evidence>
    ensures shows { IfSome result (ShowsRest enqueued.now taken.now stands.now) }
    ensures passes { IfNone result ((stands.now ≡ []) × (taken.now ≡ enqueued.now)) }
{
    if let Some(number) = stands.first() {
        return Some(Evidence::Stands { number: *number });
    }
    for place in 0..enqueued.len().max(taken.len()) {
        let put = enqueued.get(place).copied();
        let taken = taken.get(place).copied();
        if put != taken {
            return Some(Evidence::TakenInPlaceOf { place, put, taken });
        }
    }
    None
}

/// The first number of the lists that was not put in.
fn not_put_in<B: Allocator>(enqueued: &[ObjNo], kept: &[Vec<ObjNo, B>]) -> Option<Evidence>
    ensures shows { IfSome result (ShowsReports (λ v. v.items) enqueued.now kept.now) }
    ensures passes { IfNone result ((n : ℕ) → has (flat_map (λ v. v.items) kept.now) n ≡ true
        → has enqueued.now n ≡ true) }
{
    for mutator in 0..kept.len() {
        if let Some(number) = number_outside(kept[mutator].as_slice(), enqueued) {
            return Some(Evidence::NoReport { number });
        }
    }
    None
}

/// The first job that did not run as it was to.
fn not_well(jobs: &[JobFate]) -> Option<Evidence>
    ensures shows { IfSome result (ShowsJobs jobs.now) }
    ensures passes { IfNone result (RanWell jobs.now) }
{
    for job in 0..jobs.len() {
        let fate = jobs[job];
        if let Some(wrong) = wrong_of(fate) {
            return Some(Evidence::Job { job, wrong });
        }
    }
    None
}

/// What is wrong with how a job ran.
fn wrong_of(fate: JobFate) -> Option<WrongRun>
    ensures shows { IfSome result (IsWrong fate) }
    ensures passes { IfNone result (ran_well fate ≡ true) }
{
    let runs = fate.runs;
    if fate.is_early {
        Some(WrongRun::Early)
    } else if fate.is_due && runs != 1 {
        Some(WrongRun::Runs(runs))
    } else if !fate.is_due && runs != 0 {
        Some(WrongRun::Unasked)
    } else {
        None
    }
}
