//! What a judge says of a row, by numbers.

ghost use Rattle.std.specs.Prelude.{◌≡◌};
ghost use Rattle.ref_c.specs.JudgeSteps.{TellsBreach, bare_verdict, instead_reply, told_choice};
ghost use Rattle.ref_c.specs.ReplyNumbers.{of_kind};

use crate::answer::{RefReply, numbers_of};
use ref_judge::{Because, Breach, Instead, Rule, Settled};

/// A verdict by numbers: its kind, and what it tells of an illegal row. Else all but the kind is 0.
#[repr(C)]
#[derive(Clone, Copy)]
pub struct RefVerdict {
    /// 0 to 6, as the header names them.
    pub kind: u32,
    /// The number of the rule that the row breaks, 1 to 21.
    pub rule: u32,
    /// What an earlier row settled, 1 to 6, or 0 where that isn't known.
    pub settled: u32,
    /// The object that the earlier row doomed.
    pub object: u32,
    /// The number of the earlier row among the legal ones, counted from 1.
    pub row: u64,
    /// 0 where no answer is named, 1 where this one alone is legal, 2 where this one is, and perhaps others.
    pub choice: u32,
    /// The answer that would have been legal.
    pub instead: RefReply,
}

impl RefVerdict {
    /// One that tells its kind alone. Takes no memory.
    pub fn of(kind: u32) -> Self
        ensures { result ≡ bare_verdict kind }
    {
        RefVerdict {
            kind,
            rule: 0,
            settled: 0,
            object: 0,
            row: 0,
            choice: 0,
            instead: RefReply::of(0),
        }
    }

    /// That of an illegal row, with the earlier row that settled what it breaks, if that is known. Takes no memory.
    pub fn illegal(breach: Breach, because: Option<Because>) -> Self
        ensures { TellsBreach breach.instead result }
    {
        // A name for each use.
        let (told, named) = (breach.instead, breach.instead);
        let verdict = RefVerdict {
            rule: number_of_rule(breach.rule),
            choice: told_choice(told),
            instead: instead_reply(named),
            ..RefVerdict::of(1)
        };
        let Some(Because::Settled(earlier, settled)) = because else {
            return verdict;
        };
        let (settled, object) = number_of_settled(settled);
        RefVerdict {
            settled,
            object,
            row: earlier.number,
            ..verdict
        }
    }
}

// The number of a rule: they are counted from 1, in order.
fn number_of_rule(rule: Rule) -> u32 {
    (rule as u32).wrapping_add(1)
}

// The number of what was settled, and the object that was doomed.
fn number_of_settled(settled: Settled) -> (u32, u32) {
    match settled {
        Settled::Said => (1, 0),
        Settled::Cycle => (2, 0),
        Settled::Phase => (3, 0),
        Settled::Mark => (4, 0),
        Settled::Doomed(object) => (5, object.0),
        Settled::Closed => (6, 0),
    }
}

// Whether an answer is named, and alone.
fn told_choice(instead: Instead) -> u32
    ensures { result ≡ told_choice instead }
{
    match instead {
        Instead::Only(_) => 1,
        Instead::Among(_) => 2,
        Instead::Untold => 0,
    }
}

// The numbers of the answer that is named.
fn instead_reply(instead: Instead) -> RefReply
    ensures { result ≡ instead_reply instead }
{
    match instead {
        Instead::Only(reply) => numbers_of(&reply),
        Instead::Among(reply) => numbers_of(&reply),
        Instead::Untold => RefReply::of(0),
    }
}
