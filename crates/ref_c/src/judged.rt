//! A judge that may stand behind a pointer, and what it remembers of its rows.

ghost use Rattle.std.specs.Prelude.{◌≡◌, ◌<◌, ◌^◌, MatchResult};
ghost use Rattle.ref_c.specs.JudgeSteps.{IsAtFirst, IsNotMade, JudgesNumbers, JudgesRow, put_in_before};

use crate::answer::RefReply;
use crate::given::reply_of;
use crate::step::{RefStep, step_of};
use crate::verdict::RefVerdict;
use ref_base::{Config, Fault, Row, Step};
use ref_judge::{History, Judge, Objection, Profile};
use std::alloc::Global;

/// A judge, with what tells which earlier row settled what a row breaks.
#[derive(Drop)]
pub struct KeptJudge {
    pub judge: Judge<Global>,
    pub history: History,
    /// How many rows were legal.
    pub rows: u64,
    /// Whether a row was illegal.
    pub is_stopped: bool,
}

impl KeptJudge {
    /// A judge that was told no row, in a box. Tried in this order: `BadConfig`, `NoMemory`.
    pub fn new(alloc: Global, config: Config, profile: Profile) -> Result<Box<KeptJudge>, Fault>
        ensures { MatchResult result (λ kept. IsAtFirst profile config kept.value)
            (λ fault. IsNotMade config fault) }
    {
        let judge = Judge::new(alloc, config, profile)?;
        let kept = KeptJudge {
            judge,
            history: History::new(),
            rows: 0,
            is_stopped: false,
        };
        match Box::new(alloc, kept) {
            Ok(kept) => Ok(kept),
            Err(_refused) => Err(Fault::NoMemory),
        }
    }

    /// Judges the row of these numbers, if they are one and no row was illegal. In the time and memory of `Judge::row`.
    pub fn judge_numbers(&mut self, step: &RefStep, reply: &RefReply, list: &[u64]) -> RefVerdict
        ensures { JudgesNumbers self.old step.now reply.now list.now result self.new }
    {
        if self.is_stopped {
            return RefVerdict::of(6);
        }
        let Some(step) = step_of(step) else {
            return RefVerdict::of(2);
        };
        // A name for each use.
        let (asked, done) = (step, step);
        match reply_of(reply, list, self.put_in_before(asked)) {
            Some(reply) => self.judge_row(Row { step: done, reply }),
            None => RefVerdict::of(3),
        }
    }

    // Judges a row.
    fn judge_row(&mut self, row: Row) -> RefVerdict
        ensures { JudgesRow self.old row result self.new }
    {
        // A name for each use.
        let (judged, noted, told) = (row, row, row);
        match self.judge.row(judged) {
            Ok(()) => {
                self.rows = self.rows.saturating_add(1);
                self.history.note(self.rows, Some(noted));
                RefVerdict::of(0)
            }
            Err(Objection::Illegal(breach)) => {
                self.is_stopped = true;
                let named = breach;
                RefVerdict::illegal(breach, self.history.because(&self.judge, told, named))
            }
            Err(Objection::NoMemory) => RefVerdict::of(5),
        }
    }

    // How many notices were put in before a batch that the step puts in.
    fn put_in_before(&self, step: Step) -> u64
        ensures count { result ≡ put_in_before self.now.judge step }
        ensures few { result < 2 ^ 63 }
    {
        match step {
            Step::Puts { actor } => self.judge.put_before(actor),
            _ => 0,
        }
    }
}
