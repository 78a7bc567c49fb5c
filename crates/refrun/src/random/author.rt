//! Who draws a script, step by step.

use super::dice::Dice;
use super::known::Known;
use super::parts::Parts;
use super::patterns::{IN_A_ROW, OF_COLLECTOR, OF_MUTATORS, Pattern};
use super::plan::{Plan, work_in};
use ref_base::{Config, Fault, Reply, SpanRule, Step, WorkerNo};
use ref_script::ScriptStep;
use std::alloc::{AllocError, Allocator};

/// Sizes of heaps: most are soon full. Only the last ones have pages enough for moves.
const CELLS: [u32; 14] = [1, 3, 6, 8, 12, 16, 24, 40, 64, 90, 100, 130, 130, 200];

/// Spans of soft references.
const SPANS: [u64; 6] = [0, 1, 3, 10, 1_000, u64::MAX];

/// How often a pattern is drawn until one fits.
const TRIES: u32 = 40;

/// Draws steps, of what it knows of those before.
#[derive(Drop)]
pub struct Author<A: Allocator> {
    dice: Dice,
    parts: Parts,
    known: Known<A>,
    /// The steps in a row that go on.
    plan: Option<Plan>,
    /// Whether the last step was one of them.
    is_planned: bool,
    /// Whether one of its numbers was at an edge.
    is_on_edge: bool,
    /// Of 16 other steps, how many are the collector's.
    pace: u32,
}

/// The configuration of a script with these parts.
pub fn drawn_config(dice: &mut Dice, parts: Parts) -> Config {
    let is_scaled = parts.soft && dice.is_one_in(2);
    let most = if dice.is_one_in(8) { 8 } else { 3 };
    Config {
        mutators: dice.up_to(most),
        workers: dice.up_to(most),
        queues: dice.up_to(most),
        cells: dice.one_of(CELLS.as_slice()).unwrap_or(8),
        span: dice.one_of(SPANS.as_slice()).unwrap_or(0),
        rule: if is_scaled {
            SpanRule::Scaled
        } else {
            SpanRule::Fixed
        },
    }
}

impl<A: Allocator + Copy> Author<A> {
    /// Who draws so many steps with these parts for this configuration.
    pub fn new(
        alloc: A,
        dice: Dice,
        parts: Parts,
        config: Config,
        steps: u32,
    ) -> Result<Self, AllocError> {
        Ok(Author {
            dice,
            parts,
            known: Known::new(alloc, config, steps)?,
            plan: None,
            is_planned: false,
            is_on_edge: false,
            pace: 6,
        })
    }

    /// A step that may come next.
    pub fn draft(&mut self) -> ScriptStep {
        self.is_on_edge = false;
        self.is_planned = !self.dice.is_one_in(6);
        if self.is_planned
            && let Some(step) = self.planned()
        {
            return step;
        }
        self.is_planned = false;
        let is_collector = self.dice.below(16) < self.pace;
        for _ in 0..TRIES {
            let table = if is_collector {
                OF_COLLECTOR.as_slice()
            } else {
                OF_MUTATORS.as_slice()
            };
            if let Some(step) = self.alone(table) {
                return step;
            }
        }
        ScriptStep::World(Step::Plain(work_in(self.known.phase, WorkerNo(0))))
    }

    /// Whether a step with this answer stands in the script. One that changed nothing mostly does not.
    pub fn keeps(&mut self, reply: &Reply) -> bool {
        match reply {
            Reply::Refused(Fault::NoSuchActor | Fault::BadQueue | Fault::NotAReference) => true,
            Reply::Refused(_) if self.is_on_edge => true,
            Reply::Refused(_) if self.is_planned => self.dice.is_one_in(3),
            Reply::Refused(_) => self.dice.is_one_in(12),
            Reply::Nothing | Reply::Empty | Reply::Already | Reply::Closed => {
                self.dice.is_one_in(3)
            }
            _ => true,
        }
    }

    /// Hears what the last step was answered.
    pub fn hear(&mut self, reply: &Reply) {
        if self.is_planned
            && let Some(plan) = &mut self.plan
        {
            plan.hear(reply);
        }
    }

    /// Learns what a step of the script was answered. A cycle has a pace of its own.
    pub fn learn(&mut self, step: &ScriptStep, reply: &Reply) -> Result<(), AllocError> {
        if let Reply::Cycle(_) = reply {
            self.pace = 2 + self.dice.below(10);
        }
        match step {
            ScriptStep::World(step) => self.known.learn(step, reply),
            _ => Ok(()),
        }
    }

    /// The next of the steps in a row, or now and then the first of others.
    fn planned(&mut self) -> Option<ScriptStep> {
        if let Some(plan) = &mut self.plan
            && let Some(step) = plan.next(&mut self.dice, &self.known)
        {
            return Some(step);
        }
        self.plan = self.plan_of(IN_A_ROW.as_slice());
        self.plan.as_mut()?.next(&mut self.dice, &self.known)
    }

    /// A step of this table, if the one that is drawn fits. Now and then one of its numbers is at an edge.
    fn alone(&mut self, table: &'static [Pattern]) -> Option<ScriptStep> {
        let mut plan = self.plan_of(table);
        let plan = plan.as_mut()?;
        if self.dice.is_one_in(30) {
            self.is_on_edge = true;
            plan.put_on_edge(&mut self.dice);
        }
        plan.next(&mut self.dice, &self.known)
    }

    /// A pattern of this table, if the one that is drawn fits.
    fn plan_of(&mut self, table: &'static [Pattern]) -> Option<Plan> {
        let pattern = self.dice.pick(table)?;
        if self.dice.below(32) >= pattern.weight || !self.parts.has(pattern.part) {
            return None;
        }
        if let Some(phase) = pattern.phase
            && phase != self.known.phase
        {
            return None;
        }
        Plan::of(pattern, &mut self.dice, &self.known)
    }
}
