//! How large a heap and its world are, and how long soft references are kept.

ghost use Rattle.std.specs.Prelude.{◌≡◌};
ghost use Rattle.ref_base.specs.Limits.{is_between};

use crate::{Fault, SpanRule};

/// How many mutators, workers, queues and cells there are, and how long a soft reference is kept.
#[derive(Clone, Copy, Debug, PartialEq, Eq)]
pub struct Config {
    /// Program threads: 1 to 8.
    pub mutators: u32,
    /// Threads of the collector: 1 to 8.
    pub workers: u32,
    /// Reference queues: 1 to 16.
    pub queues: u32,
    /// Objects that fit into the heap at one time: 1 to 65,536.
    pub cells: u32,
    /// A soft reference is kept while the clock less its stamp is at most what the rule makes of this. Any number.
    pub span: u64,
    /// What a cycle makes of the span as it begins.
    pub rule: SpanRule,
}

impl Config {
    ghost use Rattle.std.specs.Prelude.{if◌then◌else◌};
    ghost use Rattle.ref_base.specs.Limits.{is_within_limits};

    /// Whether each number is within its limits. The one error is `BadConfig`. Takes no memory.
    pub fn check(&self) -> Result<(), Fault>
        ensures { result ≡ (if is_within_limits self.now then Ok tt else Err Fault.BadConfig) }
    {
        let actors_fit = is_up_to(self.mutators, 8) && is_up_to(self.workers, 8);
        let rest_fits = is_up_to(self.queues, 16) && is_up_to(self.cells, 65_536);
        if actors_fit && rest_fits {
            Ok(())
        } else {
            Err(Fault::BadConfig)
        }
    }

    /// With so many mutators. Nothing is checked here, but by `check`.
    pub fn mutators(self, mutators: u32) -> Config
        ensures { result ≡ record self { mutators = mutators } }
    {
        let mut config = self;
        config.mutators = mutators;
        config
    }

    /// With so many workers. Nothing is checked here, but by `check`.
    pub fn workers(self, workers: u32) -> Config
        ensures { result ≡ record self { workers = workers } }
    {
        let mut config = self;
        config.workers = workers;
        config
    }

    /// With so many queues. Nothing is checked here, but by `check`.
    pub fn queues(self, queues: u32) -> Config
        ensures { result ≡ record self { queues = queues } }
    {
        let mut config = self;
        config.queues = queues;
        config
    }

    /// With room for so many objects. Nothing is checked here, but by `check`.
    pub fn cells(self, cells: u32) -> Config
        ensures { result ≡ record self { cells = cells } }
    {
        let mut config = self;
        config.cells = cells;
        config
    }

    /// With another span, of which a cycle makes what the rule says.
    pub fn span(self, span: u64, rule: SpanRule) -> Config
        ensures { result ≡ record self { span = span; rule = rule } }
    {
        let mut config = self;
        config.span = span;
        config.rule = rule;
        config
    }
}

/// One mutator, one worker and one queue, room for 1,024 objects, and a span of 0: a cycle keeps the soft references
/// alone that were made or got at its own clock.
impl Default for Config {
    ghost use Rattle.ref_base.specs.Limits.{default_config};

    ghost is_default = { λ config. config ≡ default_config };

    fn default() -> Config {
        Config {
            mutators: 1,
            workers: 1,
            queues: 1,
            cells: 1024,
            span: 0,
            rule: SpanRule::Fixed,
        }
    }
}

// Whether there is one at least, and at most so many.
fn is_up_to(count: u32, most: u32) -> bool
    ensures { result ≡ is_between 1 most count }
{
    count >= 1 && count <= most
}
