//! How large a stress run is.

use ref_base::{Config, SpanRule};

/// How many threads a stress run has, and how long it is.
#[derive(Clone, Copy, Debug, PartialEq, Eq)]
pub struct StressOptions {
    /// Threads that make references and enqueue some of them: 1 to 8, and together with the pollers at most 8.
    pub mutators: u32,
    /// Threads that work for the collector: 1 to 8.
    pub workers: u32,
    /// Threads that take what was enqueued, each a mutator of the heap as well: 1 to 8.
    pub pollers: u32,
    /// Rounds of each mutator, or fewer where the run's tally stops them.
    pub rounds: u64,
}

impl StressOptions {
    ghost use Rattle.std.specs.Prelude.{◌≡◌};
    ghost use Rattle.ref_base.specs.Limits.{is_within_limits};
    ghost use Rattle.refrun.specs.StressRuns.{has_threads_in_range};

    // The heap of the run. It is within the limits of a heap only where there are at most 8 mutators and pollers.
    pub(crate) fn config(&self) -> Config
        ensures { is_within_limits result ≡ has_threads_in_range self.now }
    {
        Config {
            mutators: self.mutators.saturating_add(self.pollers),
            workers: self.workers,
            queues: 1,
            cells: 4_096,
            span: 0,
            rule: SpanRule::Fixed,
        }
    }

    // How many threads these are.
    pub(crate) fn threads(&self) -> u32 {
        self.config().mutators.saturating_add(self.workers)
    }
}
