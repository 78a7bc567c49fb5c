//! Time.

use std::time::{Clock, Duration};

/// How long a run took, and of how many calls.
#[derive(Clone, Copy)]
pub struct Sample {
    nanos: u64,
    calls: u64,
}

impl Sample {
    /// Tenths of a nanosecond a call, rounded down.
    pub fn tenths(self) -> u64 {
        self.nanos.saturating_mul(10) / self.calls.max(1)
    }
}

/// What measures a run.
#[derive(Clone, Copy)]
pub struct Timer {
    begin: Duration,
}

impl Timer {
    pub fn start<R: Clock>(rt: &R) -> Self {
        Timer { begin: now(rt) }
    }

    /// The run from the start until now, of so many calls.
    pub fn stop<R: Clock>(self, rt: &R, calls: u64) -> Sample {
        let time = now(rt).saturating_sub(self.begin);
        Sample {
            nanos: u64::try_from(time.as_nanos()).unwrap_or(u64::MAX),
            calls,
        }
    }
}

// A clock that can't be read stands still.
fn now<R: Clock>(rt: &R) -> Duration {
    rt.monotonic().unwrap_or(Duration::ZERO)
}
