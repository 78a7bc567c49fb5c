//! Where the numbers of a new heap begin.

ghost use Rattle.std.specs.Prelude.{◌≡◌};
ghost use Rattle.ref_objects.specs.Grounds.{may_start};

use ref_base::Config;

/// Where the numbers of a new heap begin (this project's profile).
#[derive(Clone, Copy, Debug, PartialEq, Eq)]
pub struct Start {
    /// The number of the first object: from 1 on.
    pub obj: u32,
    /// How many cycles there were so far.
    pub cycle: u64,
    /// The address of the first page: from 1 on.
    pub page: u32,
}

impl Start {
    /// Object 1, no cycle so far, page 1.
    pub const FIRST: Start = Start {
        obj: 1,
        cycle: 0,
        page: 1,
    };

    /// Whether a heap of these cells may start so: both numbers are at least 1, and the addresses of its pages, twice
    /// as many as its cells fill of 64 each, are below 2^32.
    pub(crate) fn is_allowed(&self, config: &Config) -> bool
        ensures { result ≡ may_start config.now self.now }
    {
        let pages = 2 * u64::from(config.cells).div_ceil(64);
        self.obj >= 1 && self.page >= 1 && u64::from(self.page) + pages <= 1 << 32
    }
}
