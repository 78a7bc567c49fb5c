//! Numbers of objects, in order.

ghost use Rattle.std.specs.Prelude.{◌≡◌, ◌≤◌, ◌<◌, ◌∷◌, ◌++◌, [], length};

use crate::{MOST_IN_BATCH, ObjNo};
use std::fmt;
use std::marker::Model;

/// At most 32 numbers of objects, in order, kept in place (this project's profile). In a clause they are their list. No
/// call of it takes memory.
#[derive(Clone, Copy, PartialEq, Eq)]
pub struct Nos {
    held: [ObjNo; MOST_IN_BATCH],
    // At most 32. What stands behind them is 0.
    count: u8,
}

impl Model for Nos {
    ghost use Rattle.std.specs.Prelude.{ℕ, List, length, take};
    ghost use Rattle.ref_base.specs.Filled.{filled, IsFilled};

    ghost Value = { List ℕ };

    ghost view = { λ n. take n.count n.held };

    ghost invariant = { λ n. IsFilled 0 n.held n.count };

    ghost inverse = { λ ns. record { held = filled 0 ns; count = length ns } };

    ghost inverse_ok = { λ n h i. record { held = h.behind i; count = h.counted i } };
}

impl Nos {
    /// No numbers.
    pub fn new() -> Self
        ensures { result ≡ [] }
    {
        Nos {
            held: [ObjNo(0); MOST_IN_BATCH],
            count: 0,
        }
    }

    /// The numbers, first first: at most 32.
    pub fn as_slice(&self) -> &[ObjNo]
        ensures numbers { result.now ≡ self.now }
        ensures few { length result.now ≤ 32 }
    {
        &self.held[..usize::from(self.count)]
    }

    /// One more, last.
    pub fn push(&mut self, no: ObjNo)
        requires { length self.old < 32 }
        ensures { self.new ≡ self.old ++ no ∷ [] }
    {
        self.held[usize::from(self.count)] = no;
        self.count += 1;
    }
}

impl fmt::Debug for Nos {
    fn fmt<W: fmt::Write>(&self, f: &mut fmt::Formatter<W>) -> fmt::Result {
        fmt::Debug::fmt(self.as_slice(), f)
    }
}
