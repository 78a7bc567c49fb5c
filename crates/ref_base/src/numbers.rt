//! The numbers by which objects, queues, mutators, workers and slots are named. In a clause each is its number.

ghost use Rattle.std.specs.Prelude.{◌∷◌, decimal, Some};

use crate::words::{say_behind, say_number};
use std::fmt;
use std::marker::Model;

/// The number of an object: from 1 on, rising by one, never used again. It prints as the number alone.
#[derive(Clone, Copy, Debug, PartialEq, Eq, PartialOrd, Ord, Hash)]
pub struct ObjNo(pub u32);

impl Model for ObjNo {
    ghost use Rattle.std.specs.Prelude.{ℕ};

    ghost Value = { ℕ };

    ghost view = { λ a. a.0 };

    ghost inverse = { λ n. record { 0 = n } };
}

impl fmt::Display for ObjNo {
    ghost output = { λ n. Some (decimal n) };

    fn fmt<W: fmt::Write>(&self, f: &mut fmt::Formatter<W>) -> fmt::Result {
        say_number(f, u64::from(self.0))
    }
}

/// The number of a reference queue, from 0 on. It prints as `q0`.
#[derive(Clone, Copy, Debug, PartialEq, Eq, PartialOrd, Ord, Hash)]
pub struct QueueNo(pub u32);

impl Model for QueueNo {
    ghost use Rattle.std.specs.Prelude.{ℕ};

    ghost Value = { ℕ };

    ghost view = { λ a. a.0 };

    ghost inverse = { λ n. record { 0 = n } };
}

impl fmt::Display for QueueNo {
    ghost output = { λ n. Some (113 ∷ decimal n) };

    fn fmt<W: fmt::Write>(&self, f: &mut fmt::Formatter<W>) -> fmt::Result {
        say_behind(f, "q", self.0)
    }
}

/// The number of a mutator, from 0 on. It prints as `m0`.
#[derive(Clone, Copy, Debug, PartialEq, Eq, PartialOrd, Ord, Hash)]
pub struct MutNo(pub u32);

impl Model for MutNo {
    ghost use Rattle.std.specs.Prelude.{ℕ};

    ghost Value = { ℕ };

    ghost view = { λ a. a.0 };

    ghost inverse = { λ n. record { 0 = n } };
}

impl fmt::Display for MutNo {
    ghost output = { λ n. Some (109 ∷ decimal n) };

    fn fmt<W: fmt::Write>(&self, f: &mut fmt::Formatter<W>) -> fmt::Result {
        say_behind(f, "m", self.0)
    }
}

/// The number of a worker of the collector, from 0 on. It prints as `w0`.
#[derive(Clone, Copy, Debug, PartialEq, Eq, PartialOrd, Ord, Hash)]
pub struct WorkerNo(pub u32);

impl Model for WorkerNo {
    ghost use Rattle.std.specs.Prelude.{ℕ};

    ghost Value = { ℕ };

    ghost view = { λ a. a.0 };

    ghost inverse = { λ n. record { 0 = n } };
}

impl fmt::Display for WorkerNo {
    ghost output = { λ n. Some (119 ∷ decimal n) };

    fn fmt<W: fmt::Write>(&self, f: &mut fmt::Formatter<W>) -> fmt::Result {
        say_behind(f, "w", self.0)
    }
}

/// The number of a slot of a mutator, from 0 on. It prints as `s0`.
#[derive(Clone, Copy, Debug, PartialEq, Eq, PartialOrd, Ord, Hash)]
pub struct SlotNo(pub u32);

impl Model for SlotNo {
    ghost use Rattle.std.specs.Prelude.{ℕ};

    ghost Value = { ℕ };

    ghost view = { λ a. a.0 };

    ghost inverse = { λ n. record { 0 = n } };
}

impl fmt::Display for SlotNo {
    ghost output = { λ n. Some (115 ∷ decimal n) };

    fn fmt<W: fmt::Write>(&self, f: &mut fmt::Formatter<W>) -> fmt::Result {
        say_behind(f, "s", self.0)
    }
}
