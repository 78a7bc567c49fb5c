//! How many texts there are.

use crate::answer::Kind;
use std::fmt;

/// How many texts of a kind are as told, and how many of them are faulty.
#[derive(Drop)]
struct Count {
    all: u32,
    faulty: u32,
}

impl Count {
    /// One more.
    fn add(&mut self, is_faulty: bool) {
        self.all = self.all.saturating_add(1);
        if is_faulty {
            self.faulty = self.faulty.saturating_add(1);
        }
    }
}

/// How many texts of each kind are as told, and how many texts and other files aren't.
#[derive(Drop)]
pub struct Counts {
    scripts: Count,
    graphs: Count,
    logs: Count,
    pub wrong: u32,
}

impl Counts {
    pub fn new() -> Counts {
        Counts {
            scripts: Count { all: 0, faulty: 0 },
            graphs: Count { all: 0, faulty: 0 },
            logs: Count { all: 0, faulty: 0 },
            wrong: 0,
        }
    }

    /// One more text that is as told.
    pub fn add(&mut self, kind: Kind, is_faulty: bool) {
        match kind {
            Kind::Script => self.scripts.add(is_faulty),
            Kind::Graph => self.graphs.add(is_faulty),
            Kind::Log => self.logs.add(is_faulty),
        }
    }

    /// One more that isn't.
    pub fn add_wrong(&mut self) {
        self.wrong = self.wrong.saturating_add(1);
    }
}

impl fmt::Display for Counts {
    fn fmt<W: fmt::Write>(&self, f: &mut fmt::Formatter<W>) -> fmt::Result {
        write!(
            f,
            "{} scripts, {} of them faulty, {} graph texts, {} of them faulty, ",
            self.scripts.all, self.scripts.faulty, self.graphs.all, self.graphs.faulty
        )?;
        write!(
            f,
            "and {} logs, {} of them faulty, are as told",
            self.logs.all, self.logs.faulty
        )?;
        if self.wrong > 0 {
            write!(f, ", and {} are NOT", self.wrong)?;
        }
        Ok(())
    }
}
