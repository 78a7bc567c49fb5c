//! Which parts of the format a drawn script has.

/// A part of the format. A drawn script may go without any but the plain steps.
#[derive(Clone, Copy, PartialEq, Eq)]
pub enum Part {
    Plain,
    Moves,
    Batches,
    Jobs,
    Soft,
    Hide,
}

/// What a drawn script has besides the plain steps.
#[derive(Clone, Copy, PartialEq, Eq)]
pub struct Parts {
    /// `select`, `move` and `endmove`.
    pub moves: bool,
    /// `hands`, `puts` and `polls`.
    pub batches: bool,
    /// `job` and `run`.
    pub jobs: bool,
    /// Soft references, clocks that change, urgent cycles and version 2.
    pub soft: bool,
    /// Steps in a row that try to hide what lives, or to tell a death twice.
    pub hide: bool,
}

impl Parts {
    /// All parts.
    pub const ALL: Parts = Parts {
        moves: true,
        batches: true,
        jobs: true,
        soft: true,
        hide: true,
    };

    /// Whether it has this part.
    pub(crate) fn has(self, part: Part) -> bool {
        match part {
            Part::Plain => true,
            Part::Moves => self.moves,
            Part::Batches => self.batches,
            Part::Jobs => self.jobs,
            Part::Soft => self.soft,
            Part::Hide => self.hide,
        }
    }
}
