//! What of a reply its text doesn't tell, and its step does.

ghost use Rattle.std.specs.Prelude.{◌≡◌};
ghost use Rattle.ref_script.specs.ReplyKinds.{reply_kind_of};

use crate::script_step::ScriptStep;
use ref_base::Step;

/// Of which kind a step is, as far as the text of its reply doesn't tell it.
#[derive(Clone, Copy, Debug, PartialEq, Eq)]
pub enum ReplyKind {
    /// A step of the world that is answered by what became of one thing.
    One,
    /// A `polls`, whose reply lists what it took.
    Polls,
    /// A `puts`, whose reply tells what became of each notice.
    Puts,
    /// A `job` or a `run`.
    Jobs,
}

impl ReplyKind {
    /// The kind of this step.
    pub fn of(step: &ScriptStep) -> ReplyKind
        ensures { result ≡ reply_kind_of step.now }
    {
        match step {
            ScriptStep::World(Step::Polls { .. }) => ReplyKind::Polls,
            ScriptStep::World(Step::Puts { .. }) => ReplyKind::Puts,
            ScriptStep::World(_) => ReplyKind::One,
            ScriptStep::Job { .. } | ScriptStep::Run { .. } => ReplyKind::Jobs,
        }
    }
}
