//! What a turn runs.

/// A value that makes steps. What it does is a relation of steps, replies and states; a state is plain data that
/// stands for the value in contracts.
pub trait Machine {
    ghost use Rattle.std.specs.Prelude.{◌≡◌};

    /// What it is asked to do.
    type Step;

    /// What it answers.
    type Reply;

    /// What stands around the value while threads share it, and tells the state in which it began.
    type Frame: Drop;

    /// What contracts see of the value.
    ghost State: { Type 0 };

    /// Whether the value stands for the state. It may stand for several.
    ghost stands_for: { Self → State → Type 0 };

    /// The state in which it began.
    ghost first_state: { Self.Frame → State };

    /// Whether a step may lead from one state to another, with this reply.
    ghost steps_to: { State → Self.Step → Self.Reply → State → Type 0 };

    /// What `apply` does, of the values themselves: before, step, reply, after.
    ghost acts: { Self → Self.Step → Self.Reply → Self → Type 0 };

    /// Makes one step.
    fn apply(&mut self, step: Self::Step) -> Self::Reply
        ensures { acts self.old step result self.new };

    /// Whatever state the value stood for, the relation leads from it to one that the value stands for afterwards.
    ghost follows: { (m n : Self) (s : Self.Step) (r : Self.Reply) → acts m s r n
        → (x : State) → stands_for m x → (y : State) × steps_to x s r y × stands_for n y };
}
