//! Cleaning actions: what a program does once an object is gone, as releasing a file or a buffer.

ghost use Rattle.std.specs.Prelude.{◌≡◌, ℕ};

/// What a job does: it takes the job's number, and answers its note. It may move between threads.
pub type Action = Box<dyn FnOnce(u64) -> u64 + Send>;

/// A cleaning action with a number, by which its caller knows it. It can be run once, since that takes it; a job that
/// is dropped never runs.
///
/// As the `Runnable` that `Cleaner.register` of Java SE 17 takes, but that it answers a number.
#[derive(Drop)]
pub struct Job {
    number: u64,
    note: u64,
    action: Action,
    ghost callable: { Action.pre action number },
    ghost tells: { (answer : ℕ) → Action.post action number answer → answer ≡ note },
}

/// That a job was run: its number, and what its action answered.
#[derive(Clone, Copy, Debug, PartialEq, Eq)]
pub struct Ran {
    pub number: u64,
    pub answer: u64,
}

impl Job {
    /// The job that runs the action on the number. By the caller, the action may be called on it, and then answers the
    /// note. Takes no memory: the box was made by the caller.
    pub fn new(number: u64, note: u64, action: Action) -> Self
        requires callable { Action.pre action number }
        requires tells { (answer : ℕ) → Action.post action number answer → answer ≡ note }
        ensures number { result.number ≡ number }
        ensures note { result.note ≡ note }
    {
        Job {
            number,
            note,
            action,
        }
    }

    /// Its number.
    pub fn number(&self) -> u64
        ensures { result ≡ self.now.number }
    {
        self.number
    }

    /// What its action will answer.
    pub fn note(&self) -> u64
        ensures { result ≡ self.now.note }
    {
        self.note
    }

    /// Runs the action, once and for all. Takes no memory but what the action takes.
    ///
    /// That the action gave the answer (`called`) can only be known by calling it.
    pub fn run(self) -> Ran
        ensures ran { result ≡ record { number = self.number; answer = self.note } }
        ensures called { Action.post self.action self.number result.answer }
    {
        let Job { number, action, .. } = self;
        Ran {
            number,
            answer: action(number),
        }
    }
}
