//! What a stress run leaves: its lists, and the checks of them.

ghost use Rattle.std.specs.Prelude.{◌≡◌, IfOk, IfSome, IfNone, OnErr, Err, map};
ghost use Rattle.refrun.specs.StressChecks.{IsFirstFailure, Passes};
ghost use Rattle.refrun.specs.StressEvidence.{IsEvidence};

use crate::evidence::{Evidence, evidence_of};
use crate::lists::{Check, check_lists};
use crate::outcomes::JobFate;
use crate::stress_options::StressOptions;
use ref_base::{Fault, ObjNo};
use ref_clear::Notice;
use ref_queue::Queue;
use std::alloc::Global;

/// What a stress run leaves: numbers of references, in order, and what became of its jobs.
#[derive(Drop)]
pub struct StressLists {
    /// What was put into the queue.
    pub enqueued: Vec<ObjNo>,
    /// What was taken from it.
    pub taken: Vec<ObjNo>,
    /// What stands in it.
    pub stands: Vec<ObjNo>,
    /// What each poller took.
    pub pollers: Vec<Vec<ObjNo>>,
    /// What each mutator kept to the end.
    pub kept: Vec<Vec<ObjNo>>,
    /// What became of each job, by its number.
    pub jobs: Vec<JobFate>,
}

impl StressLists {
    /// The first check that fails, or `None` where all hold. The one error is `NoMemory`.
    pub fn check(&self, alloc: Global) -> Result<Option<Check>, Fault>
        ensures answer { IfOk result (IsFirstFailure self.now.enqueued.items self.now.taken.items
            self.now.stands.items (map (λ v. v.items) self.now.pollers.items)
            (map (λ v. v.items) self.now.kept.items) self.now.jobs.items) }
        ensures err { OnErr result (result ≡ Err Fault.NoMemory) }
    {
        check_lists(
            alloc,
            self.enqueued.as_slice(),
            self.taken.as_slice(),
            self.stands.as_slice(),
            self.pollers.as_slice(),
            self.kept.as_slice(),
            self.jobs.as_slice(),
        )
    }

    /// What shows that this check fails, and none where it holds. Takes no memory.
    pub fn evidence(&self, check: Check) -> Option<Evidence>
        ensures shows { IfSome result (IsEvidence (λ v. v.items) self.now.enqueued.items self.now.taken.items
            self.now.stands.items self.now.pollers.items self.now.kept.items self.now.jobs.items) }
        ensures passes { IfNone result (Passes self.now.enqueued.items self.now.taken.items self.now.stands.items
            (map (λ v. v.items) self.now.pollers.items) (map (λ v. v.items) self.now.kept.items) self.now.jobs.items
            check) }
    {
        evidence_of(
            check,
            self.enqueued.as_slice(),
            self.taken.as_slice(),
            self.stands.as_slice(),
            self.pollers.as_slice(),
            self.kept.as_slice(),
            self.jobs.as_slice(),
        )
    }
}

/// The lists of the queue, with those of the mutators and the pollers: these are the first and the last of all threads.
pub(super) fn lists_left(
    alloc: Global,
    queue: &Queue<Notice>,
    lists: Vec<Vec<ObjNo>>,
    options: StressOptions,
) -> Result<StressLists, Fault> {
    let others = options.mutators.saturating_add(options.workers);
    let mut kept = Vec::new(alloc);
    let mut pollers = Vec::new(alloc);
    for (thread, list) in lists.into_iter().enumerate() {
        let pushed = if thread < options.mutators as usize {
            kept.push(list)
        } else if thread >= others as usize {
            pollers.push(list)
        } else {
            Ok(())
        };
        let Ok(()) = pushed else {
            return Err(Fault::NoMemory);
        };
    }
    Ok(StressLists {
        enqueued: queue.enqueued(alloc)?,
        taken: queue.taken(alloc)?,
        stands: queue.stands(alloc)?,
        pollers,
        kept,
        jobs: Vec::new(alloc),
    })
}
