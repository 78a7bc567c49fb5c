//! The cleaner's thread.

use ref_base::Fault;
use ref_share::{CleanUser, HeapUser, QueueUser};
use std::sync::Wait;

/// Who runs the jobs of what is gone.
#[derive(Drop)]
pub struct Worker<'a> {
    pub heap: HeapUser<'a>,
    pub clean: CleanUser<'a>,
    pub queue: QueueUser<'a>,
}

impl Worker<'_> {
    /// Runs the job of each reference that the queue reports, until the queue is closed. How many it ran.
    pub fn run<R: Wait>(self, rt: &R) -> Result<u64, Fault> {
        let Worker {
            mut heap,
            mut clean,
            mut queue,
        } = self;
        Ok(clean.clean_loop(rt, &mut heap, &mut queue, &())?)
    }
}
