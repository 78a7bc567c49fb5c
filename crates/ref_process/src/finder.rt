//! A worker's own lists.

ghost use Rattle.std.specs.Prelude.{◌≡◌};

use crate::Key;
use ref_base::WorkerNo;
use std::alloc::{Allocator, Global};
use std::collections::VecDeque;
use std::marker::Model;

/// That a reference was cleared in the cycle of this number, and is to be handed on.
#[derive(Clone, Copy, Debug, PartialEq, Eq)]
pub struct Pending {
    pub key: Key,
    pub cycle: u64,
}

/// A worker's own lists: the references that it found and has not looked at, and those that it cleared and has not
/// handed on. A finder is used with one processor alone: with another, its keys are of nothing, or of other references.
/// A clearing can't end once a finder was dropped that had found what was not looked at.
#[derive(Drop)]
pub struct Finder<A: Allocator = Global> {
    pub(crate) worker: WorkerNo,
    pub(crate) found: VecDeque<Key, A>,
    pub(crate) pending: VecDeque<Pending, A>,
}

impl<A: Allocator> Model for Finder<A> {
    ghost use Rattle.ref_process.specs.Desks.{FinderLists};

    ghost Value = { FinderLists };

    ghost view = { λ f. record { worker = f.worker; found = f.found.items; pending = f.pending.items } };
}

impl<A: Allocator + Copy> Finder<A> {
    ghost use Rattle.ref_process.specs.Desks.{new_lists};

    /// The finder of this worker, with empty lists. Takes no memory.
    pub fn new(alloc: A, worker: WorkerNo) -> Self
        ensures { result ≡ new_lists worker }
    {
        Finder {
            worker,
            found: VecDeque::new(alloc),
            pending: VecDeque::new(alloc),
        }
    }

    /// The worker. In constant time.
    pub fn worker(&self) -> WorkerNo
        ensures { result ≡ self.now.worker }
    {
        self.worker
    }
}
