//! Batches: what is handed on at once.

ghost use Rattle.std.specs.Prelude.{◌≡◌, ◌≤◌, ◌<◌, ◌==◌, ◌∷◌, ◌++◌, [], length, drop, take, IfOk, OnErr};
ghost use Rattle.std.specs.List.{list_all};
ghost use Rattle.ref_base.specs.Members.{first_of};

use crate::{Fault, MOST_IN_BATCH, Parcel, QueueNo};
use std::alloc::{Allocator, Global};
use std::collections::VecDeque;
use std::marker::Model;

/// A list of at most 32 items, first first (this project's profile). All its memory is taken as it is made. In a clause
/// it is the list.
#[derive(Debug, Drop)]
pub struct Batch<T, A: Allocator = Global> {
    items: VecDeque<T, A>,
}

impl<T, A: Allocator> Model for Batch<T, A> {
    ghost use Rattle.std.specs.Prelude.{◌≤◌, List, length};
    ghost use Rattle.std.specs.Coded.{coded_list};
    ghost use Rattle.std.specs.VecDeque.{deque_capacity};

    ghost Value = { List T };

    ghost coded = { coded_list T.code };

    ghost view = { λ b. b.items.items };

    ghost invariant = { λ b. (length b.items.items ≤ 32) × (32 ≤ deque_capacity b.items) };
}

impl<T, A: Allocator> Batch<T, A> {
    /// A batch of no items, with room for 32. The one error is `NoMemory`.
    pub fn new(alloc: A) -> Result<Self, Fault>
        ensures ok { IfOk result (λ b. b ≡ []) }
        ensures err { OnErr result (result ≡ Err Fault.NoMemory) }
    {
        match VecDeque::with_capacity(alloc, MOST_IN_BATCH) {
            Ok(items) => Ok(Batch { items }),
            Err(_) => Err(Fault::NoMemory),
        }
    }

    /// How many items there are: at most 32. Takes no memory.
    pub fn len(&self) -> usize
        ensures count { result ≡ length self.now }
        ensures few { result ≤ 32 }
    {
        self.items.len()
    }

    /// Whether there is none. Takes no memory.
    pub fn is_empty(&self) -> bool
        ensures { result ≡ (length self.now == 0) }
    {
        self.items.is_empty()
    }

    /// One more, last. In constant time. Takes no memory.
    #[inline(always)]
    pub fn push(&mut self, item: T)
        requires { length self.old < 32 }
        ensures { self.new ≡ self.old ++ item ∷ [] }
    {
        self.items.push_back_reserved(item);
    }

    /// Takes the first out, if there is one. In constant time. Takes no memory.
    pub fn take_first(&mut self) -> Option<T>
        ensures answer { result ≡ first_of self.old }
        ensures after { self.new ≡ drop 1 self.old }
    {
        self.items.pop_front()
    }

    /// The first so many go behind the others, in order. In time of the items. Takes no memory.
    pub fn turn(&mut self, count: usize)
        requires { count ≤ length self.old }
        ensures { self.new ≡ drop count self.old ++ take count self.old }
    {
        self.items.rotate_left(count);
    }

    /// Gives up a batch of no items: only so can one of items that must be spent go. Takes no memory.
    pub fn end(self)
        requires { self ≡ [] }
    {
        let Batch { items } = self;
        items.destroy_empty();
    }
}

impl<T: Parcel, A: Allocator> Batch<T, A> {
    /// Whether each item is for this queue. In time of the items. Takes no memory.
    pub fn is_for(&self, queue: QueueNo) -> bool
        ensures { result ≡ list_all (λ x. T.queue_of x == queue) self.now }
    {
        let (front, back) = self.items.as_slices();
        are_for(front, queue) && are_for(back, queue)
    }
}

// Whether each of these is for this queue.
fn are_for<T: Parcel>(items: &[T], queue: QueueNo) -> bool
    ensures { result ≡ list_all (λ x. T.queue_of x == queue) items.now }
{
    for item in items {
        if item.queue() != queue {
            return false;
        }
    }
    true
}
