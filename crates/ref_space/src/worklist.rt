//! A list of objects that something is still to be done with.

ghost use Rattle.std.specs.Prelude.{◌≡◌, ◌≤◌, ◌<◌, IfOk, length};
ghost use Rattle.ref_space.specs.Worklists.{empty_worklist, with_last, without_first_listed, first_in, emptied_list};
ghost use Rattle.ref_space.specs.Worklists.{entry_number};
ghost use Rattle.ref_base.specs.Refusals.{is_empty};

use crate::index::Entry;
use std::alloc::{AllocError, Allocator, Global};
use std::marker::Model;

/// A list of objects that is filled at its end and taken from at its front. Its memory is taken by `new`: 8 bytes for
/// each that it has room for. Each call takes constant time, but `clear`, and a push once in as many as there is room
/// for.
#[derive(Drop)]
pub struct Worklist<A: Allocator = Global> {
    entries: Vec<Entry, A>,
    // How many at the front were taken out. They stay until the end is reached, so that no push has to look where the
    // list begins.
    taken: usize,
    room: usize,
}

impl<A: Allocator> Model for Worklist<A> {
    ghost use Rattle.std.specs.Prelude.{◌≤◌, drop, length};
    ghost use Rattle.std.specs.Vec.{vec_capacity};
    ghost use Rattle.ref_space.specs.Worklists.{Worklist as Data, numbers_in};

    ghost Value = { Data };

    ghost view = { λ l. record { stands = numbers_in (drop l.taken l.entries.items); room = l.room } };

    ghost invariant = { λ l. (l.taken ≤ length l.entries.items) × (length l.entries.items ≤ l.room)
        × (l.room ≤ vec_capacity l.entries) };
}

impl<A: Allocator> Worklist<A> {
    /// An empty list with room for so many.
    pub fn new(alloc: A, room: usize) -> Result<Self, AllocError>
        ensures { IfOk result (λ l. l ≡ empty_worklist room) }
    {
        let entries = Vec::with_capacity(alloc, room)?;
        Ok(Worklist {
            entries,
            taken: 0,
            room,
        })
    }

    /// How many it has room for.
    pub fn room(&self) -> usize
        ensures { result ≡ self.now.room }
    {
        self.room
    }

    /// How many stand in it.
    pub fn len(&self) -> usize
        ensures { result ≡ length self.now.stands }
    {
        self.entries.len() - self.taken
    }

    /// Whether nothing stands in it.
    pub fn is_empty(&self) -> bool
        ensures { result ≡ is_empty self.now.stands }
    {
        self.taken == self.entries.len()
    }

    /// One more, last.
    #[inline(always)]
    pub fn push(&mut self, entry: Entry)
        requires { length self.old.stands < self.old.room }
        ensures { self.new ≡ with_last self.old entry.no }
    {
        if self.entries.len() == self.room {
            self.push_closed_up(entry);
        } else {
            self.entries.push_reserved(entry);
        }
    }

    // Adds an entry, last, where the vector is full: what was taken out makes room. Never compiled into its caller,
    // since that is seldom.
    #[inline(never)]
    fn push_closed_up(&mut self, entry: Entry)
        requires { length self.old.stands < self.old.room }
        ensures { self.new ≡ with_last self.old entry.no }
    {
        let left = self.entries.len() - self.taken;
        self.entries.rotate_left(self.taken);
        self.entries.truncate(left);
        self.taken = 0;
        self.entries.push_reserved(entry);
    }

    /// Takes the first.
    #[inline(always)]
    pub fn take_first(&mut self) -> Option<Entry>
        ensures answer { entry_number result ≡ first_in self.old.stands }
        ensures after { self.new ≡ without_first_listed self.old }
    {
        if self.taken == self.entries.len() {
            return None;
        }
        let first = self.entries[self.taken];
        self.taken += 1;
        Some(first)
    }

    /// Takes all out.
    pub fn clear(&mut self)
        ensures { self.new ≡ emptied_list self.old }
    {
        self.entries.clear();
        self.taken = 0;
    }
}
