//! A handle: a world behind a pointer, or nothing where it is null.

ghost use Rattle.std.specs.Prelude.{◌≡◌, MatchOption};
ghost use Rattle.std.specs.declared.option.Option.{Option};
ghost use Rattle.std.specs.declared.option.Option.TheVariants.{None, Some};
ghost use Rattle.ref_c.specs.declared.kept.Kept.{Kept};
ghost use Rattle.ref_c.specs.Holding.{held_coded, holds_world, kept_in};

use crate::kept::Kept;
use crate::loose::Loose;
use std::alloc::Global;
use std::marker::Model;
use std::mem;
use std::ptr::null_mut;

/// A world, or nothing: an opaque handle, which C gets as a pointer to it. It is zero at first.
#[repr(C)]
pub struct RefWorld {
    at: *mut u8,
    pub ghost held: { Option Kept } by { held_coded },
}

impl Model for RefWorld {
    ghost also_owns = { λ h. holds_world h.at h.held };
}

impl RefWorld {
    /// A handle of nothing. Takes no memory.
    pub fn empty() -> RefWorld
        ensures { result.held ≡ None }
    {
        RefWorld { at: null_mut() }
    }

    // A handle of what was in a box.
    fn of(loose: Loose<Kept, Global>) -> RefWorld
        ensures { result.held ≡ Some loose.value }
    {
        let Loose { at, alloc: _ } = loose;
        RefWorld { at: at as *mut u8 }
    }

    // What was in the box, if there was one.
    fn into_loose(self, alloc: Global) -> Option<Loose<Kept, Global>>
        ensures { MatchOption result (self.held ≡ None) (λ loose. self.held ≡ Some loose.value) }
    {
        let RefWorld { at } = self;
        if at.is_null() {
            None
        } else {
            Some(Loose {
                at: at as *mut Kept,
                alloc,
            })
        }
    }

    /// What the handle has. Takes no memory.
    pub fn into_box(self, alloc: Global) -> Option<Box<Kept>>
        ensures { self.held ≡ kept_in result }
    {
        match self.into_loose(alloc) {
            Some(loose) => Some(loose.into_box()),
            None => None,
        }
    }

    /// Takes out what the handle has, which is nothing then. Takes no memory.
    pub fn take(&mut self, alloc: Global) -> Option<Box<Kept>>
        ensures left { self.new.held ≡ None }
        ensures taken { self.old.held ≡ kept_in result }
    {
        mem::replace(self, RefWorld::empty()).into_box(alloc)
    }

    /// Puts a world into the handle. What it had comes back. Takes no memory.
    pub fn put(&mut self, alloc: Global, kept: Box<Kept>) -> Option<Box<Kept>>
        ensures put { self.new.held ≡ Some kept.value }
        ensures back { self.old.held ≡ kept_in result }
    {
        mem::replace(self, RefWorld::of(Loose::of(kept))).into_box(alloc)
    }
}

// A handle may go to another thread, as its world may: by the C program, one call at a time uses it.
unsafe impl Send for RefWorld {}

// What may go to another thread.
fn goes<T: Send>(value: T) -> T {
    value
}

/// Only so that the check asks for the proof that a handle may go to another thread.
pub fn sent(handle: RefWorld) -> RefWorld {
    goes(handle)
}
