//! A handle of a judge, as that of a world is.

ghost use Rattle.std.specs.Prelude.{◌≡◌, MatchOption};
ghost use Rattle.std.specs.declared.option.Option.{Option};
ghost use Rattle.std.specs.declared.option.Option.TheVariants.{None, Some};
ghost use Rattle.ref_c.specs.declared.judged.KeptJudge.{KeptJudge};
ghost use Rattle.ref_c.specs.Holding.{holds_judge, judge_coded, kept_in};

use crate::judged::KeptJudge;
use crate::loose::Loose;
use std::alloc::Global;
use std::marker::Model;
use std::mem;
use std::ptr::null_mut;

/// A judge, or nothing: an opaque handle, which C gets as a pointer to it. It is zero at first.
#[repr(C)]
pub struct RefJudge {
    at: *mut u8,
    pub ghost held: { Option KeptJudge } by { judge_coded },
}

impl Model for RefJudge {
    ghost also_owns = { λ h. holds_judge h.at h.held };
}

impl RefJudge {
    /// A handle of nothing. Takes no memory.
    pub fn empty() -> RefJudge
        ensures { result.held ≡ None }
    {
        RefJudge { at: null_mut() }
    }

    // A handle of what was in a box.
    fn of(loose: Loose<KeptJudge, Global>) -> RefJudge
        ensures { result.held ≡ Some loose.value }
    {
        let Loose { at, alloc: _ } = loose;
        RefJudge { at: at as *mut u8 }
    }

    // What was in the box, if there was one.
    fn into_loose(self, alloc: Global) -> Option<Loose<KeptJudge, Global>>
        ensures { MatchOption result (self.held ≡ None) (λ loose. self.held ≡ Some loose.value) }
    {
        let RefJudge { at } = self;
        if at.is_null() {
            None
        } else {
            Some(Loose {
                at: at as *mut KeptJudge,
                alloc,
            })
        }
    }

    /// What the handle has. Takes no memory.
    pub fn into_box(self, alloc: Global) -> Option<Box<KeptJudge>>
        ensures { self.held ≡ kept_in result }
    {
        match self.into_loose(alloc) {
            Some(loose) => Some(loose.into_box()),
            None => None,
        }
    }

    /// Takes out what the handle has, which is nothing then. Takes no memory.
    pub fn take(&mut self, alloc: Global) -> Option<Box<KeptJudge>>
        ensures left { self.new.held ≡ None }
        ensures taken { self.old.held ≡ kept_in result }
    {
        mem::replace(self, RefJudge::empty()).into_box(alloc)
    }

    /// Puts a judge into the handle. What it had comes back. Takes no memory.
    pub fn put(&mut self, alloc: Global, kept: Box<KeptJudge>) -> Option<Box<KeptJudge>>
        ensures put { self.new.held ≡ Some kept.value }
        ensures back { self.old.held ≡ kept_in result }
    {
        mem::replace(self, RefJudge::of(Loose::of(kept))).into_box(alloc)
    }
}
