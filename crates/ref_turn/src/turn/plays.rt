//! What each step on the table tells. These types are for the proofs alone.

ghost use Rattle.ref_turn.specs.Steps.{drew, named, saw, grabbed, gave_back, split_view, taken_in, spent_view};

use crate::history::{Entry, View};
use crate::machine::Machine;
use atomic_table::{Join, Play, Split};
use std::marker::{Brand, PhantomData};

/// A load of the tickets.
pub(super) struct Draw;

impl<M, S, R> Play<Option<M>, View<M, S, R>> for Draw {
    ghost then = { drew };
}

/// A load of the tickets by a new seat, which learns its number.
pub(super) struct Name;

impl<M, S, R> Play<Option<M>, View<M, S, R>> for Name {
    ghost then = { named };
}

/// A load of the count of ended turns, which shows the history.
pub(super) struct Look<M> {
    machine: PhantomData<M>,
}

impl<M: Machine> Play<Option<M>, View<M, M::Step, M::Reply>> for Look<M> {
    ghost then = { saw M.stands_for M.steps_to };
}

/// A compare-exchange on the tickets, which takes the turn and the machine, or loses.
pub(super) struct Grab<M> {
    machine: PhantomData<M>,
}

impl<M: Machine> Play<Option<M>, View<M, M::Step, M::Reply>> for Grab<M> {
    ghost then = { grabbed M.stands_for M.steps_to };
}

// The entry that ends a turn. A call at `Brand` picks it from its `requires`.
pub(super) trait Said<S, R> {
    ghost use Rattle.std.specs.Prelude.{Option};
    ghost use Rattle.ref_turn.specs.declared.history.Entry.{Entry};

    ghost entry: { Option (Entry S R) };
}

impl<S, R> Said<S, R> for Brand {
    ghost use Rattle.std.specs.Prelude.{None};

    ghost entry = { None };
}

/// An add on the count of ended turns, which adds the entry to the history and gives the machine back.
pub(super) struct Add<W> {
    entry: PhantomData<W>,
}

impl<M, S, R, W: Said<S, R>> Play<Option<M>, View<M, S, R>> for Add<W> {
    ghost then = { gave_back W.entry };
}

/// A new seat has seen what this one has, and made no call.
pub(super) struct Cut;

impl<M, S, R> Split<View<M, S, R>> for Cut {
    ghost left = { λ v. v };

    ghost right = { split_view };
}

/// A seat takes another in.
pub(super) struct TakeIn;

impl<M, S, R> Join<View<M, S, R>> for TakeIn {
    ghost both = { taken_in };

    ghost spent = { spent_view };
}
