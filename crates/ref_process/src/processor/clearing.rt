//! Looking at what was found, and handing on what was cleared.

ghost use Rattle.std.specs.Prelude.{◌≡◌, IfOk, IfErr, OnOk, OnErr, Some, None};
ghost use Rattle.ref_process.specs.Desks.{RefusedFor, look_refusal, owner_of};
ghost use Rattle.ref_process.specs.Looks.{look_first, after_look, lists_look};
ghost use Rattle.ref_process.specs.Notices.{handed_first, after_hand, lists_hand, after_spend};
ghost use Rattle.ref_process.specs.Places.{reference_under};

use super::reading::queue_to_tell;
use crate::{
    Finder, Handed, Handle, Looked, Marks, Notice, Pending, Phase, ProcessFault, Processor,
    Reference,
};
use ref_base::Cause;
use std::alloc::Allocator;

impl<A: Allocator + Copy> Processor<A> {
    /// Looks at the first reference that this worker found, and clears it where its referent isn't marked. Then it is
    /// pending, if it has a queue. None where nothing is left.
    ///
    /// Tried in this order: `WrongPhase` but in Clearing, `NoMemory` where a growth is refused: then nothing has
    /// changed. In constant time, amortized, and of one question at most.
    pub fn clear_next<M: Marks>(
        &mut self,
        finder: &mut Finder<A>,
        marks: &M,
    ) -> Result<Option<Looked>, ProcessFault>
        ensures allowed { OnOk result (look_refusal self.old ≡ None) }
        ensures answer { IfOk result (λ looked.
            looked ≡ look_first (M.marked marks.now) self.old.places finder.old.found) }
        ensures after { OnOk result (self.new ≡ after_look (M.marked marks.now) self.old finder.old.found) }
        ensures lists { OnOk result
            (finder.new ≡ lists_look (M.marked marks.now) self.old finder.old finder.old.found) }
        ensures refused { IfErr result (λ fault. RefusedFor (look_refusal self.old) fault) }
        ensures unchanged { OnErr result (self.new ≡ self.old) }
        ensures lists_unchanged { OnErr result (finder.new ≡ finder.old) }
    {
        if self.phase != Phase::Clearing {
            return Err(ProcessFault::WrongPhase);
        }
        if finder.pending.reserve(1).is_err() {
            return Err(ProcessFault::NoMemory);
        }
        let Some(key) = finder.found.pop_front() else {
            return Ok(None);
        };
        self.listed = self.listed.saturating_sub(1);
        let Some(reference) = self.places.reference(key) else {
            return Ok(Some(Looked::Skipped(key)));
        };
        let Some(referent) = reference.referent else {
            return Ok(Some(Looked::Skipped(key)));
        };
        if marks.is_marked(referent) {
            return Ok(Some(Looked::Kept(key)));
        }
        let is_pending = reference.queue.is_some();
        self.places.put(
            key,
            Reference {
                referent: None,
                is_pending,
                ..reference
            },
        );
        if is_pending {
            finder.pending.push_back_reserved(Pending {
                key,
                cycle: self.cycle,
            });
        }
        Ok(Some(Looked::Cleared(key)))
    }

    /// Hands on the first reference that this worker cleared: its notice, unless one was given before. In every phase.
    /// Takes no memory. In constant time.
    pub fn hand(&mut self, finder: &mut Finder<A>) -> Handed
        ensures answer { result ≡ handed_first self.old.places finder.old.worker finder.old.pending }
        ensures after { self.new ≡ after_hand self.old finder.old.pending }
        ensures lists { finder.new ≡ lists_hand finder.old finder.old.pending }
    {
        let Some(Pending { key, cycle }) = finder.pending.pop_front() else {
            return Handed::Nothing;
        };
        let Some(reference) = self.places.reference(key) else {
            return Handed::Already(key);
        };
        let Some(queue) = queue_to_tell(&reference) else {
            self.places.put(
                key,
                Reference {
                    is_pending: false,
                    ..reference
                },
            );
            return Handed::Already(key);
        };
        self.places.put(
            key,
            Reference {
                is_told: true,
                is_pending: false,
                is_out: true,
                ..reference
            },
        );
        Handed::Notice(Notice {
            key,
            queue,
            cause: Cause::Cycle(cycle, finder.worker),
        })
    }

    /// The notice was read: it holds the reference's owner no more, which is answered, if there is one. The notice
    /// comes back where it is of no reference that is here: then nothing has changed. Takes no memory. In constant
    /// time.
    pub fn spend(&mut self, notice: Notice) -> Result<Option<Handle>, Notice>
        ensures answer { IfOk result (λ owner.
            (reference_under self.old.places notice.key ≡ None → ⊥)
            × (owner ≡ owner_of (reference_under self.old.places notice.key))) }
        ensures after { OnOk result
            (self.new ≡ after_spend self.old notice.key (reference_under self.old.places notice.key)) }
        ensures back { IfErr result (λ back.
            (reference_under self.old.places notice.key ≡ None) × (back ≡ notice)) }
        ensures unchanged { OnErr result (self.new ≡ self.old) }
    {
        let key = notice.key;
        let Some(reference) = self.places.reference(key) else {
            return Err(notice);
        };
        self.places.put(
            key,
            Reference {
                is_out: false,
                ..reference
            },
        );
        Ok(reference.owner)
    }
}
