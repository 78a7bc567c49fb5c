//! What the program asks of its references.

ghost use Rattle.std.specs.Prelude.{◌≡◌, IfOk, IfErr, OnOk, OnErr, Some, None};
ghost use Rattle.ref_process.specs.Desks.{key_refusal};
ghost use Rattle.ref_process.specs.Looks.{reads_in, same_referent, got_of, after_get, refers_to, cut_in, after_clear};
ghost use Rattle.ref_process.specs.Notices.{notice_queue, enqueued_of, after_enqueue};
ghost use Rattle.ref_process.specs.Places.{reference_under};

use crate::{Handle, Key, Marks, Notice, Phase, ProcessFault, Processor, Reference};
use ref_base::{Cause, QueueNo, Strength};
use std::alloc::Allocator;

impl<A: Allocator + Copy> Processor<A> {
    /// The object that the reference refers to; null of a phantom reference, and in Clearing of what isn't marked. A
    /// soft reference that is got has the stamp of the clock then. In Marking the runtime marks what is got before the
    /// program has it. `NoSuchReference` is the one error. In constant time, and in Clearing of one question.
    pub fn get<M: Marks>(&mut self, key: Key, marks: &M) -> Result<Option<Handle>, ProcessFault>
        ensures allowed { OnOk result (key_refusal self.old key ≡ None) }
        ensures answer { IfOk result (λ got.
            got ≡ got_of (M.marked marks.now) self.old (reference_under self.old.places key)) }
        ensures after { OnOk result
            (self.new ≡ after_get (M.marked marks.now) self.old key (reference_under self.old.places key)) }
        ensures refused { IfErr result (λ fault. key_refusal self.old key ≡ Some fault) }
        ensures unchanged { OnErr result (self.new ≡ self.old) }
    {
        let Some(reference) = self.places.reference(key) else {
            return Err(ProcessFault::NoSuchReference);
        };
        match reference.strength {
            Strength::Phantom => Ok(None),
            Strength::Weak => Ok(read_as(self.phase, reference.referent, marks)),
            Strength::Soft => {
                let referent = read_as(self.phase, reference.referent, marks);
                if referent.is_some() {
                    let stamp = self.policy.clock;
                    self.places.put(key, Reference { stamp, ..reference });
                }
                Ok(referent)
            }
        }
    }

    /// Whether the reference refers to this object, or to nothing where there is none. In Clearing what isn't marked
    /// is nothing. Nobody has to mark what is compared. `NoSuchReference` is the one error. In constant time, and in
    /// Clearing of one question.
    pub fn refers_to<M: Marks>(
        &self,
        key: Key,
        to: Option<Handle>,
        marks: &M,
    ) -> Result<bool, ProcessFault>
        ensures allowed { OnOk result (key_refusal self.now key ≡ None) }
        ensures answer { IfOk result (λ is.
            is ≡ refers_to (M.marked marks.now) self.now (reference_under self.now.places key) to) }
        ensures refused { IfErr result (λ fault. key_refusal self.now key ≡ Some fault) }
    {
        let Some(reference) = self.places.reference(key) else {
            return Err(ProcessFault::NoSuchReference);
        };
        let referent = read_as(self.phase, reference.referent, marks);
        Ok(is_same(referent, to))
    }

    /// The reference refers to nothing from now on. Where it reads as null already nothing changes, so its worker still
    /// reports it. `NoSuchReference` is the one error: then nothing has changed. In constant time, and in Clearing of
    /// one question.
    pub fn clear<M: Marks>(&mut self, key: Key, marks: &M) -> Result<(), ProcessFault>
        ensures allowed { OnOk result (key_refusal self.old key ≡ None) }
        ensures after { OnOk result
            (self.new ≡ after_clear (M.marked marks.now) self.old key (reference_under self.old.places key)) }
        ensures refused { IfErr result (λ fault. key_refusal self.old key ≡ Some fault) }
        ensures unchanged { OnErr result (self.new ≡ self.old) }
    {
        let Some(reference) = self.places.reference(key) else {
            return Err(ProcessFault::NoSuchReference);
        };
        self.places.put(key, cut(self.phase, reference, marks));
        Ok(())
    }

    /// Clears the reference, as `clear` does, and answers its notice, if it has a queue and no notice of it was given.
    /// `NoSuchReference` is the one error: then nothing has changed. In constant time, and in Clearing of one question.
    pub fn enqueue<M: Marks>(&mut self, key: Key, marks: &M) -> Result<Option<Notice>, ProcessFault>
        ensures allowed { OnOk result (key_refusal self.old key ≡ None) }
        ensures answer { IfOk result (λ notice. notice ≡ enqueued_of key (reference_under self.old.places key)) }
        ensures after { OnOk result
            (self.new ≡ after_enqueue (M.marked marks.now) self.old key (reference_under self.old.places key)) }
        ensures refused { IfErr result (λ fault. key_refusal self.old key ≡ Some fault) }
        ensures unchanged { OnErr result (self.new ≡ self.old) }
    {
        let Some(reference) = self.places.reference(key) else {
            return Err(ProcessFault::NoSuchReference);
        };
        let cut = cut(self.phase, reference, marks);
        let Some(queue) = queue_to_tell(&reference) else {
            self.places.put(key, cut);
            return Ok(None);
        };
        self.places.put(
            key,
            Reference {
                is_told: true,
                is_out: true,
                ..cut
            },
        );
        Ok(Some(Notice {
            key,
            queue,
            cause: Cause::Own,
        }))
    }
}

// What a referent reads as in this phase.
fn read_as<M: Marks>(phase: Phase, referent: Option<Handle>, marks: &M) -> Option<Handle>
    ensures { result ≡ reads_in (M.marked marks.now) phase referent }
{
    match phase {
        Phase::Idle | Phase::Marking => referent,
        Phase::Clearing => {
            let handle = referent?;
            if marks.is_marked(handle) {
                Some(handle)
            } else {
                None
            }
        }
    }
}

// Whether both are one handle, or neither is there.
fn is_same(referent: Option<Handle>, to: Option<Handle>) -> bool
    ensures { result ≡ same_referent referent to }
{
    match (referent, to) {
        (None, None) => true,
        (Some(handle), Some(other)) => handle.0 == other.0,
        _ => false,
    }
}

// The reference with no referent, unless it reads as null in this phase.
fn cut<M: Marks>(phase: Phase, reference: Reference, marks: &M) -> Reference
    ensures { result ≡ cut_in (M.marked marks.now) phase reference }
{
    if read_as(phase, reference.referent, marks).is_some() {
        Reference {
            referent: None,
            ..reference
        }
    } else {
        reference
    }
}

// The queue for which the reference gets a notice now, if it gets one.
pub(super) fn queue_to_tell(reference: &Reference) -> Option<QueueNo>
    ensures { result ≡ notice_queue reference.now }
{
    if reference.is_told {
        None
    } else {
        reference.queue
    }
}
