//! Rows of mutators on objects, and on what they carry.

ghost use Rattle.std.specs.Prelude.{◌≡◌, ◌&&◌, is_some};
ghost use Rattle.ref_base.specs.CollectorRows.{value_reply};
ghost use Rattle.ref_base.specs.Refusals.{is_in};
ghost use Rattle.ref_judge.specs.MadeGrounds.{kept_made};
ghost use Rattle.ref_judge.specs.Standing.{DoesAs};

use super::Judge;
use crate::marks::{is_any_left, known, mark_got, policy_as};
use ref_base::{
    Actor, Cause, Fault, MutNo, ObjNo, Phase, PlainStep, QueueNo, Reply, SlotNo, Step, Strength,
};
use ref_objects::Objects;
use std::alloc::Allocator;

impl<A: Allocator + Copy> Judge<A> {
    pub(super) fn make(&mut self, mutator: MutNo, slot: SlotNo, fields: u32) -> Result<Reply, Fault>
        ensures { DoesAs self.old (Step.Plain (PlainStep.New mutator slot fields)) result self.new }
    {
        // Gives the proof that the objects are well formed.
        self.objects.object_count();
        let no = self.objects.alloc_obj(mutator, slot, fields)?;
        keep_made(&mut self.objects, self.phase, no);
        Ok(Reply::Object(no))
    }

    pub(super) fn refer(
        &mut self,
        mutator: MutNo,
        strength: Strength,
        slot: SlotNo,
        source: SlotNo,
        queue: Option<QueueNo>,
        fields: u32,
    ) -> Result<Reply, Fault>
        ensures { DoesAs self.old (Step.Plain (PlainStep.Refer mutator strength slot source queue fields)) result
            self.new }
    {
        // Gives the proof that the objects are well formed.
        self.objects.object_count();
        let no = self
            .objects
            .alloc_ref(mutator, slot, strength, source, queue, fields)?;
        keep_made(&mut self.objects, self.phase, no);
        Ok(Reply::Object(no))
    }

    pub(super) fn store(
        &mut self,
        mutator: MutNo,
        object: SlotNo,
        field: u32,
        value: SlotNo,
    ) -> Result<Reply, Fault>
        ensures { DoesAs self.old (Step.Plain (PlainStep.Store mutator object field value)) result self.new }
    {
        self.objects.store(mutator, object, field, value)?;
        Ok(Reply::Done)
    }

    pub(super) fn load(
        &mut self,
        mutator: MutNo,
        slot: SlotNo,
        object: SlotNo,
        field: u32,
    ) -> Result<Reply, Fault>
        ensures { DoesAs self.old (Step.Plain (PlainStep.Load mutator slot object field)) result self.new }
    {
        let value = self.objects.load(mutator, slot, object, field)?;
        let answer = value;
        if is_anew(value, self.phase) {
            self.may_be_none = true;
            self.may_be_left = is_any_left(
                &self.objects,
                self.profile.keeps_more,
                self.born,
                self.scanned,
            );
        }
        Ok(value_reply(answer))
    }

    pub(super) fn copy(
        &mut self,
        mutator: MutNo,
        slot: SlotNo,
        source: SlotNo,
    ) -> Result<Reply, Fault>
        ensures { DoesAs self.old (Step.Plain (PlainStep.Copy mutator slot source)) result self.new }
    {
        let value = self.objects.copy(mutator, slot, source)?;
        Ok(value_reply(value))
    }

    pub(super) fn drop_slot(&mut self, mutator: MutNo, slot: SlotNo) -> Result<Reply, Fault>
        ensures { DoesAs self.old (Step.Plain (PlainStep.Drop mutator slot)) result self.new }
    {
        self.objects.drop_slot(mutator, slot)?;
        Ok(Reply::Done)
    }

    pub(super) fn get(
        &mut self,
        mutator: MutNo,
        slot: SlotNo,
        reference: SlotNo,
    ) -> Result<Reply, Fault>
        ensures { DoesAs self.old (Step.Plain (PlainStep.Get mutator slot reference)) result self.new }
    {
        let value = self.objects.get(mutator, slot, reference, false)?;
        let (got, answer) = (value, value);
        // Gives the proof that the grey list has room.
        known(&self.objects);
        if is_anew(value, self.phase) {
            let policy = policy_as(self.profile, self.policy);
            let (objects, grey) = (&mut self.objects, &mut self.grey);
            mark_got(objects, grey, got, self.profile.keeps_more, policy);
            self.may_be_none = true;
            self.may_be_left = is_any_left(
                &self.objects,
                self.profile.keeps_more,
                self.born,
                self.scanned,
            );
        }
        Ok(value_reply(answer))
    }

    pub(super) fn clear(&mut self, mutator: MutNo, reference: SlotNo) -> Result<Reply, Fault>
        ensures { DoesAs self.old (Step.Plain (PlainStep.Clear mutator reference)) result self.new }
    {
        self.objects.cut_in(mutator, reference, false)?;
        Ok(Reply::Done)
    }

    pub(super) fn refers_to(
        &mut self,
        mutator: MutNo,
        reference: SlotNo,
        other: SlotNo,
    ) -> Result<Reply, Fault>
        ensures { DoesAs self.old (Step.Plain (PlainStep.RefersTo mutator reference other)) result self.new }
    {
        let value = self.objects.slot_of(mutator, other)?;
        let referent = self.objects.referent_in(mutator, reference, false)?;
        Ok(Reply::Refers(referent == value))
    }

    // Clears the reference in a slot. Where it has a queue the hand, which is empty, takes its notice.
    pub(super) fn unhook(&mut self, mutator: MutNo, slot: SlotNo) -> Result<Reply, Fault>
        ensures { DoesAs self.old (Step.Unhook mutator slot) result self.new }
    {
        self.objects.slot_of(mutator, slot)?;
        self.hands.check_empty(Actor::Mutator(mutator))?;
        let (no, reference) = self.objects.reference_in(mutator, slot)?;
        let Some(queue) = reference.queue else {
            self.objects.cut_in(mutator, slot, false)?;
            return Ok(Reply::Nothing);
        };
        if self.holds == u64::MAX {
            return Err(Fault::NumbersSpent);
        }
        self.objects.cut_in(mutator, slot, false)?;
        self.holds += 1;
        self.hands.fill_one(Actor::Mutator(mutator), queue, no);
        Ok(Reply::Notice {
            object: no,
            queue,
            cause: Cause::Own,
        })
    }

    // The slot then holds what the hand's first notice reports.
    pub(super) fn adopt(&mut self, mutator: MutNo, slot: SlotNo) -> Result<Reply, Fault>
        ensures { DoesAs self.old (Step.Adopt mutator slot) result self.new }
    {
        self.objects.slot_of(mutator, slot)?;
        let no = self.hands.first_of(Actor::Mutator(mutator))?;
        self.objects.set_slot(mutator, slot, Some(no))?;
        self.holds -= 1;
        self.hands.drop_first(Actor::Mutator(mutator));
        Ok(Reply::Object(no))
    }

    // The hand gives its first notice up.
    pub(super) fn release(&mut self, actor: Actor) -> Result<Reply, Fault>
        ensures { DoesAs self.old (Step.Release actor) result self.new }
    {
        let (read, emptied) = (actor, actor);
        self.hands.first_of(read)?;
        self.holds -= 1;
        self.hands.drop_first(emptied);
        Ok(Reply::Done)
    }
}

// Whether such an answer says anew whether an object is left: an object in a mark.
fn is_anew(value: Option<ObjNo>, phase: Phase) -> bool
    ensures { result ≡ (is_some value && is_in phase Phase.Marking) }
{
    value.is_some() && phase == Phase::Marking
}

// What is made in a mark is marked: a slot holds it, so it may be kept.
fn keep_made<A: Allocator + Copy>(objects: &mut Objects<A>, phase: Phase, no: ObjNo)
    ensures { objects.new ≡ kept_made phase objects.old no }
{
    if phase == Phase::Marking {
        objects.mark(no);
    }
}

// An object or null.
fn value_reply(value: Option<ObjNo>) -> Reply
    ensures { result ≡ value_reply value }
{
    match value {
        Some(no) => Reply::Object(no),
        None => Reply::Null,
    }
}
