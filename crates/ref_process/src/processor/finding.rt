//! What the marker came upon.

ghost use Rattle.std.specs.Prelude.{◌≡◌, IfOk, IfErr, OnOk, OnErr, Some, None};
ghost use Rattle.ref_base.specs.KeptPaths.{is_kept};
ghost use Rattle.ref_process.specs.Desks.{RefusedFor, found_refusal, taking_refusal, seen_reference, finding_of};
ghost use Rattle.ref_process.specs.Desks.{after_finding, lists_finding, after_taking, lists_taking};
ghost use Rattle.ref_process.specs.Places.{reference_under};

use crate::{Finder, Found, Key, Phase, ProcessFault, Processor, Reference};
use ref_base::{Policy, Strength, Urgency};
use std::alloc::Allocator;

impl<A: Allocator + Copy> Processor<A> {
    /// The marker came upon a reference, and this worker finds it. That it is found twice is harmless.
    ///
    /// Tried in this order: `WrongPhase` but in Marking, `NoSuchReference`, `NumbersSpent` where finders have
    /// 2^64 - 1 keys, `NoMemory` where a growth is refused: then nothing has changed. In constant time, amortized.
    pub fn found(&mut self, finder: &mut Finder<A>, key: Key) -> Result<Found, ProcessFault>
        ensures allowed { OnOk result (found_refusal self.old key ≡ None) }
        ensures answer { IfOk result (λ found.
            found ≡ finding_of self.old.policy (reference_under self.old.places key)) }
        ensures after { IfOk result (λ found. self.new ≡ after_finding self.old found) }
        ensures lists { IfOk result (λ found. finder.new ≡ lists_finding finder.old key found) }
        ensures refused { IfErr result (λ fault. RefusedFor (found_refusal self.old key) fault) }
        ensures unchanged { OnErr result (self.new ≡ self.old) }
        ensures lists_unchanged { OnErr result (finder.new ≡ finder.old) }
    {
        if self.phase != Phase::Marking {
            return Err(ProcessFault::WrongPhase);
        }
        let Some(reference) = self.places.reference(key) else {
            return Err(ProcessFault::NoSuchReference);
        };
        if self.listed == u64::MAX {
            return Err(ProcessFault::NumbersSpent);
        }
        let found = finding(self.policy, &reference);
        if let Found::Listed = found {
            if finder.found.reserve(1).is_err() {
                return Err(ProcessFault::NoMemory);
            }
            finder.found.push_back_reserved(key);
            self.listed += 1;
        }
        Ok(found)
    }

    /// What was made in this mark, and no finder has yet, goes to this finder, in order.
    ///
    /// Tried in this order: `NumbersSpent` where finders would have 2^64 keys, `NoMemory` where a growth is refused:
    /// then nothing has changed. In time of what was made.
    pub fn take_made(&mut self, finder: &mut Finder<A>) -> Result<(), ProcessFault>
        ensures allowed { OnOk result (taking_refusal self.old ≡ None) }
        ensures after { OnOk result (self.new ≡ after_taking self.old) }
        ensures lists { OnOk result (finder.new ≡ lists_taking finder.old self.old) }
        ensures refused { IfErr result (λ fault. RefusedFor (taking_refusal self.old) fault) }
        ensures unchanged { OnErr result (self.new ≡ self.old) }
        ensures lists_unchanged { OnErr result (finder.new ≡ finder.old) }
    {
        let Some(listed) = self.listed.checked_add(self.made.len() as u64) else {
            return Err(ProcessFault::NumbersSpent);
        };
        if finder.found.append(&mut self.made).is_err() {
            return Err(ProcessFault::NoMemory);
        }
        self.listed = listed;
        Ok(())
    }
}

// What coming upon a reference answers, by the cycle's policy.
pub(super) fn finding(policy: Policy, reference: &Reference) -> Found
    ensures { result ≡ finding_of policy (Some reference.now) }
{
    let Some(referent) = reference.referent else {
        return Found::Nothing;
    };
    if is_kept(policy, reference) {
        Found::Keep(referent)
    } else {
        Found::Listed
    }
}

// Whether the cycle of this policy keeps the reference's referent.
fn is_kept(policy: Policy, reference: &Reference) -> bool
    ensures { result ≡ is_kept policy (seen_reference reference.now) }
{
    match (reference.strength, policy.urgency) {
        (Strength::Soft, Urgency::Normal) => {
            policy.clock.saturating_sub(reference.stamp) <= policy.span
        }
        _ => false,
    }
}
