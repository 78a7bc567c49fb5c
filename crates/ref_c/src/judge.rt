//! The judge for C: rows by numbers, each of which is legal behind those before it, or the first that isn't.

ghost use Rattle.std.specs.Prelude.{◌≡◌};
ghost use Rattle.std.specs.declared.option.Option.TheVariants.{None, Some};
ghost use Rattle.ref_c.specs.Holding.{kept_in};
ghost use Rattle.ref_c.specs.JudgeSteps.{JudgesHeld, MakesJudge, MakesJudgeOf, numbered_profile};

use crate::answer::RefReply;
use crate::judge_handle::RefJudge;
use crate::judged::KeptJudge;
use crate::step::RefStep;
use crate::verdict::RefVerdict;
use crate::{RefConfig, numbered_config};
use ref_base::{Config, Fault};
use ref_judge::{Order, Profile};
use std::alloc::Global;

/// What a collector may do otherwise than the reference one, as `Profile` says it: 0, or another number where it may.
#[repr(C)]
#[derive(Clone, Copy)]
pub struct RefProfile {
    /// Whether it may keep any object.
    pub keeps_more: u32,
    /// Whether it may keep or clear any soft reference.
    pub soft_free: u32,
    /// Which notices a queue gives: 0 those that were put in first, 1 those that were put in last, 2 any.
    pub order: u32,
}

/// Makes a judge of a trace that begins with no object, which the handle then has: what it had is ended. Returns 0, or
/// the number of a fault, and then the handle is as it was. Tried in this order: 1, `BadConfig`; 3, `NoMemory`.
#[unsafe(no_mangle)]
pub extern "C" fn ref_judge_new(
    alloc: Global,
    handle: &mut RefJudge,
    config: &RefConfig,
    profile: &RefProfile,
) -> u32
    ensures { MakesJudge config.now profile.now result handle.old.held handle.new.held }
{
    match numbered_profile(profile) {
        Some(profile) => make(alloc, handle, numbered_config(config), profile),
        None => Fault::BadConfig.number(),
    }
}

/// Judges the row of a step, its reply, and what that lists. The list has just the numbers that a batch's reply lists,
/// and none for another reply. The verdict's kind is 0 where the row is legal, and 1 where it isn't: what it breaks is
/// told then. 2: the numbers are no step. 3: they are no reply. 4: the handle has no judge. 5: memory was refused, and
/// the row may be judged again. 6: an earlier row was illegal. Only a verdict of 0 or 1 changes the judge. In the time
/// and memory of `Judge::row`.
#[unsafe(no_mangle)]
pub extern "C" fn ref_judge_row(
    alloc: Global,
    handle: &mut RefJudge,
    step: &RefStep,
    reply: &RefReply,
    list: &[u64],
    verdict: &mut RefVerdict,
)
    ensures { JudgesHeld handle.old.held step.now reply.now list.now verdict.new handle.new.held }
{
    let mut held = handle.take(alloc);
    *verdict = judged(&mut held, step, reply, list);
    give_back(alloc, handle, held);
}

/// Ends the judge, if the handle has one. The handle is nothing then. Takes no memory.
#[unsafe(no_mangle)]
pub extern "C" fn ref_judge_end(alloc: Global, handle: &mut RefJudge)
    ensures { handle.new.held ≡ None }
{
    if let Some(kept) = handle.take(alloc) {
        drop(kept);
    }
}

// Makes a judge of a collector with this configuration and profile.
fn make(alloc: Global, handle: &mut RefJudge, config: Config, profile: Profile) -> u32
    ensures { MakesJudgeOf (Some profile) config result handle.old.held handle.new.held }
{
    match KeptJudge::new(alloc, config, profile) {
        Ok(kept) => {
            if let Some(old) = handle.put(alloc, kept) {
                drop(old);
            }
            0
        }
        Err(fault) => fault.number(),
    }
}

// The profile of these numbers, if they are one.
fn numbered_profile(p: &RefProfile) -> Option<Profile>
    ensures { result ≡ numbered_profile p.now }
{
    let order = match p.order {
        0 => Order::First,
        1 => Order::Last,
        2 => Order::Any,
        _ => return None,
    };
    Some(Profile {
        keeps_more: p.keeps_more != 0,
        soft_free: p.soft_free != 0,
        order,
    })
}

// Judges the row of these numbers, if there is a judge.
fn judged(
    held: &mut Option<Box<KeptJudge>>,
    step: &RefStep,
    reply: &RefReply,
    list: &[u64],
) -> RefVerdict
    ensures { JudgesHeld (kept_in held.old) step.now reply.now list.now result (kept_in held.new) }
{
    match held {
        Some(kept) => kept.judge_numbers(step, reply, list),
        None => RefVerdict::of(4),
    }
}

// Puts a judge that was taken out into the handle again.
fn give_back(alloc: Global, handle: &mut RefJudge, held: Option<Box<KeptJudge>>)
    requires taken { handle.old.held ≡ None }
    ensures { handle.new.held ≡ kept_in held }
{
    if let Some(kept) = held {
        let _nothing = handle.put(alloc, kept);
    }
}
