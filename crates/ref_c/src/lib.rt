//! The core for C: a world behind an opaque handle, and its steps by numbers, one at a time or as a table. And a judge
//! behind another, which is told steps with their replies and says which row is the first that isn't legal.
//!
//! A handle is nothing, where its pointer is null, or has a world or a judge. By the C program: a handle is zero at
//! first, and then only these calls write it; one call at a time uses it.
#![tactic(auto)]

ghost use Rattle.std.specs.Prelude.{◌≡◌, if◌then◌else◌, length, take};
ghost use Rattle.std.specs.declared.option.Option.TheVariants.{None, Some};
ghost use Rattle.ref_c.specs.Holding.{kept_in};
ghost use Rattle.ref_c.specs.ToldSteps.{TellsAnswer};
ghost use Rattle.ref_c.specs.Written.{lesser};
ghost use Rattle.ref_c.specs.WorldSteps.{MakesWorld, Steps, TellsPlay, TellsStep, is_object_in};
ghost use Rattle.ref_c.specs.WorldSteps.{numbered_config};
ghost use Rattle.ref_c.specs.declared.answer.Answer.{Answer};

mod answer;
mod given;
mod handle;
mod judge;
mod judge_handle;
mod judged;
mod kept;
mod list;
mod loose;
mod step;
#[cfg(test)]
mod tests;
mod verdict;

use crate::answer::{Answer, RefReply};
use crate::handle::RefWorld;
use crate::kept::Kept;
use crate::step::RefStep;
use ref_base::{Config, ObjNo, SpanRule};
use std::alloc::Global;

/// What a world is made with, as `Config` says it.
#[repr(C)]
#[derive(Clone, Copy)]
pub struct RefConfig {
    /// Program threads: 1 to 8.
    pub mutators: u32,
    /// Threads of the collector: 1 to 8.
    pub workers: u32,
    /// Reference queues: 1 to 16.
    pub queues: u32,
    /// Objects that fit into the heap at one time: 1 to 65,536.
    pub cells: u32,
    /// How long a soft reference is kept. Any number.
    pub span: u64,
    /// 0, or another number where the span is scaled by what is free.
    pub scaled: u32,
}

/// Makes a world, which the handle then has: what it had is ended. Returns 0, or the number of a fault, and then the
/// handle is as it was. Tried in this order: 1, `BadConfig`; 3, `NoMemory`. Takes all memory but that of queues.
#[unsafe(no_mangle)]
pub extern "C" fn ref_world_new(alloc: Global, handle: &mut RefWorld, config: &RefConfig) -> u32
    ensures { MakesWorld config.now result handle.old.held handle.new.held }
{
    match Kept::new(alloc, numbered_config(config)) {
        Ok(kept) => {
            if let Some(old) = handle.put(alloc, kept) {
                drop(old);
            }
            0
        }
        Err(fault) => fault.number(),
    }
}

/// Does the step of these numbers, and tells its reply. What a batch's reply lists goes into the list from its begin,
/// as far as there is room: its count tells how many there are, and what stands behind them stays. Kind 90 tells that
/// the numbers are no step, and 91 that there is no world: nothing was done then. In the time and memory of
/// `World::step`.
#[unsafe(no_mangle)]
pub extern "C" fn ref_world_step(
    alloc: Global,
    handle: &mut RefWorld,
    step: &RefStep,
    reply: &mut RefReply,
    list: &mut [u64],
)
    ensures { TellsStep handle.old.held step.now reply.new list.old list.new handle.new.held }
{
    let mut held = handle.take(alloc);
    let _used = tell(&mut held, step, reply, list, 0);
    give_back(alloc, handle, held);
}

/// Does the steps one after the other, as `ref_world_step` does each, and tells their replies in order. Returns how
/// many it did. A refused step is no end, nor are numbers that are no step: what stands behind it is done too. Where
/// there are fewer replies than steps, as many steps are done as there are replies, and nothing beyond. What the
/// batches' replies list stands one behind the other in the list, as far as there is room. In the time and memory of
/// the steps.
#[unsafe(no_mangle)]
pub extern "C" fn ref_world_play(
    alloc: Global,
    handle: &mut RefWorld,
    steps: &[RefStep],
    replies: &mut [RefReply],
    list: &mut [u64],
) -> usize
    ensures count { result ≡ lesser (length steps.now) (length replies.old) }
    ensures played { TellsPlay handle.old.held (take result steps.now) replies.old replies.new list.old list.new
        handle.new.held }
{
    let mut held = handle.take(alloc);
    let count = lesser(steps.len(), replies.len());
    let mut used = 0usize;
    for place in 0..count {
        used = tell(&mut held, &steps[place], &mut replies[place], list, used);
    }
    give_back(alloc, handle, held);
    count
}

/// Whether an object of this number is there: 1 where it was made and no sweep has freed it, and else 0. Any number may
/// be asked, and numbers are never used again. 0 also where the handle has no world. In logarithmic time. Takes no
/// memory.
#[unsafe(no_mangle)]
pub extern "C" fn ref_world_is_there(alloc: Global, handle: &mut RefWorld, object: u32) -> u32
    ensures told { result ≡ (if is_object_in handle.old.held object then 1 else 0) }
    ensures kept { handle.new.held ≡ handle.old.held }
{
    let held = handle.take(alloc);
    let is_there = has_object(&held, object);
    give_back(alloc, handle, held);
    u32::from(is_there)
}

/// Ends the world, if the handle has one. The handle is nothing then. Takes no memory.
#[unsafe(no_mangle)]
pub extern "C" fn ref_world_end(alloc: Global, handle: &mut RefWorld)
    ensures { handle.new.held ≡ None }
{
    if let Some(kept) = handle.take(alloc) {
        drop(kept);
    }
}

// The lesser of two.
fn lesser(one: usize, other: usize) -> usize
    ensures { result ≡ lesser one other }
{
    if one <= other { one } else { other }
}

// What a world is made with.
fn numbered_config(config: &RefConfig) -> Config
    ensures { result ≡ numbered_config config.now }
{
    Config {
        mutators: config.mutators,
        workers: config.workers,
        queues: config.queues,
        cells: config.cells,
        span: config.span,
        rule: if config.scaled == 0 {
            SpanRule::Fixed
        } else {
            SpanRule::Scaled
        },
    }
}

// Does the step of these numbers in the world, if there is one, and tells its answer. What it lists goes behind so many
// places of the list that are used: how many are used then.
#[inline(always)]
fn tell(
    held: &mut Option<Box<Kept>>,
    numbers: &RefStep,
    reply: &mut RefReply,
    list: &mut [u64],
    used: usize,
) -> usize
    ensures { (answer : Answer) × Steps (kept_in held.old) numbers.now answer (kept_in held.new)
        × TellsAnswer answer reply.new list.old used list.new result }
{
    match held {
        Some(kept) => kept.tell(numbers, reply, list, used),
        None => {
            *reply = Answer::NoWorld.numbers();
            used
        }
    }
}

// Whether there is a world in which an object of this number is.
fn has_object(held: &Option<Box<Kept>>, object: u32) -> bool
    ensures { result ≡ is_object_in (kept_in held.now) object }
{
    match held {
        Some(kept) => kept.is_there(ObjNo(object)),
        None => false,
    }
}

// Puts a world that was taken out into the handle again.
fn give_back(alloc: Global, handle: &mut RefWorld, held: Option<Box<Kept>>)
    requires taken { handle.old.held ≡ None }
    ensures { handle.new.held ≡ kept_in held }
{
    if let Some(kept) = held {
        let _nothing = handle.put(alloc, kept);
    }
}
