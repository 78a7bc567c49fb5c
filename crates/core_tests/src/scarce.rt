//! Memory that is refused on purpose. A call that takes memory is made with its first request for it refused and all
//! behind that, then with its second, and so on, until it meets no refusal. Each time but the last it must answer that
//! there is no memory, and what it is made on stays as it was.

mod making;

use rationed::Rationed;
use std::alloc::Global;
use std::process::Abort;

/// More requests than any call makes.
pub const MOST: u64 = 1_000;

/// A call that takes memory.
pub trait Trial {
    /// The name of the call.
    fn call(&self) -> &'static str;

    /// Makes the call. False where it is refused for want of memory: every other answer but the right one aborts.
    fn is_made(&mut self, rt: &impl Abort) -> bool;

    /// What the call is made on is as it was before.
    fn stays(&self, rt: &impl Abort);
}

/// Makes a call with each of its requests refused in turn. Answers how many requests it makes.
pub fn refuse_each<T: Trial>(rt: &impl Abort, memory: &Rationed<Global>, trial: &mut T) -> u64 {
    let call = trial.call();
    for met in 0..MOST {
        memory.ration(met);
        let is_made = trial.is_made(rt);
        let was_refused = memory.lift();
        assert!(rt; is_made != was_refused, "{call} with {met} requests met");
        if is_made {
            return met;
        }
        trial.stays(rt);
    }
    MOST
}
