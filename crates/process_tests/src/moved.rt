//! Where objects are that have moved.

use crate::bench::{OBJECTS, number};
use ref_process::{Handle, Moves};
use std::process::Abort;

/// Where the objects below `OBJECTS` are now. All others stay.
#[derive(Drop)]
pub struct Forwards {
    forwards: [u64; OBJECTS],
}

impl Forwards {
    /// Moves of a row, as `21>31 22>32`: object 21 is 31 now. What isn't named stays.
    pub fn of(rt: &impl Abort, text: &str) -> Self {
        let mut forwards = [0; OBJECTS];
        for (place, forward) in forwards.iter_mut().enumerate() {
            *forward = place as u64;
        }
        for part in text.split(' ') {
            if let Some((from, to)) = part.split_once('>') {
                let place = number(rt, from) as usize;
                assert!(rt; place < OBJECTS, "no object: {from}");
                forwards[place] = number(rt, to);
            }
        }
        Forwards { forwards }
    }
}

impl Moves for Forwards {
    ghost use Rattle.std.specs.Prelude.{slice_index_or};

    ghost moved_to = { λ s h. slice_index_or s.forwards h h };

    fn moved_to(&self, handle: Handle) -> Handle {
        match self.forwards.get(handle.0 as usize) {
            Some(forward) => Handle(*forward),
            None => handle,
        }
    }
}
