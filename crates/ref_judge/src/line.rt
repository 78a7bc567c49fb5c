//! What stands in a queue.

use ref_base::ObjNo;
use std::alloc::Allocator;
use std::collections::VecDeque;
use std::marker::Model;

// A queue, but for what was put in and taken: whether a reference was ever put in stands with the reference, and is
// forgotten as that dies.
#[derive(Drop)]
pub(crate) struct Line<A: Allocator> {
    // The references whose notices stand, first first.
    pub(crate) standing: VecDeque<ObjNo, A>,
    // How many were ever put in.
    pub(crate) put: u64,
    pub(crate) is_closed: bool,
}

impl<A: Allocator> Model for Line<A> {
    ghost use Rattle.ref_judge.specs.Judged.{Line as Data};

    ghost Value = { Data };

    ghost view = { λ l. record { stands = l.standing.items; put = l.put; closed = l.is_closed } };
}

impl<A: Allocator + Copy> Line<A> {
    ghost use Rattle.std.specs.Prelude.{◌≡◌, [], false};

    // An open one, into which nothing was put.
    pub(crate) fn new(alloc: A) -> Self
        ensures { result ≡ record { stands = []; put = 0; closed = false } }
    {
        Line {
            standing: VecDeque::new(alloc),
            put: 0,
            is_closed: false,
        }
    }
}
