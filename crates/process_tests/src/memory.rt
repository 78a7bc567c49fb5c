//! Memory that is refused on purpose.

use crate::bench::{Bench, agree_scarcely};
use crate::cycles::WHOLE_CYCLE;
use rationed::Rationed;

// The calls that take memory, and how rows spell them.
const EACH: [(&str, &str); 5] = [
    ("Processor::add", "add"),
    ("Processor::found", "found"),
    ("Processor::take_made", "take_made"),
    ("Processor::clear_next", "look"),
    ("Processor::roots", "roots"),
];

// Each request of the calls of a whole cycle is refused in turn. The later rows agree, so what was refused has changed
// nothing.
#[test]
fn each_request_refused_in_turn(rt: HostRuntime) {
    for (call, name) in EACH {
        let memory = Rationed::new(rt.alloc());
        let mut bench = Bench::new(rt.alloc(), &memory, 10);
        let refusals = agree_scarcely(&rt, &memory, &mut bench, name, WHOLE_CYCLE);
        assert!(rt; refusals > 0, "{call}");
    }
}
