//! A heap that lives longer than the numbers of its rounds last.

use super::{CONFIG, world_of};
use crate::steps::{agree, agree_with};

/// More than twice as many as the numbers that rounds have.
const CYCLES: u32 = 600;

#[test]
fn numbers_of_rounds_begin_anew_and_no_reply_tells_it(rt: HostRuntime) {
    let mut world = world_of(&rt, rt.alloc(), CONFIG);
    // Object 2 is in the field of object 1, which stays in slot 0.
    let story = "m0 new s0 1 : object 1; m0 new s1 0 : object 2; m0 store s0 0 s1 : ok";
    agree(&rt, &mut world, story);
    for cycle in 1..CYCLES + 1 {
        // What is made in this cycle's turn dies in it.
        let story = "m0 new s1 0 : object $; m0 drop s1 : ok; begin $ normal : cycle $";
        agree_with(&rt, &mut world, story, &[2 + cycle, cycle, cycle]);
        // As object 2 is loaded, it isn't marked yet, and its word isn't healed.
        let story = "
            m0 load s1 s0 0 : object 2; m0 drop s1 : ok; w0 scan : scanned 1; w0 scan : scanned 2; w0 scan : none
            endmark : doomed 1; endclear : ok; w0 sweep : swept 1; w0 sweep : none; endsweep : ok";
        agree(&rt, &mut world, story);
    }
    world.end();
}
