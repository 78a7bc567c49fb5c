//! Texts for C: a script in and its trace out, a graph in and its listing out, each in memory of the caller's.
#![tactic(auto)]

ghost use Rattle.std.specs.Prelude.{◌≡◌};
ghost use Rattle.ref_text_c.specs.GivenTexts.{ListsText, RunsText, text_numbers};
ghost use Rattle.ref_text_c.specs.declared.answer.TextAnswer.{TextAnswer};

mod answer;
mod given;
mod output;
#[cfg(test)]
mod tests;

use crate::answer::RefText;
use crate::given::{list_strengths, run};
use std::alloc::Global;

/// Reads a script and runs it. Its trace goes to the front of the buffer, if there is room for all of it, and what is
/// behind stays. Its jobs are those of `refrun run`: job a, from 0 to 63, answers a + 1000.
///
/// Status 0 tells that the trace stands in the buffer, and its length. With each other status the buffer stays as it
/// was. 1 tells that it is too short, and the trace's length. 2 tells the first faulty line, and the number of its
/// fault. 3: the text has more than 4,194,304 bytes. 4: memory ran out.
///
/// In the time and memory of `run_script`, and that of the trace once more. All memory is given back.
#[unsafe(no_mangle)]
pub extern "C" fn ref_text_run(alloc: Global, script: &[u8], trace: &mut [u8], told: &mut RefText)
    ensures { (answer : TextAnswer) × RunsText script.now trace.old answer trace.new
        × (told.new ≡ text_numbers answer) }
{
    *told = run(alloc, script, trace).numbers();
}

/// Reads a graph, and lists how strongly each of its objects is reachable, a line for each object. The listing goes to
/// the front of the buffer, if there is room for all of it, and what is behind stays.
///
/// Each status as `ref_text_run` has it. In the time and memory of `strength_text`, and that of the listing once more.
/// All memory is given back.
#[unsafe(no_mangle)]
pub extern "C" fn ref_text_strength(
    alloc: Global,
    graph: &[u8],
    listing: &mut [u8],
    told: &mut RefText,
)
    ensures { (answer : TextAnswer) × ListsText graph.now listing.old answer listing.new
        × (told.new ≡ text_numbers answer) }
{
    *told = list_strengths(alloc, graph, listing).numbers();
}
