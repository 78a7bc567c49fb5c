//! The tests of what no text in a file can show. Some are of what is printed of numbers, faults, strengths, steps,
//! replies and rows, of each line of a step, of the checks of lists, and of stress. In others readers, writers and
//! memory fail, at each call in turn, or texts and lines are as long as they may be, or have bytes that are no letters.
//!
//! Scripts with their traces and graph texts with their listings are files of the program `refrun_cases`. Here stand a
//! few for the loops over what fails, and tables of those whose bytes an editor would not show.
#![tactic(auto)]

#[cfg(test)]
mod cases;
#[cfg(test)]
mod drawn;
#[cfg(test)]
mod failing;
#[cfg(test)]
mod fakes;
#[cfg(test)]
mod faulty_texts;
#[cfg(test)]
mod jobs;
#[cfg(test)]
mod list_cases;
#[cfg(test)]
mod memory;
#[cfg(test)]
mod printed;
#[cfg(test)]
mod step_lines;
#[cfg(test)]
mod stress_cases;
#[cfg(test)]
mod texts;
#[cfg(test)]
mod uses;
#[cfg(test)]
mod worlds;
