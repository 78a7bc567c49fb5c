//! The tests of the crates below the programs, against values that were worked out by hand. They are of graphs and
//! strengths, limits and the soft policy, words, pages and lists, the objects of a heap, its marking and the whole
//! heap. Others are of queues, the table of a cleaner, and the world of them.
//!
//! A story of steps is a text, spelled as a trace (`steps`); of other calls it is a table, whose rows are calls with
//! their answers. One runner makes a story's calls in turn, and a failure prints the row. What a script can say stands
//! in the program `refrun_cases`. Where memory runs out, a call is made with each of its requests refused in turn
//! (`scarce`). Callers whose contracts say what they see, each proved and run once, stand in `uses`.
#![tactic(auto)]

#[cfg(test)]
mod batches;
#[cfg(test)]
mod chains;
#[cfg(test)]
mod clean_tables;
#[cfg(test)]
mod clearing;
#[cfg(test)]
mod closed;
#[cfg(test)]
mod graphs;
#[cfg(test)]
mod hand;
#[cfg(test)]
mod limits;
#[cfg(test)]
mod marking;
#[cfg(test)]
mod objects;
#[cfg(test)]
mod queues;
#[cfg(test)]
mod rows;
#[cfg(test)]
mod scarce;
#[cfg(test)]
mod space;
#[cfg(test)]
mod steps;
#[cfg(test)]
mod uses;
#[cfg(test)]
mod world;
