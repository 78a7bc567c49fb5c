//! The tests of what threads share, against values that were worked out by hand. Each test ends by itself and asserts
//! the same whatever the schedule.
#![tactic(auto)]

#[cfg(test)]
mod shares;
#[cfg(test)]
mod turns;
#[cfg(test)]
mod uses;
