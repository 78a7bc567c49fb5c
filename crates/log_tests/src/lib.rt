//! The tests of logs that no file of `refrun_cases` can show: each read that fails, and each request for memory that is
//! refused, in turn.
#![tactic(auto)]

#[cfg(test)]
mod failing;
#[cfg(test)]
mod logs;
#[cfg(test)]
mod memory;
