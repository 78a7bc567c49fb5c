//! The examples of the guide that have threads, each in a module of its own: `weak_table` of four and `buffer_pool` of
//! three. A word of the command line names the one that is run; without any, both are.
#![tactic(auto)]

mod buffer_pool;
mod weak_table;

use anyhow::Error;
use std::env;

fn main(rt: HostRuntime) -> Result<(), Error> {
    let words: Vec<String> = env::args(&rt)?.skip(1).collect(rt.alloc())?;
    if is_wanted(&words, "weak_table") {
        weak_table::example(&rt, rt.alloc())?;
    }
    if is_wanted(&words, "buffer_pool") {
        buffer_pool::example(&rt, rt.alloc())?;
    }
    Ok(())
}

/// Whether the example is named, or none is.
fn is_wanted(words: &[String], name: &str) -> bool {
    words.is_empty() || words.iter().any(|word| word.as_str() == name)
}
