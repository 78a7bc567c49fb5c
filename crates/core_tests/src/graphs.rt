//! Graphs and strengths, call by call. A row of a story is a call and its answer. What adds to a graph is spelled as in
//! a graph text, as `weak 4 5 - 8`; `strength 4` asks of one object, and `strengths` of all.

mod memory;
mod stories;

use crate::steps::{BREAKS, ROOM, parts_of};
use arrayvec::{ArrayString, ArrayVec};
use ref_base::{Fault, ObjNo, ObjectReach, Reach, Strength};
use ref_graph::{Graph, strength_of, strengths};
use std::alloc::{Allocator, Global};
use std::fmt;
use std::fmt::Write;
use std::process::Abort;

/// What a call is answered.
#[derive(Drop)]
enum Told {
    /// Whether what was added is new.
    Added(Result<bool, Fault>),
    Reach(Result<Reach, Fault>),
    All(Result<Vec<ObjectReach>, Fault>),
}

impl fmt::Display for Told {
    fn fmt<W: fmt::Write>(&self, f: &mut fmt::Formatter<W>) -> fmt::Result {
        match self {
            Told::Added(Ok(true)) => f.write_str("new"),
            Told::Added(Ok(false)) => f.write_str("known"),
            Told::Reach(Ok(reach)) => write!(f, "{reach}"),
            Told::All(Ok(listed)) => say_all(f, listed),
            Told::Added(Err(fault)) | Told::Reach(Err(fault)) | Told::All(Err(fault)) => {
                write!(f, "refused {fault}")
            }
        }
    }
}

fn say_all<W: fmt::Write>(f: &mut fmt::Formatter<W>, listed: &[ObjectReach]) -> fmt::Result {
    if listed.is_empty() {
        return f.write_str("none");
    }
    let mut mark = "";
    for ObjectReach { object, reach } in listed {
        write!(f, "{mark}{object} {reach}")?;
        mark = " ";
    }
    Ok(())
}

/// The objects that a text names, where `-` is none.
fn named(rt: &impl Abort, text: &str) -> ArrayVec<Option<ObjNo>, 16> {
    let mut named = ArrayVec::new();
    for word in text.split(' ') {
        let no = word.parse::<u32>().ok().map(|no| ObjNo(no));
        let is_read = no.is_some() || word == "-";
        assert!(rt; is_read && named.try_push(no).is_ok(), "{text}");
    }
    named
}

/// Adds what a call says.
fn added<A: Allocator + Copy>(
    rt: &impl Abort,
    graph: &mut Graph<A>,
    name: &str,
    objects: &[Option<ObjNo>],
) -> Result<bool, Fault> {
    let [Some(no), rest @ ..] = objects else {
        panic!(rt; "{name} of none");
    };
    match name {
        "root" => graph.add_root(*no),
        "plain" => graph.add_object(*no, rest),
        "soft" => referred(rt, graph, *no, Strength::Soft, rest),
        "weak" => referred(rt, graph, *no, Strength::Weak, rest),
        "phantom" => referred(rt, graph, *no, Strength::Phantom, rest),
        _ => panic!(rt; "no call: {name}"),
    }
}

/// Adds a reference, of which a call names the referent, and then the fields.
fn referred<A: Allocator + Copy>(
    rt: &impl Abort,
    graph: &mut Graph<A>,
    no: ObjNo,
    strength: Strength,
    objects: &[Option<ObjNo>],
) -> Result<bool, Fault> {
    let [referent, fields @ ..] = objects else {
        panic!(rt; "no referent of {no}");
    };
    graph.add_reference(no, strength, *referent, fields)
}

fn answer<A: Allocator + Copy>(
    rt: &impl Abort,
    alloc: Global,
    graph: &mut Graph<A>,
    call: &str,
) -> Told {
    let Some((name, text)) = call.split_once(' ') else {
        return Told::All(strengths(alloc, graph));
    };
    let objects = named(rt, text);
    match objects.as_slice() {
        [Some(no)] if name == "strength" => Told::Reach(strength_of(alloc, graph, *no)),
        objects => Told::Added(added(rt, graph, name, objects)),
    }
}

/// Makes the calls of a story in turn, each of which has its answer.
fn agree<A: Allocator + Copy>(rt: &impl Abort, alloc: Global, graph: &mut Graph<A>, story: &str) {
    for row in story.split(BREAKS) {
        if let Some((call, want)) = parts_of(row) {
            let told = answer(rt, alloc, graph, call);
            let mut printed = ArrayString::<ROOM>::new();
            let is_whole = write!(printed, "{told}").is_ok();
            assert!(rt; is_whole && printed.as_str() == want, "{row}: {told}");
        }
    }
}

/// Makes them in a new graph.
fn agree_in_new(rt: &impl Abort, alloc: Global, story: &str) {
    agree(rt, alloc, &mut Graph::new(alloc), story);
}
