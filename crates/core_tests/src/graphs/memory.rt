//! Graphs and searches whose memory runs out.

use super::agree;
use crate::scarce::{MOST, Trial, refuse_each};
use crate::steps::filled;
use rationed::Rationed;
use ref_base::{Fault, ObjNo, Reach, Strength};
use ref_graph::{Graph, strength_of, strengths};
use std::alloc::{Allocator, Global};
use std::process::Abort;

/// What adds an object, whose one field leads to 0, or makes it a root.
#[derive(Clone, Copy)]
enum Adding {
    Root,
    Plain,
    /// A weak reference to 0.
    Weak,
}

/// A call that adds to a graph.
#[derive(Drop)]
struct Add<'a> {
    graph: Graph<&'a Rationed<Global>>,
    alloc: Global,
    adding: Adding,
    no: u32,
    /// How many objects there are without it.
    count: u32,
    /// How strongly its object is reachable without it.
    reach: Result<Reach, Fault>,
}

/// A call of a graph where there is nothing yet.
fn made_ready<'a>(alloc: Global, memory: &'a Rationed<Global>) -> Add<'a> {
    Add {
        graph: Graph::new(memory),
        alloc,
        adding: Adding::Root,
        no: 0,
        count: 0,
        reach: Err(Fault::NoSuchObject),
    }
}

impl<'a> Trial for Add<'a> {
    fn call(&self) -> &'static str {
        match self.adding {
            Adding::Root => "Graph::add_root",
            Adding::Plain => "Graph::add_object",
            Adding::Weak => "Graph::add_reference",
        }
    }

    fn is_made(&mut self, rt: &impl Abort) -> bool {
        let (no, to_0) = (ObjNo(self.no), Some(ObjNo(0)));
        let answer = match self.adding {
            Adding::Root => self.graph.add_root(no),
            Adding::Plain => self.graph.add_object(no, &[to_0]),
            Adding::Weak => self.graph.add_reference(no, Strength::Weak, to_0, &[to_0]),
        };
        assert!(rt; answer == Ok(true) || answer == Err(Fault::NoMemory));
        answer == Ok(true)
    }

    fn stays(&self, rt: &impl Abort) {
        are(rt, self.alloc, &self.graph, self.count);
        let reach = strength_of(self.alloc, &self.graph, ObjNo(self.no));
        assert!(rt; reach == self.reach);
    }
}

/// The graph has so many objects.
fn are<A: Allocator + Copy>(rt: &impl Abort, alloc: Global, graph: &Graph<A>, count: u32) {
    match strengths(alloc, graph) {
        Ok(listed) => assert!(rt; listed.len() == count as usize, "{count} of them"),
        Err(fault) => panic!(rt; "{fault}"),
    }
}

/// The number of the object at this place: every second is one that a graph looks up by hashing.
fn number_at(place: u32) -> u32 {
    if place % 2 == 0 {
        place
    } else {
        1_048_576 | place
    }
}

#[test]
fn an_add_without_memory_changes_nothing(rt: HostRuntime) {
    let memory = Rationed::new(rt.alloc());
    let mut trial = made_ready(rt.alloc(), &memory);
    let mut requests = 0u64;
    for place in 0..60 {
        trial.no = number_at(place);
        trial.count = place;
        // Every third is a reference.
        trial.adding = if trial.no % 3 == 2 {
            Adding::Weak
        } else {
            Adding::Plain
        };
        requests = requests.saturating_add(refuse_each(&rt, &memory, &mut trial));
    }
    assert!(rt; 1 < requests && requests < MOST, "{requests} requests");
}

#[test]
fn a_root_without_memory_changes_nothing(rt: HostRuntime) {
    let memory = Rationed::new(rt.alloc());
    let mut trial = made_ready(rt.alloc(), &memory);
    trial.reach = Ok(Reach::Unreachable);
    let mut requests = 0u64;
    for place in 0..60 {
        trial.no = number_at(place);
        let story = filled(&rt, "plain $ : new", &[trial.no]);
        agree(&rt, rt.alloc(), &mut trial.graph, story.as_str());
        trial.count = place + 1;
        requests = requests.saturating_add(refuse_each(&rt, &memory, &mut trial));
    }
    assert!(rt; 1 < requests && requests < MOST, "{requests} requests");
}

/// Adds plain objects from 0 on, until there is no memory for one more. How many were added.
fn fill<A: Allocator + Copy>(graph: &mut Graph<A>) -> u32 {
    for no in 0..1_000u32 {
        if graph.add_object(ObjNo(no), &[]) == Err(Fault::NoMemory) {
            return no;
        }
    }
    1_000
}

#[test]
fn want_of_memory_is_told_last(rt: HostRuntime) {
    let memory = Rationed::new(rt.alloc());
    let mut graph = Graph::new(&memory);
    memory.ration(8);
    let count = fill(&mut graph);
    assert!(rt; 0 < count && count < 1_000, "{count} were added");
    are(&rt, rt.alloc(), &graph, count);
    let story = "
        weak $ - : refused NoMemory; plain $ - - - - - - - - - : refused BadField
        # That the number is there is told first.
        plain 0 : known";
    let story = filled(&rt, story, &[count, count]);
    agree(&rt, rt.alloc(), &mut graph, story.as_str());
}

/// A search of a graph of 200 objects, each with a field that leads to the next, from a root on.
#[derive(Drop)]
struct Search<'a> {
    graph: Graph,
    memory: &'a Rationed<Global>,
    is_of_all: bool,
}

impl<'a> Trial for Search<'a> {
    fn call(&self) -> &'static str {
        if self.is_of_all {
            "strengths"
        } else {
            "strength_of"
        }
    }

    fn is_made(&mut self, rt: &impl Abort) -> bool {
        let answer = if self.is_of_all {
            strengths(self.memory, &self.graph).map(|listed| listed.len() == 200)
        } else {
            strength_of(self.memory, &self.graph, ObjNo(199)).map(|reach| reach == Reach::Strong)
        };
        assert!(rt; answer == Ok(true) || answer == Err(Fault::NoMemory));
        answer.is_ok()
    }

    fn stays(&self, _rt: &impl Abort) {}
}

#[test]
fn a_search_without_memory_is_refused(rt: HostRuntime) {
    let memory = Rationed::new(rt.alloc());
    let mut trial = Search {
        graph: Graph::new(rt.alloc()),
        memory: &memory,
        is_of_all: false,
    };
    agree(&rt, rt.alloc(), &mut trial.graph, "root 0 : new");
    for no in 0..200 {
        let story = filled(&rt, "plain $ $ : new", &[no, no + 1]);
        agree(&rt, rt.alloc(), &mut trial.graph, story.as_str());
    }
    for is_of_all in [false, true] {
        trial.is_of_all = is_of_all;
        let requests = refuse_each(&rt, &memory, &mut trial);
        assert!(rt; 1 < requests && requests < MOST, "{requests} requests");
    }
    // That there is no such object takes no memory to tell.
    memory.ration(0);
    assert!(rt; strength_of(&memory, &trial.graph, ObjNo(200)) == Err(Fault::NoSuchObject));
}
