//! What is made whole or not at all: lists, pages, heaps and worlds of each layer.

use super::{MOST, Trial, refuse_each};
use rationed::Rationed;
use ref_base::{Batch, Config, Fault, SpanRule};
use ref_clear::Heap;
use ref_mark::Marker;
use ref_objects::{Objects, Start};
use ref_space::{Pages, Table, Worklist};
use ref_world::World;
use std::alloc::{Allocator, Global};
use std::process::Abort;

/// Two of each actor, three queues, and cells that fill two pages.
const CONFIG: Config = Config {
    mutators: 2,
    workers: 2,
    queues: 3,
    cells: 128,
    span: 10,
    rule: SpanRule::Fixed,
};

/// Where nothing starts by itself.
const LATER: Start = Start {
    obj: 7,
    cycle: 8,
    page: 9,
};

/// What is made, and what it is called.
const EACH: [(&str, Made); 12] = [
    ("Batch::new", Made::Batch),
    ("Worklist::new", Made::Worklist),
    ("Pages::new", Made::Pages),
    ("Table::new", Made::Table),
    ("Objects::new", Made::Objects),
    ("Objects::starting", Made::ObjectsLater),
    ("Marker::new", Made::Marker),
    ("Marker::starting", Made::MarkerLater),
    ("Heap::new", Made::Heap),
    ("Heap::starting", Made::HeapLater),
    ("World::new", Made::World),
    ("World::starting", Made::WorldLater),
];

#[derive(Clone, Copy)]
enum Made {
    Batch,
    Worklist,
    Pages,
    Table,
    Objects,
    ObjectsLater,
    Marker,
    MarkerLater,
    Heap,
    HeapLater,
    World,
    WorldLater,
}

/// Makes it, and drops it again.
fn make<A: Allocator + Copy>(alloc: A, made: Made) -> Result<(), Fault> {
    match made {
        Made::Batch => drop(Batch::<u32, A>::new(alloc)?),
        Made::Worklist => drop(Worklist::new(alloc, 3).map_err(|_| Fault::NoMemory)?),
        Made::Pages => drop(Pages::new(alloc, 2, 7).map_err(|_| Fault::NoMemory)?),
        Made::Table => drop(Table::new(alloc, 65, 32, 7)?),
        Made::Objects => drop(Objects::new(alloc, CONFIG, 1)?),
        Made::ObjectsLater => drop(Objects::starting(alloc, CONFIG, 1, LATER)?),
        Made::Marker => drop(Marker::new(alloc, CONFIG, 1)?),
        Made::MarkerLater => drop(Marker::starting(alloc, CONFIG, 1, LATER)?),
        Made::Heap => Heap::new(alloc, CONFIG, 1)?.end(),
        Made::HeapLater => Heap::starting(alloc, CONFIG, 1, LATER)?.end(),
        Made::World => World::new(alloc, CONFIG)?.end(),
        Made::WorldLater => World::starting(alloc, CONFIG, LATER)?.end(),
    }
    Ok(())
}

/// Something of this kind, made again and again.
#[derive(Drop)]
struct Making<'a> {
    memory: &'a Rationed<Global>,
    name: &'static str,
    made: Made,
}

impl<'a> Trial for Making<'a> {
    fn call(&self) -> &'static str {
        self.name
    }

    fn is_made(&mut self, rt: &impl Abort) -> bool {
        let answer = make(self.memory, self.made);
        assert!(rt; answer == Ok(()) || answer == Err(Fault::NoMemory));
        answer.is_ok()
    }

    fn stays(&self, _rt: &impl Abort) {}
}

#[test]
fn what_finds_no_memory_is_not_made(rt: HostRuntime) {
    let memory = Rationed::new(rt.alloc());
    for (name, made) in EACH {
        let mut trial = Making {
            memory: &memory,
            name,
            made,
        };
        let requests = refuse_each(&rt, &memory, &mut trial);
        assert!(rt;
            0 < requests && requests < MOST,
            "{name} makes {requests} requests"
        );
    }
}
