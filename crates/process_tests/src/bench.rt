//! A processor with two finders, and the runner of stories.
//!
//! A reference is told by its number, as `r0` is the first that was made. `-` is none. `mark 21 22` has the marker mark
//! these objects alone, `relocate 21>31` tells that object 21 is 31 now, and `spend` spends the first notice that is
//! held. `queues` has the calls of its two queues, and `batches` those of what is handed on at once.

mod batches;
mod queues;

use crate::moved::Forwards;
use crate::told::{MOST_ROOTS, Told};
use rationed::Rationed;
use ref_base::{QueueNo, Strength, Urgency, WorkerNo};
use ref_process::{
    Finder, Handed, Handle, Key, Looked, Marks, Notice, NoticeQueue, ProcessFault, Processor,
};
use std::alloc::{Allocator, Global};
use std::collections::VecDeque;
use std::process::Abort;

/// Objects below this may be marked.
pub const OBJECTS: usize = 64;

/// More requests than any call makes.
const MOST_REQUESTS: u64 = 100;

/// What stands between rows.
const BREAKS: [char; 2] = ['\n', ';'];

/// Which objects are marked.
#[derive(Clone, Copy)]
pub struct Flags {
    flags: [bool; OBJECTS],
}

impl Marks for Flags {
    ghost use Rattle.std.specs.Prelude.{slice_index_or, false};

    ghost marked = { λ s h. slice_index_or s.flags h false };

    fn is_marked(&self, handle: Handle) -> bool {
        match self.flags.get(handle.0 as usize) {
            Some(flag) => *flag,
            None => false,
        }
    }
}

/// A processor with two finders, the keys that it gave, the notices that are held, and what is marked.
#[derive(Drop)]
pub struct Bench<A: Allocator> {
    // Of keys, notices and texts.
    own: Global,
    alloc: A,
    processor: Processor<A>,
    first: Finder<A>,
    second: Finder<A>,
    queue_0: NoticeQueue<A>,
    queue_1: NoticeQueue<A>,
    keys: Vec<Key>,
    notices: VecDeque<Notice>,
    marked: Flags,
}

impl<A: Allocator + Copy + Drop> Bench<A> {
    /// Nothing is made or marked. Soft references are kept for this span.
    pub fn new(own: Global, alloc: A, span: u64) -> Self {
        Bench {
            own,
            alloc,
            processor: Processor::new(alloc, span),
            first: Finder::new(alloc, WorkerNo(0)),
            second: Finder::new(alloc, WorkerNo(1)),
            queue_0: NoticeQueue::new(alloc, QueueNo(0)),
            queue_1: NoticeQueue::new(alloc, QueueNo(1)),
            keys: Vec::new(own),
            notices: VecDeque::new(own),
            marked: Flags {
                flags: [false; OBJECTS],
            },
        }
    }

    /// What is marked.
    pub fn marked(&self) -> Flags {
        self.marked
    }

    /// Makes the call of a row.
    pub fn call(&mut self, rt: &impl Abort, text: &str) -> Told {
        let (name, rest) = text.split_once(' ').unwrap_or((text, ""));
        match name {
            "add" => self.add(rt, rest),
            "mark" => self.mark(rt, rest),
            "begin" => self.begin(rt, rest),
            "end_mark" => done(self.processor.end_mark()),
            "end_clear" => done(self.processor.end_clear()),
            "spend" => self.spend(),
            "roots" => self.roots(),
            "relocate" => self.relocate(rt, rest),
            "take_made" | "look" | "hand" => self.of_finder(name, rest == "0"),
            "put" | "poll" | "close" | "end" => self.of_queue(name, rest == "0"),
            "next_queue" => self.next_queue(rest == "0"),
            "hand_batch" => self.hand_batch(rt, rest),
            _ => self.of_key(rt, name, rest),
        }
    }

    fn add(&mut self, rt: &impl Abort, rest: &str) -> Told {
        let (owner, rest) = rest.split_once(' ').unwrap_or((rest, ""));
        let (strength, rest) = rest.split_once(' ').unwrap_or((rest, ""));
        let (referent, queue) = rest.split_once(' ').unwrap_or((rest, ""));
        let strength = match strength {
            "soft" => Strength::Soft,
            "weak" => Strength::Weak,
            _ => Strength::Phantom,
        };
        let queue = match queue.parse::<u32>() {
            Ok(queue) => Some(QueueNo(queue)),
            Err(_) => None,
        };
        let referent = Handle(number(rt, referent));
        match self
            .processor
            .add(handle(rt, owner), strength, referent, queue)
        {
            Ok(added) => {
                let count = self.keys.len();
                assert!(rt; self.keys.push(added.key).is_ok(), "no room for keys");
                Told::Added(count, added.found)
            }
            Err(fault) => Told::Refused(fault),
        }
    }

    fn mark(&mut self, rt: &impl Abort, rest: &str) -> Told {
        let mut flags = [false; OBJECTS];
        for object in rest.split(' ') {
            if !object.is_empty() {
                let place = number(rt, object) as usize;
                assert!(rt; place < OBJECTS, "no object: {object}");
                flags[place] = true;
            }
        }
        self.marked = Flags { flags };
        Told::Done
    }

    fn begin(&mut self, rt: &impl Abort, rest: &str) -> Told {
        let (now, urgency) = rest.split_once(' ').unwrap_or((rest, ""));
        let urgency = match urgency {
            "urgent" => Urgency::Urgent,
            _ => Urgency::Normal,
        };
        match self.processor.begin(number(rt, now), urgency) {
            Ok(cycle) => Told::Cycle(cycle),
            Err(fault) => Told::Refused(fault),
        }
    }

    fn spend(&mut self) -> Told {
        let Some(notice) = self.notices.pop_front() else {
            return Told::Nothing;
        };
        match self.processor.spend(notice) {
            Ok(owner) => Told::Owner(owner),
            Err(_) => Told::Unknown,
        }
    }

    fn roots(&self) -> Told {
        match self.processor.roots(self.alloc) {
            Ok(owners) => {
                let mut roots = [0; MOST_ROOTS];
                let mut count = 0;
                for owner in &owners {
                    if count < MOST_ROOTS {
                        roots[count] = owner.0;
                        count += 1;
                    }
                }
                Told::Roots(roots, count)
            }
            Err(fault) => Told::Refused(fault),
        }
    }

    fn relocate(&mut self, rt: &impl Abort, rest: &str) -> Told {
        done(self.processor.relocate(&Forwards::of(rt, rest)))
    }

    fn of_finder(&mut self, name: &str, is_first: bool) -> Told {
        match name {
            "take_made" => done(self.take_made(is_first)),
            "look" => {
                let looked = self.look(is_first);
                self.looked(looked)
            }
            _ => {
                let handed = self.hand(is_first);
                self.handed(handed)
            }
        }
    }

    fn take_made(&mut self, is_first: bool) -> Result<(), ProcessFault> {
        if is_first {
            self.processor.take_made(&mut self.first)
        } else {
            self.processor.take_made(&mut self.second)
        }
    }

    fn look(&mut self, is_first: bool) -> Result<Option<Looked>, ProcessFault> {
        let marked = self.marked;
        if is_first {
            self.processor.clear_next(&mut self.first, &marked)
        } else {
            self.processor.clear_next(&mut self.second, &marked)
        }
    }

    fn hand(&mut self, is_first: bool) -> Handed {
        if is_first {
            self.processor.hand(&mut self.first)
        } else {
            self.processor.hand(&mut self.second)
        }
    }

    fn looked(&self, looked: Result<Option<Looked>, ProcessFault>) -> Told {
        match looked {
            Ok(Some(Looked::Cleared(key))) => Told::Cleared(self.number_of(key)),
            Ok(Some(Looked::Kept(key))) => Told::Kept(self.number_of(key)),
            Ok(Some(Looked::Skipped(key))) => Told::Skipped(self.number_of(key)),
            Ok(None) => Told::Nothing,
            Err(fault) => Told::Refused(fault),
        }
    }

    fn handed(&mut self, handed: Handed) -> Told {
        match handed {
            Handed::Notice(notice) => self.hold(notice),
            Handed::Already(key) => Told::Already(self.number_of(key)),
            Handed::Nothing => Told::Nothing,
        }
    }

    // Holds a notice, behind those that are held.
    fn hold(&mut self, notice: Notice) -> Told {
        let told = Told::Notice(self.number_of(notice.key()), notice.queue(), notice.cause());
        match self.notices.push_back(notice) {
            Ok(()) => told,
            Err(_) => Told::Unknown,
        }
    }

    fn of_key(&mut self, rt: &impl Abort, name: &str, rest: &str) -> Told {
        let (first, second) = rest.split_once(' ').unwrap_or((rest, ""));
        let marked = self.marked;
        match name {
            "found" => {
                let key = self.key(rt, second);
                let found = match first {
                    "0" => self.processor.found(&mut self.first, key),
                    _ => self.processor.found(&mut self.second, key),
                };
                match found {
                    Ok(found) => Told::Found(found),
                    Err(fault) => Told::Refused(fault),
                }
            }
            "get" => {
                let key = self.key(rt, first);
                match self.processor.get(key, &marked) {
                    Ok(got) => Told::Read(got),
                    Err(fault) => Told::Refused(fault),
                }
            }
            "refers_to" => {
                let key = self.key(rt, first);
                match self.processor.refers_to(key, handle(rt, second), &marked) {
                    Ok(is) => Told::Is(is),
                    Err(fault) => Told::Refused(fault),
                }
            }
            _ => self.of_key_alone(rt, name, first),
        }
    }

    fn of_key_alone(&mut self, rt: &impl Abort, name: &str, key: &str) -> Told {
        let key = self.key(rt, key);
        let marked = self.marked;
        match name {
            "clear" => done(self.processor.clear(key, &marked)),
            "enqueue" => match self.processor.enqueue(key, &marked) {
                Ok(Some(notice)) => self.hold(notice),
                Ok(None) => Told::Nothing,
                Err(fault) => Told::Refused(fault),
            },
            "dead" => done(self.processor.dead(key)),
            "owner" => match self.processor.owner(key) {
                Ok(owner) => Told::Owner(owner),
                Err(fault) => Told::Refused(fault),
            },
            _ => Told::Unknown,
        }
    }

    // The key of a reference by its number, as `r0`.
    fn key(&self, rt: &impl Abort, text: &str) -> Key {
        let (_, place) = text.split_once('r').unwrap_or(("", ""));
        match self.keys.get(number(rt, place) as usize) {
            Some(key) => *key,
            None => panic!(rt; "no reference: {text}"),
        }
    }

    // The number of a key.
    fn number_of(&self, key: Key) -> usize {
        for (place, other) in self.keys.iter().enumerate() {
            if *other == key {
                return place;
            }
        }
        self.keys.len()
    }
}

fn done(answer: Result<(), ProcessFault>) -> Told {
    match answer {
        Ok(()) => Told::Done,
        Err(fault) => Told::Refused(fault),
    }
}

/// The number that the text is.
pub fn number(rt: &impl Abort, text: &str) -> u64 {
    match text.parse::<u64>() {
        Ok(number) => number,
        Err(_) => panic!(rt; "no number: {text}"),
    }
}

fn handle(rt: &impl Abort, text: &str) -> Option<Handle> {
    match text {
        "-" => None,
        _ => Some(Handle(number(rt, text))),
    }
}

/// The call of a row and its answer, unless the row is a comment or says nothing.
pub fn parts_of(row: &str) -> Option<(&str, &str)> {
    let row = row.trim();
    if row.is_empty() || row.starts_with('#') {
        return None;
    }
    let (call, want) = row.split_once(" : ").unwrap_or((row, ""));
    Some((call, want.trim()))
}

// Whether it prints so.
fn is_so(own: Global, told: Told, want: &str) -> bool {
    match format!(in own; "{told}") {
        Ok(text) => text.as_str() == want,
        Err(_) => false,
    }
}

/// Makes the calls of a story in turn, each of which has its answer.
pub fn agree<A: Allocator + Copy + Drop>(rt: &impl Abort, bench: &mut Bench<A>, story: &str) {
    for row in story.split(BREAKS) {
        if let Some((call, want)) = parts_of(row) {
            let told = bench.call(rt, call);
            assert!(rt; is_so(bench.own, told, want), "{row}: {told}");
        }
    }
}

/// Makes them where each request for memory of the calls of this name is refused in turn, before they are made whole.
/// Answers how many were refused.
pub fn agree_scarcely<A: Allocator + Copy + Drop>(
    rt: &impl Abort,
    memory: &Rationed<Global>,
    bench: &mut Bench<A>,
    name: &str,
    story: &str,
) -> u64 {
    let mut refusals: u64 = 0;
    for row in story.split(BREAKS) {
        if let Some((call, want)) = parts_of(row) {
            if call.starts_with(name) {
                refusals = refusals.saturating_add(made_scarcely(rt, memory, bench, call, want));
            } else {
                agree(rt, bench, row);
            }
        }
    }
    refusals
}

// Makes a call with each of its requests refused in turn, and then whole. Answers how many were refused.
fn made_scarcely<A: Allocator + Copy + Drop>(
    rt: &impl Abort,
    memory: &Rationed<Global>,
    bench: &mut Bench<A>,
    call: &str,
    want: &str,
) -> u64 {
    for met in 0..MOST_REQUESTS {
        memory.ration(met);
        let told = bench.call(rt, call);
        if !memory.lift() {
            assert!(rt; is_so(bench.own, told, want), "{call}: {told}");
            return met;
        }
        assert!(rt;
            is_so(bench.own, told, "NoMemory"),
            "{call}: {told} with {met} requests met"
        );
    }
    panic!(rt; "no end: {call}")
}
