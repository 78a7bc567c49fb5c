//! Which rule an illegal row breaks.

use super::Judge;
use crate::marks::is_any_left;
use crate::rule::Rule;
use crate::survivors::{broken_by_edges, dooms_so_many};
use ref_base::{Fault, Nos, Outs, PlainStep, Reply, Step, WorkerNo};
use std::alloc::Allocator;

impl<A: Allocator + Copy> Judge<A> {
    // The rule that an illegal row breaks, of a step that isn't refused, where a collector has a choice. Of any other
    // row what it answers means nothing. Takes the time of the heap.
    pub(super) fn rule_of(&self, step: Step, reply: Reply) -> Rule {
        match step {
            Step::Plain(step) => self.plain_rule(step, reply),
            Step::Put { .. } => put_rule(reply),
            Step::Puts { actor } => puts_rule(self.hands.objects_of(actor), reply),
            Step::Poll { .. } | Step::Polls { .. } => poll_rule(reply),
            _ => Rule::Form,
        }
    }

    fn plain_rule(&self, step: PlainStep, reply: Reply) -> Rule {
        match step {
            PlainStep::Scan { .. } => self.scan_rule(reply),
            PlainStep::EndMark => self.end_mark_rule(reply),
            PlainStep::ClearNext { worker } => self.look_rule(worker, reply),
            PlainStep::EndClear => self.end_clear_rule(reply),
            PlainStep::MoveNext { .. } => move_rule(reply),
            _ => Rule::Form,
        }
    }

    fn scan_rule(&self, reply: Reply) -> Rule {
        match reply {
            Reply::Scanned(no) if self.is_left(no) => Rule::NoneLeft,
            Reply::Scanned(_) => Rule::ScanObject,
            Reply::Nothing => Rule::SomeLeft,
            _ => Rule::Form,
        }
    }

    fn end_mark_rule(&self, reply: Reply) -> Rule {
        match reply {
            Reply::Refused(Fault::GreyLeft) if self.is_any_left() => Rule::NoneLeft,
            Reply::Refused(Fault::GreyLeft) => Rule::NothingLeft,
            Reply::Doomed(_) if !self.may_be_none => Rule::SomeLeft,
            Reply::Doomed(count) => self.doomed_rule(count),
            _ => Rule::Form,
        }
    }

    fn doomed_rule(&self, count: u32) -> Rule {
        if !dooms_so_many(&self.objects, self.born, self.scanned, count) {
            return Rule::DoomedCount;
        }
        if !self.are_roots_spared() {
            return Rule::DoomedRoot;
        }
        broken_by_edges(&self.objects, self.mark_end())
    }

    fn look_rule(&self, worker: WorkerNo, reply: Reply) -> Rule {
        let Some(worker) = self.workers.get(worker.0 as usize) else {
            return Rule::Form;
        };
        match reply {
            Reply::Cleared(no) | Reply::Kept(no) | Reply::Skipped(no) => match worker.find(no) {
                Some(_) => Rule::LookAnswer,
                None => Rule::LookObject,
            },
            Reply::Nothing if worker.has_cleared() => Rule::ClearedLeft,
            Reply::Nothing => Rule::ReferenceLeft,
            _ => Rule::Form,
        }
    }

    fn end_clear_rule(&self, reply: Reply) -> Rule {
        match reply {
            Reply::Done if self.some_left => Rule::ReferenceLeft,
            Reply::Done => Rule::ClearedLeft,
            Reply::Refused(Fault::ClearingLeft) => Rule::NoReferenceLeft,
            _ => Rule::Form,
        }
    }

    // Whether an object is left to scan.
    fn is_any_left(&self) -> bool {
        is_any_left(
            &self.objects,
            self.profile.keeps_more,
            self.born,
            self.scanned,
        )
    }
}

fn move_rule(reply: Reply) -> Rule {
    match reply {
        Reply::Moved(_) => Rule::MoveObject,
        _ => Rule::Form,
    }
}

fn put_rule(reply: Reply) -> Rule {
    match reply {
        Reply::Added(_) | Reply::Already | Reply::Closed | Reply::Refused(Fault::NoMemory) =>
            Rule::Put,
        _ => Rule::Form,
    }
}

fn puts_rule(objects: Nos, reply: Reply) -> Rule {
    match reply {
        Reply::Outs(outs) if tells_of_each(objects, outs) => Rule::Put,
        Reply::Outs(_) => Rule::PutCount,
        _ => Rule::Form,
    }
}

// Whether a batch tells of each notice of the hand, up to the first for which memory is refused.
fn tells_of_each(objects: Nos, outs: Outs) -> bool {
    let told = outs.as_slice();
    match told.iter().position(|done| done.is_refused()) {
        Some(place) => place + 1 == told.len() && told.len() <= objects.as_slice().len(),
        None => told.len() == objects.as_slice().len(),
    }
}

fn poll_rule(reply: Reply) -> Rule {
    match reply {
        Reply::Took(_) | Reply::TookSome(_) | Reply::Empty | Reply::Closed => Rule::Poll,
        _ => Rule::Form,
    }
}
