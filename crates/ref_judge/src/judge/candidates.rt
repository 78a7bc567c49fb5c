//! Answers that are tried in place of an illegal one.

use super::Judge;
use super::queueing::was_put;
use crate::Order;
use crate::line::Line;
use crate::survivors::{doomed_count, object_behind};
use ref_base::{
    Actor, Done, Fault, MOST_IN_BATCH, Nos, ObjNo, Outs, PlainStep, QueueNo, Reply, Step, WorkerNo,
};
use std::alloc::Allocator;

/// How many answers are tried at most.
pub(super) const MOST_CANDIDATES: u32 = 4;

impl<A: Allocator + Copy> Judge<A> {
    // The answers to try of a step that isn't refused, where a collector has a choice, from number 0 on. `None` is
    // behind the last. Takes the time of the heap.
    pub(super) fn candidate(&self, step: Step, at: u32) -> Option<Reply> {
        match step {
            Step::Plain(step) => self.plain_candidate(step, at),
            Step::Put { actor } => self.put_candidate(actor, at),
            Step::Puts { actor } if at == 0 => Some(Reply::Outs(self.outs_of(actor))),
            Step::Poll { queue, .. } => self.poll_candidate(queue, at),
            Step::Polls { queue, max, .. } => self.polls_candidate(queue, max, at),
            _ => None,
        }
    }

    fn plain_candidate(&self, step: PlainStep, at: u32) -> Option<Reply> {
        match step {
            PlainStep::Scan { .. } => self.scan_candidate(at),
            PlainStep::EndMark => self.end_mark_candidate(at),
            PlainStep::ClearNext { worker } => self.look_candidate(worker, at),
            PlainStep::EndClear => end_clear_candidate(at),
            PlainStep::Select if at == 0 => Some(Reply::Selected(0)),
            PlainStep::MoveNext { .. } if at == 0 => Some(Reply::Nothing),
            PlainStep::EndMove if at == 0 => Some(Reply::Done),
            _ => None,
        }
    }

    fn scan_candidate(&self, at: u32) -> Option<Reply> {
        match at {
            0 => Some(Reply::Nothing),
            1 => Some(Reply::Scanned(self.first_left()?)),
            _ => None,
        }
    }

    fn end_mark_candidate(&self, at: u32) -> Option<Reply> {
        match at {
            0 => {
                let count = doomed_count(&self.objects, self.born, self.scanned);
                Some(Reply::Doomed(count))
            }
            1 => Some(Reply::Refused(Fault::GreyLeft)),
            _ => None,
        }
    }

    fn look_candidate(&self, worker: WorkerNo, at: u32) -> Option<Reply> {
        if at == 0 {
            return Some(Reply::Nothing);
        }
        let no = self.workers.get(worker.0 as usize)?.first_left()?;
        match at {
            1 => Some(Reply::Cleared(no)),
            2 => Some(Reply::Kept(no)),
            3 => Some(Reply::Skipped(no)),
            _ => None,
        }
    }

    fn put_candidate(&self, actor: Actor, at: u32) -> Option<Reply> {
        match at {
            0 => Some(Reply::Added(self.put_before(actor))),
            1 => Some(Reply::Already),
            2 => Some(Reply::Closed),
            _ => None,
        }
    }

    fn poll_candidate(&self, queue: QueueNo, at: u32) -> Option<Reply> {
        match at {
            0 => match self.next_of(queue, 1).as_slice().first() {
                Some(no) => Some(Reply::Took(*no)),
                None => Some(Reply::Empty),
            },
            1 => Some(Reply::Closed),
            _ => None,
        }
    }

    fn polls_candidate(&self, queue: QueueNo, max: u32, at: u32) -> Option<Reply> {
        match at {
            0 => {
                let taken = self.next_of(queue, max as usize);
                if taken.as_slice().is_empty() {
                    Some(Reply::Empty)
                } else {
                    Some(Reply::TookSome(taken))
                }
            }
            1 => Some(Reply::Closed),
            _ => None,
        }
    }

    // The least object that is left to scan, if one is.
    fn first_left(&self) -> Option<ObjNo> {
        let mut next = self.objects.first_from(ObjNo(0));
        for _object in 0..self.objects.object_count() {
            let no = next?;
            if self.is_left(no) {
                return Some(no);
            }
            next = object_behind(&self.objects, no);
        }
        None
    }

    // What becomes of each notice of the hand, where no memory is refused.
    fn outs_of(&self, actor: Actor) -> Outs {
        // A name for each use.
        let (counted, read, held) = (actor, actor, actor);
        let mut outs = Outs::new(self.put_before(counted));
        let Some(line) = self.lines.get(self.hands.queue_of(read).0 as usize) else {
            return outs;
        };
        let objects = self.hands.objects_of(held);
        let mut added = Nos::new();
        for place in 0..objects.as_slice().len() {
            let no = objects.as_slice()[place];
            let done = became(was_put(&self.objects, added.as_slice(), no), line.is_closed);
            if done.is_added() {
                added.push(no);
            }
            outs.push(done);
        }
        outs
    }

    // What a poll of so many may take from this queue.
    fn next_of(&self, queue: QueueNo, max: usize) -> Nos {
        match self.lines.get(queue.0 as usize) {
            Some(line) => next_in(self.profile.order, line, max),
            None => Nos::new(),
        }
    }
}

fn end_clear_candidate(at: u32) -> Option<Reply> {
    match at {
        0 => Some(Reply::Done),
        1 => Some(Reply::Refused(Fault::ClearingLeft)),
        _ => None,
    }
}

// What becomes of a notice, where no memory is refused.
fn became(was_put: bool, is_closed: bool) -> Done {
    if was_put {
        Done::Already
    } else if is_closed {
        Done::Closed
    } else {
        Done::Added
    }
}

// What a poll of so many may take from this queue: of any order those that were put in first.
fn next_in<A: Allocator + Copy>(order: Order, line: &Line<A>, max: usize) -> Nos {
    let stands = line.standing.len();
    let mut taken = Nos::new();
    for place in 0..max.min(stands).min(MOST_IN_BATCH) {
        let at = match order {
            Order::First | Order::Any => place,
            Order::Last => stands - 1 - place,
        };
        taken.push(line.standing[at]);
    }
    taken
}
