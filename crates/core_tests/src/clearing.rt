//! A whole heap: the steps that it knows, what it hands over, and what is asked of it.

mod hands;
mod memory;
mod stories;

use crate::hand::{keep, leak};
use crate::steps::{Steps, Told};
use ref_base::{Batch, Fault, HeapStep, MOST_IN_BATCH, Nos, Parcel, Reply, Step};
use ref_clear::{Heap, Notice};
use ref_objects::Hold;
use ref_world::{HeapCall, HeapReply, apply_heap};
use std::alloc::{Allocator, Global};
use std::process::Abort;

/// The heap of a story, and its hand, which has one hold at most.
pub struct Bench<A: Allocator = Global> {
    pub heap: Heap<A>,
    pub hand: Option<Hold>,
    /// Where batches have their memory from.
    alloc: A,
}

impl<A: Allocator + Copy> Bench<A> {
    /// A heap, and a hand that is empty.
    pub fn new(alloc: A, heap: Heap<A>) -> Self {
        let hand = None;
        Bench { heap, hand, alloc }
    }

    /// The heap ends, and what is still held is given up.
    pub fn end(self) {
        let Bench {
            heap,
            hand,
            alloc: _alloc,
        } = self;
        heap.end();
        leak(hand);
    }

    // Asks the heap. A hold that it gives goes into the hand. Unknown is told where a batch has not just what its reply
    // tells.
    fn asked(&mut self, step: HeapCall<A>) -> Told {
        let (reply, hold) = match apply_heap(&mut self.heap, step) {
            HeapReply::Told(reply) => return Told::Reply(reply.reply()),
            HeapReply::Handed(reply, batch) => return told_with(reply.reply(), emptied(batch)),
            HeapReply::Notice(notice) => {
                let told = Reply::Notice {
                    object: notice.obj(),
                    queue: notice.queue(),
                    cause: notice.cause(),
                };
                (told, notice.into_hold())
            }
            HeapReply::Held(hold) => (Reply::Object(hold.obj()), hold),
            HeapReply::Back(fault, hold) => (Reply::Refused(fault), hold),
        };
        keep(&mut self.hand, hold);
        Told::Reply(reply)
    }

    /// The hand has the hold of this object of the heap of this number, or nothing.
    pub fn has(&self, rt: &impl Abort, want: Option<(u32, u64)>) {
        let held = match &self.hand {
            Some(hold) => Some((hold.obj().0, hold.heap_no())),
            None => None,
        };
        assert!(rt; held == want, "{held:?}, and not {want:?}");
    }
}

/// The references of the notices in a batch, which are given up with it.
fn emptied<A: Allocator>(batch: Batch<Notice, A>) -> Nos {
    let mut batch = batch;
    let mut numbers = Nos::new();
    while let Some(notice) = batch.take_first() {
        if numbers.as_slice().len() < MOST_IN_BATCH {
            numbers.push(notice.obj());
        }
        notice.into_hold().leak();
    }
    batch.end();
    numbers
}

/// The reply, if it tells just these references.
fn told_with(reply: Reply, given: Nos) -> Told {
    let is_told = match reply {
        Reply::Notices { objects, .. } => objects == given,
        _ => given == Nos::new(),
    };
    if is_told {
        Told::Reply(reply)
    } else {
        Told::Unknown
    }
}

/// An adopt and a release take what the hand has.
impl<A: Allocator + Copy> Steps for Bench<A> {
    fn step(&mut self, step: Step) -> Told {
        let hand_empty = Told::Reply(Reply::Refused(Fault::HandEmpty));
        match step {
            Step::Plain(step) => self.asked(HeapStep::Plain(step)),
            Step::Unhook { mutator, reference } => {
                self.asked(HeapStep::Unhook { mutator, reference })
            }
            Step::Hand { worker } => self.asked(HeapStep::Hand { worker }),
            Step::Hands { worker, max } => match Batch::new(self.alloc) {
                Ok(batch) => self.asked(HeapStep::Hands { worker, max, batch }),
                Err(fault) => Told::Reply(Reply::Refused(fault)),
            },
            Step::Adopt { mutator, slot } => match self.hand.take() {
                Some(hold) => self.asked(HeapStep::Adopt {
                    mutator,
                    slot,
                    hold,
                }),
                None => hand_empty,
            },
            Step::Release { actor: _ } => match self.hand.take() {
                Some(hold) => self.asked(HeapStep::Release { hold }),
                None => hand_empty,
            },
            _ => Told::Unknown,
        }
    }
}
