//! Notices to put into queues.

use ref_base::{Config, Fault, MutNo, ObjNo, Parcel, QueueNo, SlotNo, SpanRule, Strength};
use ref_clear::{Heap, Notice};
use ref_objects::Start;
use std::alloc::Global;

/// The queue that all notices are for.
pub const QUEUE: QueueNo = QueueNo(0);

/// The heap of each measure.
pub const CONFIG: Config = Config {
    mutators: 8,
    workers: 1,
    queues: 1,
    cells: 4_096,
    span: 0,
    rule: SpanRule::Fixed,
};

/// How many notices one heap gives.
const FROM_ONE_HEAP: u32 = 4_000;

/// A notice that may be dropped: its heap is gone.
pub struct Letter(Notice);

impl Letter {
    pub fn new(notice: Notice) -> Self {
        Letter(notice)
    }

    pub fn into_notice(self) -> Notice {
        let Letter(notice) = self;
        notice
    }
}

impl Drop for Letter {
    fn drop(self) {
        let Letter(notice) = self;
        notice.into_hold().leak();
    }
}

impl Parcel for Letter {
    ghost object_of = { λ l. l.0.hold.object };

    ghost queue_of = { λ l. l.0.queue };

    fn obj(&self) -> ObjNo {
        self.0.obj()
    }

    fn queue(&self) -> QueueNo {
        self.0.queue()
    }
}

/// As many notices as `count`, each of another reference.
pub fn letters(alloc: Global, first: u32, count: u32) -> Result<Vec<Letter>, Fault> {
    let mut letters = Vec::new(alloc);
    let mut left = count;
    let mut obj = first;
    for _ in 0..=count / FROM_ONE_HEAP {
        let some = left.min(FROM_ONE_HEAP);
        let start = Start {
            obj,
            ..Start::FIRST
        };
        add_letters(alloc, start, some, &mut letters)?;
        left -= some;
        obj = obj.saturating_add(CONFIG.cells);
    }
    Ok(letters)
}

/// Adds the notices of so many weak references of one heap.
fn add_letters(
    alloc: Global,
    start: Start,
    count: u32,
    letters: &mut Vec<Letter>,
) -> Result<(), Fault> {
    let mut heap = Heap::starting(alloc, CONFIG, 0, start)?;
    unhook_all(&mut heap, count, letters)
}

/// Makes so many weak references to one object, and adds the notice of each.
fn unhook_all(heap: &mut Heap, count: u32, letters: &mut Vec<Letter>) -> Result<(), Fault> {
    let (mutator, target, slot) = (MutNo(0), SlotNo(0), SlotNo(1));
    heap.alloc_obj(mutator, target, 0)?;
    for _ in 0..count {
        heap.alloc_ref(mutator, slot, Strength::Weak, target, Some(QUEUE), 0)?;
        if let Some(notice) = heap.unhook(mutator, slot)? {
            add(letters, notice)?;
        }
    }
    Ok(())
}

fn add(letters: &mut Vec<Letter>, notice: Notice) -> Result<(), Fault> {
    match letters.push(Letter(notice)) {
        Ok(()) => Ok(()),
        Err(_) => Err(Fault::NoMemory),
    }
}
