//! Memory for tests, of which a request is refused on purpose.
#![tactic(auto)]

use std::alloc::{AllocError, Allocator};
use std::cell::Cell;

/// How many requests are met, and how many came.
#[derive(Clone, Copy)]
struct Ration {
    met: u64,
    asked: u64,
}

impl Ration {
    // No test asks so often.
    const ENDLESS: Ration = Ration {
        met: u64::MAX,
        asked: 0,
    };
}

/// An allocator that passes each request on until it is rationed, and then so many: each later one is refused. What it
/// gave can be given back at any time. A container grows by a request for a new block, so each growth is a request.
///
/// Requests are refused from one on, not one alone: what is refused more may be asked for less, and would be given.
pub struct Rationed<B: Allocator> {
    inner: B,
    ration: Cell<Ration>,
}

impl<B: Allocator> Rationed<B> {
    /// Passes all requests on to this one.
    pub fn new(inner: B) -> Self {
        Rationed {
            inner,
            ration: Cell::new(Ration::ENDLESS),
        }
    }

    /// From now on, so many requests are passed on, and each later one is refused.
    pub fn ration(&self, met: u64) {
        self.ration.set(Ration { met, asked: 0 });
    }

    /// All requests are passed on again. Answers whether one was refused since the last call of `ration`.
    pub fn lift(&self) -> bool {
        let Ration { met, asked } = self.ration.replace(Ration::ENDLESS);
        asked > met
    }
}

impl<B: Allocator> Drop for Rationed<B> {
    fn drop(self) {
        let Self {
            inner: _,
            ration: _,
        } = self;
    }
}

// Counts a request, and answers whether it is to be refused.
fn is_refused(ration: &Cell<Ration>) -> bool {
    let Ration { met, asked } = ration.get();
    let asked = asked.saturating_add(1);
    ration.set(Ration { met, asked });
    asked > met
}

unsafe impl<B: Allocator> Allocator for Rationed<B> {
    ghost dealloc_token = { λ heap ty ptr. B.dealloc_token heap.inner ty ptr };

    fn allocate(&self, size: usize, align: usize) -> Result<*mut u8, AllocError> {
        if is_refused(&self.ration) {
            return Err(AllocError);
        }
        self.inner.allocate(size, align)
    }

    unsafe fn deallocate(&self, ptr: *mut u8, size: usize, align: usize) {
        self.inner.deallocate(ptr, size, align);
    }
}
