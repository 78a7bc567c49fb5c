//! Buffers outside the heap.

use std::alloc::{AllocError, Global};
use std::sync::Arc;
use std::sync::atomic::{AtomicU64, Ordering};

/// How many buffers there are.
pub const BUFFERS: u32 = 8;

const FREE: u64 = 0;

const TAKEN: u64 = 1;

/// A buffer, which is free or taken. Any thread may give it back.
#[derive(Drop)]
pub struct Buffer {
    state: Arc<AtomicU64>,
}

impl Buffer {
    /// A buffer that is taken.
    pub fn taken(alloc: Global) -> Result<Self, AllocError> {
        let state = Arc::new(alloc, AtomicU64::new(TAKEN))?;
        Ok(Buffer { state })
    }

    /// A handle of this buffer for one owner more.
    pub fn share(&self) -> Result<Self, AllocError> {
        let state = Arc::try_clone(&self.state)?;
        Ok(Buffer { state })
    }

    pub fn give_back(&self) {
        self.state.store(FREE, Ordering::SeqCst);
    }

    fn is_free(&self) -> bool {
        self.state.load(Ordering::SeqCst) == FREE
    }
}

/// How many of the buffers are free.
pub fn count_free(pool: &[Buffer]) -> usize {
    pool.iter().filter(|buffer| buffer.is_free()).count()
}
