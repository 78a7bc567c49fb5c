//! Pages whose memory runs out.

use super::Call::{Address, Choose, Empty, Fill, Full, Give, Place, Renumber};
use super::agree;
use bumpalo::Bump;
use rationed::Rationed;
use ref_space::Pages;
use std::alloc::{AllocError, Global};
use std::process::Abort;
use std::test::Fail;

/// An arena that takes no more.
fn limited(alloc: Global) -> Result<Bump, AllocError> {
    let memory = Bump::try_with_capacity(alloc, 1_024)?;
    memory.set_allocation_limit(Some(memory.allocated_bytes()));
    Ok(memory)
}

/// What an arena has beyond so many bytes: just these are left then.
fn all_but<'a>(memory: &'a Bump, left: usize) -> Result<Vec<u8, &'a Bump>, AllocError> {
    Vec::with_capacity(memory, memory.chunk_capacity().saturating_sub(left))
}

/// Whether there is memory for two pages, where so many bytes are left.
fn is_enough(rt: &impl Abort, alloc: Global, left: usize) -> Result<bool, Fail> {
    let memory = limited(alloc)?;
    let _rest = all_but(&memory, left)?;
    assert!(rt; memory.chunk_capacity() == left, "so much is left");
    Ok(Pages::new(&memory, 2, 7).is_ok())
}

#[test]
fn a_page_takes_32_bytes(rt: HostRuntime) -> Result<(), Fail> {
    // The bytes that are left, and whether they are enough for two pages.
    let table = [(0, false), (48, false), (63, false), (64, true), (80, true)];
    for (row, &(left, want)) in table.iter().enumerate() {
        let enough = is_enough(&rt, rt.alloc(), left)?;
        assert!(rt; enough == want, "row {row}");
    }
    Ok(())
}

#[test]
fn after_new_no_call_takes_memory(rt: HostRuntime) -> Result<(), Fail> {
    let memory = Rationed::new(rt.alloc());
    let mut pages = Pages::new(&memory, 2, 7)?;
    memory.ration(0);
    let story = [
        Fill(0, 0, 64),
        Fill(1, 0, 64),
        Full,
        Give(0, 17),
        Place(&[(0, 17)]),
        Empty(0, 1, 64),
        Empty(1, 1, 64),
        Choose(Ok(2)),
        Renumber,
        Address(&[(1, 10)]),
    ];
    agree(&rt, "after new", &mut pages, &story);
    assert!(rt; !memory.lift(), "no request is refused");
    Ok(())
}
