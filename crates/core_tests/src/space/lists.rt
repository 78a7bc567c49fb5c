//! Lists that are filled at their end and taken from at their front, call by call.

use ref_base::ObjNo;
use ref_space::{Entry, Worklist};
use std::test::Fail;

/// A call of a list, with its answer.
#[derive(Clone, Copy)]
enum Call {
    Push(u32),
    /// There is no room for one more.
    Full,
    /// The number of the object that is taken.
    TakeFirst(Option<u32>),
    Len(usize),
    Clear,
}

/// Makes a call: whether it is answered so.
fn is_answered(list: &mut Worklist, call: Call) -> bool {
    match call {
        Call::Push(no) => {
            if list.len() >= list.room() {
                return false;
            }
            list.push(Entry::of(ObjNo(no)));
            true
        }
        Call::Full => list.len() >= list.room(),
        Call::TakeFirst(want) => list.take_first().map(|entry| entry.no.0) == want,
        Call::Len(want) => list.len() == want && list.is_empty() == (want == 0),
        Call::Clear => {
            list.clear();
            true
        }
    }
}

#[test]
fn a_list_gives_first_what_was_put_in_first(rt: HostRuntime) -> Result<(), Fail> {
    let story = [
        Call::Len(0),
        Call::TakeFirst(None),
        Call::Push(5),
        Call::Push(2),
        Call::Push(9),
        Call::Full,
        Call::TakeFirst(Some(5)),
        Call::Len(2),
        // What was taken made room, also at the end of the memory.
        Call::Push(7),
        Call::Full,
        Call::TakeFirst(Some(2)),
        Call::TakeFirst(Some(9)),
        Call::Push(3),
        Call::TakeFirst(Some(7)),
        Call::Len(1),
        Call::TakeFirst(Some(3)),
        Call::Len(0),
        Call::TakeFirst(None),
        Call::Push(8),
        Call::Push(6),
        Call::Clear,
        Call::TakeFirst(None),
        Call::Push(1),
        Call::TakeFirst(Some(1)),
    ];
    let mut list = Worklist::new(rt.alloc(), 3)?;
    assert!(rt; list.room() == 3);
    for (row, &call) in story.iter().enumerate() {
        assert!(rt; is_answered(&mut list, call), "row {row}");
    }
    Ok(())
}
