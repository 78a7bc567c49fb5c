//! Lists of thousands of references, of eight workers at once.

ghost use Rattle.std.specs.Prelude.{◌<◌};

use crate::clearing::Bench;
use crate::objects::config;
use crate::steps::{Steps, agree, agree_with};
use ref_base::{Config, ObjNo};
use ref_clear::Heap;
use ref_mark::Marker;
use std::process::Abort;
use std::test::Fail;

/// Eight workers, and the cells that they look at.
const fn eight_workers() -> Config {
    Config {
        workers: 8,
        ..config(4_096)
    }
}

/// Object 1, then 4,095 weak references to it, each with one field that holds the one made before it, the newest in
/// slot 1; nothing else holds any. In a cycle the workers scan them in turn, the newest first, and object 1 dies.
fn find_all<S: Steps>(rt: &impl Abort, subject: &mut S)
    requires { S.is_ready subject.old }
    ensures { S.is_ready subject.new }
{
    agree(rt, subject, "m0 new s0 0 : object 1");
    for no in 2..4_097_u32 {
        let story =
            "m0 weak s2 s0 q0 1 : object $; m0 store s2 0 s1 : ok; m0 copy s1 s2 : object $";
        agree_with(rt, subject, story, &[no, no]);
    }
    let story = "m0 drop s0 : ok; m0 drop s2 : ok; begin 1 normal : cycle 1";
    agree(rt, subject, story);
    for turn in 0..4_095_u32 {
        agree_with(
            rt,
            subject,
            "w$ scan : scanned $",
            &[turn % 8, 4_096 - turn],
        );
    }
    agree(rt, subject, "endmark : doomed 1");
}

#[test]
fn what_a_worker_finds_links_to_what_it_finds_next(rt: HostRuntime) -> Result<(), Fail> {
    let mut heap = Marker::new(rt.alloc(), eight_workers(), 1)?;
    find_all(&rt, &mut heap);
    // Each links to the one that its worker found next, which has a number less by 8.
    for no in 2..4_097_u32 {
        let want = if no < 10 { 0 } else { no - 8 };
        assert!(rt; heap.objects().link_of(ObjNo(no)) == want, "reference {no}");
    }
    Ok(())
}

/// The worker clears what it found, in the order of its scans.
fn clear_all(rt: &impl Abort, bench: &mut Bench, worker: u32)
    requires { worker < 8 }
{
    for place in 0..512_u32 {
        let turn = 8 * place + worker;
        if turn < 4_095 {
            agree_with(
                rt,
                bench,
                "w$ clearnext : cleared $",
                &[worker, 4_096 - turn],
            );
        }
    }
    agree_with(rt, bench, "w$ clearnext : none", &[worker]);
}

/// The worker hands on what it cleared, in the same order.
fn hand_all(rt: &impl Abort, bench: &mut Bench, worker: u32)
    requires { worker < 8 }
{
    for place in 0..512_u32 {
        let turn = 8 * place + worker;
        if turn < 4_095 {
            let story = "w$ hand : notice $ q0 cycle 1 w$; m0 release : ok";
            agree_with(rt, bench, story, &[worker, 4_096 - turn, worker]);
        }
    }
    agree_with(rt, bench, "w$ hand : none", &[worker]);
}

#[test]
fn eight_workers_hand_on_in_the_order_of_their_scans(rt: HostRuntime) -> Result<(), Fail> {
    let heap = Heap::new(rt.alloc(), eight_workers(), 1)?;
    let mut bench = Bench::new(rt.alloc(), heap);
    find_all(&rt, &mut bench);
    for worker in 0..8_u32 {
        clear_all(&rt, &mut bench, worker);
    }
    agree(&rt, &mut bench, "endclear : ok");
    for worker in 0..8_u32 {
        hand_all(&rt, &mut bench, worker);
    }
    bench.end();
    Ok(())
}
