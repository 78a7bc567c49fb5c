//! Each kind of step and of reply by numbers, against worked traces; and what a handle of nothing, a short list, a
//! short table and numbers that are no step are answered.

mod judging;
mod logs;
mod stories;

use crate::answer::{Answer, RefReply};
use crate::handle::RefWorld;
use crate::step::{RefStep, step_of};
use crate::{
    RefConfig, ref_world_end, ref_world_is_there, ref_world_new, ref_world_play, ref_world_step,
};
use ref_base::{Cause, Done, Fault, Nos, ObjNo, Outs, QueueNo, Reply, WorkerNo};
use std::alloc::Global;
use std::process::Abort;
use std::test::Fail;
use stories::{BATCHES, CYCLES, HANDS, KINDS, MOVES, REPLIES, STEPS};

/// Two mutators, two workers, two queues and 128 cells.
const TWO_OF_EACH: RefConfig = RefConfig {
    mutators: 2,
    workers: 2,
    queues: 2,
    cells: 128,
    span: 10,
    scaled: 0,
};

/// What stands in a list before a call.
const BLANK: u64 = 1_000_000;

/// What stands in a reply before a call.
const NO_REPLY: RefReply = RefReply {
    kind: 1000,
    fault: 1000,
    object: 1000,
    queue: 1000,
    worker: 1000,
    count: 1000,
    number: 1000,
};

/// The numbers of a row: of its step, of its reply, and those that the reply lists, with how many these are. And those
/// of its verdict and of the answer that this names: all 0 where it is legal.
#[derive(Drop)]
struct Row<'a> {
    text: &'a str,
    asks: [u64; 6],
    told: [u64; 7],
    lists: [u64; 8],
    count: usize,
    says: [u64; 6],
    instead: [u64; 7],
}

/// Reads the numbers of a text, with a space between each two, as far as there is room: how many.
fn read(text: &str, numbers: &mut [u64]) -> usize {
    let mut count = 0usize;
    for (place, word) in numbers.iter_mut().zip(text.trim().split(' ')) {
        if let Ok(number) = word.parse::<u64>() {
            *place = number;
            count = count.wrapping_add(1);
        }
    }
    count
}

/// The row of a line.
fn row_of<'a>(rt: &impl Abort, line: &'a str) -> Row<'a> {
    let mut row = Row {
        text: line,
        asks: [0; 6],
        told: [0; 7],
        lists: [BLANK; 8],
        count: 0,
        says: [0; 6],
        instead: [0; 7],
    };
    let mut parts = line.split('|');
    row.text = parts.next().unwrap_or("").trim();
    let asks = read(parts.next().unwrap_or(""), &mut row.asks);
    let told = read(parts.next().unwrap_or(""), &mut row.told);
    assert!(rt; asks == 6 && told == 7, "no row: {line}");
    row.count = read(parts.next().unwrap_or(""), &mut row.lists);
    let _said = read(parts.next().unwrap_or(""), &mut row.says);
    let _named = read(parts.next().unwrap_or(""), &mut row.instead);
    row
}

/// A number of a row, all of which are below 2^32.
fn low(number: u64) -> u32 {
    u32::try_from(number).unwrap_or(u32::MAX)
}

/// The step of these numbers: its kind, by, a, b, c and n. Its clock is 7.
fn step_from(numbers: &[u64; 6]) -> RefStep {
    RefStep {
        kind: low(numbers[0]),
        by: low(numbers[1]),
        a: low(numbers[2]),
        b: low(numbers[3]),
        c: low(numbers[4]),
        n: low(numbers[5]),
        clock: 7,
    }
}

/// The numbers of a reply, in the order of its fields.
fn numbers_in(reply: &RefReply) -> [u64; 7] {
    [
        u64::from(reply.kind),
        u64::from(reply.fault),
        u64::from(reply.object),
        u64::from(reply.queue),
        u64::from(reply.worker),
        u64::from(reply.count),
        reply.number,
    ]
}

/// A handle with a world of two of each.
fn made(rt: &impl Abort, alloc: Global) -> RefWorld {
    let mut world = RefWorld::empty();
    let fault = ref_world_new(alloc, &mut world, &TWO_OF_EACH);
    assert!(rt; fault == 0, "{fault}");
    world
}

/// Ends the world of a handle, which then has none.
fn ended(rt: &impl Abort, alloc: Global, world: RefWorld) {
    let mut world = world;
    ref_world_end(alloc, &mut world);
    let left = world.into_box(alloc);
    assert!(rt; left.is_none());
}

/// Asks a step, with room for eight numbers: the reply's numbers, and the list.
fn ask(alloc: Global, world: &mut RefWorld, asks: &[u64; 6]) -> ([u64; 7], [u64; 8]) {
    let mut reply = NO_REPLY;
    let mut list = [BLANK; 8];
    ref_world_step(alloc, world, &step_from(asks), &mut reply, &mut list);
    (numbers_in(&reply), list)
}

/// Does the steps of a story in turn in a new world. Each is the step that its line spells, has its reply, and lists
/// just its numbers.
fn agree(rt: &impl Abort, alloc: Global, world: &mut RefWorld, story: &str) -> Result<(), Fail> {
    for line in story.trim().split('\n') {
        let row = row_of(rt, line);
        let (call, _reply) = row.text.split_once(" : ").unwrap_or(("", ""));
        is_spelled(rt, alloc, &row.asks, call)?;
        let (told, list) = ask(alloc, world, &row.asks);
        assert!(rt; told == row.told, "{}: {told:?}", row.text);
        assert!(rt; list == row.lists, "{}: {list:?}", row.text);
    }
    Ok(())
}

/// The step of these numbers is spelled so, and numbers that are none aren't spelled.
fn is_spelled(rt: &impl Abort, alloc: Global, asks: &[u64; 6], call: &str) -> Result<(), Fail> {
    let spelled = match step_of(&step_from(asks)) {
        Some(step) => step.to_string(alloc)?,
        None => String::new(alloc),
    };
    assert!(rt; spelled.as_str() == call, "{call}: {}", spelled.as_str());
    Ok(())
}

#[test]
fn each_kind_of_step_and_reply(rt: HostRuntime) -> Result<(), Fail> {
    let alloc = rt.alloc();
    for story in [STEPS, HANDS, CYCLES, BATCHES] {
        let mut world = made(&rt, alloc);
        let agreed = agree(&rt, alloc, &mut world, story);
        ended(&rt, alloc, world);
        agreed?;
    }
    Ok(())
}

/// Of 65 objects three stay, on two pages, and are selected.
#[test]
fn objects_that_move(rt: HostRuntime) -> Result<(), Fail> {
    let alloc = rt.alloc();
    let mut world = made(&rt, alloc);
    for object in 1..66u64 {
        let slot = match object {
            1 => 0,
            2 => 2,
            _ => 1,
        };
        let (told, _list) = ask(alloc, &mut world, &[0, 0, slot, 0, 0, 1]);
        assert!(rt; told == [64, 0, object, 0, 0, 0, 0], "{object}: {told:?}");
    }
    let agreed = agree(&rt, alloc, &mut world, MOVES);
    ended(&rt, alloc, world);
    agreed
}

#[test]
fn each_kind_is_its_step(rt: HostRuntime) -> Result<(), Fail> {
    for line in KINDS.trim().split('\n') {
        let (kind, call) = line.split_once('|').unwrap_or(("", ""));
        let mut asks = [0, 1, 2, 3, 4, 6];
        assert!(rt; read(kind, &mut asks[..1]) == 1, "no kind: {line}");
        is_spelled(&rt, rt.alloc(), &asks, call.trim())?;
    }
    Ok(())
}

/// The notices of references 2 and 6.
fn two_notices(objects: Nos) -> Reply {
    Reply::Notices {
        objects,
        queue: QueueNo(1),
        cycle: 1,
        worker: WorkerNo(1),
    }
}

/// The notice of reference 2.
fn notice(cause: Cause) -> Reply {
    Reply::Notice {
        object: ObjNo(2),
        queue: QueueNo(1),
        cause,
    }
}

/// A reply of each kind, in the order of their numbers.
fn each_reply(objects: Nos, outs: Outs) -> [Reply; 26] {
    [
        Reply::Object(ObjNo(1)),
        Reply::Null,
        Reply::Done,
        Reply::Refers(true),
        Reply::Refers(false),
        notice(Cause::Cycle(1, WorkerNo(1))),
        notice(Cause::Own),
        two_notices(objects),
        Reply::Nothing,
        Reply::Added(0),
        Reply::Already,
        Reply::Closed,
        Reply::Outs(outs),
        Reply::Took(ObjNo(2)),
        Reply::TookSome(objects),
        Reply::Empty,
        Reply::Cycle(1),
        Reply::Scanned(ObjNo(2)),
        Reply::Doomed(1),
        Reply::Cleared(ObjNo(2)),
        Reply::Kept(ObjNo(2)),
        Reply::Skipped(ObjNo(2)),
        Reply::Swept(1),
        Reply::Selected(3),
        Reply::Moved(ObjNo(1)),
        Reply::Refused(Fault::NoSuchActor),
    ]
}

/// What each kind of reply is, as a trace spells it.
#[test]
fn each_reply_has_its_kind(rt: HostRuntime) -> Result<(), Fail> {
    let mut objects = Nos::new();
    objects.push(ObjNo(2));
    objects.push(ObjNo(6));
    let mut outs = Outs::new(1);
    outs.push(Done::Already);
    outs.push(Done::Added);
    assert!(rt; REPLIES.trim().split('\n').count() == 26);
    for (reply, line) in each_reply(objects, outs)
        .iter()
        .zip(REPLIES.trim().split('\n'))
    {
        let (number, spelled) = line.split_once('|').unwrap_or(("", ""));
        let mut kind = [0];
        assert!(rt; read(number, &mut kind) == 1, "no kind: {line}");
        assert!(rt;
            u64::from(Answer::Replied(*reply).numbers().kind) == kind[0],
            "{line}"
        );
        let text = reply.to_string(rt.alloc())?;
        assert!(rt;
            text.as_str() == spelled.trim(),
            "{line}: {}",
            text.as_str()
        );
    }
    Ok(())
}

/// The first numbers behind the kinds, and one far off.
#[test]
fn other_numbers_are_no_step(rt: HostRuntime) {
    let alloc = rt.alloc();
    let mut world = made(&rt, alloc);
    for kind in [19, 38, 64, 4_294_967_295] {
        let (told, list) = ask(alloc, &mut world, &[kind, 0, 0, 0, 0, 0]);
        assert!(rt; told == [90, 0, 0, 0, 0, 0, 0], "{kind}: {told:?}");
        assert!(rt; list == [BLANK; 8], "{kind}: {list:?}");
    }
    ended(&rt, alloc, world);
}

#[test]
fn a_handle_of_nothing(rt: HostRuntime) {
    let alloc = rt.alloc();
    let mut world = RefWorld::empty();
    let (told, list) = ask(alloc, &mut world, &[0; 6]);
    assert!(rt; told == [91, 0, 0, 0, 0, 0, 0], "{told:?}");
    assert!(rt; list == [BLANK; 8], "{list:?}");
    let mut replies = [NO_REPLY; 2];
    let steps = [step_from(&[0; 6]); 2];
    assert!(rt; ref_world_play(alloc, &mut world, &steps, &mut replies, &mut list_of_none()) == 2);
    assert!(rt; replies[0].kind == 91 && replies[1].kind == 91);
    ended(&rt, alloc, world);
}

/// No room for a number.
fn list_of_none() -> [u64; 0] {
    []
}

/// Object 5 is referred to by a reference alone, so that a cycle frees it. A handle of nothing has no object.
#[test]
fn objects_that_are_there(rt: HostRuntime) -> Result<(), Fail> {
    let alloc = rt.alloc();
    let mut none = RefWorld::empty();
    assert!(rt; ref_world_is_there(alloc, &mut none, 1) == 0);
    let mut world = made(&rt, alloc);
    let agreed = agree(&rt, alloc, &mut world, CYCLES);
    for (object, is_there) in [
        (0, 0),
        (1, 0),
        (2, 1),
        (3, 0),
        (5, 0),
        (8, 1),
        (9, 1),
        (10, 0),
    ] {
        let told = ref_world_is_there(alloc, &mut world, object);
        assert!(rt; told == is_there, "{object}: {told}");
    }
    ended(&rt, alloc, none);
    ended(&rt, alloc, world);
    agreed
}

/// The next object's number tells which world the handle has: a configuration outside the limits leaves it as it was.
#[test]
fn new_worlds(rt: HostRuntime) {
    let alloc = rt.alloc();
    let mut world = RefWorld::empty();
    let bad = RefConfig {
        workers: 9,
        ..TWO_OF_EACH
    };
    let new = &[0; 6];
    assert!(rt; ref_world_new(alloc, &mut world, &bad) == Fault::BadConfig.number());
    assert!(rt; ask(alloc, &mut world, new).0 == [91, 0, 0, 0, 0, 0, 0]);
    assert!(rt; ref_world_new(alloc, &mut world, &TWO_OF_EACH) == 0);
    assert!(rt; ask(alloc, &mut world, new).0 == [64, 0, 1, 0, 0, 0, 0]);
    assert!(rt; ref_world_new(alloc, &mut world, &bad) == Fault::BadConfig.number());
    assert!(rt; ask(alloc, &mut world, new).0 == [64, 0, 2, 0, 0, 0, 0]);
    assert!(rt; ref_world_new(alloc, &mut world, &TWO_OF_EACH) == 0);
    assert!(rt; ask(alloc, &mut world, new).0 == [64, 0, 1, 0, 0, 0, 0]);
    ended(&rt, alloc, world);
}

/// The steps of the batches' story, in a table. What is behind them is no step.
fn table(rt: &impl Abort) -> [RefStep; 40] {
    let mut steps = [step_from(&[19, 0, 0, 0, 0, 0]); 40];
    for (step, line) in steps.iter_mut().zip(BATCHES.trim().split('\n')) {
        *step = step_from(&row_of(rt, line).asks);
    }
    steps
}

/// Refused steps stand in its middle and at its end, and behind them numbers that are no step.
#[test]
fn a_play_is_its_steps(rt: HostRuntime) {
    let alloc = rt.alloc();
    let mut world = made(&rt, alloc);
    let mut replies = [NO_REPLY; 41];
    let mut list = [BLANK; 20];
    let did = ref_world_play(alloc, &mut world, &table(&rt), &mut replies, &mut list);
    assert!(rt; did == 40, "{did}");
    for (reply, line) in replies.iter().zip(BATCHES.trim().split('\n')) {
        assert!(rt; numbers_in(reply) == row_of(&rt, line).told, "{line}");
    }
    assert!(rt; replies[39].kind == 90 && replies[40].kind == NO_REPLY.kind);
    let lists = [
        2, 6, 4, 73, 0, 73, 1, 73, 0, 2, 6, 74, 0, 74, 0, 74, 0, 75, 0, BLANK,
    ];
    assert!(rt; list == lists, "{list:?}");
    ended(&rt, alloc, world);
}

/// With room for twenty replies the last step is worker 0's put of its batch. Worker 1's isn't done.
#[test]
fn a_short_table_and_a_short_list(rt: HostRuntime) {
    let alloc = rt.alloc();
    let mut world = made(&rt, alloc);
    let mut replies = [NO_REPLY; 20];
    let mut list = [BLANK; 4];
    let did = ref_world_play(alloc, &mut world, &table(&rt), &mut replies, &mut list);
    assert!(rt; did == 20, "{did}");
    assert!(rt; numbers_in(&replies[19]) == [76, 0, 0, 0, 0, 2, 0]);
    assert!(rt; list == [2, 6, 4, 73], "{list:?}");
    let (told, list) = ask(alloc, &mut world, &[28, 1, 0, 0, 0, 0]);
    assert!(rt; told == [76, 0, 0, 0, 0, 1, 0], "{told:?}");
    assert!(rt;
        list == [73, 0, BLANK, BLANK, BLANK, BLANK, BLANK, BLANK],
        "{list:?}"
    );
    let mut reply = NO_REPLY;
    let mut short = [BLANK; 1];
    let polls = step_from(&[15, 1, 0, 0, 1, 32]);
    ref_world_step(alloc, &mut world, &polls, &mut reply, &mut short);
    assert!(rt;
        numbers_in(&reply) == [78, 0, 0, 0, 0, 2, 0] && short == [2],
        "{short:?}"
    );
    ended(&rt, alloc, world);
}
