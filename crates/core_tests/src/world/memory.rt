//! Worlds whose memory runs out.

use super::{CONFIG, world_of};
use crate::rows::outs;
use crate::scarce::MOST;
use crate::steps::{M, Steps, Told, agree, is_row, make_in, step_in};
use rationed::Rationed;
use ref_base::{Actor, Config, Done, Fault, Reply, Row, Step, WorkerNo};
use ref_world::{Trace, World, run};
use std::alloc::{AllocError, Allocator, Global};
use std::process::Abort;
use std::test::Fail;

/// As `CONFIG`, with two queues.
const TWO_QUEUES: Config = Config {
    queues: 2,
    ..CONFIG
};

/// Reference 2 is in the hand of mutator 0.
const IN_HAND: &'static str =
    "m0 new s0 0 : object 1; m0 weak s1 s0 q0 0 : object 2; m0 unhook s1 : notice 2 q0 own";

/// The steps of a story of one line.
fn steps_of<A: Allocator>(
    rt: &impl Abort,
    alloc: A,
    story: &str,
) -> Result<Vec<Step, A>, AllocError> {
    let mut steps = Vec::new(alloc);
    for row in story.split(';') {
        steps.push(step_in(rt, row.trim()))?;
    }
    Ok(steps)
}

/// These rows are a story's of one line, one for each of its steps.
fn are_rows(rt: &impl Abort, rows: &[Row], story: &str) {
    assert!(rt; rows.len() == story.split(';').count(), "so many rows");
    for (row, text) in rows.iter().zip(story.split(';')) {
        is_row(rt, row.step, row.reply, text.trim());
    }
}

/// A list of steps that is run with so many requests for memory met, behind those that world and list themselves make.
/// Without room for the rows, world and steps come back, with no step done. Answers whether that was so.
fn is_run_refused(
    rt: &impl Abort,
    memory: &Rationed<Global>,
    met: u64,
    story: &str,
) -> Result<bool, Fail> {
    let steps = steps_of(rt, memory, story)?;
    let world = world_of(rt, memory, CONFIG);
    let call = "run";
    memory.ration(met);
    match run(memory, world, steps) {
        Ok(Trace { rows, world }) => {
            assert!(rt; !memory.lift(), "{call} answers in place of the error");
            are_rows(rt, &rows, story);
            world.end();
            Ok(false)
        }
        Err((fault, mut world, steps)) => {
            assert!(rt; memory.lift(), "{call} found memory");
            assert!(rt; fault == Fault::NoMemory);
            assert!(rt; steps.len() == story.split(';').count(), "so many steps");
            for (step, row) in steps.iter().zip(story.split(';')) {
                assert!(rt; *step == step_in(rt, row.trim()), "{row}");
            }
            // Each step is answered as in a new world.
            agree(rt, &mut world, story);
            world.end();
            Ok(true)
        }
    }
}

#[test]
fn a_run_without_room_gives_world_and_steps_back(rt: HostRuntime) -> Result<(), Fail> {
    let memory = Rationed::new(rt.alloc());
    let mut requests = 0;
    for met in 0..MOST {
        if !is_run_refused(&rt, &memory, met, IN_HAND)? {
            break;
        }
        requests = met + 1;
    }
    assert!(rt; requests == 1, "run asks once for all its rows");
    Ok(())
}

#[test]
fn a_put_without_memory_leaves_its_notice_in_the_hand(rt: HostRuntime) {
    let memory = Rationed::new(rt.alloc());
    let mut world = world_of(&rt, &memory, CONFIG);
    agree(&rt, &mut world, IN_HAND);
    let put = Step::Put {
        actor: Actor::Mutator(M),
    };
    let mut requests = 0;
    for met in 0..MOST {
        memory.ration(met);
        let reply = world.step(put);
        if !memory.lift() {
            is_row(&rt, put, reply, "m0 put : added 0");
            break;
        }
        is_row(&rt, put, reply, "m0 put : refused 3 NoMemory");
        // It stays in the hand.
        let story = "
            m0 unhook s2 : refused 23 HandFull; m0 poll q0 : refused 23 HandFull
            m0 unhook s1 : refused 23 HandFull";
        agree(&rt, &mut world, story);
        requests = met + 1;
    }
    assert!(rt;
        1 < requests && requests < MOST,
        "a put makes {requests} requests"
    );
    let story = "m0 poll q0 : took 2; m0 adopt s3 : object 2";
    agree(&rt, &mut world, story);
    world.end();
}

/// Two references are enqueued, and the first put finds no memory, but the second does.
#[test]
fn a_refused_put_succeeds_once_there_is_memory(rt: HostRuntime) {
    let memory = Rationed::new(rt.alloc());
    let mut world = world_of(&rt, &memory, CONFIG);
    let enqueued = "
        m0 new s0 0 : object 1; m0 weak s1 s0 q0 0 : object 2; m0 weak s2 s0 q0 0 : object 3
        m0 unhook s1 : notice 2 q0 own";
    agree(&rt, &mut world, enqueued);
    memory.ration(0);
    agree(&rt, &mut world, "m0 put : refused 3 NoMemory");
    assert!(rt; memory.lift(), "a request was refused");
    let rest = "
        m0 unhook s2 : refused 23 HandFull; m0 put : added 0; m0 poll q0 : took 2; m0 release : ok
        m0 poll q0 : empty; m0 release : refused 24 HandEmpty; m0 poll q0 : empty";
    agree(&rt, &mut world, rest);
    world.end();
}

/// Cells that fill two pages: so there are four.
const TWO_PAGES: Config = Config {
    cells: 128,
    ..CONFIG
};

/// Objects move twice, in a world with object 1 in slot 0 and 65, the first of the second page, in slot 1, where the 63
/// between are garbage.
const MOVES: &'static str = "
    m0 weak s2 s1 q0 0 : object 66; m0 store s0 0 s2 : ok
    # There is no other page but one with few objects.
    select : refused 18 NoRoom; begin 0 normal : cycle 1; w0 scan : scanned 1; w0 scan : scanned 65
    w0 scan : scanned 66; endmark : doomed 63; endclear : ok; w0 sweep : swept 63; endsweep : ok
    select : selected 3
    # These two move what they answer.
    m0 get s3 s2 : object 65; m0 load s4 s0 0 : object 66; endmove : refused 17 MovesLeft
    w0 move : moved 1; w0 move : none; endmove : ok; select : refused 12 WrongPhase
    # The next cycle heals all words, and opens the pages that were left.
    begin 0 normal : cycle 2; w0 scan : scanned 1; w0 scan : scanned 65; w0 scan : scanned 66
    endmark : doomed 0; endclear : ok; endsweep : ok; select : refused 18 NoRoom
    w0 move : refused 12 WrongPhase; endmove : refused 12 WrongPhase; m0 new s5 0 : object 67
    m0 load s6 s0 0 : object 66; m0 get s7 s6 : object 65";

#[test]
fn no_step_takes_memory_while_objects_move(rt: HostRuntime) {
    let memory = Rationed::new(rt.alloc());
    let mut world = world_of(&rt, &memory, TWO_PAGES);
    memory.ration(0);
    agree(&rt, &mut world, "m0 new s0 1 : object 1");
    make_in(&rt, &mut world, 1, 2..66);
    agree(&rt, &mut world, MOVES);
    assert!(rt; !memory.lift(), "no request is refused");
    world.end();
}

/// The reply to a step, which is asked in fewer bytes where it is of the heap alone.
fn replied<A: Allocator + Copy>(world: &mut World<A>, step: Step) -> Reply {
    match step {
        Step::Plain(step) => world.ask(step).reply(),
        step => world.step(step),
    }
}

/// A world whose steps are done, or asked in fewer bytes where they are of the heap alone.
struct Asked<A: Allocator + Copy> {
    world: World<A>,
    is_asked: bool,
}

impl<A: Allocator + Copy> Steps for Asked<A> {
    fn step(&mut self, step: Step) -> Told {
        if self.is_asked {
            Told::Reply(replied(&mut self.world, step))
        } else {
            Told::Reply(World::step(&mut self.world, step))
        }
    }
}

/// Each step once, behind `IN_HAND` and a put of reference 2, but for a put of a batch. Nothing was ever put into queue
/// 1.
const EACH_STEP: &'static str = "
    m0 new s2 8 : object 3; m0 store s2 7 s0 : ok; m0 load s3 s2 7 : object 1; m0 copy s4 s2 : object 3
    m0 drop s4 : ok; m0 weak s4 s2 q1 0 : object 4; m0 get s5 s4 : object 3; m0 refers s4 s5 : true
    m0 unhook s4 : notice 4 q1 own; m0 put : refused 3 NoMemory; m0 adopt s6 : object 4
    m0 poll q0 : took 2; m0 put : already; m0 release : ok; m0 clear s4 : ok; m0 new s7 0 : object 5
    m0 weak s8 s7 q1 0 : object 6; m0 drop s7 : ok; begin 5 normal : cycle 1; w0 scan : scanned 1
    w0 scan : scanned 2; w0 scan : scanned 3; w0 scan : scanned 4; w0 scan : scanned 6; endmark : doomed 1
    w0 clearnext : cleared 6; endclear : ok; w0 sweep : swept 1; endsweep : ok
    w0 hands 32 : notices 6 q1 cycle 1 w0";

/// Its rows are so with no memory, where each step is done, and where it is asked.
fn take_no_memory(rt: &impl Abort, alloc: Global, is_asked: bool) {
    let memory = Rationed::new(alloc);
    let world = world_of(rt, &memory, TWO_QUEUES);
    let mut asked = Asked { world, is_asked };
    agree(rt, &mut asked, IN_HAND);
    agree(rt, &mut asked, "m0 put : added 0");
    memory.ration(0);
    agree(rt, &mut asked, EACH_STEP);
    let puts = Step::Puts {
        actor: Actor::Worker(WorkerNo(0)),
    };
    let wanting = outs(0, &[Done::Refused(Fault::NoMemory)]);
    let reply = replied(&mut asked.world, puts);
    assert!(rt; reply == wanting, "{puts}");
    let rest = "
        w0 put : refused 3 NoMemory; m0 polls q1 32 : empty; w0 release : ok
        m0 close q0 : ok; m0 poll q0 : closed";
    agree(rt, &mut asked, rest);
    let Asked {
        world,
        is_asked: _is_asked,
    } = asked;
    world.end();
}

#[test]
fn no_step_takes_memory_but_a_put(rt: HostRuntime) {
    take_no_memory(&rt, rt.alloc(), false);
    take_no_memory(&rt, rt.alloc(), true);
}
