//! The judge of a trace: all states of a collector that fit its rows so far.

ghost use Rattle.std.specs.Prelude.{◌≡◌, ◌&&◌, not, true, false, if◌then◌else◌, Ok, Err, MatchResult, IfOk, replicate};
ghost use Rattle.ref_base.specs.Graphs.{is_there};
ghost use Rattle.ref_base.specs.Limits.{is_within_limits};
ghost use Rattle.ref_base.specs.Members.{has};
ghost use Rattle.ref_objects.specs.Grounds.{first_ground};
ghost use Rattle.ref_judge.specs.Judged.{has_one, is_behind_mark, has_one_answer, first_judged, no_finder, no_line};
ghost use Rattle.ref_judge.specs.Standing.{DoesAs, TellsOf, TakesRow, ObjectsTo, HasOneAnswer, IsNewJudge};
ghost use Rattle.ref_judge.specs.Standing.{refused_so, reply_of_result, IsLegalIn, NamesAnswer};

mod breaking;
mod candidates;
mod clearing;
mod marking;
mod moving;
mod mutating;
mod queueing;

use crate::Profile;
use crate::hands::Hands;
use crate::line::Line;
use crate::rule::{Breach, Instead, Objection};
use crate::stop::Stop;
use crate::worker::Worker;
use candidates::MOST_CANDIDATES;
use ref_base::{
    Actor, Config, Fault, MutNo, ObjNo, Phase, PlainStep, Policy, QueueNo, Reply, Row, Step,
    Urgency,
};
use ref_objects::{Objects, Worklist};
use std::alloc::{AllocError, Allocator, Global};
use std::marker::Model;

/// The judge of a trace, row by row.
///
/// What a collector is free in is whether it says that an object is left to scan, and which references its workers
/// found. All else its rows tell, so that all states that fit are described by one value.
#[derive(Drop)]
pub struct Judge<A: Allocator = Global> {
    config: Config,
    profile: Profile,
    // The objects, and what the slots hold. In a mark those are marked that may be kept.
    objects: Objects<A>,
    // How many holds are out: each is a notice in a hand or in a queue.
    holds: u64,
    hands: Hands<A>,
    lines: Vec<Line<A>, A>,
    workers: Vec<Worker<A>, A>,
    phase: Phase,
    cycle: u64,
    policy: Policy,
    // The number of the next object as the cycle began.
    born: u64,
    // How many objects the cycle scanned.
    scanned: u32,
    // Whether it may be said that an object is left to scan, and that none is.
    may_be_left: bool,
    may_be_none: bool,
    // Whether it was said that a reference is left to look at, and none was looked at since.
    some_left: bool,
    // Whether objects were chosen to move since a cycle ended.
    was_chosen: bool,
    // What kept paths lead to and wasn't followed yet: empty between rows.
    grey: Worklist<A>,
    // What the last mark doomed and no sweep freed, in order.
    doomed: Worklist<A>,
}

impl<A: Allocator> Model for Judge<A> {
    ghost use Rattle.ref_judge.specs.Judged.{Judged};
    ghost use Rattle.ref_judge.specs.Standing.{IsOfSomeState};

    ghost Value = { Judged };

    ghost view = { λ j. record {
      config = j.config;
      profile = j.profile;
      ground = j.objects;
      holds = j.holds;
      hands = j.hands;
      lines = j.lines.items;
      workers = j.workers.items;
      phase = j.phase;
      cycle = j.cycle;
      policy = j.policy;
      born = j.born;
      scanned = j.scanned;
      may_be_left = j.may_be_left;
      may_be_none = j.may_be_none;
      some_left = j.some_left;
      was_chosen = j.was_chosen;
      grey = j.grey;
      doomed = j.doomed;
    } };

    ghost invariant = { λ j. IsOfSomeState (record {
      config = j.config;
      profile = j.profile;
      ground = j.objects;
      holds = j.holds;
      hands = j.hands;
      lines = j.lines.items;
      workers = j.workers.items;
      phase = j.phase;
      cycle = j.cycle;
      policy = j.policy;
      born = j.born;
      scanned = j.scanned;
      may_be_left = j.may_be_left;
      may_be_none = j.may_be_none;
      some_left = j.some_left;
      was_chosen = j.was_chosen;
      grey = j.grey;
      doomed = j.doomed;
    }) };
}

impl<A: Allocator + Copy> Judge<A> {
    /// A judge of a trace that begins with no object, of a collector with this configuration and profile. The errors
    /// are `BadConfig` and `NoMemory`.
    pub fn new(alloc: A, config: Config, profile: Profile) -> Result<Self, Fault>
        ensures refused { MatchResult result (λ _. is_within_limits config ≡ true)
            (λ fault. fault ≡ (if is_within_limits config then Fault.NoMemory else Fault.BadConfig)) }
        ensures stands { IfOk result (λ judge. IsNewJudge profile config judge) }
    {
        let objects = Objects::new(alloc, config, 0)?;
        match with_objects(alloc, config, profile, objects) {
            Ok(judge) => Ok(judge),
            Err(_) => Err(Fault::NoMemory),
        }
    }

    /// The number of the next object, or 2^32 where none is left. Takes no memory.
    pub fn next_no(&self) -> u64
        ensures { result ≡ self.now.ground.next }
    {
        self.objects.next_no()
    }

    /// Whether an object of this number is there: it was made, and no sweep freed it. Takes logarithmic time and no
    /// memory.
    pub fn is_there(&self, no: ObjNo) -> bool
        ensures { result ≡ is_there self.now.ground.heap.objects no }
    {
        self.objects.has_object(no)
    }

    /// Whether an object of this number is there, and the last mark's end doomed it. Takes logarithmic time and no
    /// memory.
    pub fn is_doomed(&self, no: ObjNo) -> bool
        ensures { result ≡ (is_behind_mark self.now.phase
            && (is_there self.now.ground.heap.objects no && not (has self.now.ground.marked no))) }
    {
        matches!(self.phase, Phase::Clearing | Phase::Sweeping)
            && self.objects.has_object(no)
            && !self.objects.is_marked(no)
    }

    /// Judges the next row. `Illegal` is where no state that fits the rows before has it, with the rule that it breaks,
    /// and an answer that would have been legal if one is found. Of later rows nothing is promised then. `NoMemory`
    /// comes of a scan, a clearing or a put alone, and says nothing of the row: nothing changes, and the row may be
    /// judged again. A begin and a mark's end take the time of the heap, and a batch that of its entries. A poll takes
    /// that of what stands in its queue, and any other row that of a search. A row that is illegal may take the time of
    /// the heap.
    pub fn row(&mut self, row: Row) -> Result<(), Objection>
        ensures { MatchResult result (λ _. TakesRow self.old row self.new)
            (λ objection. ObjectsTo self.old row objection self.new) }
    {
        let Row { step, reply } = row;
        // A name for each use.
        let (asked, chosen, told, other) = (step, step, reply, reply);
        match self.one_answer(asked) {
            Some(answer) => {
                // Gives the proof that the judge's value is of some state.
                let _ = &self.config;
                let (compared, legal) = (answer, answer);
                if is_same(compared, told) {
                    Ok(())
                } else {
                    Err(Objection::Illegal(Breach::by_answer(legal)))
                }
            }
            None => self.chosen(chosen, other),
        }
    }

    // Judges a row of a step of which more than one row may be legal.
    fn chosen(&mut self, step: Step, reply: Reply) -> Result<(), Objection>
        requires { has_one step ≡ false }
        ensures { MatchResult result
            (λ _. TakesRow self.old (record { step = step; reply = reply }) self.new)
            (λ objection. ObjectsTo self.old (record { step = step; reply = reply }) objection self.new) }
    {
        // A name for each use.
        let (asked, broken, chosen) = (step, step, step);
        let (told, other) = (reply, reply);
        match self.chosen_row(asked, told) {
            Ok(()) => Ok(()),
            Err(Stop::Illegal) => {
                let rule = self.rule_of(broken, other);
                let instead = self.first_legal(chosen);
                Err(Objection::Illegal(Breach { rule, instead }))
            }
            Err(Stop::NoMemory) => Err(Objection::NoMemory),
        }
    }

    // The first answer that is legal of those that are tried, where a collector may have a choice. Its row is taken.
    fn first_legal(&mut self, step: Step) -> Instead
        requires { has_one step ≡ false }
        ensures { NamesAnswer self.old step result }
    {
        for at in 0..MOST_CANDIDATES {
            // A name for each use.
            let (asked, tried) = (step, step);
            let Some(reply) = self.candidate(asked, at) else {
                return Instead::Untold;
            };
            let (told, named) = (reply, reply);
            match self.take(tried, told) {
                Ok(()) => return Instead::Among(named),
                Err(Stop::Illegal) => {}
                Err(Stop::NoMemory) => return Instead::Untold,
            }
        }
        Instead::Untold
    }

    // Takes a row whose answer a collector chooses, if it is legal.
    fn take(&mut self, step: Step, reply: Reply) -> Result<(), Stop>
        requires { has_one step ≡ false }
        ensures { MatchResult result (λ _. IsLegalIn self.old step reply) (λ _. self.new ≡ self.old) }
    {
        let result = self.chosen_row(step, reply);
        // Gives the proof that the judge's value is of some state.
        let _ = &self.config;
        result
    }

    /// Takes the row of a step of which one row alone is legal, whatever is free in the rows before, and answers its
    /// reply. `None` is where the collector may have a choice, and then nothing changes. A choice is in scans, looks,
    /// moves, puts, polls, choices of objects, and the ends of marks, of clearing and of moves. The call takes the time
    /// that the row takes.
    pub fn one_answer(&mut self, step: Step) -> Option<Reply>
        ensures { HasOneAnswer self.old step result self.new }
    {
        // Gives the proof that the judge's value is of some state.
        let _ = &self.config;
        match step {
            Step::Plain(step) => self.one_plain_answer(step),
            Step::Unhook { mutator, reference } => Some(answered(self.unhook(mutator, reference))),
            Step::Hand { worker } => Some(answered(self.hand(worker))),
            Step::Hands { worker, max } => Some(answered(self.hands(worker, max))),
            Step::Put { actor } => refused(self.hands.first_of(actor).err()),
            Step::Puts { actor } => refused(self.hands.first_of(actor).err()),
            Step::Poll { mutator, queue } => self.one_poll_answer(mutator, queue),
            Step::Polls {
                mutator,
                queue,
                max,
            } => refused(self.check_polls(mutator, queue, max).err()),
            Step::Adopt { mutator, slot } => Some(answered(self.adopt(mutator, slot))),
            Step::Release { actor } => Some(answered(self.release(actor))),
            Step::Close { mutator, queue } => Some(answered(self.close(mutator, queue))),
        }
    }

    // And of a step that hands nothing over.
    fn one_plain_answer(&mut self, step: PlainStep) -> Option<Reply>
        ensures { HasOneAnswer self.old (Step.Plain step) result self.new }
    {
        // Gives the proof that the judge's value is of some state.
        let _ = &self.config;
        match step {
            PlainStep::Scan { worker } => refused(self.check_work(worker, Phase::Marking).err()),
            PlainStep::EndMark => refused(self.check_phase(Phase::Marking).err()),
            PlainStep::ClearNext { worker } => {
                refused(self.check_work(worker, Phase::Clearing).err())
            }
            PlainStep::EndClear => refused(self.check_phase(Phase::Clearing).err()),
            PlainStep::Select => refused(self.check_select().err()),
            PlainStep::MoveNext { worker } => refused(self.check_work(worker, Phase::Moving).err()),
            PlainStep::EndMove => refused(self.check_phase(Phase::Moving).err()),
            step => Some(answered(self.answer(step))),
        }
    }

    // And of a poll of one.
    fn one_poll_answer(&self, mutator: MutNo, queue: QueueNo) -> Option<Reply>
        ensures { HasOneAnswer self.now (Step.Poll mutator queue) result self.now }
    {
        // Gives the proof that the judge's value is of some state.
        let _ = &self.config;
        match self.check_poll(mutator, queue) {
            Err(fault) => Some(Reply::Refused(fault)),
            Ok(()) => refused(self.hands.check_empty(Actor::Mutator(mutator)).err()),
        }
    }

    // Judges a row of a step whose answer a collector chooses.
    fn chosen_row(&mut self, step: Step, reply: Reply) -> Result<(), Stop>
        requires { has_one step ≡ false }
        ensures { TellsOf self.old (record { step = step; reply = reply }) result self.new }
    {
        match step {
            Step::Plain(step) => self.chosen_plain_row(step, reply),
            Step::Put { actor } => self.put(actor, reply),
            Step::Puts { actor } => self.puts(actor, reply),
            Step::Poll { mutator, queue } => self.poll(mutator, queue, reply),
            Step::Polls {
                mutator,
                queue,
                max,
            } => self.polls(mutator, queue, max, reply),
            _ => unreachable!(),
        }
    }

    // And one that hands nothing over.
    fn chosen_plain_row(&mut self, step: PlainStep, reply: Reply) -> Result<(), Stop>
        requires { has_one_answer step ≡ false }
        ensures { TellsOf self.old (record { step = Step.Plain step; reply = reply }) result self.new }
    {
        match step {
            PlainStep::Scan { worker } => self.scan(worker, reply),
            PlainStep::EndMark => self.end_mark(reply),
            PlainStep::ClearNext { worker } => self.clear_next(worker, reply),
            PlainStep::EndClear => self.end_clear(reply),
            PlainStep::Select => self.select(reply),
            PlainStep::MoveNext { worker } => self.move_next(worker, reply),
            PlainStep::EndMove => self.end_move(reply),
            _ => unreachable!(),
        }
    }

    // The one answer of a step that has one.
    fn answer(&mut self, step: PlainStep) -> Result<Reply, Fault>
        requires { has_one_answer step ≡ true }
        ensures { DoesAs self.old (Step.Plain step) result self.new }
    {
        match step {
            PlainStep::New {
                mutator,
                slot,
                fields,
            } => self.make(mutator, slot, fields),
            PlainStep::Refer {
                mutator,
                strength,
                slot,
                source,
                queue,
                fields,
            } => self.refer(mutator, strength, slot, source, queue, fields),
            PlainStep::Store {
                mutator,
                object,
                field,
                value,
            } => self.store(mutator, object, field, value),
            PlainStep::Load {
                mutator,
                slot,
                object,
                field,
            } => self.load(mutator, slot, object, field),
            PlainStep::Copy {
                mutator,
                slot,
                source,
            } => self.copy(mutator, slot, source),
            PlainStep::Drop { mutator, slot } => self.drop_slot(mutator, slot),
            PlainStep::Get {
                mutator,
                slot,
                reference,
            } => self.get(mutator, slot, reference),
            PlainStep::Clear { mutator, reference } => self.clear(mutator, reference),
            PlainStep::RefersTo {
                mutator,
                reference,
                other,
            } => self.refers_to(mutator, reference, other),
            PlainStep::Begin { now, urgency } => self.begin(now, urgency),
            PlainStep::Sweep { worker } => self.sweep(worker),
            PlainStep::EndSweep => self.end_sweep(),
            _ => unreachable!(),
        }
    }
}

// A judge that was told no row, over these objects, which were just made. The one error is `NoMemory`.
fn with_objects<A: Allocator + Copy>(
    alloc: A,
    config: Config,
    profile: Profile,
    objects: Objects<A>,
) -> Result<Judge<A>, AllocError>
    requires { objects ≡ first_ground config 0 (record { obj = 1; cycle = 0; page = 1 }) }
    ensures { IfOk result (λ judge. judge ≡ first_judged profile config objects) }
{
    let hands = Hands::new(alloc, config)?;
    let workers = first_workers(alloc, config.workers)?;
    let lines = first_lines(alloc, config.queues)?;
    let grey = Worklist::new(alloc, config.cells as usize)?;
    let doomed = Worklist::new(alloc, config.cells as usize)?;
    let policy = Policy {
        clock: 0,
        urgency: Urgency::Normal,
        span: config.span,
    };
    Ok(Judge {
        config,
        profile,
        objects,
        holds: 0,
        hands,
        lines,
        workers,
        phase: Phase::Idle,
        cycle: 0,
        policy,
        born: 1,
        scanned: 0,
        may_be_left: false,
        may_be_none: true,
        some_left: false,
        was_chosen: false,
        grey,
        doomed,
    })
}

// As many new workers as the count says. None has found or cleared anything.
fn first_workers<A: Allocator + Copy>(alloc: A, count: u32) -> Result<Vec<Worker<A>, A>, AllocError>
    ensures { IfOk result (λ workers. workers.items ≡ replicate count no_finder) }
{
    let mut workers = Vec::with_capacity(alloc, count as usize)?;
    for _worker in 0..count {
        workers.push_reserved(Worker::new(alloc));
    }
    Ok(workers)
}

// As many new queues as the count says. Each is open, and nothing was put into it.
fn first_lines<A: Allocator + Copy>(alloc: A, count: u32) -> Result<Vec<Line<A>, A>, AllocError>
    ensures { IfOk result (λ lines. lines.items ≡ replicate count no_line) }
{
    let mut lines = Vec::with_capacity(alloc, count as usize)?;
    for _queue in 0..count {
        lines.push_reserved(Line::new(alloc));
    }
    Ok(lines)
}

// Whether two replies are the same.
fn is_same(answer: Reply, reply: Reply) -> bool
    ensures same { result ≡ true → answer ≡ reply }
    ensures differ { result ≡ false → answer ≡ reply → ⊥ }
{
    answer == reply
}

// The reply of a step that is refused so.
fn refused(fault: Option<Fault>) -> Option<Reply>
    ensures { result ≡ refused_so fault }
{
    match fault {
        Some(fault) => Some(Reply::Refused(fault)),
        None => None,
    }
}

// The reply of a step that is accepted or refused so.
fn answered(answer: Result<Reply, Fault>) -> Reply
    ensures { result ≡ reply_of_result answer }
{
    match answer {
        Ok(reply) => reply,
        Err(fault) => Reply::Refused(fault),
    }
}

// A row is legal, or it isn't.
fn is_legal(legal: bool) -> Result<(), Stop>
    ensures { result ≡ (if legal then Ok tt else Err Stop.Illegal) }
{
    if legal { Ok(()) } else { Err(Stop::Illegal) }
}

// Whether a step is refused with this fault, and answered so.
fn is_refused(fault: Fault, reply: Reply) -> Result<(), Stop>
    ensures { MatchResult result (λ _. Reply.Refused fault ≡ reply)
        (λ stop. (stop ≡ Stop.Illegal) × (Reply.Refused fault ≡ reply → ⊥)) }
{
    is_legal(reply == Reply::Refused(fault))
}
