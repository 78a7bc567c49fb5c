//! A line of a script, read as a step: by one table of names for each kind of actor, and one for none.

ghost use Rattle.std.specs.Prelude.{◌≡◌, ◌∷◌, [], MatchResult, MatchOption, Some, None};
ghost use Rattle.ref_base.specs.Steps.{strength_name};
ghost use Rattle.ref_base.specs.Texts.{Numbered, mutator, worker};
ghost use Rattle.ref_script.specs.Lines.{words_of};
ghost use Rattle.ref_script.specs.OperandReading.{reading, IsReadNamed, IsReadBehind, IsReadAs};
ghost use Rattle.ref_script.specs.ScriptSteps.{script_step_words};
ghost use Rattle.ref_script.specs.Spelling.{SpellsScriptStep};
ghost use Rattle.ref_script.specs.StepFaults.{actor_fault, step_fault};
ghost use Rattle.ref_script.specs.StepForms.{operands_in, forms_of_letter, mutator_forms, worker_forms, turn_forms};
ghost use Rattle.ref_script.specs.StepForms.{Slot, QueueOrNone, Number};

use crate::lines::{is_name, next_word};
use crate::operands::Operands;
use crate::script_step::ScriptStep;
use ref_base::{Actor, MutNo, PlainStep, Step, Strength, WorkerNo};
use ref_text::LineFault;

/// A table of steps by name: returns the step that has this name, if one has it. Operands are taken for that one alone.
/// A `match` on byte strings would go letter by letter, and a proof of its last arm over each way through the letters.
macro_rules! step_named {
    ($word:ident: $($name:literal => $step:expr,)*) => {
        $(if is_name($word, $name) {
            return Some($step);
        })*
        None
    };
}

/// The step that a line spells, or the first of its faults by kind.
pub fn step_of(line: &[u8]) -> Result<ScriptStep, LineFault>
    ensures { MatchResult result (SpellsScriptStep (words_of line.now)) (λ fault. step_fault
        (words_of line.now) ≡ Some fault) }
{
    let (first, rest) = next_word(line).ok_or(LineFault::UnknownStep)?;
    let mut operands = Operands::new(rest);
    let Some(step) = turn(first, &mut operands) else {
        return actor_step(first, rest);
    };
    operands.end(step)
}

/// The step of a mutator or a worker.
fn actor_step(actor: &[u8], rest: &[u8]) -> Result<ScriptStep, LineFault>
    ensures { MatchResult result (SpellsScriptStep (actor.now ∷ words_of rest.now)) (λ fault. actor_fault actor.now
        (words_of rest.now) ≡ Some fault) }
{
    let (name, rest) = next_word(rest).ok_or(LineFault::UnknownStep)?;
    let (letter, number) = actor.split_first().ok_or(LineFault::UnknownStep)?;
    let (number, mut operands) = Operands::of_actor(number, rest);
    let Some(step) = named_step(*letter, number, name, &mut operands) else {
        return Err(LineFault::UnknownStep);
    };
    operands.end(step)
}

/// The step of an actor of this letter and number.
fn named_step(
    letter: u8,
    number: u32,
    name: &[u8],
    operands: &mut Operands<'_>,
) -> Option<ScriptStep>
    ensures { IsReadAs (forms_of_letter letter) (Numbered (letter ∷ []) number) name.now operands.old operands.new
        result }
{
    match letter {
        b'm' => mutator_step(MutNo(number), name, operands),
        b'w' => worker_step(WorkerNo(number), name, operands),
        _ => None,
    }
}

/// The step of a mutator.
fn mutator_step(by: MutNo, name: &[u8], operands: &mut Operands<'_>) -> Option<ScriptStep>
    ensures { IsReadAs mutator_forms (mutator by) name.now operands.old operands.new result }
{
    step_named! { name:
        b"job" => ScriptStep::Job { mutator: by, slot: operands.slot(), number: operands.number() },
        b"run" => ScriptStep::Run { mutator: by, slot: operands.slot() },
        b"new" => plain(PlainStep::New {
            mutator: by, slot: operands.slot(), fields: operands.number(),
        }),
        b"soft" => refer(by, Strength::Soft, operands),
        b"weak" => refer(by, Strength::Weak, operands),
        b"phantom" => refer(by, Strength::Phantom, operands),
        b"store" => plain(PlainStep::Store {
            mutator: by, object: operands.slot(), field: operands.number(), value: operands.slot(),
        }),
        b"load" => plain(PlainStep::Load {
            mutator: by, slot: operands.slot(), object: operands.slot(), field: operands.number(),
        }),
        b"copy" => plain(PlainStep::Copy {
            mutator: by, slot: operands.slot(), source: operands.slot(),
        }),
        b"drop" => plain(PlainStep::Drop { mutator: by, slot: operands.slot() }),
        b"get" => plain(PlainStep::Get {
            mutator: by, slot: operands.slot(), reference: operands.slot(),
        }),
        b"clear" => plain(PlainStep::Clear { mutator: by, reference: operands.slot() }),
        b"refers" => plain(PlainStep::RefersTo {
            mutator: by, reference: operands.slot(), other: operands.slot(),
        }),
        b"unhook" => world(Step::Unhook { mutator: by, reference: operands.slot() }),
        b"put" => world(Step::Put { actor: Actor::Mutator(by) }),
        b"poll" => world(Step::Poll { mutator: by, queue: operands.queue() }),
        b"adopt" => world(Step::Adopt { mutator: by, slot: operands.slot() }),
        b"release" => world(Step::Release { actor: Actor::Mutator(by) }),
        b"close" => world(Step::Close { mutator: by, queue: operands.queue() }),
        b"puts" => world(Step::Puts { actor: Actor::Mutator(by) }),
        b"polls" => world(Step::Polls {
            mutator: by, queue: operands.queue(), max: operands.number(),
        }),
    }
}

/// The step of a worker.
fn worker_step(by: WorkerNo, name: &[u8], operands: &mut Operands<'_>) -> Option<ScriptStep>
    ensures { IsReadAs worker_forms (worker by) name.now operands.old operands.new result }
{
    step_named! { name:
        b"scan" => plain(PlainStep::Scan { worker: by }),
        b"clearnext" => plain(PlainStep::ClearNext { worker: by }),
        b"hand" => world(Step::Hand { worker: by }),
        b"sweep" => plain(PlainStep::Sweep { worker: by }),
        b"move" => plain(PlainStep::MoveNext { worker: by }),
        b"put" => world(Step::Put { actor: Actor::Worker(by) }),
        b"puts" => world(Step::Puts { actor: Actor::Worker(by) }),
        b"release" => world(Step::Release { actor: Actor::Worker(by) }),
        b"hands" => world(Step::Hands { worker: by, max: operands.number() }),
    }
}

/// The turn of a cycle or of moves of this name.
fn turn(name: &[u8], operands: &mut Operands<'_>) -> Option<ScriptStep>
    ensures { MatchOption result (operands_in turn_forms name.now ≡ None)
        (λ step. IsReadNamed (operands_in turn_forms name.now) name.now (reading operands.old)
        (reading operands.new) (script_step_words step)) }
{
    step_named! { name:
        b"begin" => plain(PlainStep::Begin { now: operands.clock(), urgency: operands.urgency() }),
        b"endmark" => plain(PlainStep::EndMark),
        b"endclear" => plain(PlainStep::EndClear),
        b"endsweep" => plain(PlainStep::EndSweep),
        b"select" => plain(PlainStep::Select),
        b"endmove" => plain(PlainStep::EndMove),
    }
}

/// The step that makes a reference.
fn refer(by: MutNo, strength: Strength, operands: &mut Operands<'_>) -> ScriptStep
    ensures { IsReadBehind (Some (Slot ∷ Slot ∷ QueueOrNone ∷ Number ∷ [])) (mutator by) (strength_name strength)
        (reading operands.old) (reading operands.new) (script_step_words result) }
{
    plain(PlainStep::Refer {
        mutator: by,
        strength,
        slot: operands.slot(),
        source: operands.slot(),
        queue: operands.queue_or_none(),
        fields: operands.number(),
    })
}

/// A step of the world.
fn world(step: Step) -> ScriptStep
    ensures { result ≡ ScriptStep.World step }
{
    ScriptStep::World(step)
}

/// A step of the heap alone.
fn plain(step: PlainStep) -> ScriptStep
    ensures { result ≡ ScriptStep.World (Step.Plain step) }
{
    world(Step::Plain(step))
}
