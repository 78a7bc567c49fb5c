//! A whole script: its header, its configuration and its steps.

ghost use Rattle.std.specs.Prelude.{◌≡◌, ◌+◌, ◌≤◌, ◌^◌, true, [], ◌∷◌, ◌++◌, Some, None, OnOk, length, IfOk, IfErr};
ghost use Rattle.std.specs.List.{list_all};
ghost use Rattle.ref_script.specs.Lines.{lines_of, words_of, most_bytes};
ghost use Rattle.ref_script.specs.LineReading.{FailsFor};
ghost use Rattle.ref_script.specs.Numerals.{number_below};
ghost use Rattle.ref_script.specs.Scripts.{config_of, config_from, SpellSteps, AreScript};
ghost use Rattle.ref_script.specs.Spelling.{SpellsScriptStep};
ghost use Rattle.ref_script.specs.StepFaults.{step_fault};
ghost use Rattle.ref_script.specs.TextFaults.{ScriptHeader, Steps, fault_or, first_fault};
ghost use Rattle.ref_script.specs.ToldLines.{is_plain_line, told};
ghost use Rattle.ref_script.specs.declared.script_step.ScriptStep.{ScriptStep};

use crate::lines::next_word;
use crate::numerals::{long_number, short_number};
use crate::script_step::ScriptStep;
use crate::steps::step_of;
use crate::told::Lines;
use crate::version::{header_rule, is_in_version};
use ref_base::{Config, SpanRule};
use ref_text::{LineFault, TextFault};
use std::alloc::Allocator;

/// What a script says.
#[derive(Drop)]
pub struct Script<A: Allocator> {
    /// The configuration, of the script's version and within its limits.
    pub config: Config,
    /// The steps, in the order of their lines.
    pub steps: Vec<ScriptStep, A>,
}

/// The script that a text spells, or the fault of its first faulty line, or `NoMemory`.
pub fn script_of<A: Allocator>(alloc: A, text: &[u8]) -> Result<Script<A>, TextFault>
    requires { length text.now ≤ most_bytes }
    ensures found { IfOk result (λ script. AreScript (lines_of text.now) script.config script.steps.items) }
    ensures fault { IfErr result (λ e. FailsFor e (first_fault ScriptHeader 1 (lines_of text.now))) }
{
    let mut lines = Lines::of(text);
    let Some(line) = lines.next_told()? else {
        return Err(TextFault::Line(lines.number() + 1, LineFault::BadHeader));
    };
    let Some(rule) = header_rule(line) else {
        return Err(TextFault::Line(lines.number(), LineFault::BadHeader));
    };
    let Some(line) = lines.next_told()? else {
        return Err(TextFault::Line(lines.number() + 1, LineFault::BadConfig));
    };
    let Some(config) = config_of(line, rule) else {
        return Err(TextFault::Line(lines.number(), LineFault::BadConfig));
    };
    if !is_in_version(&config) {
        return Err(TextFault::Line(lines.number(), LineFault::BadConfig));
    }
    let steps = steps_of(alloc, &mut lines)?;
    Ok(Script { config, steps })
}

/// The steps of the lines behind the configuration.
fn steps_of<A: Allocator>(alloc: A, lines: &mut Lines<'_>) -> Result<Vec<ScriptStep, A>, TextFault>
    ensures spelt { IfOk result (λ steps. SpellSteps (told lines.old.lines) steps.items) }
    ensures plain { IfOk result (λ steps. list_all is_plain_line lines.old.lines ≡ true) }
    ensures fault { IfErr result (λ e. FailsFor e (first_fault Steps (lines.old.number + 1) lines.old.lines)) }
{
    let mut steps = Vec::new(alloc);
    while let Some(content) = lines.next_told()? {
        add_step(&mut steps, content, lines.number())?;
    }
    Ok(steps)
}

/// Adds the step of the line of this number.
fn add_step<A: Allocator>(
    steps: &mut Vec<ScriptStep, A>,
    content: &[u8],
    number: u64,
) -> Result<(), TextFault>
    ensures ok { OnOk result ((step : ScriptStep) × SpellsScriptStep (words_of content.now) step ×
        (steps.new.items ≡ steps.old.items ++ step ∷ [])) }
    ensures fault { IfErr result (λ e. FailsFor e (fault_or number (step_fault (words_of content.now)) None)) }
{
    let step = step_of(content).map_err(|fault| TextFault::Line(number, fault))?;
    steps.push(step)?;
    Ok(())
}

/// The configuration that a line spells behind a header of this rule, within its limits or not.
pub fn config_of(line: &[u8], rule: SpanRule) -> Option<Config>
    ensures { result ≡ config_of rule (words_of line.now) }
{
    let (name, rest) = next_word(line)?;
    let (mutators, rest) = next_word(rest)?;
    let (workers, rest) = next_word(rest)?;
    let (queues, rest) = next_word(rest)?;
    let (cells, rest) = next_word(rest)?;
    let (span, rest) = next_word(rest)?;
    if next_word(rest).is_some() || name != b"config".as_slice() {
        return None;
    }
    config_from(rule, mutators, workers, queues, cells, span)
}

/// The configuration of this rule and of the numbers that these words spell.
fn config_from(
    rule: SpanRule,
    mutators: &[u8],
    workers: &[u8],
    queues: &[u8],
    cells: &[u8],
    span: &[u8],
) -> Option<Config>
    ensures { result ≡ config_from rule (number_below (2 ^ 32) mutators.now) (number_below (2 ^ 32) workers.now)
        (number_below (2 ^ 32) queues.now) (number_below (2 ^ 32) cells.now) (number_below (2 ^ 64) span.now) }
{
    Some(Config {
        mutators: short_number(mutators)?,
        workers: short_number(workers)?,
        queues: short_number(queues)?,
        cells: short_number(cells)?,
        span: long_number(span)?,
        rule,
    })
}
